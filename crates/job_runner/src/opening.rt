ghost use Rattle.std.specs.Prelude.{◌≡◌, MatchResult};
ghost use Rattle.job_runner.specs.{SeesMore, next_scope, policy_of, refusal_alone};

use crate::contexts::{OpenScope, TaskCtx};
use crate::readers::CellReader;
use join_rules::Joiner;
use realm_lock::RealmName;
use scope_rules::{Catalog, Event, Options, Refusal, ScopeId};
use share_ledger::RealmStep;
use std::sync::Wait;
use thread_pool::Spawner;

impl<C: Catalog, S: Spawner<N>, N: RealmName> TaskCtx<C, S, N> {
    ghost use Rattle.job_runner.specs.Lists.{ListsOne};
    ghost use Rattle.job_runner.specs.Rooms.{DoesInRoom};

    /// Opens a scope for the context's actor, inside what lies around it (JEP 505, `open`). Refused as
    /// `Realm::open` is, and before anything is done if there is no room to keep it (`Memory`); the
    /// joiner is then handed back.
    pub fn open<R: Wait>(
        &mut self,
        rt: &R,
        joiner: Joiner,
        options: Options,
    ) -> Result<ScopeId, (Refusal, Joiner)>
        ensures rest { (self.new ≡ record self.old { token = self.new.token; opened = self.new.opened }) × SeesMore self.old.token self.new.token }
        ensures answer { DoesInRoom self.old.token self.new.token (RealmStep.Happened (Event.Open self.old.token.actor (policy_of joiner) options)) next_scope (refusal_alone result) }
        ensures listed { MatchResult result (λ scope. ListsOne scope self.old.opened.items self.new.opened.items) (λ back. (self.new.opened.items ≡ self.old.opened.items) × (back.1 ≡ joiner)) }
    {
        if self.opened.reserve(1).is_err() {
            return Err((Refusal::Memory, joiner));
        }
        let token = &mut self.token;
        match self
            .realm
            .lent()
            .open_marked(rt, &mut token.held, joiner, options)
        {
            Ok((scope, cell, seat)) => {
                let reader = CellReader::new(cell, seat);
                self.opened.push_reserved(OpenScope { scope, reader });
                Ok(scope)
            }
            Err(back) => Err(back),
        }
    }
}
