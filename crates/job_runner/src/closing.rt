ghost use Rattle.std.specs.Prelude.{◌<◌, ◌≡◌, IsOk, MatchResult};
ghost use Rattle.thread_pool.specs.Teams.{Joins};
ghost use Rattle.job_runner.specs.{All, AreGone, ClosesBare, IsOpenOf, ListsBelow, SeesMore, TicketValue, history_seen};

use crate::contexts::TaskCtx;
use realm_lock::RealmName;
use scope_rules::{Catalog, Refusal, ScopeId, Verdict};
use std::sync::Wait;
use thread_pool::Spawner;

impl<C: Catalog, S: Spawner<N>, N: RealmName> TaskCtx<C, S, N> {
    /// Closes the actor's scope, and all that the actor opened later and has not closed, the latest first
    /// (JEP 505, `close`), and says how the scope was closed: it begins the close, which cancels these,
    /// joins their threads, and ends it. It takes no memory. Refused as `Realm::close_bare` is, so never
    /// for a scope that the token shows as its actor's and not closed. That it returns is not promised.
    pub fn close_scope_bare<R: Wait>(&mut self, rt: &R, scope: ScopeId) -> Result<Verdict, Refusal>
        ensures rest { (self.new ≡ record self.old { token = self.new.token; spawner = self.new.spawner; opened = self.new.opened; team = self.new.team }) × SeesMore self.old.token self.new.token }
        ensures answer { ClosesBare self.old.token self.new.token scope result }
        ensures sure { IsOpenOf (history_seen self.old.token) self.old.token.actor scope → IsOk result }
        ensures left { MatchResult result (λ _. AreGone scope self.new.team × ListsBelow scope self.old.opened.items self.new.opened.items) (λ _. (self.new.team ≡ self.old.team) × (self.new.opened ≡ self.old.opened)) }
    {
        let token = &mut self.token;
        if let Err(refusal) = self.realm.lent().begin_closing(rt, &mut token.held, scope) {
            return Err(refusal);
        }
        self.join_threads(rt, scope);
        let token = &mut self.token;
        let verdict = self.realm.lent().end_closing(rt, &mut token.held, scope);
        self.forget(scope);
        Ok(verdict)
    }

    /// Joins the threads of the scope, and of the scopes that were opened later, the latest first.
    pub(crate) fn join_threads<R: Wait>(&mut self, rt: &R, scope: ScopeId)
        ensures rest { self.new ≡ record self.old { spawner = self.new.spawner; team = self.new.team } }
        ensures team { Joins N.table scope self.old.team self.new.team }
    {
        self.team.join_from(rt, &mut self.spawner, scope);
    }

    /// Forgets what belongs to the scope, which is closed, and to what was opened later.
    pub(crate) fn forget(&mut self, scope: ScopeId)
        ensures rest { self.new ≡ record self.old { opened = self.new.opened; team = self.new.team } }
        ensures opened { ListsBelow scope self.old.opened.items self.new.opened.items }
        ensures running { self.new.team.running ≡ self.old.team.running }
        ensures returned { All (λ (t : TicketValue). t.scope < scope) self.new.team.returned }
    {
        self.opened.retain(|open| open.scope < scope);
        self.team.forget(scope);
    }
}
