ghost use Rattle.std.specs.Prelude.{◌≡◌, is_ok};
ghost use Rattle.realm_core.specs.{Joins, JoinsBare, Stepped};

use crate::RealmName;
use crate::events::done;
use crate::state::RealmCore;
use crate::telling::tell;
use scope_index::BareOutcome;
use scope_log::ScopeLog;
use scope_rules::{Catalog, Event, Outcome, Refusal, ScopeId};
use share_ledger::{OwnerShare, RealmStep};

/// What a join gives.
#[derive(Drop)]
pub struct Joined {
    /// What the scope's joiner made of the ends of its tasks, or why not.
    pub outcome: Outcome,
    /// The log of the scope, with the join at its end.
    pub log: ScopeLog,
}

impl<C: Catalog, N: RealmName> RealmCore<C, N> {
    /// Joins the actor's scope (JEP 505, `join`). All that it gives is made before the join is recorded,
    /// so want of memory leaves the scope unjoined. Refused if the actor is no running task or main,
    /// for a scope that is unknown (`NoScope`, `Retired`), another's (`NotOwner`), closing or closed
    /// (`Closed`) or joined (`AlreadyJoined`), and while it is neither cancelled nor all its tasks have
    /// ended (`NotReady`).
    pub fn join(&mut self, share: &mut OwnerShare, scope: ScopeId) -> Result<Joined, Refusal>
        requires named { share.old.table ≡ N.table }
        ensures steps { Stepped self.old self.new share.new (RealmStep.Happened (Event.Join share.old.actor scope)) (is_ok result) }
        ensures answer { Joins share.old share.new scope result }
    {
        let actor = share.actor();
        let event = Event::Join { actor, scope };
        match self.realm.realm().join_preview(actor, scope) {
            Ok(preview) => {
                let joined = done(&mut self.realm, &event);
                tell(&mut self.keeper, share, &event, joined.is_ok());
                Ok(Joined {
                    outcome: preview.outcome,
                    log: preview.log,
                })
            }
            Err(refusal) => {
                self.keeper.follow(share);
                Err(refusal)
            }
        }
    }

    /// Joins the actor's scope, and tells its outcome without the lists and without its log. It takes no
    /// memory. Refused as `join` is, but for memory.
    pub fn join_bare(
        &mut self,
        share: &mut OwnerShare,
        scope: ScopeId,
    ) -> Result<BareOutcome, Refusal>
        requires named { share.old.table ≡ N.table }
        ensures steps { Stepped self.old self.new share.new (RealmStep.Happened (Event.Join share.old.actor scope)) (is_ok result) }
        ensures answer { JoinsBare share.old share.new scope result }
    {
        let actor = share.actor();
        let event = Event::Join { actor, scope };
        let joined = done(&mut self.realm, &event);
        tell(&mut self.keeper, share, &event, joined.is_ok());
        match joined {
            Ok(()) => Ok(self.realm.realm().bare_outcome(scope)),
            Err(refusal) => Err(refusal),
        }
    }
}
