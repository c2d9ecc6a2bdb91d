ghost use Rattle.std.specs.Prelude.{◌≡◌, IsOk, is_ok};
ghost use Rattle.realm_core.specs.{CanEnd, Does, Stepped, history_of, verdict};

use crate::RealmName;
use crate::state::RealmCore;
use scope_checks::EventReply;
use scope_rules::{Catalog, Event, Refusal, ScopeId, Verdict};
use share_ledger::{OwnerShare, RealmStep};

/// What the end of a close is made of. The hold that ends one records the ends of several scopes, the
/// innermost first, each by one call.
impl<C: Catalog, N: RealmName> RealmCore<C, N> {
    /// Closes the actor's scope. It takes no memory. Refused if the actor is no running task or main,
    /// for a scope that is unknown (`NoScope`, `Retired`), another's (`NotOwner`), not closing
    /// (`WrongStage`) or closed (`Closed`), while the actor has a later scope that is not closed
    /// (`Structure`), and while a task of the scope waits or runs (`NotReady`). If none of this holds it
    /// is never refused.
    pub fn end_close(&mut self, share: &mut OwnerShare, scope: ScopeId) -> Result<Verdict, Refusal>
        requires named { share.old.table ≡ N.table }
        ensures answer { Does share.old share.new (RealmStep.Happened (Event.EndClose share.old.actor scope)) (λ h. verdict h scope) result }
        ensures steps { Stepped self.old self.new share.new (RealmStep.Happened (Event.EndClose share.old.actor scope)) (is_ok result) }
        ensures sure { CanEnd (history_of self.old.steps) share.old.actor scope → IsOk result }
    {
        let actor = share.actor();
        let _legal = self.realm.limits();
        match self.perform(share, &Event::EndClose { actor, scope })? {
            EventReply::Closed(verdict) => Ok(verdict),
            _ => unreachable!(),
        }
    }
}
