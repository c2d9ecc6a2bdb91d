ghost use Rattle.std.specs.Prelude.{[], ◌≡◌, IfOk, is_ok, true};
ghost use Rattle.realm_core.specs.{DoesOrMemory, Performed, Records, Stepped, base_of, history_seen, is_recorded_by, recorded, records, step_by};

use crate::RealmName;
use crate::answers::reply_noted;
use crate::state::RealmCore;
use crate::telling::{tell, tell_retired};
use scope_checks::{EventReply, records};
use scope_rules::{Base, Cancelling, Catalog, Event, Refusal, ScopeId};
use share_ledger::{OwnerShare, RealmStep};

/// The commands with a token. Each leaves in the token all that has happened; `core` says so, and `steps`
/// the very steps that the call has added to the realm's list: its own, or none.
impl<C: Catalog, N: RealmName> RealmCore<C, N> {
    /// Performs the command of the event with the token of its actor, or with any actor's if the event
    /// is a cancel, a move or a tick. If it is accepted, what the token has seen then ends with exactly
    /// its step, and the answer is the rules' on the steps before; else nothing is added, and the refusal,
    /// or that all is so already, is the rules' on what the token has seen by then. `Memory` is answered
    /// only if the command costs load and would be accepted there.
    pub fn perform(&mut self, share: &mut OwnerShare, event: &Event) -> Result<EventReply, Refusal>
        requires named { share.old.table ≡ N.table }
        requires event { is_recorded_by share.old.actor event.now ≡ true }
        ensures steps { Stepped self.old self.new share.new (step_by share.old.actor event.now) (records result) }
        ensures answer { Performed share.old share.new event.now result }
    {
        let result = self.realm.perform(event, false, None);
        tell(&mut self.keeper, share, event, records(&result));
        result
    }

    /// Begins to close the actor's scope: what `perform` does, where the answer says what became of it. It
    /// takes no memory.
    pub fn begin_close(
        &mut self,
        share: &mut OwnerShare,
        scope: ScopeId,
    ) -> Result<Cancelling, Refusal>
        requires named { share.old.table ≡ N.table }
        ensures steps { Stepped self.old self.new share.new (RealmStep.Happened (Event.BeginClose share.old.actor scope)) (recorded result) }
        ensures answer { Records share.old share.new (Event.BeginClose share.old.actor scope) result }
    {
        let actor = share.actor();
        reply_noted(self.perform(share, &Event::BeginClose { actor, scope }))
    }

    /// Takes the events out and leaves a base, once main's outermost scope is closed; what is left goes
    /// on, with numbers after the base's. It answers that base. Refused if the token's actor is no
    /// running task or main, is not main (`NotOwner`), and while main has a scope that is not closed
    /// (`Structure`).
    pub fn retire(&mut self, share: &mut OwnerShare) -> Result<Base, Refusal>
        requires named { share.old.table ≡ N.table }
        ensures steps { Stepped self.old self.new share.new RealmStep.Retirement (is_ok result) }
        ensures answer { DoesOrMemory share.old share.new RealmStep.Retirement base_of result }
        ensures base { IfOk result (λ base. history_seen share.new ≡ record { base = base; events = [] }) }
    {
        let result = self.realm.retire(share.actor());
        tell_retired(&mut self.keeper, share, result.is_ok());
        result
    }
}
