ghost use Rattle.std.specs.Prelude.{◌≡◌, MatchResult};
ghost use Rattle.realm_lock.specs.{Fitting, MarkedViewAnswers, Reads, ViewAnswers};

use crate::realm::Realm;
use cancel_marks::Mark;
use realm_core::{RealmName, View, marked_view_of, view_of};
use scope_rules::{Catalog, Event, Refusal, ScopeId};
use share_ledger::OwnerShare;
use std::sync::Wait;

impl<C: Catalog, N: RealmName> Realm<C, N> {
    /// What there is to see of the scope, with any actor's token. It holds all that the token had seen
    /// before. Refused for an unknown scope (`NoScope`, `Retired`), and if memory is refused
    /// (`Memory`).
    pub fn view<R: Wait>(
        &self,
        rt: &R,
        token: &mut OwnerShare,
        scope: ScopeId,
    ) -> Result<View, Refusal>
        requires named { token.old.table ≡ N.table }
        ensures { Reads token.old token.new (λ h. ViewAnswers h scope result × Fitting C.fitting h) }
    {
        let mut locked = self.shared.lock(rt);
        locked.look(token);
        let _fitting = locked.core().limits();
        view_of(locked.core().realm(), scope)
    }

    /// The same, if the scope is cancelled as the mark says: for its cause, by the event at its place
    /// since the last retirement. The two are compared under the lock. Refused also if they differ
    /// (`Unavailable`), which no mark of the scope's own cell is met with.
    pub fn view_with<R: Wait>(
        &self,
        rt: &R,
        token: &mut OwnerShare,
        scope: ScopeId,
        mark: &Mark,
    ) -> Result<View, Refusal>
        requires named { token.old.table ≡ N.table }
        ensures { Reads token.old token.new (λ h. MarkedViewAnswers h scope mark.now.cause mark.now.number result × Fitting C.fitting h) }
    {
        let mut locked = self.shared.lock(rt);
        locked.look(token);
        let _fitting = locked.core().limits();
        marked_view_of(locked.core().realm(), scope, mark.cause, mark.number)
    }

    /// All events since the last retirement, in order, with any actor's token: the history that the token
    /// has seen then, read in one hold. Refused if memory is (`Memory`).
    pub fn history<R: Wait>(&self, rt: &R, token: &mut OwnerShare) -> Result<Vec<Event>, Refusal>
        requires named { token.old.table ≡ N.table }
        ensures { Reads token.old token.new (λ h. MatchResult result (λ events. events.items ≡ h.events) (λ refusal. refusal ≡ Refusal.Memory) × Fitting C.fitting h) }
    {
        let mut locked = self.shared.lock(rt);
        let alloc = locked.alloc();
        locked.look(token);
        let _fitting = locked.core().limits();
        match locked.core().realm().copied_events(alloc) {
            Ok(events) => Ok(events),
            Err(_) => Err(Refusal::Memory),
        }
    }
}
