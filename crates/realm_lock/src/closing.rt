ghost use Rattle.std.specs.Prelude.{ℕ, ◌≡◌, ◌⊎◌, IfErr, IfOk, IsOk, List};
ghost use Rattle.realm_lock.specs.{All, Begins, ClosesBare, ClosesWith, EndsLater, EndsReported, Fitting, HoldsBack, IsBegun, IsOpenOf, Memory, NotReady, SeesMore, StaysOpen, TicketValue, history_seen, verdict};

use crate::locked::LockedRealm;
use crate::lookouts::{Until, Wanted};
use crate::realm::Realm;
use realm_core::{CloseReport, RealmName};
use scope_rules::{Cancelling, Catalog, Refusal, ScopeId, Verdict};
use share_ledger::{OwnerShare, Ticket};
use std::sync::{MutexGuard, Wait};

impl<C: Catalog, N: RealmName> Realm<C, N> {
    /// Closes the actor's scope, and all that the actor opened later and has not closed, the latest first
    /// (JEP 505, `close`), and says how the scope was closed. It begins the close if need be, and waits until
    /// no task of these waits or runs; the ends are in one hold, that of the beginning if it need not
    /// wait. It takes no memory. Refused if the actor is no running task or main, and for a scope that is unknown
    /// (`NoScope`, `Retired`), another's (`NotOwner`) or closed (`Closed`): so never for a scope that the
    /// token shows as its actor's and not closed. That it returns is not promised.
    pub fn close_bare<R: Wait>(
        &self,
        rt: &R,
        token: &mut OwnerShare,
        scope: ScopeId,
    ) -> Result<Verdict, Refusal>
        requires named { token.old.table ≡ N.table }
        ensures seen { SeesMore token.old token.new × Fitting C.fitting (history_seen token.new) }
        ensures answer { ClosesBare token.old token.new scope result }
        ensures sure { IsOpenOf (history_seen token.old) token.old.actor scope → IsOk result }
    {
        let mut locked = self.shared.lock(rt);
        match locked.begin(token, scope) {
            Ok(_) => Ok(self.end_held(rt, locked, token, scope)),
            Err(refusal) => Err(refusal),
        }
    }

    /// The same with a report. The tickets are handed in of each task that got a thread, of the scopes
    /// that are closed, and no other; each has ended. The report shows each of these scopes' logs, with
    /// one start and one finish of each such task, and its ticket's end; all of it is made before the
    /// first end, in the same hold. Refused as `close_bare` is; and once it has begun only if the
    /// tickets are not these (`NotReady`), and if memory is refused for the report (`Memory`): then the
    /// scope is closing and not closed. Each refusal hands the tickets back, in any order.
    pub fn close<R: Wait>(
        &self,
        rt: &R,
        token: &mut OwnerShare,
        scope: ScopeId,
        mut tickets: Vec<Ticket>,
    ) -> Result<CloseReport, (Refusal, Vec<Ticket>)>
        requires named { token.old.table ≡ N.table }
        requires tickets { All (λ (t : TicketValue). t.table ≡ N.table) tickets.items }
        ensures seen { SeesMore token.old token.new × Fitting C.fitting (history_seen token.new) }
        ensures closed { IfOk result (λ report. ClosesWith token.old token.new scope tickets.items report) }
        ensures refused { IfErr result (λ back. StaysOpen token.old token.new scope tickets.items back.1.items back.0) }
        ensures sure { IsOpenOf (history_seen token.old) token.old.actor scope → IfErr result (λ back. (back.0 ≡ NotReady) ⊎ (back.0 ≡ Memory)) }
    {
        match self.begin_closing(rt, token, scope) {
            Ok(_) => match self.end_reporting(rt, token, scope, &mut tickets) {
                Ok(report) => Ok(report),
                Err(refusal) => Err((refusal, tickets)),
            },
            Err(refusal) => Err((refusal, tickets)),
        }
    }

    /// The hold that begins a close.
    pub fn begin_closing<R: Wait>(
        &self,
        rt: &R,
        token: &mut OwnerShare,
        scope: ScopeId,
    ) -> Result<Cancelling, Refusal>
        requires named { token.old.table ≡ N.table }
        ensures seen { SeesMore token.old token.new × Fitting C.fitting (history_seen token.new) }
        ensures answer { Begins token.old token.new scope result }
        ensures sure { IsOpenOf (history_seen token.old) token.old.actor scope → IsOk result }
    {
        let mut locked = self.shared.lock(rt);
        locked.begin(token, scope)
    }

    /// Waits until the close that has begun can end, and ends it.
    pub fn end_closing<R: Wait>(&self, rt: &R, token: &mut OwnerShare, scope: ScopeId) -> Verdict
        requires named { token.old.table ≡ N.table }
        requires begun { IsBegun (history_seen token.old) token.old.actor scope }
        ensures seen { SeesMore token.old token.new × Fitting C.fitting (history_seen token.new) }
        ensures ends { (nested : List ℕ) × EndsLater token.old token.new scope nested }
        ensures verdict { result ≡ verdict (history_seen token.new) scope }
    {
        let locked = self.shared.lock(rt);
        self.end_held(rt, locked, token, scope)
    }

    /// The same, if the lock is held.
    fn end_held<'a, R: Wait>(
        &'a self,
        rt: &R,
        locked: MutexGuard<'a, LockedRealm<C, N>>,
        token: &mut OwnerShare,
        scope: ScopeId,
    ) -> Verdict
        requires named { token.old.table ≡ N.table }
        requires begun { IsBegun (history_seen token.old) token.old.actor scope }
        ensures seen { SeesMore token.old token.new × Fitting C.fitting (history_seen token.new) }
        ensures ends { (nested : List ℕ) × EndsLater token.old token.new scope nested }
        ensures verdict { result ≡ verdict (history_seen token.new) scope }
    {
        let mut locked = locked;
        for _ in rt.forever() {
            match locked.end_if_settled(token, scope) {
                Some(verdict) => return verdict,
                None => {
                    let waits_for = locked.unsettled(scope);
                    locked = self.sleep_at(rt, locked, Wanted::Scope(waits_for, Until::Settled));
                }
            }
        }
        unreachable!()
    }

    /// Waits until the close that has begun can end, and ends it with a report, if the tickets are
    /// those of it.
    pub fn end_reporting<R: Wait>(
        &self,
        rt: &R,
        token: &mut OwnerShare,
        scope: ScopeId,
        tickets: &mut Vec<Ticket>,
    ) -> Result<CloseReport, Refusal>
        requires named { token.old.table ≡ N.table }
        requires tickets { All (λ (t : TicketValue). t.table ≡ N.table) tickets.old.items }
        requires begun { IsBegun (history_seen token.old) token.old.actor scope }
        ensures seen { SeesMore token.old token.new × Fitting C.fitting (history_seen token.new) }
        ensures done { IfOk result (λ report. EndsReported token.old token.new scope tickets.old.items report) }
        ensures not { IfErr result (λ refusal. HoldsBack token.old token.new scope tickets.old.items tickets.new.items refusal) }
    {
        let mut locked = self.shared.lock(rt);
        for _ in rt.forever() {
            match locked.report_if_settled(token, scope, tickets) {
                Some(answer) => return answer,
                None => {
                    let waits_for = locked.unsettled(scope);
                    locked = self.sleep_at(rt, locked, Wanted::Scope(waits_for, Until::Settled));
                }
            }
        }
        unreachable!()
    }
}
