ghost use Rattle.std.specs.Prelude.{ℕ, ◌≡◌, ◌≤◌, Err, IfErr, IfOk, IfSome, IsNone, IsTrue, MatchOption, MatchResult, None, Ok, Some};
ghost use Rattle.once_cell.specs.Once.{Agrees};
ghost use Rattle.realm_lock.specs.{Fitting, FoundUnsettled, HasCome, HasPassed, IsBegun, IsOpenOf, SeesMore, StaysUnclosed, Stopped, StopsClosing, Waited, WaitsToClose, history_seen, said_by, shown_in};

use crate::lookouts::{Until, Wanted};
use crate::realm::Realm;
use crate::timed_waiters::BellWait;
use crate::times::Time;
use cancel_marks::{Mark, MarkCell, Seat};
use realm_core::RealmName;
use scope_rules::{Catalog, Refusal, ScopeId};
use share_ledger::OwnerShare;
use std::sync::Wait;

/// The waits by a clock (Trio, whose run loop wakes at the next deadline): each does what the wait of the
/// same name does, and passes the realm's time meanwhile, so that deadlines pass while all wait. It sleeps
/// until it is woken or a deadline in effect for it has come; one of those who wait so wakes at each deadline,
/// whoever owns it, and when its wait ends another does. Who wakes ticks to what its clock reads, if a deadline
/// has come: so there is at most one tick for each deadline, however many wait. A tick that is refused, as
/// if the load is used up (`TooMany`), is the wait's answer, and what it waited for hasn't been done. The
/// clock is read without the lock. That a wait wakes in time is not promised.
impl<C: Catalog, N: RealmName> Realm<C, N> {
    /// Begins to close the actor's scope, if need be, as `begin_close` does, and waits until the close can
    /// end: until no task waits or runs of the scope, and of what its owner opened later. Then `close` and
    /// `close_bare` need not wait. Refused as a close is before it begins, and if a tick is.
    pub fn await_close_by<R: Wait, T: Time>(
        &self,
        rt: &R,
        token: &mut OwnerShare,
        scope: ScopeId,
        time: &mut T,
    ) -> Result<(), Refusal>
        requires named { token.old.table ≡ N.table }
        ensures seen { SeesMore token.old token.new × Fitting C.fitting (history_seen token.new) }
        ensures answer { MatchResult result (λ _. WaitsToClose T.reads token.old token.new time.old time.new scope) (StaysUnclosed T.reads token.old token.new time.old time.new scope) }
        ensures settled { IfOk result (λ _. IsBegun (history_seen token.new) token.old.actor scope × FoundUnsettled (history_seen token.new) scope None) }
        ensures sure { IsOpenOf (history_seen token.old) token.old.actor scope → IfErr result (StopsClosing T.reads token.old token.new time.old time.new scope) }
    {
        match self.begin_closing(rt, token, scope) {
            Ok(_) => self.await_ends_by(rt, token, scope, time),
            Err(refusal) => Err(refusal),
        }
    }

    /// Waits until the close that has begun can end.
    fn await_ends_by<R: Wait, T: Time>(
        &self,
        rt: &R,
        token: &mut OwnerShare,
        scope: ScopeId,
        time: &mut T,
    ) -> Result<(), Refusal>
        requires named { token.old.table ≡ N.table }
        requires begun { IsBegun (history_seen token.old) token.old.actor scope }
        ensures seen { SeesMore token.old token.new × Fitting C.fitting (history_seen token.new) }
        ensures answer { MatchResult result (λ _. Waited T.reads token.old time.old token.new time.new) (Stopped T.reads token.old token.new time.old time.new) }
        ensures begun { IsBegun (history_seen token.new) token.old.actor scope }
        ensures settled { IfOk result (λ _. FoundUnsettled (history_seen token.new) scope None) }
    {
        let mut owed = None;
        for _ in rt.forever() {
            let now = time.read();
            let mut locked = self.shared.lock(rt);
            match locked.is_settled_in_time(token, scope, now) {
                Ok(true) => {
                    self.hand_on(&locked, owed);
                    return Ok(());
                }
                Ok(false) => {
                    let wanted = Wanted::Scope(locked.unsettled(scope), Until::Settled);
                    owed = self.park(rt, locked, now, None, wanted, owed);
                }
                Err(refusal) => {
                    self.hand_on(&locked, owed);
                    return Err(refusal);
                }
            }
        }
        unreachable!()
    }

    /// Waits until the cell of a scope of this realm is set, as `wait_marked` does, and gives the mark; or
    /// until the time `until`, in milliseconds, and gives none (Trio, `sleep_until`). If a bell is given, it gives none
    /// too once that has rung. If both have
    /// come it gives the mark; a deadline that has come by `until` is passed first.
    pub fn wait_marked_by<R: Wait, T: Time>(
        &self,
        rt: &R,
        token: &mut OwnerShare,
        cell: &MarkCell,
        seat: &mut Seat,
        time: &mut T,
        until: Option<u64>,
        bell: Option<BellWait<'_>>,
    ) -> Result<Option<Mark>, Refusal>
        requires named { token.old.table ≡ N.table }
        requires seat { seat.old.cell ≡ cell.now }
        ensures token { SeesMore token.old token.new }
        ensures answer { MatchResult result (λ _. Waited T.reads token.old time.old token.new time.new) (Stopped T.reads token.old token.new time.old time.new) }
        ensures cell { seat.new.cell ≡ cell.now }
        ensures mark { MatchOption (shown_in result) ((seat.old.known ≡ None) × (seat.new.known ≡ None)) (λ mark. (mark.seat ≡ seat.new) × (seat.new.known ≡ Some (said_by mark)) × Agrees seat.old.known (said_by mark)) }
        ensures slept { result ≡ Ok None → IsNone bell.entry → HasPassed until (T.reading time.new) }
        ensures passed_all { result ≡ Ok None → IfSome (T.reading time.new) (λ now. HasCome (history_seen token.new) now → ⊥) }
    {
        let mut owed = None;
        for _ in rt.forever() {
            let now = time.read();
            let mut locked = self.shared.lock(rt);
            match locked.marked_in_time(token, cell, seat, now) {
                Ok(None) => {
                    if is_over(until, now, &bell) {
                        self.hand_on(&locked, owed);
                        return Ok(None);
                    }
                    let wanted = Wanted::Sign(Some(cell), bell);
                    owed = self.park(rt, locked, now, until, wanted, owed);
                }
                Ok(Some(mark)) => {
                    self.hand_on(&locked, owed);
                    return Ok(Some(mark));
                }
                Err(refusal) => {
                    self.hand_on(&locked, owed);
                    return Err(refusal);
                }
            }
        }
        unreachable!()
    }

    /// Waits until the time `until`, in milliseconds (Trio, `sleep_until`), or until the bell has rung, whichever is given; no
    /// cancel ends the wait. A deadline that has come by then is passed first.
    pub fn pause_by<R: Wait, T: Time>(
        &self,
        rt: &R,
        token: &mut OwnerShare,
        time: &mut T,
        until: Option<u64>,
        bell: Option<BellWait<'_>>,
    ) -> Result<(), Refusal>
        requires named { token.old.table ≡ N.table }
        ensures token { SeesMore token.old token.new }
        ensures answer { MatchResult result (λ _. Waited T.reads token.old time.old token.new time.new) (Stopped T.reads token.old token.new time.old time.new) }
        ensures slept { IfOk result (λ _. IsNone bell.entry → HasPassed until (T.reading time.new)) }
        ensures passed_all { IfOk result (λ _. IfSome (T.reading time.new) (λ now. HasCome (history_seen token.new) now → ⊥)) }
        ensures fitting { Fitting C.fitting (history_seen token.new) }
    {
        let mut owed = None;
        for _ in rt.forever() {
            let now = time.read();
            let mut locked = self.shared.lock(rt);
            if let Err(refusal) = locked.pass_due(token, now) {
                self.hand_on(&locked, owed);
                return Err(refusal);
            }
            if is_over(until, now, &bell) {
                self.hand_on(&locked, owed);
                return Ok(());
            }
            let wanted = Wanted::Sign(None, bell);
            owed = self.park(rt, locked, now, until, wanted, owed);
        }
        unreachable!()
    }
}

/// The moment until which is slept has come by what was read, or the bell has rung, if there is one.
fn is_over(until: Option<u64>, now: Option<u64>, bell: &Option<BellWait<'_>>) -> bool
    ensures { IsTrue result → IsNone bell.now → (end moment : ℕ) × (until ≡ Some end) × (now ≡ Some moment) × (end ≤ moment) }
{
    if let Some(bell) = bell {
        if bell.has_rung() {
            return true;
        }
    }
    match (until, now) {
        (Some(end), Some(now)) => end <= now,
        _ => false,
    }
}
