ghost use Rattle.std.specs.Prelude.{◌≡◌, Err, IfOk, MatchOption, MatchResult, None, Ok, Some, false, true};
ghost use Rattle.once_cell.specs.Once.{Agrees};
ghost use Rattle.realm_lock.specs.{Fitting, FoundUnsettled, HasCome, IsBegun, IsHeldUp, IsPassed, JoinsInTime, NotReady, TickRefused, Ticks, TakesTurn, TurnRefused, Turned, history_of};
ghost use Rattle.realm_lock.specs.{SeesMore, history_seen, said_by, settled, shown_in};

use crate::joins::JoinAnswer;
use crate::locked::LockedRealm;
use cancel_marks::{Mark, MarkCell, Seat};
use realm_core::{RealmName, reply_done};
use scope_rules::{Catalog, Event, Refusal, ScopeId};
use share_ledger::{OwnerShare, RealmStep};

/// The holds of waits by a clock, which has read `now`: each looks whether the wait is over, and if not, ticks
/// if a deadline has come by then, and looks again.
impl<C: Catalog, N: RealmName> LockedRealm<C, N> {
    /// The moment that was read, if a deadline has come by then.
    fn due(&self, now: Option<u64>) -> Option<u64>
        ensures { MatchOption result (IsPassed (history_of self.now.steps) now) (λ moment. (now ≡ Some moment) × HasCome (history_of self.now.steps) moment) }
    {
        let now = now?;
        match self.next_deadline() {
            Some(deadline) if deadline <= now => Some(now),
            _ => None,
        }
    }

    /// Ticks to the moment, by which a deadline has come. None has come by then that is not passed.
    fn tick_due(&mut self, token: &mut OwnerShare, now: u64) -> Result<(), Refusal>
        requires named { token.old.table ≡ N.table }
        requires due { HasCome (history_of self.old.steps) now }
        ensures ticked { MatchResult result (λ _. Ticks token.old token.new now) (TickRefused token.old token.new now) }
        ensures passed { IfOk result (λ _. (self.new.steps ≡ token.new.seen) × (HasCome (history_of self.new.steps) now → ⊥)) }
        ensures fitting { Fitting C.fitting (history_seen token.new) }
    {
        let _legal = self.core.limits();
        let result = self.core.perform(token, &Event::Tick { now });
        self.setters.catch_up(&mut self.core);
        let _fitting = self.core.limits();
        reply_done(result)
    }

    /// Passes the time: ticks if a deadline has come, and answers whether it did; else it looks.
    pub(crate) fn pass_due(
        &mut self,
        token: &mut OwnerShare,
        now: Option<u64>,
    ) -> Result<bool, Refusal>
        requires named { token.old.table ≡ N.table }
        ensures token { SeesMore token.old token.new }
        ensures passes { MatchResult result (Turned now token.old token.new) (TurnRefused now token.old token.new) }
        ensures passed { IfOk result (λ _. (self.new.steps ≡ token.new.seen) × IsPassed (history_of self.new.steps) now) }
        ensures fitting { Fitting C.fitting (history_seen token.new) }
    {
        match self.due(now) {
            Some(moment) => match self.tick_due(token, moment) {
                Ok(()) => Ok(true),
                Err(refusal) => Err(refusal),
            },
            None => {
                self.look(token);
                let _fitting = self.core.limits();
                Ok(false)
            }
        }
    }

    /// Joins a scope, if it may be joined now, or once the time is passed.
    pub(crate) fn join_in_time<A: JoinAnswer>(
        &mut self,
        token: &mut OwnerShare,
        scope: ScopeId,
        now: Option<u64>,
    ) -> Result<A, Refusal>
        requires named { token.old.table ≡ N.table }
        ensures token { SeesMore token.old token.new }
        ensures answer { JoinsInTime A.joins now token.old token.new scope result }
        ensures busy { result ≡ Err NotReady → settled (history_of self.new.steps) scope ≡ false }
        ensures passed { result ≡ Err NotReady → IsPassed (history_of self.new.steps) now }
        ensures fitting { Fitting C.fitting (history_seen token.new) }
    {
        match self.join(token, scope) {
            Err(Refusal::NotReady) => match self.due(now) {
                Some(moment) => match self.tick_due(token, moment) {
                    Ok(()) => self.join(token, scope),
                    Err(refusal) => Err(refusal),
                },
                None => Err(Refusal::NotReady),
            },
            Err(refusal) => Err(refusal),
            Ok(joined) => Ok(joined),
        }
    }

    /// Whether the close of a scope can end now, or once the time is passed.
    pub(crate) fn is_settled_in_time(
        &mut self,
        token: &mut OwnerShare,
        scope: ScopeId,
        now: Option<u64>,
    ) -> Result<bool, Refusal>
        requires named { token.old.table ≡ N.table }
        requires begun { IsBegun (history_seen token.old) token.old.actor scope }
        ensures token { SeesMore token.old token.new }
        ensures turned { MatchResult result (λ _. TakesTurn now token.old token.new) (TurnRefused now token.old token.new) }
        ensures begun { IsBegun (history_seen token.new) token.old.actor scope }
        ensures settled { result ≡ Ok true → FoundUnsettled (history_seen token.new) scope None }
        ensures held_up { result ≡ Ok false → IsHeldUp (history_of self.new.steps) scope }
        ensures passed { result ≡ Ok false → IsPassed (history_of self.new.steps) now }
        ensures fitting { Fitting C.fitting (history_seen token.new) }
    {
        if self.is_settled(token, scope) {
            return Ok(true);
        }
        match self.due(now) {
            Some(moment) => match self.tick_due(token, moment) {
                Ok(()) => Ok(self.is_settled(token, scope)),
                Err(refusal) => Err(refusal),
            },
            None => Ok(false),
        }
    }

    /// The mark of the cell, if it is set now, or once the time is passed.
    pub(crate) fn marked_in_time(
        &mut self,
        token: &mut OwnerShare,
        cell: &MarkCell,
        seat: &mut Seat,
        now: Option<u64>,
    ) -> Result<Option<Mark>, Refusal>
        requires named { token.old.table ≡ N.table }
        requires seat { seat.old.cell ≡ cell.now }
        ensures token { SeesMore token.old token.new }
        ensures passes { MatchResult result (λ _. TakesTurn now token.old token.new) (TurnRefused now token.old token.new) }
        ensures passed { result ≡ Ok None → (self.new.steps ≡ token.new.seen) × IsPassed (history_of self.new.steps) now }
        ensures cell { seat.new.cell ≡ cell.now }
        ensures mark { MatchOption (shown_in result) ((seat.old.known ≡ None) × (seat.new.known ≡ None)) (λ mark. (mark.seat ≡ seat.new) × (seat.new.known ≡ Some (said_by mark)) × Agrees seat.old.known (said_by mark)) }
    {
        if let Some(mark) = cell.checkpoint(seat) {
            return Ok(Some(mark));
        }
        match self.pass_due(token, now) {
            Ok(true) => Ok(cell.checkpoint(seat)),
            Ok(false) => Ok(None),
            Err(refusal) => Err(refusal),
        }
    }
}
