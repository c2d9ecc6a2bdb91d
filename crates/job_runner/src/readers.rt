ghost use Rattle.std.specs.Prelude.{◌≡◌, IfSome, IsNone, MatchResult, None, Ok, Some};
ghost use Rattle.job_runner.specs.{Agrees, HasCome, HasPassed, MatchOption, SeesMore, Stopped, Waited, history_seen, said_by, shown_in};

use cancel_marks::{Mark, MarkCell, Seat};
use realm_lock::{ActorToken, BellWait, Realm, RealmName, Time};
use scope_rules::{Catalog, Refusal};
use std::marker::Model;
use std::sync::Wait;

/// The cell of a scope, and a seat at it. Contracts see what the seat was shown.
#[derive(Drop)]
pub(crate) struct CellReader {
    cell: MarkCell,
    seat: Seat,
}

impl Model for CellReader {
    ghost use Rattle.std.specs.Prelude.{◌≡◌};
    ghost use Rattle.cancel_marks.specs.Seats.{Seen};

    ghost Value = { Seen };

    ghost view = { λ m. m.seat };

    ghost invariant = { λ m. m.seat.cell ≡ m.cell };
}

impl CellReader {
    /// The seat at the cell.
    pub(crate) fn new(cell: MarkCell, seat: Seat) -> CellReader
        requires { seat.cell ≡ cell }
        ensures { result ≡ seat }
    {
        CellReader { cell, seat }
    }

    /// A seat at the same cell that was shown nothing, as for another thread. None if std's count of
    /// holders is full.
    pub(crate) fn fresh(&self) -> Option<CellReader>
        ensures { IfSome result (λ other. (other.cell ≡ self.now.cell) × (other.known ≡ None)) }
    {
        let cell = self.cell.share().ok()?;
        let seat = cell.seat();
        Some(CellReader { cell, seat })
    }

    /// The mark of the scope, if it is seen to be cancelled. A seat that was given a mark is given the
    /// same each time.
    pub(crate) fn look(&mut self) -> Option<Mark>
        ensures cell { self.new.cell ≡ self.old.cell }
        ensures mark { MatchOption result ((self.old.known ≡ None) × (self.new.known ≡ None)) (λ mark. (mark.seat ≡ self.new) × (self.new.known ≡ Some (said_by mark)) × Agrees self.old.known (said_by mark)) }
    {
        self.cell.checkpoint(&mut self.seat)
    }

    /// The mark of the scope once it is cancelled, in this realm: it sleeps until then.
    pub(crate) fn wait<C: Catalog, N: RealmName, R: Wait>(
        &mut self,
        rt: &R,
        realm: &Realm<C, N>,
    ) -> Mark
        ensures cell { self.new.cell ≡ self.old.cell }
        ensures mark { (result.seat ≡ self.new) × (self.new.known ≡ Some (said_by result)) × Agrees self.old.known (said_by result) }
    {
        realm.wait_marked(rt, &self.cell, &mut self.seat)
    }

    /// The same by a clock, until the moment, if one is given, or until the bell has rung.
    pub(crate) fn wait_by<C: Catalog, N: RealmName, R: Wait, T: Time>(
        &mut self,
        rt: &R,
        realm: &Realm<C, N>,
        token: &mut ActorToken,
        time: &mut T,
        until: Option<u64>,
        bell: Option<BellWait<'_>>,
    ) -> Result<Option<Mark>, Refusal>
        requires named { token.old.table ≡ N.table }
        ensures token { SeesMore token.old token.new }
        ensures answer { MatchResult result (λ _. Waited T.reads token.old time.old token.new time.new) (Stopped T.reads token.old token.new time.old time.new) }
        ensures cell { self.new.cell ≡ self.old.cell }
        ensures mark { MatchOption (shown_in result) ((self.old.known ≡ None) × (self.new.known ≡ None)) (λ mark. (mark.seat ≡ self.new) × (self.new.known ≡ Some (said_by mark)) × Agrees self.old.known (said_by mark)) }
        ensures slept { result ≡ Ok None → IsNone bell.entry → HasPassed until (T.reading time.new) }
        ensures passed_all { result ≡ Ok None → IfSome (T.reading time.new) (λ now. HasCome (history_seen token.new) now → ⊥) }
    {
        realm.wait_marked_by(rt, token, &self.cell, &mut self.seat, time, until, bell)
    }
}
