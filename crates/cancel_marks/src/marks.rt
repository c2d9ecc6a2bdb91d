ghost use Rattle.std.specs.Prelude.{◌≡◌, IfSome, Some};
ghost use Rattle.once_cell.specs.Once.{Agrees};

use crate::cancellation::Cancellation;
use once_cell::race::Note;
use scope_rules::{Cause, ScopeId};
use std::marker::Model;

/// A reader's note on the cell of a scope: what its checkpoints were shown. Each reader has its own, and it
/// takes no more bytes than the scope's number.
#[derive(Drop)]
pub struct Seat {
    pub(crate) scope: ScopeId,
    pub(crate) note: Note<Cancellation>,
}

impl Model for Seat {
    ghost use Rattle.cancel_marks.specs.Seats.{Seen};

    ghost Value = { Seen };

    ghost view = { λ s. record { cell = record { name = s.note.cell; scope = s.scope }; known = s.note.known } };
}

impl Seat {
    /// A second seat at the same cell, which was shown the same, as for another thread. It takes
    /// `&mut`, since the proof reaches a note of `once_cell` only so; the seat stays as it is.
    pub fn again(&mut self) -> Seat
        ensures unchanged { self.new ≡ self.old }
        ensures same { result ≡ self.old }
    {
        Seat {
            scope: self.scope,
            note: self.note.again(),
        }
    }

    /// Holds another seat of the same cell against this one: if that was shown something, and this
    /// was too, it was the same.
    pub(crate) fn compare(&mut self, other: Seat)
        requires { other.cell ≡ self.old.cell }
        ensures unchanged { self.new ≡ self.old }
        ensures agreed { IfSome other.known (Agrees self.old.known) }
    {
        self.note.compare(other.note);
    }
}

/// The evidence that a scope is cancelled: what its cancel cell holds, and a seat that was shown it.
#[derive(Drop)]
pub struct Mark {
    pub scope: ScopeId,
    pub cause: Cause,
    /// The place in the history of the event by which the scope became cancelled.
    pub number: usize,
    /// The seat that makes the mark evidence.
    pub seat: Seat,
    pub ghost of: { seat.cell.scope ≡ scope },
    pub ghost shown: { seat.known ≡ Some (record { cause = cause; number = number }) },
}

impl Mark {
    /// An equal mark, as for another thread. It takes `&mut` as `Seat::again` does.
    pub fn again(&mut self) -> Mark
        ensures unchanged { self.new ≡ self.old }
        ensures same { result ≡ self.old }
    {
        Mark {
            scope: self.scope,
            cause: self.cause,
            number: self.number,
            seat: self.seat.again(),
        }
    }
}
