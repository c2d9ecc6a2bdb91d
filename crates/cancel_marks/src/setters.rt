ghost use Rattle.std.specs.Prelude.{◌≡◌, IfOk, IsTrue, None, Some};
ghost use Rattle.std.specs.Option.{option_or};
ghost use Rattle.once_cell.specs.Once.{Agrees};

use crate::bells::Bell;
use crate::cancellation::Cancellation;
use crate::cells::{MarkCell, Shared};
use crate::marks::Seat;
use crate::wakes::Wakes;
use once_cell::race::OnceBox;
use scope_rules::{Cause, CauseKind, ScopeId};
use slab::Slab;
use std::alloc::{AllocError, Global};
use std::marker::Model;
use std::sync::Arc;

/// What the cell of a scope wants of memory, before the scope has a number.
#[derive(Drop)]
pub struct CellReservation {
    one: Arc<Shared, Global>,
    other: Arc<Shared, Global>,
    blank: Box<Cancellation>,
    alloc: Global,
}

impl Model for CellReservation {
    ghost use Rattle.std.specs.Prelude.{◌≡◌, ℕ};
    ghost use Rattle.std.specs.Arc.{arc_value};
    ghost use Rattle.once_cell.specs.Once.{cell_name};

    ghost Value = { ℕ };

    ghost view = { λ r. cell_name (arc_value r.one).once };

    ghost invariant = { λ r. cell_name (arc_value r.other).once ≡ cell_name (arc_value r.one).once };
}

impl CellReservation {
    /// Room for a new cell. It is refused for memory alone.
    pub fn new(alloc: Global) -> Result<CellReservation, AllocError> {
        let blank = Box::new(alloc, CellReservation::BLANK)?;
        let shared = Shared {
            once: OnceBox::new(alloc),
            wakes: Wakes::new(),
        };
        let one = Arc::new(alloc, shared)?;
        let other = Arc::try_clone(&one)?;
        Ok(CellReservation {
            one,
            other,
            blank,
            alloc,
        })
    }

    // What the box holds until the cell is set with it. Nobody sees it.
    const BLANK: Cancellation = Cancellation {
        cause: Cause {
            scope: 0,
            kind: CauseKind::Call,
        },
        number: 0,
    };

    /// The cell in it, as that of the scope: its setter, which wasn't used, and the cell itself for a
    /// holder. It takes no memory.
    pub fn of(self, scope: ScopeId) -> (MarkSetter, MarkCell)
        ensures setter { (result.0.cell.scope ≡ scope) × (result.0.used ≡ None) × (result.0.known ≡ None) }
        ensures cell { result.1 ≡ result.0.cell }
    {
        let CellReservation {
            one,
            other,
            blank,
            alloc,
        } = self;
        let cell = MarkCell { scope, shared: one };
        let seat = cell.seat();
        let setter = MarkSetter {
            cell,
            seat,
            blank: Some(blank),
            used: None,
            bells: Slab::new(alloc),
        };
        let cell = MarkCell {
            scope,
            shared: other,
        };
        (setter, cell)
    }
}

/// The one that sets a cell, with what it was used with, and what it was shown of the cell since. It is
/// kept beside what it tells of, under the same lock. Its room is made before, so that the setting takes
/// no memory.
#[derive(Drop)]
pub struct MarkSetter {
    cell: MarkCell,
    seat: Seat,
    // The box that the cell is set with; `None` once that was done.
    blank: Option<Box<Cancellation>>,
    used: Option<Cancellation>,
    // Whose sleepers are woken when the cell is set.
    bells: Slab<Bell>,
}

impl Model for MarkSetter {
    ghost use Rattle.std.specs.Prelude.{◌≡◌, None, IsSome};
    ghost use Rattle.std.specs.Option.{MatchOption};
    ghost use Rattle.cancel_marks.specs.Seats.{SetterValue};

    ghost Value = { SetterValue };

    ghost view = { λ s. record { cell = s.cell; used = s.used; known = s.seat.known } };

    ghost invariant = { λ s. (s.seat.cell ≡ s.cell) × MatchOption s.blank (IsSome s.used × IsSome s.seat.known) (λ _. s.used ≡ None) };
}

impl MarkSetter {
    /// The cell that it sets, for one holder more: as `MarkCell::share`.
    pub fn cell(&self) -> Result<MarkCell, AllocError>
        ensures { IfOk result (λ cell. cell ≡ self.now.cell) }
    {
        self.cell.share()
    }

    /// Wakes all who sleep at the cell.
    pub fn wake(&self) {
        self.cell.wakes().wake();
    }

    /// Notes a bell whose sleeper is woken when the cell is set, and gives its place. None if memory is refused.
    pub fn note_bell(&mut self, bell: Bell) -> Option<usize>
        ensures { self.new ≡ self.old }
    {
        self.bells.insert(bell).ok()
    }

    /// Whoever sleeps at the bell at this place is no longer woken when the cell is set.
    pub fn forget_bell(&mut self, place: usize)
        ensures { self.new ≡ self.old }
    {
        let _bell = self.bells.try_remove(place);
    }

    /// Sets the cell to say that its scope became cancelled, wakes all who sleep at it or at a bell that is noted here,
    /// and answers whether it was empty, as it is at the first call. A later call changes nothing: what the cell
    /// holds, it holds for good. It takes no memory.
    pub fn set(&mut self, cause: Cause, number: usize) -> bool
        ensures used { self.new ≡ record self.old { used = option_or self.old.used (Some (record { cause = cause; number = number })); known = self.new.known } }
        ensures first { IsTrue result → (self.old.known ≡ None) × (self.new.known ≡ self.new.used) }
        ensures known { (held : Cancellation) × (self.new.known ≡ Some held) × Agrees self.old.known held }
    {
        match self.blank.take() {
            Some(mut blank) => {
                let told = Cancellation { cause, number };
                *blank = told;
                self.used = Some(told);
                let first = self.cell.shared.once.set_as(blank, &mut self.seat.note);
                self.cell.wakes().wake();
                for (_, bell) in &self.bells {
                    bell.wakes().wake();
                }
                first.is_ok()
            }
            None => false,
        }
    }
}
