ghost use Rattle.std.specs.Prelude.{◌≡◌, IfOk, None, Some};
ghost use Rattle.std.specs.Option.{MatchOption};
ghost use Rattle.once_cell.specs.Once.{Agrees};

use crate::cancellation::Cancellation;
use crate::marks::{Mark, Seat};
use crate::wakes::Wakes;
use once_cell::race::OnceBox;
use scope_rules::ScopeId;
use std::alloc::{AllocError, Global};
use std::marker::Model;
use std::sync::Arc;

/// What all holders of a cell share: the cell itself, and what those sleep on who wait for its scope.
#[derive(Drop)]
pub(crate) struct Shared {
    pub(crate) once: OnceBox<Cancellation>,
    pub(crate) wakes: Wakes,
}

/// The cell of a scope: empty until the scope becomes cancelled, and set once. Any thread may look at
/// it without a wait, and sleep at it until it is woken there.
#[derive(Drop)]
pub struct MarkCell {
    pub(crate) scope: ScopeId,
    pub(crate) shared: Arc<Shared, Global>,
}

impl Model for MarkCell {
    ghost use Rattle.std.specs.Arc.{arc_value};
    ghost use Rattle.once_cell.specs.Once.{cell_name};
    ghost use Rattle.cancel_marks.specs.Seats.{CellValue};

    ghost Value = { CellValue };

    ghost view = { λ c. record { name = cell_name (arc_value c.shared).once; scope = c.scope } };
}

impl MarkCell {
    ghost use Rattle.cancel_marks.specs.Marked.{said_by};

    /// The scope whose cell it is.
    pub fn scope(&self) -> ScopeId
        ensures { result ≡ self.now.scope }
    {
        self.scope
    }

    /// The same cell for one holder more. Nothing is copied, and no memory is taken: it is refused
    /// only if std's count of holders is full.
    pub fn share(&self) -> Result<MarkCell, AllocError>
        ensures { IfOk result (λ cell. cell ≡ self.now) }
    {
        let shared = Arc::try_clone(&self.shared)?;
        Ok(MarkCell {
            scope: self.scope,
            shared,
        })
    }

    /// A seat at the cell that was shown nothing yet.
    pub fn seat(&self) -> Seat
        ensures cell { result.cell ≡ self.now }
        ensures known { result.known ≡ None }
    {
        Seat {
            scope: self.scope,
            note: self.shared.once.note(),
        }
    }

    /// The mark of the cell's scope, if it is seen to be cancelled. A seat that was given a mark is given
    /// the same at each later checkpoint; none is given only to a seat that was shown nothing. It
    /// takes no lock and no memory, and waits for nobody. When a cancel is seen is not promised.
    pub fn checkpoint(&self, seat: &mut Seat) -> Option<Mark>
        requires { seat.old.cell ≡ self.now }
        ensures cell { seat.new.cell ≡ self.now }
        ensures mark { MatchOption result ((seat.old.known ≡ None) × (seat.new.known ≡ None)) (λ mark. (mark.seat ≡ seat.new) × (mark.scope ≡ self.now.scope) × (seat.new.known ≡ Some (said_by mark)) × Agrees seat.old.known (said_by mark)) }
    {
        let told = *self.shared.once.get_as(&mut seat.note)?;
        Some(Mark {
            scope: self.scope,
            cause: told.cause,
            number: told.number,
            seat: seat.again(),
        })
    }

    /// Whether the cell is set. A seat would be shown a mark.
    pub fn is_set(&self) -> bool {
        self.shared.once.get().is_some()
    }

    /// What those sleep on who wait for its scope.
    pub fn wakes(&self) -> &Wakes {
        &self.shared.wakes
    }
}
