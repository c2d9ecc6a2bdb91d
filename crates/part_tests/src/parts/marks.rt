//! Marks of cancelled scopes: what a seat is shown before and after the cell is set, by the setter's thread
//! and by others.
ghost use Rattle.std.specs.Prelude.{◌≡◌};

use cancel_marks::{Cancellation, CellReservation, Mark, MarkCell, MarkSetter, Seat, laws};
use scope_rules::{Cause, CauseKind, ScopeId};
use std::process::Abort;
use std::test::Fail;
use std::thread;
use std::thread::Threads;

/// The scope whose cell it is.
const SCOPE: ScopeId = 2;

/// A cancel call on scope 1, which reached scope 2 as the fourth event.
const REACHED: Cancellation = Cancellation {
    cause: Cause {
        scope: 1,
        kind: CauseKind::Call,
    },
    number: 3,
};

fn said(mark: &Mark) -> Cancellation {
    Cancellation {
        cause: mark.cause,
        number: mark.number,
    }
}

/// What a checkpoint with a fresh seat says, of the cell's scope.
fn seen(cell: &MarkCell) -> Option<Cancellation> {
    let mut seat = cell.seat();
    let mark = cell.checkpoint(&mut seat)?;
    if mark.scope == SCOPE {
        Some(said(&mark))
    } else {
        None
    }
}

fn set(setter: &mut MarkSetter, told: Cancellation) -> bool {
    setter.set(told.cause, told.number)
}

/// Whether a seat of the setter's cell is shown this.
fn shows(setter: &MarkSetter, wanted: Option<Cancellation>) -> bool {
    match setter.cell() {
        Ok(cell) => seen(&cell) == wanted,
        Err(_) => false,
    }
}

/// Whether the cell is set by the first call alone.
fn is_set_once(setter: &mut MarkSetter) -> bool {
    let later = Cancellation {
        number: 4,
        ..REACHED
    };
    let fresh = shows(setter, None);
    let first = set(setter, REACHED) && shows(setter, Some(REACHED));
    fresh && first && !set(setter, later) && shows(setter, Some(REACHED))
}

#[test]
fn a_cell_is_set_once(rt: HostRuntime) -> Result<(), Fail> {
    let (mut setter, _cell) = CellReservation::new(rt.alloc())?.of(SCOPE);
    assert!(rt; is_set_once(&mut setter));
    Ok(())
}

/// Whether the first alone is set.
fn is_set_alone(setter: &mut MarkSetter, other: &MarkSetter) -> bool {
    set(setter, REACHED) && shows(other, None)
}

#[test]
fn cells_are_set_one_by_one(rt: HostRuntime) -> Result<(), Fail> {
    let (mut setter, _cell) = CellReservation::new(rt.alloc())?.of(SCOPE);
    let (other, _other) = CellReservation::new(rt.alloc())?.of(SCOPE);
    assert!(rt; is_set_alone(&mut setter, &other));
    Ok(())
}

/// Looks in another thread, and here once that has ended: two marks of one cell, which agree.
fn check_both<R: Threads + Abort>(rt: &R, cell: MarkCell, mut seat: Seat) -> Result<(), Fail>
    requires { seat.cell ≡ cell }
{
    let theirs = cell.share()?;
    let Ok(thread) = thread::spawn(rt, move || seen(&theirs)) else {
        return Err("no thread")?;
    };
    let in_thread = thread.join(rt);
    let mut here = cell.checkpoint(&mut seat).ok_or("no mark here")?;
    let spare = here.again();
    assert!(rt; in_thread == Some(REACHED) && said(&here) == REACHED && said(&spare) == REACHED);
    laws::agree(&mut here, spare);
    let again = cell.checkpoint(&mut seat).ok_or("no mark again")?;
    assert!(rt; said(&again) == REACHED);
    Ok(())
}

#[test]
fn threads_are_shown_the_same(rt: HostRuntime) -> Result<(), Fail> {
    let (mut setter, cell) = CellReservation::new(rt.alloc())?.of(SCOPE);
    let mut seat = cell.seat();
    assert!(rt; cell.checkpoint(&mut seat).is_none());
    assert!(rt; set(&mut setter, REACHED));
    check_both(&rt, cell, seat)
}
