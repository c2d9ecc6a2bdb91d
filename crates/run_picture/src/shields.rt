//! Which shields held off a cancel, and where.
ghost use Rattle.std.specs.Prelude.{◌≡◌};
ghost use Rattle.run_picture.specs.{ℕ, AreColumnsOf, Cause, HoldsAgainst, History, IsScopeRow, Some, goes_on};

use crate::columns::{Columns, ScopeRow};
use crate::placed::scope_at;
use scope_rules::Cause;

/// Whether the scope stood at the event at the place and went on: it was opened before, and was not closed before, nor
/// cancelled by then.
fn goes_on(row: &ScopeRow, place: usize) -> bool
    ensures { result ≡ goes_on row.now place }
{
    let closed = match row.closed {
        Some(at) => at < place,
        None => false,
    };
    let cancelled = match row.cancelled {
        Some((at, _)) => at <= place,
        None => false,
    };
    row.opened.place < place && !closed && !cancelled
}

/// The cancel that the shield of the scope held off, and where, if it held: that of the scope around it, at which the
/// shielded one stood and went on.
pub fn held_off(columns: &Columns, row: &ScopeRow) -> Option<(usize, Cause)>
    ensures so { (h : History) (s i : ℕ) (c : Cause) → AreColumnsOf columns.now h → IsScopeRow h s row.now → result ≡ Some (i, c) → HoldsAgainst h s c i }
    ensures all { (h : History) (s i : ℕ) (c : Cause) → AreColumnsOf columns.now h → IsScopeRow h s row.now → HoldsAgainst h s c i → result ≡ Some (i, c) }
{
    if !row.opened.options.shield {
        return None;
    }
    let around = scope_at(columns, row.parent?)?;
    let (place, cause) = around.cancelled?;
    if goes_on(row, place) {
        Some((place, cause))
    } else {
        None
    }
}
