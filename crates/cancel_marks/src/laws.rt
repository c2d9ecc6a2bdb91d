//! What holds of any two marks, each the contract of a function that does nothing.
ghost use Rattle.std.specs.Prelude.{◌≡◌};
ghost use Rattle.cancel_marks.specs.Marked.{said_by};

use crate::marks::Mark;

/// Two marks of one cell are equal. The first stays as it is; the second, which says the same, is used
/// up, as a note of `once_cell` is by its comparison (`Mark::again` makes one to spare).
pub fn agree(left: &mut Mark, right: Mark)
    requires { right.seat.cell ≡ left.old.seat.cell }
    ensures unchanged { left.new ≡ left.old }
    ensures equal { (left.old.scope ≡ right.scope) × (said_by left.old ≡ said_by right) }
{
    left.seat.compare(right.seat);
}
