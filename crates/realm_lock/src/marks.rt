ghost use Rattle.std.specs.Prelude.{◌≡◌, Some};
ghost use Rattle.once_cell.specs.Once.{Agrees};
ghost use Rattle.realm_lock.specs.{said_by};

use crate::lookouts::Wanted;
use crate::realm::Realm;
use cancel_marks::{Mark, MarkCell, Seat};
use realm_core::RealmName;
use scope_rules::Catalog;
use std::sync::Wait;

impl<C: Catalog, N: RealmName> Realm<C, N> {
    /// Waits until the cell of a scope of this realm is set, and gives the mark: the same that a seat was
    /// given before. It sleeps at the cell, and looks under the lock under which the cell is set, so no
    /// cancel comes between its look and its sleep. That it returns is not promised: if the scope
    /// is never cancelled it doesn't.
    pub fn wait_marked<R: Wait>(&self, rt: &R, cell: &MarkCell, seat: &mut Seat) -> Mark
        requires { seat.old.cell ≡ cell.now }
        ensures cell { seat.new.cell ≡ cell.now }
        ensures mark { (result.seat ≡ seat.new) × (seat.new.known ≡ Some (said_by result)) × Agrees seat.old.known (said_by result) }
    {
        let mut locked = self.shared.lock(rt);
        for _ in rt.forever() {
            match cell.checkpoint(seat) {
                Some(mark) => return mark,
                None => locked = self.sleep_at(rt, locked, Wanted::Sign(Some(cell), None)),
            }
        }
        unreachable!()
    }
}
