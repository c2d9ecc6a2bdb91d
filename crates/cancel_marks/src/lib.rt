//! Marks of cancelled scopes, read without a lock (Trio, checkpoints): each scope has a cell that is
//! set once, when the scope becomes cancelled, and that any thread may look at. A mark is evidence: it is
//! of its cell's scope, and two marks of one cell are equal.
#![tactic(auto)]

mod bells;
mod cancellation;
mod cells;
pub mod laws;
mod marks;
mod setters;
mod sleeps;
mod wakes;

pub use bells::Bell;
pub use cancellation::Cancellation;
pub use cells::MarkCell;
pub use marks::{Mark, Seat};
pub use setters::{CellReservation, MarkSetter};
pub use sleeps::Awaited;
pub use wakes::Wakes;
