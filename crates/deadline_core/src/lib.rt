//! Deadlines in order: an index from scopes to moments that gives the earliest at once. `DeadlineOrder` is for a caller
//! who keeps each scope's deadline already, and `Deadlines` keeps them itself.
#![tactic(auto)]

pub mod deadlines;
pub mod order;

pub use deadlines::Deadlines;
pub use order::DeadlineOrder;
