//! The rows of a realm: one for each scope and for each task, with the innermost unclosed scope of each actor,
//! and the own deadline of each scope. Rows that agree with a history agree with it after each accepted event,
//! and so do the deadlines. What lies inside a scope is read off the rows alone.
#![tactic(auto)]

pub mod deadlines;
pub mod nests;
pub mod numbered;
pub mod records;
pub mod rows;

pub use deadlines::OwnDeadlines;
pub use numbered::{Numbered, make_room};
pub use records::{ScopeRow, TaskRow};
pub use rows::Rows;
