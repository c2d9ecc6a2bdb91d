//! When something happened to each scope and each task: where among the events of a history it happened first, and the
//! readings of a clock there.
#![tactic(auto)]

pub mod landmarks;
pub mod laws;
mod stamps;
mod turns;

pub use stamps::{end_times, fork_times, open_times, start_times};
pub use turns::{closed_at, ended_at, started_at};
