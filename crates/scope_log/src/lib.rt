//! The log of a scope: its own events in order, with the mark of its cancellation among them. From a
//! log alone can be told how far its tasks came, what they gave, and what its join answered. Beside it stand the
//! laws of whole histories: of labels, and of what a retirement leaves.
#![tactic(auto)]

mod entries;
pub mod labels;
pub mod laws;
mod log;
mod outcomes;
mod previews;
mod readings;
pub mod retirement;
mod shown;

pub use entries::LogEntry;
pub use log::ScopeLog;
pub use previews::Preview;
pub use shown::{ShownEnd, ShownEntry, ShownJoiner, ShownOptions};
