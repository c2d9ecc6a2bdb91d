//! The table of checks, written once: which check of each event and query fails, computed from the readings of a
//! history, however these are kept. What is made of it is the refusal, or a reason that explains it (`FromFailed`).
#![tactic(auto)]

pub mod checks;
pub mod event_replies;
pub mod failures;
pub mod load;
pub mod queries;
pub mod readings;
pub mod table;

pub use event_replies::{Accepted, EventReply, records};
pub use failures::FromFailed;
pub use readings::Readings;
