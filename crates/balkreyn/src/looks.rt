//! What is seen of a realm while it runs: its tree, its journal, and the logs of its scopes.

pub use crate::by_token::InspectByToken;
pub use crate::inspect::Inspect;
pub use crate::times::{Reached, Times};
pub use scope_log::{LogEntry, ScopeLog};
pub use tree_dump::WaitCall;
