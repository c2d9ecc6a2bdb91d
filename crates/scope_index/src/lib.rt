//! The indexes beside a realm's history, which hold no list of events. `apply` brings them up to date with
//! each accepted event; queries read the parts that `RealmIndex` lends. The parts of this crate are the cancels
//! (the tree of cancel scopes, the deadlines that are still to come, an account of each scope's joiner), the
//! tasks of each scope, and the outcome of a join.
#![tactic(auto)]

mod answers;
mod applying;
mod bare;
mod cancelled;
mod cancels;
mod closing;
mod completing;
mod events;
mod forks;
mod index;
mod joined;

pub use applying::apply;
pub use bare::BareOutcome;
pub use cancelled::CancelledScopes;
pub use cancels::CancelIndex;
pub use forks::Forks;
pub use index::RealmIndex;
pub use joined::{bare_outcome, outcome};
