//! A realm for threads to share: one book under one lock. Each call takes the lock, acts, and lets go; what
//! it did is told by what the caller's token or ticket has seen then.
#![tactic(auto)]

mod batches;
mod closing;
mod commands;
mod in_time;
mod joins;
pub mod laws;
mod locked;
mod lookouts;
mod looks;
mod marks;
mod opening;
mod queries;
mod realm;
mod setters;
mod sleeps;
mod task_calls;
mod timed;
mod timed_waiters;
mod times;
mod views;

pub use cancel_marks::{Bell, Mark, MarkCell, Seat};
pub use joins::JoinAnswer;
pub use looks::Look;
pub use realm::Realm;
pub use realm_core::{BareOutcome, CloseReport, Forked, Joined, RealmName, View};
pub use realm_state::RealmState;
pub use share_ledger::{OwnerShare as ActorToken, Seed, Ticket};
pub use timed_waiters::BellWait;
pub use times::{Never, Time};
