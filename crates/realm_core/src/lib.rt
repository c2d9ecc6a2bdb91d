//! What lies under a realm's lock, as data: the realm, which is the replay of its list of steps, and the
//! keeper of that list. Each call is one hold of the lock: it checks, records at most one event (a close
//! its ends), and leaves in the caller's token or ticket what that has seen then. Queries are asked of the
//! realm that it lends, once a token has looked. The close of a scope is here too: when it can end,
//! what its report shows, and the ends of the scopes that it closes, one after the other in one hold. The lock
//! itself, and the waiting, are of the crate above.
#![tactic(auto)]

mod answers;
pub mod close_laws;
mod closing;
mod commands;
mod ending;
mod events;
mod forking;
mod holds;
mod joins;
pub mod laws;
mod looks;
mod reports;
mod state;
mod task_calls;
mod telling;
mod tickets;
mod views;
mod waiting;

pub use answers::{reply_done, reply_noted};
pub use ending::{Ended, end_all, end_innermost};
pub use forking::Forked;
pub use holds::{begin, end_if_settled, report_if_settled};
pub use joins::Joined;
pub use reports::{CloseReport, close_with_report};
pub use scope_index::BareOutcome;
pub use share_ledger::RealmName;
pub use state::RealmCore;
pub use tickets::{are_tickets_of, take_back};
pub use views::{View, marked_view_of, view_of};
pub use waiting::unsettled;
