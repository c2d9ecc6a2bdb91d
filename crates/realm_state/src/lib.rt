//! The state of one realm, without threads: its journal and the indexes beside it. One call checks a command
//! and applies its event; each query is answered by the indexes.
#![tactic(auto)]

mod commands;
mod fitting;
mod logs;
mod noting;
mod readings;
mod realm;
mod steps;

pub use fitting::FittingRealm;
pub use realm::RealmState;
