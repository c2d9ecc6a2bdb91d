//! The list of a realm's steps since it began, and who knows how much of it. The steps are the realm's events, and
//! its retirements between them; `steps` and `laws` say what the list tells of the realm and of each task, which
//! lists are legal, and whose own each step is. One keeper, which lies under the realm's lock, knows
//! the whole list. Each token and each ticket holds a share: a beginning of the list that has all of the
//! holder's own steps. The list is nowhere at run time; it is what the contracts speak of. Beside tokens and
//! tickets stand what they are for: jobs by their names, whose answers fit the labels that they are forked
//! with, and clocks, which say where moments come from.
#![tactic(auto)]

mod clocks;
mod desk;
mod keeper;
pub mod laws;
mod moves;
mod named;
mod names;
mod naming;
mod rule;
mod seed;
mod shares;
pub mod steps;
mod tickets;
mod views;

pub use clocks::{Clock, SetClock, SystemClock, fail_after, move_on_after};
pub use keeper::Keeper;
pub use named::{Named, OfRealm};
pub use names::RealmName;
pub use naming::{Answers, NamedJob};
pub use seed::Seed;
pub use shares::OwnerShare;
pub use steps::{Ask, Holder, RealmStep};
pub use tickets::{Ticket, Totals, gather};
