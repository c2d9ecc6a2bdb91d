//! The journal of a realm: its base and its events, which are always a legal history within the limits,
//! with room made for each event that may still come at no cost. `Trails` links the places of each scope's events
//! as they come, so that a scope's events are found in time by how many they are.
#![tactic(auto)]

mod codes;
mod entries;
mod event_list;
mod journal;
pub mod laws;
mod trails;
mod weights;

pub use event_list::EventList;
pub use journal::Journal;
pub use trails::Trails;
pub use weights::weight;
