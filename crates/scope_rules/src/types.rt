//! The types that calls, events and answers are made of.

pub mod answers;
pub mod bases;
pub mod capacity;
pub mod catalogs;
pub mod checks;
pub mod events;
pub mod infos;
pub mod joiners;
pub mod names;
pub mod outcomes;
pub mod records;
pub mod refusals;
pub mod values;
