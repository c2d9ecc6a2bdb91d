//! The script of a history: the commands that bring a fresh realm to it, as `scopectl replay` plays them and
//! `scopectl dump` draws what they leave. Numbers are counted from the last retirement on. The laws of journals
//! stand here too: the script of a realm's history brings a fresh realm to that history again.
#![tactic(auto)]

mod fitting;
mod journals;
pub mod laws;
mod lines;
mod script;
mod timed;

pub use journals::journal_of;
pub use lines::ShownEvent;
pub use script::{ShownScript, script_of};
pub use timed::timed_script;
