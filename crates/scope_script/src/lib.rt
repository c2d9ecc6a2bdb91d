//! The script of a realm: lines of commands in, one line of reply a command out. What a line says, and the line of a
//! reply (`script_words`), are handed on.
#![tactic(auto)]

pub mod laws;
pub mod performing;
pub mod session;
pub mod streams;

pub use performing::answers::reply_of;
pub use performing::commands::{perform, perform_all};
pub use script_words as words;
pub use script_words::{Command, LINE_LIMIT, Line, Query, Reply, append_line, read_line};
pub use session::cutting::first_line;
pub use session::run::{Mode, Ran, ScriptFault, run, run_tallied, run_text};
pub use session::tally::Tally;
pub use streams::watched::{StreamFailed, Watched};
