//! The sequential realm: a book of scopes and tasks that applies each command and answers each
//! query. It is the replay of its legal history, in which every end fits its task's label.
#![tactic(auto)]

pub mod state;

pub use state::book::BookState;
