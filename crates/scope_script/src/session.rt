//! A script under way: the book, how many lines were refused, and the line that is begun.

mod begun;
pub mod cutting;
pub mod run;
mod script;
pub mod tally;
