//! A realm for hosts in C, Rust or Python: the static library behind `bindings/include/balkreyn.h`. The host brings
//! the threads, a lock around each call and the clock, and keeps a book, which holds one realm or none. Each export
//! says what it does to that realm: a command tries its very event, a query changes nothing, and each answers a
//! number that is tied to the reply or the refusal. A book that holds no realm answers that, whatever it is asked.
#![tactic(auto)]

mod acting;
mod around;
mod batches;
mod book;
mod books;
mod commands;
mod endings;
mod line;
mod lists;
mod numbers;
mod opening;
mod outcomes;
mod place;
mod queries;
mod shows;
mod text;
mod timed;
mod times;
mod word;
