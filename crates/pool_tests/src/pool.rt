//! Works and the pools that run them; named jobs.

mod boards;
mod naming;
mod plays;
mod rounds;
mod rows;
mod threads;
mod works;
