//! Requests, the jobs that are asked, and the spawners that run them.

mod asking;
mod deadlines;
mod plans;
mod rows;
mod serving;
mod turns;
