//! Waits by a clock: which deadlines pass, by how many ticks, and that who waits wakes.

mod duties;
mod readings;
mod realms;
mod requests;
mod rows;
mod together;
