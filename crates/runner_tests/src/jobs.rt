//! Jobs of several kinds, and the spawners that run them.

mod batched;
mod deeds;
mod duties;
mod logs;
mod outcomes;
mod rows;
mod soak;
mod spawners;
mod unruly;
