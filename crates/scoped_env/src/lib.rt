//! Scoped values: the pairs of keys and values that an actor sees. An actor inherits all pairs of
//! the one that forked it (JEP 506), binds pairs of its own above them, and takes those away again,
//! the last one first. `Envs` has the environments of a realm: one for main, and one for each task that was forked
//! since the realm began.
#![tactic(auto)]

mod batch;
mod env;
mod envs;
mod frozen;
mod keys;
mod listed;
mod own;
mod shared;
mod stack;

pub use env::Env;
pub use envs::Envs;
