//! Who has works run on threads: a pool whose threads are used again, among others; and what is kept of the
//! threads that one owner makes.
#![tactic(auto)]

mod batches;
mod executors;
mod handoffs;
mod items;
mod locks;
mod makers;
mod pace;
mod pools;
mod refusing;
mod spawning;
mod state;
mod teams;

pub use executors::{OsThreads, PoolHandle};
pub use makers::PoolRuntime;
pub use pools::ThreadPool;
pub use refusing::Nobody;
pub use spawning::{Ready, Spawner, Spawns, Work};
pub use teams::Team;
