//! Jobs on threads: what a job calls to open scopes, fork other jobs onto threads, join and close them,
//! and what a thread does with a job. Scopes, tasks and bindings are those of a realm; the threads are a
//! spawner's.
#![tactic(auto)]

mod batches;
mod checkpoints;
mod clocks;
mod closing;
mod commands;
mod contexts;
mod ending;
mod forking;
mod jobs;
mod opaque;
mod opening;
mod queries;
mod readers;
mod reporting;
mod timed;
mod together;
mod works;

pub use batches::ForkedJobs;
pub use clocks::pulse;
pub use contexts::TaskCtx;
pub use forking::ForkRefusal;
pub use jobs::Job;
pub use share_ledger::{
    Answers, Clock, NamedJob, SetClock, SystemClock, fail_after, move_on_after,
};
pub use works::JobWork;
