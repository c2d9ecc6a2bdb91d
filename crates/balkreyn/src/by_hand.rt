//! What acts by a context, a clock and a runtime in hand: the calls that `act` is made of, for guards, reports, and services
//! with contracts of their own.

pub use crate::aliases::CanFork;
pub use crate::forks::fork;
pub use crate::guards::ScopeGuard;
pub use crate::handles::{JobWithRuntime, WithRuntime};
pub use crate::jobs::TypedJob;
pub use crate::scoped::{Scopes, within, within_by};
pub use crate::services::{Service, realm_clock, serve_on_pool};
pub use crate::slots::fork_typed;
pub use job_runner::{
    Answers, Clock, ForkRefusal, ForkedJobs, Job, JobWork, NamedJob, SetClock, SystemClock,
    TaskCtx, fail_after, move_on_after, pulse,
};
pub use realm_lock::{BareOutcome, JoinAnswer, Never, Time};
pub use scope_rules::{Catalog, Due};
pub use thread_pool::{OsThreads, Spawner, Spawns, ThreadPool};
