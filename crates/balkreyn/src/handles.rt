//! Jobs with a handle of their own.

use job_runner::{Answers, Job, TaskCtx};
use realm_lock::RealmName;
use scope_rules::{Catalog, End};
use std::sync::Wait;
use thread_pool::Spawner;

/// A job with a handle, which it reads, writes, sleeps and looks at the clock by: the runtime that a job is
/// handed waits, and does nothing else.
///
/// Forks one, with a copy of its own handle:
///
/// ```rust
/// fn take_nap<N: RealmName, R: Handle, S: CanFork<AnyEnd, N, WithRuntime<R, Nap>>>(
///     rt: &R,
///     ctx: &mut TaskCtx<AnyEnd, S, N>,
///     job: Nap,
/// ) -> Result<State, Refusal> {
///     within(rt, ctx, Joiner::AwaitAll, Options::PLAIN, |ctx, scope| {
///         let io = *rt;
///         fork(rt, ctx, scope, job.name, WithRuntime { io, job })?;
///         ctx.join(rt, scope)?;
///         ctx.state(rt, 1)
///     })
/// }
/// ```
#[derive(Drop)]
pub struct WithRuntime<K, J> {
    /// The handle, as main's `HostRuntime`.
    pub io: K,
    pub job: J,
}

/// What does its work by a handle of this type.
///
/// A job that sleeps by its handle, whatever is cancelled:
///
/// ```rust
/// impl<K: SystemTime, S: Spawner<N>, N: RealmName> JobWithRuntime<K, AnyEnd, S, N> for Nap {
///     fn run_by<R: Wait>(self, _rt: &R, io: &K, _ctx: &mut TaskCtx<AnyEnd, S, N>) -> End {
///         let nap = Duration::from_millis(self.millis);
///         let Ok(before) = Instant::now(io) else {
///             return Err(Fault(self.name));
///         };
///         thread::sleep(io, nap);
///         match before.elapsed(io) {
///             Ok(slept) if nap <= slept => Ok(Value::Text(self.name)),
///             _ => Err(Fault(self.name)),
///         }
///     }
/// }
/// ```
pub trait JobWithRuntime<K, C: Catalog, S: Spawner<N>, N: RealmName>: Answers {
    /// Does the job, as `Job::run` does, by the handle.
    fn run_by<R: Wait>(self, rt: &R, io: &K, ctx: &mut TaskCtx<C, S, N>) -> End
        ensures { Self.may_end self result };
}

impl<K, J: Answers> Answers for WithRuntime<K, J> {
    ghost may_end = { λ by end. J.may_end by.job end };
}

impl<K: Drop, C: Catalog, S: Spawner<N>, N: RealmName, J: JobWithRuntime<K, C, S, N>> Job<C, S, N>
    for WithRuntime<K, J> {
    fn run<R: Wait>(self, rt: &R, ctx: &mut TaskCtx<C, S, N>) -> End {
        let WithRuntime { io, job } = self;
        job.run_by(rt, &io, ctx)
    }
}
