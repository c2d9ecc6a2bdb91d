//! A service on a pool of its own, from its opening to its end.
ghost use Rattle.std.specs.Prelude.{◌≡◌, IfOk, None};

use crate::aliases::Handle;
use crate::errors::NoTime;
use job_runner::{Answers, Job, JobWork, SystemClock, TaskCtx};
use realm_lock::{Realm, RealmName, Seed};
use scope_rules::{AnyEnd, Limits, Refusal};
use std::alloc::Global;
use std::rt::Clock as SystemTime;
use thread_pool::{OsThreads, PoolRuntime, Spawner, ThreadPool};

/// What a service may return. It is apart from how the service runs, as `Answers` does.
///
/// ```rust
/// impl ServiceAnswer for Looks {
///     type Answer = Found;
///
///     type Error = Refusal;
///
///     ghost may_answer = { λ looks found. Unit {0} };
/// }
/// ```
pub trait ServiceAnswer {
    /// What it returns.
    type Answer: Drop;

    /// What it fails with: `Refusal`, `ServiceError`, or a type of its own.
    type Error: From<Refusal> + Drop;

    /// It may come to this: to anything, if it does not say.
    ghost may_answer: { Self → Self.Answer → Type 0 } = { λ service answer. Unit {0} };
}

/// What a service does with main's context. One that forks jobs of type `J` asks `S: CanFork<AnyEnd, N, J>`.
///
/// ```rust
/// impl<N: RealmName, S: CanFork<AnyEnd, N, Shop>, R: Handle> Service<S, N, R> for Looks {
///     fn serve(self, rt: &R, ctx: &mut TaskCtx<AnyEnd, S, N>) -> Result<Found, Refusal> {
///         look(rt, self.alloc, ctx, self.name)
///     }
/// }
/// ```
pub trait Service<S: Spawner<N>, N: RealmName, R: Handle>: ServiceAnswer {
    /// Serves. What is left open is closed behind it.
    fn serve(self, rt: &R, ctx: &mut TaskCtx<AnyEnd, S, N>) -> Result<Self::Answer, Self::Error>
        ensures { IfOk result (λ answer. Self.may_answer self answer) };
}

/// The system's clock for a realm that has just begun: its moments count from now. Jobs get copies of it.
///
/// # Errors
/// `NoTime`, if the system gives none.
pub fn realm_clock<R: Handle>(rt: &R) -> Result<SystemClock<R>, NoTime>
    ensures { IfOk result (λ clock. (clock.first ≡ 0) × (clock.last ≡ None)) }
{
    SystemClock::starting_at(*rt, 0).ok_or(NoTime)
}

/// Runs the service, which forks jobs of type `J`: opens a thread pool that keeps up to `keep` idle threads, makes a
/// realm with the greatest limits, and serves with main's context; then leaves that, which closes every scope,
/// and closes the pool, which joins all threads. That it returns is not promised.
///
/// # Errors
/// That of the service; and before it begins one of `Memory`, if memory or a thread is refused.
pub fn serve_on_pool<
    N: RealmName + Send + Sync + 'static,
    J: Answers + Job<AnyEnd, OsThreads<N, JobWork<AnyEnd, N, J>>, N> + Send + Drop + 'static,
    V: Service<OsThreads<N, JobWork<AnyEnd, N, J>>, N, R> + Drop,
    R: PoolRuntime + SystemTime,
>(rt: &R, alloc: Global, seed: Seed, keep: usize, service: V) -> Result<V::Answer, V::Error>
    requires { seed ≡ N.table }
    ensures { IfOk result (λ answer. V.may_answer service answer) }
{
    serve_within::<N, J, V, R>(rt, alloc, seed, Limits::GREATEST, keep, service)
}

/// The same in a realm with these limits.
pub(crate) fn serve_within<
    N: RealmName + Send + Sync + 'static,
    J: Answers + Job<AnyEnd, OsThreads<N, JobWork<AnyEnd, N, J>>, N> + Send + Drop + 'static,
    V: Service<OsThreads<N, JobWork<AnyEnd, N, J>>, N, R> + Drop,
    R: PoolRuntime + SystemTime,
>(
    rt: &R,
    alloc: Global,
    seed: Seed,
    limits: Limits,
    keep: usize,
    service: V,
) -> Result<V::Answer, V::Error>
    requires { seed ≡ N.table }
    ensures { IfOk result (λ answer. V.may_answer service answer) }
{
    let Ok(pool) = ThreadPool::<N, JobWork<AnyEnd, N, J>>::open(rt, alloc, keep) else {
        return Err(Refusal::Memory.into());
    };
    let answer = match pool.threads() {
        Ok(threads) => serve_over::<N, J, V, R>(rt, alloc, seed, limits, threads, service),
        Err(_) => Err(Refusal::Memory.into()),
    };
    pool.close(rt);
    answer
}

/// The same over the threads of a pool.
fn serve_over<
    N: RealmName,
    J: Answers + Job<AnyEnd, OsThreads<N, JobWork<AnyEnd, N, J>>, N> + Drop,
    V: Service<OsThreads<N, JobWork<AnyEnd, N, J>>, N, R> + Drop,
    R: Handle,
>(
    rt: &R,
    alloc: Global,
    seed: Seed,
    limits: Limits,
    threads: OsThreads<N, JobWork<AnyEnd, N, J>>,
    service: V,
) -> Result<V::Answer, V::Error>
    requires { seed ≡ N.table }
    ensures { IfOk result (λ answer. V.may_answer service answer) }
{
    let (realm, token) = Realm::<AnyEnd, N>::new(alloc, seed, limits)?;
    let mut ctx = TaskCtx::main(alloc, realm, token, threads);
    let answer = service.serve(rt, &mut ctx);
    let (_token, _threads) = ctx.leave(rt);
    answer
}
