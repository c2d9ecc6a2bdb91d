//! Requests by the system's clock, each to three backends, of which one takes longer than any test.
ghost use Rattle.std.specs.Prelude.{◌≡◌};

use job_runner::{Answers, Clock, Job, JobWork, NamedJob, SystemClock, TaskCtx, move_on_after};
use join_rules::Joiner;
use realm_lock::{Joined, Realm, RealmName, Seed};
use scope_rules::{AnyEnd, End, Expiry, Label, Limits, Name, Options, Outcome, ScopeId, Value};
use std::alloc::Global;
use std::marker::Brand;
use std::rt::Clock as SystemTime;
use std::sync::Wait;
use std::test::Fail;
use thread_pool::{OsThreads, PoolRuntime, Spawns, ThreadPool};

/// How long the backends take, and how long a request waits, in milliseconds.
const BACKENDS: [u64; 3] = [5, 40, 3_600_000];

const PATIENCE: u64 = 50;

/// What a job does: it makes a request, or it is a backend that takes so long.
#[derive(Clone, Copy)]
enum Part {
    Request,
    Backend { millis: u64 },
}

/// A job, by the clock that all have.
#[derive(Clone, Copy)]
struct Caller<T> {
    name: Name,
    part: Part,
    clock: SystemClock<T>,
}

impl<T> Answers for Caller<T> {
    ghost may_end = { λ job end. Unit {0} };
}

impl<T: Wait + SystemTime + Copy, N: RealmName, S: Spawns<N, JobWork<AnyEnd, N, Caller<T>>>> Job<
    AnyEnd,
    S,
    N,
> for Caller<T> {
    fn run<R: Wait>(self, rt: &R, ctx: &mut TaskCtx<AnyEnd, S, N>) -> End {
        let is_right = match self.part {
            Part::Request => is_kept(rt, ctx, self),
            Part::Backend { millis } => {
                let mut clock = self.clock;
                let time = clock.runtime();
                let until = clock.now().saturating_add(millis);
                matches!(ctx.wait_by(&time, &mut clock, Some(until), None), Ok(None))
            }
        };
        Ok(Value::Num(if is_right { 1 } else { 0 }))
    }
}

/// Forks the job in the scope. Whether it has a thread.
fn fork<
    T: Wait + SystemTime + Copy,
    N: RealmName,
    S: Spawns<N, JobWork<AnyEnd, N, Caller<T>>>,
    R: Wait,
>(rt: &R, ctx: &mut TaskCtx<AnyEnd, S, N>, scope: ScopeId, job: Caller<T>) -> bool {
    let label = Label {
        name: job.name,
        due: None,
    };
    ctx.fork_job(rt, scope, NamedJob::new(label, job)).is_ok()
}

/// Makes a request: whether it is answered with what there is, and not before its time.
fn is_kept<
    T: Wait + SystemTime + Copy,
    N: RealmName,
    S: Spawns<N, JobWork<AnyEnd, N, Caller<T>>>,
    R: Wait,
>(rt: &R, ctx: &mut TaskCtx<AnyEnd, S, N>, job: Caller<T>) -> bool {
    let mut clock = job.clock;
    let time = clock.runtime();
    let began = clock.now();
    let options = move_on_after(&mut clock, PATIENCE);
    let Ok(scope) = ctx.open(rt, Joiner::AwaitAll, options) else {
        return false;
    };
    let mut is_forked = true;
    for millis in BACKENDS {
        let part = Part::Backend { millis };
        is_forked = fork(rt, ctx, scope, Caller { part, ..job }) && is_forked;
    }
    let is_partial = match ctx.join_by::<Joined, _, _>(&time, scope, &mut clock) {
        Ok(joined) => matches!(joined.outcome, Outcome::Partial(_)),
        Err(_) => false,
    };
    let took = clock.now().saturating_sub(began);
    let is_closed = ctx.close_scope_bare(rt, scope).is_ok();
    is_forked && is_partial && is_closed && PATIENCE <= took
}

/// Main has so many requests made at once: whether each is kept. None where a call is refused.
fn in_context<N: RealmName, R: PoolRuntime + SystemTime>(
    rt: &R,
    ctx: &mut TaskCtx<AnyEnd, OsThreads<N, JobWork<AnyEnd, N, Caller<R>>>, N>,
    clock: SystemClock<R>,
    count: u32,
) -> Option<bool> {
    let options = Options {
        deadline: None,
        expiry: Expiry::Fail,
        shield: false,
    };
    let Ok(scope) = ctx.open(rt, Joiner::All, options) else {
        return None;
    };
    let job = Caller {
        name: Name::new(b"request")?,
        part: Part::Request,
        clock,
    };
    let mut is_forked = true;
    for _ in 0..count {
        is_forked = fork(rt, ctx, scope, job) && is_forked;
    }
    let joined = ctx.join(rt, scope).ok()?;
    let all = match &joined.outcome {
        Outcome::All(values) => values
            .as_slice()
            .iter()
            .all(|value| value.value == Value::Num(1)),
        _ => false,
    };
    ctx.close_scope_bare(rt, scope).ok()?;
    Some(is_forked && all)
}

/// The same over a pool's threads.
fn over_threads<N: RealmName, R: PoolRuntime + SystemTime>(
    rt: &R,
    alloc: Global,
    seed: Seed,
    threads: OsThreads<N, JobWork<AnyEnd, N, Caller<R>>>,
    count: u32,
) -> Option<bool>
    requires { seed ≡ N.table }
{
    let clock = SystemClock::starting_at(*rt, 0)?;
    let Ok((realm, token)) = Realm::<AnyEnd, N>::new(alloc, seed, Limits::GREATEST) else {
        return None;
    };
    let mut ctx = TaskCtx::main(alloc, realm, token, threads);
    let is_right = in_context(rt, &mut ctx, clock, count);
    let (_token, _threads) = ctx.leave(rt);
    is_right
}

/// The same in a realm of its own.
fn are_kept<N: RealmName + Send + Sync + 'static, R: PoolRuntime + SystemTime>(
    rt: &R,
    alloc: Global,
    seed: Seed,
    count: u32,
) -> Option<bool>
    requires { seed ≡ N.table }
{
    let pool = ThreadPool::<N, JobWork<AnyEnd, N, Caller<R>>>::open(rt, alloc, 4).ok()?;
    let is_right = match pool.threads() {
        Ok(threads) => over_threads::<N, R>(rt, alloc, seed, threads, count),
        Err(_) => None,
    };
    pool.close(rt);
    is_right
}

fn all_kept<R: PoolRuntime + SystemTime + AllocGlobal>(rt: &R, count: u32) -> bool {
    let alloc = rt.alloc();
    match Seed::new(alloc) {
        Ok(seed) => are_kept::<Brand, R>(rt, alloc, seed, count) == Some(true),
        Err(_) => false,
    }
}

#[test]
fn requests_keep_their_time_alone_and_a_hundred_at_once(rt: HostRuntime) -> Result<(), Fail> {
    assert!(rt; all_kept(&rt, 1));
    assert!(rt; all_kept(&rt, 100));
    Ok(())
}
