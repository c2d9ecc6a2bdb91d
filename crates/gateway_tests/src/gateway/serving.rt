//! Requests over a pool and over one thread.
ghost use Rattle.std.specs.Prelude.{◌≡◌};

use super::asking::{Asked, Duty, jobs_with};
use super::plans::plan_of;
use job_runner::{JobWork, NamedJob, SetClock, SystemClock};
use quote_gateway::{GatewayFault, Plan, Served as Found, serve, serve_by};
use realm_lock::{RealmName, Seed};
use scope_rules::Due;
use std::alloc::Global;
use std::process::Abort;
use std::rt::Clock as SystemTime;
use std::sync::atomic::{AtomicU64, Ordering};
use std::sync::{Arc, Wait};
use std::test::Fail;
use test_driver::{Inline, RefuseNth};
use thread_pool::{Nobody, PoolRuntime, Spawns, ThreadPool};

/// The deadline of a request, and what its clock reads, in milliseconds: with none it is the system's.
#[derive(Clone, Copy)]
pub struct Timed {
    pub deadline: u64,
    pub reading: Option<u64>,
}

/// A request.
#[derive(Clone, Copy)]
pub struct Request<'a> {
    pub plan: &'a str,
    /// The plan whose jobs are handed over.
    pub jobs: &'a str,
    pub duties: &'a [Duty],
    /// Which thread is refused, from 1, or none.
    pub refused: u64,
    pub timed: Option<Timed>,
}

/// A request without a deadline, whose jobs have these duties.
pub fn with_duties<'a>(plan: &'a str, duties: &'a [Duty]) -> Request<'a> {
    Request {
        plan,
        jobs: plan,
        duties,
        refused: 0,
        timed: None,
    }
}

/// What a request came to: the line, or why there is none, and how many jobs were called.
#[derive(Drop)]
pub struct Served {
    pub line: Result<String, GatewayFault>,
    pub calls: u64,
}

/// The answer's line of the plan and these jobs over the spawner.
pub fn line_of<N, S, R>(
    rt: &R,
    alloc: Global,
    seed: Seed,
    plan: &Plan,
    jobs: Vec<NamedJob<Due, Asked>>,
    spawner: S,
    timed: Option<Timed>,
) -> Result<String, GatewayFault>
where
    N: RealmName,
    S: Spawns<N, JobWork<Due, N, Asked>> + Drop,
    R: Wait + SystemTime + Copy,
    requires { seed ≡ N.table }
{
    let served = match timed {
        None => serve::<N, _, _, _>(rt, alloc, seed, plan, jobs, spawner)?,
        Some(
            Timed {
                deadline,
                reading: Some(reading),
            },
        ) => {
            let mut clock = SetClock::new(reading);
            serve_by::<N, _, _, _, _>(rt, alloc, seed, plan, jobs, spawner, deadline, &mut clock)?
        }
        Some(
            Timed {
                deadline,
                reading: None,
            },
        ) => {
            let Some(mut clock) = SystemClock::starting_at(*rt, 0) else {
                return Err(GatewayFault::Rejected);
            };
            serve_by::<N, _, _, _, _>(rt, alloc, seed, plan, jobs, spawner, deadline, &mut clock)?
        }
    };
    let Found { found, ctx } = served;
    let (_token, _spawner) = ctx.leave(rt);
    match found?.text(alloc) {
        Ok(line) => Ok(line),
        Err(_) => Err(GatewayFault::Memory),
    }
}

/// Serves the request over the spawner, of whose threads one may be refused.
pub fn over<N, S, R>(
    rt: &R,
    alloc: Global,
    seed: Seed,
    spawner: S,
    request: Request,
) -> Result<Served, Fail>
where
    N: RealmName,
    S: Spawns<N, JobWork<Due, N, Asked>> + Drop,
    R: Wait + SystemTime + Copy,
    requires { seed ≡ N.table }
{
    let plan = plan_of(alloc, request.plan)?;
    let calls = Arc::new(alloc, AtomicU64::new(0))?;
    let handed = plan_of(alloc, request.jobs)?;
    let jobs = jobs_with(alloc, &handed, request.duties, &calls).ok_or("memory")?;
    let spawner = RefuseNth::new(request.refused, spawner);
    let line = line_of::<N, _, _>(rt, alloc, seed, &plan, jobs, spawner, request.timed);
    let calls = calls.load(Ordering::SeqCst);
    Ok(Served { line, calls })
}

/// Serves the request on one thread: each job ends before the next is forked.
pub fn over_one_thread<N: RealmName, R: Wait + SystemTime + Copy>(
    rt: &R,
    alloc: Global,
    seed: Seed,
    request: Request,
) -> Result<Served, Fail>
    requires { seed ≡ N.table }
{
    over::<N, _, R>(rt, alloc, seed, Inline::new(Nobody), request)
}

/// Serves the request over a pool of which so many threads may rest.
pub fn over_a_pool<N: RealmName + Send + Sync + 'static, R: PoolRuntime + Abort + SystemTime>(
    rt: &R,
    alloc: Global,
    seed: Seed,
    keep: usize,
    request: Request,
) -> Result<Served, Fail>
    requires { seed ≡ N.table }
{
    let pool = ThreadPool::<N, JobWork<Due, N, Asked>>::open(rt, alloc, keep)?;
    let served = match pool.threads() {
        Ok(threads) => over::<N, _, R>(rt, alloc, seed, threads, request),
        Err(_) => Err(Fail::from("memory")),
    };
    pool.close(rt);
    served
}
