//! Many requests over one context and its pool, between which the realm retires.
ghost use Rattle.std.specs.Prelude.{◌≡◌};

use super::asking::{Asked, Calls, jobs_with};
use super::plans::plan_of;
use job_runner::{JobWork, SetClock, TaskCtx};
use quote_gateway::{GatewayFault, serve_in, serve_in_by};
use realm_lock::{Realm, RealmName, Seed};
use scope_rules::{Due, Limits};
use std::alloc::Global;
use std::marker::Brand;
use std::process::Abort;
use std::rt::Clock as SystemTime;
use std::sync::atomic::{AtomicU64, Ordering};
use std::sync::{Arc, Wait};
use std::test::Fail;
use thread_pool::{PoolRuntime, Spawns, ThreadPool};

/// A request of the service, and its line. Where it has a deadline, the clock reads so.
#[derive(Clone, Copy)]
struct Turn {
    plan: &'static str,
    by: Option<(u64, u64)>,
    line: &'static str,
}

/// Five requests, with eleven jobs.
const TURNS: [Turn; 5] = [
    Turn {
        plan: "mode best / offer a 905 / offer b 899 / offer c 899",
        by: None,
        line: "best b 899",
    },
    Turn {
        plan: "mode all / offer a 5 / offer b 0",
        by: None,
        line: "all a=5 b=0",
    },
    Turn {
        plan: "mode first / offer a fail x",
        by: None,
        line: "failed a x",
    },
    Turn {
        plan: "mode best / offer a fail x / offer b fail y",
        by: Some((100, 99)),
        line: "none",
    },
    Turn {
        plan: "mode best / offer c 3 / offer b 2 / offer a 1",
        by: Some((200, 199)),
        line: "best a 1",
    },
];

/// The answer's line of one request over the context, after which the realm has retired.
fn line_of<N: RealmName, S: Spawns<N, JobWork<Due, N, Asked>>, R: Wait + SystemTime>(
    rt: &R,
    alloc: Global,
    ctx: &mut TaskCtx<Due, S, N>,
    turn: Turn,
    calls: &Calls,
) -> Result<String, Fail> {
    let plan = plan_of(alloc, turn.plan)?;
    let jobs = jobs_with(alloc, &plan, &[], calls).ok_or("memory")?;
    let found = match turn.by {
        None => serve_in(rt, alloc, ctx, &plan, jobs),
        Some((deadline, reading)) => {
            let mut clock = SetClock::new(reading);
            serve_in_by(rt, alloc, ctx, &plan, jobs, deadline, &mut clock)
        }
    };
    if ctx.retire(rt).is_err() {
        return Err(Fail::from("it retires"));
    }
    match found {
        Ok(answer) => Ok(answer.text(alloc)?),
        Err(GatewayFault::Memory) => Err(Fail::from("memory")),
        Err(_) => Err(Fail::from("no answer")),
    }
}

/// Serves all requests, one after the other, over one context.
fn all_turns<N: RealmName, S: Spawns<N, JobWork<Due, N, Asked>>, R: Wait + Abort + SystemTime>(
    rt: &R,
    alloc: Global,
    ctx: &mut TaskCtx<Due, S, N>,
    calls: &Calls,
) -> Result<(), Fail> {
    for turn in TURNS {
        let line = line_of(rt, alloc, ctx, turn, calls)?;
        assert_eq!(rt; line.as_str(), turn.line);
    }
    Ok(())
}

/// The same over main's context in a realm, which is left then.
fn in_a_realm<
    N: RealmName,
    S: Spawns<N, JobWork<Due, N, Asked>> + Drop,
    R: Wait + Abort + SystemTime,
>(rt: &R, alloc: Global, seed: Seed, spawner: S, calls: &Calls) -> Result<(), Fail>
    requires { seed ≡ N.table }
{
    let Ok((realm, token)) = Realm::<Due, N>::new(alloc, seed, Limits::GREATEST) else {
        return Err(Fail::from("memory"));
    };
    let mut ctx = TaskCtx::main(alloc, realm, token, spawner);
    let done = all_turns(rt, alloc, &mut ctx, calls);
    let (_token, _spawner) = ctx.leave(rt);
    done
}

/// The same over a pool of which so many threads may rest.
fn over_a_pool<N: RealmName + Send + Sync + 'static, R: PoolRuntime + Abort + SystemTime>(
    rt: &R,
    alloc: Global,
    seed: Seed,
    keep: usize,
    calls: &Calls,
) -> Result<(), Fail>
    requires { seed ≡ N.table }
{
    let pool = ThreadPool::<N, JobWork<Due, N, Asked>>::open(rt, alloc, keep)?;
    let done = match pool.threads() {
        Ok(threads) => in_a_realm::<N, _, R>(rt, alloc, seed, threads, calls),
        Err(_) => Err(Fail::from("memory")),
    };
    pool.close(rt);
    done
}

#[test]
fn requests_go_over_one_context(rt: HostRuntime) -> Result<(), Fail> {
    for keep in [0, 4] {
        let calls = Arc::new(rt.alloc(), AtomicU64::new(0))?;
        let seed = Seed::new(rt.alloc())?;
        over_a_pool::<Brand, _>(&rt, rt.alloc(), seed, keep, &calls)?;
        assert_eq!(rt; calls.load(Ordering::SeqCst), 11);
    }
    Ok(())
}
