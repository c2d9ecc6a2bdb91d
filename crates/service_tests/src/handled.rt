//! A job that does its work by a handle of its own, and times of events by looks of a service.
ghost use Rattle.std.specs.Prelude.{◌≡◌};

use balkreyn::by_hand::{
    Answers, CanFork, JobWithRuntime, Service, Spawner, TaskCtx, WithRuntime, fork, serve_on_pool,
    within,
};
use balkreyn::looks::{InspectByToken, Times};
use balkreyn::realms::{RealmName, Seed};
use balkreyn::{
    AnyEnd, End, Fault, Handle, Joiner, Name, Options, PoolRuntime, Refusal, ServiceAnswer, State,
    Value,
};
use std::alloc::Global;
use std::marker::Brand;
use std::rt::Clock as SystemTime;
use std::sync::Wait;
use std::test::Fail;
use std::thread;
use std::time::{Duration, Instant};

/// Sleeps for so many milliseconds by its own handle, whatever is cancelled, and tells whether so long passed.
#[derive(Clone, Copy)]
struct Nap {
    name: Name,
    millis: u64,
}

impl Answers for Nap {
    ghost may_end = { λ nap end. Unit {0} };
}

impl<K: SystemTime, S: Spawner<N>, N: RealmName> JobWithRuntime<K, AnyEnd, S, N> for Nap {
    fn run_by<R: Wait>(self, _rt: &R, io: &K, _ctx: &mut TaskCtx<AnyEnd, S, N>) -> End {
        let nap = Duration::from_millis(self.millis);
        let Ok(before) = Instant::now(io) else {
            return Err(Fault(self.name));
        };
        thread::sleep(io, nap);
        match before.elapsed(io) {
            Ok(slept) if nap <= slept => Ok(Value::Text(self.name)),
            _ => Err(Fault(self.name)),
        }
    }
}

/// Has a thread nap by a copy of this handle, and gives how that ended.
fn take_nap<N: RealmName, R: Handle, S: CanFork<AnyEnd, N, WithRuntime<R, Nap>>>(
    rt: &R,
    ctx: &mut TaskCtx<AnyEnd, S, N>,
    job: Nap,
) -> Result<State, Refusal> {
    within(rt, ctx, Joiner::AwaitAll, Options::PLAIN, |ctx, scope| {
        let io = *rt;
        fork(rt, ctx, scope, job.name, WithRuntime { io, job })?;
        ctx.join(rt, scope)?;
        ctx.state(rt, 1)
    })
}

/// How a nap ended, and the script of what happened, with times.
#[derive(Drop)]
struct Napped {
    state: State,
    script: String,
}

/// Main's part: a nap, and the times of two looks.
#[derive(Clone, Copy)]
struct Naps {
    alloc: Global,
    nap: Nap,
}

impl ServiceAnswer for Naps {
    type Answer = Napped;

    type Error = Refusal;

    ghost may_answer = { λ naps napped. Unit {0} };
}

impl<N: RealmName, R: Handle, S: CanFork<AnyEnd, N, WithRuntime<R, Nap>>> Service<S, N, R>
    for Naps {
    fn serve(self, rt: &R, ctx: &mut TaskCtx<AnyEnd, S, N>) -> Result<Napped, Refusal> {
        let mut times = Times::new(self.alloc);
        times.note(ctx.reached(rt), 10)?;
        let state = take_nap(rt, ctx, self.nap)?;
        times.note(ctx.reached(rt), 50)?;
        let script = ctx.timed_journal(rt, self.alloc, &times, 60)?;
        Ok(Napped { state, script })
    }
}

/// How the nap ended, on a pool of its own.
fn served<N: RealmName + Send + Sync + 'static, R: PoolRuntime + SystemTime>(
    rt: &R,
    seed: Seed,
    naps: Naps,
) -> Result<Napped, Refusal>
    requires { seed ≡ N.table }
{
    serve_on_pool::<N, WithRuntime<R, Nap>, _, R>(rt, naps.alloc, seed, 4, naps)
}

#[test]
fn a_job_works_by_a_handle_of_its_own(rt: HostRuntime) -> Result<(), Fail> {
    let name = Name::new(b"nap").ok_or("a name")?;
    let naps = Naps {
        alloc: rt.alloc(),
        nap: Nap { name, millis: 5 },
    };
    let seed = Seed::new(rt.alloc())?;
    let napped = served::<Brand, _>(&rt, seed, naps)?;
    assert!(rt; napped.state == State::Success(Value::Text(name)));
    assert!(rt; napped.script.as_str().starts_with("# at 50\nopen 0 "));
    Ok(())
}
