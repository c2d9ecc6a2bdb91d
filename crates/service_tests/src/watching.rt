//! A look at a request that hangs: the code that docs/GUIDE.md shows.
ghost use Rattle.std.specs.Prelude.{◌≡◌};

use balkreyn::by_hand::{
    Answers, CanFork, Clock, Job, Service, Spawner, SystemClock, TaskCtx, TypedJob, fork,
    fork_typed, realm_clock, serve_on_pool, within,
};
use balkreyn::looks::{Inspect, InspectByToken};
use balkreyn::realms::{Realm, RealmName, Seed};
use balkreyn::{
    AnyEnd, End, Fault, Handle, Joiner, Name, Options, PoolRuntime, Refusal, ScopeId,
    ServiceAnswer, ServiceError, Typed, Value, Yields,
};
use std::alloc::Global;
use std::marker::Brand;
use std::process::Abort;
use std::rt::Clock as SystemTime;
use std::sync::Wait;
use std::test::Fail;

/// What was seen of a request that takes too long: the tree of what stands, as text and as JSON, and the script
/// of what happened.
#[derive(Drop)]
struct Seen {
    tree: String,
    dump: String,
    script: String,
}

/// A job that looks at a realm, unless it is cancelled within so many milliseconds.
#[derive(Drop)]
struct Watch<K, N: RealmName> {
    alloc: Global,
    realm: Realm<AnyEnd, N>,
    millis: u64,
    clock: SystemClock<K>,
}

impl<K, N: RealmName> Yields for Watch<K, N> {
    type Value = Seen;

    type Error = Fault;

    ghost may_yield = { λ name seen. Unit {0} };

    ghost is_fact = { λ name seen. Prim.hlevel };
}

impl<K: Handle, N: RealmName, S: Spawner<N>> TypedJob<S, N> for Watch<K, N> {
    fn run_typed<R: Wait>(
        self,
        rt: &R,
        ctx: &mut TaskCtx<AnyEnd, S, N>,
        name: Name,
    ) -> Result<Seen, Fault> {
        let mut clock = self.clock;
        let until = clock.now().saturating_add(self.millis);
        match ctx.wait_by(&clock.runtime(), &mut clock, Some(until), None) {
            Ok(None) => match (
                self.realm.tree(rt, self.alloc),
                self.realm.dump(rt, self.alloc),
                ctx.journal(rt, self.alloc),
            ) {
                (Ok(tree), Ok(dump), Ok(script)) => Ok(Seen { tree, dump, script }),
                _ => Err(Fault(name)),
            },
            _ => Err(Fault(name)), // the request came to its end before
        }
    }
}

/// The works of the pool: a shop that never answers, and the watch.
#[derive(Drop)]
enum Work<K, N: RealmName> {
    Shop,
    Watch(Typed<Watch<K, N>>),
}

impl<K, N: RealmName> From<Typed<Watch<K, N>>> for Work<K, N> {
    fn from(typed: Typed<Watch<K, N>>) -> Work<K, N> {
        Work::Watch(typed)
    }
}

impl<K, N: RealmName> Answers for Work<K, N> {
    ghost may_end = { λ job end. Unit {0} };
}

impl<K: Handle, N: RealmName, S: Spawner<N>> Job<AnyEnd, S, N> for Work<K, N> {
    fn run<R: Wait>(self, rt: &R, ctx: &mut TaskCtx<AnyEnd, S, N>) -> End {
        match self {
            Work::Shop => {
                let _mark = ctx.wait_cancelled(rt);
                Ok(Value::Num(0))
            }
            Work::Watch(typed) => typed.run(rt, ctx),
        }
    }
}

/// Returns once the scope's only task runs.
fn await_start<N: RealmName, S: Spawner<N>, R: Wait>(
    rt: &R,
    ctx: &mut TaskCtx<AnyEnd, S, N>,
    scope: ScopeId,
) -> Result<(), Refusal> {
    for _ in rt.forever() {
        if ctx.view(rt, scope)?.counts.running == 1 {
            return Ok(());
        }
    }
    unreachable!()
}

/// The request, which would never end: a shop is asked, and the watch ends it once it has looked.
#[derive(Clone, Copy)]
struct Hangs {
    alloc: Global,
}

impl ServiceAnswer for Hangs {
    type Answer = Seen;

    type Error = ServiceError;

    ghost may_answer = { λ hangs seen. Unit {0} };
}

impl<N: RealmName, R: Handle, S: CanFork<AnyEnd, N, Work<R, N>>> Service<S, N, R> for Hangs {
    #[tactic(auto, unfolding(scope_rules::specs::NameText::is_name))]
    fn serve(self, rt: &R, ctx: &mut TaskCtx<AnyEnd, S, N>) -> Result<Seen, ServiceError> {
        let clock = realm_clock(rt)?;
        let (shop, watch) = (Name::literal(b"shop"), Name::literal(b"watch"));
        let alloc = self.alloc;
        let job = Watch {
            alloc,
            realm: ctx.realm()?,
            millis: 30,
            clock,
        };
        let seen: Seen = within(rt, ctx, Joiner::Any, Options::PLAIN, |ctx, scope| {
            fork(rt, ctx, scope, shop, Work::Shop)?;
            await_start(rt, ctx, scope)?;
            let slot = fork_typed(rt, alloc, ctx, scope, watch, job)?;
            ctx.join(rt, scope)?;
            slot.take(rt, ctx)
        })?;
        Ok(seen)
    }
}

/// What was seen, on a pool of its own.
fn watched<N: RealmName + Send + Sync + 'static, R: PoolRuntime + SystemTime>(
    rt: &R,
    seed: Seed,
    hangs: Hangs,
) -> Result<Seen, ServiceError>
    requires { seed ≡ N.table }
{
    serve_on_pool::<N, Work<R, N>, _, R>(rt, hangs.alloc, seed, 4, hangs)
}

#[test]
fn a_request_that_hangs_is_looked_at(rt: HostRuntime) -> Result<(), Fail> {
    let seed = Seed::new(rt.alloc())?;
    let hangs = Hangs { alloc: rt.alloc() };
    let seen = watched::<Brand, _>(&rt, seed, hangs)?;
    assert_eq!(rt;
        seen.tree.as_str(),
        "moment 0\nscope 1 open, of main, joins any, awaits 2 of 2\n  task 1 shop: running\n  task 2 watch: running\n"
    );
    assert_eq!(rt;
        seen.dump.as_str(),
        "{\"moment\":0,\"root\":{\"cause\":null,\"deadline\":null,\"expiry\":\"fail\",\"id\":1,\"inner\":null,\"joined\":false,\"joiner\":\"any\",\"owner\":0,\"shield\":false,\"stage\":\"open\",\"tasks\":[{\"id\":1,\"inner\":null,\"name\":\"shop\",\"stage\":\"running\",\"state\":\"unavailable\"},{\"id\":2,\"inner\":null,\"name\":\"watch\",\"stage\":\"running\",\"state\":\"unavailable\"}]}}"
    );
    assert_eq!(rt;
        seen.script.as_str(),
        "open 0 any\nfork 0 1 shop\nstart 1\nfork 0 1 watch\nstart 2\n"
    );
    Ok(())
}
