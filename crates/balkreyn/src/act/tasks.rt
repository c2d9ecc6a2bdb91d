//! Jobs and services that act by one value.
ghost use Rattle.std.specs.Prelude.{◌≡◌, IfOk};

use crate::act::asking::Asking;
use crate::act::contexts::{Acts, Cx};
use crate::act::frames::Frames;
use crate::act::hooks::{AtHand, Happening, Hooks, Observes, Shares};
use crate::act::stops::{Stop, StopWatch};
use crate::act::told::Told;
use crate::act::watches::Watch;
use crate::aliases::{CanFork, Handle};
use crate::errors::NoTime;
use crate::forks::fork;
use crate::literals::named;
use crate::scoped::Scopes;
use crate::services::{Service, ServiceAnswer, realm_clock, serve_on_pool};
use job_runner::{Answers, Clock, Job, JobWork, SystemClock, TaskCtx};
use join_rules::Joiner;
use realm_lock::{RealmName, Seed};
use scope_rules::{AnyEnd, End, ForkReply, Limits, Name, Options, Refusal, ScopeId};
use std::alloc::Global;
use std::marker::{Brand, PhantomData};
use std::rt::Clock as SystemTime;
use std::sync::{Arc, Wait};
use thread_pool::{OsThreads, PoolRuntime};

/// What a thread runs that acts by one value (JEP 505 has callables in its place). A scope that it leaves open is
/// closed after it, and its task then ends with the fault `left-open`.
///
/// A job that lasts a minute, unless a cancel ends it:
///
/// ```rust
/// impl Task for Lasts {
///     fn run<X: Acts<Lasts>>(self, cx: &mut X) -> End {
///         match cx.sleep(60_000) {
///             Ok(None) => Ok(Value::Num(1)),
///             _ => Err(Fault(named(b"ended-early"))),
///         }
///     }
/// }
/// ```
pub trait Task: Drop + Sized {
    ghost use Rattle.scope_rules.specs.Ends.{EndValue};

    /// The job may end so: anyhow, if it does not say.
    ghost may_end: { Self → EndValue → Type 0 } = { λ job end. Unit {0} };

    /// Does the job, and answers how it ends.
    fn run<X: Acts<Self>>(self, cx: &mut X) -> End
        ensures { Self.may_end self result };
}

/// What is run for a service: a job of its own, a request, the watch for its stop, or the one for its files.
#[derive(Drop)]
pub enum Part<W> {
    Own(W),
    Request(Asking<W>),
    Stop(StopWatch),
    Watch(Watch),
}

/// Such a job on its way to a thread, with the realm's clock. A service names it in no signature: `Serves` and `Acts`
/// stand for it.
#[derive(Drop)]
pub struct Timed<K, W, O> {
    pub(crate) alloc: Global,
    pub(crate) clock: SystemClock<K>,
    pub(crate) hooks: Shares<O>,
    pub(crate) one: Option<AtHand>,
    /// The scope in which it is forked.
    pub(crate) scope: ScopeId,
    /// The earliest deadline that is known to who forks it.
    pub(crate) deadline: Option<u64>,
    pub(crate) name: Name,
    pub(crate) job: Part<W>,
}

impl<K, W: Task, O> Answers for Timed<K, W, O> {
    ghost use Rattle.balkreyn.specs.Parts.{PartMayEnd};

    ghost may_end = { λ timed end. PartMayEnd W.may_end timed.job end };
}

impl<K: Handle, N: RealmName, W: Task, O: Observes, S: CanFork<AnyEnd, N, Timed<K, W, O>>> Job<
    AnyEnd,
    S,
    N,
> for Timed<K, W, O> {
    fn run<R: Wait>(self, _rt: &R, ctx: &mut TaskCtx<AnyEnd, S, N>) -> End {
        let Timed {
            alloc,
            clock,
            hooks,
            one,
            scope,
            deadline,
            name,
            job,
        } = self;
        let mut last = clock;
        hooks.saw(&last.runtime(), last.now(), Happening::Started { name });
        let hears = hooks.is_observed() && matches!(&job, Part::Own(_) | Part::Request(_));
        let told = Told::nothing(alloc, hears, Some(scope));
        let frames = Frames::within(alloc, deadline);
        let mut cx = Cx::new(alloc, clock, &hooks, told, frames, ctx);
        let mut lost = None;
        let end = match job {
            Part::Own(job) => job.run(&mut cx),
            Part::Request(asking) => {
                let (end, why) = asking.run(&mut cx);
                lost = why;
                end
            }
            Part::Stop(watch) => watch.run(&mut cx),
            Part::Watch(watch) => watch.act(&mut cx),
        };
        let fault = end.err();
        hooks.saw(
            &last.runtime(),
            last.now(),
            Happening::Ended { name, fault },
        );
        if let Some(why) = lost {
            hooks.saw(&last.runtime(), last.now(), Happening::Lost { name, why });
        }
        drop(one);
        end
    }
}

/// A service that acts by one value, and forks jobs of type `W`.
///
/// A service that hangs for so many milliseconds:
///
/// ```rust
/// impl Serves<Work> for Hanging {
///     fn serve<X: Acts<Work>>(self, cx: &mut X) -> Result<(), ServiceError> {
///         Ok(hang(cx, self.0)?)
///     }
/// }
/// ```
pub trait Serves<W>: ServiceAnswer {
    /// Serves. What is left open is closed behind it.
    fn serve<X: Acts<W>>(self, cx: &mut X) -> Result<Self::Answer, Self::Error>
        ensures { IfOk result (λ answer. Self.may_answer self answer) };
}

/// Such a service, by the context of main, with its hooks.
#[derive(Drop)]
struct Acting<W, O, V> {
    alloc: Global,
    service: V,
    hooks: Hooks<O>,
    jobs: PhantomData<W>,
}

impl<W, O, V: ServiceAnswer> ServiceAnswer for Acting<W, O, V> {
    type Answer = V::Answer;

    type Error = V::Error;

    ghost may_answer = { λ acting answer. V.may_answer acting.service answer };
}

impl<
    K: Handle,
    N: RealmName,
    W: Task,
    O: Observes,
    V: Serves<W> + Drop,
    S: CanFork<AnyEnd, N, Timed<K, W, O>>,
> Service<S, N, K> for Acting<W, O, V>
where
    V::Error: From<NoTime>,
{
    fn serve(self, rt: &K, ctx: &mut TaskCtx<AnyEnd, S, N>) -> Result<V::Answer, V::Error> {
        let Acting {
            alloc,
            service,
            hooks,
            ..
        } = self;
        let Hooks {
            stop,
            watch,
            load,
            observer,
        } = hooks;
        let clock = realm_clock(rt)?;
        let Ok(shares) = Shares::new(alloc, Limits::GREATEST, load, observer) else {
            return Err(Refusal::Memory.into());
        };
        match watch {
            None => {
                serve_stoppable::<K, N, W, O, V, S>(alloc, clock, ctx, stop, &shares, service)
            }
            Some(watch) => {
                serve_beside::<K, N, W, O, V, S>(alloc, clock, ctx, watch, stop, &shares, service)
            }
        }
    }
}

/// Serves in a scope, in which the watch runs from the begin to the end: the close of that scope ends it at once. A stop
/// cancels only what is within, so the watch sees it, too.
fn serve_beside<
    K: Handle,
    N: RealmName,
    W: Task,
    O: Observes,
    V: Serves<W> + Drop,
    S: CanFork<AnyEnd, N, Timed<K, W, O>>,
>(
    alloc: Global,
    clock: SystemClock<K>,
    ctx: &mut TaskCtx<AnyEnd, S, N>,
    watch: Watch,
    stop: Option<Arc<Stop, Global>>,
    shares: &Shares<O>,
    service: V,
) -> Result<V::Answer, V::Error>
    ensures { IfOk result (λ answer. V.may_answer service answer) }
{
    let rt = clock.runtime();
    let scope = ctx.open_scope(&rt, Joiner::AwaitAll, Options::PLAIN)?;
    let (name, part) = (named(b"watch"), Part::Watch(watch));
    let forked = fork_part::<K, N, W, O, S>(alloc, clock, ctx, shares, scope, name, part);
    let found = match forked {
        Ok(_reply) => {
            serve_stoppable::<K, N, W, O, V, S>(alloc, clock, ctx, stop, shares, service)
        }
        Err(refusal) => Err(refusal.into()),
    };
    let mut last = clock;
    ctx.close_opened_by(&rt, scope, &mut last)?;
    found
}

/// Serves; if there is a stop, in a scope that a watch cancels once the stop is asked for.
fn serve_stoppable<
    K: Handle,
    N: RealmName,
    W: Task,
    O: Observes,
    V: Serves<W> + Drop,
    S: CanFork<AnyEnd, N, Timed<K, W, O>>,
>(
    alloc: Global,
    clock: SystemClock<K>,
    ctx: &mut TaskCtx<AnyEnd, S, N>,
    stop: Option<Arc<Stop, Global>>,
    shares: &Shares<O>,
    service: V,
) -> Result<V::Answer, V::Error>
    ensures { IfOk result (λ answer. V.may_answer service answer) }
{
    let Some(stop) = stop else {
        return serve_plainly::<K, N, W, O, V, S>(alloc, clock, ctx, shares, service);
    };
    let rt = clock.runtime();
    let scope = ctx.open_scope(&rt, Joiner::AwaitAll, Options::PLAIN)?;
    let (name, part) = (
        named(b"stop"),
        Part::Stop(StopWatch::cancelling(stop, scope)),
    );
    let forked = fork_part::<K, N, W, O, S>(alloc, clock, ctx, shares, scope, name, part);
    let found = match forked {
        Ok(_reply) => serve_plainly::<K, N, W, O, V, S>(alloc, clock, ctx, shares, service),
        Err(refusal) => Err(refusal.into()),
    };
    let mut last = clock;
    ctx.close_opened_by(&rt, scope, &mut last)?;
    found
}

/// Serves by main's context.
fn serve_plainly<
    K: Handle,
    N: RealmName,
    W: Task,
    O: Observes,
    V: Serves<W> + Drop,
    S: CanFork<AnyEnd, N, Timed<K, W, O>>,
>(
    alloc: Global,
    clock: SystemClock<K>,
    ctx: &mut TaskCtx<AnyEnd, S, N>,
    shares: &Shares<O>,
    service: V,
) -> Result<V::Answer, V::Error>
    ensures { IfOk result (λ answer. V.may_answer service answer) }
{
    let told = Told::nothing(alloc, shares.is_observed(), None);
    let frames = Frames::within(alloc, None);
    service.serve(&mut Cx::new(alloc, clock, shares, told, frames, ctx))
}

/// Forks a part that is none of the service's jobs at hand.
fn fork_part<K: Handle, N: RealmName, W: Task, O: Observes, S: CanFork<AnyEnd, N, Timed<K, W, O>>>(
    alloc: Global,
    clock: SystemClock<K>,
    ctx: &mut TaskCtx<AnyEnd, S, N>,
    shares: &Shares<O>,
    scope: ScopeId,
    name: Name,
    part: Part<W>,
) -> Result<ForkReply, Refusal> {
    let timed = Timed {
        alloc,
        clock,
        hooks: shares.share()?,
        one: None,
        scope,
        deadline: None,
        name,
        job: part,
    };
    fork(&clock.runtime(), ctx, scope, name, timed)
}

/// Runs the service on a thread pool of its own, as `serve_on_pool` does: at most `keep` of its threads may be idle.
/// Its realm has the greatest limits, and its time counts from now. That it returns is not promised.
///
/// With a stop it serves until that is asked for: then all that it does is cancelled, but what is behind a shield. With a
/// watch it serves beside that: a job named `watch`, with a thread, which ends at once when the service does, and which a
/// stop doesn't end. Either has a scope around it all, so `retire` is refused then. `serve_requests` serves for ever.
///
/// # Errors
/// That of the service; before it begins `Memory`, if memory or a thread is refused, and `NoTime`, if the system gives
/// no time; and the refusal of a scope for stop or watch, of its job, or of its close.
pub fn serve<
    W: Task + Send + 'static,
    O: Observes + Send + Sync + 'static,
    V: Serves<W> + Drop,
    R: PoolRuntime + SystemTime,
>(rt: &R, alloc: Global, keep: usize, hooks: Hooks<O>, service: V) -> Result<V::Answer, V::Error>
where
    V::Error: From<NoTime>,
    ensures { IfOk result (λ answer. V.may_answer service answer) }
{
    let Ok(seed) = Seed::new(alloc) else {
        return Err(Refusal::Memory.into());
    };
    serve_named::<Brand, W, O, V, R>(rt, alloc, seed, keep, hooks, service)
}

/// The same in a realm of this seed, by its name.
fn serve_named<
    N: RealmName + Send + Sync + 'static,
    W: Task + Send + 'static,
    O: Observes + Send + Sync + 'static,
    V: Serves<W> + Drop,
    R: PoolRuntime + SystemTime,
>(
    rt: &R,
    alloc: Global,
    seed: Seed,
    keep: usize,
    hooks: Hooks<O>,
    service: V,
) -> Result<V::Answer, V::Error>
where
    V::Error: From<NoTime>,
    requires { seed ≡ N.table }
    ensures { IfOk result (λ answer. V.may_answer service answer) }
{
    let acting = Acting {
        alloc,
        service,
        hooks,
        jobs: PhantomData,
    };
    serve_on_pool::<N, Timed<R, W, O>, Acting<W, O, V>, R>(rt, alloc, seed, keep, acting)
}
