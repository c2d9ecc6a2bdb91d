//! Requests over `within` and over a guard, on a pool: the code that docs/GUIDE.md shows. It imports `balkreyn`
//! alone.
ghost use Rattle.std.specs.Prelude.{◌≡◌};

use balkreyn::by_hand::{
    Answers, CanFork, Clock, Job, NamedJob, ScopeGuard, Service, Spawner, SystemClock, TaskCtx,
    fail_after, fork, realm_clock, serve_on_pool, within, within_by,
};
use balkreyn::looks::LogEntry;
use balkreyn::realms::{RealmName, Seed};
use balkreyn::{
    AnyEnd, End, Fault, Handle, Joined, Joiner, Label, Name, NoTime, Options, Outcome, PoolRuntime,
    Refusal, ScopeId, ServiceAnswer, TaskValue, Value, Verdict,
};
use std::alloc::Global;
use std::marker::Brand;
use std::process::Abort;
use std::rt::Clock as SystemTime;
use std::sync::Wait;
use std::test::Fail;
use thiserror::Error;

/// Why there is no answer.
#[derive(Debug, Drop, Error)]
enum Failed {
    #[error("{0}")]
    Refused(#[from] Refusal),
    #[error(transparent)]
    Time(#[from] NoTime),
    #[error("nobody wants the price any more")]
    Unwanted,
}

/// A job that asks one shop for its price, inside a scope of its own. The shop takes so many milliseconds, or it lingers.
#[derive(Clone, Copy)]
struct Ask<T> {
    shop: Name,
    price: i64,
    takes: u64,
    clock: SystemClock<T>,
}

/// How long a shop takes that lingers.
const LINGERS: u64 = u64::MAX;

impl<T> Answers for Ask<T> {
    ghost may_end = { λ job end. Unit {0} };
}

impl<T: Wait + SystemTime + Copy, N: RealmName, S: Spawner<N>> Job<AnyEnd, S, N> for Ask<T> {
    fn run<R: Wait>(self, rt: &R, ctx: &mut TaskCtx<AnyEnd, S, N>) -> End {
        if self.takes == LINGERS {
            return lingered(rt, ctx, self);
        }
        let Ask {
            shop,
            price,
            takes,
            mut clock,
        } = self;
        let own = clock.runtime();
        let asked = within_by(
            &own,
            ctx,
            Joiner::AwaitAll,
            Options::PLAIN,
            clock,
            |ctx: &mut TaskCtx<AnyEnd, S, N>, _scope: ScopeId| -> Result<i64, Failed> {
                let until = clock.now().saturating_add(takes);
                match ctx.wait_by(&own, &mut clock, Some(until), None)? {
                    None => Ok(price),
                    Some(_) => Err(Failed::Unwanted),
                }
            },
        );
        match asked {
            Ok(price) => Ok(Value::Num(price)),
            Err(_) => Err(Fault(shop)),
        }
    }
}

/// Once nobody wants it any more, it goes on behind a shield for 50 milliseconds. It waits without a clock.
fn lingered<T: Wait + SystemTime + Copy, N: RealmName, S: Spawner<N>, R: Wait>(
    rt: &R,
    ctx: &mut TaskCtx<AnyEnd, S, N>,
    ask: Ask<T>,
) -> End {
    let Ask {
        shop,
        price,
        mut clock,
        ..
    } = ask;
    let _unwanted = ctx.wait_cancelled(rt);
    let options = Options {
        shield: true,
        ..fail_after(&mut clock, 50)
    };
    let inside = within(rt, ctx, Joiner::AwaitAll, options, |ctx, scope| {
        match ctx.wait_cancelled(rt) {
            Some(mark) => Ok(mark.scope == scope),
            None => Err(Refusal::NotReady),
        }
    });
    match inside {
        Ok(true) => Ok(Value::Num(price)),
        _ => Err(Fault(shop)),
    }
}

/// How a request is written.
#[derive(Clone, Copy)]
enum Form {
    /// Over `within`.
    Within,
    /// Over a guard, and `close`.
    Guarded,
    /// Over a guard, and `report`.
    Reported,
    /// Over `within`, with a body that gives up once it has forked.
    GivesUp,
    /// Over a guard whose scope is closed by its number before.
    ClosedBefore,
    /// Over `within` inside a scope that is cancelled.
    Cancelled,
    /// Over `within`, a guard, or a guard with a report, with a shop that lingers while its scope is closed.
    ClosedWithin,
    ClosedGuard,
    ClosedReport,
}

/// A request: how it is written, and how much time it has, in milliseconds.
#[derive(Clone, Copy)]
struct Request {
    form: Form,
    millis: u64,
}

/// The sum of two prices, asked for at once, if both come within so many milliseconds.
fn sum_within<R: Wait + SystemTime + Copy, N: RealmName, S: CanFork<AnyEnd, N, Ask<R>>>(
    rt: &R,
    ctx: &mut TaskCtx<AnyEnd, S, N>,
    clock: &mut SystemClock<R>,
    asks: (Ask<R>, Ask<R>),
    millis: u64,
) -> Result<Option<i64>, Refusal> {
    let options = fail_after(clock, millis);
    let (first, second) = asks;
    within_by(
        rt,
        ctx,
        Joiner::All,
        options,
        *clock,
        |ctx: &mut TaskCtx<AnyEnd, S, N>, scope: ScopeId| -> Result<Option<i64>, Refusal> {
            fork(rt, ctx, scope, first.shop, first)?;
            fork(rt, ctx, scope, second.shop, second)?;
            let joined: Joined = ctx.join_by(rt, scope, clock)?;
            Ok(sum_in(&joined.outcome))
        },
    )
}

/// The sum of what all tasks succeeded with, if they did.
fn sum_in(outcome: &Outcome) -> Option<i64> {
    let values = outcome.values()?;
    Some(sum_of(values))
}

/// The sum of the numbers among the values.
fn sum_of(values: &[TaskValue]) -> i64 {
    let mut sum = 0i64;
    for value in values {
        if let Value::Num(number) = value.value {
            sum = sum.saturating_add(number);
        }
    }
    sum
}

/// What both shops say, in the guarded scope.
fn ask_both<R: Wait + SystemTime + Copy, N: RealmName, S: CanFork<AnyEnd, N, Ask<R>>>(
    rt: &R,
    ctx: &mut TaskCtx<AnyEnd, S, N>,
    scope: &ScopeGuard,
    clock: &mut SystemClock<R>,
    asks: (Ask<R>, Ask<R>),
) -> Result<Option<i64>, Refusal> {
    let label = Label {
        name: asks.0.shop,
        due: None,
    };
    if let Err(refused) = scope.fork(rt, ctx, NamedJob::new(label, asks.0)) {
        return Err(refused.refusal());
    }
    fork(rt, ctx, scope.number(), asks.1.shop, asks.1)?;
    let joined: Joined = scope.join_by(rt, ctx, clock)?;
    Ok(sum_in(&joined.outcome))
}

/// The same sum over a guard.
fn sum_guarded<R: Wait + SystemTime + Copy, N: RealmName, S: CanFork<AnyEnd, N, Ask<R>>>(
    rt: &R,
    ctx: &mut TaskCtx<AnyEnd, S, N>,
    clock: &mut SystemClock<R>,
    asks: (Ask<R>, Ask<R>),
    millis: u64,
) -> Result<Option<i64>, Refusal> {
    let options = fail_after(clock, millis);
    let scope = ScopeGuard::at(rt, ctx, Joiner::All, options)?;
    let found = ask_both(rt, ctx, &scope, clock, asks);
    scope.close_by(rt, ctx, clock)?;
    found
}

/// The same with a report, which must be of a scope that was closed plainly, alone.
fn sum_reported<R: Wait + SystemTime + Copy, N: RealmName, S: CanFork<AnyEnd, N, Ask<R>>>(
    rt: &R,
    ctx: &mut TaskCtx<AnyEnd, S, N>,
    clock: &mut SystemClock<R>,
    asks: (Ask<R>, Ask<R>),
    millis: u64,
) -> Result<Option<i64>, Refusal> {
    let options = fail_after(clock, millis);
    let scope = ScopeGuard::at(rt, ctx, Joiner::All, options)?;
    let found = ask_both(rt, ctx, &scope, clock, asks);
    match scope.report_by(rt, ctx, clock) {
        Ok(report) => {
            if report.verdict == Verdict::Plain && report.nested.is_empty() {
                found
            } else {
                Err(Refusal::Structure)
            }
        }
        Err((refusal, back)) => {
            back.close(rt, ctx)?;
            Err(refusal)
        }
    }
}

/// The refusal of a close of the scope that a body left by a `?`: it is closed already.
fn close_after_giving_up<R: Wait + SystemTime + Copy, N: RealmName, S: CanFork<AnyEnd, N, Ask<R>>>(
    rt: &R,
    ctx: &mut TaskCtx<AnyEnd, S, N>,
    ask: Ask<R>,
) -> Result<Option<i64>, Refusal> {
    let mut number = 0;
    let found = within(
        rt,
        ctx,
        Joiner::All,
        Options::PLAIN,
        |ctx: &mut TaskCtx<AnyEnd, S, N>, scope: ScopeId| -> Result<Value, Refusal> {
            number = scope;
            fork(rt, ctx, scope, ask.shop, ask)?;
            ctx.result(rt, 1) // refused: the scope is not joined
        },
    );
    match (found, ctx.close_scope_bare(rt, number)) {
        (Err(Refusal::NotJoined), Err(refusal)) => Err(refusal),
        _ => Ok(None),
    }
}

/// The refusal of a guard's close whose scope was closed by its number: the guard came back from the report,
/// which was refused for that too.
fn close_twice<R: Wait, N: RealmName, S: Spawner<N>>(
    rt: &R,
    ctx: &mut TaskCtx<AnyEnd, S, N>,
) -> Result<Option<i64>, Refusal> {
    let scope = ScopeGuard::at(rt, ctx, Joiner::Any, Options::PLAIN)?;
    let early = ctx.close_scope_bare(rt, scope.number());
    match scope.report(rt, ctx) {
        Ok(_report) => Ok(None),
        Err((first, back)) => {
            let second = back.close(rt, ctx);
            match (early, first, second) {
                (Ok(Verdict::Plain), Refusal::Closed, Err(refusal)) => Err(refusal),
                _ => Ok(None),
            }
        }
    }
}

/// The scope that the outcome names of one inside a scope that is cancelled.
fn cancel_around<R: Wait, N: RealmName, S: Spawner<N>>(
    rt: &R,
    ctx: &mut TaskCtx<AnyEnd, S, N>,
) -> Result<Option<i64>, Refusal> {
    within(rt, ctx, Joiner::AwaitAll, Options::PLAIN, |ctx, around| {
        within(rt, ctx, Joiner::AwaitAll, Options::PLAIN, |ctx, scope| {
            ctx.cancel(rt, around)?;
            let outcome = ctx.join(rt, scope)?.outcome;
            Ok(outcome.cancelled_from().map(i64::from))
        })
    })
}

/// Forks the job, which lingers, in a scope, and closes that: its price if the job ended well, where a report says so.
fn close_around<R: Wait + SystemTime + Copy, N: RealmName, S: CanFork<AnyEnd, N, Ask<R>>>(
    rt: &R,
    ctx: &mut TaskCtx<AnyEnd, S, N>,
    job: Ask<R>,
    form: Form,
) -> Result<Option<i64>, Refusal> {
    let mut clock = job.clock;
    if let Form::ClosedWithin = form {
        let found = within_by(
            rt,
            ctx,
            Joiner::AwaitAll,
            Options::PLAIN,
            clock,
            |ctx, scope| {
                fork(rt, ctx, scope, job.shop, job)?;
                Ok::<bool, Refusal>(true)
            },
        );
        return match found {
            Err(Refusal::NotJoined) => Ok(Some(job.price)),
            _ => Ok(None),
        };
    }
    let scope = ScopeGuard::at(rt, ctx, Joiner::AwaitAll, Options::PLAIN)?;
    let forked = fork(rt, ctx, scope.number(), job.shop, job);
    let mut well = None;
    if let Form::ClosedReport = form {
        match scope.report_by(rt, ctx, &mut clock) {
            Ok(report) => {
                for entry in report.log.entries() {
                    if let LogEntry::Finish { end: Ok(_), .. } = entry {
                        well = Some(job.price);
                    }
                }
            }
            Err((_refusal, back)) => {
                back.close(rt, ctx)?;
            }
        }
    } else {
        scope.close_by(rt, ctx, &mut clock)?;
        well = Some(job.price);
    }
    forked?;
    Ok(well)
}

/// Serves the request in the form that it asks for.
fn serve<R: Wait + SystemTime + Copy, N: RealmName, S: CanFork<AnyEnd, N, Ask<R>>>(
    rt: &R,
    ctx: &mut TaskCtx<AnyEnd, S, N>,
    clock: &mut SystemClock<R>,
    asks: (Ask<R>, Ask<R>),
    request: Request,
) -> Result<Option<i64>, Refusal> {
    match request.form {
        Form::Within => sum_within(rt, ctx, clock, asks, request.millis),
        Form::Guarded => sum_guarded(rt, ctx, clock, asks, request.millis),
        Form::Reported => sum_reported(rt, ctx, clock, asks, request.millis),
        Form::GivesUp => close_after_giving_up(rt, ctx, asks.1),
        Form::ClosedBefore => close_twice(rt, ctx),
        Form::Cancelled => cancel_around(rt, ctx),
        Form::ClosedWithin | Form::ClosedGuard | Form::ClosedReport => {
            close_around(rt, ctx, asks.1, request.form)
        }
    }
}

/// Main's part: a request to two shops, of which the second takes so long, in milliseconds.
#[derive(Clone, Copy)]
struct TwoShops {
    shop: Name,
    takes: u64,
    request: Request,
}

impl ServiceAnswer for TwoShops {
    type Answer = Option<i64>;

    type Error = Failed;

    ghost may_answer = { λ shops sum. Unit {0} };
}

impl<N: RealmName, R: Handle, S: CanFork<AnyEnd, N, Ask<R>>> Service<S, N, R> for TwoShops {
    fn serve(self, rt: &R, ctx: &mut TaskCtx<AnyEnd, S, N>) -> Result<Option<i64>, Failed> {
        let mut clock = realm_clock(rt)?;
        let first = Ask {
            shop: self.shop,
            price: 30,
            takes: 5,
            clock,
        };
        let second = Ask {
            price: 12,
            takes: self.takes,
            ..first
        };
        Ok(serve(rt, ctx, &mut clock, (first, second), self.request)?)
    }
}

/// Serves one request on a pool of its own.
fn one_request<N: RealmName + Send + Sync + 'static, R: PoolRuntime + SystemTime>(
    rt: &R,
    alloc: Global,
    seed: Seed,
    shops: TwoShops,
) -> Result<Option<i64>, Failed>
    requires { seed ≡ N.table }
{
    serve_on_pool::<N, Ask<R>, _, R>(rt, alloc, seed, 4, shops)
}

/// Each form, how long the second shop takes and how much time there is, in milliseconds, and what comes of it. An outcome names
/// the scope around that was cancelled, the first of the realm.
const FORMS: [(Form, u64, u64, Option<i64>); 10] = [
    (Form::Within, 5, 60_000, Some(42)),
    (Form::Within, 60_000, 50, None),
    (Form::Guarded, 5, 60_000, Some(42)),
    (Form::Guarded, 60_000, 50, None),
    (Form::Reported, 5, 60_000, Some(42)),
    (Form::Reported, 60_000, 50, None),
    (Form::Cancelled, 0, 0, Some(1)),
    (Form::ClosedWithin, LINGERS, 0, Some(12)),
    (Form::ClosedGuard, LINGERS, 0, Some(12)),
    (Form::ClosedReport, LINGERS, 0, Some(12)),
];

/// A close by a clock passes a deadline behind a shield, while nobody else waits by a clock.
#[test]
fn each_form_serves_its_request_or_its_time_runs_out(rt: HostRuntime) -> Result<(), Fail> {
    let shop = Name::new(b"shop").ok_or("a name")?;
    for (form, takes, millis, wanted) in FORMS {
        let seed = Seed::new(rt.alloc())?;
        let request = Request { form, millis };
        let shops = TwoShops {
            shop,
            takes,
            request,
        };
        let sum = one_request::<Brand, _>(&rt, rt.alloc(), seed, shops)?;
        assert!(rt; sum == wanted, "{takes} {millis}");
    }
    Ok(())
}

#[test]
fn a_scope_is_closed_once(rt: HostRuntime) -> Result<(), Fail> {
    let shop = Name::new(b"shop").ok_or("a name")?;
    for form in [Form::GivesUp, Form::ClosedBefore] {
        let seed = Seed::new(rt.alloc())?;
        let shops = TwoShops {
            shop,
            takes: 60_000,
            request: Request {
                form,
                millis: 60_000,
            },
        };
        let closed = one_request::<Brand, _>(&rt, rt.alloc(), seed, shops);
        let Err(failed) = closed else {
            return Err("it was closed twice".into());
        };
        assert!(rt; matches!(failed, Failed::Refused(Refusal::Closed)));
        assert_eq!(rt;
            format!(in rt.alloc(); "{failed}")?.as_str(),
            "refused 3 closed"
        );
    }
    Ok(())
}

#[test]
fn each_fault_of_a_service_says_what_it_is(rt: HostRuntime) -> Result<(), Fail> {
    for (failed, text) in [
        (Failed::from(Refusal::Unavailable), "refused 13 unavailable"),
        (Failed::from(NoTime), "the system gives no time"),
        (Failed::Unwanted, "nobody wants the price any more"),
    ] {
        assert_eq!(rt; format!(in rt.alloc(); "{failed}")?.as_str(), text);
    }
    Ok(())
}
