//! Jobs that are asked for an offer.
ghost use Rattle.std.specs.Prelude.{◌≡◌, ◌⊎◌, codes};
ghost use Rattle.scope_rules.specs.Names.{text_of};
ghost use Rattle.scope_rules.specs.Fitting.{IsRuntimeEnd};
ghost use Rattle.quote_plan.specs.Plans.{end_of};

use job_runner::{Answers, Job, NamedJob, TaskCtx};
use join_rules::Joiner;
use quote_gateway::{Offer, Plan};
use realm_lock::RealmName;
use scope_rules::{Due, End, Fault, Label, Name, Options, ScopeId, State, TaskId};
use std::alloc::Global;
use std::sync::atomic::{AtomicU64, Ordering};
use std::sync::{Arc, Wait};
use std::thread;
use thread_pool::Spawner;

/// The scope in which all jobs of a request run.
pub const SCOPE: ScopeId = 1;

/// How often a job looks at most for what it waits for.
const LOOKS: u32 = 1_000_000_000;

/// What a job does once it was counted, before it ends as its offer says.
#[derive(Clone, Copy)]
pub enum Duty {
    /// Nothing.
    Plain,
    /// It waits until the task has ended.
    After(TaskId),
    /// It looks for its mark.
    Looks,
    /// Once the moment is the first, in milliseconds, it tells the second.
    TicksAt(u64, u64),
    /// It cancels the scope of the request.
    Cancels,
    /// Once it is cancelled it opens a shielded scope with this deadline, in milliseconds, and waits there for its
    /// mark, without a clock.
    Lingers(u64),
    /// It opens a scope, which it leaves open.
    LeavesOpen,
    /// It ends with the fault `memory` instead.
    Forgets,
}

/// How many jobs were called.
pub type Calls = Arc<AtomicU64, Global>;

/// A job that is asked for an offer.
#[derive(Drop)]
pub struct Asked {
    offer: Offer,
    duty: Duty,
    calls: Calls,
}

impl Answers for Asked {
    ghost use Rattle.std.specs.Prelude.{◌≡◌, ◌⊎◌};
    ghost use Rattle.scope_rules.specs.Fitting.{IsRuntimeEnd};
    ghost use Rattle.quote_plan.specs.Plans.{end_of};

    ghost may_end = { λ job end. (end ≡ end_of job.offer) ⊎ IsRuntimeEnd end };
}

impl<S: Spawner<N>, N: RealmName> Job<Due, S, N> for Asked {
    fn run<R: Wait>(self, rt: &R, ctx: &mut TaskCtx<Due, S, N>) -> End {
        let Asked { offer, duty, calls } = self;
        calls.fetch_add(1, Ordering::SeqCst);
        match duty {
            Duty::Plain | Duty::Forgets => {}
            Duty::After(task) => wait_for(rt, ctx, task),
            Duty::Looks => look(ctx),
            Duty::TicksAt(from, to) => tick_at(rt, ctx, from, to),
            Duty::Cancels => {
                let _how = ctx.cancel(rt, SCOPE);
            }
            Duty::Lingers(deadline) => linger(rt, ctx, deadline),
            Duty::LeavesOpen => {
                let _scope = ctx.open(rt, Joiner::AwaitAll, Options::PLAIN);
            }
        }
        end_by(duty, offer)
    }
}

/// How a job with this duty ends.
fn end_by(duty: Duty, offer: Offer) -> End
    ensures { (result ≡ end_of offer) ⊎ IsRuntimeEnd result }
{
    match duty {
        Duty::Forgets => Err(memory()),
        _ => offer.end(),
    }
}

/// The fault `memory`, which fits each label.
fn memory() -> Fault
    ensures { text_of result.0 ≡ codes "memory" }
{
    match Name::new(b"memory") {
        Some(name) => Fault(name),
        None => unreachable!(),
    }
}

/// Looks at the task until it has ended.
fn wait_for<S: Spawner<N>, N: RealmName, R: Wait>(
    rt: &R,
    ctx: &mut TaskCtx<Due, S, N>,
    task: TaskId,
) {
    for _ in 0..LOOKS {
        match ctx.state(rt, task) {
            Ok(State::Success(_) | State::Failed(_)) => return,
            _ => thread::yield_now(),
        }
    }
}

/// Looks for the context's mark until it is seen.
fn look<S: Spawner<N>, N: RealmName>(ctx: &mut TaskCtx<Due, S, N>)
    ensures { ctx.new.token ≡ ctx.old.token }
{
    for _ in 0..LOOKS {
        if ctx.checkpoint().is_some() {
            return;
        }
        thread::yield_now();
    }
}

/// Waits to be cancelled, and then behind a shield for the deadline.
fn linger<S: Spawner<N>, N: RealmName, R: Wait>(
    rt: &R,
    ctx: &mut TaskCtx<Due, S, N>,
    deadline: u64,
) {
    let _unwanted = ctx.wait_cancelled(rt);
    let options = Options {
        shield: true,
        ..Options::by(deadline)
    };
    if let Ok(scope) = ctx.open(rt, Joiner::AwaitAll, options) {
        let _mark = ctx.wait_cancelled(rt);
        let _how = ctx.close_scope_bare(rt, scope);
    }
}

/// Looks at the moment until it is the first, and tells the second.
fn tick_at<S: Spawner<N>, N: RealmName, R: Wait>(
    rt: &R,
    ctx: &mut TaskCtx<Due, S, N>,
    from: u64,
    to: u64,
) {
    for _ in 0..LOOKS {
        match ctx.view(rt, SCOPE) {
            Ok(view) if view.moment == from => break,
            _ => thread::yield_now(),
        }
    }
    let _told = ctx.tick(rt, to);
}

/// The jobs of the plan's offers, each with its duty, or `Plain` where none is given. None where memory is
/// refused.
pub fn jobs_with(
    alloc: Global,
    plan: &Plan,
    duties: &[Duty],
    calls: &Calls,
) -> Option<Vec<NamedJob<Due, Asked>>> {
    let mut jobs = Vec::new(alloc);
    for index in 0..plan.len() {
        let (name, offer) = plan.named_at(index)?;
        let duty = match duties.get(index) {
            Some(duty) => *duty,
            None => Duty::Plain,
        };
        jobs.push(named(name, offer, duty, calls)?).ok()?;
    }
    Some(jobs)
}

/// The job of the offer. None where no share of the count is had.
pub fn named(name: Name, offer: Offer, duty: Duty, calls: &Calls) -> Option<NamedJob<Due, Asked>> {
    let label = Label {
        name,
        due: Some(offer.end()),
    };
    let job = Asked {
        offer,
        duty,
        calls: Arc::try_clone(calls).ok()?,
    };
    Some(NamedJob::new(label, job))
}
