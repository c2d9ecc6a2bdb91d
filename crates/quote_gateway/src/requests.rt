//! What is done for a request in its scope.
ghost use Rattle.std.specs.Prelude.{◌↔◌, ◌∷◌, ◌≡◌};
ghost use Rattle.quote_gateway.specs.{[], ℕ, Allows, EndsScope, Finds, ForkTurnedDown, ForkedAs, HasForked, HasJoined, IfErr, IfOk, IsOpenHere, IsPartial, IsTaskHere, IsTrue};
ghost use Rattle.quote_gateway.specs.{IsTurnedDown, KeepsScopes, KeepsTasks, MakesBy, Opens, OpensNone, SeesMore, answer_text, history_seen, labels_in, labels_of, listing_by, policy_of, state};
ghost use Rattle.quote_gateway.specs.{task_in};
ghost use Rattle.join_rules.specs.Joiners.{policy_of as policy_stored};

use crate::faults::GatewayFault;
use job_runner::{Answers, JobWork, NamedJob, TaskCtx};
use join_rules::Joiner;
use quote_plan::{Answer, Mode, Plan, answer};
use realm_lock::RealmName;
use scope_rules::{Due, ForkReply, Options, Outcome, ScopeId, TaskId, TaskState};
use std::alloc::{AllocError, Global};
use std::sync::Wait;
use thread_pool::{Spawner, Spawns};

/// Opens the scope in which the offers' jobs run.
pub(crate) fn open_scope<N: RealmName, S: Spawner<N>, R: Wait>(
    rt: &R,
    ctx: &mut TaskCtx<Due, S, N>,
    mode: Mode,
    options: Options,
) -> Result<ScopeId, GatewayFault>
    ensures token { SeesMore ctx.old.token ctx.new.token }
    ensures opened { IfOk result (Opens ctx.old.token ctx.new.token (policy_of mode) options) }
    ensures refused { IfErr result (OpensNone ctx.old.token ctx.new.token (policy_of mode) options) }
{
    match ctx.open(rt, joiner_of(mode), options) {
        Ok(scope) => Ok(scope),
        Err((refusal, _joiner)) => Err(GatewayFault::of_refusal(refusal)),
    }
}

/// The joiner of the mode.
fn joiner_of(mode: Mode) -> Joiner
    ensures { policy_stored result ≡ policy_of mode }
{
    match mode {
        Mode::Best => Joiner::AwaitAll,
        Mode::All => Joiner::All,
        Mode::First => Joiner::Any,
    }
}

/// Forks the jobs in the scope, which has no tasks yet, in order, and gives their tasks. At the first that is
/// refused it forks no more.
pub(crate) fn fork_all<N: RealmName, J: Answers + Drop, S: Spawns<N, JobWork<Due, N, J>>, R: Wait>(
    rt: &R,
    alloc: Global,
    ctx: &mut TaskCtx<Due, S, N>,
    scope: ScopeId,
    jobs: Vec<NamedJob<Due, J>>,
) -> Result<Vec<TaskId>, GatewayFault>
    requires empty { HasForked ctx.old.token scope [] [] }
    ensures token { SeesMore ctx.old.token ctx.new.token }
    ensures keeps { KeepsScopes ctx.old.token ctx.new.token }
    ensures forked { IfOk result (λ tasks. HasForked ctx.new.token scope (labels_in jobs.items) tasks.items) }
    ensures refused { IfErr result (IsTurnedDown (ForkTurnedDown ctx.old.token ctx.new.token scope (labels_in jobs.items))) }
{
    let mut tasks = Vec::new(alloc);
    if tasks.reserve(jobs.len()).is_err() {
        return Err(GatewayFault::Memory);
    }
    for job in jobs {
        let task = fork(rt, ctx, scope, job)?;
        if tasks.push(task).is_err() {
            return Err(GatewayFault::Memory);
        }
    }
    Ok(tasks)
}

/// Forks the job, and gives its task.
fn fork<N: RealmName, J: Answers + Drop, S: Spawns<N, JobWork<Due, N, J>>, R: Wait>(
    rt: &R,
    ctx: &mut TaskCtx<Due, S, N>,
    scope: ScopeId,
    job: NamedJob<Due, J>,
) -> Result<TaskId, GatewayFault>
    requires here { IsOpenHere ctx.old.token scope }
    ensures token { SeesMore ctx.old.token ctx.new.token }
    ensures keeps { KeepsScopes ctx.old.token ctx.new.token }
    ensures forked { IfOk result (ForkedAs ctx.old.token ctx.new.token scope job.label) }
    ensures refused { IfErr result (IsTurnedDown (ForkTurnedDown ctx.old.token ctx.new.token scope (job.label ∷ []))) }
{
    match ctx.fork_job(rt, scope, job) {
        Ok(reply) => Ok(task_in(reply)),
        Err(refused) => Err(GatewayFault::of_refusal(refused.refusal())),
    }
}

/// The task that was forked.
fn task_in(reply: ForkReply) -> TaskId
    ensures { result ≡ task_in reply }
{
    match reply {
        ForkReply::Thread(task) | ForkReply::Never(task) => task,
    }
}

/// Joins the scope, and answers the plan by what its tasks returned.
pub(crate) fn join_and_answer<N: RealmName, S: Spawner<N>, R: Wait>(
    rt: &R,
    alloc: Global,
    ctx: &mut TaskCtx<Due, S, N>,
    scope: ScopeId,
    plan: &Plan,
    tasks: &[TaskId],
) -> Result<Answer, GatewayFault>
    requires forked { HasForked ctx.old.token scope (labels_of plan.now) tasks.now }
    ensures token { SeesMore ctx.old.token ctx.new.token }
    ensures keeps { KeepsTasks ctx.old.token ctx.new.token }
    ensures allowed { IfOk result (λ a. Allows plan.now ⊥ (answer_text a)) }
    ensures found { Finds ctx.old.token ctx.new.token plan.now scope ⊥ result }
{
    match ctx.join(rt, scope) {
        Ok(joined) => answer_joined(rt, alloc, ctx, plan, tasks, &joined.outcome, false),
        Err(refusal) => Err(GatewayFault::of_refusal(refusal)),
    }
}

/// Answers the plan by what the tasks of a joined scope returned. `expired` says whether the clock of the
/// request has reached its deadline: only then is an answer made of what was there by then.
pub(crate) fn answer_joined<N: RealmName, S: Spawner<N>, R: Wait>(
    rt: &R,
    alloc: Global,
    ctx: &mut TaskCtx<Due, S, N>,
    plan: &Plan,
    tasks: &[TaskId],
    outcome: &Outcome,
    expired: bool,
) -> Result<Answer, GatewayFault>
    requires joined { (s : ℕ) × HasJoined ctx.old.token s tasks.now }
    ensures token { SeesMore ctx.old.token ctx.new.token }
    ensures keeps { KeepsTasks ctx.old.token ctx.new.token }
    ensures allowed { IfOk result (λ a. Allows plan.now (IsTrue expired) (answer_text a)) }
    ensures rests { MakesBy plan.now (IsTrue expired) (listing_by (state (history_seen ctx.new.token)) tasks.now) outcome.now result }
{
    match states_of(rt, alloc, ctx, tasks) {
        Ok(states) => answer_by(alloc, plan, states.as_slice(), outcome, expired),
        Err(_memory) => Err(GatewayFault::Memory),
    }
}

/// The tasks of a joined scope with their states.
fn states_of<N: RealmName, S: Spawner<N>, R: Wait>(
    rt: &R,
    alloc: Global,
    ctx: &mut TaskCtx<Due, S, N>,
    tasks: &[TaskId],
) -> Result<Vec<TaskState>, AllocError>
    requires joined { (s : ℕ) × HasJoined ctx.old.token s tasks.now }
    ensures token { SeesMore ctx.old.token ctx.new.token }
    ensures keeps { KeepsTasks ctx.old.token ctx.new.token }
    ensures read { IfOk result (λ states. states.items ≡ listing_by (state (history_seen ctx.new.token)) tasks.now) }
{
    let mut states = Vec::new(alloc);
    for task in tasks {
        let read = state_of(rt, ctx, *task);
        states.push(read)?;
    }
    Ok(states)
}

/// The task, which is one of an open scope, with its state.
fn state_of<N: RealmName, S: Spawner<N>, R: Wait>(
    rt: &R,
    ctx: &mut TaskCtx<Due, S, N>,
    task: TaskId,
) -> TaskState
    requires forked { (s : ℕ) × IsTaskHere ctx.old.token s task }
    ensures token { SeesMore ctx.old.token ctx.new.token }
    ensures keeps { KeepsTasks ctx.old.token ctx.new.token }
    ensures read { result ≡ record { task = task; state = state (history_seen ctx.new.token) task } }
{
    match ctx.state(rt, task) {
        Ok(state) => TaskState { task, state },
        Err(_) => unreachable!(),
    }
}

/// The answer by the outcome of the join and the states of the tasks.
fn answer_by(
    alloc: Global,
    plan: &Plan,
    tasks: &[TaskState],
    outcome: &Outcome,
    expired: bool,
) -> Result<Answer, GatewayFault>
    ensures allowed { IfOk result (λ a. Allows plan.now (IsTrue expired) (answer_text a)) }
    ensures rests { MakesBy plan.now (IsTrue expired) tasks.now outcome.now result }
{
    if !expired && is_partial(outcome) {
        return Err(GatewayFault::Cancelled);
    }
    match answer(alloc, plan, tasks, outcome) {
        Ok(answer) => Ok(answer),
        Err(why) => Err(GatewayFault::of_no_answer(why)),
    }
}

/// Whether the outcome shows what was there at the deadline.
fn is_partial(outcome: &Outcome) -> bool
    ensures { IsTrue result ↔ IsPartial outcome.now }
{
    match outcome {
        Outcome::Partial(_) => true,
        _ => false,
    }
}

/// Closes the scope, with a report if memory is obtained for one, and without else.
pub(crate) fn close_scope<N: RealmName, S: Spawner<N>, R: Wait>(
    rt: &R,
    ctx: &mut TaskCtx<Due, S, N>,
    scope: ScopeId,
)
    requires here { IsOpenHere ctx.old.token scope }
    ensures token { SeesMore ctx.old.token ctx.new.token }
    ensures ends { EndsScope ctx.old.token ctx.new.token scope }
{
    match ctx.close_scope(rt, scope) {
        Ok(_report) => {}
        Err(_why) => {
            let _how = ctx.close_scope_bare(rt, scope);
        }
    }
}
