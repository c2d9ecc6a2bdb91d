//! The table of checks: one function a row, which tries the checks in their order; what an event answers
//! that passes its row; and what a retirement, which is no event, is refused for.

ghost use Rattle.std.specs.Prelude.{ℕ, ◌<◌, ◌≡◌, Option};
ghost use Rattle.scope_checks.specs.{Binding, EndValue, GREATEST_NUMBER, Label, Limits, Options, Policy, answering, check_of, checks, event_reply_of, fork_reply, noted, retire_check, retire_row, row_check, tasks, weight};

use crate::checks::{
    fail_if, in_closing, is_innermost, known_actor, known_scope, known_task, load_fits,
    not_closing, not_joined, owned, ready, runs,
};
use crate::event_replies::{Accepted, EventReply};
use crate::failures::FromFailed;
use crate::load::{over_scopes, over_tasks};
use crate::readings::Readings;
use scope_rules::Failed;
use scope_rules::types::answers::{ForkReply, Stage};
use scope_rules::types::capacity::{FORK_LOAD, LEVEL_LIMIT, Limits, OPEN_LOAD, STEP_LOAD};
use scope_rules::types::events::Event;
use scope_rules::types::refusals::Refusal;
use scope_rules::types::values::{Actor, MAIN, ScopeId, TaskId};

/// What the event answers, and what it costs: the first check of its row that fails gives the refusal.
pub fn accept<R: Readings>(
    readings: &R,
    limits: &Limits,
    event: &Event,
) -> Result<Accepted, Refusal>
    ensures { result ≡ answering (check_of limits.now (R.history readings.now) event.now) (record { reply = event_reply_of (R.history readings.now) event.now; load = weight event.now }) }
{
    try_event(readings, limits, event)
}

/// The same, in one pass over what the event is, with what is made of the check that fails.
pub fn try_event<R: Readings, F: FromFailed>(
    readings: &R,
    limits: &Limits,
    event: &Event,
) -> Result<Accepted, F>
    ensures { result ≡ answering (row_check F.made limits.now (R.history readings.now) event.now) (record { reply = event_reply_of (R.history readings.now) event.now; load = weight event.now }) }
{
    let (reply, load) = match *event {
        Event::Open { actor, .. } => {
            open_row::<R, F>(readings, limits, actor)?;
            (EventReply::Scope(readings.scopes() + 1), OPEN_LOAD)
        }
        Event::Fork { actor, scope, .. } => {
            fork_row::<R, F>(readings, limits, actor, scope)?;
            (EventReply::Task(fork_answer(readings, scope)), FORK_LOAD)
        }
        Event::Reject { task } | Event::Start { task } => {
            waiting_row::<R, F>(readings, task)?;
            (EventReply::Done, 0)
        }
        Event::Finish { task, .. } => {
            finish_row::<R, F>(readings, task)?;
            (EventReply::Done, 0)
        }
        Event::Cancel { scope } => {
            cancel_row::<R, F>(readings, limits, scope)?;
            (noted(readings.is_cancelled(scope)), STEP_LOAD)
        }
        Event::Move { scope, .. } => {
            move_row::<R, F>(readings, limits, scope)?;
            (EventReply::Done, STEP_LOAD)
        }
        Event::Tick { now } => {
            tick_row::<R, F>(readings, limits, now)?;
            (EventReply::Done, STEP_LOAD)
        }
        Event::Bind { actor, .. } => {
            bind_row::<R, F>(readings, limits, actor)?;
            (EventReply::Done, STEP_LOAD)
        }
        Event::Unbind { actor } => {
            unbind_row::<R, F>(readings, limits, actor)?;
            (EventReply::Done, STEP_LOAD)
        }
        Event::Join { actor, scope } => {
            join_row::<R, F>(readings, actor, scope)?;
            (EventReply::Done, 0)
        }
        Event::BeginClose { actor, scope } => {
            begin_close_row::<R, F>(readings, actor, scope)?;
            (noted(readings.closing(scope)), 0)
        }
        Event::EndClose { actor, scope } => {
            end_close_row::<R, F>(readings, actor, scope)?;
            (EventReply::Closed(readings.verdict(scope)), 0)
        }
    };
    Ok(Accepted { reply, load })
}

/// The number of the next task, and whether it gets a thread in the scope.
fn fork_answer<R: Readings>(readings: &R, scope: ScopeId) -> ForkReply
    requires { tasks (R.history readings.now) < GREATEST_NUMBER }
    ensures { result ≡ fork_reply (R.history readings.now) scope }
{
    let task = readings.tasks() + 1;
    if readings.is_cancelled(scope) {
        ForkReply::Never(task)
    } else {
        ForkReply::Thread(task)
    }
}

/// Whether all was so already.
fn noted(already: bool) -> EventReply
    ensures { result ≡ noted already }
{
    if already {
        EventReply::Already
    } else {
        EventReply::Recorded
    }
}

/// What an open is refused for, whatever its joiner and options.
#[tactic(auto, unfolding(scope_rules::specs::Table::row_check, scope_rules::specs::Checks::checks, scope_rules::specs::Checks::then_check))]
pub fn open_row<R: Readings, F: FromFailed>(
    readings: &R,
    limits: &Limits,
    actor: Actor,
) -> Result<(), F>
    ensures { (policy : Policy) (options : Options) → result ≡ row_check F.made limits.now (R.history readings.now) (Event.Open actor policy options) }
{
    known_actor::<R, F>(readings, actor)?;
    fail_if::<F>(in_closing(readings, actor), Failed::ClosingAround(actor))?;
    let too_deep = readings.next_level(actor) > u64::from(LEVEL_LIMIT);
    fail_if::<F>(too_deep, Failed::TooDeep(actor))?;
    fail_if::<F>(over_scopes(readings, limits), Failed::Scopes)?;
    load_fits(readings, limits, OPEN_LOAD)
}

/// What a fork is refused for, whatever its label.
#[tactic(auto, unfolding(scope_rules::specs::Table::row_check, scope_rules::specs::Checks::checks, scope_rules::specs::Checks::then_check))]
pub fn fork_row<R: Readings, F: FromFailed>(
    readings: &R,
    limits: &Limits,
    actor: Actor,
    scope: ScopeId,
) -> Result<(), F>
    ensures { (label : Label) → result ≡ row_check F.made limits.now (R.history readings.now) (Event.Fork actor scope label) }
{
    known_actor::<R, F>(readings, actor)?;
    known_scope::<R, F>(readings, scope)?;
    owned::<R, F>(readings, actor, scope)?;
    not_closing::<R, F>(readings, scope)?;
    not_joined::<R, F>(readings, scope)?;
    let alike = readings.bound_as_opened(actor, scope);
    fail_if::<F>(!alike, Failed::BoundOtherwise { actor, scope })?;
    fail_if::<F>(over_tasks(readings, limits), Failed::Tasks)?;
    load_fits(readings, limits, FORK_LOAD)
}

/// What a reject and a start are refused for: all but a task whose thread is still to come.
#[tactic(auto, unfolding(scope_rules::specs::Table::row_check, scope_rules::specs::Checks::checks, scope_rules::specs::Checks::then_check))]
pub fn waiting_row<R: Readings, F: FromFailed>(readings: &R, task: TaskId) -> Result<(), F>
    ensures reject { (limits : Limits) → result ≡ row_check F.made limits (R.history readings.now) (Event.Reject task) }
    ensures start { (limits : Limits) → result ≡ row_check F.made limits (R.history readings.now) (Event.Start task) }
{
    known_task::<R, F>(readings, task)?;
    let waits = matches!(readings.stage(task), Stage::Waiting);
    fail_if(!waits, Failed::NotWaiting(task))
}

/// What a finish is refused for, whatever the end.
#[tactic(auto, unfolding(scope_rules::specs::Table::row_check, scope_rules::specs::Checks::checks, scope_rules::specs::Checks::then_check))]
pub fn finish_row<R: Readings, F: FromFailed>(readings: &R, task: TaskId) -> Result<(), F>
    ensures { (limits : Limits) (end : EndValue) → result ≡ row_check F.made limits (R.history readings.now) (Event.Finish task end) }
{
    known_task::<R, F>(readings, task)?;
    fail_if::<F>(!runs(readings, task), Failed::NotRunning(task))?;
    fail_if(readings.innermost(task).is_some(), Failed::Unclosed(task))
}

/// What a cancel is refused for: a scope that is cancelled already wants no room.
#[tactic(auto, unfolding(scope_rules::specs::Table::row_check, scope_rules::specs::Checks::checks, scope_rules::specs::Checks::then_check))]
pub fn cancel_row<R: Readings, F: FromFailed>(
    readings: &R,
    limits: &Limits,
    scope: ScopeId,
) -> Result<(), F>
    ensures { result ≡ row_check F.made limits.now (R.history readings.now) (Event.Cancel scope) }
{
    known_scope::<R, F>(readings, scope)?;
    not_closing::<R, F>(readings, scope)?;
    if readings.is_cancelled(scope) {
        return Ok(());
    }
    load_fits(readings, limits, STEP_LOAD)
}

/// What a move of a deadline is refused for, whatever the new one.
#[tactic(auto, unfolding(scope_rules::specs::Table::row_check, scope_rules::specs::Checks::checks, scope_rules::specs::Checks::then_check))]
pub fn move_row<R: Readings, F: FromFailed>(
    readings: &R,
    limits: &Limits,
    scope: ScopeId,
) -> Result<(), F>
    ensures { (deadline : Option ℕ) → result ≡ row_check F.made limits.now (R.history readings.now) (Event.Move scope deadline) }
{
    known_scope::<R, F>(readings, scope)?;
    not_closing::<R, F>(readings, scope)?;
    not_joined::<R, F>(readings, scope)?;
    load_fits(readings, limits, STEP_LOAD)
}

/// What a tick is refused for.
#[tactic(auto, unfolding(scope_rules::specs::Table::row_check, scope_rules::specs::Checks::checks, scope_rules::specs::Checks::then_check))]
pub fn tick_row<R: Readings, F: FromFailed>(
    readings: &R,
    limits: &Limits,
    now: u64,
) -> Result<(), F>
    ensures { result ≡ row_check F.made limits.now (R.history readings.now) (Event.Tick now) }
{
    fail_if::<F>(now < readings.moment(), Failed::ClockBack(now))?;
    load_fits(readings, limits, STEP_LOAD)
}

/// What a bind is refused for, whatever the pair.
#[tactic(auto, unfolding(scope_rules::specs::Table::row_check, scope_rules::specs::Checks::checks, scope_rules::specs::Checks::then_check))]
pub fn bind_row<R: Readings, F: FromFailed>(
    readings: &R,
    limits: &Limits,
    actor: Actor,
) -> Result<(), F>
    ensures { (pair : Binding) → result ≡ row_check F.made limits.now (R.history readings.now) (Event.Bind actor pair) }
{
    known_actor::<R, F>(readings, actor)?;
    load_fits(readings, limits, STEP_LOAD)
}

/// What an unbind is refused for.
#[tactic(auto, unfolding(scope_rules::specs::Table::row_check, scope_rules::specs::Checks::checks, scope_rules::specs::Checks::then_check))]
pub fn unbind_row<R: Readings, F: FromFailed>(
    readings: &R,
    limits: &Limits,
    actor: Actor,
) -> Result<(), F>
    ensures { result ≡ row_check F.made limits.now (R.history readings.now) (Event.Unbind actor) }
{
    known_actor::<R, F>(readings, actor)?;
    fail_if::<F>(readings.stack_len(actor) == 0, Failed::NoBinding(actor))?;
    fail_if::<F>(readings.holds_last(actor), Failed::HeldBinding(actor))?;
    load_fits(readings, limits, STEP_LOAD)
}

/// What a join is refused for.
#[tactic(auto, unfolding(scope_rules::specs::Table::row_check, scope_rules::specs::Checks::checks, scope_rules::specs::Checks::then_check))]
pub fn join_row<R: Readings, F: FromFailed>(
    readings: &R,
    actor: Actor,
    scope: ScopeId,
) -> Result<(), F>
    ensures { (limits : Limits) → result ≡ row_check F.made limits (R.history readings.now) (Event.Join actor scope) }
{
    known_actor::<R, F>(readings, actor)?;
    known_scope::<R, F>(readings, scope)?;
    owned::<R, F>(readings, actor, scope)?;
    not_closing::<R, F>(readings, scope)?;
    not_joined::<R, F>(readings, scope)?;
    fail_if(!ready(readings, scope), Failed::Pending(scope))
}

/// What the beginning of a close is refused for: the scope is not the actor's.
#[tactic(auto, unfolding(scope_rules::specs::Table::row_check, scope_rules::specs::Checks::checks, scope_rules::specs::Checks::then_check))]
pub fn begin_close_row<R: Readings, F: FromFailed>(
    readings: &R,
    actor: Actor,
    scope: ScopeId,
) -> Result<(), F>
    ensures { (limits : Limits) → result ≡ row_check F.made limits (R.history readings.now) (Event.BeginClose actor scope) }
{
    known_actor::<R, F>(readings, actor)?;
    known_scope::<R, F>(readings, scope)?;
    owned(readings, actor, scope)
}

/// What the end of a close is refused for.
#[tactic(auto, unfolding(scope_rules::specs::Table::row_check, scope_rules::specs::Checks::checks, scope_rules::specs::Checks::then_check))]
pub fn end_close_row<R: Readings, F: FromFailed>(
    readings: &R,
    actor: Actor,
    scope: ScopeId,
) -> Result<(), F>
    ensures { (limits : Limits) → result ≡ row_check F.made limits (R.history readings.now) (Event.EndClose actor scope) }
{
    known_actor::<R, F>(readings, actor)?;
    known_scope::<R, F>(readings, scope)?;
    owned::<R, F>(readings, actor, scope)?;
    fail_if::<F>(!readings.closing(scope), Failed::NotClosing(scope))?;
    fail_if::<F>(readings.closed(scope), Failed::Closed(scope))?;
    let inside = is_innermost(readings, actor, scope);
    fail_if::<F>(!inside, Failed::NotInnermost { actor, scope })?;
    fail_if(!readings.settled(scope), Failed::Pending(scope))
}

/// What `retire` is refused for.
#[tactic(auto, unfolding(scope_rules::specs::Table::retire_check))]
pub fn retire_check<R: Readings>(readings: &R, actor: Actor) -> Result<(), Refusal>
    ensures { result ≡ retire_check (R.history readings.now) actor }
{
    retire_row(readings, actor)
}

/// The same, with what is made of the check that fails.
#[tactic(auto, unfolding(scope_rules::specs::Table::row_check, scope_rules::specs::Checks::checks, scope_rules::specs::Checks::then_check))]
pub fn retire_row<R: Readings, F: FromFailed>(readings: &R, actor: Actor) -> Result<(), F>
    ensures { result ≡ checks (retire_row F.made (R.history readings.now) actor) }
{
    known_actor::<R, F>(readings, actor)?;
    fail_if::<F>(actor != MAIN, Failed::NotMain(actor))?;
    fail_if(readings.innermost(MAIN).is_some(), Failed::Unclosed(MAIN))
}
