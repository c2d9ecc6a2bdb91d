//! Every query of a realm, once: what it is refused for, and what it answers. None of them
//! changes anything.

ghost use Rattle.std.specs.Prelude.{ℕ, ◌≡◌, OnOk, Some, max, option_map};
ghost use Rattle.scope_checks.specs.{AnswersValue, Passes.Passes, answering, binding_reply, cancellation, cancelled_at, cause, checks, counts, effective, fault_reply, info, info_reply, inner_reply, label_reply, outcome};
ghost use Rattle.scope_checks.specs.{outcome_check, owns_task, reading_check, reading_row, result_reply, scope_check, scope_stage, stage, state, task_at_reply, task_check, task_inner_reply, task_joined, until_check, until_row};

use crate::checks::{
    actor_check, fail_if, known_actor, known_scope, known_task, owns, refuse_if, scope_check,
    task_check,
};
use crate::failures::FromFailed;
use crate::readings::Readings;
use scope_rules::Failed;
use scope_rules::types::answers::{Cause, Counts, Effective, Stage, State};
use scope_rules::types::infos::{ScopeInfo, ScopeStage};
use scope_rules::types::names::Name;
use scope_rules::types::outcomes::Outcome;
use scope_rules::types::records::FirstCancel;
use scope_rules::types::refusals::Refusal;
use scope_rules::types::values::{Actor, Fault, Label, ScopeId, TaskId, Value};
use std::alloc::Global;

// ---- of tasks

/// How far the task has come. Refused for an unknown task (`NoTask`, `Retired`).
pub fn stage<R: Readings>(readings: &R, task: TaskId) -> Result<Stage, Refusal>
    ensures { result ≡ answering (task_check (R.history readings.now) task) (stage (R.history readings.now) task) }
{
    task_check(readings, task)?;
    Ok(readings.stage(task))
}

/// What can be read of the task (JEP 505, `Subtask.state`). Refused for an unknown task (`NoTask`,
/// `Retired`).
pub fn state<R: Readings>(readings: &R, task: TaskId) -> Result<State, Refusal>
    ensures { result ≡ answering (task_check (R.history readings.now) task) (state (R.history readings.now) task) }
{
    task_check(readings, task)?;
    Ok(readings.state(task))
}

/// The value of the task, read by the owner of its scope after the join (JEP 505, `Subtask.get`).
/// Refused if the actor is no running task or main, for a task that is unknown (`NoTask`,
/// `Retired`) or of another's scope (`NotOwner`), before the join (`NotJoined`), and for one that
/// can't be read (`Unavailable`) or failed (`NotSuccess`).
#[tactic(auto, unfolding(scope_rules::specs::Replies::result_reply))]
pub fn result<R: Readings>(readings: &R, actor: Actor, task: TaskId) -> Result<Value, Refusal>
    ensures { result ≡ result_reply (R.history readings.now) actor task }
{
    match readable(readings, actor, task)? {
        State::Success(value) => Ok(value),
        State::Failed(_) => Err(Refusal::NotSuccess),
        State::Unavailable => Err(Refusal::Unavailable),
    }
}

/// The fault of the task, read by the owner of its scope after the join (JEP 505,
/// `Subtask.exception`). Refused as `result` is, and for a task that succeeded (`NotFailed`).
#[tactic(auto, unfolding(scope_rules::specs::Replies::fault_reply))]
pub fn fault<R: Readings>(readings: &R, actor: Actor, task: TaskId) -> Result<Fault, Refusal>
    ensures { result ≡ fault_reply (R.history readings.now) actor task }
{
    match readable(readings, actor, task)? {
        State::Failed(fault) => Ok(fault),
        State::Success(_) => Err(Refusal::NotFailed),
        State::Unavailable => Err(Refusal::Unavailable),
    }
}

/// The state of the task, if the actor may read it: the owner of its scope, after the join.
#[tactic(auto, unfolding(scope_rules::specs::Table::reading_check))]
fn readable<R: Readings>(readings: &R, actor: Actor, task: TaskId) -> Result<State, Refusal>
    ensures { result ≡ answering (reading_check (R.history readings.now) actor task) (state (R.history readings.now) task) }
{
    reading_row::<R, Refusal>(readings, actor, task)?;
    Ok(readings.state(task))
}

/// Whether the actor may read the state of the task.
#[tactic(auto, unfolding(scope_rules::specs::Checks::checks, scope_rules::specs::Checks::then_check))]
pub fn reading_row<R: Readings, F: FromFailed>(
    readings: &R,
    actor: Actor,
    task: TaskId,
) -> Result<(), F>
    ensures row { result ≡ checks (reading_row F.made (R.history readings.now) actor task) }
    ensures passes { OnOk result (Passes (task_check (R.history readings.now) task)) }
{
    known_actor::<R, F>(readings, actor)?;
    known_task::<R, F>(readings, task)?;
    let owned = owns_task(readings, actor, task);
    fail_if::<F>(!owned, Failed::NotTaskOwner { actor, task })?;
    fail_if(!task_joined(readings, task), Failed::NotJoined(task))
}

/// Whether the actor opened the scope of the task.
fn owns_task<R: Readings>(readings: &R, actor: Actor, task: TaskId) -> bool
    ensures { result ≡ owns_task (R.history readings.now) actor task }
{
    match readings.forked_in(task) {
        Some(scope) => owns(readings, actor, scope),
        None => false,
    }
}

/// Whether the scope of the task is joined.
fn task_joined<R: Readings>(readings: &R, task: TaskId) -> bool
    ensures { result ≡ task_joined (R.history readings.now) task }
{
    match readings.forked_in(task) {
        Some(scope) => readings.joined(scope),
        None => false,
    }
}

/// The label that the task was forked with. Refused for an unknown task (`NoTask`, `Retired`).
#[tactic(auto, unfolding(scope_rules::specs::Nests::label))]
pub fn label<R: Readings>(readings: &R, task: TaskId) -> Result<Label, Refusal>
    ensures { result ≡ label_reply (R.history readings.now) task }
{
    task_check(readings, task)?;
    match readings.forking(task) {
        Some(forking) => Ok(forking.label),
        None => Err(Refusal::NoTask),
    }
}

/// The task's outermost scope: the first that it opened and has not closed. Refused for an unknown
/// task (`NoTask`, `Retired`).
pub fn task_inner<R: Readings>(readings: &R, task: TaskId) -> Result<Option<ScopeId>, Refusal>
    ensures { result ≡ task_inner_reply (R.history readings.now) task }
{
    task_check(readings, task)?;
    Ok(readings.outermost(task))
}

// ---- of scopes

/// Why the scope is cancelled, if it is. Refused for an unknown scope (`NoScope`, `Retired`).
#[tactic(auto, unfolding(scope_rules::specs::Cancels::cause))]
pub fn cause<R: Readings>(readings: &R, scope: ScopeId) -> Result<Option<Cause>, Refusal>
    ensures { result ≡ answering (scope_check (R.history readings.now) scope) (cause (R.history readings.now) scope) }
{
    scope_check(readings, scope)?;
    Ok(cause_of(readings.first_cancel(scope)))
}

/// The place of the event by which the scope became cancelled, if it is, counted from 0 since the
/// base. Refused for an unknown scope (`NoScope`, `Retired`).
#[tactic(auto, unfolding(scope_rules::specs::Cancels::cancelled_at))]
pub fn cancelled_at<R: Readings>(readings: &R, scope: ScopeId) -> Result<Option<usize>, Refusal>
    ensures { result ≡ answering (scope_check (R.history readings.now) scope) (cancelled_at (R.history readings.now) scope) }
{
    scope_check(readings, scope)?;
    match readings.opening(scope) {
        Some(opening) => Ok(place_since(opening.place, readings.first_cancel(scope))),
        None => Ok(None),
    }
}

/// The place of the event by which the scope became cancelled, and why, if it is there and cancelled.
#[tactic(auto, unfolding(scope_rules::specs::Cancels::cause, scope_rules::specs::Cancels::cancelled_at))]
pub fn cancellation<R: Readings>(readings: &R, scope: ScopeId) -> Option<(usize, Cause)>
    ensures { result ≡ cancellation (R.history readings.now) scope }
{
    let opening = readings.opening(scope)?;
    let first_cancel = readings.first_cancel(scope)?;
    Some((opening.place.max(first_cancel.place), first_cancel.cause))
}

/// The earliest deadline in effect for the scope (Trio, `current_effective_deadline`), in
/// milliseconds. Refused for a scope that is unknown (`NoScope`, `Retired`) or closed (`Closed`).
#[tactic(auto, unfolding(scope_rules::specs::Table::until_check))]
pub fn effective_deadline<R: Readings>(readings: &R, scope: ScopeId) -> Result<Effective, Refusal>
    ensures { result ≡ answering (until_check (R.history readings.now) scope) (effective (R.history readings.now) scope) }
{
    until_row::<R, Refusal>(readings, scope)?;
    Ok(readings.effective(scope))
}

/// Whether the deadline in effect for the scope may be asked.
#[tactic(auto, unfolding(scope_rules::specs::Checks::checks, scope_rules::specs::Checks::then_check))]
pub fn until_row<R: Readings, F: FromFailed>(readings: &R, scope: ScopeId) -> Result<(), F>
    ensures row { result ≡ checks (until_row F.made (R.history readings.now) scope) }
    ensures passes { OnOk result (Passes (scope_check (R.history readings.now) scope)) }
{
    known_scope::<R, F>(readings, scope)?;
    fail_if(readings.closed(scope), Failed::Closed(scope))
}

/// How many tasks of the scope are at each stage. Refused for an unknown scope (`NoScope`,
/// `Retired`).
pub fn counts<R: Readings>(readings: &R, scope: ScopeId) -> Result<Counts, Refusal>
    ensures { result ≡ answering (scope_check (R.history readings.now) scope) (counts (R.history readings.now) scope) }
{
    scope_check(readings, scope)?;
    Ok(readings.counts(scope))
}

/// What the join of the scope answered (JEP 505, the joiners' `result`). Refused for an unknown scope
/// (`NoScope`, `Retired`), before the join (`NotJoined`), and if memory is refused (`Memory`).
pub fn outcome<R: Readings>(readings: &R, alloc: Global, scope: ScopeId) -> Result<Outcome, Refusal>
    ensures { AnswersValue (outcome_check (R.history readings.now) scope) (outcome (R.history readings.now) scope) result }
{
    outcome_check(readings, scope)?;
    match readings.outcome(alloc, scope) {
        Ok(outcome) => Ok(outcome),
        Err(_) => Err(Refusal::Memory),
    }
}

/// What `outcome` is refused for, but memory.
#[tactic(auto, unfolding(scope_rules::specs::Replies::outcome_check, scope_rules::specs::Checks::checks, scope_rules::specs::Checks::then_check))]
fn outcome_check<R: Readings>(readings: &R, scope: ScopeId) -> Result<(), Refusal>
    ensures { result ≡ outcome_check (R.history readings.now) scope }
{
    scope_check(readings, scope)?;
    refuse_if(!readings.joined(scope), Refusal::NotJoined)
}

/// The scope inside the scope: the next that its owner opened and has not closed. Refused for an
/// unknown scope (`NoScope`, `Retired`).
pub fn inner<R: Readings>(readings: &R, scope: ScopeId) -> Result<Option<ScopeId>, Refusal>
    ensures { result ≡ inner_reply (R.history readings.now) scope }
{
    scope_check(readings, scope)?;
    Ok(readings.inner(scope))
}

/// The task that was forked in the scope after so many others, if there is one. Refused for an
/// unknown scope (`NoScope`, `Retired`).
pub fn task_at<R: Readings>(
    readings: &R,
    scope: ScopeId,
    index: usize,
) -> Result<Option<TaskId>, Refusal>
    ensures { result ≡ task_at_reply (R.history readings.now) scope index }
{
    scope_check(readings, scope)?;
    Ok(readings.task_at(scope, index))
}

/// What there is to say of the scope by itself. Refused for an unknown scope (`NoScope`, `Retired`).
#[tactic(auto, unfolding(scope_rules::specs::Nests::info, scope_rules::specs::Cancels::cause))]
pub fn info<R: Readings>(readings: &R, scope: ScopeId) -> Result<ScopeInfo, Refusal>
    ensures { result ≡ info_reply (R.history readings.now) scope }
{
    scope_check(readings, scope)?;
    let Some(opening) = readings.opening(scope) else {
        return Err(Refusal::NoScope);
    };
    Ok(ScopeInfo {
        scope,
        owner: opening.actor,
        policy: opening.policy,
        deadline: readings.deadline(scope),
        expiry: opening.options.expiry,
        shield: opening.options.shield,
        joined: readings.joined(scope),
        stage: scope_stage(readings, scope),
        cause: cause_of(readings.first_cancel(scope)),
    })
}

/// How far the scope has come.
#[tactic(auto, unfolding(scope_rules::specs::Nests::scope_stage))]
fn scope_stage<R: Readings>(readings: &R, scope: ScopeId) -> ScopeStage
    ensures { result ≡ scope_stage (R.history readings.now) scope }
{
    if readings.closed(scope) {
        ScopeStage::Closed
    } else if readings.closing(scope) {
        ScopeStage::Closing
    } else {
        ScopeStage::Open
    }
}

// ---- of actors

/// What the actor sees the key bound to (JEP 506, `ScopedValue.get`). Refused if the actor is no
/// running task or main, and if nothing is bound to the key (`NotBound`).
#[tactic(auto, unfolding(scope_rules::specs::Replies::binding_reply))]
pub fn binding<R: Readings>(readings: &R, actor: Actor, key: &Name) -> Result<Value, Refusal>
    ensures { result ≡ binding_reply (R.history readings.now) actor key.now }
{
    actor_check(readings, actor)?;
    readings.bound(actor, *key).ok_or(Refusal::NotBound)
}

/// What the first cancel says of why.
fn cause_of(first_cancel: Option<FirstCancel>) -> Option<Cause>
    ensures { result ≡ option_map (λ c. c.cause) first_cancel }
{
    match first_cancel {
        Some(first_cancel) => Some(first_cancel.cause),
        None => None,
    }
}

/// The place of the first cancel, or that of the opening if it is later.
fn place_since(opened: usize, first_cancel: Option<FirstCancel>) -> Option<usize>
    ensures { result ≡ option_map (λ c. max opened c.place) first_cancel }
{
    match first_cancel {
        Some(first_cancel) => Some(opened.max(first_cancel.place)),
        None => None,
    }
}
