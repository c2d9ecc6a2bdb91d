//! Why each command is refused: the check of its row that failed, and what is said of it.

ghost use Rattle.std.specs.Prelude.{◌≡◌};
ghost use Rattle.refusal_reasons.specs.{IfErr, OnOk, Passes, Presupposed, actor_check, event_reason, explained, query_reason, reading_reason, retire_reason, row_check, scope_of, sees};
ghost use Rattle.refusal_reasons.specs.{shows_fault, shows_value, stage, state, task_check};

use crate::events::Events;
use crate::failures::{of_actor, of_task, reason_of, scope_of};
use crate::reasons::{ActorObstacle, Reason, TaskObstacle};
use scope_checks::Readings;
use scope_checks::checks::{known_actor, known_scope, known_task};
use scope_checks::queries::{reading_row, until_row};
use scope_checks::table::{retire_row, try_event};
use scope_rules::{Actor, Event, Failed, Limits, Name, State, TaskId};
use script_words::Query;

/// The reason, if a check failed.
fn explained<R: Readings, E: Events>(
    readings: &R,
    events: &E,
    limits: &Limits,
    checked: Result<(), Failed>,
) -> Result<(), Reason>
    requires history { E.history events.now ≡ R.history readings.now }
    requires passed { IfErr checked (Presupposed (R.history readings.now)) }
    ensures { result ≡ explained limits.now (R.history readings.now) checked }
{
    match checked {
        Ok(()) => Ok(()),
        Err(failed) => Err(reason_of(readings, events, limits, failed)),
    }
}

/// The check of the event's row that fails, if one does.
#[tactic(auto, using(crate::proofs::Explained::answered, crate::proofs::Explained::unanswered))]
fn failing<R: Readings>(readings: &R, limits: &Limits, event: &Event) -> Result<(), Failed>
    ensures { result ≡ row_check (λ failed. failed) limits.now (R.history readings.now) event.now }
{
    match try_event(readings, limits, event) {
        Ok(_) => Ok(()),
        Err(failed) => Err(failed),
    }
}

/// Why the event is refused after the history with these events, if it is.
#[tactic(auto, using(crate::proofs::Explained::event_presupposes), unfolding(crate::specs::Reasons::event_reason))]
pub fn event_reason<R: Readings, E: Events>(
    readings: &R,
    events: &E,
    limits: &Limits,
    event: &Event,
) -> Result<(), Reason>
    requires { E.history events.now ≡ R.history readings.now }
    ensures { result ≡ event_reason limits.now (R.history readings.now) event.now }
{
    explained(readings, events, limits, failing(readings, limits, event))
}

/// Why a retirement is refused, if it is.
#[tactic(auto, using(crate::proofs::Explained::retire_presupposes), unfolding(crate::specs::Reasons::retire_reason))]
pub fn retire_reason<R: Readings, E: Events>(
    readings: &R,
    events: &E,
    limits: &Limits,
    actor: Actor,
) -> Result<(), Reason>
    requires { E.history events.now ≡ R.history readings.now }
    ensures { result ≡ retire_reason limits.now (R.history readings.now) actor }
{
    explained(readings, events, limits, retire_row(readings, actor))
}

/// Why the state of the task may not be read by the actor, if it may not.
#[tactic(auto, using(crate::proofs::Explained::reading_presupposes, crate::proofs::Explained::reading_known))]
fn reading_reason<R: Readings, E: Events>(
    readings: &R,
    events: &E,
    limits: &Limits,
    actor: Actor,
    task: TaskId,
) -> Result<(), Reason>
    requires { E.history events.now ≡ R.history readings.now }
    ensures reading { result ≡ reading_reason limits.now (R.history readings.now) actor task }
    ensures passes { OnOk result (Passes (task_check (R.history readings.now) task)) }
{
    explained(readings, events, limits, reading_row(readings, actor, task))
}

/// Why the query is refused, if it is.
#[tactic(auto, using(crate::proofs::Explained::scope_presupposes, crate::proofs::Explained::task_presupposes, crate::proofs::Explained::actor_presupposes, crate::proofs::Explained::until_presupposes), unfolding(crate::specs::Reasons::query_reason, scope_rules::specs::Checks::then_check))]
pub fn query_reason<R: Readings, E: Events>(
    readings: &R,
    events: &E,
    limits: &Limits,
    query: &Query,
) -> Result<(), Reason>
    requires { E.history events.now ≡ R.history readings.now }
    ensures { result ≡ query_reason limits.now (R.history readings.now) query.now }
{
    match *query {
        Query::State { task } | Query::Stage { task } => {
            explained(readings, events, limits, known_task(readings, task))
        }
        Query::Cause { scope } | Query::Counts { scope } => {
            explained(readings, events, limits, known_scope(readings, scope))
        }
        Query::Result { actor, task } => {
            reading_reason(readings, events, limits, actor, task)?;
            shows_value(readings, task)
        }
        Query::Fault { actor, task } => {
            reading_reason(readings, events, limits, actor, task)?;
            shows_fault(readings, task)
        }
        Query::Until { scope } => {
            explained(readings, events, limits, until_row(readings, scope))
        }
        Query::Get { actor, key } => {
            let acts = known_actor(readings, actor);
            explained(readings, events, limits, acts)?;
            sees(readings, actor, key)
        }
    }
}

/// The state of the task shows a value.
fn shows_value<R: Readings>(readings: &R, task: TaskId) -> Result<(), Reason>
    requires { Passes (task_check (R.history readings.now) task) }
    ensures { result ≡ shows_value (R.history readings.now) task (state (R.history readings.now) task) }
{
    match readings.state(task) {
        State::Success(_) => Ok(()),
        State::Failed(fault) => Err(of_task(task, TaskObstacle::Failed { fault })),
        State::Unavailable => Err(of_task(task, unreadable(readings, task))),
    }
}

/// The state of the task shows a failure.
fn shows_fault<R: Readings>(readings: &R, task: TaskId) -> Result<(), Reason>
    requires { Passes (task_check (R.history readings.now) task) }
    ensures { result ≡ shows_fault (R.history readings.now) task (state (R.history readings.now) task) }
{
    match readings.state(task) {
        State::Failed(_) => Ok(()),
        State::Success(value) => Err(of_task(task, TaskObstacle::Succeeded { value })),
        State::Unavailable => Err(of_task(task, unreadable(readings, task))),
    }
}

/// Where the task was forked, and how far it has come.
fn unreadable<R: Readings>(readings: &R, task: TaskId) -> TaskObstacle
    ensures { result ≡ TaskObstacle.Unreadable (scope_of (R.history readings.now) task) (stage (R.history readings.now) task) }
{
    TaskObstacle::Unreadable {
        scope: scope_of(readings, task),
        stage: readings.stage(task),
    }
}

/// The actor sees something bound to the key.
fn sees<R: Readings>(readings: &R, actor: Actor, key: Name) -> Result<(), Reason>
    requires { Passes (actor_check (R.history readings.now) actor) }
    ensures { result ≡ sees (R.history readings.now) actor key }
{
    if readings.bound(actor, key).is_some() {
        return Ok(());
    }
    Err(of_actor(actor, ActorObstacle::Unbound { key }))
}
