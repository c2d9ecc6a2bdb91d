//! What a join answers, by what can be read of the scope's tasks.

ghost use Rattle.std.specs.Prelude.{◌≡◌, IfOk};
ghost use Rattle.scope_rules.specs.{answer_at_expiry, answer_by, answer_of, is_available, outcome_of_end, outcome_or, value_in};

use crate::types::answers::{Cause, CauseKind, State};
use crate::types::events::Expiry;
use crate::types::joiners::Policy;
use crate::types::outcomes::{Outcome, TaskStates, TaskValue, TaskValues};
use crate::types::values::{Completion, ScopeId, TaskId};
use std::alloc::{AllocError, Global};

/// What is read of the tasks of a scope at its join, however it is kept. The lists are refused if
/// memory is.
pub trait TaskReadings {
    ghost use Rattle.scope_rules.specs.Answers.{Readable};

    // What can be read of the tasks.
    ghost readable: { Self → Readable };

    /// The first completion that failed, of those that can be read.
    fn failure(&self) -> Option<Completion>
        ensures { result ≡ (readable self.now).failure };

    /// The first completion that succeeded, of those that can be read.
    fn success(&self) -> Option<Completion>
        ensures { result ≡ (readable self.now).success };

    /// The values of the tasks that succeeded, in fork order.
    fn values(&self, alloc: Global) -> Result<TaskValues, AllocError>
        ensures { IfOk result (λ v. v ≡ (readable self.now).values) };

    /// All tasks with their states, in fork order.
    fn listing(&self, alloc: Global) -> Result<TaskStates, AllocError>
        ensures { IfOk result (λ v. v ≡ (readable self.now).listing) };
}

/// What the join of the scope answers, which has this joiner and whose deadline means this, if the
/// scope was cancelled by this cause.
pub fn answer_of<R: TaskReadings>(
    readings: &R,
    alloc: Global,
    scope: ScopeId,
    policy: Policy,
    expiry: Expiry,
    cause: Option<Cause>,
) -> Result<Outcome, AllocError>
    ensures { IfOk result (λ o. o ≡ answer_of (R.readable readings.now) scope policy expiry cause) }
{
    let Some(cause) = cause else {
        return answer_by(readings, alloc, policy);
    };
    if cause.scope != scope {
        return Ok(Outcome::Cancelled(cause.scope));
    }
    match cause.kind {
        CauseKind::Call => Ok(Outcome::Cancelled(scope)),
        CauseKind::Deadline => answer_at_expiry(readings, alloc, expiry),
        CauseKind::Joiner => answer_by(readings, alloc, policy),
        CauseKind::Close => answer_by(readings, alloc, policy),
    }
}

/// What the scope's own deadline answers (Trio, `fail_after` and `move_on_after`).
fn answer_at_expiry<R: TaskReadings>(
    readings: &R,
    alloc: Global,
    expiry: Expiry,
) -> Result<Outcome, AllocError>
    ensures { IfOk result (λ o. o ≡ answer_at_expiry (R.readable readings.now) expiry) }
{
    match expiry {
        Expiry::Fail => Ok(Outcome::Timeout),
        Expiry::MoveOn => Ok(Outcome::Partial(readings.listing(alloc)?)),
    }
}

/// What the joiner answers (JEP 505, the joiners' `result`).
fn answer_by<R: TaskReadings>(
    readings: &R,
    alloc: Global,
    policy: Policy,
) -> Result<Outcome, AllocError>
    ensures { IfOk result (λ o. o ≡ answer_by (R.readable readings.now) policy) }
{
    match policy {
        Policy::All => match readings.failure() {
            Some(done) => Ok(outcome_of_end(done)),
            None => Ok(Outcome::All(readings.values(alloc)?)),
        },
        Policy::Any => match readings.success() {
            Some(done) => Ok(outcome_of_end(done)),
            None => Ok(failure_or(readings, Outcome::Empty)),
        },
        Policy::AwaitAll => Ok(Outcome::Done),
        Policy::AwaitOk => Ok(failure_or(readings, Outcome::Done)),
        Policy::Until(_) => Ok(Outcome::List(readings.listing(alloc)?)),
    }
}

/// The first failure as an outcome, or else the other.
fn failure_or<R: TaskReadings>(readings: &R, other: Outcome) -> Outcome
    ensures { result ≡ outcome_or (R.readable readings.now).failure other }
{
    match readings.failure() {
        Some(done) => outcome_of_end(done),
        None => other,
    }
}

/// The outcome that the completion is.
fn outcome_of_end(done: Completion) -> Outcome
    ensures { result ≡ outcome_of_end done.task done.end }
{
    match done.end {
        Ok(value) => Outcome::Any {
            task: done.task,
            value,
        },
        Err(fault) => Outcome::Failed {
            task: done.task,
            fault,
        },
    }
}

/// The task with its value, if it succeeded.
pub fn value_in(task: TaskId, state: State) -> Option<TaskValue>
    ensures { result ≡ value_in task state }
{
    match state {
        State::Success(value) => Some(TaskValue { task, value }),
        _ => None,
    }
}

/// Whether the state can be read.
pub fn is_available(state: State) -> bool
    ensures { result ≡ is_available state }
{
    !matches!(state, State::Unavailable)
}
