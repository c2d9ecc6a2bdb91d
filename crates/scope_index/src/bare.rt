//! What a join answers, without the lists.

ghost use Rattle.std.specs.Prelude.{◌≡◌};
ghost use Rattle.scope_index.specs.{answer_at_expiry, answer_by, answer_of, bare_of, option_map_or, outcome_of_end};

use scope_rules::joins::TaskReadings;
use scope_rules::types::answers::{Cause, CauseKind};
use scope_rules::types::events::Expiry;
use scope_rules::types::joiners::Policy;
use scope_rules::types::outcomes::Outcome;
use scope_rules::{Completion, Fault, ScopeId, TaskId, Value};

/// What a join answered, as `Outcome` says it, but for the lists of tasks: they are left out, so it takes no
/// memory.
#[derive(Clone, Copy, PartialEq, Eq)]
pub enum BareOutcome {
    /// All tasks succeeded.
    All,
    /// This task was the first to succeed.
    Any { task: TaskId, value: Value },
    /// A success was wanted, and no task ended.
    Empty,
    /// All that was waited for came.
    Done,
    /// This task was the first to fail.
    Failed { task: TaskId, fault: Fault },
    /// All tasks, which `Outcome` lists.
    List,
    /// The scope's own deadline passed.
    Timeout,
    /// The scope's own deadline passed, and the scope was to move on then.
    Partial,
    /// The scope was cancelled by a call on it, or from the scope that is named.
    Cancelled(ScopeId),
}

/// What the join of the scope answers, which has this joiner and whose deadline means this, if the
/// scope was cancelled by this cause.
pub(crate) fn bare_answer_of<R: TaskReadings>(
    readings: &R,
    scope: ScopeId,
    policy: Policy,
    expiry: Expiry,
    cause: Option<Cause>,
) -> BareOutcome
    ensures { result ≡ bare_of (answer_of (R.readable readings.now) scope policy expiry cause) }
{
    let Some(cause) = cause else {
        return bare_answer_by(readings, policy);
    };
    if cause.scope != scope {
        return BareOutcome::Cancelled(cause.scope);
    }
    match cause.kind {
        CauseKind::Call => BareOutcome::Cancelled(scope),
        CauseKind::Deadline => match expiry {
            Expiry::Fail => BareOutcome::Timeout,
            Expiry::MoveOn => BareOutcome::Partial,
        },
        CauseKind::Joiner => bare_answer_by(readings, policy),
        CauseKind::Close => bare_answer_by(readings, policy),
    }
}

/// What the joiner answers.
fn bare_answer_by<R: TaskReadings>(readings: &R, policy: Policy) -> BareOutcome
    ensures { result ≡ bare_of (answer_by (R.readable readings.now) policy) }
{
    match policy {
        Policy::All => bare_end_or(readings.failure(), BareOutcome::All),
        Policy::Any => {
            let failed = bare_end_or(readings.failure(), BareOutcome::Empty);
            bare_end_or(readings.success(), failed)
        }
        Policy::AwaitAll => BareOutcome::Done,
        Policy::AwaitOk => bare_end_or(readings.failure(), BareOutcome::Done),
        Policy::Until(_) => BareOutcome::List,
    }
}

/// The completion as an outcome, or else the other.
fn bare_end_or(done: Option<Completion>, other: BareOutcome) -> BareOutcome
    ensures { result ≡ option_map_or (λ d. bare_of (outcome_of_end d.task d.end)) done other }
{
    let Some(done) = done else {
        return other;
    };
    match done.end {
        Ok(value) => BareOutcome::Any {
            task: done.task,
            value,
        },
        Err(fault) => BareOutcome::Failed {
            task: done.task,
            fault,
        },
    }
}
