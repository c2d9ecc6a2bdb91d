//! By which event a scope came to be closing, and which task it waits for.

ghost use Rattle.std.specs.Prelude.{◌<◌, ◌≡◌};
ghost use Rattle.refusal_reasons.specs.{IfSome, Passes, begun_place, closed, closing_place, earlier, false, if_after, is_pending, length, pending_task, scope_check};

use crate::events::Events;
use scope_checks::Readings;
use scope_rules::{ScopeId, Stage, TaskId};

/// The place of the event that began a close that covers the scope, the first such, if the scope is not closed.
/// Such a close is its own or that of a scope around it by the same owner. So it looks at no more scopes than there
/// are levels, and at no events but theirs.
pub(crate) fn closing_place<R: Readings, E: Events>(
    readings: &R,
    events: &E,
    scope: ScopeId,
) -> Option<usize>
    requires history { E.history events.now ≡ R.history readings.now }
    requires unclosed { closed (R.history readings.now) scope ≡ false }
    ensures place { result ≡ closing_place (R.history readings.now) scope }
    ensures within { IfSome result (λ place. place < length (E.history events.now).events) }
{
    let _legal = events.count();
    let Some(opened) = readings.opening(scope) else {
        return None;
    };
    let mut first = None;
    let mut next = readings.outermost(opened.actor);
    while let Some(around) = next {
        if scope < around {
            return first;
        }
        first = earlier(first, if_after(opened.place, events.begun_place(around)));
        next = readings.inner(around);
    }
    first
}

/// The place, if it comes after this one.
fn if_after(from: usize, place: Option<usize>) -> Option<usize>
    ensures { result ≡ if_after from place }
{
    match place {
        Some(place) if from < place => Some(place),
        _ => None,
    }
}

/// The earlier of two places.
fn earlier(left: Option<usize>, right: Option<usize>) -> Option<usize>
    ensures { result ≡ earlier left right }
{
    match (left, right) {
        (Some(left), Some(right)) => Some(left.min(right)),
        (Some(left), None) => Some(left),
        (None, right) => right,
    }
}

/// Whether the task waits or runs.
fn is_pending<R: Readings>(readings: &R, task: TaskId) -> bool
    ensures { result ≡ is_pending (R.history readings.now) task }
{
    match readings.stage(task) {
        Stage::Waiting | Stage::Running => true,
        Stage::Never | Stage::Finished => false,
    }
}

/// The first task of the scope that waits or runs. It looks at no task of which `events` knows better.
#[tactic(auto, using(crate::proofs::Searched::find_found, crate::proofs::Searched::find_passed, crate::proofs::Searched::all_passed), unfolding(crate::specs::Places::pending_task))]
pub(crate) fn pending_task<R: Readings, E: Events>(
    readings: &R,
    events: &E,
    scope: ScopeId,
) -> Option<TaskId>
    requires history { E.history events.now ≡ R.history readings.now }
    requires known { Passes (scope_check (R.history readings.now) scope) }
    ensures { result ≡ pending_task (R.history readings.now) scope }
{
    for index in events.passed_tasks(scope)..readings.tasks() as usize {
        let task = readings.task_at(scope, index)?;
        if is_pending(readings, task) {
            return Some(task);
        }
    }
    None
}
