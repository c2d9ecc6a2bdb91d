//! Whether tasks ended as their offers say.

ghost use Rattle.std.specs.Prelude.{◌==◌, ◌↔◌, ◌≡◌, ◌⊎◌};
ghost use Rattle.quote_plan.specs.{AreDue, AreDueSoFar, AreDueValues, IsTrue, Some, Unavailable, dues_of, offer_of, position, slice_get, state_due};

use crate::plans::{Offer, Plan};
use scope_rules::{Name, State, TaskId, TaskState, TaskValue, Value};

/// The offer whose task has the number.
#[tactic(auto, unfolding(crate::specs::Answering::offer_of))]
pub(crate) fn offer_of(plan: &Plan, tasks: &[TaskState], task: TaskId) -> Option<(Name, Offer)>
    ensures { result ≡ offer_of plan.now.offers tasks.now task }
{
    plan.named_at(place_of(tasks, task)?)
}

/// Where the task of the number is.
fn place_of(tasks: &[TaskState], task: TaskId) -> Option<usize>
    ensures { result ≡ position (λ (t : TaskState). t.task == task) tasks.now }
{
    tasks.iter().position(|state| state.task == task)
}

/// Whether each task ended as its offer says.
pub(crate) fn are_due(plan: &Plan, tasks: &[TaskState]) -> bool
    ensures { IsTrue result ↔ AreDue plan.now.offers tasks.now }
{
    for (index, task) in tasks.iter().enumerate() {
        if !is_due_at(plan, index, &task.state) {
            return false;
        }
    }
    tasks.len() == plan.len()
}

/// Whether each task, all being successful, ended as its offer says.
pub(crate) fn are_due_values(plan: &Plan, values: &[TaskValue]) -> bool
    ensures { IsTrue result ↔ AreDueValues plan.now.offers values.now }
{
    for (index, task) in values.iter().enumerate() {
        if !is_due_at(plan, index, &State::Success(task.value)) {
            return false;
        }
    }
    values.len() == plan.len()
}

/// Whether there is a task for each offer, and each that ended did so as its offer says.
pub(crate) fn are_due_so_far(plan: &Plan, tasks: &[TaskState]) -> bool
    ensures { IsTrue result ↔ AreDueSoFar plan.now.offers tasks.now }
{
    for (index, task) in tasks.iter().enumerate() {
        if !is_due_so_far_at(plan, index, &task.state) {
            return false;
        }
    }
    tasks.len() == plan.len()
}

/// Whether a task with this state has no end that may be read.
pub(crate) fn is_unavailable(state: &State) -> bool
    ensures { IsTrue result ↔ (state.now ≡ Unavailable) }
{
    match state {
        State::Unavailable => true,
        _ => false,
    }
}

/// Whether the state is that of a task that has not ended, or did as the offer at this place says.
fn is_due_so_far_at(plan: &Plan, index: usize, state: &State) -> bool
    ensures { IsTrue result ↔ ((Some state.now ≡ Some Unavailable) ⊎ (Some state.now ≡ slice_get (dues_of plan.now.offers) index)) }
{
    is_unavailable(state) || is_due_at(plan, index, state)
}

/// Whether the state is that of a task that ended as the offer at this place says.
fn is_due_at(plan: &Plan, index: usize, state: &State) -> bool
    ensures { IsTrue result ↔ (slice_get (dues_of plan.now.offers) index ≡ Some state.now) }
{
    match plan.named_at(index) {
        Some((_, offer)) => is_due(&offer, state),
        None => false,
    }
}

/// Whether the state is that of a task that ended as the offer says.
fn is_due(offer: &Offer, state: &State) -> bool
    ensures { IsTrue result ↔ (state_due offer.now ≡ state.now) }
{
    match (offer, state) {
        (Offer::Price(due), State::Success(value)) => Value::Num(*due).is_same(value),
        (Offer::Fails(due), State::Failed(fault)) => due.0.is_same(&fault.0),
        _ => false,
    }
}
