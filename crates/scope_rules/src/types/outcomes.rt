ghost use Rattle.std.specs.Prelude.{◌↔◌, ◌≡◌, Some};
ghost use Rattle.scope_rules.specs.{MatchOption};

use crate::types::answers::State;
use crate::types::values::{Fault, ScopeId, TaskId, Value};
use std::marker::Model;

/// A task that succeeded, with its value.
#[derive(Clone, Copy, PartialEq, Eq)]
pub struct TaskValue {
    pub task: TaskId,
    pub value: Value,
}

/// A task with its state.
#[derive(Clone, Copy, PartialEq, Eq)]
pub struct TaskState {
    pub task: TaskId,
    pub state: State,
}

/// Tasks that succeeded, in fork order.
#[derive(Drop)]
pub struct TaskValues {
    items: Vec<TaskValue>,
}

impl Model for TaskValues {
    ghost use Rattle.std.specs.Prelude.{List};
    ghost use Rattle.scope_rules.specs.declared.types.outcomes.TaskValue.{TaskValue};

    ghost Value = { List TaskValue };

    ghost view = { λ v. v.items.items };
}

impl TaskValues {
    pub fn new(items: Vec<TaskValue>) -> TaskValues
        ensures { result ≡ items.items }
    {
        TaskValues { items }
    }

    pub fn as_slice(&self) -> &[TaskValue]
        ensures { result.now ≡ self.now }
    {
        &self.items
    }
}

/// Tasks with their states, in fork order.
#[derive(Drop)]
pub struct TaskStates {
    items: Vec<TaskState>,
}

impl Model for TaskStates {
    ghost use Rattle.std.specs.Prelude.{List};
    ghost use Rattle.scope_rules.specs.declared.types.outcomes.TaskState.{TaskState};

    ghost Value = { List TaskState };

    ghost view = { λ v. v.items.items };
}

impl TaskStates {
    pub fn new(items: Vec<TaskState>) -> TaskStates
        ensures { result ≡ items.items }
    {
        TaskStates { items }
    }

    pub fn as_slice(&self) -> &[TaskState]
        ensures { result.now ≡ self.now }
    {
        &self.items
    }
}

/// What a join answered (JEP 505, `join` and the joiners' `result`).
#[derive(Drop)]
pub enum Outcome {
    /// All tasks succeeded.
    All(TaskValues),
    /// This task was the first to succeed.
    Any { task: TaskId, value: Value },
    /// A success was wanted, and no task ended.
    Empty,
    /// All that was waited for came.
    Done,
    /// This task was the first to fail.
    Failed { task: TaskId, fault: Fault },
    /// All tasks.
    List(TaskStates),
    /// The scope's own deadline passed.
    Timeout,
    /// The scope's own deadline passed, and the scope was to move on then: all tasks.
    Partial(TaskStates),
    /// The scope was cancelled by a call on it, or from the scope that is named.
    Cancelled(ScopeId),
}

impl Outcome {
    ghost use Rattle.scope_rules.specs.declared.types.outcomes.Outcome.TheVariants.{All, Cancelled, Failed};

    /// The values of all tasks of the scope, in fork order, if all succeeded (JEP 505, the result of
    /// `allSuccessfulOrThrow`); none at any other outcome.
    pub fn values(&self) -> Option<&[TaskValue]>
        ensures { MatchOption result ((values : _) → self.now ≡ All values → ⊥) (λ values. self.now ≡ All values.now) }
    {
        match self {
            Outcome::All(values) => Some(values.as_slice()),
            _ => None,
        }
    }

    /// The task that was the first to fail, with its fault, if the outcome is that one failed (JEP 505,
    /// what `FailedException` is made of); none at any other outcome.
    pub fn first_failure(&self) -> Option<(TaskId, Fault)>
        ensures { (task : _) (fault : _) → (result ≡ Some (task, fault)) ↔ (self.now ≡ Failed task fault) }
    {
        match self {
            Outcome::Failed { task, fault } => Some((*task, *fault)),
            _ => None,
        }
    }

    /// The scope from which the cancel came, by a call on it or by what it lies in, if the outcome is
    /// that the scope was cancelled; none at any other outcome.
    pub fn cancelled_from(&self) -> Option<ScopeId>
        ensures { (scope : _) → (result ≡ Some scope) ↔ (self.now ≡ Cancelled scope) }
    {
        match self {
            Outcome::Cancelled(scope) => Some(*scope),
            _ => None,
        }
    }
}
