//! What can be read of the tasks of a scope, by the index.

ghost use Rattle.std.specs.Prelude.{[], ◌++◌, ◌+◌, ◌<◌, ◌≡◌, ◌≤◌, vec_capacity, vec_len};
ghost use Rattle.scope_index.specs.{cons_option, option_and_then, readable_by, readable_in, state_in};

use join_rules::JoinerAccount;
use scope_rows::Rows;
use scope_rules::joins::{TaskReadings, is_available, value_in};
use scope_rules::{Completion, State, TaskId, TaskState, TaskStates, TaskValue, TaskValues};
use std::alloc::{AllocError, Global};

/// The tasks of a scope: their rows, what their completions came to, and their numbers.
#[derive(Drop)]
pub(crate) struct IndexedTasks<'a> {
    pub(crate) rows: &'a Rows,
    pub(crate) account: &'a JoinerAccount,
    pub(crate) tasks: &'a [TaskId],
}

impl<'a> TaskReadings for IndexedTasks<'a> {
    ghost readable = { λ t. readable_by t.rows.now t.account.now.totals t.tasks.now };

    fn failure(&self) -> Option<Completion> {
        readable(self.rows, self.account.first_failure())
    }

    fn success(&self) -> Option<Completion> {
        readable(self.rows, self.account.first_success())
    }

    fn values(&self, alloc: Global) -> Result<TaskValues, AllocError> {
        let mut values = Vec::new(alloc);
        values.reserve(self.tasks.len())?;
        for task in self.tasks {
            push_value(&mut values, value_in(*task, state_of(self.rows, *task)));
        }
        Ok(TaskValues::new(values))
    }

    fn listing(&self, alloc: Global) -> Result<TaskStates, AllocError> {
        let mut states = Vec::new(alloc);
        states.reserve(self.tasks.len())?;
        for task in self.tasks {
            let state = state_of(self.rows, *task);
            states.push_reserved(TaskState { task: *task, state });
        }
        Ok(TaskStates::new(states))
    }
}

/// Adds the value, if there is one. There is room for it.
fn push_value(values: &mut Vec<TaskValue>, value: Option<TaskValue>)
    requires { vec_len values.old < vec_capacity values.old }
    ensures items { values.new.items ≡ values.old.items ++ cons_option value [] }
    ensures len { vec_len values.new ≤ vec_len values.old + 1 }
    ensures capacity { vec_capacity values.new ≡ vec_capacity values.old }
{
    if let Some(value) = value {
        values.push_reserved(value);
    }
}

/// The completion, if its task's row can be read.
fn readable(rows: &Rows, done: Option<Completion>) -> Option<Completion>
    ensures { result ≡ option_and_then (readable_in rows.now) done }
{
    let done = done?;
    if is_available(state_of(rows, done.task)) {
        Some(done)
    } else {
        None
    }
}

/// The state that the row of the task has.
fn state_of(rows: &Rows, task: TaskId) -> State
    ensures { result ≡ state_in rows.now task }
{
    match rows.task(task) {
        Some(row) => row.state,
        None => State::Unavailable,
    }
}
