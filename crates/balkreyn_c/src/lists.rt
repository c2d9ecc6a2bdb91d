//! The list of what a join answered.

ghost use Rattle.std.specs.Prelude.{◌≡◌, length, map, pos};
ghost use Rattle.balkreyn_c.specs.{ListsOutcome, list_in, list_number, number_of, of_state, of_value, placed};

use crate::book::{Book, put, taken};
use crate::numbers::{refused, state_code};
use scope_checks::queries;
use scope_rules::{Outcome, Refusal, TaskState, TaskValue};
use std::alloc::Global;

/// A task of the list that a join answered, with its state then.
#[repr(C)]
#[derive(Clone, Copy)]
pub struct OutcomeTask {
    pub task: u32,
    pub state: u32,
}

/// The list of what the join of the scope answered, task by task.
#[unsafe(no_mangle)]
pub extern "C" fn balkreyn_outcome_tasks(
    alloc: Global,
    book: &mut Book,
    scope: u32,
    tasks: &mut [OutcomeTask],
) -> i64
    ensures list { ListsOutcome book.old.place.held scope result tasks.old tasks.new }
    ensures kept { book.new.place.held ≡ book.old.place.held }
{
    let timed = match taken(alloc, &mut book.word, &mut book.place) {
        Ok(timed) => timed,
        Err(number) => return number,
    };
    let answer = write_list(queries::outcome(&timed.realm, alloc, scope), tasks);
    put(&mut book.word, &mut book.place, timed);
    answer
}

/// Writes the list where there is room, and answers how long it is.
fn write_list(answer: Result<Outcome, Refusal>, tasks: &mut [OutcomeTask]) -> i64
    ensures answer { result ≡ number_of list_number answer }
    ensures list { tasks.new ≡ list_in answer tasks.old }
{
    match answer {
        Ok(Outcome::All(values)) => write_values(values.as_slice(), tasks),
        Ok(Outcome::List(states)) => write_states(states.as_slice(), tasks),
        Ok(Outcome::Partial(states)) => write_states(states.as_slice(), tasks),
        Ok(_) => 0,
        Err(refusal) => refused(refusal),
    }
}

/// Writes tasks that succeeded.
fn write_values(values: &[TaskValue], tasks: &mut [OutcomeTask]) -> i64
    ensures answer { result ≡ pos (length (map of_value values.now)) }
    ensures list { tasks.new ≡ placed (map of_value values.now) tasks.old }
{
    if values.len() <= tasks.len() {
        for i in 0..values.len() {
            tasks[i] = of_value(values[i]);
        }
    }
    values.len() as i64
}

/// Writes tasks with their states.
fn write_states(states: &[TaskState], tasks: &mut [OutcomeTask]) -> i64
    ensures answer { result ≡ pos (length (map of_state states.now)) }
    ensures list { tasks.new ≡ placed (map of_state states.now) tasks.old }
{
    if states.len() <= tasks.len() {
        for i in 0..states.len() {
            tasks[i] = of_state(states[i]);
        }
    }
    states.len() as i64
}

/// A task that succeeded.
fn of_value(value: TaskValue) -> OutcomeTask
    ensures { result ≡ of_value value }
{
    OutcomeTask {
        task: value.task,
        state: 1,
    }
}

/// A task with its state.
fn of_state(state: TaskState) -> OutcomeTask
    ensures { result ≡ of_state state }
{
    OutcomeTask {
        task: state.task,
        state: state_code(state.state),
    }
}
