//! The queries. None of them changes the book's realm.

ghost use Rattle.std.specs.Prelude.{◌≡◌, pos};
ghost use Rattle.balkreyn_c.specs.{NextDeadline, NthCancelled, answering, asked, bad_argument, binding_reply, cause, cause_number, counts, counts_written, effective, fault_number, fault_reply, fault_text_in, moment, name_said};
ghost use Rattle.balkreyn_c.specs.{next_number, next_written, number_of, option_map_or, result_reply, scope_check, scopes, some_number, stage, stage_number, state, state_number, task_at_reply, task_check, tasks, until_check};
ghost use Rattle.balkreyn_c.specs.{until_number, until_written, value_number, value_text_in, value_written, written};

use crate::book::{Book, put, taken};
use crate::numbers::{BAD_ARGUMENT, DONE, cause, refused, some, some_answer, stage, state, until};
use crate::text::write_text;
use scope_checks::{Readings, queries};
use scope_rules::{Counts, Effective, Fault, Refusal, Value};
use script_words::name;
use std::alloc::Global;

/// How many tasks of a scope are at each stage.
#[repr(C)]
#[derive(Clone, Copy)]
pub struct TaskCounts {
    pub never: u32,
    pub waiting: u32,
    pub running: u32,
    pub finished: u32,
}

/// What can be read of the task.
#[unsafe(no_mangle)]
pub extern "C" fn balkreyn_state(alloc: Global, book: &mut Book, task: u32) -> i64
    ensures answer { result ≡ asked book.old.place.held (λ h. number_of state_number (answering (task_check h task) (state h task))) }
    ensures kept { book.new.place.held ≡ book.old.place.held }
{
    let timed = match taken(alloc, &mut book.word, &mut book.place) {
        Ok(timed) => timed,
        Err(number) => return number,
    };
    let answer = state(queries::state(&timed.realm, task));
    put(&mut book.word, &mut book.place, timed);
    answer
}

/// How far the task has come.
#[unsafe(no_mangle)]
pub extern "C" fn balkreyn_stage(alloc: Global, book: &mut Book, task: u32) -> i64
    ensures answer { result ≡ asked book.old.place.held (λ h. number_of stage_number (answering (task_check h task) (stage h task))) }
    ensures kept { book.new.place.held ≡ book.old.place.held }
{
    let timed = match taken(alloc, &mut book.word, &mut book.place) {
        Ok(timed) => timed,
        Err(number) => return number,
    };
    let answer = stage(queries::stage(&timed.realm, task));
    put(&mut book.word, &mut book.place, timed);
    answer
}

/// The value of the task, read by the owner of its scope after the join.
#[unsafe(no_mangle)]
pub extern "C" fn balkreyn_result(
    alloc: Global,
    book: &mut Book,
    actor: u32,
    task: u32,
    number: &mut i64,
    text: &mut [u8],
) -> i64
    ensures answer { result ≡ asked book.old.place.held (λ h. number_of value_number (result_reply h actor task)) }
    ensures number { number.new ≡ written book.old.place.held (λ h. value_written (result_reply h actor task)) number.old }
    ensures text { text.new ≡ written book.old.place.held (λ h. value_text_in (result_reply h actor task)) text.old }
    ensures kept { book.new.place.held ≡ book.old.place.held }
{
    let timed = match taken(alloc, &mut book.word, &mut book.place) {
        Ok(timed) => timed,
        Err(number) => return number,
    };
    let answer = write_value(queries::result(&timed.realm, actor, task), number, text);
    put(&mut book.word, &mut book.place, timed);
    answer
}

/// The fault of the task, read by the owner of its scope after the join.
#[unsafe(no_mangle)]
pub extern "C" fn balkreyn_fault(
    alloc: Global,
    book: &mut Book,
    actor: u32,
    task: u32,
    text: &mut [u8],
) -> i64
    ensures answer { result ≡ asked book.old.place.held (λ h. number_of fault_number (fault_reply h actor task)) }
    ensures text { text.new ≡ written book.old.place.held (λ h. fault_text_in (fault_reply h actor task)) text.old }
    ensures kept { book.new.place.held ≡ book.old.place.held }
{
    let timed = match taken(alloc, &mut book.word, &mut book.place) {
        Ok(timed) => timed,
        Err(number) => return number,
    };
    let answer = write_fault(queries::fault(&timed.realm, actor, task), text);
    put(&mut book.word, &mut book.place, timed);
    answer
}

/// Why the scope is cancelled, if it is.
#[unsafe(no_mangle)]
pub extern "C" fn balkreyn_cause(alloc: Global, book: &mut Book, scope: u32) -> i64
    ensures answer { result ≡ asked book.old.place.held (λ h. number_of cause_number (answering (scope_check h scope) (cause h scope))) }
    ensures kept { book.new.place.held ≡ book.old.place.held }
{
    let timed = match taken(alloc, &mut book.word, &mut book.place) {
        Ok(timed) => timed,
        Err(number) => return number,
    };
    let answer = cause(queries::cause(&timed.realm, scope));
    put(&mut book.word, &mut book.place, timed);
    answer
}

/// The earliest deadline in effect for the scope, in milliseconds.
#[unsafe(no_mangle)]
pub extern "C" fn balkreyn_until(
    alloc: Global,
    book: &mut Book,
    scope: u32,
    moment: &mut u64,
) -> i64
    ensures answer { result ≡ asked book.old.place.held (λ h. number_of until_number (answering (until_check h scope) (effective h scope))) }
    ensures moment { moment.new ≡ written book.old.place.held (λ h. until_written (answering (until_check h scope) (effective h scope))) moment.old }
    ensures kept { book.new.place.held ≡ book.old.place.held }
{
    let timed = match taken(alloc, &mut book.word, &mut book.place) {
        Ok(timed) => timed,
        Err(number) => return number,
    };
    let answer = write_until(queries::effective_deadline(&timed.realm, scope), moment);
    put(&mut book.word, &mut book.place, timed);
    answer
}

/// How many tasks of the scope are at each stage.
#[unsafe(no_mangle)]
pub extern "C" fn balkreyn_counts_of(
    alloc: Global,
    book: &mut Book,
    scope: u32,
    into: &mut TaskCounts,
) -> i64
    ensures answer { result ≡ asked book.old.place.held (λ h. number_of (λ c. pos 0) (answering (scope_check h scope) (counts h scope))) }
    ensures counts { into.new ≡ written book.old.place.held (λ h. counts_written (answering (scope_check h scope) (counts h scope))) into.old }
    ensures kept { book.new.place.held ≡ book.old.place.held }
{
    let timed = match taken(alloc, &mut book.word, &mut book.place) {
        Ok(timed) => timed,
        Err(number) => return number,
    };
    let answer = write_counts(queries::counts(&timed.realm, scope), into);
    put(&mut book.word, &mut book.place, timed);
    answer
}

/// What the actor sees the key bound to.
#[unsafe(no_mangle)]
pub extern "C" fn balkreyn_binding(
    alloc: Global,
    book: &mut Book,
    actor: u32,
    key: &[u8],
    number: &mut i64,
    text: &mut [u8],
) -> i64
    ensures answer { result ≡ asked book.old.place.held (λ h. option_map_or (λ name. number_of value_number (binding_reply h actor name)) (name_said key.now) bad_argument) }
    ensures number { number.new ≡ written book.old.place.held (λ h old. option_map_or (λ name. value_written (binding_reply h actor name) old) (name_said key.now) old) number.old }
    ensures text { text.new ≡ written book.old.place.held (λ h old. option_map_or (λ name. value_text_in (binding_reply h actor name) old) (name_said key.now) old) text.old }
    ensures kept { book.new.place.held ≡ book.old.place.held }
{
    let timed = match taken(alloc, &mut book.word, &mut book.place) {
        Ok(timed) => timed,
        Err(number) => return number,
    };
    let answer = match name(key) {
        Some(key) => write_value(queries::binding(&timed.realm, actor, &key), number, text),
        None => BAD_ARGUMENT
    };
    put(&mut book.word, &mut book.place, timed);
    answer
}

/// The moment, in milliseconds.
#[unsafe(no_mangle)]
pub extern "C" fn balkreyn_moment(alloc: Global, book: &mut Book, at: &mut u64) -> i64
    ensures answer { result ≡ asked book.old.place.held (λ h. pos 0) }
    ensures moment { at.new ≡ written book.old.place.held (λ h old. moment h) at.old }
    ensures kept { book.new.place.held ≡ book.old.place.held }
{
    let timed = match taken(alloc, &mut book.word, &mut book.place) {
        Ok(timed) => timed,
        Err(number) => return number,
    };
    let answer = write_moment(timed.realm.moment(), at);
    put(&mut book.word, &mut book.place, timed);
    answer
}

/// The deadline that comes next, in milliseconds, if one does: of a scope that isn't joined, closed or cancelled.
#[unsafe(no_mangle)]
pub extern "C" fn balkreyn_next_deadline(alloc: Global, book: &mut Book, moment: &mut u64) -> i64
    ensures answer { NextDeadline book.old.place.held result moment.old moment.new }
    ensures kept { book.new.place.held ≡ book.old.place.held }
{
    let timed = match taken(alloc, &mut book.word, &mut book.place) {
        Ok(timed) => timed,
        Err(number) => return number,
    };
    let answer = write_next(timed.realm.next_deadline(), moment);
    put(&mut book.word, &mut book.place, timed);
    answer
}

/// The n-th scope to be cancelled since the last retirement, from 0, if so many were.
#[unsafe(no_mangle)]
pub extern "C" fn balkreyn_nth_cancelled(alloc: Global, book: &mut Book, n: usize) -> i64
    ensures answer { NthCancelled book.old.place.held n result }
    ensures kept { book.new.place.held ≡ book.old.place.held }
{
    let mut timed = match taken(alloc, &mut book.word, &mut book.place) {
        Ok(timed) => timed,
        Err(number) => return number,
    };
    let answer = some(timed.realm.cancelled_since(n).get(0));
    put(&mut book.word, &mut book.place, timed);
    answer
}

/// The task that was forked in the scope after so many others, if there is one.
#[unsafe(no_mangle)]
pub extern "C" fn balkreyn_task_at(alloc: Global, book: &mut Book, scope: u32, index: usize) -> i64
    ensures answer { result ≡ asked book.old.place.held (λ h. number_of some_number (task_at_reply h scope index)) }
    ensures kept { book.new.place.held ≡ book.old.place.held }
{
    let timed = match taken(alloc, &mut book.word, &mut book.place) {
        Ok(timed) => timed,
        Err(number) => return number,
    };
    let answer = some_answer(queries::task_at(&timed.realm, scope, index));
    put(&mut book.word, &mut book.place, timed);
    answer
}

/// How many scopes were numbered so far.
#[unsafe(no_mangle)]
pub extern "C" fn balkreyn_scopes(alloc: Global, book: &mut Book) -> i64
    ensures answer { result ≡ asked book.old.place.held (λ h. pos (scopes h)) }
    ensures kept { book.new.place.held ≡ book.old.place.held }
{
    let timed = match taken(alloc, &mut book.word, &mut book.place) {
        Ok(timed) => timed,
        Err(number) => return number,
    };
    let answer = i64::from(timed.realm.scopes());
    put(&mut book.word, &mut book.place, timed);
    answer
}

/// How many tasks were numbered so far.
#[unsafe(no_mangle)]
pub extern "C" fn balkreyn_tasks(alloc: Global, book: &mut Book) -> i64
    ensures answer { result ≡ asked book.old.place.held (λ h. pos (tasks h)) }
    ensures kept { book.new.place.held ≡ book.old.place.held }
{
    let timed = match taken(alloc, &mut book.word, &mut book.place) {
        Ok(timed) => timed,
        Err(number) => return number,
    };
    let answer = i64::from(timed.realm.tasks());
    put(&mut book.word, &mut book.place, timed);
    answer
}

/// Writes the value: a number, or a text if there is room.
fn write_value(answer: Result<Value, Refusal>, number: &mut i64, text: &mut [u8]) -> i64
    ensures answer { result ≡ number_of value_number answer }
    ensures number { number.new ≡ value_written answer number.old }
    ensures text { text.new ≡ value_text_in answer text.old }
{
    match answer {
        Ok(Value::Num(value)) => {
            *number = value;
            DONE
        }
        Ok(Value::Text(name)) => write_text(text, name.as_bytes()),
        Err(refusal) => refused(refusal),
    }
}

/// Writes the fault if there is room.
fn write_fault(answer: Result<Fault, Refusal>, text: &mut [u8]) -> i64
    ensures answer { result ≡ number_of fault_number answer }
    ensures text { text.new ≡ fault_text_in answer text.old }
{
    match answer {
        Ok(Fault(name)) => write_text(text, name.as_bytes()),
        Err(refusal) => refused(refusal),
    }
}

/// Writes the moment, if the deadline in effect is one.
fn write_until(answer: Result<Effective, Refusal>, moment: &mut u64) -> i64
    ensures answer { result ≡ number_of until_number answer }
    ensures moment { moment.new ≡ until_written answer moment.old }
{
    if let Ok(Effective::At(at)) = answer {
        *moment = at;
    }
    until(answer)
}

/// Writes the counts.
fn write_counts(answer: Result<Counts, Refusal>, counts: &mut TaskCounts) -> i64
    ensures answer { result ≡ number_of (λ c. pos 0) answer }
    ensures counts { counts.new ≡ counts_written answer counts.old }
{
    match answer {
        Ok(
            Counts {
                never,
                waiting,
                running,
                finished,
            },
        ) => {
            *counts = TaskCounts {
                never,
                waiting,
                running,
                finished,
            };
            DONE
        }
        Err(refusal) => refused(refusal),
    }
}

/// Writes the moment.
fn write_moment(now: u64, moment: &mut u64) -> i64
    ensures answer { result ≡ pos 0 }
    ensures moment { moment.new ≡ now }
{
    *moment = now;
    DONE
}

/// Writes the deadline, if there is one.
fn write_next(deadline: Option<u64>, moment: &mut u64) -> i64
    ensures answer { result ≡ next_number deadline }
    ensures moment { moment.new ≡ next_written deadline moment.old }
{
    match deadline {
        Some(deadline) => {
            *moment = deadline;
            1
        }
        None => 0,
    }
}
