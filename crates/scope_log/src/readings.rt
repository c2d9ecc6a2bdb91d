//! What the entries of a log tell, each answer by a look at them.

ghost use Rattle.std.specs.Prelude.{◌+◌, ◌<◌, ◌^◌, ◌≡◌, ◌≤◌, IfOk, count_by, false, length, option_map};
ghost use Rattle.scope_log.specs.{after_mark, before_mark, cause_in, cause_said, completion_said, completions_in, counted, counts_in, find, finishes_task, forks_task, is_at_in, is_end_of, is_mark, is_never_in, is_unsettled_in};
ghost use Rattle.scope_log.specs.{list_any, option_map_or, position, position_or_len, ready_in, rejects_task, settled_in, stage_in, starts_task, state_in, task_forked, tasks_in, total};

use crate::entries::LogEntry;
use scope_rules::{Cause, Completion, Counts, Stage, State, TaskId};
use std::alloc::{AllocError, Global};

/// Why the scope is cancelled, if it is: what its mark says.
#[tactic(auto, unfolding(crate::specs::LocalForms::cause_in))]
pub(crate) fn cause(entries: &[LogEntry]) -> Option<Cause>
    ensures { result ≡ cause_in entries.now }
{
    match mark(entries) {
        Some(entry) => cause_said(entry),
        None => None,
    }
}

/// The mark of the scope's cancellation, if there is one.
fn mark(entries: &[LogEntry]) -> Option<&LogEntry>
    ensures { option_map (λ e. e.now) result ≡ find is_mark entries.now }
{
    entries.iter().find(|entry| is_mark(entry))
}

/// The entries before the mark of the scope's cancellation: all, if there is none.
#[tactic(auto, unfolding(crate::specs::LocalForms::before_mark))]
pub(crate) fn before_mark(entries: &[LogEntry]) -> &[LogEntry]
    ensures { result.now ≡ before_mark entries.now }
{
    let place = mark_place(entries);
    &entries[..place]
}

/// The entries after the mark: none, if there is none.
#[tactic(auto, unfolding(crate::specs::LocalForms::after_mark))]
fn after_mark(entries: &[LogEntry]) -> &[LogEntry]
    ensures { result.now ≡ after_mark entries.now }
{
    let place = mark_place(entries);
    if place < entries.len() {
        &entries[place + 1..]
    } else {
        &[]
    }
}

/// How many entries are before the mark: all, if there is none.
#[tactic(auto, using(crate::proofs::FirstParts::none_at))]
fn mark_place(entries: &[LogEntry]) -> usize
    ensures place { result ≡ position_or_len is_mark entries.now }
    ensures within { result ≤ length entries.now }
{
    match position_of_mark(entries) {
        Some(place) => place,
        None => entries.len(),
    }
}

/// Where the mark is, if there is one.
fn position_of_mark(entries: &[LogEntry]) -> Option<usize>
    ensures { result ≡ position is_mark entries.now }
{
    entries.iter().position(|entry| is_mark(entry))
}

/// How far the task has come. What is no task of the scope never runs.
#[tactic(auto, unfolding(crate::specs::LocalForms::stage_in))]
pub(crate) fn stage(entries: &[LogEntry], task: TaskId) -> Stage
    ensures { result ≡ stage_in entries.now task }
{
    if !is_forked(entries, task) || is_never(entries, task) {
        Stage::Never
    } else if is_finished(entries, task) {
        Stage::Finished
    } else if is_started(entries, task) {
        Stage::Running
    } else {
        Stage::Waiting
    }
}

/// Whether the task gets no thread: its fork is after the mark, or it was rejected.
#[tactic(auto, unfolding(crate::specs::LocalForms::is_never_in))]
fn is_never(entries: &[LogEntry], task: TaskId) -> bool
    ensures { result ≡ is_never_in entries.now task }
{
    is_forked(after_mark(entries), task) || is_rejected(entries, task)
}

/// Whether an entry forks the task.
fn is_forked(entries: &[LogEntry], task: TaskId) -> bool
    ensures { result ≡ list_any (forks_task task) entries.now }
{
    entries.iter().any(|entry| forks_task(task, entry))
}

/// Whether an entry rejects the task.
fn is_rejected(entries: &[LogEntry], task: TaskId) -> bool
    ensures { result ≡ list_any (rejects_task task) entries.now }
{
    entries.iter().any(|entry| rejects_task(task, entry))
}

/// Whether an entry starts the task.
fn is_started(entries: &[LogEntry], task: TaskId) -> bool
    ensures { result ≡ list_any (starts_task task) entries.now }
{
    entries.iter().any(|entry| starts_task(task, entry))
}

/// Whether an entry ends the task.
fn is_finished(entries: &[LogEntry], task: TaskId) -> bool
    ensures { result ≡ list_any (finishes_task task) entries.now }
{
    entries.iter().any(|entry| finishes_task(task, entry))
}

/// What can be read of the task: its end, if that is before the mark.
#[tactic(auto, unfolding(crate::specs::LocalForms::state_in))]
pub(crate) fn state(entries: &[LogEntry], task: TaskId) -> State
    ensures { result ≡ state_in entries.now task }
{
    match end_of(before_mark(entries), task) {
        Some(done) => State::by_end(&done.end),
        None => State::Unavailable,
    }
}

/// The first completion of the task, if there is one.
#[tactic(auto, unfolding(crate::specs::LocalForms::completions_in))]
fn end_of(entries: &[LogEntry], task: TaskId) -> Option<Completion>
    ensures { result ≡ find (is_end_of task) (completions_in entries.now) }
{
    entries
        .iter()
        .filter_map(|entry| completion_said(entry))
        .find(|done| done.task == task)
}

/// How many tasks are at each stage.
#[tactic(auto, unfolding(crate::specs::LocalForms::counts_in, crate::specs::LocalForms::tasks_in))]
pub(crate) fn counts(entries: &[LogEntry]) -> Counts
    requires { length entries.now < 2 ^ 32 }
    ensures { result ≡ counts_in entries.now }
{
    let mut counts = Counts {
        never: 0,
        waiting: 0,
        running: 0,
        finished: 0,
    };
    for entry in entries {
        count_entry(&mut counts, entries, entry);
    }
    counts
}

/// Counts the task that the entry forks, if it forks one.
fn count_entry(counts: &mut Counts, entries: &[LogEntry], entry: &LogEntry)
    requires { total counts.old + 1 < 2 ^ 32 }
    ensures { counts.new ≡ option_map_or (λ k. counted counts.old (stage_in entries.now k)) (task_forked entry.now) counts.old }
{
    if let Some(task) = task_forked(entry) {
        count_task(counts, stage(entries, task));
    }
}

/// Counts one task more, at the stage.
fn count_task(counts: &mut Counts, stage: Stage)
    requires { total counts.old + 1 < 2 ^ 32 }
    ensures { counts.new ≡ counted counts.old stage }
{
    match stage {
        Stage::Never => counts.never += 1,
        Stage::Waiting => counts.waiting += 1,
        Stage::Running => counts.running += 1,
        Stage::Finished => counts.finished += 1,
    }
}

/// Whether the scope may be joined: it is cancelled, or none of its tasks waits or runs.
#[tactic(auto, unfolding(crate::specs::LocalForms::ready_in))]
pub(crate) fn is_ready(entries: &[LogEntry]) -> bool
    ensures { result ≡ ready_in entries.now }
{
    has_mark(entries) || is_settled(entries)
}

/// Whether the scope is cancelled.
fn has_mark(entries: &[LogEntry]) -> bool
    ensures { result ≡ list_any is_mark entries.now }
{
    entries.iter().any(|entry| is_mark(entry))
}

/// The completions, in order.
#[tactic(auto, unfolding(crate::specs::LocalForms::completions_in))]
pub(crate) fn completions(
    alloc: Global,
    entries: &[LogEntry],
) -> Result<Vec<Completion>, AllocError>
    ensures { IfOk result (λ v. v.items ≡ completions_in entries.now) }
{
    entries
        .iter()
        .filter_map(|entry| completion_said(entry))
        .collect(alloc)
}

/// Whether no task waits or runs.
#[tactic(auto, unfolding(crate::specs::LocalForms::settled_in))]
pub(crate) fn is_settled(entries: &[LogEntry]) -> bool
    ensures { result ≡ settled_in entries.now }
{
    !has_unsettled(entries)
}

/// Whether a task waits or runs.
#[tactic(auto, unfolding(crate::specs::LocalForms::tasks_in))]
fn has_unsettled(entries: &[LogEntry]) -> bool
    ensures { result ≡ list_any (is_unsettled_in entries.now) (tasks_in entries.now) }
{
    entries
        .iter()
        .filter_map(|entry| task_forked(entry))
        .any(|task| is_unsettled(entries, task))
}

/// Whether the task waits or runs.
fn is_unsettled(entries: &[LogEntry], task: TaskId) -> bool
    ensures { result ≡ is_unsettled_in entries.now task }
{
    matches!(stage(entries, task), Stage::Waiting | Stage::Running)
}

/// Whether the entry is the mark.
pub(crate) fn is_mark(entry: &LogEntry) -> bool
    ensures { result ≡ is_mark entry.now }
{
    matches!(*entry, LogEntry::Cancelled(_))
}

/// The cause that the entry says, if it is the mark.
fn cause_said(entry: &LogEntry) -> Option<Cause>
    ensures { result ≡ cause_said entry.now }
{
    match *entry {
        LogEntry::Cancelled(cause) => Some(cause),
        _ => None,
    }
}

/// The number of the task, if the entry is its fork.
pub(crate) fn task_forked(entry: &LogEntry) -> Option<TaskId>
    ensures { result ≡ task_forked entry.now }
{
    match *entry {
        LogEntry::Fork { task, .. } => Some(task),
        _ => None,
    }
}

/// Whether the entry is the fork of the task.
fn forks_task(task: TaskId, entry: &LogEntry) -> bool
    ensures { result ≡ forks_task task entry.now }
{
    matches!(*entry, LogEntry::Fork { task: forked, .. } if forked == task)
}

/// Whether the entry rejects the task.
fn rejects_task(task: TaskId, entry: &LogEntry) -> bool
    ensures { result ≡ rejects_task task entry.now }
{
    matches!(*entry, LogEntry::Reject { task: rejected } if rejected == task)
}

/// Whether the entry starts the task.
fn starts_task(task: TaskId, entry: &LogEntry) -> bool
    ensures { result ≡ starts_task task entry.now }
{
    matches!(*entry, LogEntry::Start { task: started } if started == task)
}

/// Whether the entry ends the task.
fn finishes_task(task: TaskId, entry: &LogEntry) -> bool
    ensures { result ≡ finishes_task task entry.now }
{
    matches!(*entry, LogEntry::Finish { task: finished, .. } if finished == task)
}

/// The completion that the entry is, if it ends a task.
pub(crate) fn completion_said(entry: &LogEntry) -> Option<Completion>
    ensures { result ≡ completion_said entry.now }
{
    match *entry {
        LogEntry::Finish { task, end } => Some(Completion { task, end }),
        _ => None,
    }
}
