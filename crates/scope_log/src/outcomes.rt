//! What a join answered, by the entries before it.

ghost use Rattle.std.specs.Prelude.{◌↔◌, ◌≡◌, ◌≤◌, IfOk, IfSome, IsNone, false, length};
ghost use Rattle.scope_log.specs.{answer_in, before_first, is_join, list_any, listing_by, outcome_in, position, readings_in, state_in, tasks_in, values_by};

use crate::entries::LogEntry;
use crate::readings::{before_mark, cause, completion_said, state, task_forked};
use scope_rules::joins::{self, TaskReadings, value_in};
use scope_rules::{
    Completion, Expiry, Outcome, Policy, ScopeId, TaskState, TaskStates, TaskValue, TaskValues,
};
use std::alloc::{AllocError, Global};

/// What the join of the scope answered, if it was joined: decided by the entries before the join.
#[tactic(auto, unfolding(crate::specs::LocalForms::outcome_in))]
pub(crate) fn outcome(
    alloc: Global,
    entries: &[LogEntry],
    scope: ScopeId,
    policy: Policy,
    expiry: Expiry,
) -> Result<Option<Outcome>, AllocError>
    ensures { IfOk result (λ o. o ≡ outcome_in (record { scope = scope; policy = policy; expiry = expiry; entries = entries.now })) }
{
    match before_join(entries) {
        Some(told) => Ok(Some(answer(alloc, told, scope, policy, expiry)?)),
        None => Ok(None),
    }
}

/// The entries before the join, if there is one.
#[tactic(auto, using(crate::proofs::FirstParts::none_found, crate::proofs::FirstParts::first_found))]
fn before_join(entries: &[LogEntry]) -> Option<&[LogEntry]>
    ensures none { IsNone result ↔ (list_any is_join entries.now ≡ false) }
    ensures some { IfSome result (λ told. told.now ≡ before_first is_join entries.now) }
{
    match position_of_join(entries) {
        Some(place) => Some(&entries[..place]),
        None => None,
    }
}

/// Where the scope was joined, if it was.
fn position_of_join(entries: &[LogEntry]) -> Option<usize>
    ensures place { result ≡ position is_join entries.now }
    ensures within { IfSome result (λ place. place ≤ length entries.now) }
{
    entries.iter().position(|entry| is_join(entry))
}

/// What a join answers after these entries.
#[tactic(auto, unfolding(crate::specs::LocalForms::answer_in))]
pub(crate) fn answer(
    alloc: Global,
    entries: &[LogEntry],
    scope: ScopeId,
    policy: Policy,
    expiry: Expiry,
) -> Result<Outcome, AllocError>
    ensures { IfOk result (λ o. o ≡ answer_in (record { scope = scope; policy = policy; expiry = expiry; entries = entries.now })) }
{
    joins::answer_of(
        &LogTasks { entries },
        alloc,
        scope,
        policy,
        expiry,
        cause(entries),
    )
}

/// The tasks of a scope, by the entries of its log.
#[derive(Drop)]
struct LogTasks<'a> {
    entries: &'a [LogEntry],
}

impl<'a> TaskReadings for LogTasks<'a> {
    ghost readable = { λ t. readings_in t.entries.now };

    #[tactic(auto, unfolding(crate::specs::LocalForms::completions_in))]
    fn failure(&self) -> Option<Completion> {
        before_mark(self.entries)
            .iter()
            .filter_map(|entry| completion_said(entry))
            .find(|done| done.end.is_err())
    }

    #[tactic(auto, unfolding(crate::specs::LocalForms::completions_in))]
    fn success(&self) -> Option<Completion> {
        before_mark(self.entries)
            .iter()
            .filter_map(|entry| completion_said(entry))
            .find(|done| done.end.is_ok())
    }

    fn values(&self, alloc: Global) -> Result<TaskValues, AllocError> {
        Ok(TaskValues::new(values(alloc, self.entries)?))
    }

    fn listing(&self, alloc: Global) -> Result<TaskStates, AllocError> {
        Ok(TaskStates::new(listing(alloc, self.entries)?))
    }
}

/// The values of the tasks that succeeded, in fork order.
#[tactic(auto, unfolding(crate::specs::LocalForms::tasks_in))]
fn values(alloc: Global, entries: &[LogEntry]) -> Result<Vec<TaskValue>, AllocError>
    ensures { IfOk result (λ v. v.items ≡ values_by (state_in entries.now) (tasks_in entries.now)) }
{
    entries
        .iter()
        .filter_map(|entry| task_forked(entry))
        .filter_map(|task| value_in(task, state(entries, task)))
        .collect(alloc)
}

/// The tasks with their states, in fork order.
#[tactic(auto, unfolding(crate::specs::LocalForms::tasks_in))]
fn listing(alloc: Global, entries: &[LogEntry]) -> Result<Vec<TaskState>, AllocError>
    ensures { IfOk result (λ v. v.items ≡ listing_by (state_in entries.now) (tasks_in entries.now)) }
{
    entries
        .iter()
        .filter_map(|entry| task_forked(entry))
        .map(|task| TaskState {
            task,
            state: state(entries, task),
        })
        .collect(alloc)
}

/// Whether the entry is the join.
fn is_join(entry: &LogEntry) -> bool
    ensures { result ≡ is_join entry.now }
{
    matches!(*entry, LogEntry::Join { .. })
}
