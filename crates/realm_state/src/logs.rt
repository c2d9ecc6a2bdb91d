//! The log of a scope, read off its own events' places.

ghost use Rattle.std.specs.Prelude.{[], ◌+◌, ◌<◌, ◌^◌, ◌≡◌, ◌≤◌, IfOk, Ok, Some, length, slice_index_or};
ghost use Rattle.realm_state.specs.{AnswersValue, check_of, cons_option, entries, entry_at, filter_map, log, marked, opening, places_of, preview, said_with, scope_check, task_forked, up_to};

use crate::realm::RealmState;
use scope_checks::checks::scope_check;
use scope_checks::{Readings, queries, table};
use scope_log::{LogEntry, Preview, ScopeLog};
use scope_rules::types::records::Opening;
use scope_rules::{Actor, Cause, Event, Refusal, ScopeId, TaskId};
use std::alloc::AllocError;

/// The logs. Each costs what the log is long, not what the history is.
impl RealmState {
    /// The log of the scope: its own events since the base, in order, with the mark of its cancellation
    /// among them; it has room for an entry more. Refused for an unknown scope (`NoScope`, `Retired`), and
    /// if memory is refused (`Memory`).
    pub fn project(&self, scope: ScopeId) -> Result<ScopeLog, Refusal>
        ensures log { AnswersValue (scope_check self.now.history scope) (log self.now.history scope) result }
        ensures small { IfOk result (λ l. length l.entries + 1 < 2 ^ 32) }
    {
        scope_check(self, scope)?;
        self.log(scope)
    }

    /// What a join of the actor's scope would give next: what it would answer, and the scope's log with
    /// it. Refused if the join would be, and if memory is refused (`Memory`).
    pub fn join_preview(&self, actor: Actor, scope: ScopeId) -> Result<Preview, Refusal>
        ensures { AnswersValue (check_of self.now.limits self.now.history (Event.Join actor scope)) (preview self.now.history actor scope) result }
    {
        let _legal = self.limits();
        table::join_row::<_, Refusal>(self, actor, scope)?;
        let log = self.log(scope)?;
        match log.into_preview(self.allocator(), actor) {
            Ok(preview) => Ok(preview),
            Err(_) => Err(Refusal::Memory),
        }
    }

    /// The log of the scope, which is there.
    fn log(&self, scope: ScopeId) -> Result<ScopeLog, Refusal>
        requires { scope_check self.now.history scope ≡ Ok tt }
        ensures log { AnswersValue (Ok tt) (log self.now.history scope) result }
        ensures small { IfOk result (λ l. length l.entries + 1 < 2 ^ 32) }
    {
        let Some(opened) = self.opening(scope) else {
            unreachable!()
        };
        match self.opened_log(scope, opened) {
            Ok(log) => Ok(log),
            Err(_) => Err(Refusal::Memory),
        }
    }

    /// The log of the scope, which was opened so.
    fn opened_log(&self, scope: ScopeId, opened: Opening) -> Result<ScopeLog, AllocError>
        requires check { scope_check self.now.history scope ≡ Ok tt }
        requires opened { opening self.now.history scope ≡ Some opened }
        ensures log { IfOk result (λ l. log self.now.history scope ≡ Some l) }
        ensures small { IfOk result (λ l. length l.entries + 1 < 2 ^ 32) }
    {
        let entries = self.entries(scope)?;
        let expiry = opened.options.expiry;
        Ok(ScopeLog::new(scope, opened.policy, expiry, entries))
    }

    /// The entries of the log of the scope, which is there.
    fn entries(&self, scope: ScopeId) -> Result<Vec<LogEntry>, AllocError>
        requires { scope_check self.now.history scope ≡ Ok tt }
        ensures entries { IfOk result (λ v. v.items ≡ entries self.now.history scope) }
        ensures small { IfOk result (λ v. length v.items + 1 < 2 ^ 32) }
    {
        let _legal = self.limits();
        let places = self.trails.places(self.allocator(), scope)?;
        let said = self.said_at(scope, &places)?;
        with_mark(said, &places, queries::cancellation(self, scope))
    }

    /// What the events at the places say, which are those of the scope, which is there.
    fn said_at(&self, scope: ScopeId, places: &[u32]) -> Result<Vec<LogEntry>, AllocError>
        requires check { scope_check self.now.history scope ≡ Ok tt }
        requires places { places.now ≡ places_of self.now.history scope }
        ensures { IfOk result (λ v. v.items ≡ filter_map (entry_at self.now.history scope) places.now) }
    {
        let _legal = self.limits();
        let tasks = self.tasks_of(scope);
        let mut entries = Vec::new(self.allocator());
        let mut forked = 0;
        for place in places {
            let event = self.event(*place as usize);
            if let Some(entry) = said(&event, tasks, forked) {
                forked += forks(&entry);
                entries.push(entry)?;
            }
        }
        Ok(entries)
    }
}

/// What the event says; a fork's task is the one after so many of the scope's.
fn said(event: &Event, tasks: &[TaskId], forked: usize) -> Option<LogEntry>
    ensures { result ≡ said_with (slice_index_or tasks.now forked 0) event.now }
{
    let task = match tasks.get(forked) {
        Some(task) => *task,
        None => 0,
    };
    LogEntry::said(event, task)
}

/// How many tasks the entry forks: one, or none.
fn forks(entry: &LogEntry) -> usize
    ensures count { result ≡ length (cons_option (task_forked entry.now) []) }
    ensures small { result ≤ 1 }
{
    match *entry {
        LogEntry::Fork { .. } => 1,
        _ => 0,
    }
}

/// The entries, one for each of the places, with the mark after those of the places up to the cancel.
fn with_mark(
    mut entries: Vec<LogEntry>,
    places: &[u32],
    cancel: Option<(usize, Cause)>,
) -> Result<Vec<LogEntry>, AllocError>
    requires { length entries.items ≡ length places.now }
    ensures { IfOk result (λ v. v.items ≡ marked places.now cancel entries.items) }
{
    if let Some((at, cause)) = cancel {
        entries.insert(count_up_to(places, at), LogEntry::Cancelled(cause))?;
    }
    Ok(entries)
}

/// How many of the places are no later than this one.
fn count_up_to(places: &[u32], at: usize) -> usize
    ensures count { result ≡ up_to at places.now }
    ensures within { result ≤ length places.now }
{
    places.iter().filter(|place| **place as usize <= at).count()
}
