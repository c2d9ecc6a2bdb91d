ghost use Rattle.std.specs.Prelude.{◌<◌, ◌==◌, ◌^◌, ◌≡◌, if◌then◌else◌};
ghost use Rattle.scope_model.specs.{IfOk, None, entries, entry_at, is_of, length, log, mark_of, option_and_then};

use crate::scan::outcomes::push_some;
use crate::scan::view::HistoryView;
use scope_log::{LogEntry, ScopeLog};
use scope_rules::types::answers::Cause;
use scope_rules::types::events::Event;
use scope_rules::types::values::ScopeId;
use std::alloc::{AllocError, Global};

impl<'a> HistoryView<'a> {
    /// Whether the event, next, names the scope or a task of it: an open if it gives that number.
    fn is_of(&self, scope: ScopeId, event: &Event) -> bool
        ensures { result ≡ is_of self.now scope event.now }
    {
        match *event {
            Event::Open { .. } => u64::from(self.scopes()) + 1 == u64::from(scope),
            Event::Reject { task } => self.is_task_of(scope, task),
            Event::Start { task } => self.is_task_of(scope, task),
            Event::Finish { task, end: _ } => self.is_task_of(scope, task),
            Event::Fork { scope: named, .. }
            | Event::Cancel { scope: named }
            | Event::Move { scope: named, .. }
            | Event::Join { scope: named, .. }
            | Event::BeginClose { scope: named, .. }
            | Event::EndClose { scope: named, .. } => named == scope,
            Event::Tick { .. } | Event::Bind { .. } | Event::Unbind { .. } => false,
        }
    }

    /// The entry of the event at the place, if it is of the scope.
    #[tactic(auto, using(scope_log::proofs::LogPlaces::entry_there))]
    fn entry_at(&self, scope: ScopeId, place: usize) -> Option<LogEntry>
        requires { place < length self.now.events }
        ensures { result ≡ entry_at self.now scope place }
    {
        let event = self.event(place);
        if !self.before(place).is_of(scope, event) {
            return None;
        }
        LogEntry::said(event, self.through(place).tasks())
    }

    /// The entries of the scope: at each place that of its event, if it is of the scope, and then the
    /// mark, if the scope became cancelled there.
    #[tactic(auto, using(scope_log::proofs::LogPlaces::entries_more), unfolding(scope_log::specs::Log::entries))]
    fn entries(&self, alloc: Global, scope: ScopeId) -> Result<Vec<LogEntry>, AllocError>
        ensures { IfOk result (λ v. v.items ≡ entries self.now scope) }
    {
        let at = self.cancelled_at(scope);
        let cause = self.cause(scope);
        let mut entries = Vec::new(alloc);
        for place in 0..self.len() {
            push_some(&mut entries, self.entry_at(scope, place))?;
            push_some(&mut entries, mark_at(at, cause, place))?;
        }
        Ok(entries)
    }

    /// The log of the scope, if it was opened since the base.
    #[tactic(auto, unfolding(scope_log::specs::Log::log))]
    pub fn log(&self, alloc: Global, scope: ScopeId) -> Result<Option<ScopeLog>, AllocError>
        requires { length (entries self.now scope) < 2 ^ 32 }
        ensures { IfOk result (λ l. l ≡ log self.now scope) }
    {
        let Some(opening) = self.opening(scope) else {
            return Ok(None);
        };
        let entries = self.entries(alloc, scope)?;
        let expiry = opening.options.expiry;
        Ok(Some(ScopeLog::new(scope, opening.policy, expiry, entries)))
    }
}

/// The mark of a cancellation, if it came at the place.
fn mark_at(at: Option<usize>, cause: Option<Cause>, place: usize) -> Option<LogEntry>
    ensures { result ≡ option_and_then (λ i. if i == place then mark_of cause else None) at }
{
    if at? != place {
        return None;
    }
    Some(LogEntry::Cancelled(cause?))
}
