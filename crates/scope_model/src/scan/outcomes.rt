ghost use Rattle.std.specs.Prelude.{◌++◌, ◌+◌, ◌<◌, ◌≡◌, ◌≤◌, if◌then◌else◌};
ghost use Rattle.scope_model.specs.{[], IfOk, IfSome, None, OnOk, Some, cons_option, earliest, entry_in, first_read, has_failed, has_succeeded, is_task_of};
ghost use Rattle.scope_model.specs.{joining, joining_at, length, outcome, outcome_of, readable_at, readable_of, state, value_in};

use crate::scan::view::HistoryView;
use scope_rules::joins::{self, TaskReadings, is_available, value_in};
use scope_rules::types::events::Event;
use scope_rules::types::outcomes::{Outcome, TaskState, TaskStates, TaskValue, TaskValues};
use scope_rules::types::records::Opening;
use scope_rules::types::values::{Completion, ScopeId, TaskId};
use std::alloc::{AllocError, Global};

impl<'a> HistoryView<'a> {
    /// The completion that the event at the place is, if it failed, or succeeded, as is wanted, and can
    /// be read.
    fn readable_at(&self, scope: ScopeId, failed: bool, place: usize) -> Option<Completion>
        requires { place < length self.now.events }
        ensures { result ≡ readable_at (if failed then has_failed else has_succeeded) self.now scope place }
    {
        let done = self.completion_of(scope, self.event(place))?;
        let is_wanted = if failed {
            done.end.is_err()
        } else {
            done.end.is_ok()
        };
        if is_wanted && is_available(self.state(done.task)) {
            Some(done)
        } else {
            None
        }
    }

    /// The first completion that failed, or succeeded, as is wanted, of those that can be read.
    #[tactic(auto, using(scope_rules::proofs::Searching::earliest_found, scope_rules::proofs::Searching::earliest_none_step), unfolding(scope_rules::specs::Search::earliest))]
    fn first_read(&self, scope: ScopeId, failed: bool) -> Option<Completion>
        ensures { result ≡ first_read (if failed then has_failed else has_succeeded) self.now scope }
    {
        for place in 0..self.len() {
            let done = self.readable_at(scope, failed, place);
            if done.is_some() {
                return done;
            }
        }
        None
    }

    /// The task with its value, if it is one of the scope and succeeded.
    fn value_of(&self, scope: ScopeId, task: TaskId) -> Option<TaskValue>
        ensures { result ≡ if is_task_of self.now scope task then value_in task (state self.now task) else None }
    {
        if self.is_task_of(scope, task) {
            value_in(task, self.state(task))
        } else {
            None
        }
    }

    /// The task with its state, if it is one of the scope.
    fn entry_of(&self, scope: ScopeId, task: TaskId) -> Option<TaskState>
        ensures { result ≡ if is_task_of self.now scope task then Some (entry_in task (state self.now task)) else None }
    {
        if !self.is_task_of(scope, task) {
            return None;
        }
        let state = self.state(task);
        Some(TaskState { task, state })
    }

    /// What a join of the scope, opened so, answers next.
    #[tactic(auto, unfolding(scope_rules::specs::Outcomes::outcome_of))]
    pub fn outcome_of(
        &self,
        alloc: Global,
        scope: ScopeId,
        opening: &Opening,
    ) -> Result<Outcome, AllocError>
        ensures { IfOk result (λ o. o ≡ outcome_of self.now scope opening.now) }
    {
        let tasks = ScopeTasks { view: self, scope };
        let expiry = opening.options.expiry;
        joins::answer_of(
            &tasks,
            alloc,
            scope,
            opening.policy,
            expiry,
            self.cause(scope),
        )
    }

    /// The place, if the event there joins the scope.
    fn joining_at(&self, scope: ScopeId, place: usize) -> Option<usize>
        requires { place < length self.now.events }
        ensures found { result ≡ joining_at self.now scope place }
        ensures here { IfSome result (λ i. i ≡ place) }
    {
        match *self.event(place) {
            Event::Join {
                actor: _,
                scope: joined,
            } => { if joined == scope { Some(place) } else { None } }
            _ => None,
        }
    }

    /// The place of the scope's join.
    #[tactic(auto, using(scope_rules::proofs::Searching::earliest_found, scope_rules::proofs::Searching::earliest_none_step), unfolding(scope_rules::specs::Outcomes::joining, scope_rules::specs::Search::earliest))]
    fn joining(&self, scope: ScopeId) -> Option<usize>
        ensures found { result ≡ joining self.now scope }
        ensures within { IfSome result (λ i. i < length self.now.events) }
    {
        for place in 0..self.len() {
            let joining = self.joining_at(scope, place);
            if joining.is_some() {
                return joining;
            }
        }
        None
    }

    /// What the join of the scope answered: decided by what stood before it, whatever came later.
    #[tactic(auto, unfolding(scope_rules::specs::Outcomes::outcome))]
    pub fn outcome(&self, alloc: Global, scope: ScopeId) -> Result<Option<Outcome>, AllocError>
        ensures { IfOk result (λ o. o ≡ outcome self.now scope) }
    {
        let Some(place) = self.joining(scope) else {
            return Ok(None);
        };
        let Some(opening) = self.opening(scope) else {
            return Ok(None);
        };
        Ok(Some(self.before(place).outcome_of(alloc, scope, &opening)?))
    }
}

/// The tasks of a scope, by a scan of the history.
#[derive(Drop)]
struct ScopeTasks<'a> {
    view: &'a HistoryView<'a>,
    scope: ScopeId,
}

impl<'a> TaskReadings for ScopeTasks<'a> {
    ghost readable = { λ t. readable_of t.view.now t.scope };

    fn failure(&self) -> Option<Completion> {
        self.view.first_read(self.scope, true)
    }

    fn success(&self) -> Option<Completion> {
        self.view.first_read(self.scope, false)
    }

    #[tactic(auto, using(scope_rules::proofs::TaskLists::values_more), unfolding(scope_rules::specs::Nests::tasks_of))]
    fn values(&self, alloc: Global) -> Result<TaskValues, AllocError> {
        let mut values = Vec::new(alloc);
        for before in 0..self.view.forked_count() {
            let task = self.view.task_after(before);
            push_some(&mut values, self.view.value_of(self.scope, task))?;
        }
        Ok(TaskValues::new(values))
    }

    #[tactic(auto, using(scope_rules::proofs::TaskLists::listing_more), unfolding(scope_rules::specs::Nests::tasks_of))]
    fn listing(&self, alloc: Global) -> Result<TaskStates, AllocError> {
        let mut states = Vec::new(alloc);
        for before in 0..self.view.forked_count() {
            let task = self.view.task_after(before);
            push_some(&mut states, self.view.entry_of(self.scope, task))?;
        }
        Ok(TaskStates::new(states))
    }
}

/// Adds the item, if there is one.
pub fn push_some<T: Copy>(items: &mut Vec<T>, item: Option<T>) -> Result<(), AllocError>
    ensures { OnOk result (items.new.items ≡ items.old.items ++ cons_option item []) }
{
    match item {
        Some(item) => Ok(items.push(item)?),
        None => Ok(()),
    }
}
