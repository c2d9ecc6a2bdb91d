use crate::scan::view::HistoryView;
use scope_checks::Readings;
use scope_rules::types::answers::{Counts, Effective, Stage, State, Verdict};
use scope_rules::types::names::Name;
use scope_rules::types::outcomes::Outcome;
use scope_rules::types::records::{FirstCancel, Forking, Opening};
use scope_rules::types::values::{Actor, ScopeId, TaskId, Value};
use std::alloc::{AllocError, Global};

/// A view of a history reads that history, by scanning it.
impl<'a> Readings for HistoryView<'a> {
    ghost history = { λ v. v };

    fn retired_scopes(&self) -> u32 {
        self.base().scopes()
    }

    fn retired_tasks(&self) -> u32 {
        self.base().tasks()
    }

    fn scopes(&self) -> u32 {
        self.scopes()
    }

    fn tasks(&self) -> u32 {
        self.tasks()
    }

    fn load(&self) -> u64 {
        self.load()
    }

    fn moment(&self) -> u64 {
        self.moment()
    }

    fn opening(&self, scope: ScopeId) -> Option<Opening> {
        self.opening(scope)
    }

    fn forking(&self, task: TaskId) -> Option<Forking> {
        self.forking(task)
    }

    fn forked_in(&self, task: TaskId) -> Option<ScopeId> {
        Some(self.forking(task)?.scope)
    }

    fn joined(&self, scope: ScopeId) -> bool {
        self.joined(scope)
    }

    fn closing(&self, scope: ScopeId) -> bool {
        self.closing(scope)
    }

    fn closed(&self, scope: ScopeId) -> bool {
        self.closed(scope)
    }

    fn is_cancelled(&self, scope: ScopeId) -> bool {
        self.is_cancelled(scope)
    }

    fn settled(&self, scope: ScopeId) -> bool {
        self.settled(scope)
    }

    fn stage(&self, task: TaskId) -> Stage {
        self.stage(task)
    }

    fn innermost(&self, actor: Actor) -> Option<ScopeId> {
        self.innermost(actor)
    }

    fn next_level(&self, actor: Actor) -> u64 {
        self.next_level(actor)
    }

    fn stack_len(&self, actor: Actor) -> u64 {
        self.stack_len(actor)
    }

    fn bound_as_opened(&self, actor: Actor, scope: ScopeId) -> bool {
        self.bound_as_opened(actor, scope)
    }

    fn holds_last(&self, actor: Actor) -> bool {
        self.holds_last(actor)
    }

    fn bound(&self, actor: Actor, key: Name) -> Option<Value> {
        self.binding(actor, &key)
    }

    fn state(&self, task: TaskId) -> State {
        self.state(task)
    }

    fn counts(&self, scope: ScopeId) -> Counts {
        self.counts(scope)
    }

    fn first_cancel(&self, scope: ScopeId) -> Option<FirstCancel> {
        self.first_cancel(scope)
    }

    fn deadline(&self, scope: ScopeId) -> Option<u64> {
        self.deadline(scope)
    }

    fn effective(&self, scope: ScopeId) -> Effective {
        self.effective(scope)
    }

    fn verdict(&self, scope: ScopeId) -> Verdict {
        self.verdict(scope)
    }

    #[tactic(auto, using(scope_rules::proofs::Joined::outcome_there))]
    fn outcome(&self, alloc: Global, scope: ScopeId) -> Result<Outcome, AllocError> {
        match self.outcome(alloc, scope)? {
            Some(outcome) => Ok(outcome),
            None => unreachable!(),
        }
    }

    fn task_at(&self, scope: ScopeId, index: usize) -> Option<TaskId> {
        self.task_at(scope, index)
    }

    fn outermost(&self, actor: Actor) -> Option<ScopeId> {
        self.outermost(actor)
    }

    fn inner(&self, scope: ScopeId) -> Option<ScopeId> {
        self.inner(scope)
    }
}
