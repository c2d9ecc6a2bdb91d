ghost use Rattle.std.specs.Prelude.{◌≡◌, Ok};
ghost use Rattle.scope_rules.specs.History.{moment};
ghost use Rattle.scope_rules.specs.Cancels.{cause, cancelled_at, effective};
ghost use Rattle.scope_rules.specs.Tasks.{stage, state, counts};
ghost use Rattle.scope_rules.specs.Outcomes.{outcome};
ghost use Rattle.scope_rules.specs.Checks.{scope_check, task_check};
ghost use Rattle.scope_rules.specs.Table.{answering, check_of, until_check};
ghost use Rattle.scope_rules.specs.Replies.{AnswersValue, result_reply, fault_reply, binding_reply, outcome_check};
ghost use Rattle.scope_log.specs.Log.{log};
ghost use Rattle.scope_log.specs.Previews.{preview};
ghost use Rattle.scope_book.specs.Books.{limits_of, history_of};

use crate::state::book::BookState;
use scope_checks::{Readings, queries};
use scope_log::{Preview, ScopeLog};
use scope_rules::{
    Actor, Catalog, Cause, Counts, Effective, Event, Fault, Name, Outcome, Refusal, ScopeId, Stage,
    State, TaskId, Value,
};

/// The queries. Each answers its definition of the history, and changes nothing.
impl<C: Catalog> BookState<C> {
    /// What can be read of the task (JEP 505, `Subtask.state`). Refused for an unknown task (`NoTask`,
    /// `Retired`).
    pub fn state(&self, task: TaskId) -> Result<State, Refusal>
        ensures { result ≡ answering (task_check (history_of self.now) task) (state (history_of self.now) task) }
    {
        queries::state(self.realm(), task)
    }

    /// How far the task has come. Refused for an unknown task (`NoTask`, `Retired`).
    pub fn stage(&self, task: TaskId) -> Result<Stage, Refusal>
        ensures { result ≡ answering (task_check (history_of self.now) task) (stage (history_of self.now) task) }
    {
        queries::stage(self.realm(), task)
    }

    /// The value of the task, read by the owner of its scope after the join (JEP 505, `Subtask.get`).
    /// Refused if the actor is no running task or main, for a task that is unknown (`NoTask`,
    /// `Retired`) or of another's scope (`NotOwner`), before the join (`NotJoined`), and for one that
    /// can't be read (`Unavailable`) or failed (`NotSuccess`).
    pub fn result(&self, actor: Actor, task: TaskId) -> Result<Value, Refusal>
        ensures { result ≡ result_reply (history_of self.now) actor task }
    {
        queries::result(self.realm(), actor, task)
    }

    /// The fault of the task, read by the owner of its scope after the join (JEP 505,
    /// `Subtask.exception`). Refused as `result` is, and for a task that succeeded (`NotFailed`).
    pub fn fault(&self, actor: Actor, task: TaskId) -> Result<Fault, Refusal>
        ensures { result ≡ fault_reply (history_of self.now) actor task }
    {
        queries::fault(self.realm(), actor, task)
    }

    /// Why the scope is cancelled, if it is. Refused for an unknown scope (`NoScope`, `Retired`).
    pub fn cause(&self, scope: ScopeId) -> Result<Option<Cause>, Refusal>
        ensures { result ≡ answering (scope_check (history_of self.now) scope) (cause (history_of self.now) scope) }
    {
        queries::cause(self.realm(), scope)
    }

    /// The place of the event by which the scope became cancelled, if it is, counted from 0 since the
    /// base. Refused for an unknown scope (`NoScope`, `Retired`).
    pub fn cancelled_at(&self, scope: ScopeId) -> Result<Option<usize>, Refusal>
        ensures { result ≡ answering (scope_check (history_of self.now) scope) (cancelled_at (history_of self.now) scope) }
    {
        queries::cancelled_at(self.realm(), scope)
    }

    /// The earliest deadline in effect for the scope (Trio, `current_effective_deadline`), in
    /// milliseconds. Refused for a scope that is unknown (`NoScope`, `Retired`) or closed (`Closed`).
    pub fn effective_deadline(&self, scope: ScopeId) -> Result<Effective, Refusal>
        ensures { result ≡ answering (until_check (history_of self.now) scope) (effective (history_of self.now) scope) }
    {
        queries::effective_deadline(self.realm(), scope)
    }

    /// How many tasks of the scope are at each stage. Refused for an unknown scope (`NoScope`,
    /// `Retired`).
    pub fn counts(&self, scope: ScopeId) -> Result<Counts, Refusal>
        ensures { result ≡ answering (scope_check (history_of self.now) scope) (counts (history_of self.now) scope) }
    {
        queries::counts(self.realm(), scope)
    }

    /// What the actor sees the key bound to (JEP 506, `ScopedValue.get`). Refused if the actor is no
    /// running task or main, and if nothing is bound to the key (`NotBound`).
    pub fn binding(&self, actor: Actor, key: &Name) -> Result<Value, Refusal>
        ensures { result ≡ binding_reply (history_of self.now) actor key.now }
    {
        queries::binding(self.realm(), actor, key)
    }

    /// The realm's time, in milliseconds.
    pub fn moment(&self) -> u64
        ensures { result ≡ moment (history_of self.now) }
    {
        self.realm().moment()
    }

    /// What the join of the scope answered. Refused for an unknown scope (`NoScope`, `Retired`), before
    /// the join (`NotJoined`), and if memory is refused (`Memory`).
    pub fn outcome(&self, scope: ScopeId) -> Result<Outcome, Refusal>
        ensures { AnswersValue (outcome_check (history_of self.now) scope) (outcome (history_of self.now) scope) result }
    {
        queries::outcome(self.realm(), *self.tests.allocator(), scope)
    }

    /// The log of the scope: its own events since the base, in order, with the mark of its cancellation
    /// among them. Refused for an unknown scope (`NoScope`, `Retired`), and if memory is refused
    /// (`Memory`). It costs what the log is long, not what the history is.
    pub fn project(&self, scope: ScopeId) -> Result<ScopeLog, Refusal>
        ensures { AnswersValue (scope_check (history_of self.now) scope) (log (history_of self.now) scope) result }
    {
        self.realm().project(scope)
    }

    /// What a join of the actor's scope would give next: what it would answer, and the scope's log with
    /// it. Refused if the join would be, and if memory is refused (`Memory`).
    pub fn join_preview(&self, actor: Actor, scope: ScopeId) -> Result<Preview, Refusal>
        ensures { AnswersValue (check_of (limits_of self.now) (history_of self.now) (Event.Join actor scope)) (preview (history_of self.now) actor scope) result }
    {
        self.realm().join_preview(actor, scope)
    }
}
