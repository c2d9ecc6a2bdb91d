ghost use Rattle.std.specs.Prelude.{◌+◌, ◌<◌, ◌^◌, ◌≡◌};
ghost use Rattle.scope_model.specs.{AnswersValue, IfOk, Ok, answering, binding_reply, cancelled_at, cause, check_of, counts, effective, fault_reply, length, log, moment, outcome};
ghost use Rattle.scope_model.specs.{outcome_check, preview, result_reply, scope_check, stage, state, task_check, until_check};

use crate::plain::evaluator::Plain;
use scope_checks::checks::scope_check;
use scope_checks::{queries, table};
use scope_log::{Preview, ScopeLog};
use scope_rules::types::answers::{Cause, Counts, Effective, Stage, State};
use scope_rules::types::events::Event;
use scope_rules::types::names::Name;
use scope_rules::types::outcomes::Outcome;
use scope_rules::types::refusals::Refusal;
use scope_rules::types::values::{Actor, Fault, ScopeId, TaskId, Value};

/// The queries. Each answers its definition of the history, and changes nothing.
impl Plain {
    /// What can be read of the task (JEP 505, `Subtask.state`). Refused for an unknown task (`NoTask`,
    /// `Retired`).
    pub fn state(&self, task: TaskId) -> Result<State, Refusal>
        ensures { result ≡ answering (task_check self.now.history task) (state self.now.history task) }
    {
        queries::state(&self.view(), task)
    }

    /// How far the task has come. Refused for an unknown task (`NoTask`, `Retired`).
    pub fn stage(&self, task: TaskId) -> Result<Stage, Refusal>
        ensures { result ≡ answering (task_check self.now.history task) (stage self.now.history task) }
    {
        queries::stage(&self.view(), task)
    }

    /// The value of the task, read by the owner of its scope after the join (JEP 505, `Subtask.get`).
    /// Refused if the actor is no running task or main, for a task that is unknown (`NoTask`,
    /// `Retired`) or of another's scope (`NotOwner`), before the join (`NotJoined`), and for one that
    /// can't be read (`Unavailable`) or failed (`NotSuccess`).
    pub fn result(&self, actor: Actor, task: TaskId) -> Result<Value, Refusal>
        ensures { result ≡ result_reply self.now.history actor task }
    {
        queries::result(&self.view(), actor, task)
    }

    /// The fault of the task, read by the owner of its scope after the join (JEP 505,
    /// `Subtask.exception`). Refused as `result` is, and for a task that succeeded (`NotFailed`).
    pub fn fault(&self, actor: Actor, task: TaskId) -> Result<Fault, Refusal>
        ensures { result ≡ fault_reply self.now.history actor task }
    {
        queries::fault(&self.view(), actor, task)
    }

    /// Why the scope is cancelled, if it is. Refused for an unknown scope (`NoScope`, `Retired`).
    pub fn cause(&self, scope: ScopeId) -> Result<Option<Cause>, Refusal>
        ensures { result ≡ answering (scope_check self.now.history scope) (cause self.now.history scope) }
    {
        queries::cause(&self.view(), scope)
    }

    /// The place of the event by which the scope became cancelled, if it is, counted from 0 since the
    /// base. Refused for an unknown scope (`NoScope`, `Retired`).
    pub fn cancelled_at(&self, scope: ScopeId) -> Result<Option<usize>, Refusal>
        ensures { result ≡ answering (scope_check self.now.history scope) (cancelled_at self.now.history scope) }
    {
        queries::cancelled_at(&self.view(), scope)
    }

    /// The earliest deadline in effect for the scope (Trio, `current_effective_deadline`), in
    /// milliseconds. Refused for a scope that is unknown (`NoScope`, `Retired`) or closed (`Closed`).
    pub fn effective_deadline(&self, scope: ScopeId) -> Result<Effective, Refusal>
        ensures { result ≡ answering (until_check self.now.history scope) (effective self.now.history scope) }
    {
        queries::effective_deadline(&self.view(), scope)
    }

    /// How many tasks of the scope are at each stage. Refused for an unknown scope (`NoScope`,
    /// `Retired`).
    pub fn counts(&self, scope: ScopeId) -> Result<Counts, Refusal>
        ensures { result ≡ answering (scope_check self.now.history scope) (counts self.now.history scope) }
    {
        queries::counts(&self.view(), scope)
    }

    /// What the actor sees the key bound to (JEP 506, `ScopedValue.get`). Refused if the actor is no
    /// running task or main, and if nothing is bound to the key (`NotBound`).
    pub fn binding(&self, actor: Actor, key: &Name) -> Result<Value, Refusal>
        ensures { result ≡ binding_reply self.now.history actor key.now }
    {
        queries::binding(&self.view(), actor, key)
    }

    /// The realm's time, in milliseconds.
    pub fn moment(&self) -> u64
        ensures { result ≡ moment self.now.history }
    {
        self.view().moment()
    }

    /// What the join of the scope answered. Refused for an unknown scope (`NoScope`, `Retired`), before
    /// the join (`NotJoined`), and if memory is refused (`Memory`).
    pub fn outcome(&self, scope: ScopeId) -> Result<Outcome, Refusal>
        ensures { AnswersValue (outcome_check self.now.history scope) (outcome self.now.history scope) result }
    {
        queries::outcome(&self.view(), self.allocator(), scope)
    }

    /// The log of the scope: its own events since the base, in order, with the mark of its cancellation
    /// among them. Refused for an unknown scope (`NoScope`, `Retired`), and if memory is refused
    /// (`Memory`).
    pub fn project(&self, scope: ScopeId) -> Result<ScopeLog, Refusal>
        ensures { AnswersValue (scope_check self.now.history scope) (log self.now.history scope) result }
    {
        scope_check(&self.view(), scope)?;
        self.log(scope)
    }

    /// What a join of the actor's scope would give next: what it would answer, and the scope's log with
    /// it. Refused if the join would be, and if memory is refused (`Memory`).
    pub fn join_preview(&self, actor: Actor, scope: ScopeId) -> Result<Preview, Refusal>
        ensures { AnswersValue (check_of self.now.limits self.now.history (Event.Join actor scope)) (preview self.now.history actor scope) result }
    {
        let _legal = self.limits();
        table::join_row::<_, Refusal>(&self.view(), actor, scope)?;
        let log = self.log(scope)?;
        match log.into_preview(self.allocator(), actor) {
            Ok(preview) => Ok(preview),
            Err(_) => Err(Refusal::Memory),
        }
    }

    /// The log of the scope, which is there.
    fn log(&self, scope: ScopeId) -> Result<ScopeLog, Refusal>
        requires { scope_check self.now.history scope ≡ Ok tt }
        ensures log { AnswersValue (Ok tt) (log self.now.history scope) result }
        ensures small { IfOk result (λ l. length l.entries + 1 < 2 ^ 32) }
    {
        let _legal = self.limits();
        match self.view().log(self.allocator(), scope) {
            Ok(Some(log)) => Ok(log),
            Ok(None) => unreachable!(),
            Err(_) => Err(Refusal::Memory),
        }
    }
}
