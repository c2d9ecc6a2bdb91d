ghost use Rattle.std.specs.Prelude.{◌≡◌};
ghost use Rattle.scope_model.specs.{info_reply, inner_reply, label_reply, outermost, task_at_reply, task_inner_reply};

use crate::plain::evaluator::Plain;
use scope_checks::queries;
use scope_rules::types::infos::ScopeInfo;
use scope_rules::types::refusals::Refusal;
use scope_rules::types::values::{Label, MAIN, ScopeId, TaskId};

/// What lies in what, and what there is to say of it. Each answers its definition of the history, takes
/// no memory and changes nothing.
impl Plain {
    /// Main's outermost scope: the first that it opened and has not closed.
    pub fn root(&self) -> Option<ScopeId>
        ensures { result ≡ outermost self.now.history 0 }
    {
        self.view().outermost(MAIN)
    }

    /// The scope inside the scope: the next that its owner opened and has not closed. Refused for an
    /// unknown scope (`NoScope`, `Retired`).
    pub fn inner(&self, scope: ScopeId) -> Result<Option<ScopeId>, Refusal>
        ensures { result ≡ inner_reply self.now.history scope }
    {
        queries::inner(&self.view(), scope)
    }

    /// The task's outermost scope: the first that it opened and has not closed. Refused for an unknown
    /// task (`NoTask`, `Retired`).
    pub fn task_inner(&self, task: TaskId) -> Result<Option<ScopeId>, Refusal>
        ensures { result ≡ task_inner_reply self.now.history task }
    {
        queries::task_inner(&self.view(), task)
    }

    /// What there is to say of the scope by itself. Refused for an unknown scope (`NoScope`,
    /// `Retired`).
    pub fn info(&self, scope: ScopeId) -> Result<ScopeInfo, Refusal>
        ensures { result ≡ info_reply self.now.history scope }
    {
        queries::info(&self.view(), scope)
    }

    /// The label that the task was forked with. Refused for an unknown task (`NoTask`, `Retired`).
    pub fn label(&self, task: TaskId) -> Result<Label, Refusal>
        ensures { result ≡ label_reply self.now.history task }
    {
        queries::label(&self.view(), task)
    }

    /// The task that was forked in the scope after so many others, if there is one. Refused for an
    /// unknown scope (`NoScope`, `Retired`).
    pub fn task_at(&self, scope: ScopeId, index: usize) -> Result<Option<TaskId>, Refusal>
        ensures { result ≡ task_at_reply self.now.history scope index }
    {
        queries::task_at(&self.view(), scope, index)
    }
}
