//! What lies in what, and what there is to say of it.

ghost use Rattle.std.specs.Prelude.{◌≡◌};
ghost use Rattle.scope_rules.specs.Nests.{outermost, inner_reply, task_inner_reply, task_at_reply, label_reply, info_reply};
ghost use Rattle.scope_book.specs.Books.{history_of};

use crate::state::book::BookState;
use scope_checks::{Readings, queries};
use scope_rules::types::values::MAIN;
use scope_rules::{Catalog, Label, Refusal, ScopeId, ScopeInfo, TaskId};

/// The readers, for whoever walks down the tree of scopes. Each answers its definition of the history,
/// takes no memory and constant time, and changes nothing.
impl<C: Catalog> BookState<C> {
    /// Main's outermost scope: the first that it opened and has not closed.
    pub fn root(&self) -> Option<ScopeId>
        ensures { result ≡ outermost (history_of self.now) 0 }
    {
        self.realm().outermost(MAIN)
    }

    /// The scope inside the scope: the next that its owner opened and has not closed. Refused for an
    /// unknown scope (`NoScope`, `Retired`).
    pub fn inner(&self, scope: ScopeId) -> Result<Option<ScopeId>, Refusal>
        ensures { result ≡ inner_reply (history_of self.now) scope }
    {
        queries::inner(self.realm(), scope)
    }

    /// The task's outermost scope: the first that it opened and has not closed. Refused for an unknown
    /// task (`NoTask`, `Retired`).
    pub fn task_inner(&self, task: TaskId) -> Result<Option<ScopeId>, Refusal>
        ensures { result ≡ task_inner_reply (history_of self.now) task }
    {
        queries::task_inner(self.realm(), task)
    }

    /// What there is to say of the scope by itself. Refused for an unknown scope (`NoScope`,
    /// `Retired`).
    pub fn info(&self, scope: ScopeId) -> Result<ScopeInfo, Refusal>
        ensures { result ≡ info_reply (history_of self.now) scope }
    {
        queries::info(self.realm(), scope)
    }

    /// The label that the task was forked with. Refused for an unknown task (`NoTask`, `Retired`).
    pub fn label(&self, task: TaskId) -> Result<Label, Refusal>
        ensures { result ≡ label_reply (history_of self.now) task }
    {
        queries::label(self.realm(), task)
    }

    /// The task that was forked in the scope after so many others, if there is one. Refused for an
    /// unknown scope (`NoScope`, `Retired`).
    pub fn task_at(&self, scope: ScopeId, index: usize) -> Result<Option<TaskId>, Refusal>
        ensures { result ≡ task_at_reply (history_of self.now) scope index }
    {
        queries::task_at(self.realm(), scope, index)
    }
}
