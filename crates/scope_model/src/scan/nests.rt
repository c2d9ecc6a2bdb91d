ghost use Rattle.std.specs.Prelude.{◌<◌, ◌≡◌};
ghost use Rattle.scope_model.specs.{inner, next_unclosed, opened_count, outermost, slice_get, tasks_of, unclosed_after};

use crate::scan::view::HistoryView;
use scope_rules::types::values::{Actor, ScopeId, TaskId};

impl<'a> HistoryView<'a> {
    /// The scope that was opened after this many since the base, if it came after `scope` and the actor
    /// opened it and has not closed it.
    fn unclosed_after(&self, actor: Actor, scope: ScopeId, count: u32) -> Option<ScopeId>
        requires { count < opened_count self.now }
        ensures { result ≡ unclosed_after self.now actor scope count }
    {
        if scope < self.scope_after(count) {
            self.unclosed_of(actor, count)
        } else {
            None
        }
    }

    /// The first scope after `scope` that the actor opened and has not closed.
    #[tactic(auto, using(scope_rules::proofs::Searching::earliest_found, scope_rules::proofs::Searching::earliest_none_step), unfolding(scope_rules::specs::Nests::next_unclosed, scope_rules::specs::Search::earliest))]
    fn next_unclosed(&self, actor: Actor, scope: ScopeId) -> Option<ScopeId>
        ensures { result ≡ next_unclosed self.now actor scope }
    {
        for count in 0..self.opened_count() {
            let found = self.unclosed_after(actor, scope, count);
            if found.is_some() {
                return found;
            }
        }
        None
    }

    /// The actor's outermost scope: the first that it opened and has not closed.
    #[tactic(auto, using(scope_rules::proofs::Searching::earliest_found, scope_rules::proofs::Searching::earliest_none_step), unfolding(scope_rules::specs::Nests::outermost, scope_rules::specs::Search::earliest))]
    pub fn outermost(&self, actor: Actor) -> Option<ScopeId>
        ensures { result ≡ outermost self.now actor }
    {
        for count in 0..self.opened_count() {
            let found = self.unclosed_of(actor, count);
            if found.is_some() {
                return found;
            }
        }
        None
    }

    /// The scope inside the scope: the next that its owner opened and has not closed.
    #[tactic(auto, unfolding(scope_rules::specs::Nests::inner))]
    pub fn inner(&self, scope: ScopeId) -> Option<ScopeId>
        ensures { result ≡ inner self.now scope }
    {
        let opening = self.opening(scope)?;
        self.next_unclosed(opening.actor, scope)
    }

    /// The task that was forked in the scope after so many others.
    pub fn task_at(&self, scope: ScopeId, place: usize) -> Option<TaskId>
        ensures { result ≡ slice_get (tasks_of self.now scope) place }
    {
        let mut passed = 0;
        for before in 0..self.forked_count() {
            let task = self.task_after(before);
            if self.is_task_of(scope, task) {
                if passed == place {
                    return Some(task);
                }
                passed += 1;
            }
        }
        None
    }
}
