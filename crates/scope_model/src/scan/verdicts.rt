ghost use Rattle.std.specs.Prelude.{◌<◌, ◌≡◌};
ghost use Rattle.scope_model.specs.{begins_for, covers_another, covers_other, has_tasks, length, verdict, violated, violating_at};

use crate::scan::view::HistoryView;
use scope_rules::types::answers::Verdict;
use scope_rules::types::events::Event;
use scope_rules::types::values::ScopeId;

impl<'a> HistoryView<'a> {
    /// Whether a task was forked in the scope.
    #[tactic(auto, using(scope_rules::proofs::Numbers::list_any_range), unfolding(scope_rules::specs::Tasks::has_tasks))]
    fn has_tasks(&self, scope: ScopeId) -> bool
        ensures { result ≡ has_tasks self.now scope }
    {
        let mut found = false;
        for before in 0..self.forked_count() {
            found |= self.is_task_of(scope, self.task_after(before));
        }
        found
    }

    /// Whether the beginning of the scope's close, next, covers the other scope.
    fn covers_other(&self, scope: ScopeId, other: ScopeId) -> bool
        ensures { result ≡ covers_other self.now scope other }
    {
        other != scope && self.covers(scope, other)
    }

    /// Whether the beginning of the scope's close, next, covers another scope.
    #[tactic(auto, using(scope_rules::proofs::Numbers::list_any_range), unfolding(scope_rules::specs::Verdicts::covers_another))]
    fn covers_another(&self, scope: ScopeId) -> bool
        ensures { result ≡ covers_another self.now scope }
    {
        let mut found = false;
        for before in 0..self.opened_count() {
            found |= self.covers_other(scope, self.scope_after(before));
        }
        found
    }

    /// Whether the event, next, begins the scope's own close and covers another scope.
    fn begins_for(&self, scope: ScopeId, event: &Event) -> bool
        ensures { result ≡ begins_for self.now scope event.now }
    {
        matches!(*event, Event::BeginClose { scope: closing, .. } if closing == scope && self.covers_another(scope))
    }

    /// Whether the event at the place began the scope's own close and covered another scope.
    fn violating_at(&self, scope: ScopeId, place: usize) -> bool
        requires { place < length self.now.events }
        ensures { result ≡ violating_at self.now scope place }
    {
        let event = self.event(place);
        self.before(place).begins_for(scope, event)
    }

    /// Whether the scope's own close covered another scope.
    #[tactic(auto, using(scope_rules::proofs::Searching::some_below_more), unfolding(scope_rules::specs::Verdicts::violated, scope_rules::specs::Search::some_below))]
    fn violated(&self, scope: ScopeId) -> bool
        ensures { result ≡ violated self.now scope }
    {
        let mut found = false;
        for place in 0..self.len() {
            found |= self.violating_at(scope, place);
        }
        found
    }

    /// How the scope was closed (JEP 505: a scope that is not closed in reverse order of opening
    /// violates the structure, and one closed with forks and no join was not joined).
    #[tactic(auto, unfolding(scope_rules::specs::Verdicts::verdict))]
    pub fn verdict(&self, scope: ScopeId) -> Verdict
        ensures { result ≡ verdict self.now scope }
    {
        if self.violated(scope) {
            Verdict::Violated
        } else if self.has_tasks(scope) && !self.joined(scope) {
            Verdict::NotJoined
        } else {
            Verdict::Plain
        }
    }
}
