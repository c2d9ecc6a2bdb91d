ghost use Rattle.std.specs.Prelude.{◌*◌, ◌<◌, ◌^◌, ◌≡◌, ◌≤ℤ◌, ◌≤◌};
ghost use Rattle.scope_model.specs.{Some, completes, completion_of, completions, count_by, fires, has_failed, has_succeeded, is_task_of, joiner_fires, length, list_any};
ghost use Rattle.scope_model.specs.{meets, neg_ℤ, option_map_or, passes_at, pos, summand_of_end, total_of};

use crate::scan::view::HistoryView;
use scope_rules::types::events::Event;
use scope_rules::types::joiners::{Policy, Rule};
use scope_rules::types::values::{Completion, ScopeId, TaskId, Value};

impl<'a> HistoryView<'a> {
    /// Whether the task was forked in the scope.
    #[tactic(auto, unfolding(scope_rules::specs::Completions::is_task_of))]
    pub fn is_task_of(&self, scope: ScopeId, task: TaskId) -> bool
        ensures { result ≡ is_task_of self.now scope task }
    {
        match self.forking(task) {
            Some(forking) => forking.scope == scope,
            None => false,
        }
    }

    /// The completion that the event is, if it ends a task of the scope.
    pub fn completion_of(&self, scope: ScopeId, event: &Event) -> Option<Completion>
        ensures { result ≡ completion_of self.now scope event.now }
    {
        match *event {
            Event::Finish { task, end } => {
                if self.is_task_of(scope, task) {
                    Some(Completion { task, end })
                } else {
                    None
                }
            }
            _ => None,
        }
    }

    /// Whether the event ended a task of the scope with a fault.
    fn failed_at(&self, scope: ScopeId, event: &Event) -> bool
        ensures { result ≡ passes_at has_failed self.now scope event.now }
    {
        match self.completion_of(scope, event) {
            Some(done) => done.end.is_err(),
            None => false,
        }
    }

    /// Whether the event ended a task of the scope with a value.
    fn succeeded_at(&self, scope: ScopeId, event: &Event) -> bool
        ensures { result ≡ passes_at has_succeeded self.now scope event.now }
    {
        match self.completion_of(scope, event) {
            Some(done) => done.end.is_ok(),
            None => false,
        }
    }

    /// Whether a task of the scope failed.
    fn any_failed(&self, scope: ScopeId) -> bool
        ensures { result ≡ list_any (passes_at has_failed self.now scope) self.now.events }
    {
        self.events()
            .iter()
            .any(|event| self.failed_at(scope, event))
    }

    /// Whether a task of the scope succeeded.
    fn any_succeeded(&self, scope: ScopeId) -> bool
        ensures { result ≡ list_any (passes_at has_succeeded self.now scope) self.now.events }
    {
        self.events()
            .iter()
            .any(|event| self.succeeded_at(scope, event))
    }

    /// How many tasks of the scope failed.
    fn failures(&self, scope: ScopeId) -> usize
        ensures { result ≡ count_by (passes_at has_failed self.now scope) self.now.events }
    {
        self.events()
            .iter()
            .filter(|event| self.failed_at(scope, event))
            .count()
    }

    /// How many tasks of the scope succeeded.
    fn successes(&self, scope: ScopeId) -> usize
        ensures { result ≡ count_by (passes_at has_succeeded self.now scope) self.now.events }
    {
        self.events()
            .iter()
            .filter(|event| self.succeeded_at(scope, event))
            .count()
    }

    /// The exact sum of the number values of the scope's successes.
    #[tactic(auto, unfolding(scope_rules::specs::Completions::completions))]
    fn total(&self, scope: ScopeId) -> i128
        ensures { result ≡ total_of (completions self.now scope) }
    {
        let mut total = 0;
        for place in 0..self.len() {
            let done = self.completion_of(scope, self.event(place));
            total += i128::from(summand_of(done));
        }
        total
    }

    /// Whether the completions of the scope meet the rule.
    #[tactic(auto, using(scope_rules::proofs::Completions::count_completions), unfolding(scope_rules::specs::Joining::meets))]
    fn meets(&self, rule: Rule, scope: ScopeId) -> bool
        ensures { result ≡ meets rule (completions self.now scope) }
    {
        match rule {
            Rule::FailuresAtLeast(least) => least as usize <= self.failures(scope),
            Rule::SuccessesAtLeast(least) => least as usize <= self.successes(scope),
            Rule::SumAtLeast(least) => i128::from(least) <= self.total(scope),
        }
    }

    /// Whether the joiner fires on the completions of the scope.
    #[tactic(auto, using(scope_rules::proofs::Completions::any_completion), unfolding(scope_rules::specs::Joining::fires))]
    fn fires(&self, policy: Policy, scope: ScopeId) -> bool
        ensures { result ≡ fires policy (completions self.now scope) }
    {
        match policy {
            Policy::All => self.any_failed(scope),
            Policy::Any => self.any_succeeded(scope),
            Policy::AwaitAll => false,
            Policy::AwaitOk => self.any_failed(scope),
            Policy::Until(rule) => self.meets(rule, scope),
        }
    }

    /// Whether the event, the last one, ended a task of the scope.
    fn completes(&self, scope: ScopeId, event: &Event) -> bool
        ensures { result ≡ completes self.now scope event.now }
    {
        match *event {
            Event::Finish { task, end: _ } => self.is_task_of(scope, task),
            _ => false,
        }
    }

    /// Whether the joiner of the scope fires at the event, the last one.
    #[tactic(auto, unfolding(scope_rules::specs::Cancels::joiner_fires))]
    pub fn joiner_fires(&self, scope: ScopeId, event: &Event) -> bool
        ensures { result ≡ joiner_fires self.now scope event.now }
    {
        if !self.completes(scope, event) {
            return false;
        }
        match self.opening(scope) {
            Some(opening) => self.fires(opening.policy, scope),
            None => false,
        }
    }
}

/// What the completion adds to the sum: its number, if it succeeded with one.
fn summand_of(done: Option<Completion>) -> i64
    ensures { result ≡ option_map_or (λ d. summand_of_end d.end) done (pos 0) }
{
    match done {
        Some(done) => match done.end {
            Ok(Value::Num(number)) => number,
            Ok(Value::Text(_)) => 0,
            Err(_) => 0,
        },
        None => 0,
    }
}
