//! How far the tasks of scopes have ended, so that the first that has not is found without a look at those before it.
ghost use Rattle.std.specs.Prelude.{◌≡◌};
ghost use Rattle.scope_rules.specs.Checks.{scope_check};
ghost use Rattle.scope_rules.specs.History.{History};
ghost use Rattle.scope_rules.specs.Tasks.{is_settled};
ghost use Rattle.scope_checks.specs.Passes.{Passes};
ghost use Rattle.script_jobs.specs.Passed.{ArePassed, Knows};

use realm_state::RealmState;
use refusal_reasons::Events;
use scope_checks::Readings;
use scope_checks::checks::known_scope;
use scope_rules::{Refusal, ScopeId, Stage};
use std::collections::BTreeMap;

/// How many of a scope's first tasks neither wait nor run, for each scope that was asked about.
pub(crate) type PassedTasks = BTreeMap<ScopeId, usize>;

/// The events of a realm since its base, and how far its tasks have ended.
#[derive(Drop)]
pub(crate) struct RealmEvents<'a> {
    pub(crate) realm: &'a RealmState,
    pub(crate) passed: &'a PassedTasks,
    ghost knows: { Knows realm.now.history passed.now },
}

impl Events for RealmEvents<'_> {
    ghost history = { λ e. e.realm.now.history };

    fn count(&self) -> usize {
        let _legal = self.realm.limits();
        self.realm.event_count()
    }

    fn joined_place(&self, scope: ScopeId) -> Option<usize> {
        self.realm.joined_place(scope)
    }

    fn begun_place(&self, scope: ScopeId) -> Option<usize> {
        self.realm.begun_place(scope)
    }

    fn closed_place(&self, scope: ScopeId) -> Option<usize> {
        self.realm.closed_place(scope)
    }

    fn passed_tasks(&self, scope: ScopeId) -> usize {
        known_passed(self.passed, scope)
    }
}

/// How many of the scope's first tasks are known to have ended.
fn known_passed(passed: &PassedTasks, scope: ScopeId) -> usize
    ensures { (h : History) → Knows h passed.now → ArePassed h scope result }
{
    match passed.get(&scope) {
        Some(count) => *count,
        None => 0,
    }
}

/// Counts the tasks of the scope, if it is known, up to the first that waits or runs. Each is counted once, unless
/// memory is refused for that.
pub(crate) fn pass_tasks<R: Readings>(passed: &mut PassedTasks, readings: &R, scope: ScopeId)
    requires { Knows (R.history readings.now) passed.old }
    ensures { Knows (R.history readings.now) passed.new }
{
    let known: Result<(), Refusal> = known_scope(readings, scope);
    if known.is_ok() {
        let count = passed_from(readings, scope, known_passed(passed, scope));
        let _ = passed.insert(scope, count);
    }
}

/// How many of the scope's first tasks have ended, of which so many have.
fn passed_from<R: Readings>(readings: &R, scope: ScopeId, from: usize) -> usize
    requires known { Passes (scope_check (R.history readings.now) scope) }
    requires passed { ArePassed (R.history readings.now) scope from }
    ensures { ArePassed (R.history readings.now) scope result }
{
    let mut count = from;
    for index in from..readings.tasks() as usize {
        match readings.task_at(scope, index) {
            Some(task) if is_over(readings.stage(task)) => count = index + 1,
            _ => return count,
        }
    }
    count
}

/// Whether a task of that stage neither waits nor runs.
fn is_over(stage: Stage) -> bool
    ensures { result ≡ is_settled stage }
{
    matches!(stage, Stage::Never | Stage::Finished)
}
