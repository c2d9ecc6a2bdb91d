//! What checks and queries ask of a history, however its answers are kept.

ghost use Rattle.std.specs.Prelude.{◌≡◌, IfOk, IsSome, Some, length, slice_get};
ghost use Rattle.scope_checks.specs.{Passes.Passes, actor_check, bindings, bound_as_opened, bound_to, closed, closing, counts, deadline, effective, first_cancel, forked_in, forking, holds_last, inner, innermost, is_cancelled};
ghost use Rattle.scope_checks.specs.{joined, load, moment, next_level, opening, outcome, outcome_check, outermost, owner_check, refuse_closing, scope_check, scopes, settled, stack, stage, state, task_check, tasks, tasks_of};
ghost use Rattle.scope_checks.specs.{verdict};

use scope_rules::types::answers::{Counts, Effective, Stage, State, Verdict};
use scope_rules::types::names::Name;
use scope_rules::types::outcomes::Outcome;
use scope_rules::types::records::{FirstCancel, Forking, Opening};
use scope_rules::types::values::{Actor, ScopeId, TaskId, Value};
use std::alloc::{AllocError, Global};

/// The readings of a history, of which every check and every query is made. A value that keeps its
/// answers reads them off, and one that keeps the events alone scans these. What a reading rests on, as
/// that the history is legal, is the value's own to carry, in its model's invariant or in a ghost field;
/// and what is asked of one scope, task or actor alone may want that the checks of it have passed.
pub trait Readings {
    ghost use Rattle.scope_rules.specs.History.{History};

    // The history that the value is a reading of.
    ghost history: { Self → History };

    /// How many scopes were numbered before the history began: those of its base.
    fn retired_scopes(&self) -> u32
        ensures { result ≡ (history self.now).base.scopes };

    /// How many tasks were numbered before the history began: those of its base.
    fn retired_tasks(&self) -> u32
        ensures { result ≡ (history self.now).base.tasks };

    /// How many scopes were numbered so far: the number of the last one.
    fn scopes(&self) -> u32
        ensures { result ≡ scopes (history self.now) };

    /// How many tasks were numbered so far: the number of the last one.
    fn tasks(&self) -> u32
        ensures { result ≡ tasks (history self.now) };

    /// The load so far: a unit for each pair of the base, and what the events cost.
    fn load(&self) -> u64
        ensures { result ≡ load (history self.now) };

    /// The moment, in milliseconds: that of the last tick.
    fn moment(&self) -> u64
        ensures { result ≡ moment (history self.now) };

    /// The opening of the scope, if it was opened since the base.
    fn opening(&self, scope: ScopeId) -> Option<Opening>
        ensures { result ≡ opening (history self.now) scope };

    /// The forking of the task, if it was forked since the base.
    fn forking(&self, task: TaskId) -> Option<Forking>
        ensures { result ≡ forking (history self.now) task };

    /// The scope that the task was forked in, if it was since the base. An index answers it without
    /// reading an event.
    fn forked_in(&self, task: TaskId) -> Option<ScopeId>
        ensures { result ≡ forked_in (history self.now) task };

    /// Whether the scope is joined.
    fn joined(&self, scope: ScopeId) -> bool
        ensures { result ≡ joined (history self.now) scope };

    /// Whether the scope is closing or closed.
    fn closing(&self, scope: ScopeId) -> bool
        ensures { result ≡ closing (history self.now) scope };

    /// Whether the scope is closed.
    fn closed(&self, scope: ScopeId) -> bool
        ensures { result ≡ closed (history self.now) scope };

    /// Whether the scope is cancelled.
    fn is_cancelled(&self, scope: ScopeId) -> bool
        ensures { result ≡ is_cancelled (history self.now) scope };

    /// Whether no task of the scope waits or runs.
    fn settled(&self, scope: ScopeId) -> bool
        ensures { result ≡ settled (history self.now) scope };

    /// The stage of the task.
    fn stage(&self, task: TaskId) -> Stage
        ensures { result ≡ stage (history self.now) task };

    /// The actor's innermost scope: the latest that it opened and has not closed.
    fn innermost(&self, actor: Actor) -> Option<ScopeId>
        ensures { result ≡ innermost (history self.now) actor };

    /// The level of what the actor opens next: 1 where nothing lies around it.
    fn next_level(&self, actor: Actor) -> u64
        requires { Passes (actor_check (history self.now) actor) }
        ensures { result ≡ next_level (history self.now) actor };

    /// How many own pairs the actor has.
    fn stack_len(&self, actor: Actor) -> u64
        requires { Passes (actor_check (history self.now) actor) }
        ensures { result ≡ length (stack (history self.now) actor) };

    /// Whether the actor's bindings are those at the opening of the scope, which is its own and not
    /// closing. So the pairs of then still stand, and a comparison of heights tells.
    fn bound_as_opened(&self, actor: Actor, scope: ScopeId) -> bool
        requires acts { Passes (actor_check (history self.now) actor) }
        requires owned { Passes (owner_check (history self.now) actor scope) }
        requires stands { Passes (refuse_closing (history self.now) scope) }
        ensures { result ≡ bound_as_opened (history self.now) actor scope };

    /// Whether a scope that the actor has not closed was opened while its last pair was there.
    fn holds_last(&self, actor: Actor) -> bool
        requires { Passes (actor_check (history self.now) actor) }
        ensures { result ≡ holds_last (history self.now) actor };

    /// What the actor sees the key bound to.
    fn bound(&self, actor: Actor, key: Name) -> Option<Value>
        requires { Passes (actor_check (history self.now) actor) }
        ensures { result ≡ bound_to key (bindings (history self.now) actor) };

    /// What can be read of the task.
    fn state(&self, task: TaskId) -> State
        requires { Passes (task_check (history self.now) task) }
        ensures { result ≡ state (history self.now) task };

    /// How many tasks of the scope are at each stage.
    fn counts(&self, scope: ScopeId) -> Counts
        requires { Passes (scope_check (history self.now) scope) }
        ensures { result ≡ counts (history self.now) scope };

    /// The earliest own cancel on the scope's chain, if there is one: why it is cancelled, and by which
    /// event.
    fn first_cancel(&self, scope: ScopeId) -> Option<FirstCancel>
        ensures { result ≡ first_cancel (history self.now) scope };

    /// The scope's own deadline, in milliseconds, whether it counts still or not.
    fn deadline(&self, scope: ScopeId) -> Option<u64>
        requires { Passes (scope_check (history self.now) scope) }
        ensures { result ≡ deadline (history self.now) scope };

    /// The earliest deadline in effect for the scope.
    fn effective(&self, scope: ScopeId) -> Effective
        requires { Passes (scope_check (history self.now) scope) }
        ensures { result ≡ effective (history self.now) scope };

    /// How the scope was closed, or would be if its close ended now.
    fn verdict(&self, scope: ScopeId) -> Verdict
        requires { IsSome (opening (history self.now) scope) }
        ensures { result ≡ verdict (history self.now) scope };

    /// What the join of the scope answered. It is refused for memory alone.
    fn outcome(&self, alloc: Global, scope: ScopeId) -> Result<Outcome, AllocError>
        requires { Passes (outcome_check (history self.now) scope) }
        ensures { IfOk result (λ o. outcome (history self.now) scope ≡ Some o) };

    /// The task that was forked in the scope after so many others, if there is one.
    fn task_at(&self, scope: ScopeId, index: usize) -> Option<TaskId>
        requires { Passes (scope_check (history self.now) scope) }
        ensures { result ≡ slice_get (tasks_of (history self.now) scope) index };

    /// The actor's outermost scope: the first that it opened and has not closed.
    fn outermost(&self, actor: Actor) -> Option<ScopeId>
        ensures { result ≡ outermost (history self.now) actor };

    /// The scope inside the scope: the next that its owner opened and has not closed.
    fn inner(&self, scope: ScopeId) -> Option<ScopeId>
        ensures { result ≡ inner (history self.now) scope };
}
