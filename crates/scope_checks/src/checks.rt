//! The checks, of which the table has rows: each passes, or gives what is made of it where it fails.

ghost use Rattle.std.specs.Prelude.{◌≡◌, OnOk};
ghost use Rattle.scope_checks.specs.{Passes.Passes, actor_check, in_closing, is_innermost, is_running, known_actor, known_scope, known_task, load_fits, not_closing, not_joined, owned, owner_check, owns, ready, refuse_closing};
ghost use Rattle.scope_checks.specs.{refuse_if, scope_check, stage, task_check};

use crate::failures::FromFailed;
use crate::load::over_load;
use crate::readings::Readings;
use scope_rules::Failed;
use scope_rules::types::answers::Stage;
use scope_rules::types::capacity::Limits;
use scope_rules::types::refusals::Refusal;
use scope_rules::types::values::{Actor, MAIN, ScopeId, TaskId};

/// Refused if the test holds.
pub fn refuse_if(test: bool, refusal: Refusal) -> Result<(), Refusal>
    ensures { result ≡ refuse_if test refusal }
{
    if test { Err(refusal) } else { Ok(()) }
}

/// The check fails if the test holds.
pub(crate) fn fail_if<F: FromFailed>(test: bool, failed: Failed) -> Result<(), F>
    ensures { result ≡ refuse_if test (F.made failed) }
{
    if test {
        Err(F::from_failed(failed))
    } else {
        Ok(())
    }
}

/// The scope has a number that was given since the base.
#[tactic(auto, using(crate::proofs::Remade::scope_passes), unfolding(scope_rules::specs::Checks::known_scope))]
pub fn known_scope<R: Readings, F: FromFailed>(readings: &R, scope: ScopeId) -> Result<(), F>
    ensures known { result ≡ known_scope F.made (R.history readings.now) scope }
    ensures passes { OnOk result (Passes (scope_check (R.history readings.now) scope)) }
{
    if 0 < scope && scope <= readings.retired_scopes() {
        return Err(F::from_failed(Failed::ScopeRetired(scope)));
    }
    fail_if(
        readings.opening(scope).is_none(),
        Failed::ScopeUnknown(scope),
    )
}

/// The same, or else its refusal.
pub fn scope_check<R: Readings>(readings: &R, scope: ScopeId) -> Result<(), Refusal>
    ensures { result ≡ scope_check (R.history readings.now) scope }
{
    known_scope(readings, scope)
}

/// The task has a number that was given since the base.
#[tactic(auto, using(crate::proofs::Remade::task_passes), unfolding(scope_rules::specs::Checks::known_task))]
pub fn known_task<R: Readings, F: FromFailed>(readings: &R, task: TaskId) -> Result<(), F>
    ensures known { result ≡ known_task F.made (R.history readings.now) task }
    ensures passes { OnOk result (Passes (task_check (R.history readings.now) task)) }
{
    if 0 < task && task <= readings.retired_tasks() {
        return Err(F::from_failed(Failed::TaskRetired(task)));
    }
    fail_if(
        readings.forked_in(task).is_none(),
        Failed::TaskUnknown(task),
    )
}

/// The same, or else its refusal.
pub fn task_check<R: Readings>(readings: &R, task: TaskId) -> Result<(), Refusal>
    ensures { result ≡ task_check (R.history readings.now) task }
{
    known_task(readings, task)
}

/// Whether the task runs.
pub fn runs<R: Readings>(readings: &R, task: TaskId) -> bool
    ensures { result ≡ is_running (stage (R.history readings.now) task) }
{
    matches!(readings.stage(task), Stage::Running)
}

/// The actor is main, or a task that runs.
#[tactic(auto, using(crate::proofs::Remade::actor_passes), unfolding(scope_rules::specs::Checks::known_actor, scope_rules::specs::Checks::checks, scope_rules::specs::Checks::then_check))]
pub fn known_actor<R: Readings, F: FromFailed>(readings: &R, actor: Actor) -> Result<(), F>
    ensures known { result ≡ known_actor F.made (R.history readings.now) actor }
    ensures passes { OnOk result (Passes (actor_check (R.history readings.now) actor)) }
{
    if actor == MAIN {
        return Ok(());
    }
    known_task::<R, F>(readings, actor)?;
    fail_if(!runs(readings, actor), Failed::NotRunning(actor))
}

/// The same, or else its refusal.
pub fn actor_check<R: Readings>(readings: &R, actor: Actor) -> Result<(), Refusal>
    ensures { result ≡ actor_check (R.history readings.now) actor }
{
    known_actor(readings, actor)
}

/// Whether the actor opened the scope.
#[tactic(auto, unfolding(scope_rules::specs::Checks::owns))]
pub fn owns<R: Readings>(readings: &R, actor: Actor, scope: ScopeId) -> bool
    ensures { result ≡ owns (R.history readings.now) actor scope }
{
    match readings.opening(scope) {
        Some(opening) => opening.actor == actor,
        None => false,
    }
}

/// The actor opened the scope.
pub(crate) fn owned<R: Readings, F: FromFailed>(
    readings: &R,
    actor: Actor,
    scope: ScopeId,
) -> Result<(), F>
    ensures owned { result ≡ owned F.made (R.history readings.now) actor scope }
    ensures passes { OnOk result (Passes (owner_check (R.history readings.now) actor scope)) }
{
    fail_if(
        !owns(readings, actor, scope),
        Failed::NotOwner { actor, scope },
    )
}

/// The scope is not closing or closed.
pub(crate) fn not_closing<R: Readings, F: FromFailed>(readings: &R, scope: ScopeId) -> Result<(), F>
    ensures stands { result ≡ not_closing F.made (R.history readings.now) scope }
    ensures passes { OnOk result (Passes (refuse_closing (R.history readings.now) scope)) }
{
    fail_if(readings.closing(scope), Failed::Closing(scope))
}

/// The scope is not joined.
pub(crate) fn not_joined<R: Readings, F: FromFailed>(readings: &R, scope: ScopeId) -> Result<(), F>
    ensures { result ≡ not_joined F.made (R.history readings.now) scope }
{
    fail_if(readings.joined(scope), Failed::Joined(scope))
}

/// There is capacity for so much load more.
pub(crate) fn load_fits<R: Readings, F: FromFailed>(
    readings: &R,
    limits: &Limits,
    units: u64,
) -> Result<(), F>
    ensures { result ≡ load_fits F.made limits.now (R.history readings.now) units }
{
    fail_if(over_load(readings, limits, units), Failed::Load(units))
}

/// Whether the actor's innermost scope is closing.
#[tactic(auto, unfolding(scope_rules::specs::Checks::in_closing))]
pub(crate) fn in_closing<R: Readings>(readings: &R, actor: Actor) -> bool
    ensures { result ≡ in_closing (R.history readings.now) actor }
{
    match readings.innermost(actor) {
        Some(scope) => readings.closing(scope),
        None => false,
    }
}

/// Whether the scope is the actor's innermost one.
#[tactic(auto, unfolding(scope_rules::specs::Checks::is_innermost))]
pub(crate) fn is_innermost<R: Readings>(readings: &R, actor: Actor, scope: ScopeId) -> bool
    ensures { result ≡ is_innermost (R.history readings.now) actor scope }
{
    match readings.innermost(actor) {
        Some(innermost) => innermost == scope,
        None => false,
    }
}

/// Whether the scope may be joined: it is cancelled, or all its tasks are settled.
#[tactic(auto, unfolding(scope_rules::specs::Tasks::ready))]
pub(crate) fn ready<R: Readings>(readings: &R, scope: ScopeId) -> bool
    ensures { result ≡ ready (R.history readings.now) scope }
{
    readings.is_cancelled(scope) || readings.settled(scope)
}
