//! What is said of each check that can fail.

ghost use Rattle.std.specs.Prelude.{◌<◌, ◌≡◌};
ghost use Rattle.refusal_reasons.specs.{IfSome, Passes, Presupposed, actor_check, around_reason, closed_reason, closing_reason, event_at, joined_place, owner_of, pairs_of, pending_reason};
ghost use Rattle.refusal_reasons.specs.{reason_of, scope_check, scope_of, stage, unclosed_reason};

use crate::events::Events;
use crate::places::{closing_place, pending_task};
use crate::reasons::{ActorObstacle, Reason, RoomObstacle, ScopeObstacle, TaskObstacle};
use scope_checks::Readings;
use scope_rules::types::values::MAIN;
use scope_rules::{Actor, Failed, Limits, ScopeId, Stage, TaskId};

/// The reason is of the scope.
fn of_scope(scope: ScopeId, obstacle: ScopeObstacle) -> Reason
    ensures { result ≡ Reason.Scope scope obstacle }
{
    Reason::Scope { scope, obstacle }
}

/// The reason is of the task.
pub(crate) fn of_task(task: TaskId, obstacle: TaskObstacle) -> Reason
    ensures { result ≡ Reason.Task task obstacle }
{
    Reason::Task { task, obstacle }
}

/// The reason is of the actor.
pub(crate) fn of_actor(actor: Actor, obstacle: ActorObstacle) -> Reason
    ensures { result ≡ Reason.Actor actor obstacle }
{
    Reason::Actor { actor, obstacle }
}

/// What is said of the check that failed.
pub(crate) fn reason_of<R: Readings, E: Events>(
    readings: &R,
    events: &E,
    limits: &Limits,
    failed: Failed,
) -> Reason
    requires history { E.history events.now ≡ R.history readings.now }
    requires passed { Presupposed (R.history readings.now) failed }
    ensures { result ≡ reason_of limits.now (R.history readings.now) failed }
{
    match failed {
        Failed::ScopeRetired(scope) => {
            let last = readings.retired_scopes();
            of_scope(scope, ScopeObstacle::LetGo { last })
        }
        Failed::ScopeUnknown(scope) => {
            let opened = readings.scopes();
            of_scope(scope, ScopeObstacle::Unknown { opened })
        }
        Failed::NotOwner { actor, scope } => {
            let owner = owner_of(readings, scope);
            of_scope(scope, ScopeObstacle::Owned { owner, actor })
        }
        Failed::Closing(scope) => closing_reason(readings, events, scope),
        Failed::Closed(scope) => closed_reason(events, scope),
        Failed::NotClosing(scope) => of_scope(scope, ScopeObstacle::NotClosing),
        Failed::ClosingAround(actor) => around_reason(readings, events, actor),
        Failed::Joined(scope) => joined_reason(events, scope),
        Failed::Pending(scope) => pending_reason(readings, events, scope),
        Failed::Unclosed(actor) => unclosed_reason(readings, actor),
        Failed::NotInnermost { actor, scope } => {
            let innermost = readings.innermost(actor);
            of_scope(scope, ScopeObstacle::NotInnermost { actor, innermost })
        }
        Failed::BoundOtherwise { actor, scope } => {
            let pairs = readings.stack_len(actor);
            of_scope(scope, ScopeObstacle::BoundOtherwise { actor, pairs })
        }
        Failed::TaskRetired(task) => {
            let last = readings.retired_tasks();
            of_task(task, TaskObstacle::LetGo { last })
        }
        Failed::TaskUnknown(task) => {
            let forked = readings.tasks();
            of_task(task, TaskObstacle::Unknown { forked })
        }
        Failed::NotRunning(task) => stage_reason(readings, task, Stage::Running),
        Failed::NotWaiting(task) => stage_reason(readings, task, Stage::Waiting),
        Failed::NotTaskOwner { actor, task } => {
            let scope = scope_of(readings, task);
            let owner = owner_of(readings, scope);
            of_task(
                task,
                TaskObstacle::Owned {
                    scope,
                    owner,
                    actor,
                },
            )
        }
        Failed::NotJoined(task) => {
            let scope = scope_of(readings, task);
            of_task(task, TaskObstacle::NotJoined { scope })
        }
        Failed::NotMain(actor) => of_actor(actor, ActorObstacle::NotMain),
        Failed::NoBinding(actor) => of_actor(actor, ActorObstacle::NoPair),
        Failed::HeldBinding(actor) => {
            let pairs = readings.stack_len(actor);
            of_actor(actor, ActorObstacle::HeldPair { pairs })
        }
        Failed::ClockBack(wanted) => {
            let present = readings.moment();
            Reason::ClockBack { wanted, present }
        }
        Failed::TooDeep(actor) => {
            let level = readings.next_level(actor);
            Reason::Room(RoomObstacle::Levels { level })
        }
        Failed::Scopes => Reason::Room(scopes_full(readings, limits)),
        Failed::Tasks => Reason::Room(tasks_full(readings, limits)),
        Failed::Load(wanted) => {
            let used = readings.load();
            let limit = limits.load;
            Reason::Room(RoomObstacle::Load {
                used,
                limit,
                wanted,
            })
        }
    }
}

// ---- what is looked up

/// Who opened the scope.
fn owner_of<R: Readings>(readings: &R, scope: ScopeId) -> Actor
    ensures { result ≡ owner_of (R.history readings.now) scope }
{
    match readings.opening(scope) {
        Some(opening) => opening.actor,
        None => MAIN,
    }
}

/// The scope in which the task was forked.
pub(crate) fn scope_of<R: Readings>(readings: &R, task: TaskId) -> ScopeId
    ensures { result ≡ scope_of (R.history readings.now) task }
{
    match readings.forking(task) {
        Some(forking) => forking.scope,
        None => 0,
    }
}

/// The number of the event at the place, one of so many, counted from 1, or 0 if there is none.
fn event_at(place: Option<usize>, count: usize) -> usize
    requires { IfSome place (λ place. place < count) }
    ensures { result ≡ event_at place }
{
    match place {
        Some(place) => place + 1,
        None => 0,
    }
}

/// The task is at another stage than is wanted.
fn stage_reason<R: Readings>(readings: &R, task: TaskId, wanted: Stage) -> Reason
    ensures { result ≡ Reason.Task task (TaskObstacle.AtStage (stage (R.history readings.now) task) wanted) }
{
    let stage = readings.stage(task);
    of_task(task, TaskObstacle::AtStage { stage, wanted })
}

/// Since when the scope is closed.
fn closed_reason<E: Events>(events: &E, scope: ScopeId) -> Reason
    ensures { result ≡ closed_reason (E.history events.now) scope }
{
    let event = event_at(events.closed_place(scope), events.count());
    of_scope(scope, ScopeObstacle::Closed { event })
}

/// Since when the scope is joined.
fn joined_reason<E: Events>(events: &E, scope: ScopeId) -> Reason
    ensures { result ≡ Reason.Scope scope (ScopeObstacle.Joined (event_at (joined_place (E.history events.now).events scope))) }
{
    let event = event_at(events.joined_place(scope), events.count());
    of_scope(scope, ScopeObstacle::Joined { event })
}

/// Since when the scope is closing or closed.
fn closing_reason<R: Readings, E: Events>(readings: &R, events: &E, scope: ScopeId) -> Reason
    requires { E.history events.now ≡ R.history readings.now }
    ensures { result ≡ closing_reason (R.history readings.now) scope }
{
    if readings.closed(scope) {
        return closed_reason(events, scope);
    }
    let event = event_at(closing_place(readings, events, scope), events.count());
    of_scope(scope, ScopeObstacle::Closing { event })
}

/// Since when the actor's innermost scope is closing.
#[tactic(auto, using(crate::proofs::Found::innermost_live))]
fn around_reason<R: Readings, E: Events>(readings: &R, events: &E, actor: Actor) -> Reason
    requires { E.history events.now ≡ R.history readings.now }
    ensures { result ≡ around_reason (R.history readings.now) actor }
{
    let Some(scope) = readings.innermost(actor) else {
        return of_scope(0, ScopeObstacle::ClosingAround { actor, event: 0 });
    };
    let event = event_at(closing_place(readings, events, scope), events.count());
    of_scope(scope, ScopeObstacle::ClosingAround { actor, event })
}

/// Which task of the scope waits or runs.
fn pending_reason<R: Readings, E: Events>(readings: &R, events: &E, scope: ScopeId) -> Reason
    requires history { E.history events.now ≡ R.history readings.now }
    requires known { Passes (scope_check (R.history readings.now) scope) }
    ensures { result ≡ pending_reason (R.history readings.now) scope }
{
    let (task, stage) = match pending_task(readings, events, scope) {
        Some(task) => (task, readings.stage(task)),
        None => (0, Stage::Never),
    };
    of_scope(scope, ScopeObstacle::Awaits { task, stage })
}

/// Which scope of the actor is not closed.
fn unclosed_reason<R: Readings>(readings: &R, actor: Actor) -> Reason
    ensures { result ≡ unclosed_reason (R.history readings.now) actor }
{
    let scope = readings.innermost(actor).unwrap_or(0);
    of_scope(scope, ScopeObstacle::Unclosed { actor })
}

/// Why there is no capacity for one more scope.
fn scopes_full<R: Readings>(readings: &R, limits: &Limits) -> RoomObstacle
    ensures { Reason.Room result ≡ reason_of limits.now (R.history readings.now) Failed.Scopes }
{
    let opened = readings.scopes() - readings.retired_scopes();
    let limit = limits.scopes;
    if limit <= opened {
        RoomObstacle::Scopes { opened, limit }
    } else {
        RoomObstacle::ScopeNumbers
    }
}

/// Why there is no capacity for one more task.
fn tasks_full<R: Readings>(readings: &R, limits: &Limits) -> RoomObstacle
    ensures { Reason.Room result ≡ reason_of limits.now (R.history readings.now) Failed.Tasks }
{
    let forked = readings.tasks() - readings.retired_tasks();
    let limit = limits.tasks;
    if limit <= forked {
        RoomObstacle::Tasks { forked, limit }
    } else {
        RoomObstacle::TaskNumbers
    }
}
