//! The sentences of reasons.

use crate::reasons::{ActorObstacle, Reason, RoomObstacle, ScopeObstacle, TaskObstacle};
use scope_rules::{Actor, ScopeId, Stage, TaskId};
use std::fmt;

/// The number of the line whose command recorded the event, if the lines of all events are known in turn.
fn line_of(lines: &[u64], event: usize) -> u64 {
    if event == 0 {
        return 0;
    }
    match lines.get(event - 1) {
        Some(line) => *line,
        None => 0,
    }
}

/// `main` or `task K`.
#[derive(Clone, Copy)]
struct ShownActor(Actor);

impl fmt::Display for ShownActor {
    fn fmt<W: fmt::Write>(&self, f: &mut fmt::Formatter<W>) -> fmt::Result {
        match self.0 {
            0 => write!(f, "main"),
            task => write!(f, "task {task}"),
        }
    }
}

/// What a task at the stage is.
fn stage_text(stage: Stage) -> &'static str {
    match stage {
        Stage::Never => "without a thread",
        stage => stage.word(),
    }
}

/// What is so of the scope.
fn write_scope<W: fmt::Write>(
    f: &mut fmt::Formatter<W>,
    lines: &[u64],
    scope: ScopeId,
    obstacle: ScopeObstacle,
) -> fmt::Result {
    match obstacle {
        ScopeObstacle::Unknown { opened } => {
            write!(
                f,
                "there is no scope {scope} (scopes opened so far: {opened})"
            )
        }
        ScopeObstacle::NotClosing => write!(f, "the close of scope {scope} has not begun"),
        ScopeObstacle::Awaits { task, stage } => {
            write!(
                f,
                "task {task} of scope {scope} is still {}",
                stage_text(stage)
            )
        }
        ScopeObstacle::BoundOtherwise { actor, pairs } => {
            let actor = ShownActor(actor);
            write!(
                f,
                "the bindings of {actor} have changed since it opened scope {scope} (own bindings now: {pairs})"
            )
        }
        ScopeObstacle::Unclosed { actor } => {
            write!(f, "{} has not closed its scope {scope}", ShownActor(actor))
        }
        ScopeObstacle::NotInnermost { actor, innermost } => {
            let actor = ShownActor(actor);
            match innermost {
                None => write!(f, "all scopes of {actor} are closed"),
                Some(inside) => write!(
                    f,
                    "the innermost scope of {actor} is scope {inside}, not scope {scope}"
                ),
            }
        }
        of_scope => write_of_scope(f, lines, scope, of_scope),
    }
}

/// What the scope itself is.
fn write_of_scope<W: fmt::Write>(
    f: &mut fmt::Formatter<W>,
    lines: &[u64],
    scope: ScopeId,
    obstacle: ScopeObstacle,
) -> fmt::Result {
    write!(f, "scope {scope}")?;
    match obstacle {
        ScopeObstacle::LetGo { last } => {
            write!(
                f,
                " was discarded by a retire, as were all scopes up to {last}"
            )
        }
        ScopeObstacle::Owned { owner, actor } => {
            let (owner, actor) = (ShownActor(owner), ShownActor(actor));
            write!(f, " is owned by {owner}, not by {actor}")
        }
        ScopeObstacle::Closing { event } => {
            write!(f, " has been closing since line {}", line_of(lines, event))
        }
        ScopeObstacle::Closed { event } => write!(
            f,
            " was closed at line {}",
            line_of(lines, event)
        ),
        ScopeObstacle::ClosingAround { actor, event } => {
            let (actor, line) = (ShownActor(actor), line_of(lines, event));
            write!(
                f,
                ", the innermost scope of {actor}, has been closing since line {line}"
            )
        }
        ScopeObstacle::Joined { event } => write!(
            f,
            " was joined at line {}",
            line_of(lines, event)
        ),
        _ => Ok(()),
    }
}

/// What is so of the task.
fn write_task<W: fmt::Write>(
    f: &mut fmt::Formatter<W>,
    task: TaskId,
    obstacle: TaskObstacle,
) -> fmt::Result {
    if let TaskObstacle::Unknown { forked } = obstacle {
        return write!(f, "there is no task {task} (tasks forked so far: {forked})");
    }
    write!(f, "task {task} ")?;
    match obstacle {
        TaskObstacle::Unknown { .. } => Ok(()),
        TaskObstacle::LetGo { last } => {
            write!(
                f,
                "was discarded by a retire, as were all tasks up to {last}"
            )
        }
        TaskObstacle::AtStage { stage, wanted } => {
            write!(f, "is {}, not {}", stage_text(stage), stage_text(wanted))
        }
        TaskObstacle::Owned {
            scope,
            owner,
            actor,
        } => {
            let (owner, actor) = (ShownActor(owner), ShownActor(actor));
            write!(
                f,
                "was forked in scope {scope}, which is owned by {owner}, not by {actor}"
            )
        }
        TaskObstacle::NotJoined { scope } => {
            write!(f, "was forked in scope {scope}, which is not joined yet")
        }
        TaskObstacle::Unreadable {
            scope,
            stage: Stage::Finished,
        } => write!(f, "ended after its scope {scope} was cancelled"),
        TaskObstacle::Unreadable { stage, .. } => {
            write!(f, "is {}, not finished", stage_text(stage))
        }
        TaskObstacle::Failed { fault } => write!(f, "failed with {fault}"),
        TaskObstacle::Succeeded { value } => write!(f, "succeeded with {value}"),
    }
}

/// What is so of the actor.
fn write_actor<W: fmt::Write>(
    f: &mut fmt::Formatter<W>,
    actor: Actor,
    obstacle: ActorObstacle,
) -> fmt::Result {
    let actor = ShownActor(actor);
    match obstacle {
        ActorObstacle::NotMain => write!(f, "only main may retire, not {actor}"),
        ActorObstacle::NoPair => write!(f, "{actor} has no binding of its own"),
        ActorObstacle::HeldPair { pairs } => {
            write!(
                f,
                "{actor} opened a scope after its last binding and has not closed it (own bindings: {pairs})"
            )
        }
        ActorObstacle::Unbound { key } => write!(f, "{actor} sees no binding for {key}"),
    }
}

/// Where there is no room.
fn write_room<W: fmt::Write>(f: &mut fmt::Formatter<W>, obstacle: RoomObstacle) -> fmt::Result {
    match obstacle {
        RoomObstacle::Scopes { opened, limit } => {
            write!(f, "the limit of scopes is reached: {opened} of {limit}")
        }
        RoomObstacle::ScopeNumbers => write!(f, "no scope number is left"),
        RoomObstacle::Tasks { forked, limit } => {
            write!(f, "the limit of tasks is reached: {forked} of {limit}")
        }
        RoomObstacle::TaskNumbers => write!(f, "no task number is left"),
        RoomObstacle::Load {
            used,
            limit,
            wanted,
        } => {
            write!(
                f,
                "{used} of {limit} units of load are used, and this needs {wanted}"
            )
        }
        RoomObstacle::Levels { level } => {
            write!(
                f,
                "the scope would be at level {level}, and the limit is 16"
            )
        }
    }
}

/// The sentence of a reason, without a full stop.
#[derive(Clone, Copy)]
pub struct ShownReason<'a> {
    /// The reason, which may name an event by its number.
    pub reason: Reason,
    /// Of each event since the base the number of the line whose command recorded it, by which the sentence names it.
    pub lines: &'a [u64],
}

impl fmt::Display for ShownReason<'_> {
    fn fmt<W: fmt::Write>(&self, f: &mut fmt::Formatter<W>) -> fmt::Result {
        match self.reason {
            Reason::Scope { scope, obstacle } => write_scope(f, self.lines, scope, obstacle),
            Reason::Task { task, obstacle } => write_task(f, task, obstacle),
            Reason::Actor { actor, obstacle } => write_actor(f, actor, obstacle),
            Reason::Room(obstacle) => write_room(f, obstacle),
            Reason::ClockBack { wanted, present } => {
                write!(f, "time {wanted} is before the present time {present}")
            }
        }
    }
}
