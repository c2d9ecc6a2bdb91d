ghost use Rattle.std.specs.Prelude.{◌≡◌};
ghost use Rattle.scope_rules.specs.{refusal_of};

use crate::types::refusals::Refusal;
use crate::types::values::{Actor, ScopeId, TaskId};

/// The check of a command or query that failed, with what it was asked of. What refuses and what explains are two
/// functions of it.
#[derive(Clone, Copy)]
pub enum Failed {
    /// The scope's number was given before the last retirement.
    ScopeRetired(ScopeId),
    /// No scope has the number.
    ScopeUnknown(ScopeId),
    /// The task's number was given before the last retirement.
    TaskRetired(TaskId),
    /// No task has the number.
    TaskUnknown(TaskId),
    /// The task does not run.
    NotRunning(TaskId),
    /// The task does not wait for its thread.
    NotWaiting(TaskId),
    /// The actor did not open the scope.
    NotOwner { actor: Actor, scope: ScopeId },
    /// The actor did not open the scope of the task.
    NotTaskOwner { actor: Actor, task: TaskId },
    /// The actor is not main, which alone retires.
    NotMain(Actor),
    /// The scope is closing or closed.
    Closing(ScopeId),
    /// The close of the scope has ended.
    Closed(ScopeId),
    /// The close of the scope has not begun.
    NotClosing(ScopeId),
    /// The actor's innermost scope is closing.
    ClosingAround(Actor),
    /// The scope is joined.
    Joined(ScopeId),
    /// The scope of the task is not joined.
    NotJoined(TaskId),
    /// A task of the scope waits or runs.
    Pending(ScopeId),
    /// The actor has a scope that is not closed.
    Unclosed(Actor),
    /// The scope is not the actor's innermost one.
    NotInnermost { actor: Actor, scope: ScopeId },
    /// The actor's own bindings are not those of the scope's opening.
    BoundOtherwise { actor: Actor, scope: ScopeId },
    /// The actor has no binding of its own.
    NoBinding(Actor),
    /// A scope that the actor has not closed was opened while its last binding stood.
    HeldBinding(Actor),
    /// The moment is before the present one.
    ClockBack(u64),
    /// The next scope of the actor would lie too deep.
    TooDeep(Actor),
    /// There is no capacity for one more scope, or no number.
    Scopes,
    /// There is no capacity for one more task, or no number.
    Tasks,
    /// There is no capacity for so many more units of load.
    Load(u64),
}

impl Failed {
    /// The refusal of who asked.
    pub fn refusal(self) -> Refusal
        ensures { result ≡ refusal_of self }
    {
        match self {
            Failed::ScopeRetired(_) | Failed::TaskRetired(_) => Refusal::Retired,
            Failed::ScopeUnknown(_) => Refusal::NoScope,
            Failed::TaskUnknown(_) => Refusal::NoTask,
            Failed::NotRunning(_) | Failed::NotWaiting(_) | Failed::NotClosing(_) => {
                Refusal::WrongStage
            }
            Failed::NotOwner { .. } | Failed::NotTaskOwner { .. } | Failed::NotMain(_) => {
                Refusal::NotOwner
            }
            Failed::Closing(_) | Failed::Closed(_) | Failed::ClosingAround(_) => Refusal::Closed,
            Failed::Joined(_) => Refusal::AlreadyJoined,
            Failed::NotJoined(_) => Refusal::NotJoined,
            Failed::Pending(_) => Refusal::NotReady,
            Failed::Unclosed(_)
            | Failed::NotInnermost { .. }
            | Failed::BoundOtherwise { .. }
            | Failed::HeldBinding(_) => Refusal::Structure,
            Failed::NoBinding(_) => Refusal::NotBound,
            Failed::ClockBack(_) => Refusal::ClockBack,
            Failed::TooDeep(_) => Refusal::TooDeep,
            Failed::Scopes | Failed::Tasks | Failed::Load(_) => Refusal::TooMany,
        }
    }
}
