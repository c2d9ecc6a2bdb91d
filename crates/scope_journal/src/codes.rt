//! An event in sixteen bytes.

use scope_rules::{Actor, ScopeId, TaskId};

/// An event as a journal keeps it. What takes more room is an entry of a list of its own: then the code
/// has the place of the entry, from 0.
#[derive(Clone, Copy)]
pub(crate) enum Code {
    /// The wide event at this place: an open or a bind.
    Wide(u32),
    /// The actor forked the next task in its scope, with the label at this place.
    Fork {
        actor: Actor,
        scope: ScopeId,
        label: u32,
    },
    /// No thread was available for the task.
    Reject(TaskId),
    /// The task's thread began.
    Start(TaskId),
    /// The task ended with a number.
    Number {
        task: TaskId,
        value: i64,
    },
    /// The task ended with the text at this place of the names.
    Text {
        task: TaskId,
        name: u32,
    },
    /// The task failed with the fault at this place of the names.
    Fail {
        task: TaskId,
        name: u32,
    },
    /// The scope was cancelled by a call.
    Cancel(ScopeId),
    /// The scope's deadline was set anew, in milliseconds.
    Move {
        scope: ScopeId,
        deadline: u64,
    },
    /// The scope's deadline was taken away.
    MoveAway(ScopeId),
    /// The realm's time was set, in milliseconds.
    Tick(u64),
    /// The actor took away the last binding of its own.
    Unbind(Actor),
    /// The owner joined the scope.
    Join {
        actor: Actor,
        scope: ScopeId,
    },
    /// The owner began to close the scope.
    BeginClose {
        actor: Actor,
        scope: ScopeId,
    },
    /// The scope was closed.
    EndClose {
        actor: Actor,
        scope: ScopeId,
    },
}

// It takes no more, since a realm keeps one for each event.
const _: () = prove!(size_of::<Code>() <= 16);
