//! The entries of a log.

ghost use Rattle.std.specs.Prelude.{◌≡◌};
ghost use Rattle.scope_log.specs.{said_with};

use scope_rules::{Actor, Cause, End, Event, Label, Options, Policy, TaskId};

/// An entry of the log of a scope: an event that names the scope or a task of it, or the mark of the
/// scope's cancellation.
#[derive(Clone, Copy, PartialEq, Eq)]
pub enum LogEntry {
    /// The actor opened the scope.
    Open {
        actor: Actor,
        policy: Policy,
        options: Options,
    },
    /// The actor forked the task in the scope.
    Fork {
        task: TaskId,
        actor: Actor,
        label: Label,
    },
    /// No thread was available for the task.
    Reject {
        task: TaskId,
    },
    /// The task's thread began.
    Start {
        task: TaskId,
    },
    /// The task ended.
    Finish {
        task: TaskId,
        end: End,
    },
    /// The scope was cancelled by a call on it.
    Cancel,
    /// The scope's deadline, in milliseconds, was set anew, or taken away.
    Move {
        deadline: Option<u64>,
    },
    /// The owner joined the scope.
    Join {
        actor: Actor,
    },
    /// The owner began to close the scope.
    BeginClose {
        actor: Actor,
    },
    /// The scope was closed.
    EndClose {
        actor: Actor,
    },
    /// The scope became cancelled, by this cause: after the entries before this one, and before those
    /// after it.
    Cancelled(Cause),
}

impl LogEntry {
    /// What the event says in the log of its scope, if it is of one: the task is the one that a fork
    /// gives. A bind, an unbind and a tick say nothing.
    pub fn said(event: &Event, task: TaskId) -> Option<LogEntry>
        ensures { result ≡ said_with task event.now }
    {
        Some(match *event {
            Event::Open {
                actor,
                policy,
                options,
            } => LogEntry::Open {
                actor,
                policy,
                options,
            },
            Event::Fork {
                actor,
                scope: _,
                label,
            } => LogEntry::Fork { task, actor, label },
            Event::Reject { task } => LogEntry::Reject { task },
            Event::Start { task } => LogEntry::Start { task },
            Event::Finish { task, end } => LogEntry::Finish { task, end },
            Event::Cancel { .. } => LogEntry::Cancel,
            Event::Move { scope: _, deadline } => LogEntry::Move { deadline },
            Event::Join { actor, scope: _ } => LogEntry::Join { actor },
            Event::BeginClose { actor, scope: _ } => LogEntry::BeginClose { actor },
            Event::EndClose { actor, scope: _ } => LogEntry::EndClose { actor },
            Event::Tick { .. } | Event::Bind { .. } | Event::Unbind { .. } => return None,
        })
    }
}
