//! What can be in the way of a command.

use scope_rules::{Actor, Fault, Name, ScopeId, Stage, TaskId, Value};

/// What is in the way of a command. `ShownReason` shows it as a sentence.
#[derive(Clone, Copy)]
pub enum Reason {
    /// Something of the scope.
    Scope {
        scope: ScopeId,
        obstacle: ScopeObstacle,
    },
    /// Something of the task.
    Task {
        task: TaskId,
        obstacle: TaskObstacle,
    },
    /// Something of the actor.
    Actor {
        actor: Actor,
        obstacle: ActorObstacle,
    },
    /// There is no room.
    Room(RoomObstacle),
    /// The moment that was wanted is before the present one.
    ClockBack {
        wanted: u64,
        present: u64,
    },
}

/// What can be so of a scope. Events are counted from 1 since the base.
#[derive(Clone, Copy)]
pub enum ScopeObstacle {
    /// No scope has the number; so many were opened.
    Unknown {
        opened: u32,
    },
    /// The number was given before the last retirement, as all up to the last one were.
    LetGo {
        last: ScopeId,
    },
    /// Its owner is another than who acts.
    Owned {
        owner: Actor,
        actor: Actor,
    },
    /// Its close began with the event, and has not ended.
    Closing {
        event: usize,
    },
    /// Its close ended with the event.
    Closed {
        event: usize,
    },
    /// It is the innermost one of the actor, and its close began with the event.
    ClosingAround {
        actor: Actor,
        event: usize,
    },
    /// It was joined by the event.
    Joined {
        event: usize,
    },
    /// Its close has not begun.
    NotClosing,
    /// A task of it waits or runs, of which this is the first.
    Awaits {
        task: TaskId,
        stage: Stage,
    },
    /// So many pairs are the actor's own, and they aren't those of the scope's opening.
    BoundOtherwise {
        actor: Actor,
        pairs: u64,
    },
    /// It is the actor's innermost one, which is to have none.
    Unclosed {
        actor: Actor,
    },
    /// It isn't the actor's innermost one, which is this.
    NotInnermost {
        actor: Actor,
        innermost: Option<ScopeId>,
    },
}

/// What can be so of a task.
#[derive(Clone, Copy)]
pub enum TaskObstacle {
    /// No task has the number; so many were forked.
    Unknown {
        forked: u32,
    },
    /// The number was given before the last retirement, as all up to the last one were.
    LetGo {
        last: TaskId,
    },
    /// It is at this stage, and not at the one that is wanted.
    AtStage {
        stage: Stage,
        wanted: Stage,
    },
    /// It was forked in the scope, whose owner is another than who acts.
    Owned {
        scope: ScopeId,
        owner: Actor,
        actor: Actor,
    },
    /// It was forked in the scope, which isn't joined.
    NotJoined {
        scope: ScopeId,
    },
    /// It was forked in the scope, and has come to this stage: it has not ended, or not before the cancel.
    Unreadable {
        scope: ScopeId,
        stage: Stage,
    },
    /// It failed so.
    Failed {
        fault: Fault,
    },
    /// It gave the value.
    Succeeded {
        value: Value,
    },
}

/// What can be so of an actor.
#[derive(Clone, Copy)]
pub enum ActorObstacle {
    /// It isn't main, which alone retires.
    NotMain,
    /// It has no pair of its own.
    NoPair,
    /// A scope that it has not closed was opened while the last of its so many own pairs stood.
    HeldPair { pairs: u64 },
    /// It sees nothing bound to the key.
    Unbound { key: Name },
}

/// Where there is no room.
#[derive(Clone, Copy)]
pub enum RoomObstacle {
    /// So many scopes are opened, of so many that may be.
    Scopes { opened: u32, limit: u32 },
    /// The last number of a scope is given.
    ScopeNumbers,
    /// So many tasks are forked, of so many that may be.
    Tasks { forked: u32, limit: u32 },
    /// The last number of a task is given.
    TaskNumbers,
    /// So many units of load are used, of so many that may be, and so many more are wanted.
    Load { used: u64, limit: u32, wanted: u64 },
    /// The scope would have this level.
    Levels { level: u64 },
}
