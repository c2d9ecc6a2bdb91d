ghost use Rattle.std.specs.Prelude.{◌≡◌, Some, false, true};

use crate::types::joiners::Policy;
use crate::types::names::Name;
use crate::types::values::{Actor, End, Label, ScopeId, TaskId, Value};

/// What the deadline of a scope means for its join.
#[derive(Clone, Copy, PartialEq, Eq)]
pub enum Expiry {
    /// The join answers that time ran out (Trio, `fail_after`).
    Fail,
    /// The join answers what there is (Trio, `move_on_after`).
    MoveOn,
}

/// What a scope is opened with, beside its joiner.
#[derive(Clone, Copy, PartialEq, Eq)]
pub struct Options {
    /// The realm's time, in milliseconds, at which the scope is cancelled unless it is joined before.
    pub deadline: Option<u64>,
    /// Whether cancels of the scopes around this one stop short of it (Trio, `shield`).
    pub shield: bool,
    /// What the join answers once the scope's own deadline has cancelled it.
    pub expiry: Expiry,
}

impl Options {
    /// Plain options: no deadline, no shield, and if a deadline is set later and passes, the scope's
    /// outcome is a timeout. They are those of a scope of JEP 505 that is opened with a joiner alone, and of
    /// a plain `CancelScope` of Trio.
    pub const PLAIN: Options = Options {
        deadline: None,
        shield: false,
        expiry: Expiry::Fail,
    };

    /// Plain options with a deadline, at this time of the realm, in milliseconds: if it passes, the
    /// scope's outcome is a timeout (JEP 505, `withTimeout`; Trio, `fail_at`).
    pub const fn by(deadline: u64) -> Options
        ensures { result ≡ record { deadline = Some deadline; shield = false; expiry = Expiry.Fail } }
    {
        Options {
            deadline: Some(deadline),
            ..Options::PLAIN
        }
    }

    /// These options, but that the scope's outcome is what had arrived by then if its deadline passes
    /// (Trio, `move_on_at`).
    pub const fn moving_on(self) -> Options
        ensures { result ≡ record self { expiry = Expiry.MoveOn } }
    {
        Options {
            expiry: Expiry::MoveOn,
            ..self
        }
    }

    /// These options, but that cancels of the scopes around the scope stop short of it (Trio,
    /// `shield=True`).
    pub const fn shielded(self) -> Options
        ensures { result ≡ record self { shield = true } }
    {
        Options {
            shield: true,
            ..self
        }
    }
}

/// A key and what it is bound to.
#[derive(Clone, Copy)]
pub struct Binding {
    pub key: Name,
    pub value: Value,
}

/// One accepted command, with its arguments. A list of events is all that a realm is made of.
#[derive(Clone, Copy)]
pub enum Event {
    /// The actor opened the next scope.
    Open {
        actor: Actor,
        policy: Policy,
        options: Options,
    },
    /// The actor forked the next task in its scope.
    Fork {
        actor: Actor,
        scope: ScopeId,
        label: Label,
    },
    /// No thread was available for the task.
    Reject {
        task: TaskId,
    },
    /// The task's thread began.
    Start {
        task: TaskId,
    },
    /// The task ended.
    Finish {
        task: TaskId,
        end: End,
    },
    /// The scope was cancelled by a call.
    Cancel {
        scope: ScopeId,
    },
    /// The scope's deadline was set anew, or taken away.
    Move {
        scope: ScopeId,
        deadline: Option<u64>,
    },
    /// The realm's time was set, in milliseconds.
    Tick {
        now: u64,
    },
    /// The actor bound a key above its other bindings.
    Bind {
        actor: Actor,
        binding: Binding,
    },
    /// The actor took away the last binding of its own.
    Unbind {
        actor: Actor,
    },
    /// The owner joined the scope.
    Join {
        actor: Actor,
        scope: ScopeId,
    },
    /// The owner began to close the scope, and all that it opened later and has not closed.
    BeginClose {
        actor: Actor,
        scope: ScopeId,
    },
    /// The scope was closed.
    EndClose {
        actor: Actor,
        scope: ScopeId,
    },
}
