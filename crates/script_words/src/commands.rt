use scope_rules::{Actor, Event, Name, ScopeId, TaskId};

/// What one line of a script says.
#[derive(Clone, Copy)]
pub enum Line {
    /// No field, or a comment: it gets no reply.
    Silent,
    /// It is in no form.
    BadWord,
    Command(Command),
}

/// A line that was understood, with its arguments. Numbers are as they were read, and need not be
/// given ones.
#[derive(Clone, Copy)]
pub enum Command {
    /// What adds just this event to the history, if it is accepted.
    Do(Event),
    /// `retire A`
    Retire { actor: Actor },
    /// What changes nothing.
    Ask(Query),
}

/// What can be asked of a realm.
#[derive(Clone, Copy)]
pub enum Query {
    /// `state K`
    State { task: TaskId },
    /// `stage K`
    Stage { task: TaskId },
    /// `result A K`
    Result { actor: Actor, task: TaskId },
    /// `fault A K`
    Fault { actor: Actor, task: TaskId },
    /// `cause S`
    Cause { scope: ScopeId },
    /// `until S`
    Until { scope: ScopeId },
    /// `counts S`
    Counts { scope: ScopeId },
    /// `get A NAME`
    Get { actor: Actor, key: Name },
}
