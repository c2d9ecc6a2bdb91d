ghost use Rattle.std.specs.Prelude.{◌≡◌};
ghost use Rattle.scope_rules.specs.{kind_word, stage_word, state_by_end, state_word};

use crate::types::values::{End, Fault, ScopeId, TaskId, Value};

/// How far a task has come.
#[derive(Clone, Copy, Debug, PartialEq, Eq)]
pub enum Stage {
    /// It gets no thread: its scope was cancelled before the fork, or no thread was available.
    Never,
    /// Its thread is still to come.
    Waiting,
    Running,
    Finished,
}

impl Stage {
    /// The stage's word.
    pub fn word(self) -> &'static str
        ensures { result.now ≡ stage_word self }
    {
        match self {
            Stage::Never => "never",
            Stage::Waiting => "waiting",
            Stage::Running => "running",
            Stage::Finished => "finished",
        }
    }
}

/// What can be read of a task (JEP 505, `Subtask.State`).
#[derive(Clone, Copy, PartialEq, Eq)]
pub enum State {
    /// It has not ended, or ended after its scope was cancelled.
    Unavailable,
    Success(Value),
    Failed(Fault),
}

impl State {
    /// What can be read of a task that ended so.
    pub fn by_end(end: &End) -> State
        ensures { result ≡ state_by_end end.now }
    {
        match *end {
            Ok(value) => State::Success(value),
            Err(fault) => State::Failed(fault),
        }
    }

    /// The state's word, without the end.
    pub fn word(self) -> &'static str
        ensures { result.now ≡ state_word self }
    {
        match self {
            State::Unavailable => "unavailable",
            State::Success(_) => "success",
            State::Failed(_) => "failed",
        }
    }
}

/// What made the own cancel of a scope.
#[derive(Clone, Copy, Debug, PartialEq, Eq)]
pub enum CauseKind {
    /// A cancel call on it.
    Call,
    /// A close that began and covers it.
    Close,
    /// Its joiner fired.
    Joiner,
    /// Its deadline passed.
    Deadline,
}

impl CauseKind {
    /// The cause's word.
    pub fn word(self) -> &'static str
        ensures { result.now ≡ kind_word self }
    {
        match self {
            CauseKind::Call => "call",
            CauseKind::Close => "close",
            CauseKind::Joiner => "joiner",
            CauseKind::Deadline => "deadline",
        }
    }
}

/// Why a scope is cancelled: the scope whose own cancel reached it, and what made that.
#[derive(Clone, Copy, Debug, PartialEq, Eq)]
pub struct Cause {
    pub scope: ScopeId,
    pub kind: CauseKind,
}

/// How many tasks of a scope are at each stage.
#[derive(Clone, Copy, Debug, PartialEq, Eq)]
pub struct Counts {
    pub never: u32,
    pub waiting: u32,
    pub running: u32,
    pub finished: u32,
}

/// What a cancel or the beginning of a close did.
#[derive(Clone, Copy, PartialEq, Eq)]
pub enum Cancelling {
    /// The event was recorded.
    Recorded,
    /// It was so already, and nothing was recorded.
    Already,
}

/// How a scope was closed.
#[derive(Clone, Copy, Debug, PartialEq, Eq)]
pub enum Verdict {
    Plain,
    /// Tasks were forked in it, and it was never joined.
    NotJoined,
    /// Its close covered another scope: it was not closed in reverse order of opening.
    Violated,
}

/// The earliest deadline in effect for a scope (Trio, `current_effective_deadline`).
#[derive(Clone, Copy, PartialEq, Eq)]
pub enum Effective {
    /// The scope is cancelled.
    Past,
    /// This time of the realm, in milliseconds.
    At(u64),
    Never,
}

/// What a fork gave: the task's number, and whether it gets a thread.
#[derive(Clone, Copy, PartialEq, Eq)]
pub enum ForkReply {
    /// The task waits for its thread.
    Thread(TaskId),
    /// The scope is cancelled, and the task gets no thread.
    Never(TaskId),
}
