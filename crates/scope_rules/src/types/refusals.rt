ghost use Rattle.std.specs.Prelude.{◌≡◌, Some};
ghost use Rattle.scope_rules.specs.{Memory, line_of, refusal_number, word_of};

use std::alloc::{AllocError, AllocFailed};
use std::error::Error;
use std::fmt;

/// Why a call was refused. A refused call changes nothing.
#[derive(Clone, Copy, Debug, PartialEq, Eq)]
pub enum Refusal {
    /// No scope has that number.
    NoScope,
    /// The actor did not open the scope.
    NotOwner,
    /// The scope is closing or closed.
    Closed,
    /// The scope was joined before.
    AlreadyJoined,
    /// The scope is not joined yet.
    NotJoined,
    /// Scopes or bindings would not nest.
    Structure,
    /// No task has that number.
    NoTask,
    /// The task, or the scope, is not at the stage that the call wants.
    WrongStage,
    /// The time is before the present one.
    ClockBack,
    /// A limit of scopes, tasks or load is met.
    TooMany,
    /// A task of the scope has not ended.
    NotReady,
    /// Nothing is bound that the call asks for.
    NotBound,
    /// The task has no result that may be read.
    Unavailable,
    /// The task failed, and its value was asked for.
    NotSuccess,
    /// The task succeeded, and its fault was asked for.
    NotFailed,
    /// No thread was available for the task.
    Rejected,
    /// Memory was refused.
    Memory,
    /// The line is no command.
    BadWord,
    /// Scopes would lie more than 16 levels deep.
    TooDeep,
    /// The number was given before the last retirement.
    Retired,
}

impl Refusal {
    /// The refusal's number, from 1 to 20.
    pub fn number(self) -> u8
        ensures { result ≡ refusal_number self }
    {
        match self {
            Refusal::NoScope => 1,
            Refusal::NotOwner => 2,
            Refusal::Closed => 3,
            Refusal::AlreadyJoined => 4,
            Refusal::NotJoined => 5,
            Refusal::Structure => 6,
            Refusal::NoTask => 7,
            Refusal::WrongStage => 8,
            Refusal::ClockBack => 9,
            Refusal::TooMany => 10,
            Refusal::NotReady => 11,
            Refusal::NotBound => 12,
            Refusal::Unavailable => 13,
            Refusal::NotSuccess => 14,
            Refusal::NotFailed => 15,
            Refusal::Rejected => 16,
            Refusal::Memory => 17,
            Refusal::BadWord => 18,
            Refusal::TooDeep => 19,
            Refusal::Retired => 20,
        }
    }

    /// The refusal's word.
    pub fn word(self) -> &'static str
        ensures { result.now ≡ word_of self }
    {
        match self {
            Refusal::NoScope => "no-scope",
            Refusal::NotOwner => "not-owner",
            Refusal::Closed => "closed",
            Refusal::AlreadyJoined => "already-joined",
            Refusal::NotJoined => "not-joined",
            Refusal::Structure => "structure",
            Refusal::NoTask => "no-task",
            Refusal::WrongStage => "wrong-stage",
            Refusal::ClockBack => "clock-back",
            Refusal::TooMany => "too-many",
            Refusal::NotReady => "not-ready",
            Refusal::NotBound => "not-bound",
            Refusal::Unavailable => "unavailable",
            Refusal::NotSuccess => "not-success",
            Refusal::NotFailed => "not-failed",
            Refusal::Rejected => "rejected",
            Refusal::Memory => "memory",
            Refusal::BadWord => "bad-word",
            Refusal::TooDeep => "too-deep",
            Refusal::Retired => "retired",
        }
    }
}

/// The line `refused N word`.
impl fmt::Display for Refusal {
    ghost output = { λ r. Some (line_of r) };

    fn fmt<W: fmt::Write>(&self, f: &mut fmt::Formatter<W>) -> fmt::Result {
        let number = self.number();
        let word = self.word();
        write!(f, "refused {number} {word}")
    }
}

impl Error for Refusal {}

/// So that `?` passes on that memory was refused.
impl From<AllocError> for Refusal {
    ghost from_gives = { λ _ r. r ≡ Memory };

    fn from(_refused: AllocError) -> Refusal {
        Refusal::Memory
    }
}

/// The same. The value that could not be stored is dropped.
impl<T: Drop> From<AllocFailed<T>> for Refusal {
    ghost from_gives = { λ _ r. r ≡ Memory };

    fn from(_refused: AllocFailed<T>) -> Refusal {
        Refusal::Memory
    }
}
