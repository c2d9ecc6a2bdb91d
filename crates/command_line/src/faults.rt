//! Why a command line gives no command.
ghost use Rattle.std.specs.Prelude.{◌≡◌};
ghost use Rattle.command_line.specs.{Memory, Some, TellsKind, fault_text, kind_of};

use crate::hints::Hint;
use clap::Error;
use clap::error::ErrorKind;
use std::alloc::{AllocError, Global};
use std::fmt;

/// Why a command line gives no command. A text has its last line's end.
#[derive(Debug, Drop)]
pub enum LineFault {
    /// The words ask for help.
    Help,
    /// The words ask for the version.
    Version,
    /// The words are not understood: the text for standard error.
    Usage(String),
    /// Memory was refused.
    Memory,
}

impl LineFault {
    /// The fault of a parse that failed. The hint stands behind the error that is said.
    pub(crate) fn of_parse(alloc: Global, error: &Error, hint: Option<Hint>) -> LineFault
        ensures { TellsKind (kind_of error.now) result }
    {
        match error.kind() {
            ErrorKind::OutOfMemory => LineFault::Memory,
            ErrorKind::DisplayHelp => LineFault::Help,
            ErrorKind::DisplayVersion => LineFault::Version,
            _ => match usage_text(alloc, error, hint) {
                Ok(text) => LineFault::Usage(text),
                Err(_) => LineFault::Memory,
            },
        }
    }
}

// What is said of an error, and the hint in a line of its own.
fn usage_text(alloc: Global, error: &Error, hint: Option<Hint>) -> Result<String, AllocError> {
    match hint {
        Some(Hint::Sentence(hint)) => format!(in alloc; "{error}{hint}\n"),
        Some(Hint::OneFile(word)) => format!(in alloc;
            "{error}hint: one FILE is read, or else standard input: scopectl {word} [OPTIONS] [FILE]\n"
        ),
        Some(Hint::Meant(name)) => format!(in alloc; "{error}hint: did you mean '--{name}'?\n"),
        None => format!(in alloc; "{error}"),
    }
}

/// What standard error is to have, or what was asked for or refused.
impl fmt::Display for LineFault {
    ghost output = { λ fault. Some (fault_text fault) };

    fn fmt<W: fmt::Write>(&self, f: &mut fmt::Formatter<W>) -> fmt::Result {
        match self {
            LineFault::Help => f.write_str("help is asked for"),
            LineFault::Version => f.write_str("the version is asked for"),
            LineFault::Usage(text) => f.write_str(text),
            LineFault::Memory => f.write_str("memory was refused"),
        }
    }
}

impl std::error::Error for LineFault {}

impl From<AllocError> for LineFault {
    ghost from_gives = { λ _ fault. fault ≡ Memory };

    fn from(_error: AllocError) -> LineFault {
        LineFault::Memory
    }
}
