//! Why a line is refused.
ghost use Rattle.std.specs.Prelude.{◌≡◌};
ghost use Rattle.script_jobs.specs.{Knows, Some, command_reason, command_why, history_of, realm_of, why_if};

use crate::passed::{PassedTasks, RealmEvents};
use refusal_reasons::{
    Reason, ShownFault, ShownReason, WordFault, event_reason, query_reason, retire_reason,
};
use scope_book::BookState;
use scope_rules::AnyEnd;
use scope_script::Command;
use std::fmt;

/// Why a line is refused.
#[derive(Clone, Copy)]
pub enum Why {
    /// The reason is in the way of its command.
    Refused(Reason),
    /// It is in no form, for this fault.
    BadWord(Option<WordFault>),
    /// No line feed ends it.
    Cut,
}

/// That the reason is why, if there is one.
fn why_if(reason: Result<(), Reason>) -> Option<Why>
    ensures { result ≡ why_if reason }
{
    match reason {
        Ok(()) => None,
        Err(reason) => Some(Why::Refused(reason)),
    }
}

/// What is in the way of the command on the book, if anything does.
#[tactic(auto, unfolding(crate::specs::Whys::command_reason))]
fn command_reason(
    book: &BookState<AnyEnd>,
    passed: &PassedTasks,
    command: &Command,
) -> Result<(), Reason>
    requires { Knows (history_of book.now) passed.now }
    ensures { result ≡ command_reason (realm_of book.now) command.now }
{
    let limits = book.limits();
    let realm = book.realm();
    let events = &RealmEvents { realm, passed };
    match command {
        Command::Do(event) => event_reason(realm, events, &limits, event),
        Command::Retire { actor } => retire_reason(realm, events, &limits, *actor),
        Command::Ask(query) => query_reason(realm, events, &limits, query),
    }
}

/// Why the book refuses the command, if it does. So many of each scope's first tasks neither wait nor run.
pub(crate) fn command_why(
    book: &BookState<AnyEnd>,
    passed: &PassedTasks,
    command: &Command,
) -> Option<Why>
    requires { Knows (history_of book.now) passed.now }
    ensures { result ≡ command_why (realm_of book.now) command.now }
{
    why_if(command_reason(book, passed, command))
}

/// Why this line was refused, if of each event the line is known that recorded it.
#[derive(Clone, Copy)]
pub(crate) struct ShownWhy<'a> {
    pub(crate) lines: &'a [u64],
    pub(crate) line: &'a [u8],
    pub(crate) why: Why,
}

impl fmt::Display for ShownWhy<'_> {
    fn fmt<W: fmt::Write>(&self, f: &mut fmt::Formatter<W>) -> fmt::Result {
        let line = self.line;
        match self.why {
            Why::Refused(reason) => {
                let lines = self.lines;
                write!(f, "{}", ShownReason { reason, lines })
            }
            Why::BadWord(Some(fault)) => write!(f, "{}", ShownFault { line, fault }),
            Why::BadWord(None) => write!(f, "the line is not a command"),
            Why::Cut => write!(f, "the line does not end with a line feed"),
        }
    }
}
