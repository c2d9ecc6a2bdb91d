//! What is answered if a command is performed: one answer for every command.

ghost use Rattle.std.specs.Prelude.{◌≡◌};
ghost use Rattle.scope_checks.specs.{noting, records};

use scope_rules::types::answers::{Cancelling, ForkReply, Verdict};
use scope_rules::types::refusals::Refusal;
use scope_rules::types::values::ScopeId;

/// What an accepted command answers.
#[derive(Clone, Copy)]
pub enum EventReply {
    /// An open: the number of the scope.
    Scope(ScopeId),
    /// A fork: the number of the task, and whether it gets a thread.
    Task(ForkReply),
    /// A cancel, or the beginning of a close: it is recorded.
    Recorded,
    /// The same: all was so already, and nothing is recorded.
    Already,
    /// The end of a close: how the scope was closed.
    Closed(Verdict),
    /// Any other command: it is recorded, and there is no more to say.
    Done,
}

/// What an accepted command answers, and what its event costs, in units of load, unless all was so already.
#[derive(Clone, Copy)]
pub struct Accepted {
    pub reply: EventReply,
    pub load: u64,
}

impl EventReply {
    /// What a cancel, or the beginning of a close, answers.
    pub fn noting(self) -> Cancelling
        ensures { result ≡ noting self }
    {
        match self {
            EventReply::Already => Cancelling::Already,
            _ => Cancelling::Recorded,
        }
    }
}

/// Whether the command that answered this recorded its event.
pub fn records(performed: &Result<EventReply, Refusal>) -> bool
    ensures { result ≡ records performed.now }
{
    match performed {
        Ok(EventReply::Already) | Err(_) => false,
        Ok(_) => true,
    }
}
