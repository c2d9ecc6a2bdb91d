//! What was told of a command, in the form of the call that asked for it.

ghost use Rattle.std.specs.Prelude.{◌≡◌};
ghost use Rattle.realm_core.specs.{Calls.noted, done};

use scope_checks::EventReply;
use scope_rules::{Cancelling, Refusal};

/// That it was done, if there is no more to say.
pub fn reply_done(performed: Result<EventReply, Refusal>) -> Result<(), Refusal>
    ensures { result ≡ done performed }
{
    match performed {
        Ok(_) => Ok(()),
        Err(refusal) => Err(refusal),
    }
}

/// What a cancel, or the beginning of a close, did.
pub fn reply_noted(performed: Result<EventReply, Refusal>) -> Result<Cancelling, Refusal>
    ensures { result ≡ noted performed }
{
    match performed {
        Ok(told) => Ok(told.noting()),
        Err(refusal) => Err(refusal),
    }
}
