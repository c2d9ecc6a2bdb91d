//! What is made of a check that fails: its refusal, or the check itself for who explains it.

ghost use Rattle.std.specs.Prelude.{◌≡◌};
ghost use Rattle.scope_checks.specs.{refusal_of};

use scope_rules::Failed;
use scope_rules::types::refusals::Refusal;

/// What a call gives whose check fails. The table of checks is one for all of these.
pub trait FromFailed: Sized {
    ghost use Rattle.scope_rules.specs.declared.types.checks.Failed.{Failed};

    /// What is made of the check that failed.
    ghost made: { Failed → Self };

    /// The same.
    fn from_failed(failed: Failed) -> Self
        ensures { result ≡ made failed };
}

impl FromFailed for Refusal {
    ghost made = { refusal_of };

    fn from_failed(failed: Failed) -> Refusal {
        failed.refusal()
    }
}

impl FromFailed for Failed {
    ghost made = { λ failed. failed };

    fn from_failed(failed: Failed) -> Failed {
        failed
    }
}
