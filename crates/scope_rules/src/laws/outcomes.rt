//! Laws of outcomes. Each function does nothing: its contract is the law.

ghost use Rattle.scope_rules.specs.{OutcomeStays, ReadIsJoined};

/// An outcome never changes once it is set.
pub fn outcome_stays()
    ensures { OutcomeStays }
{}

/// A value or a fault is read only of a task whose scope is joined.
pub fn what_is_read_was_joined()
    ensures { ReadIsJoined }
{}
