//! What a join would give.

use crate::log::ScopeLog;
use scope_rules::Outcome;

/// What a join of a scope would give.
#[derive(Drop)]
pub struct Preview {
    /// What the join would answer.
    pub outcome: Outcome,
    /// The log of the scope, with the join at its end.
    pub log: ScopeLog,
}
