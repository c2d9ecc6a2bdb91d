//! Laws that hold of every history, above the definitions. Each function does nothing: its contract
//! is the law.

ghost use Rattle.scope_rules.specs.{CauseStays, ChainGoesOutwards, EffectiveIsLeast, FirstCancelIsEarliest, NumbersNeverFall, OuterIsSmaller, OwnCancelGrows, OwnCancelStays, ScopeNumberGivenOnce, ScopeNumberStays};
ghost use Rattle.scope_rules.specs.{TaskNumberGivenOnce, TaskNumberStays};

pub mod bindings;
pub mod closing;
pub mod levels;
pub mod outcomes;

/// An own cancel never moves once it is set. One event more gives an own cancel to a scope that had
/// none, or leaves it as it was.
pub fn own_cancel_stays()
    ensures stays { OwnCancelStays }
    ensures grows { OwnCancelGrows }
{}

/// The cause of a scope is the own cancel of a member of its chain: none on the chain is earlier, and
/// those nearer are later, so the nearest wins a tie.
pub fn cause_is_earliest()
    ensures { FirstCancelIsEarliest }
{}

/// The deadline in effect for a scope is the least that counts on its chain: none does if it is never,
/// and it is past exactly if the scope is cancelled.
pub fn least_deadline_is_in_effect()
    ensures { EffectiveIsLeast }
{}

/// The chain of a scope is the scope and the chain of its outer scope, whose number is smaller.
pub fn chain_goes_outwards()
    ensures chain { ChainGoesOutwards }
    ensures smaller { OuterIsSmaller }
{}

/// A cancelled scope stays cancelled, with its cause.
pub fn cause_stays()
    ensures { CauseStays }
{}

/// Numbers of scopes and tasks are given once, stay with their events, and never fall.
#[tactic(auto, using(crate::proofs::Growing::numbers_grow, crate::proofs::Growing::opening_stays, crate::proofs::Growing::forking_stays, crate::proofs::Growing::opening_once, crate::proofs::Growing::forking_once))]
pub fn numbers_are_given_once()
    ensures never_fall { NumbersNeverFall }
    ensures scope_stays { ScopeNumberStays }
    ensures task_stays { TaskNumberStays }
    ensures scope_once { ScopeNumberGivenOnce }
    ensures task_once { TaskNumberGivenOnce }
{}
