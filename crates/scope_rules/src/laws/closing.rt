//! What closing leaves. Each function does nothing: its contract is the law.

ghost use Rattle.scope_rules.specs.{ClosedScopeIsWhole, NothingRunsWithoutAScopeOfMain, ViolatedIfItCoveredAnother};

/// None of the tasks of a closed scope waits or runs, and each scope inside it is closed, at any
/// depth and behind shields too.
pub fn closed_scopes_are_whole()
    ensures { ClosedScopeIsWhole }
{}

/// If main has no scope that isn't closed, no task waits or runs.
pub fn nothing_runs_without_a_scope_of_main()
    ensures { NothingRunsWithoutAScopeOfMain }
{}

/// A scope was closed out of order (`Violated`) exactly if its own close, as it began, covered another
/// scope.
pub fn violated_closes_covered_another()
    ensures { ViolatedIfItCoveredAnother }
{}
