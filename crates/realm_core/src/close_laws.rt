//! Laws of what a close shows, for every legal history. Each function does nothing: its contract is the
//! law.

ghost use Rattle.realm_core.specs.{LogsShowRuns};

/// Of each task that has ended, the log of its scope has one start and then one finish, with its end.
#[tactic(auto, using(crate::proofs::LogRuns::runs_shown))]
pub fn logs_show_runs()
    ensures { LogsShowRuns }
{}
