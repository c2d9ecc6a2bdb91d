//! Laws of the log of a scope, for every legal history. Each function does nothing: its contract is the
//! law.

ghost use Rattle.scope_log.specs.{JoinsGoByLogs, LogGrows, LogTellsCause, LogTellsCompletions, LogTellsCounts, LogTellsNext, LogTellsOutcome, LogTellsReady, LogTellsSettled, LogTellsStages, LogTellsStates, LogTellsTasks};
ghost use Rattle.scope_log.specs.{LogsAreMarked, LogsAreShort};

/// An accepted event adds its entry to the log of its scope, and the mark to the log of each scope that
/// it cancels; all else stays.
pub fn logs_grow_by_events()
    ensures { LogGrows }
{}

/// The mark of a log is after the entries up to the event by which its scope became cancelled, and
/// before all later ones; the log of a scope that wasn't cancelled has none.
pub fn marks_stand_at_cancels()
    ensures { LogsAreMarked }
{}

/// A log has one entry more than its history has events, at the most.
pub fn logs_are_short()
    ensures { LogsAreShort }
{}

/// A log tells why its scope is cancelled.
pub fn logs_tell_causes()
    ensures { LogTellsCause }
{}

/// A log has the tasks of its scope in fork order, and tells how far each came and what can be read of
/// it, and which completed.
#[tactic(auto, using(crate::proofs::LogTells::tells_tasks, crate::proofs::LogTells::tells_stages, crate::proofs::LogTells::tells_states, crate::proofs::LogTells::tells_completions))]
pub fn logs_tell_tasks()
    ensures tasks { LogTellsTasks }
    ensures stages { LogTellsStages }
    ensures states { LogTellsStates }
    ensures completions { LogTellsCompletions }
{}

/// A log tells how many tasks of its scope are at each stage, whether none waits or runs, and whether
/// the scope may be joined.
#[tactic(auto, using(crate::proofs::LogTells::tells_counts, crate::proofs::LogTells::tells_settled, crate::proofs::LogTells::tells_ready))]
pub fn logs_tell_counts()
    ensures counts { LogTellsCounts }
    ensures settled { LogTellsSettled }
    ensures ready { LogTellsReady }
{}

/// A log tells what the join of its scope answered, and what a join would answer next.
pub fn logs_tell_outcomes()
    ensures joined { LogTellsOutcome }
    ensures next { LogTellsNext }
{}

/// A join answers what the log of its scope told before it, and adds itself to that log, and nothing
/// else.
pub fn joins_go_by_logs()
    ensures { JoinsGoByLogs }
{}
