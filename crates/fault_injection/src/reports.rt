//! What a report must show of each task.

use scope_log::{LogEntry, ScopeLog};
use scope_rules::{End, Fault, TaskId};

/// How often the task was rejected, started and ended, and how it ended last.
fn runs_of(log: &ScopeLog, its: TaskId) -> (u32, u32, u32, Option<End>) {
    let mut rejects = 0u32;
    let mut starts = 0u32;
    let mut ends = 0u32;
    let mut last = None;
    for entry in log.entries() {
        match entry {
            LogEntry::Reject { task } if *task == its => rejects = rejects.saturating_add(1),
            LogEntry::Start { task } if *task == its => starts = starts.saturating_add(1),
            LogEntry::Finish { task, end } if *task == its => {
                ends = ends.saturating_add(1);
                last = Some(*end);
            }
            _ => {}
        }
    }
    (rejects, starts, ends, last)
}

/// Whether the fault is that of a job that left a scope open.
fn is_left_open(fault: &Fault) -> bool {
    fault.0.as_bytes() == b"left-open".as_slice()
}

/// Whether each task of the log ended once, after one start, as its label says or because a scope was left open;
/// or was rejected, or let go at its fork, and never ran.
pub fn is_whole(log: &ScopeLog) -> bool {
    for entry in log.entries() {
        if let LogEntry::Fork { task, label, .. } = entry {
            let is_right = match runs_of(log, *task) {
                (0, 1, 1, Some(Err(fault))) => is_left_open(&fault),
                (0, 1, 1, end) => end == label.due,
                (_, starts, ends, _) => starts == 0 && ends == 0,
            };
            if !is_right {
                return false;
            }
        }
    }
    true
}
