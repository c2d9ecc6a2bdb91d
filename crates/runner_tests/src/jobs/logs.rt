//! What a log says of the tasks of its scope.

use scope_log::{LogEntry, ScopeLog};
use scope_rules::{End, TaskId, Value};

/// How many starts and ends of tasks the log has.
pub fn starts_and_ends(log: &ScopeLog) -> (u64, u64) {
    let mut starts = 0u64;
    let mut ends = 0u64;
    for entry in log.entries() {
        match entry {
            LogEntry::Start { .. } => starts = starts.saturating_add(1),
            LogEntry::Finish { .. } => ends = ends.saturating_add(1),
            _ => {}
        }
    }
    (starts, ends)
}

/// The tasks of the first and the last end, or 0.
pub fn order_of_ends(log: &ScopeLog) -> (TaskId, TaskId) {
    let mut first = 0;
    let mut last = 0;
    for entry in log.entries() {
        if let LogEntry::Finish { task, .. } = entry {
            if first == 0 {
                first = *task;
            }
            last = *task;
        }
    }
    (first, last)
}

/// Whether a task ended with the number, after the scope had become cancelled.
pub fn ends_after_cancel(log: &ScopeLog, number: i64) -> bool {
    let mut cancelled = false;
    for entry in log.entries() {
        match entry {
            LogEntry::Cancelled(_) => cancelled = true,
            LogEntry::Finish { end, .. } => {
                return cancelled && *end == Ok(Value::Num(number));
            }
            _ => {}
        }
    }
    false
}

/// How the task ended, if the log has that.
pub fn end_of(log: &ScopeLog, its: TaskId) -> Option<End> {
    for entry in log.entries() {
        if let LogEntry::Finish { task, end } = entry
            && *task == its
        {
            return Some(*end);
        }
    }
    None
}

/// Whether the scope's close is the last that the log has.
pub fn is_closed(log: &ScopeLog) -> bool {
    matches!(log.entries().last(), Some(LogEntry::EndClose { .. }))
}
