//! The rows.

use scope_rules::types::records::Opening;
use scope_rules::{Counts, ScopeId, Stage, State};

/// The row of a scope.
#[derive(Clone, Copy)]
pub struct ScopeRow {
    pub opening: Opening,
    /// The scope around it.
    pub parent: Option<ScopeId>,
    /// The innermost unclosed scope that its owner had when it opened this one.
    pub below: Option<ScopeId>,
    /// How many own pairs its owner had then.
    pub height: usize,
    /// The place of its join.
    pub joined: Option<usize>,
    /// Whether the beginning of a close covers it.
    pub closing: bool,
    pub closed: bool,
    /// Whether its own close was begun while its owner had later scopes that were not closed.
    pub violated: bool,
    /// How many of its tasks are at each stage.
    pub counts: Counts,
}

/// The row of a task. What else its fork said is in the history alone.
#[derive(Clone, Copy)]
pub struct TaskRow {
    /// The scope that it was forked in.
    pub scope: ScopeId,
    /// The place of its fork among the events since the base.
    pub place: u32,
    /// The latest scope that it opened and has not closed, or 0.
    pub innermost: ScopeId,
    pub stage: Stage,
    pub state: State,
}

// It takes no more, since a realm keeps one for each task that was ever forked.
const _: () = prove!(size_of::<TaskRow>() <= 56);
