//! The marks of a picture: what happened at an event.

use crate::chart::{Chart, number_of, row_y, scope_row, unit_end, unit_word, x_of};
use crate::columns::ScopeRow;
use crate::lanes::{append_cause, append_state};
use crate::placed::scope_at;
use crate::shields::held_off;
use scope_rules::types::answers::CauseKind;
use scope_rules::types::joiners::{Policy, Rule};
use scope_rules::{Cause, Event, ScopeId, State, TaskId};
use std::alloc::AllocError;

/// What happened at an event.
#[derive(Clone, Copy)]
pub(crate) enum Mark {
    /// The task ended, and so much can be read of it.
    Ended(TaskId, State),
    /// The task gets no thread.
    Never(TaskId),
    /// The scope was joined.
    Joined(ScopeId),
    /// The scope's close began.
    Closing(ScopeId),
    /// The scope was closed.
    Closed(ScopeId),
    /// The scope's deadline was set anew, or taken away.
    Moved(ScopeId, Option<u64>),
    /// The scope became cancelled, by an accident or not.
    Cancelled(ScopeId, Cause, bool),
    /// The scope's shield held off the cancel of another scope around it.
    Held(ScopeId, ScopeId),
}

/// The mark's name among the picture's shapes.
fn shape_of(mark: Mark) -> &'static str {
    match mark {
        Mark::Ended(_, state) => state.word(),
        Mark::Never(_) => "never",
        Mark::Joined(_) => "joined",
        Mark::Closing(_) => "began",
        Mark::Closed(_) => "closed",
        Mark::Moved(..) => "moved",
        Mark::Cancelled(_, _, false) => "settled",
        Mark::Cancelled(scope, cause, true) if cause.scope == scope => "cancel",
        Mark::Cancelled(..) => "reached",
        Mark::Held(..) => "shield",
    }
}

/// Appends what the mark says.
fn append_note(text: &mut String, mark: Mark) -> Result<(), AllocError> {
    match mark {
        Mark::Ended(task, state) => {
            write!(text, "task {task}")?;
            append_state(text, state)
        },
        Mark::Never(task) => write!(text, "task {task} never starts"),
        Mark::Joined(scope) => write!(text, "scope {scope} is joined"),
        Mark::Closing(scope) => write!(text, "scope {scope} begins to close"),
        Mark::Closed(scope) => write!(text, "scope {scope} is closed"),
        Mark::Moved(scope, None) => write!(text, "scope {scope} has no deadline"),
        Mark::Moved(scope, Some(moment)) => {
            write!(text, "scope {scope} has the deadline {moment} ms")
        },
        Mark::Cancelled(scope, cause, _) => {
            write!(text, "scope {scope}")?;
            append_cause(text, cause)
        },
        Mark::Held(scope, source) => write!(text, "scope {scope} shielded from scope {source}"),
    }
}

/// Appends the mark at the place, so far from above, if the place is in view. It is refused for memory alone.
pub(crate) fn append_mark(
    text: &mut String,
    chart: &Chart<'_>,
    place: usize,
    y: u64,
    mark: Mark,
) -> Result<(), AllocError> {
    if !chart.drawn.view.shows(place) {
        return Ok(());
    }
    let shape = shape_of(mark);
    let x = x_of(chart, place);
    let word = unit_word(&chart.drawn);
    let number = number_of(&chart.drawn, place);
    let unit = unit_end(&chart.drawn);
    write!(
        text,
        "<use href='#{shape}' x='{x}' y='{y}'><title>{word}{number}{unit}: "
    )?;
    append_note(text, mark)?;
    text.push_str("</title></use>\n")
}

// ---- events

/// The mark that the event leaves at a scope.
fn mark_of(event: Event) -> Option<(ScopeId, Mark)> {
    match event {
        Event::Move { scope, deadline } => Some((scope, Mark::Moved(scope, deadline))),
        Event::Join { scope, .. } => Some((scope, Mark::Joined(scope))),
        Event::BeginClose { scope, .. } => Some((scope, Mark::Closing(scope))),
        Event::EndClose { scope, .. } => Some((scope, Mark::Closed(scope))),
        _ => None,
    }
}

/// Appends the mark of the event at the place, in the row of its scope, if it has one. It is refused for memory alone.
pub(crate) fn append_event(
    text: &mut String,
    chart: &Chart<'_>,
    place: usize,
    event: Event,
) -> Result<(), AllocError> {
    let Some((scope, mark)) = mark_of(event) else {
        return Ok(());
    };
    match scope_row(chart, scope) {
        Some(row) => append_mark(text, chart, place, row_y(row), mark),
        None => Ok(()),
    }
}

/// Appends a line through all rows, if the event at the place is a tick in view, with the moment at its head, if there is
/// room. It is refused for memory alone.
pub(crate) fn append_moment(
    text: &mut String,
    chart: &Chart<'_>,
    place: usize,
    event: Event,
) -> Result<(), AllocError> {
    let Event::Tick { now } = event else {
        return Ok(());
    };
    if !chart.drawn.view.shows(place) {
        return Ok(());
    }
    let x = x_of(chart, place);
    let foot = row_y(chart.height);
    write!(
        text,
        "<path class='tick' d='M{x} 64V{foot}'><title>{now} ms</title></path>\n"
    )?;
    if chart.places <= 120 {
        write!(
            text,
            "<text class='moment' transform='translate({x} 60) rotate(-45)'>{now} ms</text>\n"
        )?;
    }
    Ok(())
}

// ---- cancels

/// Whether a scope of this policy is cancelled by its joiner because tasks failed.
fn fails_by(policy: Policy) -> bool {
    matches!(
        policy,
        Policy::All | Policy::AwaitOk | Policy::Until(Rule::FailuresAtLeast(_))
    )
}

/// Whether the cancel at the place is an accident: a call, a deadline, a joiner that gave up, or a close that came
/// before the join. A joiner that has what it waits for, and the close of a joined scope, are normal ends.
pub(crate) fn is_accident(chart: &Chart<'_>, place: usize, cause: Cause) -> bool {
    let source = scope_at(&chart.columns, cause.scope);
    match (cause.kind, source) {
        (CauseKind::Call | CauseKind::Deadline, _) | (_, None) => true,
        (CauseKind::Joiner, Some(row)) => fails_by(row.opened.policy),
        (CauseKind::Close, Some(row)) => match row.joined {
            Some(at) => place <= at,
            None => true,
        },
    }
}

/// Appends the cancel that reached the scope, if one did in view and the scope has a row: its mark, and a line from the scope
/// whose own cancel it was. It is refused for memory alone.
pub(crate) fn append_cancel(
    text: &mut String,
    chart: &Chart<'_>,
    scope: ScopeId,
    row: &ScopeRow,
) -> Result<(), AllocError> {
    let (Some(reached), Some((place, cause))) = (scope_row(chart, scope), row.cancelled) else {
        return Ok(());
    };
    if !chart.drawn.view.shows(place) {
        return Ok(());
    }
    let x = x_of(chart, place);
    let y = row_y(reached);
    let source = row_y(scope_row(chart, cause.scope).unwrap_or(reached));
    write!(text, "<path class='reach' d='M{x} {source}V{y}'/>\n")?;
    let accident = is_accident(chart, place, cause);
    append_mark(
        text,
        chart,
        place,
        y,
        Mark::Cancelled(scope, cause, accident),
    )
}

/// Appends the mark of the scope's shield, if it held off a cancel. It is refused for memory alone.
pub(crate) fn append_shield(
    text: &mut String,
    chart: &Chart<'_>,
    scope: ScopeId,
    row: &ScopeRow,
) -> Result<(), AllocError> {
    let Some((place, cause)) = held_off(&chart.columns, row) else {
        return Ok(());
    };
    match scope_row(chart, scope) {
        Some(at) => append_mark(
            text,
            chart,
            place,
            row_y(at),
            Mark::Held(scope, cause.scope),
        ),
        None => Ok(()),
    }
}
