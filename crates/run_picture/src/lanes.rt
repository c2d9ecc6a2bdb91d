//! What a row draws: a task, a scope, or a closed scope with all that lies in it.

use crate::chart::{
    Chart, Drawn, Subject, end_x, never_starts, number_of, row_y, subject_of, unit_end, unit_word,
    x_of,
};
use crate::columns::{ScopeRow, TaskRow};
use crate::marks::{Mark, append_mark, is_accident};
use crate::rows::{Folded, Row};
use crate::view::{small_place, time_at};
use scope_log::{ShownJoiner, ShownOptions};
use scope_rules::{Cause, ScopeId, State, TaskId};
use std::alloc::AllocError;

/// What there is to say of a stretch of a row.
#[derive(Clone, Copy)]
enum Fate {
    /// A scope is open.
    Open,
    /// A scope is cancelled.
    Cancelled(Cause),
    /// A scope is closing.
    Closing,
    /// So much lies in a closed scope.
    Folded(Folded),
    /// So many tasks are behind the first one: all of its scope, or those that ended like it.
    More(Folded),
    /// A task waits for its thread.
    Waits,
    /// A task runs.
    Runs,
    /// A task ended.
    Ended(State),
}

// ---- words

/// Appends the task, with its name and the scope that it was forked in; or the scope, with its owner, its joiner and its
/// options.
fn append_subject(text: &mut String, subject: Subject) -> Result<(), AllocError> {
    match subject {
        Subject::Task(task, row) => {
            let name = row.forked.label.name;
            write!(text, "task {task} {name} in scope {}", row.forked.scope)
        },
        Subject::Scope(scope, row) => {
            write!(text, "scope {scope}")?;
            if row.opened.actor > 0 {
                write!(text, " of task {}", row.opened.actor)?;
            }
            let joiner = ShownJoiner(row.opened.policy);
            let options = ShownOptions(row.opened.options);
            write!(text, " {joiner}{options}")
        },
    }
}

/// Appends what lies in a folded row.
fn append_folded(text: &mut String, folded: Folded) -> Result<(), AllocError> {
    write!(text, " ({} tasks, {} failed", folded.tasks, folded.failed)?;
    if folded.unended > 0 {
        write!(text, ", {} not ended", folded.unended)?;
    }
    text.push_str(")")
}

/// Appends by which cancel a scope is cancelled.
pub(crate) fn append_cause(text: &mut String, cause: Cause) -> Result<(), AllocError> {
    let kind = cause.kind.word();
    write!(text, " cancelled from scope {}, {kind}", cause.scope)
}

/// Appends how a task ended, by what can be read of it.
pub(crate) fn append_state(text: &mut String, state: State) -> Result<(), AllocError> {
    match state {
        State::Unavailable => text.push_str(" ended, unavailable"),
        State::Success(value) => write!(text, " succeeded with {value}"),
        State::Failed(fault) => write!(text, " failed with {fault}"),
    }
}

/// Appends what there is to say.
fn append_fate(text: &mut String, fate: Fate) -> Result<(), AllocError> {
    match fate {
        Fate::Open => Ok(()),
        Fate::Cancelled(cause) => append_cause(text, cause),
        Fate::Closing => text.push_str(" closing"),
        Fate::Folded(folded) => append_folded(text, folded),
        Fate::More(folded) => {
            text.push_str(" and more")?;
            append_folded(text, folded)
        },
        Fate::Waits => text.push_str(" waits"),
        Fate::Runs => text.push_str(" runs"),
        Fate::Ended(state) => append_state(text, state),
    }
}

/// How long it lasts from the one place to the other, or else to the last reading of the clock, if there are times.
fn lasting_of(drawn: &Drawn<'_>, from: usize, to: Option<usize>) -> u64 {
    let last = match to {
        Some(place) => small_place(place),
        None => u32::MAX,
    };
    time_at(drawn.times, last).saturating_sub(time_at(drawn.times, small_place(from)))
}

/// Appends from which place to which, and how long that lasts.
fn append_span(
    text: &mut String,
    drawn: &Drawn<'_>,
    from: usize,
    to: Option<usize>,
) -> Result<(), AllocError> {
    let unit = unit_end(drawn);
    write!(
        text,
        ", {}{}{unit}",
        unit_word(drawn),
        number_of(drawn, from)
    )?;
    match to {
        Some(place) => write!(text, " to {}{unit}", number_of(drawn, place))?,
        None => text.push_str(" on")?,
    }
    if !drawn.times.is_empty() {
        write!(text, " ({} ms)", lasting_of(drawn, from, to))?;
    }
    text.push_str(":")
}

// ---- figures

/// Appends the label of the row, so deep, which says all where it is pointed at, even if the picture cuts it off.
fn append_label(
    text: &mut String,
    depth: u32,
    y: u64,
    subject: Subject,
    fate: Fate,
) -> Result<(), AllocError> {
    let class = match subject {
        Subject::Task(..) => "task",
        Subject::Scope(..) => "scope",
    };
    let x = 8 + 10 * depth.min(12);
    let y = y.saturating_add(4);
    write!(text, "<text class='{class}' x='{x}' y='{y}'>")?;
    append_subject(text, subject)?;
    append_fate(text, fate)?;
    text.push_str("<title>")?;
    append_subject(text, subject)?;
    append_fate(text, fate)?;
    text.push_str("</title></text>\n")
}

/// Where a bar stands: its row, and from which place to which, or else to the right edge.
#[derive(Clone, Copy)]
struct Site {
    y: u64,
    from: usize,
    to: Option<usize>,
}

/// Appends a bar, with what is read where it is pointed at.
fn append_bar(
    text: &mut String,
    chart: &Chart<'_>,
    site: Site,
    class: &str,
    subject: Subject,
    fate: Fate,
) -> Result<(), AllocError> {
    let left = x_of(chart, site.from);
    let right = end_x(chart, site.to);
    let y = site.y;
    write!(
        text,
        "<path class='{class}' d='M{left} {y}H{right}'><title>"
    )?;
    append_subject(text, subject)?;
    append_span(text, &chart.drawn, site.from, site.to)?;
    append_fate(text, fate)?;
    text.push_str("</title></path>\n")
}

// ---- tasks

/// Appends the bar of the task from its start on, if it got its thread.
fn append_running(
    text: &mut String,
    chart: &Chart<'_>,
    y: u64,
    task: TaskId,
    row: TaskRow,
) -> Result<(), AllocError> {
    let Some(from) = row.started else {
        return Ok(());
    };
    let (class, fate) = match (row.ended, row.state) {
        (None, _) => ("running", Fate::Runs),
        (Some(_), State::Success(_)) => ("done", Fate::Ended(row.state)),
        (Some(_), State::Failed(_)) => ("failed", Fate::Ended(row.state)),
        (Some(_), State::Unavailable) => ("lost", Fate::Ended(row.state)),
    };
    let site = Site {
        y,
        from,
        to: row.ended,
    };
    append_bar(text, chart, site, class, Subject::Task(task, row), fate)
}

/// Appends that the task never starts, if it was forked under a cancel; or else how it waits and runs, and its end.
fn append_task(
    text: &mut String,
    chart: &Chart<'_>,
    y: u64,
    task: TaskId,
    row: TaskRow,
) -> Result<(), AllocError> {
    if never_starts(&row) {
        return append_mark(text, chart, row.forked.place, y, Mark::Never(task));
    }
    let site = Site {
        y,
        from: row.forked.place,
        to: row.started.or(row.ended),
    };
    let subject = Subject::Task(task, row);
    append_bar(text, chart, site, "waiting", subject, Fate::Waits)?;
    append_running(text, chart, y, task, row)?;
    match (row.ended, row.started) {
        (Some(place), Some(_)) => {
            append_mark(text, chart, place, y, Mark::Ended(task, row.state))
        },
        (Some(place), None) => append_mark(text, chart, place, y, Mark::Never(task)),
        (None, _) => Ok(()),
    }
}

// ---- scopes

/// Appends the band of the scope from where it became cancelled on, if it did.
fn append_cancelled(
    text: &mut String,
    chart: &Chart<'_>,
    y: u64,
    subject: Subject,
    row: &ScopeRow,
) -> Result<(), AllocError> {
    let Some((from, cause)) = row.cancelled else {
        return Ok(());
    };
    let class = if is_accident(chart, from, cause) {
        "cancelled"
    } else {
        "settled"
    };
    let site = Site {
        y,
        from,
        to: row.closed,
    };
    append_bar(text, chart, site, class, subject, Fate::Cancelled(cause))
}

/// Appends the band of the scope from its opening on, and from where it is cancelled, and closing; or with all that lies in it.
fn append_scope(
    text: &mut String,
    chart: &Chart<'_>,
    y: u64,
    scope: ScopeId,
    row: ScopeRow,
    folded: Option<Folded>,
) -> Result<(), AllocError> {
    let subject = Subject::Scope(scope, row);
    let site = Site {
        y,
        from: row.opened.place,
        to: row.closed,
    };
    if let Some(folded) = folded {
        let class = if folded.failed > 0 {
            "fallen"
        } else {
            "folded"
        };
        return append_bar(text, chart, site, class, subject, Fate::Folded(folded));
    }
    let class = if row.closed.is_some() { "shut" } else { "open" };
    append_bar(text, chart, site, class, subject, Fate::Open)?;
    append_cancelled(text, chart, y, subject, &row)?;
    match row.closing {
        Some(from) => {
            let site = Site {
                y,
                from,
                to: row.closed,
            };
            append_bar(text, chart, site, "closing", subject, Fate::Closing)
        },
        None => Ok(()),
    }
}

/// What the label of a row says beside what it is of: what lies in it.
fn row_fate(subject: Subject, folded: Option<Folded>) -> Fate {
    match (subject, folded) {
        (Subject::Scope(..), Some(folded)) => Fate::Folded(folded),
        (Subject::Task(..), Some(folded)) if folded.tasks > 0 => Fate::More(folded),
        _ => Fate::Open,
    }
}

/// Appends what the row draws. It is refused for memory alone.
pub(crate) fn append_row(
    text: &mut String,
    chart: &Chart<'_>,
    index: u32,
    row: Row,
) -> Result<(), AllocError> {
    let Some(subject) = subject_of(&chart.columns, row.node) else {
        return Ok(());
    };
    let y = row_y(index);
    append_label(text, row.depth, y, subject, row_fate(subject, row.folded))?;
    match subject {
        Subject::Task(task, it) => append_task(text, chart, y, task, it),
        Subject::Scope(scope, it) => append_scope(text, chart, y, scope, it, row.folded),
    }
}
