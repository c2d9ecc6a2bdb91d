//! What is drawn of a run: its columns, the rows, and where something stands.
ghost use Rattle.std.specs.Prelude.{◌<◌, ◌≡◌};

use crate::columns::{Columns, ScopeRow, TaskRow, columns_of};
use crate::placed::{Placed, nothings, placed_of, scope_at};
use crate::rows::{Row, rows_of};
use crate::view::{View, natural_width, small_place, time_at};
use scope_checks::Readings;
use scope_rules::{Event, ScopeId, Stage, TaskId};
use std::alloc::{AllocError, Global};

/// What is drawn: the events, with the line of the script of each and its time, if these are known.
#[derive(Clone, Copy)]
pub struct Drawn<'a> {
    pub events: &'a [Event],
    /// By event, the line of the script that it came from. What has none is counted from 1.
    pub lines: &'a [u32],
    /// By event, the time in milliseconds. If there are none, places stand for them.
    pub times: &'a [u32],
    pub view: View,
}

/// What is kept of a run while it is drawn.
#[derive(Drop)]
pub(crate) struct Chart<'a> {
    pub(crate) drawn: Drawn<'a>,
    pub(crate) columns: Columns,
    pub(crate) rows: Vec<Row>,
    /// By node, its row, unless it lies in another.
    shown: Vec<Option<u32>>,
    /// How many events there are.
    pub(crate) places: u32,
    /// How many rows there are.
    pub(crate) height: u32,
}

/// What a row is of.
#[derive(Clone, Copy)]
pub(crate) enum Subject {
    Task(TaskId, TaskRow),
    Scope(ScopeId, ScopeRow),
}

/// What the node is: first come the tasks, then the scopes.
pub(crate) fn subject_of(columns: &Columns, node: u32) -> Option<Subject> {
    let index = node as usize;
    if let Some(row) = columns.tasks.get(index) {
        let task = columns.tasks_before.saturating_add(node).saturating_add(1);
        return Some(Subject::Task(task, *row));
    }
    let index = index.saturating_sub(columns.tasks.len());
    let row = columns.scopes.get(index)?;
    Some(Subject::Scope(scope_number(columns, index), *row))
}

/// The number of the scope in the row with this index.
pub(crate) fn scope_number(columns: &Columns, index: usize) -> ScopeId {
    let before = columns.scopes_before.saturating_add(1);
    before.saturating_add(small_place(index))
}

/// Whether the task was forked under a cancel, so that it never starts.
pub(crate) fn never_starts(row: &TaskRow) -> bool {
    matches!(row.stage, Stage::Never) && row.ended.is_none()
}

// ---- rows

/// What is in view: if one scope alone is drawn, what lasts or happens between its opening and its close.
fn focused_view(columns: &Columns, view: View) -> View {
    let Some(scope) = view.scope else {
        return view;
    };
    let Some(row) = scope_at(columns, scope) else {
        return view;
    };
    let last = match row.closed {
        Some(place) => small_place(place),
        None => u32::MAX,
    };
    View {
        width: view.width,
        rows: view.rows,
        from: view.from.max(small_place(row.opened.place)),
        to: view.to.min(last),
        scope: view.scope,
    }
}

/// Whether the node is in view between its beginning and its end.
fn is_seen(columns: &Columns, view: View, node: u32) -> bool {
    match subject_of(columns, node) {
        Some(Subject::Task(_, row)) if never_starts(&row) => {
            view.meets(row.forked.place, Some(row.forked.place))
        },
        Some(Subject::Task(_, row)) => view.meets(row.forked.place, row.ended),
        Some(Subject::Scope(_, row)) => view.meets(row.opened.place, row.closed),
        None => false,
    }
}

/// Whether the node is the scope with this number.
fn is_scope(columns: &Columns, node: u32, scope: ScopeId) -> bool {
    match subject_of(columns, node) {
        Some(Subject::Scope(number, _)) => number == scope,
        _ => false,
    }
}

/// The nodes that are in view: all, or those of one scope. It is refused for memory alone.
fn seen_of(
    alloc: Global,
    columns: &Columns,
    placed: &[Placed],
    view: View,
) -> Result<Vec<Placed>, AllocError> {
    let mut seen = Vec::new(alloc);
    // How deep the scope lies, once it was found.
    let mut top = None;
    for one in placed {
        match (view.scope, top) {
            (Some(scope), None) if is_scope(columns, one.node, scope) => top = Some(one.depth),
            (Some(_), None) => continue,
            (Some(_), Some(depth)) if one.depth <= depth => break,
            _ => {},
        }
        if is_seen(columns, view, one.node) {
            let depth = one.depth.saturating_sub(top.unwrap_or(0));
            seen.push(Placed {
                node: one.node,
                depth,
            })?;
        }
    }
    Ok(seen)
}

/// The rows by node. It is refused for memory alone.
fn shown_of(
    alloc: Global,
    rows: &[Row],
    columns: &Columns,
) -> Result<Vec<Option<u32>>, AllocError> {
    let count = columns.tasks.len().saturating_add(columns.scopes.len());
    let mut shown = nothings(alloc, count)?;
    for (index, row) in rows.iter().enumerate() {
        let node = row.node as usize;
        if row.folded.is_none() && node < shown.len() {
            shown[node] = Some(small_place(index));
        }
    }
    Ok(shown)
}

/// The chart of what was read. It is refused for memory alone; of 2^31 events or nodes, which no realm has, it asks
/// none, and is refused too.
pub(crate) fn chart_of<'a, R: Readings>(
    alloc: Global,
    readings: &R,
    drawn: Drawn<'a>,
) -> Result<Chart<'a>, AllocError>
    requires { drawn.events.now ≡ (R.history readings.now).events }
{
    let Ok(places) = u32::try_from(drawn.events.len()) else {
        return Err(AllocError);
    };
    let columns = columns_of(alloc, readings, drawn.events)?;
    let view = focused_view(&columns, drawn.view);
    let placed = placed_of(alloc, &columns)?;
    let seen = seen_of(alloc, &columns, &placed, view)?;
    if seen.len() >= 1 << 31 {
        return Err(AllocError);
    }
    let rows = rows_of(alloc, &columns, &seen, view.rows)?;
    let shown = shown_of(alloc, &rows, &columns)?;
    let height = small_place(rows.len());
    let drawn = Drawn {
        events: drawn.events,
        lines: drawn.lines,
        times: drawn.times,
        view,
    };
    Ok(Chart {
        drawn,
        columns,
        rows,
        shown,
        places,
        height,
    })
}

// ---- sites

/// The row's middle, from above.
pub(crate) fn row_y(row: u32) -> u64
    ensures { result < 100000000000 }
{
    84 + 22 * u64::from(row)
}

/// The row of the scope, unless it is not drawn or lies in another.
pub(crate) fn scope_row(chart: &Chart<'_>, scope: ScopeId) -> Option<u32> {
    scope_at(&chart.columns, scope)?;
    let index = scope - chart.columns.scopes_before - 1;
    let node = chart.columns.tasks.len().saturating_add(index as usize);
    *chart.shown.get(node)?
}

/// The time at which the view begins.
pub(crate) fn first_time(chart: &Chart<'_>) -> u64
    ensures { result < 4294967296 }
{
    let view = chart.drawn.view;
    time_at(chart.drawn.times, view.from.min(view.to.min(chart.places)))
}

/// How long the view lasts.
pub(crate) fn span_time(chart: &Chart<'_>) -> u64
    ensures { result < 4294967296 }
{
    let last = time_at(chart.drawn.times, chart.drawn.view.to.min(chart.places));
    last.saturating_sub(first_time(chart))
}

/// How far from the left the time stands.
pub(crate) fn x_by(chart: &Chart<'_>, time: u64) -> u64 {
    let span = span_time(chart);
    let far = time.saturating_sub(first_time(chart)).min(span);
    let width = natural_width(chart.drawn.view.width, chart.height).saturating_sub(280);
    256u64.saturating_add(far.saturating_mul(width) / span.max(1))
}

/// How far from the left the event at the place stands.
pub(crate) fn x_of(chart: &Chart<'_>, place: usize) -> u64 {
    let last = chart.drawn.view.to.min(chart.places);
    let first = chart.drawn.view.from.min(last);
    let seen = small_place(place).max(first).min(last);
    x_by(chart, time_at(chart.drawn.times, seen))
}

/// How far from the left it ends, if it ends at a place, or else the right edge.
pub(crate) fn end_x(chart: &Chart<'_>, place: Option<usize>) -> u64 {
    match place {
        Some(place) => x_of(chart, place),
        None => x_of(chart, chart.places as usize),
    }
}

/// The time of the event at the place, or the number of its line, or its own.
pub(crate) fn number_of(drawn: &Drawn<'_>, place: usize) -> u64 {
    let column = small_place(place);
    if !drawn.times.is_empty() {
        return time_at(drawn.times, column);
    }
    match drawn.lines.get(column as usize) {
        Some(line) => u64::from(*line),
        None => u64::from(column) + 1,
    }
}

/// What is counted: milliseconds if there are times, or else lines if these are known, or else events.
pub(crate) fn unit_word(drawn: &Drawn<'_>) -> &'static str {
    if !drawn.times.is_empty() {
        ""
    } else if !drawn.lines.is_empty() {
        "line "
    } else {
        "event "
    }
}

/// The unit behind a number.
pub(crate) fn unit_end(drawn: &Drawn<'_>) -> &'static str {
    if drawn.times.is_empty() { "" } else { " ms" }
}
