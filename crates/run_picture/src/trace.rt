//! The run as Chrome trace events, as JSON.
ghost use Rattle.std.specs.Prelude.{◌≡◌};

use crate::chart::{never_starts, scope_number};
use crate::columns::{Columns, ScopeRow, TaskRow, columns_of};
use crate::placed::scope_at;
use crate::view::{small_place, time_at};
use scope_checks::Readings;
use scope_log::{ShownJoiner, ShownOptions};
use scope_rules::{Actor, Event, ScopeId, TaskId};
use std::alloc::{AllocError, Global};

/// What is traced: how many events, their times, if there are any, and the columns.
#[derive(Clone, Copy)]
struct Traced<'a> {
    places: usize,
    times: &'a [u32],
    columns: &'a Columns,
}

/// The time of the event at the place, in microseconds.
fn micros(times: &[u32], place: usize) -> u64 {
    1000 * time_at(times, small_place(place))
}

/// Appends how the record of what lasts from the one place to the other begins, or else to the last reading of the clock, on the
/// track.
fn append_stretch(
    text: &mut String,
    traced: &Traced<'_>,
    track: Actor,
    from: usize,
    to: Option<usize>,
) -> Result<(), AllocError> {
    let at = micros(traced.times, from);
    let lasts = micros(traced.times, to.unwrap_or(traced.places)).saturating_sub(at);
    write!(
        text,
        ",\n{{\"ph\":\"X\",\"pid\":1,\"tid\":{track},\"ts\":{at},\"dur\":{lasts},\"name\":\""
    )
}

/// Appends how the record of what happens at once at the place begins, on the track.
fn append_point(
    text: &mut String,
    traced: &Traced<'_>,
    track: Actor,
    place: usize,
) -> Result<(), AllocError> {
    let at = micros(traced.times, place);
    write!(
        text,
        ",\n{{\"ph\":\"i\",\"s\":\"t\",\"pid\":1,\"tid\":{track},\"ts\":{at},\"name\":\""
    )
}

// ---- tasks

/// Appends the slice of the task that waits for its thread, or that it never starts.
fn append_wait(
    text: &mut String,
    traced: &Traced<'_>,
    task: TaskId,
    row: &TaskRow,
) -> Result<(), AllocError> {
    let forked = row.forked;
    if never_starts(row) {
        append_point(text, traced, task, forked.place)?;
        return write!(
            text,
            "never starts\",\"args\":{{\"scope\":{}}}}}",
            forked.scope
        );
    }
    let is = match (row.started, row.ended) {
        (Some(_), _) => "started",
        (None, Some(_)) => "rejected",
        (None, None) => "waiting",
    };
    append_stretch(text, traced, task, forked.place, row.started.or(row.ended))?;
    write!(
        text,
        "waits\",\"args\":{{\"scope\":{},\"is\":\"{is}\"}}}}",
        forked.scope
    )
}

/// Appends the task's records: the name of its track, its wait, and its slice, if it got its thread.
fn append_task(
    text: &mut String,
    traced: &Traced<'_>,
    task: TaskId,
    row: &TaskRow,
) -> Result<(), AllocError> {
    let name = row.forked.label.name;
    write!(
        text,
        ",\n{{\"ph\":\"M\",\"pid\":1,\"tid\":{task},\"name\":\"thread_name\",\"args\":{{\"name\":\"task {task} {name}\"}}}}"
    )?;
    append_wait(text, traced, task, row)?;
    let Some(started) = row.started else {
        return Ok(());
    };
    let is = match row.ended {
        Some(_) => row.state.word(),
        None => "running",
    };
    append_stretch(text, traced, task, started, row.ended)?;
    write!(
        text,
        "{name}\",\"args\":{{\"scope\":{},\"is\":\"{is}\"}}}}",
        row.forked.scope
    )
}

// ---- scopes

/// Appends the slice of the scope, and that it begins to close, if it does.
fn append_scope(
    text: &mut String,
    traced: &Traced<'_>,
    scope: ScopeId,
    row: &ScopeRow,
) -> Result<(), AllocError> {
    let opened = row.opened;
    let joiner = ShownJoiner(opened.policy);
    let options = ShownOptions(opened.options);
    let is = if row.closed.is_some() {
        "closed"
    } else {
        "open"
    };
    append_stretch(text, traced, opened.actor, opened.place, row.closed)?;
    write!(
        text,
        "scope {scope} {joiner}{options}\",\"args\":{{\"is\":\"{is}\"}}}}"
    )?;
    let Some(place) = row.closing else {
        return Ok(());
    };
    append_point(text, traced, opened.actor, place)?;
    write!(text, "closing {scope}\"}}")
}

/// Appends that a cancel reached the scope, if one did, and the arrow from the scope whose own cancel it was.
fn append_cancel(
    text: &mut String,
    traced: &Traced<'_>,
    scope: ScopeId,
    row: &ScopeRow,
) -> Result<(), AllocError> {
    let Some((place, cause)) = row.cancelled else {
        return Ok(());
    };
    let owner = row.opened.actor;
    let kind = cause.kind.word();
    append_point(text, traced, owner, place)?;
    write!(
        text,
        "cancel {scope}\",\"args\":{{\"from\":{},\"by\":\"{kind}\"}}}}",
        cause.scope
    )?;
    match scope_at(traced.columns, cause.scope) {
        Some(source) if cause.scope != scope => {
            let from = source.opened.actor;
            let at = micros(traced.times, place);
            write!(
                text,
                ",\n{{\"ph\":\"s\",\"cat\":\"c\",\"name\":\"cancel\",\"id\":{scope},\"pid\":1,\"tid\":{from},\"ts\":{at}}}"
            )?;
            write!(
                text,
                ",\n{{\"ph\":\"f\",\"bp\":\"e\",\"cat\":\"c\",\"name\":\"cancel\",\"id\":{scope},\"pid\":1,\"tid\":{owner},\"ts\":{at}}}"
            )
        },
        _ => Ok(()),
    }
}

/// Appends the records of the tasks, of the scopes, and of the cancels.
fn append_records(text: &mut String, traced: &Traced<'_>) -> Result<(), AllocError> {
    let columns = traced.columns;
    let first = columns.tasks_before.saturating_add(1);
    for (index, row) in columns.tasks.iter().enumerate() {
        append_task(text, traced, first.saturating_add(small_place(index)), row)?;
    }
    for (index, row) in columns.scopes.iter().enumerate() {
        append_scope(text, traced, scope_number(columns, index), row)?;
    }
    for (index, row) in columns.scopes.iter().enumerate() {
        append_cancel(text, traced, scope_number(columns, index), row)?;
    }
    Ok(())
}

/// The run as Chrome trace events, a text of JSON.
///
/// - Each task has a track of its own, with its name. There it waits from its fork to its start, and runs from there to
///   its end, with what can be read of it; or it is an instant that it never starts.
/// - Each scope is a slice on the track of its owner, from its opening to its close, with an instant where it begins to
///   close, by its own close or by one that covers it.
/// - What has not ended lasts to the last reading of the clock, and says that it waits, runs or is open.
/// - Each cancel that reached a scope is an instant there, with an arrow from the track where it was made, if that was at
///   another scope.
///
/// Times are in microseconds, or places a millisecond apart if no times are handed, as the name of the process says then.
/// The events are those of the history that is read.
///
/// # Errors
/// It is refused for memory alone.
pub fn trace_of<R: Readings>(
    alloc: Global,
    readings: &R,
    events: &[Event],
    times: &[u32],
) -> Result<String, AllocError>
    requires { events.now ≡ (R.history readings.now).events }
{
    let columns = columns_of(alloc, readings, events)?;
    let traced = Traced {
        places: events.len(),
        times,
        columns: &columns,
    };
    let name = if times.is_empty() {
        "realm without times: an event a millisecond"
    } else {
        "realm"
    };
    let mut text = String::new(alloc);
    write!(
        text,
        "[{{\"ph\":\"M\",\"pid\":1,\"name\":\"process_name\",\"args\":{{\"name\":\"{name}\"}}}},\n{{\"ph\":\"M\",\"pid\":1,\"tid\":0,\"name\":\"thread_name\",\"args\":{{\"name\":\"main\"}}}}"
    )?;
    append_records(&mut text, &traced)?;
    text.push_str("\n]\n")?;
    Ok(text)
}
