//! The page of a run: one text of HTML that shows it, with its columns in it. `page/FORMAT.md` says how they are written.
//!
//! Names, values, joiners and numbers are all that it takes from a run, and none of them has a character that means
//! anything to HTML: nothing is left to be escaped.
ghost use Rattle.std.specs.Prelude.{◌≡◌};

use crate::chart::scope_number;
use crate::columns::{Columns, columns_of};
use crate::digits::{append_number, append_numbers, step};
use crate::page_drawing::PAGE_DRAWING;
use crate::page_head::PAGE_HEAD;
use crate::page_model::PAGE_MODEL;
use crate::page_rows::{Before, append_event, append_scope, append_task};
use crate::view::small_place;
use crate::words::Words;
use scope_checks::Readings;
use scope_log::ShownJoiner;
use scope_rules::{Event, State, Value};
use std::alloc::{AllocError, Global};

/// What a page says of a run: its columns, the words of its tasks, its events and their times.
#[derive(Clone, Copy)]
struct Paged<'a> {
    columns: &'a Columns,
    names: &'a Words,
    values: &'a Words,
    events: &'a [Event],
    times: &'a [u32],
}

/// The value or the fault, if one can be read.
fn read_word(state: State) -> Option<Value> {
    match state {
        State::Unavailable => None,
        State::Success(value) => Some(value),
        State::Failed(fault) => Some(Value::Text(fault.0)),
    }
}

/// Appends the lines of names, of values and of joiners, each followed by a comma. It is refused for memory alone.
fn append_lines(text: &mut String, paged: &Paged<'_>) -> Result<(), AllocError> {
    for word in &paged.names.words {
        write!(text, "{word},")?;
    }
    text.push_str("\n")?;
    for word in &paged.values.words {
        write!(text, "{word},")?;
    }
    text.push_str("\n")?;
    for row in &paged.columns.scopes {
        write!(text, "{},", ShownJoiner(row.opened.policy))?;
    }
    text.push_str("\n")
}

/// Appends how many of each there are, and what was before them; and the times, each as a step from the one before. It is
/// refused for memory alone.
fn append_counts(text: &mut String, paged: &Paged<'_>, moment: u64) -> Result<(), AllocError> {
    append_numbers(
        text,
        &[
            paged.columns.tasks.len() as u64,
            paged.columns.scopes.len() as u64,
            paged.events.len() as u64,
            paged.times.len() as u64,
            u64::from(paged.columns.tasks_before),
            u64::from(paged.columns.scopes_before),
            moment,
        ],
    )?;
    let mut last = 0;
    for time in paged.times {
        append_number(text, step(last, *time))?;
        last = *time;
    }
    Ok(())
}

/// Appends the rows of the tasks and of the scopes, the ticks and the new deadlines. It is refused for memory alone.
fn append_rows(text: &mut String, paged: &Paged<'_>) -> Result<(), AllocError> {
    let mut before = Before::nothing();
    for (index, row) in paged.columns.tasks.iter().enumerate() {
        let name = paged.names.number_at(index);
        let value = paged.values.number_at(index);
        before = append_task(text, before, row, name, value)?;
    }
    let mut before = Before::nothing();
    for (index, row) in paged.columns.scopes.iter().enumerate() {
        before = append_scope(text, before, scope_number(paged.columns, index), row)?;
    }
    for (place, event) in paged.events.iter().enumerate() {
        append_event(text, small_place(place), *event)?;
    }
    Ok(())
}

/// The page of the run, as HTML: the text around, and between its parts the columns, by the times of the events, if there
/// are any. The events are those of the history that is read, and the moment is that of its base.
///
/// # Errors
/// It is refused for memory alone.
pub fn page_of<R: Readings>(
    alloc: Global,
    readings: &R,
    events: &[Event],
    times: &[u32],
    moment: u64,
) -> Result<String, AllocError>
    requires events { events.now ≡ (R.history readings.now).events }
    requires moment { moment ≡ (R.history readings.now).base.moment }
{
    let columns = columns_of(alloc, readings, events)?;
    let mut names = Words::new(alloc);
    let mut values = Words::new(alloc);
    for row in &columns.tasks {
        names.push(Some(Value::Text(row.forked.label.name)))?;
        values.push(read_word(row.state))?;
    }
    let paged = Paged {
        columns: &columns,
        names: &names,
        values: &values,
        events,
        times,
    };
    let mut text = String::from_str(alloc, PAGE_HEAD)?;
    append_lines(&mut text, &paged)?;
    append_counts(&mut text, &paged, moment)?;
    append_rows(&mut text, &paged)?;
    text.push_str(PAGE_MODEL)?;
    text.push_str(PAGE_DRAWING)?;
    Ok(text)
}
