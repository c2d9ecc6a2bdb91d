//! The picture.
ghost use Rattle.std.specs.Prelude.{◌≡◌};

use crate::axis::append_axis;
use crate::chart::{Chart, Drawn, chart_of, row_y, scope_number};
use crate::lanes::append_row;
use crate::marks::{append_cancel, append_event, append_moment, append_shield};
use crate::pieces::{
    CANCEL_LEGEND, DARK, END_SHAPES, LIGHT, LINE_LEGEND, MARK_LEGEND, SCOPE_SHAPES, SVG_BEGIN,
};
use crate::view::{View, high, natural_width, page_width, small_place, time_at};
use scope_checks::Readings;
use scope_rules::Event;
use std::alloc::{AllocError, Global};

/// Appends the picture's head: its size, before it is scaled too; what it shows, up to this moment; the style and the
/// shapes; and what the way to the right is. It is refused for memory alone.
fn append_head(text: &mut String, chart: &Chart<'_>, now: u64) -> Result<(), AllocError> {
    let asked = chart.drawn.view.width;
    let timed = !chart.drawn.times.is_empty();
    let width = page_width(asked);
    let natural = natural_width(asked, chart.height);
    let tall = row_y(chart.height) + 84;
    let height = tall * 1000 / high(chart.height);
    let until = if timed { "in" } else { "up to" };
    let axis = if timed {
        "time in ms"
    } else {
        "events, not time"
    };
    let places = chart.places;
    write!(text, "{SVG_BEGIN} width='{width}' height='{height}'")?;
    write!(text, " viewBox='0 0 {natural} {tall}'>\n")?;
    write!(text, "<title>{places} events {until} {now} ms</title>\n")?;
    write!(text, "{LIGHT}{DARK}{END_SHAPES}{SCOPE_SHAPES}")?;
    write!(
        text,
        "<text class='moment' x='8' y='16'>to the right: {axis}</text>\n"
    )
}

/// Appends the cancels with what they reach, and the shields that held. It is refused for memory alone.
fn append_cancels(text: &mut String, chart: &Chart<'_>) -> Result<(), AllocError> {
    for (index, row) in chart.columns.scopes.iter().enumerate() {
        append_cancel(text, chart, scope_number(&chart.columns, index), row)?;
    }
    for (index, row) in chart.columns.scopes.iter().enumerate() {
        append_shield(text, chart, scope_number(&chart.columns, index), row)?;
    }
    Ok(())
}

/// Appends all of the picture but its head and its foot: what comes later is drawn over what comes before. It is refused for
/// memory alone.
fn append_body(text: &mut String, chart: &Chart<'_>) -> Result<(), AllocError> {
    append_axis(text, chart)?;
    for (place, event) in chart.drawn.events.iter().enumerate() {
        append_moment(text, chart, place, *event)?;
    }
    for (index, row) in chart.rows.iter().enumerate() {
        append_row(text, chart, small_place(index), *row)?;
    }
    for (place, event) in chart.drawn.events.iter().enumerate() {
        append_event(text, chart, place, *event)?;
    }
    append_cancels(text, chart)
}

/// Appends the picture's foot, below so many rows. It is refused for memory alone.
fn append_foot(text: &mut String, rows: u32) -> Result<(), AllocError> {
    let y = row_y(rows) + 16;
    write!(text, "<g transform='translate(8 {y})'>\n")?;
    write!(text, "{LINE_LEGEND}{MARK_LEGEND}{CANCEL_LEGEND}")
}

/// The picture of what was read, as an SVG text: as much of it as the view says, with the lines of the script and
/// the times of the events, if they are known. The events are those of the history that is read.
///
/// # Errors
/// It is refused for memory alone. Of 2^31 events or nodes and more, which no realm takes, it asks none, and is
/// refused too.
pub fn picture_with<R: Readings>(
    alloc: Global,
    readings: &R,
    drawn: Drawn<'_>,
) -> Result<String, AllocError>
    requires { drawn.events.now ≡ (R.history readings.now).events }
{
    let chart = chart_of(alloc, readings, drawn)?;
    let now = if chart.drawn.times.is_empty() {
        readings.moment()
    } else {
        time_at(chart.drawn.times, u32::MAX)
    };
    let mut text = String::new(alloc);
    append_head(&mut text, &chart, now)?;
    append_body(&mut text, &chart)?;
    append_foot(&mut text, chart.height)?;
    Ok(text)
}

/// The picture of the whole run, as an SVG text. The events are those of the history that is read.
///
/// # Errors
/// It is refused for memory alone. Of 2^31 events or nodes and more, which no realm takes, it asks none, and is
/// refused too.
pub fn picture_of<R: Readings>(
    alloc: Global,
    readings: &R,
    events: &[Event],
) -> Result<String, AllocError>
    requires { events.now ≡ (R.history readings.now).events }
{
    picture_with(
        alloc,
        readings,
        Drawn {
            events,
            lines: &[],
            times: &[],
            view: View::whole(),
        },
    )
}
