//! The axis of a picture with times: a line at each of some round ones, and the time at its foot.
ghost use Rattle.std.specs.Prelude.{◌<◌, ◌≤◌};

use crate::chart::{Chart, first_time, row_y, span_time, x_by};
use std::alloc::AllocError;

/// The power of ten of which the span has at most fifty.
fn power_of(span: u64) -> u64
    ensures some { 0 < result }
    ensures bound { result ≤ 100000000 }
{
    if span <= 50 {
        1
    } else if span <= 500 {
        10
    } else if span <= 5_000 {
        100
    } else if span <= 50_000 {
        1_000
    } else if span <= 500_000 {
        10_000
    } else if span <= 5_000_000 {
        100_000
    } else if span <= 50_000_000 {
        1_000_000
    } else if span <= 500_000_000 {
        10_000_000
    } else {
        100_000_000
    }
}

/// A round step of which the span has at most ten.
fn step_of(span: u64) -> u64
    ensures some { 0 < result }
    ensures bound { result ≤ 500000000 }
{
    let power = power_of(span);
    if span <= 10 * power {
        power
    } else if span <= 20 * power {
        2 * power
    } else {
        5 * power
    }
}

/// Appends the axis, if there are times. It is refused for memory alone.
pub(crate) fn append_axis(text: &mut String, chart: &Chart<'_>) -> Result<(), AllocError> {
    if chart.drawn.times.is_empty() {
        return Ok(());
    }
    let first = first_time(chart);
    let span = span_time(chart);
    let step = step_of(span);
    let foot = row_y(chart.height);
    for index in 0..12 {
        let time = (first / step).saturating_add(index).saturating_mul(step);
        if first <= time && time - first <= span {
            let x = x_by(chart, time);
            write!(
                text,
                "<path class='axis' d='M{x} 64V{foot}'/><text class='moment time' x='{x}' y='{foot}'>{time} ms</text>\n"
            )?;
        }
    }
    Ok(())
}
