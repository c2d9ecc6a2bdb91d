//! The rows of a page as numbers: what stands in a row, by the row before it.

use crate::columns::{ScopeRow, TaskRow};
use crate::digits::{append_numbers, far, step};
use crate::view::small_place;
use scope_rules::types::answers::CauseKind;
use scope_rules::{Event, Expiry, Options, ScopeId, Stage, State};
use std::alloc::AllocError;

/// The numbers of a row from which those of the next one are steps; before the first row they are 0.
#[derive(Clone, Copy)]
pub(crate) struct Before {
    first: u32,
    second: u32,
    place: u32,
}

impl Before {
    /// Before the first row.
    pub(crate) fn nothing() -> Before {
        Before {
            first: 0,
            second: 0,
            place: 0,
        }
    }
}

/// How a task stands.
fn how(stage: Stage, read: State) -> u64 {
    match (stage, read) {
        (Stage::Never, _) => 0,
        (Stage::Waiting, _) => 1,
        (Stage::Running, _) => 2,
        (Stage::Finished, State::Unavailable) => 3,
        (Stage::Finished, State::Success(_)) => 4,
        (Stage::Finished, State::Failed(_)) => 5,
    }
}

/// Appends the row of the task behind another one, with the numbers of its words, and says what the next row is behind. It is
/// refused for memory alone.
pub(crate) fn append_task(
    text: &mut String,
    before: Before,
    row: &TaskRow,
    name: u64,
    value: u64,
) -> Result<Before, AllocError> {
    let place = row.forked.place;
    let next = Before {
        first: row.forked.scope,
        second: row.forked.actor,
        place: small_place(place),
    };
    append_numbers(
        text,
        &[
            step(before.first, next.first),
            step(before.second, next.second),
            step(before.place, next.place),
            name,
            far(place, row.started),
            far(place, row.ended),
            how(row.stage, row.state),
            value,
        ],
    )?;
    Ok(next)
}

/// The options of a scope as a number.
fn options_number(options: Options) -> u64 {
    let shield = if options.shield { 1 } else { 0 };
    let moves_on = match options.expiry {
        Expiry::Fail => 0,
        Expiry::MoveOn => 2,
    };
    let deadline = if options.deadline.is_some() { 4 } else { 0 };
    shield + moves_on + deadline
}

/// The cancel of a scope as numbers: how far behind its opening, how far its number is behind that of the scope whose own
/// cancel it was, from 1, and what made it.
fn cancel_numbers(scope: ScopeId, row: &ScopeRow) -> [u64; 3] {
    let Some((place, cause)) = row.cancelled else {
        return [0, 0, 0];
    };
    let made_by = match cause.kind {
        CauseKind::Call => 0,
        CauseKind::Close => 1,
        CauseKind::Joiner => 2,
        CauseKind::Deadline => 3,
    };
    let back = 1 + u64::from(scope.saturating_sub(cause.scope));
    [far(row.opened.place, Some(place)), back, made_by]
}

/// Appends the row of the scope behind another one, and says what the next row is behind. It is refused for memory alone.
pub(crate) fn append_scope(
    text: &mut String,
    before: Before,
    scope: ScopeId,
    row: &ScopeRow,
) -> Result<Before, AllocError> {
    let place = row.opened.place;
    let next = Before {
        first: row.opened.actor,
        second: row.parent.unwrap_or(0),
        place: small_place(place),
    };
    append_numbers(
        text,
        &[
            step(before.first, next.first),
            step(before.second, next.second),
            step(before.place, next.place),
            options_number(row.opened.options),
            row.opened.options.deadline.unwrap_or(0),
            far(place, row.joined),
            far(place, row.closing),
            far(place, row.closed),
        ],
    )?;
    append_numbers(text, &cancel_numbers(scope, row))?;
    Ok(next)
}

/// Appends the event at the place, if it is a tick or a new deadline. It is refused for memory alone.
pub(crate) fn append_event(text: &mut String, place: u32, event: Event) -> Result<(), AllocError> {
    let place = u64::from(place);
    match event {
        Event::Tick { now } => append_numbers(text, &[place, 0, now]),
        Event::Move { scope, deadline } => {
            let kind = if deadline.is_some() { 2 } else { 1 };
            append_numbers(
                text,
                &[place, kind, u64::from(scope), deadline.unwrap_or(0)],
            )
        },
        _ => Ok(()),
    }
}
