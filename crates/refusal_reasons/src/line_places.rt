//! Where a fault is in its line.
ghost use Rattle.std.specs.Prelude.{◌+◌, ◌-◌, ◌≡◌, ◌≤◌};
ghost use Rattle.refusal_reasons.specs.{behind_first, field_place, is_space, length, place_of, position_or_len, suc, text_from, without_spaces};

use crate::faults::WordFault;
use script_words::{LINE_LIMIT, field_len, without_spaces};

/// Where a fault is in its line.
#[derive(Clone, Copy)]
pub struct Place {
    /// At which byte of the line it begins, counted from 1.
    pub column: usize,
    /// How many bytes it has.
    pub width: usize,
}

/// The text from its field of this index on; no bytes if there is none.
#[tactic(auto, unfolding(crate::specs::LinePlaces::text_from))]
fn text_from(text: &[u8], index: usize) -> &[u8]
    ensures is { result.now ≡ text_from text.now index }
    ensures within { length result.now ≤ length text.now }
{
    let begun = without_spaces(text);
    if index == 0 {
        return begun;
    }
    text_from(begun.split_at(field_len(begun)).1, index - 1)
}

/// The text behind its first field.
fn behind_first(text: &[u8]) -> &[u8]
    ensures is { result.now ≡ behind_first (without_spaces text.now) }
    ensures within { length result.now ≤ length text.now }
{
    let begun = without_spaces(text);
    begun.split_at(field_len(begun)).1
}

/// The first field of the line.
pub(crate) fn first_field(line: &[u8]) -> &[u8] {
    let text = without_spaces(line);
    text.split_at(field_len(text)).0
}

/// The field of this index behind the first one.
pub(crate) fn later_field(line: &[u8], index: usize) -> &[u8] {
    let text = text_from(behind_first(line), index);
    text.split_at(field_len(text)).0
}

/// Where the first field of the text stands that is the end of a line.
fn place_in(line: &[u8], text: &[u8]) -> Place
    requires within { length text.now ≤ length line.now }
    ensures column { result.column ≡ length line.now - length text.now + 1 }
    ensures width { result.width ≡ position_or_len is_space text.now }
{
    Place {
        column: line.len() - text.len() + 1,
        width: field_len(text),
    }
}

/// Where the first field of the line stands.
#[tactic(auto, unfolding(crate::specs::LinePlaces::field_place))]
fn first_place(line: &[u8]) -> Place
    ensures { result ≡ field_place line.now 0 }
{
    place_in(line, text_from(line, 0))
}

/// Where the field of this index behind the first one stands.
#[tactic(auto, unfolding(crate::specs::LinePlaces::field_place, crate::specs::LinePlaces::text_from))]
fn later_place(line: &[u8], index: usize) -> Place
    ensures { result ≡ field_place line.now (suc index) }
{
    place_in(line, text_from(behind_first(line), index))
}

/// A place of no byte.
fn gap(column: usize) -> Place
    ensures { result ≡ record { column = column; width = 0 } }
{
    Place { column, width: 0 }
}

/// Where the line has this fault: behind the last byte that it may have, at a field, or at its end.
#[tactic(auto, unfolding(crate::specs::LinePlaces::place_of))]
pub fn place_of(line: &[u8], fault: WordFault) -> Place
    ensures { result ≡ place_of line.now fault }
{
    match fault {
        WordFault::TooLong { .. } => gap(LINE_LIMIT + 1),
        WordFault::NoForm => first_place(line),
        WordFault::Wrong { index, .. } => later_place(line, index),
        WordFault::Extra { index, .. } => later_place(line, index),
        WordFault::Missing { .. } => gap(line.len() + 1),
    }
}
