//! Why a line is no command: its fields are looked at one after the other.
ghost use Rattle.std.specs.Prelude.{◌+◌, ◌≡◌, ◌≤◌};
ghost use Rattle.refusal_reasons.specs.{fault_of, fields, fields_fault, length, misfit};

use crate::forms::{is_kind, is_open_word};
use script_words::{FieldKind, Keyword, LINE_LIMIT, Slot, keyword_of, next_field, slots};

/// Why a line is no command. Fields are counted from 0, behind the first word.
#[derive(Clone, Copy)]
pub enum WordFault {
    /// It has so many bytes, more than `LINE_LIMIT`.
    TooLong {
        bytes: usize,
    },
    /// No form begins with its first word.
    NoForm,
    /// Of this form the field is to be of the kind, and is not.
    Wrong {
        form: Keyword,
        index: usize,
        kind: FieldKind,
    },
    /// Of this form a field of the kind is missing.
    Missing {
        form: Keyword,
        kind: FieldKind,
    },
    /// Of this form the field is one too many. Of an open it may be one of its words, out of their order or there twice.
    Extra {
        form: Keyword,
        index: usize,
    },
}

/// The first field of the text, counted from the index, that is not of its kind, is missing or is too many.
#[tactic(auto, unfolding(crate::specs::Faults::misfit))]
fn misfit(form: Keyword, index: usize, slots: &[Slot], text: &[u8]) -> Option<WordFault>
    requires { index + length slots.now ≤ 5 }
    ensures { result ≡ misfit form index slots.now (fields text.now) }
{
    match (slots, next_field(text)) {
        ([], None) => None,
        ([], Some(_)) => Some(WordFault::Extra { form, index }),
        ([Slot::Must(kind), ..], None) => Some(WordFault::Missing { form, kind: *kind }),
        ([Slot::May(_), others @ ..], None) => misfit(form, index, others, text),
        ([Slot::Must(kind), others @ ..], Some((word, rest))) => {
            let kind = *kind;
            if is_kind(kind, word) {
                misfit(form, index + 1, others, rest)
            } else {
                Some(WordFault::Wrong { form, index, kind })
            }
        }
        ([Slot::May(word_of_open), others @ ..], Some((word, rest))) => {
            if is_open_word(*word_of_open, word) {
                misfit(form, index + 1, others, rest)
            } else {
                misfit(form, index, others, text)
            }
        }
    }
}

/// Why the text is no command, if it is none.
#[tactic(auto, unfolding(crate::specs::Faults::fields_fault))]
fn fields_fault(text: &[u8]) -> Option<WordFault>
    ensures { result ≡ fields_fault (fields text.now) }
{
    let (word, args) = next_field(text)?;
    if let [b'#', ..] = word {
        return None;
    }
    match keyword_of(word) {
        Some(form) => misfit(form, 0, slots(form), args),
        None => Some(WordFault::NoForm),
    }
}

/// Why the line, which comes without its line feed, is no command, if it is none.
#[tactic(auto, unfolding(crate::specs::Faults::fault_of))]
pub fn fault_of(line: &[u8]) -> Option<WordFault>
    ensures { result ≡ fault_of line.now }
{
    if line.len() > LINE_LIMIT {
        return Some(WordFault::TooLong { bytes: line.len() });
    }
    fields_fault(line)
}
