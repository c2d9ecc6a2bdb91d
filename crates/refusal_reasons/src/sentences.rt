//! The sentences of faults.

use crate::causes::{alien_in, cause_of, nearest};
use crate::faults::WordFault;
use crate::forms::is_open_word;
use crate::line_places::{first_field, later_field};
use crate::line_shown::ShownBytes;
use script_words::{FieldKind, Keyword, LINE_LIMIT, OpenWord, Slot, slots};
use std::fmt;

/// The letter or word that stands for a field of the kind.
fn kind_text(kind: FieldKind) -> &'static str {
    match kind {
        FieldKind::Actor => "A",
        FieldKind::Scope => "S",
        FieldKind::Task => "K",
        FieldKind::Moment | FieldKind::Deadline => "N",
        FieldKind::Name => "NAME",
        FieldKind::Value => "VALUE",
    }
}

/// What a field of the kind must be.
fn wanted_text(kind: FieldKind) -> &'static str {
    match kind {
        FieldKind::Actor | FieldKind::Scope | FieldKind::Task => "a number from 0 to 4294967295",
        FieldKind::Moment => "a number from 0 to 18446744073709551615",
        FieldKind::Deadline => "a number from 0 to 18446744073709551615, or never",
        FieldKind::Name => "1 to 24 of a..z, 0..9, -, _ and ., and begin with a..z",
        FieldKind::Value => "a 64-bit integer or a name",
    }
}

/// How a field of a form is written.
fn slot_text(slot: Slot) -> &'static str {
    match slot {
        Slot::Must(kind) => kind_text(kind),
        Slot::May(OpenWord::Joiner) => "[JOINER]",
        Slot::May(OpenWord::Deadline) => "[deadline=N]",
        Slot::May(OpenWord::MoveOn) => "[move-on]",
        Slot::May(OpenWord::Shield) => "[shield]",
    }
}

/// The first words of commands.
const COMMANDS: [&[u8]; 23] = [
    b"open", b"fork", b"reject", b"start", b"ok", b"fail", b"cancel", b"move", b"tick", b"bind",
    b"unbind", b"join", b"close", b"closed", b"retire", b"state", b"stage", b"result", b"fault",
    b"cause", b"until", b"counts", b"get",
];

/// The words of an open that have no number.
const OPTIONS: [&[u8]; 6] = [b"all", b"any", b"await", b"await-ok", b"move-on", b"shield"];

/// The form, of which the line has the first word.
fn write_form<W: fmt::Write>(f: &mut fmt::Formatter<W>, line: &[u8], form: Keyword) -> fmt::Result {
    write!(f, "{}", ShownBytes(first_field(line)))?;
    for slot in slots(form) {
        write!(f, " {}", slot_text(*slot))?;
    }
    f.write_str(": ")
}

/// Why the word is not of the kind.
fn write_misfit<W: fmt::Write>(
    f: &mut fmt::Formatter<W>,
    kind: FieldKind,
    word: &[u8],
) -> fmt::Result {
    let cause = cause_of(kind, word);
    let (kind, wanted, word) = (kind_text(kind), wanted_text(kind), ShownBytes(word));
    write!(f, "{kind} is {word}, but must be {wanted}{cause}")
}

/// The word, and as a query the one of these that may be meant.
fn write_guessed<W: fmt::Write>(
    f: &mut fmt::Formatter<W>,
    known: &[&'static [u8]],
    word: &[u8],
) -> fmt::Result {
    write!(f, "{}", ShownBytes(word))?;
    match nearest(known, word) {
        Some(meant) => write!(f, "; did you mean {}?", ShownBytes(meant)),
        None => Ok(()),
    }
}

/// Whether the word is one of an open.
fn is_of_open(word: &[u8]) -> bool {
    is_open_word(OpenWord::Joiner, word)
        || is_open_word(OpenWord::Deadline, word)
        || is_open_word(OpenWord::MoveOn, word)
        || is_open_word(OpenWord::Shield, word)
}

/// A word of the form that is one too many: of an open one of its words, or a deadline of what is no moment, or neither.
fn write_extra<W: fmt::Write>(
    f: &mut fmt::Formatter<W>,
    form: Keyword,
    word: &[u8],
) -> fmt::Result {
    if !matches!(form, Keyword::Open) {
        return write!(f, "unexpected field: {}", ShownBytes(word));
    }
    if is_of_open(word) {
        return write!(f, "repeated or out of order: {}", ShownBytes(word));
    }
    if let Some(moment) = word.strip_prefix(b"deadline=".as_slice()) {
        return write_misfit(f, FieldKind::Moment, moment);
    }
    f.write_str("unknown option: ")?;
    write_guessed(f, &OPTIONS, word)
}

/// The sentence of the fault of this line, without a full stop.
#[derive(Clone, Copy)]
pub struct ShownFault<'a> {
    pub line: &'a [u8],
    pub fault: WordFault,
}

impl fmt::Display for ShownFault<'_> {
    fn fmt<W: fmt::Write>(&self, f: &mut fmt::Formatter<W>) -> fmt::Result {
        let line = self.line;
        let word = match self.fault {
            WordFault::TooLong { bytes } => {
                let limit = LINE_LIMIT;
                return write!(f, "the line has {bytes} bytes, and the limit is {limit}");
            }
            WordFault::Missing { form, kind } => {
                write_form(f, line, form)?;
                return write!(f, "{} is missing", kind_text(kind));
            }
            WordFault::NoForm => first_field(line),
            WordFault::Wrong { form, index, .. } | WordFault::Extra { form, index } => {
                write_form(f, line, form)?;
                later_field(line, index)
            }
        };
        if let Some(words) = alien_in(word) {
            return f.write_str(words);
        }
        match self.fault {
            WordFault::Wrong { kind, .. } => write_misfit(f, kind, word),
            WordFault::Extra { form, .. } => write_extra(f, form, word),
            _ => {
                f.write_str("unknown command: ")?;
                write_guessed(f, &COMMANDS, word)
            }
        }
    }
}
