//! What is said of a word that is not what it is to be.

use crate::line_shown::ShownByte;
use script_words::{FieldKind, is_near};
use std::fmt;

/// What other systems and editors leave in the word, if anything, and what it is to be instead.
pub(crate) fn alien_in(word: &[u8]) -> Option<&'static str> {
    if word.strip_prefix([239, 187, 191].as_slice()).is_some() {
        return Some("a byte order mark: a script is text without one");
    }
    if word.contains(&0) {
        return Some("a byte 0, as in UTF-16: a script is ASCII text");
    }
    if word.contains(&b'\r') {
        return Some("a carriage return: a line ends in a line feed alone");
    }
    if word.contains(&b'\t') {
        return Some("a tab: fields stand between spaces");
    }
    None
}

/// Why a word is not of its kind.
#[derive(Clone, Copy)]
pub(crate) enum Cause {
    /// It is nothing like it.
    Plain,
    /// It is so.
    Is(&'static str),
    /// The byte behind a first digit is no digit.
    NoDigit(u8),
    /// The name has so many bytes.
    TooLongName(usize),
    /// The name begins with this byte.
    BeginsWith(u8),
    /// The name has this byte.
    HasByte(u8),
}

/// The first of the bytes that is no digit.
fn first_other(bytes: &[u8]) -> Option<u8> {
    for byte in bytes {
        if !byte.is_ascii_digit() {
            return Some(*byte);
        }
    }
    None
}

/// The first of the bytes that no name has.
fn first_strange(bytes: &[u8]) -> Option<u8> {
    for byte in bytes {
        if !byte.is_ascii_lowercase() && !byte.is_ascii_digit() && !b"-_.".contains(byte) {
            return Some(*byte);
        }
    }
    None
}

/// Why the word is no number, of which one that is greater than the greatest is so.
fn number_cause(word: &[u8], too_great: &'static str) -> Cause {
    let [first, others @ ..] = word else {
        return Cause::Plain;
    };
    if *first == b'-' || *first == b'+' {
        return Cause::Is("it has a sign");
    }
    if !first.is_ascii_digit() {
        return Cause::Plain;
    }
    match first_other(others) {
        Some(other) => Cause::NoDigit(other),
        None if *first == b'0' => Cause::Is("it begins with a needless 0"),
        None => Cause::Is(too_great),
    }
}

/// Why the word is no name.
fn name_cause(word: &[u8]) -> Cause {
    let [first, others @ ..] = word else {
        return Cause::Plain;
    };
    if !first.is_ascii_lowercase() {
        return Cause::BeginsWith(*first);
    }
    match first_strange(others) {
        Some(other) => Cause::HasByte(other),
        None => Cause::TooLongName(word.len()),
    }
}

/// Why the word is no value: 0 has no sign.
fn value_cause(word: &[u8]) -> Cause {
    let too_wide = "it has more than 64 bits";
    match word {
        [b'-', b'0'] | [b'+', ..] => Cause::Is("it has a sign"),
        [b'-', digits @ ..] => number_cause(digits, too_wide),
        [first, ..] if first.is_ascii_digit() => number_cause(word, too_wide),
        _ => name_cause(word),
    }
}

/// Why the word is not of the kind.
pub(crate) fn cause_of(kind: FieldKind, word: &[u8]) -> Cause {
    let too_great = "it is too great";
    match kind {
        FieldKind::Actor | FieldKind::Scope | FieldKind::Task => number_cause(word, too_great),
        FieldKind::Moment | FieldKind::Deadline => match number_cause(word, too_great) {
            Cause::NoDigit(other) if other.is_ascii_lowercase() => {
                Cause::Is("it is in milliseconds, without a unit")
            }
            cause => cause,
        },
        FieldKind::Name => name_cause(word),
        FieldKind::Value => value_cause(word),
    }
}

/// A byte that is strange in a word.
#[derive(Clone, Copy)]
struct ShownStrange(u8);

impl fmt::Display for ShownStrange {
    fn fmt<W: fmt::Write>(&self, f: &mut fmt::Formatter<W>) -> fmt::Result {
        if self.0 > 127 {
            return f.write_str("a byte that is not ASCII");
        }
        write!(f, "{}", ShownByte(self.0))
    }
}

impl fmt::Display for Cause {
    fn fmt<W: fmt::Write>(&self, f: &mut fmt::Formatter<W>) -> fmt::Result {
        match *self {
            Cause::Plain => Ok(()),
            Cause::Is(words) => write!(f, " ({words})"),
            Cause::NoDigit(other) => write!(f, " ({} is not a digit)", ShownStrange(other)),
            Cause::TooLongName(bytes) => write!(f, " (it has {bytes} bytes)"),
            Cause::BeginsWith(first) => write!(f, " (it begins with {})", ShownStrange(first)),
            Cause::HasByte(other) => write!(f, " (it has {})", ShownStrange(other)),
        }
    }
}

/// Whether the second byte is the first, or its small letter.
fn is_lower_of(x: u8, y: u8) -> bool {
    x == y || x.to_ascii_lowercase() == y
}

/// Whether the word is the known one but for capitals.
fn is_same_letters(word: &[u8], known: &[u8]) -> bool {
    for (x, y) in word.iter().zip(known) {
        if !is_lower_of(*x, *y) {
            return false;
        }
    }
    word.len() == known.len()
}

/// The first of the known words that one edit makes of the word, or small letters.
pub(crate) fn nearest(known: &[&'static [u8]], word: &[u8]) -> Option<&'static [u8]> {
    for first in known {
        if is_near(word, first) || is_same_letters(word, first) {
            return Some(*first);
        }
    }
    None
}
