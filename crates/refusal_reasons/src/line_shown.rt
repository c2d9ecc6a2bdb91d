//! Bytes of a script as they are shown.

use crate::line_places::Place;
use script_words::LINE_LIMIT;
use std::fmt;

/// How many bytes are shown at the most.
const SHOWN_LIMIT: usize = 60;

/// A byte, or `?` in place of one that is not printable ASCII.
#[derive(Clone, Copy)]
pub(crate) struct ShownByte(pub(crate) u8);

impl fmt::Display for ShownByte {
    fn fmt<W: fmt::Write>(&self, f: &mut fmt::Formatter<W>) -> fmt::Result {
        let byte = self.0;
        f.write_char(if byte >= b' ' && byte <= b'~' {
            byte as char
        } else {
            '?'
        })
    }
}

/// Bytes, each as it is shown.
fn write_bytes<W: fmt::Write>(f: &mut fmt::Formatter<W>, bytes: &[u8]) -> fmt::Result {
    for byte in bytes {
        write!(f, "{}", ShownByte(*byte))?;
    }
    Ok(())
}

/// The first bytes, so many at the most.
fn beginning(bytes: &[u8], limit: usize) -> &[u8] {
    bytes.split_at(limit.min(bytes.len())).0
}

/// Bytes of a script on one line: `?` stands in place of each that is not printable ASCII, and `...` in place
/// of what follows after 60 of them.
#[derive(Clone, Copy)]
pub struct ShownBytes<'a>(pub &'a [u8]);

impl fmt::Display for ShownBytes<'_> {
    fn fmt<W: fmt::Write>(&self, f: &mut fmt::Formatter<W>) -> fmt::Result {
        write_bytes(f, beginning(self.0, SHOWN_LIMIT))?;
        f.write_str(if self.0.len() > SHOWN_LIMIT {
            "..."
        } else {
            ""
        })
    }
}

/// The line, and below it a caret for each byte at the place, one at the least. Each line is indented.
#[derive(Clone, Copy)]
pub struct ShownPlace<'a> {
    /// The line, without its line feed.
    pub line: &'a [u8],
    /// The place in it.
    pub place: Place,
}

impl fmt::Display for ShownPlace<'_> {
    fn fmt<W: fmt::Write>(&self, f: &mut fmt::Formatter<W>) -> fmt::Result {
        f.write_str("    ")?;
        write_bytes(f, beginning(self.line, LINE_LIMIT))?;
        f.write_str("\n    ")?;
        for _blank in 1..self.place.column {
            f.write_str(" ")?;
        }
        for _caret in 0..self.place.width.max(1) {
            f.write_str("^")?;
        }
        f.write_str("\n")
    }
}
