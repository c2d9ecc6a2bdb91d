//! Colour for a person at a terminal.

use scope_script::first_line;
use std::io::{Result, Write};

/// What ends a colour.
const PLAIN: &[u8] = b"\x1b[0m";

/// Of what is refused, or failed.
const RED: &[u8] = b"\x1b[31m";

/// Of notes, and of what is cancelled.
const YELLOW: &[u8] = b"\x1b[33m";

/// Of hints.
const CYAN: &[u8] = b"\x1b[36m";

/// How lines begin that have a colour: faults, refused lines, hints, and notes.
const BEGINNINGS: [(&[u8], &[u8]); 6] = [
    (b"refused ", RED),
    (b"error: ", RED),
    (b"scopectl: ", RED),
    (b"hint: ", CYAN),
    (b"  tip: ", CYAN),
    (b"line ", YELLOW),
];

/// What lines have within that have a colour: tasks that failed, and scopes that are cancelled.
const MIDDLES: [(&[u8], &[u8]); 2] = [(b": finished, failed", RED), (b", cancelled by ", YELLOW)];

/// A writer to a terminal, whose lines get a colour by what stands in them, or to anything else, whose lines get none.
#[derive(Drop)]
pub struct Coloured<W: Drop> {
    /// The stream itself.
    pub inner: W,
    /// Whether it gets colour.
    pub is_coloured: bool,
}

impl<W: Write + Drop> Coloured<W> {
    /// Writes a line with its colour, and behind it what ends it.
    fn write_line(&mut self, line: &[u8], end: &[u8]) -> Result<()> {
        match colour_of(line) {
            Some(colour) => {
                self.inner.write_all(colour)?;
                self.inner.write_all(line)?;
                self.inner.write_all(PLAIN)?;
            }
            None => self.inner.write_all(line)?,
        }
        self.inner.write_all(end)
    }
}

impl<W: Write + Drop> Write for Coloured<W> {
    fn write(&mut self, buf: &[u8]) -> Result<usize> {
        if !self.is_coloured {
            return self.inner.write(buf);
        }
        let mut rest = buf;
        while let Some((line, others)) = first_line(rest) {
            self.write_line(line, b"\n")?;
            rest = others;
        }
        self.write_line(rest, b"")?;
        Ok(buf.len())
    }

    fn flush(&mut self) -> Result<()> {
        self.inner.flush()
    }
}

/// The colour of the line, if it has one.
fn colour_of(line: &[u8]) -> Option<&'static [u8]> {
    for (beginning, colour) in &BEGINNINGS {
        if line.starts_with(beginning) {
            return Some(colour);
        }
    }
    for (middle, colour) in &MIDDLES {
        if has_part(line, middle) {
            return Some(colour);
        }
    }
    None
}

/// Whether the part stands somewhere in the line.
fn has_part(line: &[u8], part: &[u8]) -> bool {
    for place in 0..line.len() {
        if line.split_at(place).1.starts_with(part) {
            return true;
        }
    }
    false
}
