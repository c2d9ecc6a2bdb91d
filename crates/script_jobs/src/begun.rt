//! The line that is begun, as far as a note on it needs it.
ghost use Rattle.std.specs.Prelude.{◌≡◌, ◌==◌, ◌≤◌, length, take};
ghost use Rattle.script_jobs.specs.Begun.{fault_in, grown_by, no_line};

use arrayvec::ArrayVec;
use refusal_reasons::{WordFault, fault_of};
use scope_script::LINE_LIMIT;
use std::marker::Model;

/// How many bytes of a line are kept: one more than it may have.
pub const KEPT_LIMIT: usize = 201;

/// The line that is begun: its first bytes, and how many it has so far. It takes no memory, however long it is.
#[derive(Drop)]
pub(crate) struct BegunLine {
    first: ArrayVec<u8, KEPT_LIMIT>,
    bytes: usize,
}

impl Model for BegunLine {
    ghost use Rattle.script_jobs.specs.Begun.{Begun};

    ghost Value = { Begun };

    ghost view = { λ l. record { first = l.first.items; bytes = l.bytes } };
}

impl BegunLine {
    /// A line without bytes.
    pub(crate) fn new() -> BegunLine
        ensures { result ≡ no_line }
    {
        BegunLine {
            first: ArrayVec::new(),
            bytes: 0,
        }
    }

    /// Whether the line has no byte.
    pub(crate) fn is_empty(&self) -> bool
        ensures { result ≡ (length self.now.first == 0) }
    {
        self.first.is_empty()
    }

    /// The first bytes of the line, as many as are kept.
    pub(crate) fn first(&self) -> &[u8]
        ensures { result.now ≡ self.now.first }
    {
        &self.first
    }

    /// Why the line is no command, if it is none.
    pub(crate) fn fault(&self) -> Option<WordFault>
        ensures { result ≡ fault_in self.now }
    {
        if self.bytes > LINE_LIMIT {
            Some(WordFault::TooLong { bytes: self.bytes })
        } else {
            fault_of(&self.first)
        }
    }

    /// The line goes on with the bytes.
    pub(crate) fn extend(&mut self, bytes: &[u8])
        ensures grown { self.new ≡ grown_by self.old bytes.now }
        ensures within { length self.old.first ≤ KEPT_LIMIT }
    {
        let room = KEPT_LIMIT - self.first.len();
        let fitting = beginning(bytes, room);
        match self.first.try_extend_from_slice(fitting) {
            Ok(()) => {}
            Err(_) => unreachable!(),
        }
        self.bytes = self.bytes.saturating_add(bytes.len());
    }

    /// The next line begins.
    pub(crate) fn restart(&mut self)
        ensures { self.new ≡ no_line }
    {
        self.first.clear();
        self.bytes = 0;
    }
}

/// The first bytes, so many at the most.
fn beginning(bytes: &[u8], limit: usize) -> &[u8]
    ensures is { result.now ≡ take limit bytes.now }
    ensures short { length result.now ≤ limit }
{
    if bytes.len() <= limit {
        return bytes;
    }
    &bytes[..limit]
}
