//! What a script is answered, a line a reply.

use scope_script::{Reply, append_line};
use std::alloc::{AllocError, Global};

/// How many bytes of replies there is room for.
const ROOM: usize = 262_144;

/// What a script is played on says of it, a line a reply. A note is what it shows beside its replies, in lines that
/// begin with `#`.
#[derive(Drop)]
pub struct Said {
    text: Vec<u8>,
    /// Whether there was room for all.
    is_whole: bool,
}

impl Said {
    /// Nothing, with room for what will be. None where memory is refused.
    pub fn new(alloc: Global) -> Option<Said> {
        let mut text = Vec::new(alloc);
        text.reserve(ROOM).ok()?;
        Some(Said {
            text,
            is_whole: true,
        })
    }

    /// Adds the reply's line.
    pub fn say(&mut self, reply: &Reply) {
        self.is_whole = append_line(&mut self.text, reply).is_ok() && self.is_whole;
    }

    /// Adds the number, as the line of a moment.
    pub fn count(&mut self, number: usize) {
        self.say(&Reply::Moment(number as u64));
    }

    /// Adds the bytes as they are.
    pub fn add(&mut self, bytes: &[u8]) {
        self.is_whole = self.text.extend_from_slice(bytes).is_ok() && self.is_whole;
    }

    /// Notes the reply, behind the sign.
    pub fn note(&mut self, sign: &str, reply: &Reply) {
        self.add(sign.as_bytes());
        self.say(reply);
    }

    /// Notes the lines of the text, each behind the sign; where the text had no memory, not all is said.
    pub fn note_lines(&mut self, sign: &str, text: Result<String, AllocError>) {
        let Ok(text) = text else {
            self.is_whole = false;
            return;
        };
        for line in text.as_str().lines() {
            self.add(sign.as_bytes());
            self.add(line.as_bytes());
            self.add(b"\n");
        }
    }

    /// Writes all of it; false where that fails, or there was no room for all.
    pub fn write<R: Print>(&self, rt: &R) -> bool {
        self.is_whole && rt.write_all(self.text.as_slice()).is_ok()
    }
}
