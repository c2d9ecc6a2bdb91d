//! The streams of a run of the program.
ghost use Rattle.std.specs.Prelude.{◌≡◌};
ghost use Rattle.scopectl.specs.{false};

use scope_script::Watched;
use std::alloc::Global;
use std::io::{Read, Result, Write};

/// The streams of a run.
#[derive(Drop)]
pub struct Streams<'a, R: Read + Drop, W: Write + Drop, E: Write + Drop> {
    /// From where a job reads.
    pub reader: Watched<R>,
    /// Where what is asked for is written.
    pub writer: Watched<W>,
    /// Where faults and notes are said, whose own failing is passed over.
    pub errors: &'a mut Watched<E>,
}

impl<'a, R: Read + Drop, W: Write + Drop, E: Write + Drop> Streams<'a, R, W, E> {
    /// The streams of a run that begins.
    pub fn new(input: R, output: W, errors: &'a mut Watched<E>) -> Streams<'a, R, W, E>
        ensures reader { result.reader.failed ≡ false }
        ensures writer { result.writer.failed ≡ false }
    {
        Streams {
            reader: Watched::new(input),
            writer: Watched::new(output),
            errors,
        }
    }
}

/// Replies that are kept in memory. If memory is refused for some, no more are kept, and they are not whole.
#[derive(Drop)]
pub struct Kept {
    /// The replies so far.
    pub text: Vec<u8>,
    /// Whether they are all.
    pub is_whole: bool,
}

impl Kept {
    /// No reply was written yet.
    pub fn new(alloc: Global) -> Kept {
        Kept {
            text: Vec::new(alloc),
            is_whole: true,
        }
    }
}

impl Write for Kept {
    fn write(&mut self, buf: &[u8]) -> Result<usize> {
        if self.is_whole && self.text.extend_from_slice(buf).is_err() {
            self.is_whole = false;
        }
        Ok(buf.len())
    }

    fn flush(&mut self) -> Result<()> {
        Ok(())
    }
}
