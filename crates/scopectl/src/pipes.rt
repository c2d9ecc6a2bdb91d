//! A pipe whose reader has gone: then nothing more is said.
use std::cell::Cell;
use std::io::{ErrorKind, Result, Write};

/// Standard output, of which it is noted that its reader has gone.
#[derive(Drop)]
pub struct Output<'a, W: Drop> {
    /// The stream itself.
    pub inner: W,
    /// Whether its reader has gone.
    pub broken: &'a Cell<bool>,
}

impl<W: Write + Drop> Write for Output<'_, W> {
    fn write(&mut self, buf: &[u8]) -> Result<usize> {
        match self.inner.write(buf) {
            Ok(count) => Ok(count),
            Err(error) => {
                if error.kind() == ErrorKind::BrokenPipe {
                    self.broken.set(true);
                }
                Err(error)
            }
        }
    }

    fn flush(&mut self) -> Result<()> {
        self.inner.flush()
    }
}

/// Standard error, which takes and drops what is said once the reader of standard output has gone.
#[derive(Drop)]
pub struct Messages<'a, E: Drop> {
    /// The stream itself.
    pub inner: E,
    /// Whether the reader of standard output has gone.
    pub broken: &'a Cell<bool>,
}

impl<E: Write + Drop> Write for Messages<'_, E> {
    fn write(&mut self, buf: &[u8]) -> Result<usize> {
        if self.broken.get() {
            return Ok(buf.len());
        }
        self.inner.write(buf)
    }

    fn flush(&mut self) -> Result<()> {
        if self.broken.get() {
            return Ok(());
        }
        self.inner.flush()
    }
}
