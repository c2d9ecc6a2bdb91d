ghost use Rattle.std.specs.Prelude.{ℕ, ◌+◌, ◌<◌, ◌≡◌, ◌≤◌, IfOk, IsOk, List, OnErr, OnOk, false, length, take, true};
ghost use Rattle.scope_script.specs.{Appends, AppendsPart, Consumes, IsAtEnd, Keeps};

use std::io::{Read, Write};
use thiserror::Error;

/// A stream that remembers whether a call of it has failed, and how many reads were asked of it. A
/// write that takes no byte of a piece that has some counts as failed.
#[derive(Drop)]
pub struct Watched<T: Drop> {
    inner: T,
    failed: bool,
    reads: u64,
}

/// A call of the stream failed.
#[derive(Clone, Copy, Debug, Error)]
#[error("the stream failed")]
pub struct StreamFailed;

impl<T: Drop> Watched<T> {
    /// The stream, of which no call has failed yet.
    pub fn new(inner: T) -> Watched<T>
        ensures inner { result.inner ≡ inner }
        ensures unfailed { result.failed ≡ false }
        ensures unread { result.reads ≡ 0 }
    {
        Watched {
            inner,
            failed: false,
            reads: 0,
        }
    }

    /// Whether a call of the stream has failed.
    pub fn has_failed(&self) -> bool
        ensures { result ≡ self.now.failed }
    {
        self.failed
    }

    /// The stream itself.
    pub fn into_inner(self) -> T
        ensures { result ≡ self.inner }
    {
        self.inner
    }

    /// Whether as many reads were asked of the stream as are counted, 2^64 - 1: no more may be.
    pub fn has_given_up(&self) -> bool
        ensures given_up { result ≡ true → self.now.reads ≡ u64.MAX }
        ensures going { result ≡ false → self.now.reads < u64.MAX }
    {
        self.reads == u64::MAX
    }
}

impl<R: Read + Drop> Watched<R> {
    /// Reads some bytes into the front of the piece, none only at the end of the stream. Refused if the
    /// stream failed.
    pub fn read_piece(&mut self, piece: &mut [u8]) -> Result<usize, StreamFailed>
        requires some { 0 < length piece.old }
        requires going { self.old.reads < u64.MAX }
        ensures within { IfOk result (λ n. n ≤ length piece.new) }
        ensures counted { self.new.reads ≡ self.old.reads + 1 }
        ensures same_room { length piece.new ≡ length piece.old }
        ensures bytes { IfOk result (λ n. Consumes (R.remaining self.old.inner) (R.remaining self.new.inner) (take n piece.new)) }
        ensures end { IfOk result (λ n. n ≡ 0 → IsAtEnd (R.remaining self.new.inner)) }
        ensures unfailed { OnOk result (self.new.failed ≡ self.old.failed) }
        ensures kept { OnErr result (Keeps (R.remaining self.old.inner) (R.remaining self.new.inner)) }
        ensures failed { OnErr result (self.new.failed ≡ true) }
    {
        self.reads += 1;
        match self.inner.read(piece) {
            Ok(count) => Ok(count),
            Err(_) => {
                self.failed = true;
                Err(StreamFailed)
            }
        }
    }
}

impl<W: Write + Drop> Watched<W> {
    /// Writes all the bytes, piece by piece, and has them on their way. After a failure, some of them
    /// from the first on were written.
    pub fn write_bytes(&mut self, bytes: &[u8]) -> Result<(), StreamFailed>
        ensures all { OnOk result (Appends (W.contents self.old.inner) (W.contents self.new.inner) bytes.now) }
        ensures unfailed { OnOk result (self.new.failed ≡ self.old.failed) }
        ensures part { OnErr result (AppendsPart (W.contents self.old.inner) (W.contents self.new.inner) bytes.now) }
        ensures failed { OnErr result (self.new.failed ≡ true) }
    {
        let mut rest = bytes;
        while !rest.is_empty() {
            match self.inner.write(rest) {
                Ok(0) | Err(_) => {
                    self.failed = true;
                    return Err(StreamFailed);
                }
                Ok(count) => rest = rest.split_at(count).1,
            }
        }
        match self.inner.flush() {
            Ok(()) => Ok(()),
            Err(_) => {
                self.failed = true;
                Err(StreamFailed)
            }
        }
    }
}
