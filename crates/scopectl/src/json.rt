//! Replies as JSON, one object a line.

use arrayvec::ArrayVec;
use std::io::{ErrorKind, Write};
use std::{io, mem};

/// How many bytes a word of a reply has at most: a name, `=` and a value, or two numbers.
const WORD_ROOM: usize = 64;

/// How many bytes are written at a time.
const PIECE: usize = 4096;

/// Standard output, to which replies go as text or as JSON.
#[derive(Drop)]
pub enum Replies<W: Drop> {
    Text(W),
    Json(JsonReplies<W>),
}

impl<W: Drop> Replies<W> {
    /// Nothing was written yet.
    pub fn new(is_json: bool, inner: W) -> Replies<W> {
        if is_json {
            Replies::Json(JsonReplies {
                inner,
                word: ArrayVec::new(),
                part: Part::Before,
                out: ArrayVec::new(),
            })
        } else {
            Replies::Text(inner)
        }
    }

    /// The stream itself.
    pub fn into_inner(self) -> W {
        match self {
            Replies::Text(inner) => inner,
            Replies::Json(replies) => replies.inner,
        }
    }
}

impl<W: Write + Drop> Write for Replies<W> {
    fn write(&mut self, buf: &[u8]) -> io::Result<usize> {
        match self {
            Replies::Text(inner) => inner.write(buf),
            Replies::Json(replies) => replies.write(buf),
        }
    }

    fn flush(&mut self) -> io::Result<()> {
        match self {
            Replies::Text(inner) => inner.flush(),
            Replies::Json(replies) => replies.flush(),
        }
    }
}

/// Which part of an object was written last.
#[derive(Clone, Copy)]
enum Part {
    /// None.
    Before,
    /// Its first word.
    Reply,
    /// A word without `=`.
    Values,
    /// A word with `=`.
    Named,
}

/// A writer to which replies go as JSON. A reply `WORD A.. K=V..` becomes
/// `{"reply":"WORD","values":[A,..],"named":{"K":V,..}}`, without the parts that it lacks. A word of decimal digits, with
/// or without a hyphen in front, is a number, and each other one a string. It takes no memory.
#[derive(Drop)]
pub struct JsonReplies<W: Drop> {
    inner: W,
    word: ArrayVec<u8, WORD_ROOM>,
    part: Part,
    out: ArrayVec<u8, PIECE>,
}

impl<W: Write + Drop> JsonReplies<W> {
    /// Writes what has come together.
    fn send(&mut self) -> io::Result<()> {
        self.inner.write_all(self.out.as_slice())?;
        self.out.clear();
        Ok(())
    }

    /// Writes the bytes, now or later.
    fn put(&mut self, bytes: &[u8]) -> io::Result<()> {
        for byte in bytes {
            if self.out.is_full() {
                self.send()?;
            }
            if self.out.try_push(*byte).is_err() {
                return Err(ErrorKind::WriteZero.into());
            }
        }
        Ok(())
    }

    /// Writes the word that has ended.
    fn end_word(&mut self) -> io::Result<()> {
        let taken = mem::replace(&mut self.word, ArrayVec::new());
        let word = taken.as_slice();
        match self.part {
            Part::Before => {
                self.put(b"{\"reply\":\"")?;
                self.put(word)?;
                self.put(b"\"")?;
                self.part = Part::Reply;
            }
            _ => match word.iter().position(|byte| *byte == b'=') {
                Some(place) => {
                    let (name, value) = word.split_at(place);
                    self.put_named(name, value.split_at(1).1)?;
                }
                None => self.put_plain(word)?,
            },
        }
        Ok(())
    }

    /// Writes a word without `=`.
    fn put_plain(&mut self, word: &[u8]) -> io::Result<()> {
        match self.part {
            Part::Values => self.put(b",")?,
            _ => self.put(b",\"values\":[")?,
        }
        self.part = Part::Values;
        self.put_value(word)
    }

    /// Writes a word with `=`, which stands behind those without.
    fn put_named(&mut self, name: &[u8], value: &[u8]) -> io::Result<()> {
        match self.part {
            Part::Named => self.put(b",\"")?,
            Part::Values => self.put(b"],\"named\":{\"")?,
            _ => self.put(b",\"named\":{\"")?,
        }
        self.part = Part::Named;
        self.put(name)?;
        self.put(b"\":")?;
        self.put_value(value)
    }

    /// Writes the word as a number if it is one, and else as a string.
    fn put_value(&mut self, word: &[u8]) -> io::Result<()> {
        if is_number(word) {
            return self.put(word);
        }
        self.put(b"\"")?;
        self.put(word)?;
        self.put(b"\"")
    }

    /// Ends the object.
    fn end_line(&mut self) -> io::Result<()> {
        match self.part {
            Part::Values => self.put(b"]}\n")?,
            Part::Named => self.put(b"}}\n")?,
            _ => self.put(b"}\n")?,
        }
        self.part = Part::Before;
        Ok(())
    }

    /// Takes one byte of a reply.
    fn take(&mut self, byte: u8) -> io::Result<()> {
        match byte {
            b' ' => self.end_word(),
            b'\n' => {
                self.end_word()?;
                self.end_line()
            }
            _ => match self.word.try_push(byte) {
                Ok(()) => Ok(()),
                Err(_) => Err(ErrorKind::InvalidData.into()),
            },
        }
    }
}

impl<W: Write + Drop> Write for JsonReplies<W> {
    fn write(&mut self, buf: &[u8]) -> io::Result<usize> {
        for byte in buf {
            self.take(*byte)?;
        }
        self.send()?;
        Ok(buf.len())
    }

    fn flush(&mut self) -> io::Result<()> {
        self.inner.flush()
    }
}

/// Whether the word is of decimal digits, with or without a hyphen in front.
fn is_number(word: &[u8]) -> bool {
    let digits = match word {
        [b'-', digits @ ..] => digits,
        _ => word,
    };
    !digits.is_empty() && digits.iter().all(|byte| byte.is_ascii_digit())
}
