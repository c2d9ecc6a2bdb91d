//! The note of a line.
use crate::whys::{ShownWhy, Why};
use refusal_reasons::{ShownBytes, ShownPlace, place_of};
use scope_script::Reply;
use std::fmt;

/// Which notes are wanted.
#[derive(Clone, Copy, PartialEq, Eq)]
pub enum Notes {
    /// Why each refused line was refused.
    Refusals,
    /// What each line was answered.
    Replies,
    /// Both.
    All,
}

/// `line N: TEXT`.
#[derive(Clone, Copy)]
struct ShownHead<'a> {
    number: u64,
    line: &'a [u8],
}

impl fmt::Display for ShownHead<'_> {
    fn fmt<W: fmt::Write>(&self, f: &mut fmt::Formatter<W>) -> fmt::Result {
        write!(f, "line {}: {}", self.number, ShownBytes(self.line))
    }
}

/// The line with its reply.
#[derive(Clone, Copy)]
struct ShownReplied<'a> {
    head: ShownHead<'a>,
    reply: &'a Reply,
}

impl fmt::Display for ShownReplied<'_> {
    fn fmt<W: fmt::Write>(&self, f: &mut fmt::Formatter<W>) -> fmt::Result {
        write!(f, "{} -> {}", self.head, self.reply)
    }
}

/// How the note of a refused line begins: a word that is wrong has a place.
#[derive(Clone, Copy)]
struct ShownRefused<'a> {
    head: ShownHead<'a>,
    why: Why,
}

impl fmt::Display for ShownRefused<'_> {
    fn fmt<W: fmt::Write>(&self, f: &mut fmt::Formatter<W>) -> fmt::Result {
        match self.why {
            Why::BadWord(Some(fault)) => {
                let number = self.head.number;
                let column = place_of(self.head.line, fault).column;
                write!(f, "line {number}, column {column}")
            }
            _ => write!(f, "{}", self.head),
        }
    }
}

/// What stands below a note: the line with the place of a word that is wrong.
#[derive(Clone, Copy)]
struct ShownBelow<'a> {
    line: &'a [u8],
    why: Why,
}

impl fmt::Display for ShownBelow<'_> {
    fn fmt<W: fmt::Write>(&self, f: &mut fmt::Formatter<W>) -> fmt::Result {
        let line = self.line;
        match self.why {
            Why::BadWord(Some(fault)) => {
                let place = place_of(line, fault);
                write!(f, "{}", ShownPlace { line, place })
            }
            _ => Ok(()),
        }
    }
}

/// Why a line was refused, and what stands below that.
#[derive(Clone, Copy)]
struct ShownExplained<'a> {
    lines: &'a [u64],
    line: &'a [u8],
    why: Why,
}

impl fmt::Display for ShownExplained<'_> {
    fn fmt<W: fmt::Write>(&self, f: &mut fmt::Formatter<W>) -> fmt::Result {
        let lines = self.lines;
        let line = self.line;
        let why = self.why;
        let below = ShownBelow { line, why };
        write!(f, ": {}\n{below}", ShownWhy { lines, line, why })
    }
}

/// The note of the line with this number and reply, which was refused for that, if it was; of each event the line is
/// known that recorded it. It is no text if no note is wanted.
#[derive(Clone, Copy)]
pub(crate) struct ShownNote<'a> {
    pub(crate) wanted: Notes,
    pub(crate) lines: &'a [u64],
    pub(crate) number: u64,
    pub(crate) line: &'a [u8],
    pub(crate) reply: &'a Reply,
    pub(crate) why: Option<Why>,
}

impl fmt::Display for ShownNote<'_> {
    fn fmt<W: fmt::Write>(&self, f: &mut fmt::Formatter<W>) -> fmt::Result {
        let lines = self.lines;
        let line = self.line;
        let head = ShownHead {
            number: self.number,
            line,
        };
        let replied = ShownReplied {
            head,
            reply: self.reply,
        };
        match (self.wanted, self.why) {
            (Notes::Refusals, None) => Ok(()),
            (Notes::Refusals, Some(why)) => {
                let refused = ShownRefused { head, why };
                write!(f, "{refused}{}", ShownExplained { lines, line, why })
            }
            (Notes::All, Some(why)) => {
                write!(f, "{replied}{}", ShownExplained { lines, line, why })
            }
            (Notes::Replies, _) | (Notes::All, None) => write!(f, "{replied}\n"),
        }
    }
}
