//! The first line by which replies differ from those that were expected.
ghost use Rattle.std.specs.Prelude.{◌≡◌};
ghost use Rattle.script_jobs.specs.{BeginAlike, DiffersAt, IfSome, IsFirst, MatchOption};

use refusal_reasons::ShownBytes;
use scope_script::first_line;
use std::fmt;

/// The first line by which two texts differ. A line that only one text has is empty in the other, and a last line may
/// lack its line feed.
#[derive(Clone, Copy)]
pub struct Difference<'a> {
    /// Its number, from 1.
    pub number: usize,
    /// The line of the text that was wanted.
    pub wanted: &'a [u8],
    /// The line of the text that was given.
    pub given: &'a [u8],
}

/// The number of the line, and both lines, each on a line of its own.
impl fmt::Display for Difference<'_> {
    fn fmt<W: fmt::Write>(&self, f: &mut fmt::Formatter<W>) -> fmt::Result {
        let wanted = ShownBytes(self.wanted);
        let given = ShownBytes(self.given);
        write!(
            f,
            "line {}\n  expected: {wanted}\n  replied:  {given}\n",
            self.number
        )
    }
}

/// The first line by which the given text differs from the one that was wanted, if it does.
pub fn first_difference<'a>(wanted: &'a [u8], given: &'a [u8]) -> Option<Difference<'a>>
    ensures { MatchOption result (wanted.now ≡ given.now) (λ d. DiffersAt d.number wanted.now given.now d.wanted.now d.given.now) }
{
    let mut number = 1;
    let mut one = wanted;
    let mut other = given;
    while let Some((rest, others)) = behind_same(one, other) {
        number += 1;
        one = rest;
        other = others;
    }
    if one == other {
        return None;
    }
    Some(Difference {
        number,
        wanted: head(one),
        given: head(other),
    })
}

/// What stands in both texts behind their first line, if line feeds end it and it is the same.
fn behind_same<'a>(one: &'a [u8], other: &'a [u8]) -> Option<(&'a [u8], &'a [u8])>
    ensures { IfSome result (λ rests. BeginAlike one.now other.now rests.0.now rests.1.now) }
{
    let (line, rest) = first_line(one)?;
    let (reply, others) = first_line(other)?;
    if line == reply {
        Some((rest, others))
    } else {
        None
    }
}

/// The first line of the text, which may lack its line feed.
fn head(text: &[u8]) -> &[u8]
    ensures { IsFirst text.now result.now }
{
    match first_line(text) {
        Some((line, _)) => line,
        None => text,
    }
}
