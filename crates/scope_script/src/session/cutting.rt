//! Where the lines of a piece end.

ghost use Rattle.std.specs.Prelude.{◌≡◌, MatchOption, false};
ghost use Rattle.scope_script.specs.{CutsLine, has_feed};

use memchr::memchr;

/// The first line that a line feed ends in the bytes, and what comes after it; `None` where none ends.
#[inline(always)]
#[tactic(auto, using(crate::proofs::Feeds::no_feed))]
pub fn first_line(bytes: &[u8]) -> Option<(&[u8], &[u8])>
    ensures { MatchOption result (has_feed bytes.now ≡ false) (λ cut. CutsLine bytes.now cut.0.now cut.1.now) }
{
    let end = memchr(b'\n', bytes)?;
    Some((bytes.split_at(end).0, bytes.split_at(end + 1).1))
}
