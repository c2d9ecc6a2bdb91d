//! Where a line ends.

ghost use Rattle.std.specs.Prelude.{◌<◌, ◌∷◌, ◌≡◌};
ghost use Rattle.quote_plan.specs.{[], CutsLine, HasNoFeed, IfSome, MatchOption, is_feed, length, position, slice_split};

/// The first line that a line feed ends in the bytes, and what comes after it; `None` where none ends.
#[tactic(auto, using(crate::proofs::Cuts::uncut))]
pub(crate) fn first_line(bytes: &[u8]) -> Option<(&[u8], &[u8])>
    ensures pieces { MatchOption result (slice_split is_feed bytes.now ≡ bytes.now ∷ []) (λ cut. slice_split is_feed bytes.now ≡ cut.0.now ∷ slice_split is_feed cut.1.now) }
    ensures whole { MatchOption result (HasNoFeed bytes.now) (λ cut. CutsLine bytes.now cut.0.now cut.1.now) }
    ensures shorter { IfSome result (λ cut. length cut.1.now < length bytes.now) }
{
    let end = first_feed(bytes)?;
    Some((bytes.split_at(end).0, bytes.split_at(end + 1).1))
}

/// Where the first line feed is.
fn first_feed(bytes: &[u8]) -> Option<usize>
    ensures { result ≡ position is_feed bytes.now }
{
    bytes.iter().position(|byte| *byte == b'\n')
}
