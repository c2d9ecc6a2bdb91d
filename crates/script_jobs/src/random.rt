//! Numbers that look random, by the generator SplitMix64.
ghost use Rattle.std.specs.Prelude.{◌<◌};

/// A sequence of numbers that its first state decides.
#[derive(Drop)]
pub(crate) struct Random {
    state: u64,
}

impl Random {
    /// The sequence of this seed.
    pub(crate) fn new(seed: u32) -> Random {
        Random {
            state: u64::from(seed),
        }
    }

    /// The next number.
    fn next(&mut self) -> u64 {
        self.state = self.state.wrapping_add(0x9e37_79b9_7f4a_7c15);
        let one = (self.state ^ (self.state >> 30)).wrapping_mul(0xbf58_476d_1ce4_e5b9);
        let two = (one ^ (one >> 27)).wrapping_mul(0x94d0_49bb_1331_11eb);
        two ^ (two >> 31)
    }

    /// The next number, below `limit`.
    pub(crate) fn below(&mut self, limit: u32) -> u32
        requires { 0 < limit }
        ensures { result < limit }
    {
        (self.next() % u64::from(limit)) as u32
    }

    /// Whether the next of `parts` parts is the first.
    pub(crate) fn is_one_of(&mut self, parts: u32) -> bool
        requires { 0 < parts }
    {
        self.below(parts) == 0
    }
}
