//! Numbers that look random, and are the same for the same seed.
ghost use Rattle.std.specs.Prelude.{◌<◌};

/// A linear congruence (Knuth's MMIX), of which the upper bits are taken.
#[derive(Drop)]
pub struct Throws {
    state: u64,
}

impl Throws {
    pub fn new(seed: u64) -> Throws {
        Throws { state: seed }
    }

    /// A number below the bound.
    pub fn below(&mut self, bound: u32) -> u32
        requires { 0 < bound }
    {
        self.state = self
            .state
            .wrapping_mul(0x5851_F42D_4C95_7F2D)
            .wrapping_add(0x1405_7B7E_F767_814F);
        u32::try_from(self.state >> 33).unwrap_or(0) % bound
    }

    /// A number of any size.
    pub fn any(&mut self) -> u64 {
        let high = u64::from(self.below(u32::MAX));
        (high << 31) | u64::from(self.below(1 << 31))
    }

    /// Whether something happens that does once in so many times.
    pub fn one_in(&mut self, times: u32) -> bool
        requires { 0 < times }
    {
        self.below(times) == 0
    }
}
