//! By what a call waits.
ghost use Rattle.std.specs.Prelude.{None};

use share_ledger::Clock;

/// By what a call waits: by a clock, whose readings pass the realm's time, or by `Never`.
pub trait Time {
    ghost use Rattle.std.specs.Prelude.{ℕ, ◌≡◌, Option};
    ghost use Rattle.realm_lock.specs.Waits.{ReadsAs};

    /// What the last reading was, if there was one.
    ghost reading: { Self → Option ℕ };

    /// A reading of the first gives this, and leaves the second.
    ghost reads: { Self → Self → ℕ → Type 0 };

    /// Reads the clock, if it is one.
    fn read(&mut self) -> Option<u64>
        ensures last { reading self.new ≡ result }
        ensures read { ReadsAs reads self.old self.new result };
}

/// No clock: who waits by it reads none, and no deadline passes by its wait.
#[derive(Clone, Copy)]
pub struct Never;

impl Time for Never {
    ghost reading = { λ time. None };

    ghost reads = { λ old new now. ⊥ };

    fn read(&mut self) -> Option<u64> {
        None
    }
}

impl<K: Clock> Time for K {
    ghost reading = { K.reading };

    ghost reads = { K.reads };

    fn read(&mut self) -> Option<u64> {
        Some(self.now())
    }
}
