ghost use Rattle.std.specs.Prelude.{◌≡◌, ◌≤◌, IfSome, None, Some, false};
ghost use Rattle.share_ledger.specs.{Fail, IsAfter, MoveOn};

use scope_rules::Options;
use std::rt::Clock as SystemTime;
use std::time::Instant;

/// Where the moments come from, in milliseconds since the realm began.
pub trait Clock {
    ghost use Rattle.std.specs.Prelude.{ℕ, Option};

    /// What the last reading was, if there was one.
    ghost reading: { Self → Option ℕ };

    /// A reading of the first clock gives this, and leaves the second.
    ghost reads: { Self → Self → ℕ → Type 0 };

    /// Reads the clock.
    fn now(&mut self) -> u64
        ensures last { Self.reading self.new ≡ Some result }
        ensures read { Self.reads self.old self.new result };

    /// What the last reading was.
    fn last(&self) -> Option<u64>
        ensures { result ≡ Self.reading self.now };
}

/// The system's monotonic clock, in milliseconds, from some time of the realm on. Copies of it count from
/// the same start, so main and its jobs have one time. No reading of one is before that moment or before
/// the one before: if the system gives no time, it stands still.
#[derive(Clone, Copy)]
pub struct SystemClock<R> {
    rt: R,
    start: Instant,
    first: u64,
    last: Option<u64>,
}

impl<R: SystemTime + Copy> SystemClock<R> {
    /// A clock that begins now, at this time: 0 for a realm that begins. None if the system gives no
    /// time.
    pub fn starting_at(rt: R, moment: u64) -> Option<SystemClock<R>>
        ensures { IfSome result (λ clock. (clock.first ≡ moment) × (clock.last ≡ None)) }
    {
        let start = Instant::now(&rt).ok()?;
        Some(SystemClock {
            rt,
            start,
            first: moment,
            last: None,
        })
    }

    /// The handle that the clock was made over, for a job that has only the clock.
    pub fn runtime(&self) -> R
        ensures { result ≡ self.now.rt }
    {
        self.rt
    }

    /// The milliseconds since the start, or 0 if the system gives no time.
    fn since_start(&self) -> u64 {
        match self.start.elapsed(&self.rt) {
            Ok(since) => since
                .as_secs()
                .saturating_mul(1_000)
                .saturating_add(u64::from(since.subsec_millis())),
            Err(_) => 0,
        }
    }
}

impl<R: SystemTime + Copy> Clock for SystemClock<R> {
    ghost reading = { λ clock. clock.last };

    ghost reads = { λ old new now. (old.first ≤ now) × IfSome old.last (λ before. before ≤ now) × (new.first ≡ old.first) × (new.last ≡ Some now) };

    fn now(&mut self) -> u64 {
        let least = self.last.unwrap_or(self.first).max(self.first);
        let now = self.first.saturating_add(self.since_start()).max(least);
        self.last = Some(now);
        now
    }

    fn last(&self) -> Option<u64> {
        self.last
    }
}

/// A clock that is set by hand, for tests.
#[derive(Drop)]
pub struct SetClock {
    /// What the next reading gives, in milliseconds.
    pub next: u64,
    last: Option<u64>,
}

impl SetClock {
    /// A clock that reads so, until it is set anew.
    pub fn new(next: u64) -> SetClock
        ensures { result.next ≡ next }
    {
        SetClock { next, last: None }
    }
}

impl Clock for SetClock {
    ghost reading = { λ clock. clock.last };

    ghost reads = { λ old new now. (now ≡ old.next) × (new.next ≡ old.next) × (new.last ≡ Some now) };

    fn now(&mut self) -> u64 {
        self.last = Some(self.next);
        self.next
    }

    fn last(&self) -> Option<u64> {
        self.last
    }
}

/// Plain options with a deadline so many milliseconds after what the clock reads; if it passes, the
/// scope's outcome is a timeout (Trio, `fail_after`).
pub fn fail_after<K: Clock>(clock: &mut K, millis: u64) -> Options
    ensures { IfSome (K.reading clock.new) (λ now. K.reads clock.old clock.new now × IsAfter now millis Fail result) }
{
    Options::by(clock.now().saturating_add(millis))
}

/// The same, if the scope's outcome is what had arrived by then (Trio, `move_on_after`).
pub fn move_on_after<K: Clock>(clock: &mut K, millis: u64) -> Options
    ensures { IfSome (K.reading clock.new) (λ now. K.reads clock.old clock.new now × IsAfter now millis MoveOn result) }
{
    Options::by(clock.now().saturating_add(millis)).moving_on()
}
