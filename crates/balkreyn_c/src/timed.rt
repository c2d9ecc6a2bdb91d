//! A realm with the times of its events, by the readings of its host's clock that were noted.
ghost use Rattle.std.specs.Prelude.{[], ◌≡◌};
ghost use Rattle.balkreyn_c.specs.{IsNoted, is_back, starting, the_start, times_left};

use realm_state::RealmState;
use scope_rules::{Limits, Refusal};
use std::alloc::Global;

/// A realm, and the times of those of its events that a note has found, in order, in milliseconds. Nothing that the
/// realm answers depends on them.
#[derive(Drop)]
pub struct TimedRealm {
    pub realm: RealmState,
    pub times: Vec<u64>,
}

impl TimedRealm {
    /// A fresh realm. It takes no memory.
    pub fn new(alloc: Global, limits: Limits) -> TimedRealm
        ensures realm { result.realm ≡ starting limits the_start }
        ensures times { result.times.items ≡ [] }
    {
        TimedRealm {
            realm: RealmState::new(alloc, limits),
            times: Vec::new(alloc),
        }
    }

    /// Whether the time is before that of the last event that has one.
    fn is_back(&self, at: u64) -> bool
        ensures { result ≡ is_back self.now.times.items at }
    {
        match self.times.last().copied() {
            Some(last) => at < last,
            None => false,
        }
    }

    /// Each event that has no time happened by this one. Refused for a time before the last one (`ClockBack`), and if
    /// memory is refused (`Memory`).
    pub fn note(&mut self, at: u64) -> Result<(), Refusal>
        ensures realm { self.new.realm ≡ self.old.realm }
        ensures times { IsNoted self.old.realm.history self.old.times.items at result self.new.times.items }
    {
        if self.is_back(at) {
            return Err(Refusal::ClockBack);
        }
        let count = self.realm.event_count();
        match self.times.resize(count, at) {
            Ok(()) => Ok(()),
            Err(_) => Err(Refusal::Memory),
        }
    }

    /// Times go with their events: behind a retirement there are none.
    pub fn let_go(&mut self)
        ensures realm { self.new.realm ≡ self.old.realm }
        ensures times { self.new.times.items ≡ times_left self.old.realm.history self.old.times.items }
    {
        if self.realm.event_count() == 0 {
            self.times.clear();
        }
    }
}
