//! A clock that is set by hand, and looks at the realm whenever it is read: under the lock it would never return.
ghost use Rattle.std.specs.Prelude.{◌≡◌, Some};

use realm_lock::{Look, Realm, RealmName, RealmState};
use scope_rules::AnyEnd;
use share_ledger::Clock;
use std::sync::Wait;
use std::sync::atomic::{AtomicU64, Ordering};

/// A look that reads nothing.
struct Glance;

impl Look for Glance {
    type Answer = ();

    ghost tells = { λ look h answer. Unit {0} };

    fn look(self, _realm: &RealmState) {
        let Glance = self;
    }
}

/// A clock that takes the realm's lock first, and then counts the reading, and reads what is stored.
#[derive(Drop)]
pub struct LockingClock<'a, N: RealmName, R: Wait> {
    rt: &'a R,
    realm: &'a Realm<AnyEnd, N>,
    time: &'a AtomicU64,
    readings: &'a AtomicU64,
    last: Option<u64>,
}

impl<'a, N: RealmName, R: Wait> LockingClock<'a, N, R> {
    /// Such a clock of the realm.
    pub fn new(
        rt: &'a R,
        realm: &'a Realm<AnyEnd, N>,
        time: &'a AtomicU64,
        readings: &'a AtomicU64,
    ) -> LockingClock<'a, N, R> {
        LockingClock {
            rt,
            realm,
            time,
            readings,
            last: None,
        }
    }
}

impl<N: RealmName, R: Wait> Clock for LockingClock<'_, N, R> {
    ghost reading = { λ clock. clock.last };

    ghost reads = { λ old new now. new.last ≡ Some now };

    fn now(&mut self) -> u64 {
        self.realm.look_from_outside(self.rt, Glance);
        self.readings.fetch_add(1, Ordering::SeqCst);
        let now = self.time.load(Ordering::SeqCst);
        self.last = Some(now);
        now
    }

    fn last(&self) -> Option<u64> {
        self.last
    }
}
