use std::hint::spin_loop;
use std::sync::{Condvar, MutexGuard, Wait};
use std::time::Duration;

/// How often a call spins before it sleeps: for some ten microseconds, if a spin takes 17 nanoseconds. That is about as
/// long as falling asleep and waking take.
const SPINS: u32 = 600;

/// The longest sleep of a call that no time ends, in seconds: some thirty years. Its caller then looks anew.
const ENDLESS: u64 = 1_000_000_000;

/// What calls sleep on, each by `sleep_unless`. Its wakes are counted.
#[derive(Drop)]
pub struct Wakes {
    woken: Condvar,
}

/// How many wakes there were when a lock was held. Nobody can read that without one.
#[derive(Clone, Copy)]
pub(crate) struct Seen {
    count: u64,
}

impl Wakes {
    /// Nobody was woken here yet.
    pub fn new() -> Wakes {
        Wakes {
            woken: Condvar::new(),
        }
    }

    /// Wakes all who sleep here.
    pub fn wake(&self) {
        self.woken.notify_all();
    }

    /// How many wakes there were by now, while the caller holds this lock.
    pub(crate) fn seen<T>(&self, _held: &MutexGuard<'_, T>) -> Seen {
        Seen {
            count: self.woken.notifications(),
        }
    }

    /// Sleeps until there were more wakes than that, for so long at most, if a time is given, or for no reason.
    pub(crate) fn sleep<R: Wait>(&self, rt: &R, seen: Seen, most: Option<Duration>) {
        if !self.is_woken_soon(seen) {
            let most = most.unwrap_or(Duration::from_secs(ENDLESS));
            self.woken.sleep(rt, seen.count, most);
        }
    }

    /// Spins, and says whether there was a wake since.
    fn is_woken_soon(&self, seen: Seen) -> bool {
        for _ in 0..SPINS {
            if self.woken.notifications() != seen.count {
                return true;
            }
            spin_loop();
        }
        false
    }
}
