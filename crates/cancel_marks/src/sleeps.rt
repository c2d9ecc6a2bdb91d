//! How a call sleeps that waits for what others do under a lock: it counts the wakes, looks for what it waits for, gives up
//! the lock, and sleeps unless there was a wake since. Each step takes what the one before gives, and none but the last has a
//! handle by which it could take a lock again: so the lock is held from the count to the look, and no wake between is missed.
ghost use Rattle.std.specs.Prelude.{◌≡◌, IfOk, MatchResult, false};
ghost use Rattle.std.specs.Sync.Mutex.{mutex_guard_value};

use crate::wakes::{Seen, Wakes};
use std::sync::{MutexGuard, Wait};
use std::time::Duration;

/// What a call looks for before it sleeps, in what lies under a lock and elsewhere.
pub trait Awaited<T> {
    /// It isn't there, as far as what lies under the lock says.
    ghost lacks: { Self → T → Type 0 };

    /// Whether it is there.
    fn is_there(&self, locked: &T) -> bool
        ensures { result ≡ false → Self.lacks self.now locked.now };
}

/// A lock that is held, and the wakes that were counted under it. It can't be dropped.
struct Counted<'a, 'b, T> {
    wakes: &'b Wakes,
    held: MutexGuard<'a, T>,
    seen: Seen,
}

/// Such a lock under which a call then looked in vain: it sleeps. It can't be dropped.
struct Missed<'a, 'b, T> {
    counted: Counted<'a, 'b, T>,
}

impl Wakes {
    /// Sleeps until it is woken here, or for no reason, and for so long at most, if a time is given; unless what is awaited
    /// is there. The lock of the guard is given up meanwhile and taken again. So who makes what is awaited under that lock,
    /// or before a wake, and then wakes, is not missed. What lies under the lock may be other afterwards, and the sleeper
    /// looks anew. That it returns is not promised. No clause says more of a sleep or a wake: a lock's contents are known
    /// by their invariant alone, and who sleeps is seen by no contract.
    pub fn sleep_unless<'a, R: Wait, T, A: Awaited<T>>(
        &self,
        rt: &R,
        held: MutexGuard<'a, T>,
        awaited: &A,
        most: Option<Duration>,
    ) -> MutexGuard<'a, T> {
        match self.counted(held).unless(awaited) {
            Ok(missed) => missed.sleep(rt, most),
            Err(held) => held,
        }
    }

    /// Counts the wakes under the lock.
    fn counted<'a, T>(&self, held: MutexGuard<'a, T>) -> Counted<'a, '_, T>
        ensures { mutex_guard_value result.held ≡ mutex_guard_value held.entry }
    {
        let seen = self.seen(&held);
        Counted {
            wakes: self,
            held,
            seen,
        }
    }
}

impl<'a, 'b, T> Counted<'a, 'b, T> {
    /// Looks under the lock, and gives back the guard if what is awaited is there.
    fn unless<A: Awaited<T>>(self, awaited: &A) -> Result<Missed<'a, 'b, T>, MutexGuard<'a, T>>
        ensures held { MatchResult result (λ missed. mutex_guard_value missed.counted.held ≡ mutex_guard_value self.entry.held) (λ held. mutex_guard_value held ≡ mutex_guard_value self.entry.held) }
        ensures missed { IfOk result (λ _. A.lacks awaited.now (mutex_guard_value self.entry.held)) }
    {
        if awaited.is_there(&self.held) {
            let Counted {
                wakes: _,
                held,
                seen: _,
            } = self;
            return Err(held);
        }
        Ok(Missed { counted: self })
    }
}

impl<'a, T> Missed<'a, '_, T> {
    /// Gives up the lock, sleeps until there were more wakes than were counted, for so long at most, and takes the lock
    /// again.
    fn sleep<R: Wait>(self, rt: &R, most: Option<Duration>) -> MutexGuard<'a, T> {
        let Missed { counted } = self;
        let Counted { wakes, held, seen } = counted;
        let lock = MutexGuard::unlock(held);
        wakes.sleep(rt, seen, most);
        lock.lock(rt)
    }
}
