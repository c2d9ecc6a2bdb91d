ghost use Rattle.std.specs.Prelude.{ℕ, ◌*◌, ◌-◌, ◌≡◌, None, Some};
ghost use Rattle.realm_lock.specs.{IsPassed, Lacks, MatchOption, NANOS, as_nanos, history_of, mutex_guard_value, sooner};

use crate::locked::LockedRealm;
use crate::lookouts::{Lookout, Wanted};
use crate::realm::Realm;
use crate::timed_waiters::OwedWatch;
use realm_core::RealmName;
use scope_rules::Catalog;
use std::sync::{MutexGuard, Wait};
use std::time::Duration;

// For how many milliseconds at most a call sleeps by a clock that isn't noted among those who do.
const UNNOTED_MILLIS: u64 = 10;

/// Who sleeps where. A call that waits for a scope sleeps at the scope's cell, which is woken when the
/// scope becomes cancelled and when the last of its tasks has ended. So an event wakes only those whom it
/// concerns. Of those who wait by a clock one watches: it sleeps until the realm's next deadline, and is
/// woken when one comes nearer. A call that ends its wait wakes another to watch, if nobody does.
/// All sleep by `Wakes::sleep_unless`, which looks once more: count, look and unlock can't be done in another order.
impl<C: Catalog, N: RealmName> Realm<C, N> {
    /// Sleeps until it is woken, unless what it wants is there.
    pub(crate) fn sleep_at<'a, R: Wait>(
        &'a self,
        rt: &R,
        locked: MutexGuard<'a, LockedRealm<C, N>>,
        wanted: Wanted<'_>,
    ) -> MutexGuard<'a, LockedRealm<C, N>>
        requires busy { Lacks (history_of (mutex_guard_value locked).steps) wanted }
    {
        match wanted.target(&locked) {
            Some(target) => {
                let lookout = Lookout {
                    wanted,
                    noted: None,
                };
                target
                    .wakes(&self.shared.moments)
                    .sleep_unless(rt, locked, &lookout, None)
            }
            None => {
                drop(locked);
                self.shared.lock(rt)
            }
        }
    }

    /// Sleeps until it is woken, a deadline has come, or `until`, unless what it wants is there; the clock has read `now`,
    /// if there is one, and no deadline has come by then. If the cell or bell isn't had, since std's count of holders is full,
    /// it doesn't sleep. Takes the watch that the call owes, and gives the one that it owes then.
    pub(crate) fn park<'a, R: Wait>(
        &'a self,
        rt: &R,
        locked: MutexGuard<'a, LockedRealm<C, N>>,
        now: Option<u64>,
        until: Option<u64>,
        wanted: Wanted<'_>,
        owed: Option<OwedWatch>,
    ) -> Option<OwedWatch>
        requires busy { Lacks (history_of (mutex_guard_value locked).steps) wanted }
        requires passed { IsPassed (history_of (mutex_guard_value locked).steps) now }
    {
        let Some(now) = now else {
            let _locked = self.sleep_at(rt, locked, wanted);
            return owed;
        };
        let mut locked = locked;
        let Some(target) = wanted.target(&locked) else {
            return owed;
        };
        let wakes = target.wakes(&self.shared.moments);
        match locked.note_waiter(&target, owed) {
            Ok(noted) => {
                let watches = locked.is_watching(&noted);
                let deadline = if watches {
                    locked.next_deadline()
                } else {
                    locked.deadline_at(&target)
                };
                let lookout = Lookout {
                    wanted,
                    noted: Some((&noted, watches)),
                };
                let most = time_to(now, deadline, until);
                let mut locked = wakes.sleep_unless(rt, locked, &lookout, most);
                locked.forget_waiter(noted)
            }
            Err(owed) => {
                let most = now.saturating_add(UNNOTED_MILLIS);
                let until = until.unwrap_or(most).min(most);
                let most = time_to(now, locked.next_deadline(), Some(until));
                let lookout = Lookout {
                    wanted,
                    noted: None,
                };
                let _locked = wakes.sleep_unless(rt, locked, &lookout, most);
                owed
            }
        }
    }

    /// A wait by a clock ends: if it owes the watch, and nobody keeps it, one who sleeps is woken to.
    pub(crate) fn hand_on(&self, locked: &LockedRealm<C, N>, owed: Option<OwedWatch>) {
        match owed {
            Some(owed) => match locked.heir(owed) {
                Some(heir) => heir.wake(&self.shared.moments),
                None => {}
            },
            None => {}
        }
    }

    /// Wakes who watches, if the next deadline is nearer now than it was.
    pub(crate) fn wake_if_nearer(&self, locked: &mut LockedRealm<C, N>, before: Option<u64>)
        ensures { locked.new ≡ locked.old }
    {
        if is_nearer(locked.next_deadline(), before) {
            if let Some(place) = locked.dismiss_watcher() {
                if let Some(target) = locked.target(place) {
                    target.wakes(&self.shared.moments).wake();
                }
            }
        }
    }
}

/// The time from `now` to the sooner of the two moments, in milliseconds, if there is one.
fn time_to(now: u64, deadline: Option<u64>, until: Option<u64>) -> Option<Duration>
    ensures { MatchOption result (sooner deadline until ≡ None) (λ most. (end : ℕ) × (sooner deadline until ≡ Some end) × (as_nanos most ≡ (end - now) * NANOS)) }
{
    let end = match (deadline, until) {
        (Some(deadline), Some(until)) => deadline.min(until),
        (Some(deadline), None) => deadline,
        (None, Some(until)) => until,
        (None, None) => return None,
    };
    Some(Duration::from_millis(end.saturating_sub(now)))
}

/// Whether the deadline that comes next now is nearer than the one that came next before.
fn is_nearer(now: Option<u64>, before: Option<u64>) -> bool {
    match (now, before) {
        (Some(now), Some(before)) => now < before,
        (Some(_), None) => true,
        (None, _) => false,
    }
}
