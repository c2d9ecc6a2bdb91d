ghost use Rattle.std.specs.Prelude.{[], ◌≡◌, IfOk, MatchResult, None};
ghost use Rattle.realm_lock.specs.{Memory, history_seen, innermost};

use crate::locked::LockedRealm;
use cancel_marks::Wakes;
use realm_core::RealmName;
use scope_rules::types::values::MAIN;
use scope_rules::{Catalog, Limits, Refusal};
use share_ledger::{OwnerShare, Seed};
use std::alloc::Global;
use std::hint::spin_loop;
use std::sync::{Arc, Mutex, MutexGuard, Wait};

/// The lock of a realm, and what those sleep on who wait for a moment alone. It is generic in what lies
/// under the lock, so that the check shows of any that may go to another thread that this may too; a realm's
/// own is named if it has methods.
#[derive(Drop)]
pub(crate) struct Shared<K: Drop> {
    pub(crate) locked: Mutex<K>,
    pub(crate) moments: Wakes,
}

/// How often a call tries to take the lock before it may sleep for it: most holds take less than a microsecond, and to sleep
/// and be woken takes some ten.
const TRIES: u32 = 300;

impl<K: Drop> Shared<K> {
    /// Takes the lock. It tries some times first, since most holds are short: std's own lock sleeps at once if another
    /// thread sleeps for it, so all that come then would.
    pub(crate) fn lock<R: Wait>(&self, rt: &R) -> MutexGuard<'_, K> {
        for _ in 0..TRIES {
            if let Some(guard) = self.locked.try_lock() {
                return guard;
            }
            spin_loop();
        }
        self.locked.lock(rt)
    }
}

/// A realm for threads to share: each has a share of it. Whenever its lock is free, its book is the
/// replay of its list of steps, which is legal, and each end in it fits its task's label by the catalog
/// `C`. `N` is the realm's name. It keeps no closure of a caller's: an `until` joiner goes by its rule, with
/// which its closure agrees. So works for other threads may hold a share of it.
///
/// A join with main's token, as a test of `lock_tests` has it:
///
/// ```rust
/// fn is_done<N: RealmName, R: Wait>(
///     rt: &R,
///     realm: &Realm<AnyEnd, N>,
///     main: &mut ActorToken,
///     scope: ScopeId,
/// ) -> bool
///     requires { main.old.table ≡ N.table }
///     ensures { main.new ≡ record main.old { seen = main.new.seen } }
/// {
///     match realm.join(rt, main, scope) {
///         Ok(joined) => matches!(joined.outcome, Outcome::Done),
///         Err(_) => false,
///     }
/// }
/// ```
#[derive(Drop)]
pub struct Realm<C: Catalog, N: RealmName> {
    pub(crate) shared: Arc<Shared<LockedRealm<C, N>>, Global>,
}

impl<C: Catalog, N: RealmName> Realm<C, N> {
    /// A realm that begins, and main's token, which has seen nothing yet, and so no scope. Refused if
    /// memory is (`Memory`).
    pub fn new(
        alloc: Global,
        seed: Seed,
        limits: Limits,
    ) -> Result<(Realm<C, N>, OwnerShare), Refusal>
        requires named { seed ≡ N.table }
        ensures made { MatchResult result (λ made. made.1 ≡ record { table = N.table; limits = limits; actor = MAIN; seen = [] }) (λ refusal. refusal ≡ Memory) }
        ensures idle { IfOk result (λ made. innermost (history_seen made.1) made.1.actor ≡ None) }
    {
        let (locked, token) = LockedRealm::new(alloc, seed, limits);
        let shared = Shared {
            locked: Mutex::new(locked),
            moments: Wakes::new(),
        };
        match Arc::new(alloc, shared) {
            Ok(shared) => Ok((Realm { shared }, token)),
            Err(_) => Err(Refusal::Memory),
        }
    }

    /// A share for one holder more, as for another thread. Nothing is copied; it is refused only if
    /// std's count of holders is full (`Memory`).
    pub fn share(&self) -> Result<Realm<C, N>, Refusal>
        ensures { MatchResult result (λ _. Unit {0}) (λ refusal. refusal ≡ Memory) }
    {
        match Arc::try_clone(&self.shared) {
            Ok(shared) => Ok(Realm { shared }),
            Err(_) => Err(Refusal::Memory),
        }
    }
}
