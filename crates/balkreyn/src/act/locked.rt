//! What lies under a lock, with word from drops, which can't wait for a lock.

use crate::act::turns::ring;
use cancel_marks::Bell;
use std::sync::atomic::{AtomicBool, Ordering};
use std::sync::{Mutex, MutexGuard, Wait};

/// What lies under such a lock, beside what anybody may change without it.
pub(crate) trait Hears<B> {
    /// Looks for what was changed beside the lock. The bell is to be rung behind it.
    fn hear(&mut self, beside: &B) -> Option<Bell>;
}

/// A value under a lock, and what is beside it. A drop changes that and tells: if somebody has the lock, that one looks for it
/// once the lock is free again. So no drop waits, and no change is missed.
#[derive(Drop)]
pub(crate) struct Locked<T, B> {
    value: Mutex<T>,
    pub(crate) beside: B,
    has_word: AtomicBool,
}

impl<T: Hears<B>, B> Locked<T, B> {
    /// Nobody has told anything yet.
    pub(crate) fn new(value: T, beside: B) -> Locked<T, B> {
        Locked {
            value: Mutex::new(value),
            beside,
            has_word: AtomicBool::new(false),
        }
    }

    /// The value. Whoever takes it calls `behind` as soon as the lock is free.
    pub(crate) fn lock<R: Wait>(&self, rt: &R) -> MutexGuard<'_, T> {
        self.value.lock(rt)
    }

    /// Behind a hold of the lock: rings the bell, and hears what was told meanwhile.
    pub(crate) fn behind(&self, bell: Option<Bell>) {
        ring(bell);
        self.hear();
    }

    /// Tells that something was changed beside the lock. It takes no memory, and waits for nobody.
    pub(crate) fn tell(&self) {
        self.has_word.store(true, Ordering::SeqCst);
        self.hear();
    }

    /// Hears what was told, unless somebody has the lock: that one does so behind it.
    fn hear(&self) {
        for _ in 0..u64::MAX {
            if !self.has_word.load(Ordering::SeqCst) {
                return;
            }
            let Some(mut value) = self.value.try_lock() else {
                return;
            };
            self.has_word.store(false, Ordering::SeqCst);
            let bell = value.hear(&self.beside);
            drop(value);
            ring(bell);
        }
    }
}
