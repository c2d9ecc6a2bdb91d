use std::hint::spin_loop;
use std::sync::atomic::{AtomicBool, Ordering};
use std::sync::{Mutex, Wait};
use std::thread::Parker;

/// How often a thread spins before it sleeps: for some ten microseconds, if a spin takes 17 nanoseconds. That is about
/// as long as falling asleep and waking take. An item that comes meanwhile costs neither side a system call. With ten
/// times as many spins, threads that wait take the processors from those that work.
const SPINS: u32 = 600;

/// How often a thread spins between two looks.
const LOOK: u32 = 300;

/// Where one thread waits for what another puts there.
#[derive(Drop)]
pub(crate) struct Handoff<T> {
    item: Mutex<Option<T>>,
    /// Whether the bell has rung. A waiter goes by the bell alone; this only ends its spinning.
    rung: AtomicBool,
    bell: Parker,
}

impl<T: Drop> Handoff<T> {
    /// A handoff with nothing in it.
    pub(crate) fn new() -> Handoff<T> {
        Handoff {
            item: Mutex::new(None),
            rung: AtomicBool::new(false),
            bell: Parker::new(),
        }
    }

    /// Puts the item there, and wakes who waits for it.
    pub(crate) fn put<R: Wait>(&self, rt: &R, item: T) {
        *self.item.lock(rt) = Some(item);
        self.ring();
    }

    /// Wakes who waits, with nothing.
    pub(crate) fn ring(&self) {
        self.rung.store(true, Ordering::SeqCst);
        self.bell.unpark();
    }

    /// Waits until it is woken, and takes what was put there. One thread waits at a handoff.
    pub(crate) fn wait<R: Wait>(&self, rt: &R) -> Option<T> {
        self.spin();
        self.bell.park(rt);
        self.rung.store(false, Ordering::SeqCst);
        self.item.lock(rt).take()
    }

    /// Takes what was put there, or waits until it is woken first. Nobody waits at the handoff again, whose bell may ring yet.
    pub(crate) fn take<R: Wait>(&self, rt: &R) -> Option<T> {
        let put = self.item.lock(rt).take();
        match put {
            Some(item) => Some(item),
            None => self.wait(rt),
        }
    }

    /// Spins until the bell has rung, or some times.
    fn spin(&self) {
        for _ in 0..SPINS {
            if self.rung.load(Ordering::SeqCst) {
                return;
            }
            spin_loop();
        }
    }
}

/// Spins for some five microseconds, the time between two looks of a thread that was called.
pub(crate) fn pause() {
    for _ in 0..LOOK {
        spin_loop();
    }
}
