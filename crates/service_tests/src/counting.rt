//! A runtime whose clock counts how often it is read: each look of a wait that looks again and again reads it. The first
//! reading may fail.

use std::alloc::{AllocError, Global};
use std::io;
use std::rt::Clock as SystemTime;
use std::sync::Wait;
use std::sync::atomic::{AtomicU64, Ordering};
use std::thread::Threads;
use std::time::Duration;

/// Such a runtime over this one.
#[derive(Clone, Copy)]
pub struct Counting<R> {
    rt: R,
    pub readings: &'static AtomicU64,
    falters: bool,
}

impl<R: Drop> Counting<R> {
    /// No reading is counted yet. The counter is never freed.
    pub fn over(rt: R, alloc: Global) -> Result<Counting<R>, AllocError> {
        let readings = Box::leak(Box::new(alloc, AtomicU64::new(0))?);
        Ok(Counting {
            rt,
            readings,
            falters: false,
        })
    }

    /// The same, and its first reading fails.
    pub fn faltering(rt: R, alloc: Global) -> Result<Counting<R>, AllocError> {
        Ok(Counting {
            falters: true,
            ..Counting::over(rt, alloc)?
        })
    }
}

impl<R: Wait> Wait for Counting<R> {}

impl<R: Threads> Threads for Counting<R> {}

impl<R: SystemTime> SystemTime for Counting<R> {
    fn monotonic(&self) -> io::Result<Duration> {
        let before = self.readings.fetch_add(1, Ordering::SeqCst);
        if self.falters && before == 0 {
            return Err(io::Error::from(io::ErrorKind::Unsupported));
        }
        self.rt.monotonic()
    }

    fn since_1970(&self) -> io::Result<Duration> {
        self.rt.since_1970()
    }

    fn sleep(&self, duration: Duration) {
        self.rt.sleep(duration)
    }
}
