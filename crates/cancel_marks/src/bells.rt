use crate::wakes::Wakes;
use std::alloc::{AllocError, Global};
use std::sync::Arc;
use std::sync::atomic::{AtomicU64, Ordering};

/// What one call sleeps at, and whoever has something for it rings (Trio's `ParkingLot`, with one task at each place).
/// Rings are counted: who reads the count before it looks for the last time misses none.
#[derive(Drop)]
pub struct Bell {
    shared: Arc<Rings, Global>,
}

/// What all holders of a bell share: how often it has rung, and what its owner sleeps on.
#[derive(Drop)]
struct Rings {
    count: AtomicU64,
    wakes: Wakes,
}

/// No clause says more of a ring or a sleep: who sleeps is seen by no contract.
impl Bell {
    /// A bell that has not rung. It is refused for memory alone.
    pub fn new(alloc: Global) -> Result<Bell, AllocError> {
        let rings = Rings {
            count: AtomicU64::new(0),
            wakes: Wakes::new(),
        };
        Ok(Bell {
            shared: Arc::new(alloc, rings)?,
        })
    }

    /// The same bell for one holder more. It takes no memory, and is refused only if std's count of holders is full.
    pub fn share(&self) -> Result<Bell, AllocError> {
        Ok(Bell {
            shared: Arc::try_clone(&self.shared)?,
        })
    }

    /// How often it has rung.
    pub fn rings(&self) -> u64 {
        self.shared.count.load(Ordering::SeqCst)
    }

    /// Rings it. It takes no lock and no memory, and waits for nobody.
    pub fn ring(&self) {
        self.shared.count.fetch_add(1, Ordering::SeqCst);
        self.wakes().wake();
    }

    /// What its owner sleeps on. A wake here is no ring.
    pub fn wakes(&self) -> &Wakes {
        &self.shared.wakes
    }
}
