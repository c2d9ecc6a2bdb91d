//! What the works of a test share.

use scope_rules::Label;
use std::alloc::{AllocError, Global};
use std::sync::Mutex;
use std::sync::atomic::{AtomicU64, Ordering};

/// How many works of a test are counted, each at its place.
const PLACES: u32 = 32;

/// A ledger under a lock, what its tasks are forked with, and how often the work of each place was run.
#[derive(Drop)]
pub struct Board<L> {
    pub ledger: Mutex<L>,
    pub label: Label,
    runs: Vec<AtomicU64>,
}

impl<L: Drop> Board<L> {
    /// A board on which no work was run.
    pub fn new(alloc: Global, label: Label, ledger: L) -> Result<Board<L>, AllocError> {
        let mut runs = Vec::new(alloc);
        for _ in 0..PLACES {
            runs.push(AtomicU64::new(0))?;
        }
        Ok(Board {
            ledger: Mutex::new(ledger),
            label,
            runs,
        })
    }
}

impl<L> Board<L> {
    /// Counts a run of the work at the place.
    pub fn note(&self, place: u32) {
        if let Some(runs) = self.runs.get(place as usize) {
            let _before = runs.fetch_add(1, Ordering::SeqCst);
        }
    }

    /// How often the work at the place was run.
    pub fn runs(&self, place: u32) -> u64 {
        match self.runs.get(place as usize) {
            Some(runs) => runs.load(Ordering::SeqCst),
            None => 0,
        }
    }
}
