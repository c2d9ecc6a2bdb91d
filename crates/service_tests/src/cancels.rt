//! An observer of cancels, which counts them by their kinds.

use balkreyn::CauseKind;
use balkreyn::act::{Happening, Observes};
use std::sync::Wait;
use std::sync::atomic::{AtomicU64, Ordering};

/// Counts the cancels of which it hears, by their kinds.
#[derive(Drop)]
pub struct Heard {
    call: AtomicU64,
    close: AtomicU64,
    joiner: AtomicU64,
    deadline: AtomicU64,
}

impl Observes for Heard {
    fn saw<R: Wait>(&self, _rt: &R, _moment: u64, what: Happening) {
        let counter = match what {
            Happening::Cancelled { kind, .. } => self.counter(kind),
            _ => return,
        };
        counter.fetch_add(1, Ordering::SeqCst);
    }
}

impl Heard {
    pub fn none() -> Heard {
        Heard {
            call: AtomicU64::new(0),
            close: AtomicU64::new(0),
            joiner: AtomicU64::new(0),
            deadline: AtomicU64::new(0),
        }
    }

    fn counter(&self, kind: CauseKind) -> &AtomicU64 {
        match kind {
            CauseKind::Call => &self.call,
            CauseKind::Close => &self.close,
            CauseKind::Joiner => &self.joiner,
            CauseKind::Deadline => &self.deadline,
        }
    }

    /// How many by a call, a close, a joiner and a deadline.
    pub fn all(&self) -> (u64, u64, u64, u64) {
        (
            self.call.load(Ordering::SeqCst),
            self.close.load(Ordering::SeqCst),
            self.joiner.load(Ordering::SeqCst),
            self.deadline.load(Ordering::SeqCst),
        )
    }
}
