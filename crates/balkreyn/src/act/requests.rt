//! Where requests come from, how they flow into a service, and what became of those that weren't answered.

use crate::act::contexts::Acts;
use crate::act::rooms::Need;
use scope_rules::{CauseKind, Fault, Limits, Name, Refusal};
use std::sync::Wait;

/// Where the requests of a service come from, and who is told of those that weren't answered. The service shares it with
/// its caller in an `Arc`, so what it counts can be read at any time.
///
/// Requests that come one after the other, and counters of those that are lost:
///
/// ```rust
/// impl Source<Work> for Shop {
///     fn next<X: Acts<Work>>(&self, cx: &mut X) -> Option<(Name, Work)> {
///         let number = self.asked.fetch_add(1, Ordering::SeqCst);
///         if number >= self.load.requests {
///             if let Some(stop) = &self.stop {
///                 stop.ask(cx);
///                 let _mark = cx.sleep(3_600_000);
///             }
///             return None;
///         }
///         let (kind, tally) = (self.kind(number), Arc::try_clone(&self.tally).ok()?);
///         Some((named(b"request"), Work { kind, tally }))
///     }
///
///     fn lost<R: Wait>(&self, _rt: &R, _name: Name, why: Lost) {
///         let counter = match why {
///             Lost::Refused(_refusal) => &self.tally.refused,
///             Lost::Failed(_fault) => &self.tally.failed,
///             Lost::Late => &self.tally.late,
///             Lost::Stopped => &self.tally.stopped,
///         };
///         counter.fetch_add(1, Ordering::SeqCst);
///     }
/// }
/// ```
pub trait Source<W>: Drop {
    /// The next request, by its name and its job; none if the service is to end. One thread at a time calls it. It may
    /// wait by the context, where a stop ends each wait at once; then it answers none, or a last request.
    fn next<X: Acts<W>>(&self, cx: &mut X) -> Option<(Name, W)>;

    /// Gets the name of a request that was not answered, once, and why, on whichever thread finds out. No lock of the
    /// service is held meanwhile but the source's own turn, so it must not wait for a request.
    fn lost<R: Wait>(&self, rt: &R, name: Name, why: Lost);
}

/// Why a request wasn't answered: its job never began, or didn't succeed.
#[derive(Clone, Copy, PartialEq, Eq)]
pub enum Lost {
    /// It was not begun, or the scope for its deadline was refused.
    Refused(Refusal),
    /// Its job failed, with this fault.
    Failed(Fault),
    /// Its job failed behind its deadline, or another that had come.
    Late,
    /// A stop or another cancel came before it was done.
    Stopped,
}

impl Lost {
    /// Why a job failed with this fault, if its scope was cancelled so, or not at all.
    pub(crate) fn failed(fault: Fault, cancelled: Option<CauseKind>) -> Lost {
        match cancelled {
            None => Lost::Failed(fault),
            Some(CauseKind::Deadline) => Lost::Late,
            Some(_) => Lost::Stopped,
        }
    }
}

/// How requests flow into a service.
///
/// Fifty at once, each within 200 milliseconds, and half a second for a stop:
///
/// ```rust
/// fn flow_of(limits: Limits) -> Flow {
///     Flow {
///         at_once: 50,
///         deadline: 200,
///         grace: 500,
///         limits,
///         ..Flow::PLAIN
///     }
/// }
/// ```
#[derive(Clone, Copy)]
pub struct Flow {
    /// How many requests run at once, at most. With 0 none ever begins.
    pub at_once: u32,
    /// How many begin in a second, at most; `u32::MAX` for as many as come, and 0 counts as 1. Up to ten milliseconds that
    /// were missed are caught up.
    pub per_second: u32,
    /// How many milliseconds each may take from its begin on; then it is cancelled. `u64::MAX` for as long as it likes.
    pub deadline: u64,
    /// For how many milliseconds requests may still run behind a stop, before they are cancelled.
    pub grace: u64,
    /// What a request takes of its realm at most, with its own task, the scope of its deadline, and all its jobs.
    pub request: Need,
    /// The limits of each of the two realms.
    pub limits: Limits,
    /// How many idle threads each of the two pools keeps.
    pub keep: usize,
}

impl Flow {
    /// As many as 64 requests at once and as come, within a minute each, five seconds of grace, each one task alone, and
    /// realms with the greatest limits.
    pub const PLAIN: Flow = Flow {
        at_once: 64,
        per_second: u32::MAX,
        deadline: 60_000,
        grace: 5_000,
        request: Need {
            scopes: 1,
            tasks: 1,
            steps: 1,
        },
        limits: Limits::GREATEST,
        keep: 64,
    };
}
