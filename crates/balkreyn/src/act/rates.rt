//! A limit on how often something is done.
ghost use Rattle.balkreyn.specs.{Passes, Pauses, SeesMore, WaitsTurn};

use crate::act::contexts::Acts;
use crate::act::limits::{Limiter, Permit};
use scope_rules::Refusal;
use std::alloc::{AllocError, Global};
use std::sync::Arc;
use std::sync::atomic::{AtomicU64, Ordering};

/// How far behind a rate may be made up for, in nanoseconds.
const CATCH_UP: u64 = 10_000_000;

/// So many a second at most, in the order of asking. Who is late by no more than ten milliseconds makes up for it, so the rate
/// is kept though one sleeps by milliseconds. Each job that asks has a share of it, all in one realm.
///
/// Jobs that begin at this rate:
///
/// ```rust
/// fn begin_all<X: Acts<Visit>>(
///     cx: &mut X,
///     rate: &Rate,
///     limiter: &Limiter,
///     scope: ScopeId,
/// ) -> Result<u32, Refusal> {
///     let mut begun = 0u32;
///     for _ in 0..40 {
///         if !rate.pass(cx)? {
///             break;
///         }
///         begun = begun.saturating_add(visit_all(cx, limiter, scope, 1)?);
///     }
///     Ok(begun)
/// }
/// ```
#[derive(Drop)]
pub struct Rate {
    pace: Arc<Pace, Global>,
}

/// What all share of it. Who has the one permit of the line is next.
#[derive(Drop)]
struct Pace {
    line: Limiter,
    /// How long one has for itself, in nanoseconds.
    each: u64,
    /// When the next may pass, in nanoseconds of the realm's time.
    next: AtomicU64,
}

impl Rate {
    /// A rate of so many a second; 0 counts as 1.
    ///
    /// # Errors
    /// Memory is refused.
    pub fn new(alloc: Global, per_second: u32) -> Result<Rate, AllocError> {
        let pace = Pace {
            line: Limiter::new(alloc, 1)?,
            each: 1_000_000_000 / u64::from(per_second.max(1)),
            next: AtomicU64::new(0),
        };
        Ok(Rate {
            pace: Arc::new(alloc, pace)?,
        })
    }

    /// The same rate for one more. It takes no memory.
    ///
    /// # Errors
    /// std's count of holders is full.
    pub fn share(&self) -> Result<Rate, AllocError> {
        Ok(Rate {
            pace: Arc::try_clone(&self.pace)?,
        })
    }

    /// As if one had passed at this moment, in milliseconds of the realm's time.
    pub(crate) fn begin_behind(&self, now: u64) {
        self.pace.take(now);
    }

    /// Waits for a turn, by the realm's clock, and says whether it came: not if a cancel or a deadline comes first, and then
    /// nobody's turn is lost.
    ///
    /// # Errors
    /// Those of `Limiter::permit`, and the refusal of the sleep.
    pub fn pass<W, X: Acts<W>>(&self, cx: &mut X) -> Result<bool, Refusal>
        ensures sees { SeesMore (X.token cx.old) (X.token cx.new) }
        ensures answer { Passes X.token (λ millis old new slept. Pauses X.reads X.reading X.time X.token X.seat millis old new slept) cx.old cx.new result }
    {
        let asked: Result<Option<Permit>, Refusal> = self.pace.line.permit(cx);
        let permit = match asked? {
            Some(permit) => permit,
            None => return Ok(false),
        };
        let passed = self.pace.pass(cx);
        drop(permit);
        passed
    }
}

impl Pace {
    /// The same of who is next.
    fn pass<W, X: Acts<W>>(&self, cx: &mut X) -> Result<bool, Refusal>
        ensures sees { SeesMore (X.token cx.old) (X.token cx.new) }
        ensures answer { WaitsTurn X.token (λ millis old new slept. Pauses X.reads X.reading X.time X.token X.seat millis old new slept) cx.old cx.new result }
    {
        let wait = self.millis_from(cx.now());
        if wait > 0 {
            let slept = cx.sleep(wait)?;
            if slept.is_some() {
                return Ok(false);
            }
        }
        self.take(cx.now());
        Ok(true)
    }

    /// How long it is from then until the next may pass, in milliseconds: no longer than one has for itself.
    fn millis_from(&self, now: u64) -> u64 {
        let next = self.next.load(Ordering::SeqCst);
        let wait = next.saturating_sub(nanos_of(now)).min(self.each);
        wait.div_ceil(1_000_000)
    }

    /// One passes now.
    fn take(&self, now: u64) {
        let now = nanos_of(now);
        let least = now.saturating_sub(CATCH_UP);
        let next = self.next.load(Ordering::SeqCst).clamp(least, now);
        self.next
            .store(next.saturating_add(self.each), Ordering::SeqCst);
    }
}

/// So many milliseconds in nanoseconds.
fn nanos_of(millis: u64) -> u64 {
    millis.saturating_mul(1_000_000)
}
