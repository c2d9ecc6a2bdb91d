//! A limit on how many do something at a time, whatever their scopes.
ghost use Rattle.balkreyn.specs.{Pauses, Permits, RunsLimited, SeesMore};

use crate::act::came::Came;
use crate::act::contexts::Acts;
use crate::act::locked::{Hears, Locked};
use crate::act::turns::{Turn, Waiting};
use crate::act::waits::{Looks, awaited};
use cancel_marks::Bell;
use realm_lock::Mark;
use scope_rules::Refusal;
use std::alloc::{AllocError, Global};
use std::sync::atomic::{AtomicU64, Ordering};
use std::sync::{Arc, Wait};
use tree_dump::WaitCall;

/// So many permits, each held by one at a time, and given in the order of asking (Trio, `CapacityLimiter`). Each job that
/// asks has a share of it, which `limited` borrows while its body runs. So no body asks again by the share for what it holds:
/// that doesn't compile.
///
/// A wait for a permit, which a deadline ends:
///
/// ```rust
/// fn waited_for<X: Acts<Shop>>(cx: &mut X, limiter: &mut Limiter) -> Result<bool, Refusal> {
///     let options = cx.move_on_after(50);
///     scope(cx, Joiner::AwaitAll, options, |cx, _scope| {
///         let second = limited(cx, limiter, |_cx| Ok::<u32, Refusal>(1))?;
///         Ok(matches!(second, Came::Cut(_)))
///     })
/// }
/// ```
#[derive(Drop)]
pub struct Limiter {
    /// Beside the lock is how many are free: who has the lock takes one, and anybody gives one back.
    shared: Arc<Locked<Line, AtomicU64>, Global>,
}

/// Who waits for a permit.
#[derive(Drop)]
struct Line {
    waiting: Waiting,
}

/// One of them, taken. It is not `Drop`: to lose one does not compile.
struct Taken {
    left: u64,
}

/// A permit, which is given back when it is dropped: also if the job that carries it never runs. A drop waits for nobody.
///
/// A permit that a job carries, as in Java a `Semaphore` is acquired before a fork; one more waits until a job has ended:
///
/// ```rust
/// fn visit_all<X: Acts<Visit>>(
///     cx: &mut X,
///     limiter: &Limiter,
///     scope: ScopeId,
///     visits: u32,
/// ) -> Result<u32, Refusal> {
///     for number in 0..visits {
///         let Some(permit) = limiter.permit(cx)? else {
///             return Ok(number);
///         };
///         cx.fork(scope, named(b"visit"), Visit { permit })?;
///     }
///     Ok(visits)
/// }
/// ```
pub struct Permit {
    limiter: Limiter,
    taken: Taken,
}

impl Drop for Permit {
    fn drop(self) {
        let Permit { limiter, taken } = self;
        limiter.give_back(taken);
        drop(limiter);
    }
}

impl Limiter {
    /// A limiter with so many permits.
    ///
    /// # Errors
    /// Memory is refused.
    pub fn new(alloc: Global, permits: u32) -> Result<Limiter, AllocError> {
        let line = Line {
            waiting: Waiting::new(alloc),
        };
        let shared = Locked::new(line, AtomicU64::new(u64::from(permits)));
        Ok(Limiter {
            shared: Arc::new(alloc, shared)?,
        })
    }

    /// The same limiter for one more. It takes no memory.
    ///
    /// # Errors
    /// std's count of holders is full.
    pub fn share(&self) -> Result<Limiter, AllocError> {
        Ok(Limiter {
            shared: Arc::try_clone(&self.shared)?,
        })
    }

    /// A permit, to be held or to be moved into a job. Permits are given in the order of asking; who waits sleeps until one is
    /// there for it, as at a `receive`. None if a cancel or a deadline comes first. Who holds one and asks again waits for
    /// another one.
    ///
    /// # Errors
    /// `Memory`, if the permit can't have a share of the limiter: then nothing was done. Else the refusal of the wait.
    pub fn permit<W, X: Acts<W>>(&self, cx: &mut X) -> Result<Option<Permit>, Refusal>
        ensures sees { SeesMore (X.token cx.old) (X.token cx.new) }
        ensures answer { Permits X.token (λ old new slept. Pauses X.reads X.reading X.time X.token X.seat 1 old new slept) cx.old cx.new result }
    {
        let limiter = self.share()?;
        let waited: Result<Result<Taken, Mark>, Refusal> = awaited(cx, 1, self);
        match waited? {
            Ok(taken) => Ok(Some(Permit { limiter, taken })),
            Err(_mark) => Ok(None),
        }
    }

    /// Gives the permit back.
    fn give_back(&self, taken: Taken) {
        let Taken { left: _left } = taken;
        self.shared.beside.fetch_add(1, Ordering::SeqCst);
        self.shared.tell();
    }
}

impl Line {
    /// One of the free permits, if nobody asked before.
    fn take(&mut self, free: &AtomicU64, turn: Option<&Turn>) -> Option<Taken> {
        if !self.waiting.is_first(turn) {
            return None;
        }
        let left = free.load(Ordering::SeqCst).checked_sub(1)?;
        free.fetch_sub(1, Ordering::SeqCst);
        Some(Taken { left })
    }

    /// Leaves the line. The bell is to be rung behind it.
    fn leave(&mut self, free: &AtomicU64, turn: Turn) -> Option<Bell> {
        self.waiting.leave(turn);
        self.hear(free)
    }
}

/// Told is that a permit came back.
impl Hears<AtomicU64> for Line {
    fn hear(&mut self, free: &AtomicU64) -> Option<Bell> {
        if free.load(Ordering::SeqCst) > 0 {
            self.waiting.first()
        } else {
            None
        }
    }
}

/// What is awaited of a limiter is a permit.
impl Looks<Taken> for Limiter {
    fn call(&self) -> WaitCall {
        WaitCall::Permit
    }

    fn ask<R: Wait>(&self, rt: &R, bell: Option<Bell>) -> Turn {
        let turn = self.shared.lock(rt).waiting.ask(bell);
        self.shared.behind(None);
        turn
    }

    fn look<R: Wait>(&self, rt: &R, turn: Option<&Turn>) -> Option<Taken> {
        let taken = self.shared.lock(rt).take(&self.shared.beside, turn);
        self.shared.behind(None);
        taken
    }

    fn leave<R: Wait>(&self, rt: &R, turn: Turn) {
        let bell = self.shared.lock(rt).leave(&self.shared.beside, turn);
        self.shared.behind(bell);
    }
}

/// Runs the body with a permit of the limiter, and gives that back on each way out. It waits as `permit` does. What comes is
/// what the body found; or, if a cancel or a deadline comes first, its mark, and the body is not called.
///
/// # Errors
/// The refusal of the wait.
pub fn limited<W, X: Acts<W>, T: Drop, E: Drop, F: FnOnce(&mut X) -> Result<T, E>>(
    cx: &mut X,
    limiter: &mut Limiter,
    body: F,
) -> Result<Came<T, E>, Refusal>
    requires { F.IsAlwaysCallable body }
    ensures { RunsLimited X.token (λ old new slept. Pauses X.reads X.reading X.time X.token X.seat 1 old new slept) F.FnOnce body cx.old cx.new result }
{
    let waited: Result<Result<Taken, Mark>, Refusal> = awaited(cx, 1, &*limiter);
    let permit = match waited? {
        Ok(permit) => permit,
        Err(mark) => return Ok(Came::Cut(mark)),
    };
    let found = body(cx);
    limiter.give_back(permit);
    match found {
        Ok(value) => Ok(Came::Value(value)),
        Err(error) => Ok(Came::Failed(error)),
    }
}
