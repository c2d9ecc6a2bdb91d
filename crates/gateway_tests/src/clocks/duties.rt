//! What the jobs do, and how main opens scopes and forks them.
use super::readings::{BoardClock, CountedClock};
use job_runner::{Answers, Clock, Job, JobWork, NamedJob, SystemClock, TaskCtx};
use join_rules::Joiner;
use realm_lock::RealmName;
use scope_rules::{AnyEnd, End, Expiry, Label, Name, Options, ScopeId, Value};
use std::alloc::Global;
use std::rt::Clock as SystemTime;
use std::sync::atomic::{AtomicU64, Ordering};
use std::sync::{Arc, Wait};
use std::thread;
use std::time::Duration;
use thread_pool::{Spawner, Spawns};

/// What main and its jobs share: the time of the clocks that are set by hand.
#[derive(Drop)]
pub struct Board {
    time: AtomicU64,
    readings: AtomicU64,
}

/// A share of the board.
pub type Shared = Arc<Board, Global>;

impl Board {
    /// A board whose time is 0, and of which no clock was read. None where memory is refused.
    pub fn shared(alloc: Global) -> Option<Shared> {
        let board = Board {
            time: AtomicU64::new(0),
            readings: AtomicU64::new(0),
        };
        Arc::new(alloc, board).ok()
    }

    /// Counts a reading.
    pub fn count(&self) {
        self.readings.fetch_add(1, Ordering::SeqCst);
    }

    /// How many readings were counted.
    pub fn readings(&self) -> u64 {
        self.readings.load(Ordering::SeqCst)
    }

    /// What the clocks read.
    pub fn time(&self) -> u64 {
        self.time.load(Ordering::SeqCst)
    }

    /// Sets what the clocks read.
    fn set(&self, time: u64) {
        self.time.store(time, Ordering::SeqCst);
    }
}

/// What a job does.
#[derive(Clone, Copy)]
pub enum Duty {
    /// It waits for its mark.
    Waits,
    /// It waits for it by the board's clock.
    WaitsBy,
    /// It opens a shielded scope with the deadline, waits for its mark there, and closes it.
    Shields {
        deadline: u64,
    },
    /// After a pause it opens a scope with the deadline, sets the board's time to that, and waits for its mark.
    OpensLate {
        deadline: u64,
    },
    /// It opens a scope with the deadline, and waits for its mark by the worker's clock, whose readings are
    /// counted.
    Counts {
        deadline: u64,
    },
    /// It sleeps for a while, whatever happens.
    Naps,
    /// After a pause it sets the board's time.
    Sets {
        time: u64,
    },
    /// After a pause it moves the deadline of the scope, and then it sets the board's time.
    Moves {
        scope: ScopeId,
        deadline: u64,
        time: u64,
    },
}

/// A job, with its clock.
#[derive(Drop)]
pub struct Worker<T> {
    pub clock: SystemClock<T>,
    pub duty: Duty,
    pub board: Shared,
}

impl<T> Answers for Worker<T> {
    ghost may_end = { λ job end. Unit {0} };
}

impl<
    T: Wait + SystemTime + Copy + Drop,
    N: RealmName,
    S: Spawns<N, JobWork<AnyEnd, N, Worker<T>>>,
> Job<AnyEnd, S, N> for Worker<T> {
    fn run<R: Wait>(self, rt: &R, ctx: &mut TaskCtx<AnyEnd, S, N>) -> End {
        let Worker { clock, duty, board } = self;
        let time = clock.runtime();
        let is_right = match duty {
            Duty::Waits => ctx.wait_cancelled(rt).is_some(),
            Duty::WaitsBy => {
                let mut clock = BoardClock::new(board);
                matches!(ctx.wait_by(&time, &mut clock, None, None), Ok(Some(_)))
            }
            Duty::Shields { deadline } => shield(rt, ctx, deadline),
            Duty::OpensLate { deadline } => {
                thread::sleep(&time, Duration::from_millis(50));
                open_late(rt, ctx, &board, deadline)
            }
            Duty::Counts { deadline } => {
                let mut counted = CountedClock::new(clock, board);
                count(&time, ctx, &mut counted, deadline)
            }
            Duty::Naps => {
                thread::sleep(&time, Duration::from_millis(300));
                true
            }
            Duty::Sets { time: moment } => {
                thread::sleep(&time, Duration::from_millis(20));
                board.set(moment);
                true
            }
            Duty::Moves {
                scope,
                deadline,
                time: moment,
            } => {
                thread::sleep(&time, Duration::from_millis(20));
                let is_moved = ctx.move_deadline(rt, scope, Some(deadline)).is_ok();
                board.set(moment);
                is_moved
            }
        };
        Ok(Value::Num(if is_right { 1 } else { 0 }))
    }
}

/// Whether the mark of a shielded scope comes, which nobody cancels.
fn shield<N: RealmName, S: Spawner<N>, R: Wait>(
    rt: &R,
    ctx: &mut TaskCtx<AnyEnd, S, N>,
    deadline: u64,
) -> bool {
    match open(rt, ctx, Some(deadline), true) {
        Some(scope) => {
            let is_marked = ctx.wait_cancelled(rt).is_some();
            is_marked && ctx.close_scope_bare(rt, scope).is_ok()
        }
        None => false,
    }
}

/// Whether the mark comes of a scope that is opened while another waits by the board's clock.
fn open_late<N: RealmName, S: Spawner<N>, R: Wait>(
    rt: &R,
    ctx: &mut TaskCtx<AnyEnd, S, N>,
    board: &Shared,
    deadline: u64,
) -> bool {
    board.set(deadline);
    match open(rt, ctx, Some(deadline), false) {
        Some(scope) => {
            let is_marked = ctx.wait_cancelled(rt).is_some();
            is_marked && ctx.close_scope_bare(rt, scope).is_ok()
        }
        None => false,
    }
}

/// Whether the mark comes of a scope of its own, by the counted clock.
fn count<N: RealmName, S: Spawner<N>, R: Wait + SystemTime, K: Clock>(
    rt: &R,
    ctx: &mut TaskCtx<AnyEnd, S, N>,
    clock: &mut K,
    deadline: u64,
) -> bool {
    match open(rt, ctx, Some(deadline), false) {
        Some(scope) => {
            let is_marked = matches!(ctx.wait_by(rt, clock, None, None), Ok(Some(_)));
            is_marked && ctx.close_scope_bare(rt, scope).is_ok()
        }
        None => false,
    }
}

/// Opens a scope that awaits all its tasks.
pub fn open<N: RealmName, S: Spawner<N>, R: Wait>(
    rt: &R,
    ctx: &mut TaskCtx<AnyEnd, S, N>,
    deadline: Option<u64>,
    shield: bool,
) -> Option<ScopeId> {
    let options = Options {
        deadline,
        expiry: Expiry::Fail,
        shield,
    };
    match ctx.open(rt, Joiner::AwaitAll, options) {
        Ok(scope) => Some(scope),
        Err(_) => None,
    }
}

/// Forks a job with the duty. Whether it has a thread.
pub fn fork<
    T: Wait + SystemTime + Copy + Drop,
    N: RealmName,
    S: Spawns<N, JobWork<AnyEnd, N, Worker<T>>>,
    R: Wait,
>(
    rt: &R,
    ctx: &mut TaskCtx<AnyEnd, S, N>,
    time: T,
    board: &Shared,
    scope: ScopeId,
    duty: Duty,
) -> bool {
    match SystemClock::starting_at(time, 0) {
        Some(clock) => fork_with(rt, ctx, clock, board, scope, duty),
        None => false,
    }
}

/// The same for a job with this clock.
pub fn fork_with<
    T: Wait + SystemTime + Copy + Drop,
    N: RealmName,
    S: Spawns<N, JobWork<AnyEnd, N, Worker<T>>>,
    R: Wait,
>(
    rt: &R,
    ctx: &mut TaskCtx<AnyEnd, S, N>,
    clock: SystemClock<T>,
    board: &Shared,
    scope: ScopeId,
    duty: Duty,
) -> bool {
    let (Ok(board), Some(name)) = (Arc::try_clone(board), Name::new(b"work")) else {
        return false;
    };
    let label = Label { name, due: None };
    let worker = Worker { clock, duty, board };
    ctx.fork_job(rt, scope, NamedJob::new(label, worker))
        .is_ok()
}
