//! Jobs of the scenarios on threads, and how they are forked.
use crate::jobs::nest;
use crate::refusals::{Call, Refusals};
use crate::roaming::roam;
use job_runner::{Answers, ForkRefusal, Job, JobWork, NamedJob, TaskCtx};
use join_rules::Joiner;
use realm_lock::RealmName;
use scope_rules::{AnyEnd, End, ForkReply, Label, Name, Options, Refusal, ScopeId, Value};
use std::alloc::Global;
use std::sync::atomic::{AtomicU64, Ordering};
use std::sync::{Arc, Wait};
use std::thread;
use thread_pool::{Spawner, Spawns};

/// What the jobs of a realm share: a flag each of two, what is counted, and the names that they use.
#[derive(Drop)]
pub struct Board {
    flags: [AtomicU64; 2],
    /// Jobs that were called, and forks that a thread was had for.
    called: AtomicU64,
    forked: AtomicU64,
    /// What was seen that may not be.
    wrong: AtomicU64,
    /// The latest moment that was told.
    moment: AtomicU64,
    /// How often a mark was shown.
    marks: AtomicU64,
    pub refusals: Refusals,
    pub label: Label,
    pub key: Name,
}

/// A share of the board.
pub type Shared = Arc<Board, Global>;

impl Board {
    /// A board on which nothing is set. None where memory is refused.
    pub fn shared(alloc: Global) -> Option<Shared> {
        let board = Board {
            flags: [AtomicU64::new(0), AtomicU64::new(0)],
            called: AtomicU64::new(0),
            forked: AtomicU64::new(0),
            wrong: AtomicU64::new(0),
            moment: AtomicU64::new(0),
            marks: AtomicU64::new(0),
            refusals: Refusals::new(),
            label: Label {
                name: Name::new(b"work")?,
                due: None,
            },
            key: Name::new(b"user")?,
        };
        Arc::new(alloc, board).ok()
    }

    /// How many jobs were called, how many were to be, and how often something was seen that may not be.
    pub fn counts(&self) -> (u64, u64, u64) {
        (
            self.called.load(Ordering::SeqCst),
            self.forked.load(Ordering::SeqCst),
            self.wrong.load(Ordering::SeqCst),
        )
    }

    /// Counts it, unless what was seen is right.
    pub fn check(&self, is_right: bool) {
        if !is_right {
            self.wrong.fetch_add(1, Ordering::SeqCst);
        }
    }

    /// A mark was shown.
    pub fn count_mark(&self) {
        self.marks.fetch_add(1, Ordering::SeqCst);
    }

    /// How often one was.
    pub fn marks(&self) -> u64 {
        self.marks.load(Ordering::SeqCst)
    }

    /// The latest moment that was told.
    pub fn moment(&self) -> u64 {
        self.moment.load(Ordering::SeqCst)
    }

    /// A moment that nobody was told before.
    pub fn next_moment(&self) -> u64 {
        self.moment.fetch_add(1, Ordering::SeqCst).saturating_add(1)
    }

    /// Sets one of the flags, and looks for the other: 1 once it is seen.
    fn meet(&self, is_first: bool) -> i64 {
        let (own, other) = if is_first {
            (&self.flags[0], &self.flags[1])
        } else {
            (&self.flags[1], &self.flags[0])
        };
        own.store(1, Ordering::SeqCst);
        for _ in 0..1_000_000_000u32 {
            if other.load(Ordering::SeqCst) == 1 {
                return 1;
            }
            thread::yield_now();
        }
        0
    }
}

/// What a job does once it was counted.
#[derive(Clone, Copy)]
pub enum Duty {
    /// It sets its flag, looks for the other, and ends with 1.
    Meets { is_first: bool },
    /// It forks a job that reads the binding, reads what that ended with, and leaves the scope open.
    Nests,
    /// It ends with what the key is bound to.
    Reads,
    /// It does anything, by numbers that look random, with jobs so deep inside.
    Roams { depth: u32, seed: u64 },
}

impl Duty {
    /// Its label, which says what one ends with that does anything.
    fn label(self, board: &Board) -> Label {
        let due = match self {
            Duty::Roams { seed, .. } => Some(Ok(Value::Num(number_of(seed)))),
            _ => None,
        };
        Label { due, ..board.label }
    }
}

/// The number that a job with this seed ends with.
fn number_of(seed: u64) -> i64 {
    i64::try_from(seed).unwrap_or(0)
}

/// A job of a scenario.
#[derive(Drop)]
pub struct Worker {
    duty: Duty,
    board: Shared,
}

impl Answers for Worker {
    ghost may_end = { λ job end. Unit {0} };
}

impl<N: RealmName, S: Spawns<N, JobWork<AnyEnd, N, Worker>>> Job<AnyEnd, S, N> for Worker {
    fn run<R: Wait>(self, rt: &R, ctx: &mut TaskCtx<AnyEnd, S, N>) -> End {
        let Worker { duty, board } = self;
        board.called.fetch_add(1, Ordering::SeqCst);
        let number = match duty {
            Duty::Meets { is_first } => board.meet(is_first),
            Duty::Nests => {
                nest(rt, ctx, &board);
                0
            }
            Duty::Reads => match ctx.get(rt, &board.key) {
                Ok(Value::Num(number)) => number,
                _ => 0,
            },
            Duty::Roams { depth, seed } => {
                let _left_open = roam(rt, ctx, &board, depth, seed);
                number_of(seed)
            }
        };
        Ok(Value::Num(number))
    }
}

/// Opens a scope that awaits all its tasks. Where memory is refused, it is opened by the joiner that came back.
pub fn open<N: RealmName, S: Spawner<N>, R: Wait>(
    rt: &R,
    ctx: &mut TaskCtx<AnyEnd, S, N>,
    board: &Shared,
    options: Options,
) -> Result<ScopeId, Refusal> {
    match ctx.open(rt, Joiner::AwaitAll, options) {
        Ok(scope) => Ok(scope),
        Err((Refusal::Memory, joiner)) => {
            board.refusals.note(Call::Open);
            match ctx.open(rt, joiner, options) {
                Ok(scope) => Ok(scope),
                Err((refusal, _)) => Err(refusal),
            }
        }
        Err((refusal, _)) => Err(refusal),
    }
}

/// Forks a job, and counts it where a thread is had. Where memory or a thread is refused, the job that came back
/// is forked again.
pub fn fork<N: RealmName, S: Spawns<N, JobWork<AnyEnd, N, Worker>>, R: Wait>(
    rt: &R,
    ctx: &mut TaskCtx<AnyEnd, S, N>,
    board: &Shared,
    scope: ScopeId,
    duty: Duty,
) -> Result<ForkReply, Refusal> {
    let Ok(share) = Arc::try_clone(board) else {
        return Err(Refusal::Memory);
    };
    let job = NamedJob::new(duty.label(board), Worker { duty, board: share });
    let forked = match ctx.fork_job(rt, scope, job) {
        Ok(reply) => Ok(reply),
        Err(refused) => fork_again(rt, ctx, board, scope, refused),
    };
    if let Ok(ForkReply::Thread(_)) = forked {
        board.forked.fetch_add(1, Ordering::SeqCst);
    }
    forked
}

/// Forks the job once more, where memory or a thread was refused.
fn fork_again<N: RealmName, S: Spawns<N, JobWork<AnyEnd, N, Worker>>, R: Wait>(
    rt: &R,
    ctx: &mut TaskCtx<AnyEnd, S, N>,
    board: &Shared,
    scope: ScopeId,
    refused: ForkRefusal<AnyEnd, Worker>,
) -> Result<ForkReply, Refusal> {
    match &refused {
        ForkRefusal::Rejected(_, _) => board.refusals.note(Call::Thread),
        ForkRefusal::Before(Refusal::Memory, _) => board.refusals.note(Call::ForkJob),
        ForkRefusal::Before(refusal, _) => return Err(*refusal),
    }
    Ok(ctx.fork_job(rt, scope, refused.into_job())?)
}
