//! Jobs of several kinds, and how they are forked.
use super::deeds::{
    bind_and_unbind, cancel_and_look, grow, leave_two, look, meet_shielded, open_all, wait_for,
    wait_until,
};
use job_runner::{Answers, Job, JobWork, NamedJob, TaskCtx};
use join_rules::Joiner;
use realm_lock::RealmName;
use scope_rules::{
    AnyEnd, End, Fault, ForkReply, Label, Name, Options, Refusal, ScopeId, TaskId, Value,
};
use std::alloc::Global;
use std::sync::atomic::{AtomicU64, Ordering};
use std::sync::{Arc, Wait};
use std::thread;
use thread_pool::Spawns;

/// The same with a shield.
pub const SHIELD: Options = Options {
    shield: true,
    ..Options::PLAIN
};

/// What the jobs of a test share: a flag each of the first two may set, how many jobs were called, and
/// the names that they use.
#[derive(Drop)]
pub struct Board {
    flags: [AtomicU64; 2],
    called: AtomicU64,
    pub label: Label,
    pub key: Name,
    /// Where the lists of a test come from.
    pub alloc: Global,
}

/// A share of the board.
pub type Shared = Arc<Board, Global>;

impl Board {
    /// A board on which nothing is set. None where memory is refused.
    pub fn shared(alloc: Global) -> Option<Shared> {
        let label = Label {
            name: Name::new(b"work")?,
            due: None,
        };
        let board = Board {
            flags: [AtomicU64::new(0), AtomicU64::new(0)],
            called: AtomicU64::new(0),
            label,
            key: Name::new(b"user")?,
            alloc,
        };
        Arc::new(alloc, board).ok()
    }

    /// How many jobs were called.
    pub fn calls(&self) -> u64 {
        self.called.load(Ordering::SeqCst)
    }

    fn note(&self) {
        self.called.fetch_add(1, Ordering::SeqCst);
    }

    /// Sets one of the flags, and looks so often at most for the other: 1 if it is seen, else 0.
    fn meet(&self, is_first: bool, looks: u32) -> i64 {
        let (own, other) = if is_first {
            (&self.flags[0], &self.flags[1])
        } else {
            (&self.flags[1], &self.flags[0])
        };
        own.store(1, Ordering::SeqCst);
        for _ in 0..looks {
            if other.load(Ordering::SeqCst) == 1 {
                return 1;
            }
            thread::yield_now();
        }
        0
    }
}

/// What a job does once it was counted.
#[derive(Clone, Copy)]
pub enum Duty {
    /// It ends with this number.
    Plain(i64),
    /// It sets its flag, looks so often at most for the other, and ends with 1 if it saw it, else 0.
    Meets { is_first: bool, looks: u32 },
    /// It fails.
    Fails,
    /// It ends with the number once the task has ended.
    After { task: TaskId, number: i64 },
    /// It looks for its mark, so often at most, and ends with 1 if it saw it, else 0.
    Looks { looks: u32 },
    /// It waits for its mark, and ends with the scope that the mark says.
    Waits,
    /// It cancels the scope, and is counted once more if its mark says that.
    Cancels { scope: ScopeId },
    /// It opens a scope, and ends with 5.
    LeavesOpen,
    /// It forks a job that leaves a scope open, in a scope that it leaves open, and ends with 6.
    LeavesTwo,
    /// Once it is cancelled it forks a job inside a shield, which ends with 3, and ends with what it reads.
    Shielded,
    /// It opens scopes until one is refused, and closes them. It ends with their number.
    OpensAll,
    /// It opens a scope, and ends with the number of the refusal, or 0.
    Opens,
    /// It reads main's binding, binds anew, takes that away, and once more, which is refused. It ends with
    /// the number of that refusal, or with 0 where a call answered otherwise.
    Binds,
    /// It forks two of its kind, one less deep, joins them and closes, unless it is 0 deep. It ends with
    /// the number of those that it and they are and that read the number 7 in the binding that main made.
    Tree { depth: u32 },
}

/// A job of a test.
#[derive(Drop)]
pub struct TestJob {
    pub duty: Duty,
    pub board: Shared,
}

impl Answers for TestJob {
    ghost may_end = { λ job end. Unit {0} };
}

impl<N: RealmName, S: Spawns<N, JobWork<AnyEnd, N, TestJob>>> Job<AnyEnd, S, N> for TestJob {
    fn run<R: Wait>(self, rt: &R, ctx: &mut TaskCtx<AnyEnd, S, N>) -> End {
        let TestJob { duty, board } = self;
        board.note();
        let number = match duty {
            Duty::Plain(number) => number,
            Duty::Meets { is_first, looks } => board.meet(is_first, looks),
            Duty::Fails => return Err(Fault(board.label.name)),
            Duty::After { task, number } => {
                wait_for(rt, ctx, task);
                number
            }
            Duty::Looks { looks } => look(ctx, looks),
            Duty::Waits => wait_until(rt, ctx),
            Duty::Cancels { scope } => {
                if cancel_and_look(rt, ctx, scope) {
                    board.note();
                }
                0
            }
            Duty::LeavesOpen => {
                let _scope = ctx.open(rt, Joiner::AwaitAll, Options::PLAIN);
                5
            }
            Duty::LeavesTwo => {
                leave_two(rt, ctx, &board);
                6
            }
            Duty::Shielded => meet_shielded(rt, ctx, &board),
            Duty::OpensAll => open_all(rt, ctx),
            Duty::Opens => match ctx.open(rt, Joiner::AwaitAll, Options::PLAIN) {
                Ok(_) => 0,
                Err((refusal, _)) => i64::from(refusal.number()),
            },
            Duty::Binds => bind_and_unbind(rt, ctx, board.key),
            Duty::Tree { depth } => grow(rt, ctx, &board, depth),
        };
        Ok(Value::Num(number))
    }
}

/// The job under the board's label. None where no share of the board is had.
pub fn named(board: &Shared, duty: Duty) -> Option<NamedJob<AnyEnd, TestJob>> {
    let share = Arc::try_clone(board).ok()?;
    let job = TestJob { duty, board: share };
    Some(NamedJob::new(board.label, job))
}

/// Forks a job in the scope, and gives its task.
pub fn fork<N: RealmName, S: Spawns<N, JobWork<AnyEnd, N, TestJob>>, R: Wait>(
    rt: &R,
    ctx: &mut TaskCtx<AnyEnd, S, N>,
    scope: ScopeId,
    board: &Shared,
    duty: Duty,
) -> Result<TaskId, Refusal> {
    let Some(job) = named(board, duty) else {
        return Err(Refusal::Memory);
    };
    match ctx.fork_job(rt, scope, job)? {
        ForkReply::Thread(task) | ForkReply::Never(task) => Ok(task),
    }
}

/// The number that the task ended with, or 0.
pub fn number_of<N: RealmName, S: Spawns<N, JobWork<AnyEnd, N, TestJob>>, R: Wait>(
    rt: &R,
    ctx: &mut TaskCtx<AnyEnd, S, N>,
    task: TaskId,
) -> i64 {
    match ctx.result(rt, task) {
        Ok(Value::Num(number)) => number,
        _ => 0,
    }
}
