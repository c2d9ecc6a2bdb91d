//! Jobs on threads: two that see each other, one that leaves a scope open with a job in it, a close with a report,
//! a cancel, and a retirement.
ghost use Rattle.std.specs.Prelude.{◌≡◌};

use crate::duties::{Board, Duty, Shared, Worker, fork, open};
use crate::refusals::{Call, again};
use job_runner::{JobWork, TaskCtx};
use realm_lock::{Mark, Realm, RealmName, Seed};
use scope_log::{LogEntry, ScopeLog};
use scope_rules::{AnyEnd, ForkReply, Limits, Options, Refusal, ScopeId, TaskId, Value};
use std::alloc::Global;
use std::sync::Wait;
use thread_pool::{OsThreads, PoolRuntime, Spawner, Spawns, ThreadPool};

/// The same with a shield.
const SHIELD: Options = Options {
    shield: true,
    ..Options::PLAIN
};

/// What a context is told, which answers whether it was done.
#[derive(Clone, Copy)]
enum Told {
    /// The board's key is bound to the number.
    Bind(i64),
    Unbind,
    Move(ScopeId, u64),
    Tick(u64),
    Cancel(ScopeId),
    Join(ScopeId),
}

impl Told {
    /// The call.
    fn call(self) -> Call {
        match self {
            Told::Bind(_) => Call::Bind,
            Told::Unbind => Call::Unbind,
            Told::Move(..) => Call::Move,
            Told::Tick(_) => Call::Tick,
            Told::Cancel(_) => Call::Cancel,
            Told::Join(_) => Call::Join,
        }
    }
}

/// Tells the context that.
fn tell<N: RealmName, S: Spawner<N>, R: Wait>(
    rt: &R,
    ctx: &mut TaskCtx<AnyEnd, S, N>,
    board: &Shared,
    told: Told,
) -> Result<(), Refusal> {
    match told {
        Told::Bind(number) => ctx.bind(rt, board.key, Value::Num(number)),
        Told::Unbind => ctx.unbind(rt),
        Told::Move(scope, deadline) => ctx.move_deadline(rt, scope, Some(deadline)),
        Told::Tick(now) => ctx.tick(rt, now),
        Told::Cancel(scope) => match ctx.cancel(rt, scope) {
            Ok(_) => Ok(()),
            Err(refusal) => Err(refusal),
        },
        Told::Join(scope) => match ctx.join(rt, scope) {
            Ok(_) => Ok(()),
            Err(refusal) => Err(refusal),
        },
    }
}

/// Tells it that, once more where memory is refused, and checks that it was done.
fn check_told<N: RealmName, S: Spawner<N>, R: Wait>(
    rt: &R,
    ctx: &mut TaskCtx<AnyEnd, S, N>,
    board: &Shared,
    told: Told,
) {
    let answer = again!(board.refusals, told.call(), tell(rt, ctx, board, told));
    board.check(answer.is_ok());
}

/// Binds the key anew, forks a job that reads it, in a shield, and leaves the scope open.
pub fn nest<N: RealmName, S: Spawns<N, JobWork<AnyEnd, N, Worker>>, R: Wait>(
    rt: &R,
    ctx: &mut TaskCtx<AnyEnd, S, N>,
    board: &Shared,
) {
    check_told(rt, ctx, board, Told::Bind(8));
    let Ok(scope) = open(rt, ctx, board, SHIELD) else {
        return board.check(false);
    };
    let Some(task) = threaded(fork(rt, ctx, board, scope, Duty::Reads)) else {
        return board.check(false);
    };
    check_told(rt, ctx, board, Told::Join(scope));
    board.check(ctx.result(rt, task) == Ok(Value::Num(8)));
}

/// The number of a task that has a thread.
fn threaded(forked: Result<ForkReply, Refusal>) -> Option<TaskId> {
    match forked {
        Ok(ForkReply::Thread(task)) => Some(task),
        _ => None,
    }
}

/// How many starts and ends the log has.
fn starts_and_ends(log: &ScopeLog) -> (u32, u32) {
    let mut starts = 0u32;
    let mut ends = 0u32;
    for entry in log.entries() {
        match entry {
            LogEntry::Start { .. } => starts = starts.saturating_add(1),
            LogEntry::Finish { .. } => ends = ends.saturating_add(1),
            _ => {}
        }
    }
    (starts, ends)
}

/// Closes the scope with a report: how many starts and ends that has.
fn close<N: RealmName, S: Spawner<N>, R: Wait>(
    rt: &R,
    ctx: &mut TaskCtx<AnyEnd, S, N>,
    scope: ScopeId,
) -> Result<(u32, u32), Refusal> {
    match ctx.close_scope(rt, scope) {
        Ok(report) => Ok(starts_and_ends(&report.log)),
        Err(refusal) => Err(refusal),
    }
}

/// How many tasks of the scope have ended.
fn ended<N: RealmName, S: Spawner<N>, R: Wait>(
    rt: &R,
    ctx: &mut TaskCtx<AnyEnd, S, N>,
    scope: ScopeId,
) -> Result<u32, Refusal> {
    match ctx.view(rt, scope) {
        Ok(view) => Ok(view.counts.finished),
        Err(refusal) => Err(refusal),
    }
}

/// Whether the view by the mark shows its cause.
fn is_shown<N: RealmName, S: Spawner<N>, R: Wait>(
    rt: &R,
    ctx: &mut TaskCtx<AnyEnd, S, N>,
    mark: &Mark,
) -> Result<bool, Refusal> {
    match ctx.view_with(rt, mark.scope, mark) {
        Ok(view) => Ok(view.cause == Some(mark.cause)),
        Err(refusal) => Err(refusal),
    }
}

/// Two jobs that see each other, and one that leaves a scope open.
fn three_jobs<N: RealmName, S: Spawns<N, JobWork<AnyEnd, N, Worker>>, R: Wait>(
    rt: &R,
    ctx: &mut TaskCtx<AnyEnd, S, N>,
    board: &Shared,
    scope: ScopeId,
) -> Option<()> {
    let first = threaded(fork(rt, ctx, board, scope, Duty::Meets { is_first: true }))?;
    let second = threaded(fork(rt, ctx, board, scope, Duty::Meets { is_first: false }))?;
    let nests = threaded(fork(rt, ctx, board, scope, Duty::Nests))?;
    check_told(rt, ctx, board, Told::Join(scope));
    board.check(ctx.result(rt, first) == Ok(Value::Num(1)));
    board.check(ctx.result(rt, second) == Ok(Value::Num(1)));
    board.check(ctx.fault(rt, nests).is_ok());
    board.check(again!(board.refusals, Call::View, ended(rt, ctx, scope)) == Ok(3));
    board.check(again!(board.refusals, Call::Close, close(rt, ctx, scope)) == Ok((3, 3)));
    Some(())
}

/// Checks that the context's mark is that of the scope, and that a view by it shows its cause. None where there is no
/// mark.
fn check_mark<N: RealmName, S: Spawner<N>, R: Wait>(
    rt: &R,
    ctx: &mut TaskCtx<AnyEnd, S, N>,
    board: &Shared,
    scope: ScopeId,
) -> Option<()> {
    let mark = ctx.checkpoint()?;
    board.check(mark.scope == scope);
    board.check(again!(board.refusals, Call::ViewWith, is_shown(rt, ctx, &mark)) == Ok(true));
    Some(())
}

/// A scope that is cancelled, which its mark shows: a job that is forked then is let go.
fn one_cancelled<N: RealmName, S: Spawns<N, JobWork<AnyEnd, N, Worker>>, R: Wait>(
    rt: &R,
    ctx: &mut TaskCtx<AnyEnd, S, N>,
    board: &Shared,
) -> Option<()> {
    let scope = open(rt, ctx, board, Options::PLAIN).ok()?;
    check_told(rt, ctx, board, Told::Move(scope, 9));
    check_told(rt, ctx, board, Told::Tick(5));
    board.check(ctx.checkpoint().is_none());
    check_told(rt, ctx, board, Told::Cancel(scope));
    check_mark(rt, ctx, board, scope)?;
    let never = fork(rt, ctx, board, scope, Duty::Reads);
    board.check(matches!(never, Ok(ForkReply::Never(_))));
    board.check(ctx.close_scope_bare(rt, scope).is_ok());
    Some(())
}

/// What main does in its context. At its end main's binding is taken away, once, and the realm retires: so many
/// scopes were opened, and jobs called.
fn in_context<N: RealmName, S: Spawns<N, JobWork<AnyEnd, N, Worker>>, R: Wait>(
    rt: &R,
    ctx: &mut TaskCtx<AnyEnd, S, N>,
    board: &Shared,
) -> Option<bool> {
    check_told(rt, ctx, board, Told::Bind(7));
    let scope = open(rt, ctx, board, Options::PLAIN).ok()?;
    three_jobs(rt, ctx, board, scope)?;
    one_cancelled(rt, ctx, board)?;
    check_told(rt, ctx, board, Told::Unbind);
    board.check(ctx.unbind(rt) == Err(Refusal::NotBound));
    board.check(again!(board.refusals, Call::Retire, retire(rt, ctx)) == Ok(3));
    Some(board.counts() == (4, 4, 0))
}

/// Retires the realm: how many scopes there were.
fn retire<N: RealmName, S: Spawner<N>, R: Wait>(
    rt: &R,
    ctx: &mut TaskCtx<AnyEnd, S, N>,
) -> Result<ScopeId, Refusal> {
    match ctx.retire(rt) {
        Ok(base) => Ok(base.scopes()),
        Err(refusal) => Err(refusal),
    }
}

/// In a realm, over the pool's threads.
fn over_threads<N: RealmName, R: Wait>(
    rt: &R,
    alloc: Global,
    seed: Seed,
    threads: OsThreads<N, JobWork<AnyEnd, N, Worker>>,
    board: &Shared,
) -> Option<bool>
    requires { seed ≡ N.table }
{
    let Ok((realm, token)) = Realm::<AnyEnd, N>::new(alloc, seed, Limits::GREATEST) else {
        return None;
    };
    let mut ctx = TaskCtx::main(alloc, realm, token, threads);
    let is_right = in_context(rt, &mut ctx, board) == Some(true);
    let (_token, _threads) = ctx.leave(rt);
    Some(is_right)
}

/// Plays the scenario on a pool: false where something is otherwise than without a refusal. None where memory was
/// refused before.
pub fn play<N: RealmName + Send + Sync + 'static, R: PoolRuntime + Eprint>(
    rt: &R,
    alloc: Global,
    seed: Seed,
) -> Option<bool>
    requires { seed ≡ N.table }
{
    let board = Board::shared(alloc)?;
    let pool = ThreadPool::<N, JobWork<AnyEnd, N, Worker>>::open(rt, alloc, 2).ok()?;
    let is_right = match pool.threads() {
        Ok(threads) => over_threads::<N, R>(rt, alloc, seed, threads, &board),
        Err(_) => None,
    };
    pool.close(rt);
    board.refusals.tell(rt);
    is_right
}
