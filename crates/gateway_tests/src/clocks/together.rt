//! Waits beside one another, by a clock that a job sets.
ghost use Rattle.std.specs.Prelude.{◌≡◌};

use super::duties::{Duty, Shared, Worker, fork, fork_with, open};
use super::readings::{BoardClock, CountedClock};
use super::rows::{Seen, joined, ticks};
use job_runner::{Clock, JobWork, SystemClock, TaskCtx};
use realm_lock::RealmName;
use scope_rules::AnyEnd;
use std::rt::Clock as SystemTime;
use std::sync::Arc;
use std::thread;
use std::time::Duration;
use thread_pool::{PoolRuntime, Spawns};

/// A clock that reads what stands on the board. None where std's count of holders is full.
fn clock_of(board: &Shared) -> Option<BoardClock> {
    match Arc::try_clone(board) {
        Ok(share) => Some(BoardClock::new(share)),
        Err(_) => None,
    }
}

/// Main joins a scope and its job waits for the mark, both by clocks: the deadline passes by one tick.
pub fn together<
    R: PoolRuntime + SystemTime + Drop,
    N: RealmName,
    S: Spawns<N, JobWork<AnyEnd, N, Worker<R>>>,
>(rt: &R, ctx: &mut TaskCtx<AnyEnd, S, N>, board: &Shared) -> Option<bool> {
    let outer = open(rt, ctx, None, false)?;
    let inner = open(rt, ctx, Some(5), false)?;
    if !fork(rt, ctx, *rt, board, inner, Duty::WaitsBy)
        || !fork(rt, ctx, *rt, board, outer, Duty::Sets { time: 5 })
    {
        return None;
    }
    let mut clock = clock_of(board)?;
    let is_out = joined(rt, ctx, inner, &mut clock) == Seen::Timeout;
    let is_closed = ctx.close_scope_bare(rt, outer).is_ok();
    Some(is_out && is_closed && ticks(rt, ctx)? == (1, 5))
}

/// Main joins without a clock: a job that waits by one wakes it, once its tick has passed the deadline.
pub fn woken<
    R: PoolRuntime + SystemTime + Drop,
    N: RealmName,
    S: Spawns<N, JobWork<AnyEnd, N, Worker<R>>>,
>(rt: &R, ctx: &mut TaskCtx<AnyEnd, S, N>, board: &Shared) -> Option<bool> {
    let outer = open(rt, ctx, None, false)?;
    let inner = open(rt, ctx, Some(5), false)?;
    if !fork(rt, ctx, *rt, board, inner, Duty::Waits)
        || !fork(rt, ctx, *rt, board, outer, Duty::WaitsBy)
        || !fork(rt, ctx, *rt, board, outer, Duty::Sets { time: 5 })
    {
        return None;
    }
    let is_joined = ctx.join(rt, inner).is_ok();
    let ticks = ticks(rt, ctx)?;
    Some(is_joined && ticks == (1, 5) && ctx.close_scope_bare(rt, outer).is_ok())
}

/// A job moves the deadline while main sleeps: nearer, where main would sleep for a minute; or away, and the
/// old one doesn't pass.
pub fn moved<
    R: PoolRuntime + SystemTime + Drop,
    N: RealmName,
    S: Spawns<N, JobWork<AnyEnd, N, Worker<R>>>,
>(rt: &R, ctx: &mut TaskCtx<AnyEnd, S, N>, board: &Shared, nearer: bool) -> Option<bool> {
    let (first, then) = if nearer { (60_000, 5) } else { (5, 9) };
    let outer = open(rt, ctx, None, false)?;
    let inner = open(rt, ctx, Some(first), false)?;
    let moves = Duty::Moves {
        scope: inner,
        deadline: then,
        time: then,
    };
    if !fork(rt, ctx, *rt, board, inner, Duty::Waits) || !fork(rt, ctx, *rt, board, outer, moves) {
        return None;
    }
    let mut clock = clock_of(board)?;
    let is_out = joined(rt, ctx, inner, &mut clock) == Seen::Timeout;
    let is_closed = ctx.close_scope_bare(rt, outer).is_ok();
    Some(is_out && is_closed && ticks(rt, ctx)? == (1, then))
}

/// Main closes a scope whose job waits behind a shield, in a scope that it opens late, for a deadline that
/// nobody passes but main.
pub fn closed_by<
    R: PoolRuntime + SystemTime + Drop,
    N: RealmName,
    S: Spawns<N, JobWork<AnyEnd, N, Worker<R>>>,
>(rt: &R, ctx: &mut TaskCtx<AnyEnd, S, N>, board: &Shared) -> Option<bool> {
    let scope = open(rt, ctx, None, false)?;
    if !fork(rt, ctx, *rt, board, scope, Duty::Shields { deadline: 5 })
        || !fork(rt, ctx, *rt, board, scope, Duty::Sets { time: 5 })
    {
        return None;
    }
    let mut clock = clock_of(board)?;
    let is_closed = ctx.close_scope_by(rt, scope, &mut clock).is_ok();
    Some(is_closed && ticks(rt, ctx)? == (1, 5))
}

/// A job opens a scope with a deadline while main sleeps: the first of all, or one that is nearer than main's.
/// Nobody passes it but main, whom the open wakes.
pub fn opened_late<
    R: PoolRuntime + SystemTime + Drop,
    N: RealmName,
    S: Spawns<N, JobWork<AnyEnd, N, Worker<R>>>,
>(rt: &R, ctx: &mut TaskCtx<AnyEnd, S, N>, board: &Shared, first: bool) -> Option<bool> {
    let outer = open(rt, ctx, if first { None } else { Some(60_000) }, false)?;
    if !fork(rt, ctx, *rt, board, outer, Duty::OpensLate { deadline: 5 }) {
        return None;
    }
    let mut clock = clock_of(board)?;
    let is_done = joined(rt, ctx, outer, &mut clock) == Seen::Other;
    let ticks = ticks(rt, ctx)?;
    Some(is_done && ticks == (1, 5) && ctx.close_scope_bare(rt, outer).is_ok())
}

/// A job's wait by the clock begins before main's, and ends first: main passes the deadline behind a shield that
/// comes then, in which a job waits without a clock. So who ends its wait hands on the watch.
pub fn handed_on<
    R: PoolRuntime + SystemTime + Drop,
    N: RealmName,
    S: Spawns<N, JobWork<AnyEnd, N, Worker<R>>>,
>(rt: &R, ctx: &mut TaskCtx<AnyEnd, S, N>, board: &Shared) -> Option<bool> {
    let outer = open(rt, ctx, None, false)?;
    let mut clock = SystemClock::starting_at(*rt, 0)?;
    if !fork_with(rt, ctx, clock, board, outer, Duty::Counts { deadline: 150 })
        || !fork(rt, ctx, *rt, board, outer, Duty::Shields { deadline: 300 })
    {
        return None;
    }
    thread::sleep(rt, Duration::from_millis(60));
    let is_done = joined(rt, ctx, outer, &mut clock) == Seen::Other;
    Some(is_done && ticks(rt, ctx)?.0 == 2 && ctx.close_scope_bare(rt, outer).is_ok())
}

/// So many jobs wait by a clock, each in a scope with a deadline of its own, one some milliseconds behind the
/// other: each reads its clock three times, and main as often; on a busy machine some once more, for they wake early. All is
/// over in six times the time that they take.
pub fn counted<
    R: PoolRuntime + SystemTime + Drop,
    N: RealmName,
    S: Spawns<N, JobWork<AnyEnd, N, Worker<R>>>,
>(rt: &R, ctx: &mut TaskCtx<AnyEnd, S, N>, board: &Shared) -> Option<bool> {
    const JOBS: u64 = 32;
    let outer = open(rt, ctx, None, false)?;
    let mut clock = SystemClock::starting_at(*rt, 0)?;
    for job in 0..JOBS {
        let deadline = 100 + 15 * job;
        if !fork_with(rt, ctx, clock, board, outer, Duty::Counts { deadline }) {
            return None;
        }
    }
    let mut counting = match Arc::try_clone(board) {
        Ok(share) => CountedClock::new(clock, share),
        Err(_) => return None,
    };
    let is_done = joined(rt, ctx, outer, &mut counting) == Seen::Other;
    let is_in_time = clock.now() < 6 * (100 + 15 * JOBS);
    let is_sparing = board.readings() <= 4 * (JOBS + 1);
    Some(is_done && is_in_time && is_sparing && ctx.close_scope_bare(rt, outer).is_ok())
}
