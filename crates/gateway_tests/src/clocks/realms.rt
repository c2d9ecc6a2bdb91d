//! A realm of its own for each play, with a pool of threads.
ghost use Rattle.std.specs.Prelude.{◌≡◌};

use super::duties::{Board, Shared, Worker};
use super::rows::{limits_of_one_tick, one_tick, rows};
use super::together::{closed_by, counted, handed_on, moved, opened_late, together, woken};
use job_runner::{JobWork, TaskCtx};
use realm_lock::{Realm, RealmName, Seed};
use scope_rules::{AnyEnd, Limits};
use std::alloc::Global;
use std::marker::Brand;
use std::rt::Clock as SystemTime;
use std::test::Fail;
use thread_pool::{OsThreads, PoolRuntime, ThreadPool};

/// What main does in its context.
#[derive(Clone, Copy)]
enum Play {
    /// One wait after the other, by clocks of set readings.
    Rows,
    /// A load that has one unit left for ticks.
    OneTick,
    /// Two wait for one deadline.
    Together,
    /// One waits by a clock, and main without.
    Woken,
    /// A deadline is moved while main sleeps.
    Moved { nearer: bool },
    /// A scope with a deadline is opened while main sleeps.
    OpenedLate { first: bool },
    /// Who waits by a clock ends its wait before another deadline comes.
    HandedOn,
    /// Many wait by clocks, each for a deadline of its own.
    Counted,
    /// Main closes a scope in which a job waits behind a shield.
    ClosedBy,
}

impl Play {
    /// The limits of its realm.
    fn limits(self) -> Limits {
        match self {
            Play::OneTick => limits_of_one_tick(),
            _ => Limits::GREATEST,
        }
    }
}

/// Whether all was as it should be. None where a thread or memory was refused.
fn in_context<N: RealmName, R: PoolRuntime + SystemTime + Drop>(
    rt: &R,
    ctx: &mut TaskCtx<AnyEnd, OsThreads<N, JobWork<AnyEnd, N, Worker<R>>>, N>,
    board: &Shared,
    play: Play,
) -> Option<bool> {
    match play {
        Play::Rows => rows(rt, ctx, board),
        Play::OneTick => one_tick(rt, ctx, board),
        Play::Together => together(rt, ctx, board),
        Play::Woken => woken(rt, ctx, board),
        Play::Moved { nearer } => moved(rt, ctx, board, nearer),
        Play::OpenedLate { first } => opened_late(rt, ctx, board, first),
        Play::HandedOn => handed_on(rt, ctx, board),
        Play::Counted => counted(rt, ctx, board),
        Play::ClosedBy => closed_by(rt, ctx, board),
    }
}

/// The play over the pool's threads.
fn over_threads<N: RealmName, R: PoolRuntime + SystemTime + Drop>(
    rt: &R,
    alloc: Global,
    seed: Seed,
    threads: OsThreads<N, JobWork<AnyEnd, N, Worker<R>>>,
    play: Play,
) -> Option<bool>
    requires { seed ≡ N.table }
{
    let board = Board::shared(alloc)?;
    let Ok((realm, token)) = Realm::<AnyEnd, N>::new(alloc, seed, play.limits()) else {
        return None;
    };
    let mut ctx = TaskCtx::main(alloc, realm, token, threads);
    let is_right = in_context(rt, &mut ctx, &board, play);
    let (_token, _threads) = ctx.leave(rt);
    is_right
}

/// The play in a realm of its own.
fn in_realm<N: RealmName + Send + Sync + 'static, R: PoolRuntime + SystemTime + Drop>(
    rt: &R,
    alloc: Global,
    seed: Seed,
    play: Play,
) -> Option<bool>
    requires { seed ≡ N.table }
{
    let pool = ThreadPool::<N, JobWork<AnyEnd, N, Worker<R>>>::open(rt, alloc, 4).ok()?;
    let is_right = match pool.threads() {
        Ok(threads) => over_threads::<N, R>(rt, alloc, seed, threads, play),
        Err(_) => None,
    };
    pool.close(rt);
    is_right
}

fn is_right<R: PoolRuntime + SystemTime + AllocGlobal + Drop>(rt: &R, play: Play) -> bool {
    let alloc = rt.alloc();
    match Seed::new(alloc) {
        Ok(seed) => in_realm::<Brand, R>(rt, alloc, seed, play) == Some(true),
        Err(_) => false,
    }
}

#[test]
fn each_wait_passes_the_deadlines_that_come(rt: HostRuntime) -> Result<(), Fail> {
    assert!(rt; is_right(&rt, Play::Rows));
    Ok(())
}

#[test]
fn a_tick_for_which_there_is_no_load_ends_the_wait(rt: HostRuntime) -> Result<(), Fail> {
    assert!(rt; is_right(&rt, Play::OneTick));
    Ok(())
}

#[test]
fn two_who_wait_for_one_deadline_tick_once(rt: HostRuntime) -> Result<(), Fail> {
    assert!(rt; is_right(&rt, Play::Together));
    Ok(())
}

#[test]
fn who_waits_by_a_clock_wakes_who_waits_without(rt: HostRuntime) -> Result<(), Fail> {
    assert!(rt; is_right(&rt, Play::Woken));
    Ok(())
}

#[test]
fn a_deadline_moved_nearer_wakes_who_waits(rt: HostRuntime) -> Result<(), Fail> {
    assert!(rt; is_right(&rt, Play::Moved { nearer: true }));
    Ok(())
}

#[test]
fn a_deadline_moved_away_passes_later(rt: HostRuntime) -> Result<(), Fail> {
    assert!(rt; is_right(&rt, Play::Moved { nearer: false }));
    Ok(())
}

#[test]
fn an_open_with_the_first_deadline_wakes_who_waits(rt: HostRuntime) -> Result<(), Fail> {
    assert!(rt; is_right(&rt, Play::OpenedLate { first: true }));
    Ok(())
}

#[test]
fn an_open_with_a_nearer_deadline_wakes_who_waits(rt: HostRuntime) -> Result<(), Fail> {
    assert!(rt; is_right(&rt, Play::OpenedLate { first: false }));
    Ok(())
}

#[test]
fn who_ends_its_wait_hands_on_the_watch(rt: HostRuntime) -> Result<(), Fail> {
    assert!(rt; is_right(&rt, Play::HandedOn));
    Ok(())
}

#[test]
fn each_who_waits_reads_its_clock_three_times(rt: HostRuntime) -> Result<(), Fail> {
    assert!(rt; is_right(&rt, Play::Counted));
    Ok(())
}

#[test]
fn a_close_passes_the_deadline_behind_a_shield(rt: HostRuntime) -> Result<(), Fail> {
    assert!(rt; is_right(&rt, Play::ClosedBy));
    Ok(())
}
