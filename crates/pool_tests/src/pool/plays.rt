//! What the owner of a pool does with it, on a pool of its own.
ghost use Rattle.std.specs.Prelude.{◌≡◌};

use super::rounds::Played;
use super::threads::{comes_to, mapped_now, stays_at, threads_now};
use super::works::Kind::Plain;
use super::works::{PoolWork, Shared, shared};
use share_ledger::{RealmName, Seed};
use std::alloc::{AllocError, Global};
use std::marker::Brand;
use std::rt::{Clock, Files};
use std::sync::Wait;
use std::test::Fail;
use thread_pool::{PoolRuntime, ThreadPool};

/// A number that was counted, and whether each work ended as it was to.
pub type Found = (u64, bool);

/// How many works there are at once whose threads rest then.
const AT_ONCE: u32 = 8;

/// How many works there are one after the other.
const IN_TURN: u32 = 500;

/// By how many kilobytes the process may grow meanwhile. As many stacks take four times as much at least.
const GROWTH: u64 = 1 << 18;

/// What the owner does.
#[derive(Clone, Copy)]
enum Play {
    /// It forks so many works that wait for one another, three times.
    Gathers(u32),
    /// It does so with some works, and waits until the process has so many threads.
    Keeps(u64),
    /// It forks works one after the other, and counts by how many kilobytes the process grows.
    InTurn,
}

/// Works that wait for one another, so many at once, three times.
fn gather<N: RealmName, R: Wait>(
    rt: &R,
    alloc: Global,
    pool: &ThreadPool<N, PoolWork<N>>,
    board: &Shared<N>,
    count: u32,
) -> Result<bool, AllocError> {
    let mut threads = pool.threads()?;
    let mut played = Played::new(alloc);
    for place in 0..3 {
        played.gather(rt, &mut threads, board, place, count)?;
    }
    Ok(played.is_right_but_for(0))
}

/// Plain works one after the other, so many.
fn play_in_turn<N: RealmName, R: Wait>(
    rt: &R,
    alloc: Global,
    pool: &ThreadPool<N, PoolWork<N>>,
    board: &Shared<N>,
    times: u32,
) -> Result<bool, AllocError> {
    let mut threads = pool.threads()?;
    let mut played = Played::new(alloc);
    for _ in 0..times {
        played.round(rt, &mut threads, board, &[(Plain(5), 0, Some(5))])?;
    }
    Ok(played.is_right_but_for(0))
}

/// By how many kilobytes the process grows while works are run one after the other, each by a thread of its own.
fn grown<N: RealmName, R: Wait + Files + Alloc>(
    rt: &R,
    alloc: Global,
    pool: &ThreadPool<N, PoolWork<N>>,
    board: &Shared<N>,
) -> Result<Found, AllocError> {
    let first = play_in_turn(rt, alloc, pool, board, 20)?;
    let early = mapped_now(rt);
    let second = play_in_turn(rt, alloc, pool, board, IN_TURN)?;
    let growth = mapped_now(rt).saturating_sub(early);
    Ok((growth, first && second && early > 0))
}

/// Plays that on the pool.
fn played<N: RealmName, R: Wait + Files + Alloc + Clock>(
    rt: &R,
    alloc: Global,
    pool: &ThreadPool<N, PoolWork<N>>,
    board: &Shared<N>,
    play: Play,
) -> Result<Found, AllocError> {
    match play {
        Play::Gathers(count) => Ok((0, gather(rt, alloc, pool, board, count)?)),
        Play::Keeps(threads) => {
            let is_right = gather(rt, alloc, pool, board, AT_ONCE)?;
            Ok((0, is_right && stays_at(rt, threads)))
        }
        Play::InTurn => grown(rt, alloc, pool, board),
    }
}

/// Plays that on a pool of which so many threads may rest, and which is closed then.
fn on_a_pool<N, R>(
    rt: &R,
    alloc: Global,
    seed: Seed,
    keep: usize,
    play: Play,
) -> Result<Found, AllocError>
where
    N: RealmName + Send + Sync + 'static,
    R: PoolRuntime + Files + Alloc + Clock,
    requires { seed ≡ N.table }
{
    let board: Shared<N> = shared(alloc, seed)?;
    let pool = ThreadPool::open(rt, alloc, keep)?;
    let found = played(rt, alloc, &pool, &board, play);
    pool.close(rt);
    found
}

/// What is counted, if each work ended as it was to.
fn counted<R: PoolRuntime + Files + AllocGlobal + Clock>(
    rt: &R,
    keep: usize,
    play: Play,
) -> Option<u64> {
    let alloc = rt.alloc();
    match on_a_pool::<Brand, R>(rt, alloc, Seed::new(alloc).ok()?, keep, play) {
        Ok((count, true)) => Some(count),
        _ => None,
    }
}

/// However many works wait for one another, all end: none waits in the queue for another to end.
#[test]
fn works_that_wait_for_all_others_end(rt: HostRuntime) -> Result<(), Fail> {
    for count in [2, 8, 64, 500] {
        for keep in [0, 5, 1_000] {
            let play = Play::Gathers(count);
            assert!(rt; counted(&rt, keep, play).is_some(), "{count} with {keep}");
        }
    }
    Ok(())
}

/// As many threads rest as may, with the pool's maker, no more and no fewer.
#[test]
fn a_pool_keeps_as_many_threads_as_it_was_told(rt: HostRuntime) -> Result<(), Fail> {
    let before = threads_now(&rt);
    assert!(rt; before > 0);
    for keep in [0u8, 1, 3, 8] {
        let threads = before.saturating_add(1).saturating_add(u64::from(keep));
        let is_kept = counted(&rt, usize::from(keep), Play::Keeps(threads)).is_some();
        assert!(rt; is_kept && comes_to(&rt, before), "{keep}");
    }
    Ok(())
}

/// A thread that has ended is joined while the pool is open, so its stack is there no more.
#[test]
fn ended_threads_are_joined_as_it_goes(rt: HostRuntime) -> Result<(), Fail> {
    let growth = counted(&rt, 0, Play::InTurn).ok_or("a work ended otherwise")?;
    assert!(rt; growth < GROWTH, "{growth} kB");
    Ok(())
}
