//! The rows over a pool and over one thread.
ghost use Rattle.std.specs.Prelude.{◌≡◌};

use super::batched::{Batch, EMPTY};
use super::duties::{Board, Duty, TestJob};
use super::rows::{Row, play};
use super::soak::told;
use job_runner::{JobWork, TaskCtx};
use realm_lock::{Realm, RealmName, Seed};
use scope_rules::AnyEnd;
use std::alloc::Global;
use std::marker::Brand;
use std::process::Abort;
use std::rt::{Clock, Files};
use std::sync::Wait;
use std::test::Fail;
use std::thread;
use std::time::Duration;
use test_driver::{Inline, RefuseNth};
use thread_pool::{Nobody, PoolRuntime, Spawns, ThreadPool};

/// The row in a realm of its own, over the spawner.
fn in_a_realm<N, S, R>(rt: &R, alloc: Global, seed: Seed, spawner: S, row: Row) -> Result<(), Fail>
where
    N: RealmName,
    S: Spawns<N, JobWork<AnyEnd, N, TestJob>> + Drop,
    R: Wait + Abort + Files + Alloc,
    requires { seed ≡ N.table }
{
    let limits = row.limits().ok_or("no such limits")?;
    let (realm, token) = Realm::<AnyEnd, N>::new(alloc, seed, limits)?;
    let mut ctx = TaskCtx::main(alloc, realm, token, spawner);
    let done = with_a_board::<N, S, R>(rt, alloc, &mut ctx, row);
    let (_token, _spawner) = ctx.leave(rt);
    done
}

/// The row in the context, with a board of its own.
fn with_a_board<N, S, R>(
    rt: &R,
    alloc: Global,
    ctx: &mut TaskCtx<AnyEnd, S, N>,
    row: Row,
) -> Result<(), Fail>
where
    N: RealmName,
    S: Spawns<N, JobWork<AnyEnd, N, TestJob>>,
    R: Wait + Abort + Files + Alloc,
{
    let board = Board::shared(alloc).ok_or("memory")?;
    play(rt, ctx, &board, row)
}

/// The row over the pool's threads, of which one may be refused.
fn over_threads<N: RealmName, R: Wait + Abort + Files + Alloc>(
    rt: &R,
    alloc: Global,
    pool: &ThreadPool<N, JobWork<AnyEnd, N, TestJob>>,
    seed: Seed,
    row: Row,
) -> Result<(), Fail>
    requires { seed ≡ N.table }
{
    let threads = RefuseNth::new(row.refused(), pool.threads()?);
    in_a_realm::<N, _, R>(rt, alloc, seed, threads, row)
}

/// The row over a pool of which so many threads may rest.
fn over_a_pool<N: RealmName + Send + Sync + 'static, R: PoolRuntime + Abort + Files + Alloc>(
    rt: &R,
    alloc: Global,
    seed: Seed,
    keep: usize,
    row: Row,
) -> Result<(), Fail>
    requires { seed ≡ N.table }
{
    let pool = ThreadPool::<N, JobWork<AnyEnd, N, TestJob>>::open(rt, alloc, keep)?;
    let done = over_threads::<N, R>(rt, alloc, &pool, seed, row);
    pool.close(rt);
    done
}

/// The row over one thread, in which the first job ends before the second is forked.
fn over_one_thread<N: RealmName, R: Wait + Abort + Files + Alloc>(
    rt: &R,
    alloc: Global,
    seed: Seed,
    row: Row,
) -> Result<(), Fail>
    requires { seed ≡ N.table }
{
    in_a_realm::<N, _, R>(rt, alloc, seed, Inline::new(Inline::new(Nobody)), row)
}

#[test]
fn two_jobs_see_each_other(rt: HostRuntime) -> Result<(), Fail> {
    let row = Row::Meet {
        looks: 1_000_000_000,
        first: 1,
    };
    for keep in [0, 4] {
        over_a_pool::<Brand, _>(&rt, rt.alloc(), Seed::new(rt.alloc())?, keep, row)?;
    }
    let row = Row::Meet {
        looks: 1_000,
        first: 0,
    };
    over_one_thread::<Brand, _>(&rt, rt.alloc(), Seed::new(rt.alloc())?, row)
}

/// What is played over a pool.
const ROWS: [Row; 25] = [
    Row::Tree,
    Row::SecondRefused,
    Row::NthRefused(1),
    Row::NthRefused(2),
    Row::NthRefused(3),
    Row::NthRefused(4),
    Row::Together,
    Row::Batch(EMPTY),
    Row::Batch(Batch {
        jobs: 100,
        forked: 100,
        ..EMPTY
    }),
    Row::Batch(Batch {
        jobs: 5,
        forked: 3,
        ..EMPTY
    }),
    Row::Batch(Batch {
        jobs: 4,
        forked: 4,
        rejected: 2,
        ..EMPTY
    }),
    Row::Batch(Batch {
        jobs: 4,
        forked: 4,
        is_cancelled: true,
        ..EMPTY
    }),
    Row::Reversed,
    Row::Fails,
    Row::Cancelled {
        duty: Duty::Looks {
            looks: 1_000_000_000,
        },
        number: 1,
    },
    Row::Cancelled {
        duty: Duty::Waits,
        number: 1,
    },
    Row::Cancelled {
        duty: Duty::Shielded,
        number: 3,
    },
    Row::Timeout,
    Row::EndsWith {
        duty: Duty::OpensAll,
        number: 15,
    },
    Row::EndsWith {
        duty: Duty::Binds,
        number: 12,
    },
    Row::LeftOpen,
    Row::TwoLeftOpen,
    Row::ClosesCancel,
    Row::LittleRoom,
    Row::Rounds,
];

#[test]
fn rows_over_a_pool(rt: HostRuntime) -> Result<(), Fail> {
    for row in ROWS {
        over_a_pool::<Brand, _>(&rt, rt.alloc(), Seed::new(rt.alloc())?, 0, row)?;
        over_a_pool::<Brand, _>(&rt, rt.alloc(), Seed::new(rt.alloc())?, 8, row)?;
    }
    Ok(())
}

/// Whether the process comes to have so many threads. One that was joined can be counted for a moment.
fn comes_to<R: Files + Alloc + Clock>(rt: &R, threads: u64) -> bool {
    for _ in 0..1_000u32 {
        if told(rt, "Threads:") == threads {
            return true;
        }
        thread::sleep(rt, Duration::from_millis(1));
    }
    false
}

#[test]
fn two_thousand_rounds(rt: HostRuntime) -> Result<(), Fail> {
    let threads = told(&rt, "Threads:");
    for keep in [0, 8] {
        over_a_pool::<Brand, _>(&rt, rt.alloc(), Seed::new(rt.alloc())?, keep, Row::Soak)?;
        assert!(rt; comes_to(&rt, threads));
    }
    Ok(())
}
