//! What works come to on a pool of threads, and on their owner's thread.
ghost use Rattle.std.specs.Prelude.{◌≡◌};

use super::rounds::{OWNER, Planned, Played};
use super::threads::{comes_to, threads_now};
use super::works::Kind::{Meets, Plain, Tree, UntilRefused};
use super::works::{INNER, PoolWork, Shared, fork, is_seen, join, shared};
use share_ledger::{RealmName, Seed};
use std::alloc::{AllocError, Global};
use std::marker::Brand;
use std::rt::{Clock, Files};
use std::sync::Wait;
use std::test::Fail;
use test_driver::{Inline, RefuseNth};
use thread_pool::{Nobody, OsThreads, PoolHandle, PoolRuntime, ThreadPool};

/// How often a work on a pool looks for another, which there is.
const OFTEN: u32 = 1_000_000_000;

/// The place of the work that runs while a pool is closed.
const LAST: u32 = 28;

/// The place of a work that is forked after that.
const AFTER: u32 = 29;

/// Works that are forked in one go and then joined, so often.
#[derive(Clone, Copy)]
struct Rounds {
    name: &'static str,
    works: &'static [Planned],
    times: u32,
    /// How many works there are at once, with those that they fork.
    at_once: u64,
    /// How many threads of the pool may rest: on each such they are played.
    keeps: &'static [usize],
    /// Which fork is refused, from 1, or none: with each such they are played.
    refused: &'static [u64],
}

const ROUNDS: [Rounds; 4] = [
    Rounds {
        name: "a tree",
        works: &[(Tree(4), 4, Some(31))],
        times: 1,
        at_once: 31,
        keeps: &[0, 4],
        refused: &[0],
    },
    // Two look for one another, and one for what their owner does once it has forked it.
    Rounds {
        name: "a meeting",
        works: &[
            (Meets(1, OFTEN), 0, Some(1)),
            (Meets(0, OFTEN), 1, Some(1)),
            (Meets(OWNER, OFTEN), 2, Some(1)),
        ],
        times: 1,
        at_once: 3,
        keeps: &[0, 1, 8],
        refused: &[0],
    },
    Rounds {
        name: "eight at once",
        works: &[
            (Plain(10), 0, Some(10)),
            (Plain(11), 1, Some(11)),
            (Plain(12), 2, Some(12)),
            (Plain(13), 3, Some(13)),
            (Plain(14), 4, Some(14)),
            (Plain(15), 5, Some(15)),
            (Plain(16), 6, Some(16)),
            (Plain(17), 7, Some(17)),
        ],
        times: 3,
        at_once: 8,
        keeps: &[0, 2, 16],
        refused: &[0],
    },
    THREE_IN_TURN,
];

const THREE_IN_TURN: Rounds = Rounds {
    name: "three in turn",
    works: &[(Plain(5), 0, Some(5))],
    times: 3,
    at_once: 1,
    keeps: &[1],
    refused: &[0, 1, 2, 3, 4],
};

/// Rounds on a pool of which so many threads may rest, and which fork is refused.
type Row = (Rounds, usize, u64);

/// Rounds that were played on a pool, its threads, and a work that runs now, which forks others until it is
/// refused.
type Begun<N> = (
    Played,
    RefuseNth<OsThreads<N, PoolWork<N>>>,
    Option<PoolHandle<N>>,
);

/// Plays the rounds on the pool, and has that work begin. The process had so many threads before.
fn begin<N: RealmName, R: Wait + Files + Alloc>(
    rt: &R,
    alloc: Global,
    pool: &ThreadPool<N, PoolWork<N>>,
    board: &Shared<N>,
    row: Row,
    before: u64,
) -> Result<Begun<N>, AllocError> {
    let (rounds, _, nth) = row;
    let mut threads = RefuseNth::new(nth, pool.threads()?);
    let mut played = Played::new(alloc);
    for _ in 0..rounds.times {
        played.round(rt, &mut threads, board, rounds.works)?;
    }
    let is_few = are_as_many(before, threads_now(rt), rounds.at_once);
    let last = played.fork(rt, &mut threads, board, UntilRefused, LAST)?;
    let is_begun = is_seen(board, INNER, OFTEN);
    played.is_right = played.is_right && is_few && is_begun;
    Ok((played, threads, last))
}

/// Whether a pool's threads are as many as its works at most, and its maker; or the system does not tell.
fn are_as_many(before: u64, now: u64, at_once: u64) -> bool {
    let more = now.saturating_sub(before);
    before == 0 || now == 0 || more > 0 && more <= at_once.saturating_add(1)
}

/// The pool is closed: the work that ran has ended, a further fork is refused, and each work of the rounds
/// was run once in each.
fn end<N: RealmName, R: Wait>(
    rt: &R,
    begun: Begun<N>,
    board: &Shared<N>,
    rounds: Rounds,
) -> Played {
    let (mut played, mut threads, last) = begun;
    let runs = board.runs(INNER);
    let refused = fork(rt, &mut threads, board, Plain(0), AFTER);
    let is_refused = matches!(refused, Some((2, None))) && board.runs(AFTER) == 0;
    let has_ended = join(rt, &mut threads, last) == Some(1) && board.runs(LAST) == 1;
    let is_still = board.runs(INNER) == runs;
    played.is_right = played.is_right && is_refused && has_ended && is_still;
    for (_, place, _) in rounds.works {
        played.is_right = played.is_right && board.runs(*place) == u64::from(rounds.times);
    }
    played
}

/// Plays the row on a pool of its own, which is closed while a work runs.
fn on_a_pool<N, R>(rt: &R, alloc: Global, seed: Seed, row: Row) -> Result<Played, AllocError>
where
    N: RealmName + Send + Sync + 'static,
    R: PoolRuntime + Files + Alloc,
    requires { seed ≡ N.table }
{
    let before = threads_now(rt);
    let board: Shared<N> = shared(alloc, seed)?;
    let pool = ThreadPool::open(rt, alloc, row.1)?;
    let begun = begin(rt, alloc, &pool, &board, row, before);
    pool.close(rt);
    Ok(end(rt, begun?, &board, row.0))
}

/// Each row goes as it says, and no thread is left over.
#[test]
fn works_on_a_pool(rt: HostRuntime) -> Result<(), Fail> {
    let threads = threads_now(&rt);
    assert!(rt; threads > 0);
    for rounds in ROUNDS {
        for keep in rounds.keeps {
            for nth in rounds.refused {
                let row = (rounds, *keep, *nth);
                let played = on_a_pool::<Brand, _>(&rt, rt.alloc(), Seed::new(rt.alloc())?, row)?;
                let is_right = played.is_right_but_for(*nth) && comes_to(&rt, threads);
                assert!(rt; is_right, "{} with {keep} and {nth}", rounds.name);
            }
        }
    }
    Ok(())
}

/// No works but the one that forks others while the pool is closed.
const CLOSED_AT_ONCE: Rounds = Rounds {
    name: "closed at once",
    works: &[],
    times: 0,
    at_once: 8,
    keeps: &[0],
    refused: &[0],
};

/// If no thread may rest, each fork waits for one, and the close mostly finds it there: it is answered then
/// too. Else this would never end. Each pool begins when no thread of the last one is counted any more.
#[test]
fn a_closing_pool_answers_a_fork_that_waits_for_a_thread(rt: HostRuntime) -> Result<(), Fail> {
    let threads = threads_now(&rt);
    for _ in 0..200 {
        let seed = Seed::new(rt.alloc())?;
        let played = on_a_pool::<Brand, _>(&rt, rt.alloc(), seed, (CLOSED_AT_ONCE, 0, 0))?;
        assert!(rt; played.is_right_but_for(0) && comes_to(&rt, threads));
    }
    Ok(())
}

/// Run with one allocation after another refused too: one work is at most, and no thread is left over.
#[test]
fn a_refused_growth_refuses_one_work(rt: HostRuntime) -> Result<(), Fail> {
    let threads = threads_now(&rt);
    if let Ok(seed) = Seed::new(rt.alloc())
        && let Ok(played) = on_a_pool::<Brand, _>(&rt, rt.alloc(), seed, (THREE_IN_TURN, 1, 0))
    {
        assert!(rt; played.is_right && played.refused.len() <= 1);
    }
    assert!(rt; comes_to(&rt, threads));
    Ok(())
}

/// Works that look for one another, of which the second alone finds the first; a tree, of which two levels
/// are run; and a work that nobody runs.
fn in_one_thread<N, R>(rt: &R, alloc: Global, seed: Seed) -> Result<Played, AllocError>
where
    N: RealmName,
    R: Wait,
    requires { seed ≡ N.table }
{
    let board: Shared<N> = shared(alloc, seed)?;
    let mut played = Played::new(alloc);
    let meeting = [
        (Meets(1, 1_000), 0, Some(0)),
        (Meets(0, 1_000), 1, Some(1)),
        (Meets(OWNER, 1_000), 2, Some(0)),
    ];
    played.round(rt, &mut Inline::new(Nobody), &board, &meeting)?;
    let mut two_levels = Inline::new(Inline::new(Nobody));
    played.round(rt, &mut two_levels, &board, &[(Tree(4), 4, Some(3))])?;
    played.round(rt, &mut Nobody, &board, &[(Plain(0), AFTER, None)])?;
    played.is_right = played.is_right && board.runs(AFTER) == 0;
    Ok(played)
}

/// The fifth work, which nobody runs, is refused twice.
#[test]
fn works_in_one_thread(rt: HostRuntime) -> Result<(), Fail> {
    let played = in_one_thread::<Brand, _>(&rt, rt.alloc(), Seed::new(rt.alloc())?)?;
    assert!(rt; played.is_right && played.refused.as_slice() == [5, 5].as_slice());
    Ok(())
}
