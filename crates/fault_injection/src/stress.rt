//! Realms in which main and its jobs do anything, and what must be true of each at its end.
ghost use Rattle.std.specs.Prelude.{◌≡◌};

use crate::duties::{Board, Shared, Worker};
use crate::roaming::roam;
use crate::waits::wait_by_a_clock;
use job_runner::{JobWork, TaskCtx};
use realm_lock::{Realm, RealmName, Seed};
use scope_book::BookState;
use scope_rules::{AnyEnd, Event, Limits, Refusal};
use scope_script::{Command, Reply, perform};
use std::alloc::{AllocError, Global};
use std::marker::Brand;
use std::rt::Clock as SystemTime;
use std::sync::Wait;
use test_driver::{RefuseNth, Throws};
use thread_pool::{OsThreads, PoolRuntime, ThreadPool};

/// How deep jobs fork jobs.
const DEPTH: u32 = 2;

/// How many tasks the history starts and ends.
fn starts_and_ends(history: &[Event]) -> (u64, u64) {
    let mut starts = 0u64;
    let mut ends = 0u64;
    for event in history {
        match event {
            Event::Start { .. } => starts = starts.saturating_add(1),
            Event::Finish { .. } => ends = ends.saturating_add(1),
            _ => {}
        }
    }
    (starts, ends)
}

/// Whether a fresh book accepts the history, and is left with no scope open.
fn is_accepted(alloc: Global, history: &[Event]) -> bool {
    let mut book = BookState::<AnyEnd>::new(alloc, Limits::GREATEST);
    let mut are_accepted = true;
    for event in history {
        let mut said = perform(&mut book, &Command::Do(*event));
        for _ in 0..100u32 {
            if said.is_err() {
                said = perform(&mut book, &Command::Do(*event));
            }
        }
        are_accepted = is_done(event, &said) && are_accepted;
    }
    are_accepted && book.root().is_none()
}

/// Whether the book has done what the event says. A join whose outcome had no memory stands, and is refused when it
/// is performed once more.
fn is_done(event: &Event, said: &Result<Reply, AllocError>) -> bool {
    match (event, said) {
        (Event::Join { .. }, Ok(Reply::Refused(Refusal::AlreadyJoined))) => true,
        (_, Ok(Reply::Refused(_) | Reply::Already) | Err(_)) => false,
        (_, Ok(_)) => true,
    }
}

/// The history of the realm, once more where memory is refused.
fn history_of<N: RealmName, R: Wait>(
    rt: &R,
    ctx: &mut TaskCtx<AnyEnd, RefuseNth<OsThreads<N, JobWork<AnyEnd, N, Worker>>>, N>,
) -> Option<Vec<Event>> {
    for _ in 0..1_000u32 {
        if let Ok(history) = ctx.history(rt) {
            return Some(history);
        }
    }
    None
}

/// Main does anything, closes what it leaves open, and waits by a clock. How many events there were; None where something was
/// wrong.
fn in_context<N: RealmName, R: Wait + SystemTime>(
    rt: &R,
    alloc: Global,
    ctx: &mut TaskCtx<AnyEnd, RefuseNth<OsThreads<N, JobWork<AnyEnd, N, Worker>>>, N>,
    board: &Shared,
    seed: u64,
) -> Option<usize> {
    if let Some(scope) = roam(rt, ctx, board, DEPTH, seed) {
        board.check(ctx.close_scope_bare(rt, scope).is_ok());
    }
    wait_by_a_clock(rt, ctx, board, seed);
    let history = history_of(rt, ctx)?;
    let (called, forked, wrong) = board.counts();
    let is_right = called == forked && wrong == 0;
    let is_replayed = starts_and_ends(history.as_slice()) == (called, called)
        && is_accepted(alloc, history.as_slice());
    (is_right && is_replayed).then_some(history.len())
}

/// A realm over the pool's threads, of which main is refused one.
fn over_threads<N: RealmName, R: Wait + SystemTime>(
    rt: &R,
    alloc: Global,
    seed: Seed,
    threads: OsThreads<N, JobWork<AnyEnd, N, Worker>>,
    board: &Shared,
    number: u64,
) -> Option<usize>
    requires { seed ≡ N.table }
{
    let threads = RefuseNth::new(number % 7, threads);
    let Ok((realm, token)) = Realm::<AnyEnd, N>::new(alloc, seed, Limits::GREATEST) else {
        return Some(0);
    };
    let mut ctx = TaskCtx::main(alloc, realm, token, threads);
    let events = in_context(rt, alloc, &mut ctx, board, number);
    let (_token, _threads) = ctx.leave(rt);
    events
}

/// A realm on a pool of its own. How many jobs were called, marks seen, and events; None where something was
/// wrong. Where memory is refused before it begins, there are none.
fn realm<N: RealmName + Send + Sync + 'static, R: PoolRuntime + SystemTime>(
    rt: &R,
    alloc: Global,
    seed: Seed,
    number: u64,
) -> Option<(u64, u64, usize)>
    requires { seed ≡ N.table }
{
    let Some(board) = Board::shared(alloc) else {
        return Some((0, 0, 0));
    };
    let Ok(pool) = ThreadPool::<N, JobWork<AnyEnd, N, Worker>>::open(rt, alloc, 4) else {
        return Some((0, 0, 0));
    };
    let events = match pool.threads() {
        Ok(threads) => over_threads::<N, R>(rt, alloc, seed, threads, &board, number),
        Err(_) => Some(0),
    };
    pool.close(rt);
    Some((board.counts().0, board.marks(), events?))
}

/// So many realms, by numbers that look random from the seed on. Says what was counted, or which number was wrong.
pub fn play<R: PoolRuntime + SystemTime + Print + Eprint>(
    rt: &R,
    alloc: Global,
    realms: u64,
    first: u64,
) -> bool {
    let mut throws = Throws::new(first);
    let (mut jobs, mut marks, mut events) = (0u64, 0u64, 0u64);
    for _ in 0..realms {
        let number = throws.any();
        let Ok(seed) = Seed::new(alloc) else {
            continue;
        };
        let Some(counted) = realm::<Brand, R>(rt, alloc, seed, number) else {
            let _told = eprintln!(rt; "wrong: the realm of the number {number}");
            return false;
        };
        jobs = jobs.saturating_add(counted.0);
        marks = marks.saturating_add(counted.1);
        events = events.saturating_add(counted.2 as u64);
    }
    println!(rt; "realms {realms} jobs {jobs} marks {marks} events {events}").is_ok()
}
