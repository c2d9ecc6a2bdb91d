//! Two thousand rounds of eight jobs on one realm, which retires between them: each report is right, each job
//! was called once, and memory doesn't grow.
use super::duties::{Duty, Shared, TestJob, fork};
use super::logs::{end_of, starts_and_ends};
use super::unruly::left_open;
use job_runner::{JobWork, TaskCtx};
use join_rules::Joiner;
use realm_lock::RealmName;
use scope_log::ScopeLog;
use scope_rules::{AnyEnd, End, Fault, Options, ScopeId, TaskId, Value};
use std::fs;
use std::process::Abort;
use std::rt::Files;
use std::sync::Wait;
use std::test::Fail;
use thread_pool::Spawns;

/// How many rounds there are, and after how many memory is measured first.
const ROUNDS: u32 = 2_000;

const EARLY: u32 = 200;

/// What the system's allocator may come to keep for threads between the two, in kB: it has an arena for each
/// that allocates at once with others, whose pages come into use by and by. Jobs that left 50 bytes behind,
/// each, would need more.
const ARENAS: u64 = 512;

/// How many jobs a round has.
const AT_ONCE: u32 = 8;

/// The number that the system tells of this process under the word, or 0: how many threads it has, or how
/// many kB of memory.
pub fn told<R: Files + Alloc>(rt: &R, word: &str) -> u64 {
    let Ok(text) = fs::read_to_string(rt, "/proc/self/status") else {
        return 0;
    };
    for line in text.as_str().lines() {
        if let Some(count) = line.strip_prefix(word) {
            return match count.split_whitespace().next() {
                Some(number) => number.parse().unwrap_or(0),
                None => 0,
            };
        }
    }
    0
}

/// What the job does at the place of a round.
fn duty_at(place: u32) -> Duty {
    match place % 4 {
        0 => Duty::Plain(i64::from(place)),
        1 => Duty::Fails,
        2 => Duty::LeavesOpen,
        _ => Duty::Waits,
    }
}

/// How it ends then, in this scope: it fails with the first of the faults, or leaves a scope open, which is
/// the second.
fn end_at(place: u32, scope: ScopeId, faults: (Fault, Fault)) -> End {
    match place % 4 {
        0 => Ok(Value::Num(i64::from(place))),
        1 => Err(faults.0),
        2 => Err(faults.1),
        _ => Ok(Value::Num(i64::from(scope))),
    }
}

/// Whether the log has each task's start and end, and each ended as its place says.
fn is_right(log: &ScopeLog, scope: ScopeId, first: TaskId, faults: (Fault, Fault)) -> bool {
    for place in 0..AT_ONCE {
        let end = end_of(log, first.saturating_add(place));
        if end != Some(end_at(place, scope, faults)) {
            return false;
        }
    }
    starts_and_ends(log) == (u64::from(AT_ONCE), u64::from(AT_ONCE))
}

/// Opens a scope, forks the jobs, cancels, joins and closes, and retires.
fn round<N: RealmName, S: Spawns<N, JobWork<AnyEnd, N, TestJob>>, R: Wait + Abort>(
    rt: &R,
    ctx: &mut TaskCtx<AnyEnd, S, N>,
    board: &Shared,
    faults: (Fault, Fault),
) -> Result<(), Fail> {
    let Ok(scope) = ctx.open(rt, Joiner::AwaitAll, Options::PLAIN) else {
        return Err("no scope")?;
    };
    let Ok(first) = fork(rt, ctx, scope, board, duty_at(0)) else {
        return Err("no fork")?;
    };
    for place in 1..AT_ONCE {
        assert!(rt; fork(rt, ctx, scope, board, duty_at(place)).is_ok());
    }
    ctx.cancel(rt, scope)?;
    ctx.join(rt, scope)?;
    let report = ctx.close_scope(rt, scope)?;
    assert!(rt; is_right(&report.log, scope, first, faults));
    ctx.retire(rt)?;
    Ok(())
}

/// All rounds.
pub fn soak<
    N: RealmName,
    S: Spawns<N, JobWork<AnyEnd, N, TestJob>>,
    R: Wait + Abort + Files + Alloc,
>(rt: &R, ctx: &mut TaskCtx<AnyEnd, S, N>, board: &Shared) -> Result<(), Fail> {
    let faults = (Fault(board.label.name), left_open()?);
    let mut early = 0;
    for done in 0..ROUNDS {
        if done == EARLY {
            early = told(rt, "VmRSS:");
        }
        round(rt, ctx, board, faults)?;
    }
    let late = told(rt, "VmRSS:");
    let most = early.saturating_add(early / 20).saturating_add(ARENAS);
    assert!(rt; late <= most, "{early} kB, and then {late} kB");
    assert_eq!(rt;
        board.calls(),
        u64::from(ROUNDS).saturating_mul(u64::from(AT_ONCE))
    );
    Ok(())
}
