//! Waits of main by clocks of set readings, over a job that never ends before it is cancelled.
ghost use Rattle.std.specs.Prelude.{◌≡◌};

use super::duties::{Duty, Shared, Worker, fork, open};
use super::readings::Readings;
use job_runner::{Clock, JobWork, TaskCtx};
use realm_lock::{Joined, Mark, RealmName};
use scope_rules::{AnyEnd, Event, Limits, Outcome, Refusal, ScopeId};
use std::rt::Clock as SystemTime;
use std::sync::Wait;
use thread_pool::{PoolRuntime, Spawner, Spawns};

/// What a wait came to.
#[derive(Clone, Copy, PartialEq, Eq)]
pub enum Seen {
    Timeout,
    Cancelled,
    Marked,
    Slept,
    Refused(Refusal),
    Other,
}

/// How main waits in the inner scope.
#[derive(Clone, Copy)]
enum Waiting {
    Join,
    Mark,
    Sleep { until: u64 },
}

/// A wait in an inner scope. Its moments are counted from the row's first.
#[derive(Clone, Copy)]
struct Row {
    outer: Option<u64>,
    inner: Option<u64>,
    shield: bool,
    readings: [u64; 3],
    waiting: Waiting,
    seen: Seen,
    /// How many ticks there were, and to what moment the last was.
    ticks: (u32, u64),
}

/// A deadline of the scope itself that comes while main sleeps.
const OWN: Row = Row {
    outer: None,
    inner: Some(5),
    shield: false,
    readings: [0, 5, 5],
    waiting: Waiting::Join,
    seen: Seen::Timeout,
    ticks: (1, 5),
};

/// A deadline of the scope around, and one behind a shield.
const AROUND: Row = Row {
    outer: Some(5),
    inner: None,
    seen: Seen::Cancelled,
    ..OWN
};

const SHIELDED: Row = Row {
    outer: Some(5),
    inner: Some(9),
    shield: true,
    readings: [0, 6, 9],
    ticks: (2, 9),
    ..OWN
};

const ROWS: [Row; 11] = [
    OWN,
    AROUND,
    SHIELDED,
    // It has come before the wait begins.
    Row {
        readings: [7, 7, 7],
        ticks: (1, 7),
        ..OWN
    },
    // Two deadlines come at once: of the same moment, and of two.
    Row {
        outer: Some(5),
        ..OWN
    },
    Row {
        readings: [0, 20, 20],
        ticks: (1, 20),
        ..SHIELDED
    },
    // The clock has gone back between two readings.
    Row {
        readings: [3, 2, 5],
        ..OWN
    },
    Row {
        waiting: Waiting::Mark,
        seen: Seen::Marked,
        ..OWN
    },
    Row {
        waiting: Waiting::Sleep { until: 60_000 },
        seen: Seen::Marked,
        ..AROUND
    },
    // A sleep that no mark ends passes the deadlines that come before its end, and at it.
    Row {
        waiting: Waiting::Sleep { until: 8 },
        readings: [0, 6, 8],
        seen: Seen::Slept,
        ticks: (1, 6),
        ..SHIELDED
    },
    Row {
        waiting: Waiting::Sleep { until: 5 },
        readings: [0, 4, 5],
        seen: Seen::Marked,
        ..OWN
    },
];

/// The moment of the row, if there is one.
fn counted(from: u64, moment: Option<u64>) -> Option<u64> {
    match moment {
        Some(moment) => Some(from.saturating_add(moment)),
        None => None,
    }
}

fn marked(shown: Result<Option<Mark>, Refusal>) -> Seen {
    match shown {
        Ok(Some(_)) => Seen::Marked,
        Ok(None) => Seen::Slept,
        Err(refusal) => Seen::Refused(refusal),
    }
}

/// Joins the scope by the clock.
pub fn joined<N: RealmName, S: Spawner<N>, R: Wait + SystemTime, K: Clock>(
    rt: &R,
    ctx: &mut TaskCtx<AnyEnd, S, N>,
    scope: ScopeId,
    clock: &mut K,
) -> Seen {
    match ctx.join_by::<Joined, _, _>(rt, scope, clock) {
        Ok(joined) => match joined.outcome {
            Outcome::Timeout => Seen::Timeout,
            Outcome::Cancelled(_) => Seen::Cancelled,
            _ => Seen::Other,
        },
        Err(refusal) => Seen::Refused(refusal),
    }
}

/// How many ticks there were since the last retirement, and to what moment the last was. None where memory
/// is refused.
pub fn ticks<N: RealmName, S: Spawner<N>, R: Wait>(
    rt: &R,
    ctx: &mut TaskCtx<AnyEnd, S, N>,
) -> Option<(u32, u64)> {
    let events = ctx.history(rt).ok()?;
    let mut count = 0u32;
    let mut last = 0u64;
    for event in events.as_slice() {
        if let Event::Tick { now } = event {
            count = count.saturating_add(1);
            last = *now;
        }
    }
    Some((count, last))
}

/// Whether the row came to what it should, and the realm retires then.
fn row_played<
    R: PoolRuntime + SystemTime + Drop,
    N: RealmName,
    S: Spawns<N, JobWork<AnyEnd, N, Worker<R>>>,
>(rt: &R, ctx: &mut TaskCtx<AnyEnd, S, N>, board: &Shared, row: Row, from: u64) -> Option<bool> {
    let outer = open(rt, ctx, counted(from, row.outer), false)?;
    let inner = open(rt, ctx, counted(from, row.inner), row.shield)?;
    if !fork(rt, ctx, *rt, board, inner, Duty::Waits) {
        return None;
    }
    let readings = row.readings;
    let mut clock = Readings::new([
        from.saturating_add(readings[0]),
        from.saturating_add(readings[1]),
        from.saturating_add(readings[2]),
    ]);
    let seen = match row.waiting {
        Waiting::Join => joined(rt, ctx, inner, &mut clock),
        Waiting::Mark => marked(ctx.wait_by(rt, &mut clock, None, None)),
        Waiting::Sleep { until } => {
            marked(ctx.wait_by(rt, &mut clock, Some(from.saturating_add(until)), None))
        }
    };
    let ticks = ticks(rt, ctx)?;
    let is_closed = ctx.close_scope_bare(rt, outer).is_ok() && ctx.retire(rt).is_ok();
    Some(is_closed && seen == row.seen && ticks == (row.ticks.0, from.saturating_add(row.ticks.1)))
}

/// Whether all rows came to what they should, one after the other in one realm.
pub fn rows<
    R: PoolRuntime + SystemTime + Drop,
    N: RealmName,
    S: Spawns<N, JobWork<AnyEnd, N, Worker<R>>>,
>(rt: &R, ctx: &mut TaskCtx<AnyEnd, S, N>, board: &Shared) -> Option<bool> {
    let mut from = 0u64;
    let mut all = true;
    for next in ROWS {
        let is_right = row_played(rt, ctx, board, next, from)?;
        all = all && is_right;
        from = from.saturating_add(100_000);
    }
    Some(all)
}

/// Two scopes and a task, and one tick.
pub fn limits_of_one_tick() -> Limits {
    match Limits::new(2, 1, 12) {
        Some(limits) => limits,
        None => Limits::GREATEST,
    }
}

/// Whether each wait answers at once that the second tick has no load. A close by the clock needs no tick: of
/// the scopes that it covers no deadline can do anything.
pub fn one_tick<
    R: PoolRuntime + SystemTime + Drop,
    N: RealmName,
    S: Spawns<N, JobWork<AnyEnd, N, Worker<R>>>,
>(rt: &R, ctx: &mut TaskCtx<AnyEnd, S, N>, board: &Shared) -> Option<bool> {
    let outer = open(rt, ctx, Some(5), false)?;
    let inner = open(rt, ctx, Some(9), true)?;
    if !fork(rt, ctx, *rt, board, inner, Duty::Naps) {
        return None;
    }
    let mut clock = Readings::new([0, 5, 9]);
    let refused = Seen::Refused(Refusal::TooMany);
    let mut is_right = joined(rt, ctx, inner, &mut clock) == refused;
    is_right = is_right && marked(ctx.wait_by(rt, &mut clock, Some(60_000), None)) == refused;
    is_right = is_right && marked(ctx.wait_by(rt, &mut clock, None, None)) == refused;
    is_right = is_right && ticks(rt, ctx)? == (1, 5);
    is_right = is_right && ctx.await_close_by(rt, outer, &mut clock).is_ok();
    Some(is_right && ctx.close_scope_bare(rt, outer).is_ok())
}
