//! A job that does anything, and what main does like it.
use crate::duties::{Duty, Shared, Worker, fork};
use crate::reports::is_whole;
use job_runner::{JobWork, TaskCtx};
use join_rules::{Joiner, UntilTest};
use realm_lock::RealmName;
use scope_log::LogEntry;
use scope_rules::{AnyEnd, Options, Rule, ScopeId, Value};
use std::sync::Wait;
use std::thread;
use test_driver::Throws;
use thread_pool::{Spawner, Spawns};

/// How many things a job does, and in how many scopes of its own it is at most.
const STEPS: u32 = 24;

const DEEP: usize = 3;

/// What a job goes by: its throws, and the scopes that it has open, the latest last.
#[derive(Drop)]
struct Roamer {
    throws: Throws,
    depth: u32,
    own: [ScopeId; DEEP],
    open: usize,
}

impl Roamer {
    /// The latest of its scopes, if it has one.
    fn latest(&self) -> Option<ScopeId> {
        let place = self.open.checked_sub(1)?;
        self.own.get(place).copied()
    }

    /// Lists a scope more, where there is room.
    fn opened(&mut self, scope: ScopeId) {
        if let Some(place) = self.own.get_mut(self.open) {
            *place = scope;
            self.open = self.open.saturating_add(1);
        }
    }

    /// A joiner.
    fn joiner(&mut self) -> Joiner {
        match self.throws.below(6) {
            0 => Joiner::All,
            1 => Joiner::Any,
            2 => Joiner::AwaitOk,
            3 => Joiner::Until(UntilTest::Plain(Rule::SuccessesAtLeast(2))),
            _ => Joiner::AwaitAll,
        }
    }
}

/// Opens a scope, where that isn't refused.
pub fn opened<N: RealmName, S: Spawner<N>, R: Wait>(
    rt: &R,
    ctx: &mut TaskCtx<AnyEnd, S, N>,
    joiner: Joiner,
    options: Options,
) -> Option<ScopeId> {
    match ctx.open(rt, joiner, options) {
        Ok(scope) => Some(scope),
        Err(_) => None,
    }
}

/// Opens a scope inside its latest.
fn open_one<N: RealmName, S: Spawner<N>, R: Wait>(
    rt: &R,
    ctx: &mut TaskCtx<AnyEnd, S, N>,
    board: &Shared,
    roamer: &mut Roamer,
) {
    let deadline = if roamer.throws.one_in(4) {
        Some(
            board
                .moment()
                .saturating_add(u64::from(roamer.throws.below(40))),
        )
    } else {
        None
    };
    let options = Options {
        deadline,
        shield: roamer.throws.one_in(5),
        ..Options::PLAIN
    };
    if roamer.open < DEEP
        && let Some(scope) = opened(rt, ctx, roamer.joiner(), options)
    {
        roamer.opened(scope);
    }
}

/// Looks whether it is cancelled; what is shown then is what a view of that scope shows.
fn look<N: RealmName, S: Spawner<N>, R: Wait>(
    rt: &R,
    ctx: &mut TaskCtx<AnyEnd, S, N>,
    board: &Shared,
) {
    let Some(mark) = ctx.checkpoint() else {
        return;
    };
    if let Ok(view) = ctx.view(rt, mark.scope) {
        let shown = LogEntry::Cancelled(mark.cause);
        board.check(view.cause == Some(mark.cause) && view.log.entries().contains(&shown));
        board.count_mark();
    }
}

/// Closes its latest scope, with a report or without one.
fn close_one<N: RealmName, S: Spawner<N>, R: Wait>(
    rt: &R,
    ctx: &mut TaskCtx<AnyEnd, S, N>,
    board: &Shared,
    roamer: &mut Roamer,
) {
    let Some(scope) = roamer.latest() else {
        return;
    };
    roamer.open = roamer.open.saturating_sub(1);
    if roamer.throws.one_in(2)
        && let Some(is_right) = close_with_report(rt, ctx, scope)
    {
        return board.check(is_right);
    }
    board.check(ctx.close_scope_bare(rt, scope).is_ok());
}

/// Closes the scope, where there is memory for a report: whether that is as it should be.
fn close_with_report<N: RealmName, S: Spawner<N>, R: Wait>(
    rt: &R,
    ctx: &mut TaskCtx<AnyEnd, S, N>,
    scope: ScopeId,
) -> Option<bool> {
    match ctx.close_scope(rt, scope) {
        Ok(report) => Some(is_whole(&report.log) && report.nested.is_empty()),
        Err(_) => None,
    }
}

/// Does something with its scopes' bindings, moments and marks.
fn act<N: RealmName, S: Spawner<N>, R: Wait>(
    rt: &R,
    ctx: &mut TaskCtx<AnyEnd, S, N>,
    board: &Shared,
    roamer: &mut Roamer,
) {
    match roamer.throws.below(6) {
        0 => {
            let _told = ctx.tick(rt, board.next_moment());
        }
        1 => {
            let _told = ctx.bind(rt, board.key, Value::Num(1));
        }
        2 => {
            let _told = ctx.unbind(rt);
        }
        3 => thread::yield_now(),
        _ => look(rt, ctx, board),
    }
}

/// One thing.
fn step<N: RealmName, S: Spawns<N, JobWork<AnyEnd, N, Worker>>, R: Wait>(
    rt: &R,
    ctx: &mut TaskCtx<AnyEnd, S, N>,
    board: &Shared,
    roamer: &mut Roamer,
) {
    let thrown = roamer.throws.below(16);
    match (thrown, roamer.latest()) {
        (0..=2, _) | (3..=8, None) => open_one(rt, ctx, board, roamer),
        (3..=8, Some(scope)) if roamer.depth > 0 => {
            let duty = Duty::Roams {
                depth: roamer.depth - 1,
                seed: roamer.throws.any(),
            };
            let _forked = fork(rt, ctx, board, scope, duty);
        }
        (9, Some(scope)) => {
            let _told = ctx.cancel(rt, scope);
        }
        (10, Some(scope)) => {
            let _joined = ctx.join(rt, scope);
        }
        (11..=12, Some(_)) => close_one(rt, ctx, board, roamer),
        _ => act(rt, ctx, board, roamer),
    }
}

/// So many things, and then all that is open is closed, or left open: the outermost scope that is.
pub fn roam<N: RealmName, S: Spawns<N, JobWork<AnyEnd, N, Worker>>, R: Wait>(
    rt: &R,
    ctx: &mut TaskCtx<AnyEnd, S, N>,
    board: &Shared,
    depth: u32,
    seed: u64,
) -> Option<ScopeId> {
    let mut roamer = Roamer {
        throws: Throws::new(seed),
        depth,
        own: [0; DEEP],
        open: 0,
    };
    for _ in 0..STEPS {
        step(rt, ctx, board, &mut roamer);
    }
    if roamer.throws.one_in(3) && roamer.open > 0 {
        return Some(roamer.own[0]);
    }
    for _ in 0..DEEP {
        close_one(rt, ctx, board, &mut roamer);
    }
    None
}
