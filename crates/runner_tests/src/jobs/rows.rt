//! Rows of what main does with jobs in its context: which there are, and two that look for one another, a
//! tree, and a thread that is refused.
use super::batched::{Batch, is_forked_in_one_go, some_are_forked_together};
use super::duties::{Duty, Shared, TestJob, fork, named, number_of};
use super::logs::starts_and_ends;
use super::outcomes::{
    main_cancels, nth_is_refused, one_ends_with, one_fails, time_runs_out, two_end_in_reverse,
};
use super::soak::soak;
use super::unruly::{closes_cancel, little_room, one_is_left_open, ten_rounds, two_are_left_open};
use job_runner::{ForkRefusal, JobWork, TaskCtx};
use join_rules::Joiner;
use realm_lock::RealmName;
use scope_rules::{AnyEnd, Limits, Options, Outcome, Refusal, Value};
use std::process::Abort;
use std::rt::Files;
use std::sync::Wait;
use std::test::Fail;
use thread_pool::Spawns;

/// Which row.
#[derive(Clone, Copy)]
pub enum Row {
    /// Two jobs look so often at most for one another's flags. The first ends with this number, and the
    /// second with 1.
    Meet { looks: u32, first: i64 },
    /// All 127 jobs of a tree that is 6 deep read the binding that main made.
    Tree,
    /// The second thread is refused: its job comes back, and the report has one start and one end.
    SecondRefused,
    /// Of three threads the nth is refused.
    NthRefused(u64),
    /// A batch of jobs is forked in one go.
    Batch(Batch),
    /// Two batches are, the second beside threads that rest.
    Together,
    /// The first task ends after the second.
    Reversed,
    /// The second task fails, and cancels the first.
    Fails,
    /// Main cancels while a job does its duty, which ends with the number.
    Cancelled { duty: Duty, number: i64 },
    /// A job's time runs out.
    Timeout,
    /// A job ends with the number.
    EndsWith { duty: Duty, number: i64 },
    /// A job leaves a scope open.
    LeftOpen,
    /// So do a job and one that it forked.
    TwoLeftOpen,
    /// Main closes two scopes whose jobs wait for their marks.
    ClosesCancel,
    /// A scope, two tasks and a load of ten.
    LittleRoom,
    /// Ten rounds in a realm with room for one task.
    Rounds,
    /// Two thousand rounds of eight jobs.
    Soak,
}

impl Row {
    /// The limits of the row's realm.
    pub fn limits(self) -> Option<Limits> {
        match self {
            Row::LittleRoom => Limits::new(1, 2, 10),
            Row::Rounds => Limits::new(1, 1, 7),
            Row::Batch(batch) => Limits::new(1, batch.forked.max(1), 10_000),
            _ => Some(Limits::GREATEST),
        }
    }

    /// Which thread is refused, from 1, or none.
    pub fn refused(self) -> u64 {
        match self {
            Row::SecondRefused => 2,
            Row::NthRefused(nth) => nth,
            Row::Batch(batch) => u64::from(batch.rejected),
            _ => 0,
        }
    }
}

/// Plays the row, with jobs that share the board.
pub fn play<
    N: RealmName,
    S: Spawns<N, JobWork<AnyEnd, N, TestJob>>,
    R: Wait + Abort + Files + Alloc,
>(rt: &R, ctx: &mut TaskCtx<AnyEnd, S, N>, board: &Shared, row: Row) -> Result<(), Fail> {
    match row {
        Row::Meet { looks, first } => two_meet(rt, ctx, board, looks, first),
        Row::Tree => a_tree_grows(rt, ctx, board),
        Row::SecondRefused => second_thread_is_refused(rt, ctx, board),
        Row::NthRefused(nth) => nth_is_refused(rt, ctx, board, nth),
        Row::Batch(batch) => is_forked_in_one_go(rt, ctx, board, batch),
        Row::Together => some_are_forked_together(rt, ctx, board),
        Row::Reversed => two_end_in_reverse(rt, ctx, board),
        Row::Fails => one_fails(rt, ctx, board),
        Row::Cancelled { duty, number } => main_cancels(rt, ctx, board, duty, number),
        Row::Timeout => time_runs_out(rt, ctx, board),
        Row::EndsWith { duty, number } => one_ends_with(rt, ctx, board, duty, number),
        Row::LeftOpen => one_is_left_open(rt, ctx, board),
        Row::TwoLeftOpen => two_are_left_open(rt, ctx, board),
        Row::ClosesCancel => closes_cancel(rt, ctx, board),
        Row::LittleRoom => little_room(rt, ctx, board),
        Row::Rounds => ten_rounds(rt, ctx, board),
        Row::Soak => soak(rt, ctx, board),
    }
}

/// Two jobs look for one another.
fn two_meet<N: RealmName, S: Spawns<N, JobWork<AnyEnd, N, TestJob>>, R: Wait + Abort>(
    rt: &R,
    ctx: &mut TaskCtx<AnyEnd, S, N>,
    board: &Shared,
    looks: u32,
    ends: i64,
) -> Result<(), Fail> {
    let Ok(scope) = ctx.open(rt, Joiner::All, Options::PLAIN) else {
        return Err("no scope")?;
    };
    let first = fork(
        rt,
        ctx,
        scope,
        board,
        Duty::Meets {
            is_first: true,
            looks,
        },
    );
    let second = fork(
        rt,
        ctx,
        scope,
        board,
        Duty::Meets {
            is_first: false,
            looks,
        },
    );
    let (Ok(first), Ok(second)) = (first, second) else {
        return Err("no fork")?;
    };
    let joined = ctx.join(rt, scope)?;
    assert!(rt; matches!(joined.outcome, Outcome::All(_)));
    assert_eq!(rt; number_of(rt, ctx, first), ends);
    assert_eq!(rt; number_of(rt, ctx, second), 1);
    ctx.close_scope_bare(rt, scope)?;
    assert_eq!(rt; board.calls(), 2);
    Ok(())
}

/// Jobs fork jobs, and read the binding that they inherit.
fn a_tree_grows<N: RealmName, S: Spawns<N, JobWork<AnyEnd, N, TestJob>>, R: Wait + Abort>(
    rt: &R,
    ctx: &mut TaskCtx<AnyEnd, S, N>,
    board: &Shared,
) -> Result<(), Fail> {
    ctx.bind(rt, board.key, Value::Num(7))?;
    let Ok(scope) = ctx.open(rt, Joiner::AwaitAll, Options::PLAIN) else {
        return Err("no scope")?;
    };
    let Ok(root) = fork(rt, ctx, scope, board, Duty::Tree { depth: 6 }) else {
        return Err("no fork")?;
    };
    ctx.join(rt, scope)?;
    assert_eq!(rt; number_of(rt, ctx, root), 127);
    ctx.close_scope_bare(rt, scope)?;
    ctx.unbind(rt)?;
    assert_eq!(rt; board.calls(), 127);
    Ok(())
}

/// The second thread is refused: its job comes back uncalled, and the join answers without it.
fn second_thread_is_refused<
    N: RealmName,
    S: Spawns<N, JobWork<AnyEnd, N, TestJob>>,
    R: Wait + Abort,
>(rt: &R, ctx: &mut TaskCtx<AnyEnd, S, N>, board: &Shared) -> Result<(), Fail> {
    let Ok(scope) = ctx.open(rt, Joiner::All, Options::PLAIN) else {
        return Err("no scope")?;
    };
    let Ok(first) = fork(rt, ctx, scope, board, Duty::Plain(1)) else {
        return Err("no fork")?;
    };
    let job = named(board, Duty::Plain(2)).ok_or("memory")?;
    let Err(refused) = ctx.fork_job(rt, scope, job) else {
        return Err("the second thread was not refused")?;
    };
    assert!(rt; matches!(&refused, ForkRefusal::Rejected(2, _)));
    assert!(rt; refused.refusal() == Refusal::Rejected);
    assert!(rt; matches!(refused.into_job().into_job().duty, Duty::Plain(2)));
    let joined = ctx.join(rt, scope)?;
    assert!(rt;
        match &joined.outcome {
            Outcome::All(values) => values.as_slice().len() == 1
                && values.as_slice()[0].task == first,
            _ => false
        }
    );
    assert_eq!(rt; number_of(rt, ctx, first), 1);
    let view = ctx.view(rt, scope)?;
    assert!(rt; view.counts.never == 1 && view.counts.finished == 1);
    let report = ctx.close_scope(rt, scope)?;
    assert!(rt; report.nested.is_empty() && starts_and_ends(&report.log) == (1, 1));
    assert_eq!(rt; board.calls(), 1);
    Ok(())
}
