//! What a join gives over jobs on threads: the outcomes of the same rows of a script.
use super::deeds::wait_for;
use super::duties::{Duty, Shared, TestJob, fork, number_of};
use super::logs::{ends_after_cancel, order_of_ends, starts_and_ends};
use job_runner::{JobWork, SetClock, TaskCtx, pulse};
use join_rules::Joiner;
use realm_lock::{BareOutcome, Never, RealmName};
use scope_rules::{AnyEnd, Fault, Options, Outcome, Refusal, State, TaskValue, Value};
use std::process::Abort;
use std::sync::Wait;
use std::test::Fail;
use thread_pool::Spawns;

/// The first task ends after the second; the outcome has them in fork order, and the log in the order of
/// their ends.
pub fn two_end_in_reverse<N: RealmName, S: Spawns<N, JobWork<AnyEnd, N, TestJob>>, R: Wait + Abort>(
    rt: &R,
    ctx: &mut TaskCtx<AnyEnd, S, N>,
    board: &Shared,
) -> Result<(), Fail> {
    let Ok(scope) = ctx.open(rt, Joiner::All, Options::PLAIN) else {
        return Err("no scope")?;
    };
    let late = Duty::After {
        task: 2,
        number: 10,
    };
    assert!(rt; fork(rt, ctx, scope, board, late).is_ok());
    assert!(rt; fork(rt, ctx, scope, board, Duty::Plain(20)).is_ok());
    wait_for(rt, ctx, 1);
    let view = ctx.view(rt, scope)?;
    assert!(rt; order_of_ends(&view.log) == (2, 1));
    let joined = ctx.join(rt, scope)?;
    let Outcome::All(values) = &joined.outcome else {
        return Err("another outcome")?;
    };
    assert!(rt; values.as_slice() == [valued(1, 10), valued(2, 20)].as_slice());
    ctx.close_scope_bare(rt, scope)?;
    Ok(())
}

fn valued(task: u32, number: i64) -> TaskValue {
    TaskValue {
        task,
        value: Value::Num(number),
    }
}

/// The first failure cancels the scope, and what ends later has no result.
pub fn one_fails<N: RealmName, S: Spawns<N, JobWork<AnyEnd, N, TestJob>>, R: Wait + Abort>(
    rt: &R,
    ctx: &mut TaskCtx<AnyEnd, S, N>,
    board: &Shared,
) -> Result<(), Fail> {
    let Ok(scope) = ctx.open(rt, Joiner::All, Options::PLAIN) else {
        return Err("no scope")?;
    };
    let fault = Fault(board.label.name);
    assert!(rt; fork(rt, ctx, scope, board, Duty::After { task: 2, number: 5 }).is_ok());
    assert!(rt; fork(rt, ctx, scope, board, Duty::Fails).is_ok());
    let outcome: BareOutcome = ctx.join_by(rt, scope, &mut Never)?;
    assert!(rt; outcome == BareOutcome::Failed { task: 2, fault });
    assert!(rt; ctx.join(rt, scope).err() == Some(Refusal::AlreadyJoined));
    assert!(rt; matches!(ctx.state(rt, 1), Ok(State::Unavailable)));
    assert!(rt; ctx.result(rt, 1).err() == Some(Refusal::Unavailable));
    assert!(rt; ctx.result(rt, 2).err() == Some(Refusal::NotSuccess));
    assert!(rt; ctx.fault(rt, 2).ok() == Some(fault));
    ctx.close_scope_bare(rt, scope)?;
    Ok(())
}

/// Main cancels the scope while its job does its duty, which ends with the number; a job that is forked then
/// is let go, uncalled.
pub fn main_cancels<N: RealmName, S: Spawns<N, JobWork<AnyEnd, N, TestJob>>, R: Wait + Abort>(
    rt: &R,
    ctx: &mut TaskCtx<AnyEnd, S, N>,
    board: &Shared,
    duty: Duty,
    number: i64,
) -> Result<(), Fail> {
    let Ok(scope) = ctx.open(rt, Joiner::AwaitAll, Options::PLAIN) else {
        return Err("no scope")?;
    };
    assert!(rt; fork(rt, ctx, scope, board, duty).is_ok());
    ctx.cancel(rt, scope)?;
    let mark = ctx.wait_cancelled(rt);
    assert!(rt; mark.is_some_and(|mark| mark.scope == scope));
    assert!(rt; ctx.checkpoint().is_some());
    let never = fork(rt, ctx, scope, board, Duty::Plain(0));
    assert!(rt; never.is_ok());
    assert!(rt;
        ctx.join_by::<BareOutcome, _, _>(rt, scope, &mut Never)? == BareOutcome::Cancelled(scope)
    );
    let report = ctx.close_scope(rt, scope)?;
    assert!(rt; ends_after_cancel(&report.log, number));
    assert!(rt; starts_and_ends(&report.log) == (1, 1));
    Ok(())
}

/// The scope's time runs out while its job waits for its mark.
pub fn time_runs_out<N: RealmName, S: Spawns<N, JobWork<AnyEnd, N, TestJob>>, R: Wait + Abort>(
    rt: &R,
    ctx: &mut TaskCtx<AnyEnd, S, N>,
    board: &Shared,
) -> Result<(), Fail> {
    let deadline = Options {
        deadline: Some(100),
        ..Options::PLAIN
    };
    let Ok(scope) = ctx.open(rt, Joiner::AwaitAll, deadline) else {
        return Err("no scope")?;
    };
    assert!(rt; fork(rt, ctx, scope, board, Duty::Waits).is_ok());
    let mut clock = SetClock::new(99);
    assert!(rt; pulse(rt, ctx, &mut clock).ok() == Some(99));
    clock.next = 100;
    assert!(rt; pulse(rt, ctx, &mut clock).ok() == Some(100));
    assert!(rt; ctx.join_by::<BareOutcome, _, _>(rt, scope, &mut Never)? == BareOutcome::Timeout);
    clock.next = 50;
    assert!(rt; pulse(rt, ctx, &mut clock).err() == Some(Refusal::ClockBack));
    ctx.close_scope_bare(rt, scope)?;
    Ok(())
}

/// One of three threads, the nth, is refused: the outcome has the others' values, in fork order.
pub fn nth_is_refused<N: RealmName, S: Spawns<N, JobWork<AnyEnd, N, TestJob>>, R: Wait + Abort>(
    rt: &R,
    ctx: &mut TaskCtx<AnyEnd, S, N>,
    board: &Shared,
    nth: u64,
) -> Result<(), Fail> {
    let Ok(scope) = ctx.open(rt, Joiner::All, Options::PLAIN) else {
        return Err("no scope")?;
    };
    for task in 1..4u32 {
        let forked = fork(rt, ctx, scope, board, Duty::Plain(i64::from(task)));
        assert!(rt; forked.err() == (u64::from(task) == nth).then_some(Refusal::Rejected));
    }
    let joined = ctx.join(rt, scope)?;
    let Outcome::All(values) = &joined.outcome else {
        return Err("another outcome")?;
    };
    let refused = u32::from(nth < 4);
    assert!(rt; values.as_slice().len() == if refused == 1 { 2 } else { 3 });
    for value in values.as_slice() {
        assert!(rt;
            u64::from(value.task) != nth && value.value == Value::Num(i64::from(value.task))
        );
    }
    let view = ctx.view(rt, scope)?;
    assert!(rt;
        view.counts.never == refused && view.counts.finished == 3u32.saturating_sub(refused)
    );
    ctx.close_scope_bare(rt, scope)?;
    Ok(())
}

/// Job by job, what a job that has a scope for itself ends with.
pub fn one_ends_with<N: RealmName, S: Spawns<N, JobWork<AnyEnd, N, TestJob>>, R: Wait + Abort>(
    rt: &R,
    ctx: &mut TaskCtx<AnyEnd, S, N>,
    board: &Shared,
    duty: Duty,
    number: i64,
) -> Result<(), Fail> {
    ctx.bind(rt, board.key, Value::Num(7))?;
    let Ok(scope) = ctx.open(rt, Joiner::AwaitAll, Options::PLAIN) else {
        return Err("no scope")?;
    };
    let Ok(task) = fork(rt, ctx, scope, board, duty) else {
        return Err("no fork")?;
    };
    assert!(rt; ctx.unbind(rt).err() == Some(Refusal::Structure));
    assert!(rt; ctx.join_by::<BareOutcome, _, _>(rt, scope, &mut Never)? == BareOutcome::Done);
    assert_eq!(rt; number_of(rt, ctx, task), number);
    ctx.close_scope_bare(rt, scope)?;
    ctx.unbind(rt)?;
    Ok(())
}
