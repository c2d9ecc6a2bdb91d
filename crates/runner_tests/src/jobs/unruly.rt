//! Jobs that leave scopes open or wait for their close, and realms with room for very little.
use super::duties::{Duty, Shared, TestJob, fork, named, number_of};
use super::logs::{end_of, is_closed, starts_and_ends};
use job_runner::{ForkRefusal, JobWork, TaskCtx};
use join_rules::Joiner;
use realm_lock::RealmName;
use scope_rules::{AnyEnd, Fault, Name, Options, Outcome, Refusal, Value};
use std::process::Abort;
use std::sync::Wait;
use std::test::Fail;
use thread_pool::Spawns;

/// The fault of a task whose job left a scope open.
pub fn left_open() -> Result<Fault, Fail> {
    Ok(Fault(Name::new(b"left-open").ok_or("a name")?))
}

/// A job that leaves its scope open ends with that fault, and the scope is closed after it.
pub fn one_is_left_open<N: RealmName, S: Spawns<N, JobWork<AnyEnd, N, TestJob>>, R: Wait + Abort>(
    rt: &R,
    ctx: &mut TaskCtx<AnyEnd, S, N>,
    board: &Shared,
) -> Result<(), Fail> {
    let left_open = left_open()?;
    let Ok(scope) = ctx.open(rt, Joiner::AwaitOk, Options::PLAIN) else {
        return Err("no scope")?;
    };
    assert!(rt; fork(rt, ctx, scope, board, Duty::LeavesOpen).is_ok());
    let joined = ctx.join(rt, scope)?;
    assert!(rt;
        match joined.outcome {
            Outcome::Failed { task, fault } => task == 1 && fault == left_open,
            _ => false
        }
    );
    let inner = ctx.view(rt, 2)?;
    assert!(rt; is_closed(&inner.log));
    ctx.close_scope_bare(rt, scope)?;
    Ok(())
}

/// A job leaves a scope open in which a job does the same: both end with that fault, the inner one first.
pub fn two_are_left_open<N: RealmName, S: Spawns<N, JobWork<AnyEnd, N, TestJob>>, R: Wait + Abort>(
    rt: &R,
    ctx: &mut TaskCtx<AnyEnd, S, N>,
    board: &Shared,
) -> Result<(), Fail> {
    let left_open = left_open()?;
    let Ok(scope) = ctx.open(rt, Joiner::AwaitAll, Options::PLAIN) else {
        return Err("no scope")?;
    };
    assert!(rt; fork(rt, ctx, scope, board, Duty::LeavesTwo).is_ok());
    ctx.join(rt, scope)?;
    assert!(rt; ctx.fault(rt, 1).ok() == Some(left_open));
    let middle = ctx.view(rt, 2)?;
    assert!(rt; end_of(&middle.log, 2) == Some(Err(left_open)) && is_closed(&middle.log));
    assert!(rt; starts_and_ends(&middle.log) == (1, 1));
    let inner = ctx.view(rt, 3)?;
    assert!(rt; is_closed(&inner.log));
    let report = ctx.close_scope(rt, scope)?;
    assert!(rt; starts_and_ends(&report.log) == (1, 1) && report.nested.is_empty());
    Ok(())
}

/// Two scopes, in each of which a job waits for its mark: nobody cancels them, but their closes do. The report of the
/// outer one is of its own job alone, once the inner one is closed without a report.
pub fn closes_cancel<N: RealmName, S: Spawns<N, JobWork<AnyEnd, N, TestJob>>, R: Wait + Abort>(
    rt: &R,
    ctx: &mut TaskCtx<AnyEnd, S, N>,
    board: &Shared,
) -> Result<(), Fail> {
    let Ok(outer) = ctx.open(rt, Joiner::AwaitAll, Options::PLAIN) else {
        return Err("no scope")?;
    };
    assert!(rt; fork(rt, ctx, outer, board, Duty::Waits).is_ok());
    let Ok(inner) = ctx.open(rt, Joiner::AwaitAll, Options::PLAIN) else {
        return Err("no scope")?;
    };
    assert!(rt; fork(rt, ctx, inner, board, Duty::Waits).is_ok());
    ctx.close_scope_bare(rt, inner)?;
    let report = ctx.close_scope(rt, outer)?;
    assert!(rt; report.nested.is_empty() && starts_and_ends(&report.log) == (1, 1));
    assert!(rt; end_of(&report.log, 1) == Some(Ok(Value::Num(i64::from(outer)))));
    assert!(rt; board.calls() == 2);
    Ok(())
}

/// A scope, two tasks and a load of ten: what goes past that is refused, in main and in a job, and all that
/// was begun ends.
pub fn little_room<N: RealmName, S: Spawns<N, JobWork<AnyEnd, N, TestJob>>, R: Wait + Abort>(
    rt: &R,
    ctx: &mut TaskCtx<AnyEnd, S, N>,
    board: &Shared,
) -> Result<(), Fail> {
    let Ok(scope) = ctx.open(rt, Joiner::AwaitAll, Options::PLAIN) else {
        return Err("no scope")?;
    };
    for _ in 0..2u32 {
        assert!(rt; fork(rt, ctx, scope, board, Duty::Opens).is_ok());
    }
    let third = named(board, Duty::Plain(3)).ok_or("memory")?;
    let Err(refused) = ctx.fork_job(rt, scope, third) else {
        return Err("there was room for a third task")?;
    };
    assert!(rt; matches!(&refused, ForkRefusal::Before(Refusal::TooMany, _)));
    assert!(rt; matches!(refused.into_job().into_job().duty, Duty::Plain(3)));
    assert!(rt; ctx.cancel(rt, scope).err() == Some(Refusal::TooMany));
    ctx.join(rt, scope)?;
    let too_many = i64::from(Refusal::TooMany.number());
    assert_eq!(rt; number_of(rt, ctx, 1), too_many);
    assert_eq!(rt; number_of(rt, ctx, 2), too_many);
    let report = ctx.close_scope(rt, scope)?;
    assert!(rt; starts_and_ends(&report.log) == (2, 2));
    Ok(())
}

/// Ten rounds of a scope and a job, with a retirement behind each, where there is room for one of each.
pub fn ten_rounds<N: RealmName, S: Spawns<N, JobWork<AnyEnd, N, TestJob>>, R: Wait + Abort>(
    rt: &R,
    ctx: &mut TaskCtx<AnyEnd, S, N>,
    board: &Shared,
) -> Result<(), Fail> {
    for round in 1..11u32 {
        let Ok(scope) = ctx.open(rt, Joiner::All, Options::PLAIN) else {
            return Err("no scope")?;
        };
        assert!(rt; fork(rt, ctx, scope, board, Duty::Plain(i64::from(round))).is_ok());
        ctx.join(rt, scope)?;
        assert_eq!(rt; number_of(rt, ctx, round), i64::from(round));
        let report = ctx.close_scope(rt, scope)?;
        assert!(rt; starts_and_ends(&report.log) == (1, 1));
        let base = ctx.retire(rt)?;
        assert!(rt; base.scopes() == round && base.tasks() == round);
    }
    Ok(())
}
