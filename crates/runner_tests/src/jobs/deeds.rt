//! What the jobs do in their contexts.
ghost use Rattle.std.specs.Prelude.{◌≡◌};

use super::duties::{Duty, SHIELD, Shared, TestJob, fork, number_of};
use job_runner::{JobWork, TaskCtx};
use join_rules::Joiner;
use realm_lock::RealmName;
use scope_rules::{AnyEnd, Name, Options, ScopeId, State, TaskId, Value};
use std::sync::Wait;
use std::thread;
use thread_pool::{Spawner, Spawns};

/// Looks at the task until it has ended with a result.
pub fn wait_for<N: RealmName, S: Spawner<N>, R: Wait>(
    rt: &R,
    ctx: &mut TaskCtx<AnyEnd, S, N>,
    task: TaskId,
) {
    for _ in 0..1_000_000_000u32 {
        match ctx.state(rt, task) {
            Ok(State::Success(_) | State::Failed(_)) => return,
            _ => thread::yield_now(), // it may not be forked yet
        }
    }
}

/// Looks for the context's mark, so often at most: 1 if it is seen, else 0.
pub fn look<N: RealmName, S: Spawner<N>>(ctx: &mut TaskCtx<AnyEnd, S, N>, looks: u32) -> i64 {
    for _ in 0..looks {
        if ctx.checkpoint().is_some() {
            return 1;
        }
        thread::yield_now();
    }
    0
}

/// Waits for the context's mark: the scope that it says, or 0.
pub fn wait_until<N: RealmName, S: Spawner<N>, R: Wait>(
    rt: &R,
    ctx: &mut TaskCtx<AnyEnd, S, N>,
) -> i64 {
    match ctx.wait_cancelled(rt) {
        Some(mark) => i64::from(mark.scope),
        None => 0,
    }
}

/// Cancels the scope, and looks for the context's mark. Whether it says that scope.
pub fn cancel_and_look<N: RealmName, S: Spawner<N>, R: Wait>(
    rt: &R,
    ctx: &mut TaskCtx<AnyEnd, S, N>,
    scope: ScopeId,
) -> bool {
    let _how = ctx.cancel(rt, scope);
    match ctx.checkpoint() {
        Some(mark) => mark.scope == scope,
        None => false,
    }
}

/// Leaves a scope open, in which a job runs that leaves one open too.
pub fn leave_two<N: RealmName, S: Spawns<N, JobWork<AnyEnd, N, TestJob>>, R: Wait>(
    rt: &R,
    ctx: &mut TaskCtx<AnyEnd, S, N>,
    board: &Shared,
) {
    if let Ok(scope) = ctx.open(rt, Joiner::AwaitAll, Options::PLAIN) {
        let _task = fork(rt, ctx, scope, board, Duty::LeavesOpen);
    }
}

/// Waits to be cancelled, and then forks a job inside a shield: what that ended with, or 0.
pub fn meet_shielded<N: RealmName, S: Spawns<N, JobWork<AnyEnd, N, TestJob>>, R: Wait>(
    rt: &R,
    ctx: &mut TaskCtx<AnyEnd, S, N>,
    board: &Shared,
) -> i64 {
    let _mark = ctx.wait_cancelled(rt);
    let Ok(scope) = ctx.open(rt, Joiner::AwaitAll, SHIELD) else {
        return 0;
    };
    let task = fork(rt, ctx, scope, board, Duty::Plain(3));
    let _joined = ctx.join(rt, scope);
    let number = match task {
        Ok(task) => number_of(rt, ctx, task),
        Err(_) => 0,
    };
    let _how = ctx.close_scope_bare(rt, scope);
    number
}

/// Opens scopes until one is refused, and closes them with the outermost: how many there were.
pub fn open_all<N: RealmName, S: Spawner<N>, R: Wait>(
    rt: &R,
    ctx: &mut TaskCtx<AnyEnd, S, N>,
) -> i64 {
    let Ok(outermost) = ctx.open(rt, Joiner::AwaitAll, Options::PLAIN) else {
        return 0;
    };
    let opened = open_inside(rt, ctx);
    let _how = ctx.close_scope_bare(rt, outermost);
    opened.saturating_add(1)
}

/// Opens scopes until one is refused, 100 at most: how many.
fn open_inside<N: RealmName, S: Spawner<N>, R: Wait>(
    rt: &R,
    ctx: &mut TaskCtx<AnyEnd, S, N>,
) -> i64 {
    for opened in 0..100i64 {
        if ctx.open(rt, Joiner::AwaitAll, Options::PLAIN).is_err() {
            return opened;
        }
    }
    100
}

/// Reads the number 7, binds 8 and reads that, takes it away, and once more: the number of the refusal that
/// this meets, or 0 where a call answered otherwise.
pub fn bind_and_unbind<N: RealmName, S: Spawner<N>, R: Wait>(
    rt: &R,
    ctx: &mut TaskCtx<AnyEnd, S, N>,
    key: Name,
) -> i64 {
    let inherited = ctx.get(rt, &key);
    let bound = ctx.bind(rt, key, Value::Num(8));
    let own = ctx.get(rt, &key);
    let unbound = ctx.unbind(rt);
    let again = ctx.unbind(rt);
    match (inherited, bound, own, unbound, again) {
        (Ok(Value::Num(7)), Ok(()), Ok(Value::Num(8)), Ok(()), Err(refusal)) => {
            i64::from(refusal.number())
        }
        _ => 0,
    }
}

/// How many jobs the tree is, with this one, that read the binding.
pub fn grow<N: RealmName, S: Spawns<N, JobWork<AnyEnd, N, TestJob>>, R: Wait>(
    rt: &R,
    ctx: &mut TaskCtx<AnyEnd, S, N>,
    board: &Shared,
    depth: u32,
) -> i64 {
    let own = match ctx.get(rt, &board.key) {
        Ok(Value::Num(7)) => 1,
        _ => 0,
    };
    match depth.checked_sub(1) {
        Some(less) => below(rt, ctx, board, less).saturating_add(own),
        None => own,
    }
}

/// Two trees of this depth in a scope of their own: how many of their jobs read the binding.
fn below<N: RealmName, S: Spawns<N, JobWork<AnyEnd, N, TestJob>>, R: Wait>(
    rt: &R,
    ctx: &mut TaskCtx<AnyEnd, S, N>,
    board: &Shared,
    depth: u32,
) -> i64 {
    let Ok(scope) = ctx.open(rt, Joiner::AwaitAll, Options::PLAIN) else {
        return 0;
    };
    let left = fork(rt, ctx, scope, board, Duty::Tree { depth });
    let right = fork(rt, ctx, scope, board, Duty::Tree { depth });
    let _joined = ctx.join(rt, scope);
    let mut all = 0i64;
    if let Ok(task) = left {
        all = number_of(rt, ctx, task);
    }
    if let Ok(task) = right {
        all = all.saturating_add(number_of(rt, ctx, task));
    }
    let _how = ctx.close_scope_bare(rt, scope);
    all
}
