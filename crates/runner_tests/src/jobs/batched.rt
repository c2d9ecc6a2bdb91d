//! Batches of jobs: their forks are in order, and stop where one is refused.

use super::duties::{Duty, Shared, TestJob, named, number_of};
use super::logs::starts_and_ends;
use job_runner::{ForkRefusal, ForkedJobs, JobWork, NamedJob, TaskCtx};
use join_rules::Joiner;
use realm_lock::RealmName;
use scope_rules::{AnyEnd, ForkReply, Options, Refusal, ScopeId, TaskId};
use std::process::Abort;
use std::sync::Wait;
use std::test::Fail;
use thread_pool::Spawns;

/// A batch in a fresh realm, and what is to become of it.
#[derive(Clone, Copy)]
pub struct Batch {
    /// How many jobs it has.
    pub jobs: u32,
    /// How many of these the realm has room for.
    pub forked: u32,
    /// The task whose thread is refused, or 0.
    pub rejected: TaskId,
    /// Whether its scope is cancelled before.
    pub is_cancelled: bool,
}

/// A batch of no jobs in an open scope, in which no thread is refused.
pub const EMPTY: Batch = Batch {
    jobs: 0,
    forked: 0,
    rejected: 0,
    is_cancelled: false,
};

impl Batch {
    /// How many of its jobs run.
    fn runs(self) -> u64 {
        let rejected = if self.rejected == 0 { 0 } else { 1 };
        if self.is_cancelled {
            0
        } else {
            u64::from(self.forked).saturating_sub(rejected)
        }
    }

    /// Whether this became of the job of the task.
    fn is_right(
        self,
        task: TaskId,
        answer: &Result<ForkReply, ForkRefusal<AnyEnd, TestJob>>,
    ) -> bool {
        match answer {
            Ok(ForkReply::Never(never)) => self.is_cancelled && *never == task,
            Ok(ForkReply::Thread(thread)) => !self.is_cancelled && *thread == task,
            Err(ForkRefusal::Rejected(rejected, _)) => *rejected == task && task == self.rejected,
            Err(ForkRefusal::Before(..)) => false,
        }
    }

    /// Whether this became of its jobs.
    fn is_forked_so(self, batch: &ForkedJobs<AnyEnd, TestJob>) -> bool {
        let mut task = 0u32;
        for answer in &batch.forked {
            task = task.saturating_add(1);
            if !self.is_right(task, answer) {
                return false;
            }
        }
        task == self.forked
    }
}

/// The number with which the first of the jobs would end, or 0 if there is none.
fn first_number(jobs: Vec<NamedJob<AnyEnd, TestJob>>) -> i64 {
    match jobs.into_iter().next() {
        Some(job) => match job.into_job().duty {
            Duty::Plain(number) => number,
            _ => 0,
        },
        None => 0,
    }
}

/// As many jobs, which end with 1, 2 and so on. None if memory is refused.
fn jobs_of(board: &Shared, count: u32) -> Option<Vec<NamedJob<AnyEnd, TestJob>>> {
    let mut jobs = Vec::new(board.alloc);
    for number in 0..count {
        let job = named(board, Duty::Plain(i64::from(number) + 1))?;
        jobs.push(job).ok()?;
    }
    Some(jobs)
}

/// Whether each task that ran ended with its own number.
fn are_ended_so<N: RealmName, S: Spawns<N, JobWork<AnyEnd, N, TestJob>>, R: Wait>(
    rt: &R,
    ctx: &mut TaskCtx<AnyEnd, S, N>,
    batch: Batch,
) -> bool {
    for before in 0..batch.forked {
        let task = before + 1;
        if task != batch.rejected && number_of(rt, ctx, task) != i64::from(task) {
            return false;
        }
    }
    true
}

/// Forks the batch in one go, and joins and closes its scope.
pub fn is_forked_in_one_go<
    N: RealmName,
    S: Spawns<N, JobWork<AnyEnd, N, TestJob>>,
    R: Wait + Abort,
>(rt: &R, ctx: &mut TaskCtx<AnyEnd, S, N>, board: &Shared, batch: Batch) -> Result<(), Fail> {
    let Ok(scope) = ctx.open(rt, Joiner::AwaitAll, Options::PLAIN) else {
        return Err("no scope")?;
    };
    if batch.is_cancelled {
        ctx.cancel(rt, scope)?;
    }
    let jobs = jobs_of(board, batch.jobs).ok_or("memory")?;
    let forked = ctx.fork_jobs(rt, scope, jobs);
    assert!(rt; batch.is_forked_so(&forked));
    let left = batch.jobs.saturating_sub(batch.forked);
    assert_eq!(rt; forked.left.len(), left as usize);
    if left == 0 {
        assert!(rt; forked.refusal.is_none());
    } else {
        assert!(rt; forked.refusal == Some(Refusal::TooMany));
        assert_eq!(rt; first_number(forked.left), i64::from(batch.forked) + 1);
    }
    ctx.join(rt, scope)?;
    assert!(rt; batch.is_cancelled || are_ended_so(rt, ctx, batch));
    let report = ctx.close_scope(rt, scope)?;
    assert!(rt; starts_and_ends(&report.log) == (batch.runs(), batch.runs()));
    assert_eq!(rt; board.calls(), batch.runs());
    Ok(())
}

/// Forks the jobs as one batch: how many were forked.
fn forked_together<N: RealmName, S: Spawns<N, JobWork<AnyEnd, N, TestJob>>, R: Wait>(
    rt: &R,
    ctx: &mut TaskCtx<AnyEnd, S, N>,
    scope: ScopeId,
    jobs: Vec<NamedJob<AnyEnd, TestJob>>,
) -> Result<usize, Refusal> {
    let batch = ctx.fork_jobs(rt, scope, jobs);
    match batch.refusal {
        Some(refusal) => Err(refusal),
        None => Ok(batch.forked.len()),
    }
}

/// Forks jobs together, twice, and joins and closes their scope: three, whose threads rest then, and five, of
/// which three find a thread in one go.
pub fn some_are_forked_together<
    N: RealmName,
    S: Spawns<N, JobWork<AnyEnd, N, TestJob>>,
    R: Wait + Abort,
>(rt: &R, ctx: &mut TaskCtx<AnyEnd, S, N>, board: &Shared) -> Result<(), Fail> {
    for (count, calls) in [(3, 3), (5, 8)] {
        let Ok(scope) = ctx.open(rt, Joiner::All, Options::PLAIN) else {
            return Err("no scope")?;
        };
        let jobs = jobs_of(board, count).ok_or("memory")?;
        let forked = forked_together(rt, ctx, scope, jobs);
        ctx.join(rt, scope)?;
        ctx.close_scope_bare(rt, scope)?;
        assert!(rt; forked == Ok(count as usize));
        assert_eq!(rt; board.calls(), calls);
    }
    Ok(())
}
