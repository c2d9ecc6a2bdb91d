//! A request as a job: within its deadline, with its permit.
ghost use Rattle.std.specs.Prelude.{◌≡◌, IsErr};
ghost use Rattle.balkreyn.specs.{AsksEnd};

use crate::act::blocks::entered;
use crate::act::contexts::Acts;
use crate::act::limits::Permit;
use crate::act::requests::Lost;
use crate::act::tasks::Task;
use crate::literals::named;
use join_rules::Joiner;
use realm_lock::Mark;
use scope_rules::{End, Fault, Name, Refusal, Verdict};

/// The job of a request, with how many milliseconds it may take, and the permit that it holds until it ends.
#[derive(Drop)]
pub struct Asking<W> {
    pub(crate) job: W,
    pub(crate) deadline: u64,
    pub(crate) permit: Permit,
}

impl<W: Drop> Asking<W> {
    /// The job of a request that wasn't begun. Its permit is given back.
    pub(crate) fn into_job(self) -> W
        ensures { result ≡ self.job }
    {
        let Asking { job, permit, .. } = self;
        drop(permit);
        job
    }
}

impl<W: Task> Asking<W> {
    /// Does the job in a scope with the deadline, if there is one, and gives its permit back. Beside its end it says why the
    /// request is lost, if it is.
    pub(crate) fn run<X: Acts<W>>(self, cx: &mut X) -> (End, Option<Lost>)
        ensures { AsksEnd W.may_end self.job result.0 }
    {
        let Asking {
            job,
            deadline,
            permit,
        } = self;
        let answered = if deadline == u64::MAX {
            let end = job.run(cx);
            (end, lost(&end, cx.checkpoint()))
        } else {
            run_within(job, cx, deadline)
        };
        drop(permit);
        answered
    }
}

/// Does the job in a scope of its own, which has so many milliseconds.
fn run_within<W: Task, X: Acts<W>>(job: W, cx: &mut X, millis: u64) -> (End, Option<Lost>)
    ensures { AsksEnd W.may_end job result.0 }
{
    let options = cx.fail_after(millis);
    let scope = match entered(cx, Joiner::AwaitAll, options) {
        Ok(scope) => scope,
        Err(refusal) => return unanswered(named(b"no-scope"), refusal),
    };
    let end = job.run(cx);
    let why = lost(&end, cx.checkpoint());
    match cx.close(scope) {
        Ok(Verdict::Violated) => {
            let fault = Fault(named(b"left-open"));
            (Err(fault), Some(Lost::Failed(fault)))
        }
        Ok(_) => (end, why),
        Err(refusal) => unanswered(named(b"no-close"), refusal),
    }
}

/// Why a request is lost whose job ended so, and what its scope then showed.
fn lost(end: &End, shown: Option<Mark>) -> Option<Lost> {
    let cancelled = match shown {
        Some(mark) => Some(mark.cause.kind),
        None => None,
    };
    match end {
        Ok(_) => None,
        Err(fault) => Some(Lost::failed(*fault, cancelled)),
    }
}

/// The end of a request for whose scope something was refused.
fn unanswered(fault: Name, refusal: Refusal) -> (End, Option<Lost>)
    ensures { IsErr result.0 }
{
    (Err(Fault(fault)), Some(Lost::Refused(refusal)))
}
