ghost use Rattle.std.specs.Prelude.{◌≡◌};
ghost use Rattle.job_runner.specs.{EndsAsMay, IsReadyFor, Returns};

use crate::contexts::TaskCtx;
use crate::jobs::Job;
use crate::opaque::OpaqueRealm;
use crate::readers::CellReader;
use realm_lock::{RealmName, Ticket};
use scope_rules::Catalog;
use share_ledger::{Answers, NamedJob};
use std::alloc::Global;
use std::sync::Wait;
use thread_pool::{Ready, Spawner, Work};

/// A named job on its way to a thread, with a share of its realm, and the mark of the scope in which it
/// was forked.
#[derive(Drop)]
pub struct JobWork<C: Catalog, N: RealmName, J: Answers> {
    pub(crate) alloc: Global,
    pub(crate) job: NamedJob<C, J>,
    pub(crate) realm: OpaqueRealm<C, N>,
    pub(crate) around: Option<CellReader>,
}

impl<C: Catalog, N: RealmName, J: Answers> Ready for JobWork<C, N, J> {
    ghost use Rattle.job_runner.specs.Forks.{IsReadyFor};
    ghost use Rattle.job_runner.specs.Readiness.{ready_is_fact};

    ghost ready_for = { λ work ticket. IsReadyFor N.table work.job.label ticket };

    ghost is_fact = { λ work ticket. ready_is_fact N.table work.job.label ticket };
}

impl<C: Catalog, N: RealmName, S: Spawner<N>, J: Job<C, S, N>> Work<N, S> for JobWork<C, N, J> {
    /// Starts the ticket's task, runs the job once, and ends the task: the scopes that the job left open
    /// are closed, the latest first, and then the end is recorded: as the job answered, or the fault
    /// `left-open` if there were such scopes.
    fn run<R: Wait>(self, rt: &R, spawner: S, ticket: Ticket) -> (Ticket, S)
        requires { IsReadyFor N.table self.job.label ticket }
        ensures returns { Returns N.table ticket result.0 }
        ensures ended { EndsAsMay (J.may_end self.job.job) result.0 }
    {
        let JobWork {
            alloc,
            job,
            realm,
            around,
        } = self;
        let (ticket, token) = realm.lent().start(rt, ticket);
        let mut ctx = TaskCtx::of_actor(alloc, realm, token, spawner, around);
        let end = job.into_job().run(rt, &mut ctx);
        ctx.end_task(rt, ticket, end)
    }
}
