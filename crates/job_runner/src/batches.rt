//! Batches of jobs, the forks of each in one hold of the realm's lock.

ghost use Rattle.std.specs.Prelude.{[], ◌≡◌, ◌≤◌, IfErr, IfOk, IfSome, None, Option, length, vec_capacity};
ghost use Rattle.job_runner.specs.{All, AreReady, ForksJobs, ForksLabels, IsMarkOf, IsReadyFor, IsReadyOne, IsSameTeam, Seen, SeesMore, SpawnsJob, StartsFirst, StartsOne, job_of, labels_of, why_alone};

use crate::contexts::TaskCtx;
use crate::forking::ForkRefusal;
use crate::opaque::OpaqueRealm;
use crate::readers::CellReader;
use crate::works::JobWork;
use realm_lock::{Forked, RealmName, Ticket};
use scope_rules::{Catalog, ForkReply, Label, Refusal, ScopeId};
use share_ledger::{Answers, NamedJob};
use std::alloc::Global;
use std::sync::Wait;
use thread_pool::{Spawner, Spawns};

/// What became of a batch of jobs. A test of `runner_tests` forks one so:
///
/// ```rust
/// fn forked_together<N: RealmName, S: Spawns<N, JobWork<AnyEnd, N, TestJob>>, R: Wait>(
///     rt: &R,
///     ctx: &mut TaskCtx<AnyEnd, S, N>,
///     scope: ScopeId,
///     jobs: Vec<NamedJob<AnyEnd, TestJob>>,
/// ) -> Result<usize, Refusal> {
///     let batch = ctx.fork_jobs(rt, scope, jobs);
///     match batch.refusal {
///         Some(refusal) => Err(refusal),
///         None => Ok(batch.forked.len()),
///     }
/// }
/// ```
#[derive(Drop)]
pub struct ForkedJobs<C: Catalog, J: Answers> {
    /// What became of each job that was forked, in their order: it has a thread, or none since the scope
    /// is cancelled, and is then dropped, uncalled; or no thread was available (`ForkRefusal::Rejected`),
    /// and it is handed back.
    pub forked: Vec<Result<ForkReply, ForkRefusal<C, J>>>,
    /// The jobs that were not forked, in their order.
    pub left: Vec<NamedJob<C, J>>,
    /// Why the first of these was not forked. There is none only if none is left.
    pub refusal: Option<Refusal>,
}

impl<C: Catalog, S: Spawner<N>, N: RealmName> TaskCtx<C, S, N> {
    /// Forks the jobs in the actor's scope (JEP 505, `fork`), in their order: all their forks are in one hold
    /// of the realm's lock, and then each task gets its thread as `fork_job` gives it. It stops at the first
    /// fork that is refused, with what refused it (the errors of `Realm::fork_all`), and hands back that job
    /// and those after it. What the forks give and what is answered is given room before the first fork: if
    /// there is none, nothing is recorded, and all jobs are handed back (`Memory`).
    ///
    /// A job for whose thread the spawner has none available, or there is no room to keep it, is rejected, as
    /// in `fork_job` (refusal 16). It is handed back with its answer, and the jobs after it go on. A thread is
    /// kept until its scope is closed.
    pub fn fork_jobs<J: Answers + Drop, R: Wait>(
        &mut self,
        rt: &R,
        scope: ScopeId,
        jobs: Vec<NamedJob<C, J>>,
    ) -> ForkedJobs<C, J>
    where
        S: Spawns<N, JobWork<C, N, J>>,
        ensures rest { (self.new ≡ record self.old { token = self.new.token; spawner = self.new.spawner; team = self.new.team }) × SeesMore self.old.token self.new.token }
        ensures answer { ForksJobs self.old.token self.new.token self.old.team self.new.team scope jobs.items result.left.items result.forked.items result.refusal }
        ensures all { result.refusal ≡ None → result.left.items ≡ [] }
    {
        let Some((labels, rooms, answers)) = self.room_for_jobs(scope, jobs.as_slice()) else {
            return ForkedJobs {
                forked: Vec::new(self.alloc),
                left: jobs,
                refusal: Some(Refusal::Memory),
            };
        };
        let (forked, refusal) = self.fork_labels(rt, scope, labels.as_slice());
        let (answers, left) = self.start_all(rt, scope, jobs, rooms, forked, answers);
        ForkedJobs {
            forked: answers,
            left,
            refusal,
        }
    }

    /// Forks a task of each label, up to the first that is refused.
    fn fork_labels<R: Wait>(
        &mut self,
        rt: &R,
        scope: ScopeId,
        labels: &[Label],
    ) -> (Vec<Forked>, Option<Refusal>)
        ensures rest { (self.new ≡ record self.old { token = self.new.token }) × SeesMore self.old.token self.new.token }
        ensures forks { ForksLabels self.old.token self.new.token scope labels.now result.0.items result.1 }
        ensures named { self.old.token.table ≡ N.table }
    {
        let token = &mut self.token;
        match self
            .realm
            .lent()
            .fork_all(rt, self.alloc, &mut token.held, scope, labels)
        {
            Ok(forked) => (forked, None),
            Err((refusal, forked)) => (forked, Some(refusal)),
        }
    }

    /// Starts a thread for each of the first jobs, as many as were forked, and gives what became of them, and
    /// the other jobs. The first are started together; those that the spawner didn't take so, one by one.
    fn start_all<J: Answers + Drop, R: Wait>(
        &mut self,
        rt: &R,
        scope: ScopeId,
        mut jobs: Vec<NamedJob<C, J>>,
        mut rooms: Vec<(OpaqueRealm<C, N>, Option<CellReader>)>,
        mut forked: Vec<Forked>,
        mut answers: Vec<Result<ForkReply, ForkRefusal<C, J>>>,
    ) -> (
        Vec<Result<ForkReply, ForkRefusal<C, J>>>,
        Vec<NamedJob<C, J>>,
    )
    where
        S: Spawns<N, JobWork<C, N, J>>,
        requires ready { AreReady N.table scope jobs.items forked.items }
        requires rooms { length forked.items ≤ length rooms.items }
        requires marked { All (λ (room : Unit {0} × Option Seen). IsMarkOf scope self.old.opened.items room.1) rooms.items }
        requires empty { answers.items ≡ [] }
        requires room { length forked.items ≤ vec_capacity answers }
        ensures rest { (self.new ≡ record self.old { token = self.new.token; spawner = self.new.spawner; team = self.new.team }) × SeesMore self.old.token self.new.token }
        ensures starts { StartsFirst self.old.token self.new.token self.old.team self.new.team jobs.items result.1.items forked.items result.0.items }
    {
        jobs.reverse();
        forked.reverse();
        self.start_together(rt, scope, &mut jobs, &mut rooms, &mut forked, &mut answers);
        while let Some(next) = forked.pop() {
            let Some(job) = jobs.pop() else {
                unreachable!()
            };
            let Some(room) = rooms.pop() else {
                unreachable!()
            };
            let answer = self.start_one(rt, scope, next, job, room);
            answers.push_reserved(answer);
        }
        jobs.reverse();
        (answers, jobs)
    }

    /// Has a thread run the job whose task was forked so, or rejects the task.
    fn start_one<J: Answers + Drop, R: Wait>(
        &mut self,
        rt: &R,
        scope: ScopeId,
        next: Forked,
        job: NamedJob<C, J>,
        room: (OpaqueRealm<C, N>, Option<CellReader>),
    ) -> Result<ForkReply, ForkRefusal<C, J>>
    where
        S: Spawns<N, JobWork<C, N, J>>,
        requires ready { IsReadyOne N.table scope job next }
        requires marked { IsMarkOf scope self.old.opened.items room.1 }
        ensures rest { (self.new ≡ record self.old { token = self.new.token; spawner = self.new.spawner; team = self.new.team }) × SeesMore self.old.token self.new.token }
        ensures answer { StartsOne self.old.token self.new.token self.old.team self.new.team job next result }
    {
        let ticket = match next {
            Forked::Thread(ticket) => ticket,
            Forked::Never(task) => return Ok(ForkReply::Never(task)),
        };
        if self.team.reserve().is_err() {
            return self.reject_job(rt, ticket, job);
        }
        let (realm, around) = room;
        let work = JobWork {
            alloc: self.alloc,
            job,
            realm,
            around,
        };
        self.start_ready(rt, ticket, work)
    }

    /// Rejects the task of a job whose thread can't be kept.
    fn reject_job<J: Answers + Drop, R: Wait>(
        &mut self,
        rt: &R,
        ticket: Ticket,
        job: NamedJob<C, J>,
    ) -> Result<ForkReply, ForkRefusal<C, J>>
        requires ready { IsReadyFor N.table job.label ticket }
        ensures rest { (self.new ≡ record self.old { token = self.new.token }) × SeesMore self.old.token self.new.token }
        ensures answer { SpawnsJob self.old.token self.new.token ticket (why_alone result) }
        ensures handed_back { IfErr result (λ e. job_of e ≡ job) }
        ensures not { IfOk result (λ _. ⊥) }
    {
        let task = ticket.task();
        let token = &mut self.token;
        let _rejected = self.realm.lent().reject_with(rt, &mut token.held, ticket);
        Err(ForkRefusal::Rejected(task, job))
    }

    /// Room for the forks of the jobs: for their labels, for what each thread's context begins with, and for
    /// what is answered.
    fn room_for_jobs<J: Answers>(
        &mut self,
        scope: ScopeId,
        jobs: &[NamedJob<C, J>],
    ) -> Option<
        (
            Vec<Label>,
            Vec<(OpaqueRealm<C, N>, Option<CellReader>)>,
            Vec<Result<ForkReply, ForkRefusal<C, J>>>,
        ),
    >
        ensures rest { self.new ≡ record self.old { team = self.new.team } }
        ensures team { IsSameTeam self.old.team self.new.team }
        ensures labels { IfSome result (λ room. room.0.items ≡ labels_of jobs.now) }
        ensures rooms { IfSome result (λ room. length room.1.items ≡ length jobs.now) }
        ensures marked { IfSome result (λ room. All (λ (one : Unit {0} × Option Seen). IsMarkOf scope self.old.opened.items one.1) room.1.items) }
        ensures answers { IfSome result (λ room. (room.2.items ≡ []) × (length jobs.now ≤ vec_capacity room.2)) }
    {
        let labels = labels_of(self.alloc, jobs)?;
        let rooms = self.room_for_threads(scope, jobs.len())?;
        let answers = Vec::with_capacity(self.alloc, jobs.len()).ok()?;
        Some((labels, rooms, answers))
    }

    /// Room for so many threads of the scope, as `room_for_a_thread` makes it for one.
    fn room_for_threads(
        &mut self,
        scope: ScopeId,
        count: usize,
    ) -> Option<Vec<(OpaqueRealm<C, N>, Option<CellReader>)>>
        ensures rest { self.new ≡ record self.old { team = self.new.team } }
        ensures team { IsSameTeam self.old.team self.new.team }
        ensures each { IfSome result (λ rooms. length rooms.items ≡ count) }
        ensures marked { IfSome result (λ rooms. All (λ (room : Unit {0} × Option Seen). IsMarkOf scope self.old.opened.items room.1) rooms.items) }
    {
        let mut rooms = Vec::with_capacity(self.alloc, count).ok()?;
        for _ in 0..count {
            let room = self.room_for_a_thread(scope)?;
            rooms.push_reserved(room);
        }
        Some(rooms)
    }
}

/// The label of each job. None if there is no room to list them.
fn labels_of<C: Catalog, J: Answers>(alloc: Global, jobs: &[NamedJob<C, J>]) -> Option<Vec<Label>>
    ensures { IfSome result (λ labels. labels.items ≡ labels_of jobs.now) }
{
    let mut labels = Vec::with_capacity(alloc, jobs.len()).ok()?;
    for job in jobs {
        labels.push_reserved(job.label());
    }
    Some(labels)
}
