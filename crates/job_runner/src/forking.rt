ghost use Rattle.std.specs.Prelude.{◌≡◌, IfErr, IfOk, IfSome, MatchOption, None, OnSome};
ghost use Rattle.job_runner.specs.{ForksJob, HasRoom, HasThreadMore, IsMarkOf, IsNewTicket, IsReadyFor, IsSameTeam, IsUnlisted, KeepsThread, SeesMore, SpawnsJob, job_of, refusal_of, why_alone, why_of};

use crate::contexts::TaskCtx;
use crate::opaque::OpaqueRealm;
use crate::readers::CellReader;
use crate::works::JobWork;
use realm_lock::{Forked, RealmName, Ticket};
use scope_rules::{Catalog, ForkReply, Refusal, ScopeId, TaskId};
use share_ledger::{Answers, NamedJob};
use std::sync::Wait;
use thread_pool::{Spawner, Spawns};

/// Why a fork was refused, with the job, which is handed back.
#[derive(Drop)]
pub enum ForkRefusal<C: Catalog, J: Answers> {
    /// The fork was refused, and nothing is recorded.
    Before(Refusal, NamedJob<C, J>),
    /// No thread was available for the task of this number: its fork is recorded, and its reject.
    Rejected(TaskId, NamedJob<C, J>),
}

impl<C: Catalog, J: Answers> ForkRefusal<C, J> {
    /// The refusal, for its number and word: a rejected task is refusal 16.
    pub fn refusal(&self) -> Refusal
        ensures { result ≡ refusal_of (why_of self.now) }
    {
        match self {
            ForkRefusal::Before(refusal, _) => *refusal,
            ForkRefusal::Rejected(_, _) => Refusal::Rejected,
        }
    }

    /// The job, to be forked elsewhere or dropped.
    pub fn into_job(self) -> NamedJob<C, J>
        ensures { result ≡ job_of self }
    {
        match self {
            ForkRefusal::Before(_, job) => job,
            ForkRefusal::Rejected(_, job) => job,
        }
    }
}

/// So that `?` passes on the refusal. The job is dropped, uncalled.
impl<C: Catalog, J: Answers + Drop> From<ForkRefusal<C, J>> for Refusal {
    ghost use Rattle.std.specs.Prelude.{◌≡◌};
    ghost use Rattle.job_runner.specs.Forks.{refusal_of, why_of};

    ghost from_gives = { λ refused refusal. refusal ≡ refusal_of (why_of refused) };

    fn from(refused: ForkRefusal<C, J>) -> Refusal {
        refused.refusal()
    }
}

impl<C: Catalog, S: Spawner<N>, N: RealmName> TaskCtx<C, S, N> {
    /// Forks the job in the actor's scope (JEP 505, `fork`), onto a thread of the spawner, or onto none
    /// if the scope is cancelled: the job is then dropped, uncalled. Refused as `Realm::fork` is, and
    /// before anything is done if there is no room to keep the thread (`Memory`); and rejected if
    /// the spawner refuses a thread (refusal 16). The job is then handed back. A thread is kept until its
    /// scope is closed.
    pub fn fork_job<J: Answers + Drop, R: Wait>(
        &mut self,
        rt: &R,
        scope: ScopeId,
        job: NamedJob<C, J>,
    ) -> Result<ForkReply, ForkRefusal<C, J>>
    where
        S: Spawns<N, JobWork<C, N, J>>,
        ensures rest { (self.new ≡ record self.old { token = self.new.token; spawner = self.new.spawner; team = self.new.team }) × SeesMore self.old.token self.new.token }
        ensures answer { ForksJob self.old.token self.new.token scope job.label (why_alone result) }
        ensures handed_back { IfErr result (λ e. job_of e ≡ job) }
        ensures kept { IfOk result (λ reply. KeepsThread self.new.token scope job.label reply self.old.team self.new.team) }
    {
        let Some((realm, around)) = self.room_for_a_thread(scope) else {
            return Err(ForkRefusal::Before(Refusal::Memory, job));
        };
        let label = job.label();
        let token = &mut self.token;
        match self.realm.lent().fork(rt, &mut token.held, scope, label) {
            Ok(Forked::Thread(ticket)) => {
                let work = JobWork {
                    alloc: self.alloc,
                    job,
                    realm,
                    around,
                };
                self.start_thread(rt, ticket, work)
            }
            Ok(Forked::Never(task)) => Ok(ForkReply::Never(task)),
            Err(refusal) => Err(ForkRefusal::Before(refusal, job)),
        }
    }

    /// Has a thread run the work, for whose handle there is room, or rejects its task.
    fn start_thread<J: Answers + Drop, R: Wait>(
        &mut self,
        rt: &R,
        ticket: Ticket,
        work: JobWork<C, N, J>,
    ) -> Result<ForkReply, ForkRefusal<C, J>>
    where
        S: Spawns<N, JobWork<C, N, J>>,
        requires room { HasRoom self.old.team }
        requires named { ticket.table ≡ N.table }
        requires fresh { IsNewTicket self.old.token ticket.scope work.job.label ticket }
        requires marked { IsMarkOf ticket.scope self.old.opened.items work.around }
        ensures rest { (self.new ≡ record self.old { token = self.new.token; spawner = self.new.spawner; team = self.new.team }) × SeesMore self.old.token self.new.token }
        ensures answer { SpawnsJob self.old.token self.new.token ticket (why_alone result) }
        ensures handed_back { IfErr result (λ e. job_of e ≡ work.job) }
        ensures kept { IfOk result (λ _. HasThreadMore ticket self.old.team self.new.team) }
    {
        self.start_ready(rt, ticket, work)
    }

    /// The same, whatever the token has seen after the fork of the ticket's task.
    pub(crate) fn start_ready<J: Answers + Drop, R: Wait>(
        &mut self,
        rt: &R,
        ticket: Ticket,
        work: JobWork<C, N, J>,
    ) -> Result<ForkReply, ForkRefusal<C, J>>
    where
        S: Spawns<N, JobWork<C, N, J>>,
        requires room { HasRoom self.old.team }
        requires ready { IsReadyFor N.table work.job.label ticket }
        requires marked { IsMarkOf ticket.scope self.old.opened.items work.around }
        ensures rest { (self.new ≡ record self.old { token = self.new.token; spawner = self.new.spawner; team = self.new.team }) × SeesMore self.old.token self.new.token }
        ensures answer { SpawnsJob self.old.token self.new.token ticket (why_alone result) }
        ensures handed_back { IfErr result (λ e. job_of e ≡ work.job) }
        ensures kept { IfOk result (λ _. HasThreadMore ticket self.old.team self.new.team) }
        ensures unkept { IfErr result (λ _. self.new.team ≡ self.old.team) }
    {
        let (task, scope) = (ticket.task(), ticket.scope());
        match self.spawner.spawn(rt, ticket, work) {
            Ok(handle) => {
                self.team.add(scope, handle);
                Ok(ForkReply::Thread(task))
            }
            Err((ticket, work)) => {
                let token = &mut self.token;
                let _rejected = self.realm.lent().reject_with(rt, &mut token.held, ticket);
                let JobWork { job, .. } = work;
                Err(ForkRefusal::Rejected(task, job))
            }
        }
    }

    /// Room for a thread of the scope: for its handle, and for its return, with what its own context
    /// begins with: the mark of the scope, as long as that is listed.
    pub(crate) fn room_for_a_thread(
        &mut self,
        scope: ScopeId,
    ) -> Option<(OpaqueRealm<C, N>, Option<CellReader>)>
        ensures rest { self.new ≡ record self.old { team = self.new.team } }
        ensures team { IsSameTeam self.old.team self.new.team }
        ensures room { OnSome result (HasRoom self.new.team) }
        ensures around { IfSome result (λ room. IsMarkOf scope self.old.opened.items room.1) }
    {
        let realm = self.realm.again()?;
        let around = match self.reader_of(scope) {
            Some(reader) => Some(reader.fresh()?),
            None => None,
        };
        self.team.reserve().ok()?;
        Some((realm, around))
    }

    /// The reader of the scope, if it is open in this context.
    fn reader_of(&self, scope: ScopeId) -> Option<&CellReader>
        ensures { MatchOption result (IsUnlisted scope self.now.opened.items) (λ reader. reader.now.cell.scope ≡ scope) }
    {
        for open in &self.opened {
            if open.scope == scope {
                return Some(&open.reader);
            }
        }
        None
    }
}
