//! Jobs of a batch that are handed to the spawner together.

ghost use Rattle.std.specs.Prelude.{[], ℕ, ◌++◌, ◌+◌, ◌∷◌, ◌≡◌, ◌≤◌, IfSome, List, MatchOption, OnSome, Option, length, map, reverse, vec_capacity, vec_len};
ghost use Rattle.realm_core.specs.declared.forking.Forked.TheVariants.{Thread};
ghost use Rattle.job_runner.specs.{All, ArePaired, AreReady, HasRoomFor, IsMarkOf, IsSameTeam, IsStarting, JobWork, OpenScope, Seen, TicketValue, deque_capacity, deque_len, started};

use crate::contexts::TaskCtx;
use crate::forking::ForkRefusal;
use crate::opaque::OpaqueRealm;
use crate::readers::CellReader;
use crate::works::JobWork;
use realm_lock::{Forked, RealmName, Ticket};
use scope_rules::{Catalog, ForkReply, ScopeId};
use share_ledger::{Answers, NamedJob};
use std::alloc::Global;
use std::collections::VecDeque;
use std::sync::Wait;
use thread_pool::{Spawner, Spawns};

/// What each thread's context begins with.
type Rooms<C, N> = Vec<(OpaqueRealm<C, N>, Option<CellReader>)>;

impl<C: Catalog, S: Spawner<N>, N: RealmName> TaskCtx<C, S, N> {
    /// Starts the first of the jobs together, as many as the spawner takes in one go; each list has its first at
    /// its end. The others are left in the lists, as all are if there is no room to start them so.
    pub(crate) fn start_together<J: Answers + Drop, R: Wait>(
        &mut self,
        rt: &R,
        scope: ScopeId,
        jobs: &mut Vec<NamedJob<C, J>>,
        rooms: &mut Rooms<C, N>,
        forked: &mut Vec<Forked>,
        answers: &mut Vec<Result<ForkReply, ForkRefusal<C, J>>>,
    )
    where
        S: Spawns<N, JobWork<C, N, J>>,
        requires ready { AreReady N.table scope (reverse jobs.old.items) (reverse forked.old.items) }
        requires rooms { length forked.old.items ≤ length rooms.old.items }
        requires marked { All (λ (room : Unit {0} × Option Seen). IsMarkOf scope self.old.opened.items room.1) rooms.old.items }
        requires none { answers.old.items ≡ [] }
        requires room { length forked.old.items ≤ vec_capacity answers.old }
        ensures rest { self.new ≡ record self.old { spawner = self.new.spawner; team = self.new.team } }
        ensures starting { IsStarting self.old.token self.new.token self.old.team self.new.team (reverse jobs.old.items) (reverse jobs.new.items) (reverse forked.old.items) (reverse forked.new.items) answers.new.items }
        ensures rooms { length forked.new.items ≤ length rooms.new.items }
        ensures marked { All (λ (room : Unit {0} × Option Seen). IsMarkOf scope self.old.opened.items room.1) rooms.new.items }
        ensures room { vec_len answers.new + length forked.new.items ≤ vec_capacity answers.new }
    {
        let Some((mut works, mut handles)) = self.room_to_start(forked.len()) else {
            return;
        };
        self.pair_up(scope, jobs, rooms, forked, &mut works, answers);
        self.spawner.spawn_all(rt, &mut works, &mut handles);
        answers.truncate(handles.len());
        self.team.add_all(scope, handles);
        take_apart(works, jobs, rooms, forked);
    }

    /// Room for so many works, and for the threads that run them.
    fn room_to_start<J: Answers + Drop>(
        &mut self,
        count: usize,
    ) -> Option<(VecDeque<(Ticket, JobWork<C, N, J>)>, Vec<S::Handle>)>
        ensures rest { self.new ≡ record self.old { team = self.new.team } }
        ensures team { IsSameTeam self.old.team self.new.team }
        ensures kept { OnSome result (HasRoomFor count self.new.team) }
        ensures works { IfSome result (λ room. (room.0.items ≡ []) × (count ≤ deque_capacity room.0)) }
        ensures handles { IfSome result (λ room. (room.1.items ≡ []) × (count ≤ vec_capacity room.1)) }
    {
        let Ok(works) = VecDeque::with_capacity(self.alloc, count) else {
            return None;
        };
        let Ok(handles) = Vec::with_capacity(self.alloc, count) else {
            return None;
        };
        match self.team.reserve_for(count) {
            Ok(()) => Some((works, handles)),
            Err(_) => None,
        }
    }

    /// Makes works of the first of the jobs, up to the first whose task never gets a thread, and answers for them
    /// as if each had one.
    fn pair_up<J: Answers>(
        &self,
        scope: ScopeId,
        jobs: &mut Vec<NamedJob<C, J>>,
        rooms: &mut Rooms<C, N>,
        forked: &mut Vec<Forked>,
        works: &mut VecDeque<(Ticket, JobWork<C, N, J>)>,
        answers: &mut Vec<Result<ForkReply, ForkRefusal<C, J>>>,
    )
        requires ready { AreReady N.table scope (reverse jobs.old.items) (reverse forked.old.items) }
        requires rooms { length forked.old.items ≤ length rooms.old.items }
        requires marked { All (λ (room : Unit {0} × Option Seen). IsMarkOf scope self.now.opened.items room.1) rooms.old.items }
        requires none { (answers.old.items ≡ []) × (works.old.items ≡ []) }
        requires room { (length forked.old.items ≤ vec_capacity answers.old) × (length forked.old.items ≤ deque_capacity works.old) }
        ensures paired { ArePaired N.table scope self.now.opened.items (λ (w : JobWork _ _ _). w.job) (λ (w : JobWork _ _ _). w.around) works.new.items (reverse jobs.old.items) (reverse jobs.new.items) (reverse forked.old.items) (reverse forked.new.items) }
        ensures answers { answers.new.items ≡ started works.new.items }
        ensures rooms { length forked.new.items ≤ length rooms.new.items }
        ensures marked { All (λ (room : Unit {0} × Option Seen). IsMarkOf scope self.now.opened.items room.1) rooms.new.items }
        ensures counts { (length works.new.items + vec_len forked.new ≡ vec_len forked.old) × (vec_capacity answers.new ≡ vec_capacity answers.old) }
        ensures room { (vec_len jobs.new + length works.new.items ≤ vec_capacity jobs.new) × (vec_len rooms.new + length works.new.items ≤ vec_capacity rooms.new) × (vec_len forked.new + length works.new.items ≤ vec_capacity forked.new) }
    {
        while let Some(ticket) = next_thread(forked) {
            let Some(job) = jobs.pop() else {
                unreachable!()
            };
            let Some(room) = rooms.pop() else {
                unreachable!()
            };
            let (realm, around) = room;
            answers.push_reserved(Ok(ForkReply::Thread(ticket.task())));
            let work = JobWork {
                alloc: self.alloc,
                job,
                realm,
                around,
            };
            works.push_back_reserved((ticket, work));
        }
    }
}

/// Takes the ticket of the next fork out of the list, if its task gets a thread.
fn next_thread(forked: &mut Vec<Forked>) -> Option<Ticket>
    ensures taken { MatchOption result (forked.new.items ≡ forked.old.items) (λ ticket. forked.old.items ≡ forked.new.items ++ Thread ticket ∷ []) }
    ensures len { MatchOption result (vec_len forked.new ≡ vec_len forked.old) (λ _. vec_len forked.new + 1 ≡ vec_len forked.old) }
    ensures capacity { vec_capacity forked.new ≡ vec_capacity forked.old }
{
    match forked.pop()? {
        Forked::Thread(ticket) => Some(ticket),
        never => {
            forked.push_reserved(never);
            None
        }
    }
}

/// Puts the works that were not started back into the lists, each of which has its first at its end.
fn take_apart<C: Catalog, N: RealmName, J: Answers + Drop>(
    mut works: VecDeque<(Ticket, JobWork<C, N, J>)>,
    jobs: &mut Vec<NamedJob<C, J>>,
    rooms: &mut Rooms<C, N>,
    forked: &mut Vec<Forked>,
)
    requires room { (vec_len jobs.old + length works.items ≤ vec_capacity jobs.old) × (vec_len rooms.old + length works.items ≤ vec_capacity rooms.old) × (vec_len forked.old + length works.items ≤ vec_capacity forked.old) }
    ensures jobs { reverse jobs.new.items ≡ map (λ (w : TicketValue × JobWork _ _ _). w.1.job) works.items ++ reverse jobs.old.items }
    ensures forked { reverse forked.new.items ≡ map (λ (w : TicketValue × JobWork _ _ _). Thread w.0) works.items ++ reverse forked.old.items }
    ensures rooms { vec_len rooms.new ≡ vec_len rooms.old + length works.items }
    ensures counts { vec_len forked.new ≡ vec_len forked.old + length works.items }
    ensures marked { (s : ℕ) (opened : List OpenScope) → All (λ (w : TicketValue × JobWork _ _ _). IsMarkOf s opened w.1.around) works.items → All (λ (room : Unit {0} × Option Seen). IsMarkOf s opened room.1) rooms.old.items → All (λ (room : Unit {0} × Option Seen). IsMarkOf s opened room.1) rooms.new.items }
{
    while let Some(next) = works.pop_back() {
        let (ticket, work) = next;
        let JobWork {
            alloc: _,
            job,
            realm,
            around,
        } = work;
        jobs.push_reserved(job);
        rooms.push_reserved((realm, around));
        forked.push_reserved(Forked::Thread(ticket));
    }
}
