//! The threads that one owner makes, and the tickets of those that it joined.

ghost use Rattle.std.specs.Prelude.{[], ℕ, ◌++◌, ◌<◌, ◌≡◌, ◌≤◌, IfSome, MatchOption, OnOk, length, map, nat_lt, slice_index_or, vec_len};
ghost use Rattle.thread_pool.specs.{All, ArePartedAt, HasRoom, HasThreadMore, HasThreadsMore, IsPermutation, IsSameTeam, Joins, Teams.HasRoomFor, TicketValue, filter};

use crate::spawning::Spawner;
use scope_rules::types::values::ScopeId;
use share_ledger::{OfRealm, RealmName, Ticket};
use std::alloc::{AllocError, Global};
use std::collections::VecDeque;
use std::marker::Model;
use std::sync::Wait;

/// A thread that was made, until it is joined. Its value is the ticket that its work was given.
#[derive(Drop)]
struct Thread<N: RealmName, S: Spawner<N>> {
    scope: ScopeId,
    handle: S::Handle,
}

impl<N: RealmName, S: Spawner<N>> Model for Thread<N, S> {
    ghost use Rattle.std.specs.Prelude.{◌≡◌};
    ghost use Rattle.share_ledger.specs.Values.{TicketValue};

    ghost Value = { TicketValue };

    ghost view = { λ t. S.first_of t.handle };

    ghost invariant = { λ t. (S.first_of t.handle).scope ≡ t.scope };
}

/// The threads that an owner made and did not join yet, and the tickets of those that it joined, until it
/// forgets them. There is always room for the ticket of each thread, so no join takes memory.
#[derive(Drop)]
pub struct Team<N: RealmName, S: Spawner<N>> {
    running: Vec<Thread<N, S>>,
    returned: Vec<OfRealm<N, Ticket>>,
}

impl<N: RealmName, S: Spawner<N>> Model for Team<N, S> {
    ghost use Rattle.std.specs.Prelude.{◌-◌, ◌+◌, ◌≤◌, vec_len, vec_capacity};
    ghost use Rattle.thread_pool.specs.Teams.{TeamValue};

    ghost Value = { TeamValue };

    ghost view = { λ t. record { running = t.running.items; returned = t.returned.items; handles = vec_capacity t.running - vec_len t.running; tickets = vec_capacity t.returned - (vec_len t.running + vec_len t.returned) } };

    ghost invariant = { λ t. vec_len t.running + vec_len t.returned ≤ vec_capacity t.returned };
}

impl<N: RealmName, S: Spawner<N>> Team<N, S> {
    /// No threads, and no tickets.
    pub fn new(alloc: Global) -> Team<N, S>
        ensures { (result.running ≡ []) × (result.returned ≡ []) }
    {
        Team {
            running: Vec::new(alloc),
            returned: Vec::new(alloc),
        }
    }

    /// Makes room for a thread more, and for its return. Refused if memory is.
    pub fn reserve(&mut self) -> Result<(), AllocError>
        ensures same { IsSameTeam self.old self.new }
        ensures room { OnOk result (HasRoom self.new) }
    {
        self.running.reserve(1)?;
        let returns = self.running.len().saturating_add(1);
        self.returned.reserve(returns)
    }

    /// Adds a thread of the scope, for which there is room.
    pub fn add(&mut self, scope: ScopeId, handle: S::Handle)
        requires room { HasRoom self.old }
        requires of { (S.first_of handle).scope ≡ scope }
        ensures { HasThreadMore (S.first_of handle) self.old self.new }
    {
        self.running.push_reserved(Thread { scope, handle });
    }

    /// Makes room for so many threads more, and for their returns. Refused if memory is.
    pub fn reserve_for(&mut self, threads: usize) -> Result<(), AllocError>
        ensures same { IsSameTeam self.old self.new }
        ensures room { OnOk result (HasRoomFor threads self.new) }
    {
        self.running.reserve(threads)?;
        let returns = self.running.len().saturating_add(threads);
        self.returned.reserve(returns)
    }

    /// Adds threads of the scope, for which there is room, in their order.
    pub fn add_all(&mut self, scope: ScopeId, handles: Vec<S::Handle>)
        requires room { HasRoomFor (vec_len handles) self.old }
        requires of { All (λ (t : TicketValue). t.scope ≡ scope) (map S.first_of handles.items) }
        ensures { HasThreadsMore (map S.first_of handles.items) self.old self.new }
    {
        let mut handles = VecDeque::from_vec(handles);
        while let Some(handle) = handles.pop_front() {
            self.running.push_reserved(Thread { scope, handle });
        }
    }

    /// Joins the threads of the scope, and of what was opened later, the latest first. It takes no memory.
    pub fn join_from<R: Wait>(&mut self, rt: &R, spawner: &mut S, scope: ScopeId)
        ensures { Joins N.table scope self.old self.new }
    {
        let mut below = self.running.len();
        while let Some(place) = last_from(self.running.as_slice(), scope, below) {
            below = place;
            let Thread { scope: _, handle } = self.running.swap_remove(place);
            let ticket = OfRealm::new(spawner.join(rt, handle));
            self.returned.push_reserved(ticket);
        }
    }

    /// Forgets the tickets of the scope, and of what was opened later.
    pub fn forget(&mut self, scope: ScopeId)
        ensures running { self.new.running ≡ self.old.running }
        ensures returned { self.new.returned ≡ filter (λ (t : TicketValue). nat_lt t.scope scope) self.old.returned }
    {
        self.returned.retain(|ticket| ticket.held.scope() < scope);
    }

    /// Takes the tickets of the scope, and of what was opened later. None if there is no room to list
    /// them.
    pub fn take_from(&mut self, alloc: Global, scope: ScopeId) -> Option<Vec<Ticket>>
        ensures running { self.new.running ≡ self.old.running }
        ensures parted { MatchOption result (self.new ≡ self.old) (λ tickets. ArePartedAt scope self.old.returned tickets.items self.new.returned) }
        ensures named { IfSome result (λ tickets. All (λ (t : TicketValue). t.table ≡ N.table) tickets.items) }
        ensures room { IfSome result (λ tickets. length tickets.items ≤ self.new.tickets) }
    {
        let mut tickets = Vec::new(alloc);
        tickets.reserve(self.returned.len()).ok()?;
        let mut below = self.returned.len();
        while let Some(place) = last_returned(self.returned.as_slice(), scope, below) {
            below = place;
            tickets.push_reserved(self.returned.swap_remove(place).into_held());
        }
        Some(tickets)
    }

    /// Puts such tickets back, for which there is room.
    pub fn put_back(&mut self, tickets: Vec<Ticket>)
        requires named { All (λ (t : TicketValue). t.table ≡ N.table) tickets.items }
        requires room { length tickets.items ≤ self.old.tickets }
        ensures running { self.new.running ≡ self.old.running }
        ensures returned { IsPermutation (self.old.returned ++ tickets.items) self.new.returned }
    {
        let mut tickets = tickets;
        while let Some(ticket) = tickets.pop() {
            self.returned.push_reserved(OfRealm::new(ticket));
        }
    }
}

/// The place of the last thread of the scope, or of one that was opened later, if from `below` on there
/// is none.
fn last_from<N: RealmName, S: Spawner<N>>(
    running: &[Thread<N, S>],
    scope: ScopeId,
    below: usize,
) -> Option<usize>
    requires within { below ≤ length running.now }
    requires none { (k : ℕ) (d : TicketValue) → below ≤ k → k < length running.now → (slice_index_or running.now k d).scope < scope }
    ensures found { MatchOption result (All (λ (t : TicketValue). t.scope < scope) running.now) (λ place. (place < below) × ((d : TicketValue) → scope ≤ (slice_index_or running.now place d).scope)) }
    ensures last { IfSome result (λ place. (k : ℕ) (d : TicketValue) → place < k → k < length running.now → (slice_index_or running.now k d).scope < scope) }
{
    for place in (0..below).rev() {
        let thread = &running[place];
        if thread.scope >= scope {
            return Some(place);
        }
    }
    None
}

/// The place of the last ticket of the scope, or of one that was opened later, if from `below` on there
/// is none.
fn last_returned<N: RealmName>(
    returned: &[OfRealm<N, Ticket>],
    scope: ScopeId,
    below: usize,
) -> Option<usize>
    requires within { below ≤ length returned.now }
    requires none { (k : ℕ) (d : TicketValue) → below ≤ k → k < length returned.now → (slice_index_or returned.now k d).scope < scope }
    ensures found { MatchOption result (All (λ (t : TicketValue). t.scope < scope) returned.now) (λ place. (place < below) × ((d : TicketValue) → scope ≤ (slice_index_or returned.now place d).scope)) }
    ensures last { IfSome result (λ place. (k : ℕ) (d : TicketValue) → place < k → k < length returned.now → (slice_index_or returned.now k d).scope < scope) }
{
    for place in (0..below).rev() {
        let ticket = &returned[place];
        if ticket.held.scope() >= scope {
            return Some(place);
        }
    }
    None
}
