ghost use Rattle.std.specs.Prelude.{[], ◌≡◌, ◌≤◌, IsSome, false, length, take, true};
ghost use Rattle.realm_core.specs.{All, AreTicketsOf, BearsOut, IsBrought, IsFoundFrom, IsPermutation, MayPlace, MayPlaceOne, TicketValue, closed, is_ended_ticket_of, opening};

use crate::{RealmCore, RealmName};
use realm_state::RealmState;
use scope_checks::Readings;
use scope_rules::{Catalog, ScopeId, Stage, TaskId};
use share_ledger::Ticket;

/// Whether the tickets are those of a close of the scope, which is not closed: one of each task that got
/// a thread, of the scope and of those that its owner opened later and has not closed, and no other; and
/// each has ended. It brings them into the order of scopes and tasks, and takes no memory. If they
/// come in that order, it takes time by how many there are; else, for each that is later, by how many
/// are before it.
pub fn are_tickets_of(realm: &RealmState, scope: ScopeId, tickets: &mut Vec<Ticket>) -> bool
    requires opened { IsSome (opening realm.now.history scope) }
    requires unclosed { closed realm.now.history scope ≡ false }
    ensures same { IsPermutation tickets.old.items tickets.new.items }
    ensures yes { result ≡ true → AreTicketsOf realm.now.history scope tickets.old.items }
    ensures no { result ≡ false → AreTicketsOf realm.now.history scope tickets.old.items → ⊥ }
{
    let _legal = realm.limits();
    let mut placed = 0;
    let mut next = Some(scope);
    while let Some(here) = next {
        let Some(more) = place_all(realm, here, tickets, placed) else {
            return false;
        };
        placed = more;
        next = realm.inner(here);
    }
    placed == tickets.len()
}

/// Brings the tickets of the scope's tasks that got a thread to the place and those after it, in fork
/// order, and says which place follows; or none, if one of them isn't there, or hasn't ended.
fn place_all(
    realm: &RealmState,
    scope: ScopeId,
    tickets: &mut Vec<Ticket>,
    first: usize,
) -> Option<usize>
    requires opened { IsSome (opening realm.now.history scope) }
    requires within { first ≤ length tickets.old.items }
    ensures same { IsPermutation tickets.old.items tickets.new.items }
    ensures placed { MayPlace realm.now.history scope first tickets.old.items tickets.new.items result }
{
    let tasks = realm.tasks_of(scope);
    let mut place = first;
    for task in tasks {
        let Some(next) = place_one(realm, tickets, place, *task) else {
            return None;
        };
        place = next;
    }
    Some(place)
}

/// Brings the task's ticket to the place, if the task got a thread, and says which place follows; or
/// none, if it isn't there or later, or hasn't ended.
fn place_one(
    realm: &RealmState,
    tickets: &mut Vec<Ticket>,
    place: usize,
    task: TaskId,
) -> Option<usize>
    ensures same { IsPermutation tickets.old.items tickets.new.items }
    ensures before { take place tickets.new.items ≡ take place tickets.old.items }
    ensures placed { MayPlaceOne realm.now.history place task tickets.new.items result }
{
    match realm.stage(task) {
        Stage::Never => Some(place),
        _ => {
            if bring(tickets, place, task) {
                Some(place + 1)
            } else {
                None
            }
        }
    }
}

/// Brings the ticket of the task to the place, if one that has ended is there or later.
fn bring(tickets: &mut Vec<Ticket>, place: usize, task: TaskId) -> bool
    ensures same { IsPermutation tickets.old.items tickets.new.items }
    ensures before { take place tickets.new.items ≡ take place tickets.old.items }
    ensures brought { IsBrought tickets.new.items place task result }
{
    let Some(at) = find_from(tickets, place, task) else {
        return false;
    };
    tickets.swap(place, at);
    true
}

/// Where the first ticket of the task is that has ended, from the place on.
fn find_from(tickets: &[Ticket], place: usize, task: TaskId) -> Option<usize>
    ensures { IsFoundFrom tickets.now place task result }
{
    for at in place..tickets.len() {
        if is_ended_ticket_of(&tickets[at], task) {
            return Some(at);
        }
    }
    None
}

/// Whether the ticket is the task's, and has ended.
fn is_ended_ticket_of(ticket: &Ticket, task: TaskId) -> bool
    ensures { result ≡ is_ended_ticket_of task ticket.now }
{
    ticket.task() == task && ticket.end().is_some()
}

/// Takes the tickets back. What each has seen of its task is what the core's list says of it.
pub fn take_back<C: Catalog, N: RealmName>(core: &mut RealmCore<C, N>, tickets: &mut Vec<Ticket>)
    requires named { All (λ (t : TicketValue). t.table ≡ N.table) tickets.old.items }
    ensures core { core.new ≡ core.old }
    ensures tickets { tickets.new.items ≡ [] }
    ensures agreed { All (BearsOut core.old.steps) tickets.old.items }
{
    while let Some(mut ticket) = tickets.pop() {
        let _granted = ticket.label();
        core.look_with_ticket(&mut ticket);
    }
}
