ghost use Rattle.std.specs.Prelude.{[], ◌≡◌, ◌≤◌, MatchResult, vec_capacity};
ghost use Rattle.thread_pool.specs.{All, Returns.Returns, SpawnsFirst, deque_len};

use share_ledger::{RealmName, Ticket};
use std::collections::VecDeque;
use std::sync::Wait;

/// Which tickets a work may be given.
pub trait Ready {
    ghost use Rattle.share_ledger.specs.Values.{TicketValue};

    /// The work may be given the ticket.
    ghost ready_for: { Self → TicketValue → Type 0 };

    /// That it may is a fact: there is at most one proof of it.
    ghost is_fact: { (work : Self) (ticket : TicketValue) → IsProp (ready_for work ticket) };
}

/// What a thread does with a ticket: it starts the task, does its job, and ends it. A work of a realm
/// that is named `N`, which forks its own works by a spawner of type `S`.
pub trait Work<N: RealmName, S>: Ready {
    /// Runs the work, and gives back the ticket, whose task has ended then, and the spawner, which it
    /// was lent for its own forks.
    fn run<R: Wait>(self, rt: &R, spawner: S, ticket: Ticket) -> (Ticket, S)
        requires { Self.ready_for self ticket }
        ensures { Returns N.table ticket result.0 };
}

/// An executor: it has works run, in a realm that is named `N`, and waits for their ends.
pub trait Spawner<N: RealmName> {
    ghost use Rattle.share_ledger.specs.Values.{TicketValue};

    /// The handle of a work until it is joined.
    type Handle: Drop;

    /// The ticket that the work of this handle was given.
    ghost first_of: { Self.Handle → TicketValue };

    /// Waits until the work has ended, and gives its ticket, whose task has ended.
    fn join<R: Wait>(&mut self, rt: &R, handle: Self::Handle) -> Ticket
        ensures { Returns N.table (first_of handle) result };
}

/// An executor of works of type `W`.
pub trait Spawns<N: RealmName, W: Ready>: Spawner<N> {
    /// Has the work run with this ticket. If it is refused, ticket and work are handed back, and
    /// nothing has come of it.
    fn spawn<R: Wait>(
        &mut self,
        rt: &R,
        ticket: Ticket,
        work: W,
    ) -> Result<Self::Handle, (Ticket, W)>
        requires { W.ready_for work ticket }
        ensures { MatchResult result (λ handle. Self.first_of handle ≡ ticket) (λ refused. (refused.0 ≡ ticket) × (refused.1 ≡ work)) };

    /// Has the first of the works run, each with its ticket, as many as the executor takes in one go, and gives
    /// their handles in their order. The others are left in their order, and nothing has come of them: each may
    /// be spawned by itself. An executor takes none in one go unless it says otherwise.
    fn spawn_all<R: Wait>(
        &mut self,
        rt: &R,
        works: &mut VecDeque<(Ticket, W)>,
        handles: &mut Vec<Self::Handle>,
    )
        requires ready { All (λ w. W.ready_for w.1 w.0) works.old.items }
        requires none { handles.old.items ≡ [] }
        requires room { deque_len works.old ≤ vec_capacity handles.old }
        ensures { SpawnsFirst Self.first_of works.old.items works.new.items handles.new.items }
    {}
}
