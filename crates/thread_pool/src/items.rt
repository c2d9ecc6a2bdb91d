ghost use Rattle.std.specs.Prelude.{◌≡◌, true};
ghost use Rattle.thread_pool.specs.Words.{finished_in};
ghost use Rattle.thread_pool.specs.Returns.{Returns};

use crate::handoffs::Handoff;
use crate::spawning::{Ready, Work};
use share_ledger::{OfRealm, RealmName, Ticket};
use std::alloc::Global;
use std::sync::{Arc, Wait};

/// The ticket of a task that has ended, in the realm that is named `N`.
#[derive(Drop)]
pub(crate) struct Finished<N: RealmName> {
    pub(crate) ticket: OfRealm<N, Ticket>,
    ghost ended: { finished_in ticket.task ticket.seen ≡ true },
}

impl<N: RealmName> Finished<N> {
    /// The ticket, which has ended.
    pub(crate) fn new(ticket: Ticket) -> Finished<N>
        requires ended { finished_in ticket.task ticket.seen ≡ true }
        requires named { ticket.table ≡ N.table }
        ensures { result.ticket ≡ ticket }
    {
        Finished {
            ticket: OfRealm::new(ticket),
        }
    }
}

/// The handoff by which a ticket comes back.
pub(crate) type WayBack<N> = Arc<Handoff<Finished<N>>, Global>;

/// A ticket that its joiner waits for, and the way on which it goes back. It can't be dropped: who has it puts
/// it there.
pub(crate) struct OwedTicket<N: RealmName> {
    finished: Finished<N>,
    way_back: WayBack<N>,
}

impl<N: RealmName> OwedTicket<N> {
    /// Puts the ticket where the join of its handle finds it.
    pub(crate) fn put<R: Wait>(self, rt: &R) {
        let OwedTicket { finished, way_back } = self;
        way_back.put(rt, finished);
    }
}

/// What a thread of a pool is given: a work, its ticket, and where the ticket is put once the work has
/// ended. Who has it runs it, or the join of its handle waits for ever.
#[derive(Drop)]
pub(crate) struct WorkItem<N: RealmName, W: Ready> {
    work: W,
    ticket: Ticket,
    way_back: WayBack<N>,
    ghost ready: { W.ready_for work ticket } by { W.is_fact work ticket },
}

impl<N: RealmName, W: Ready> WorkItem<N, W> {
    /// The item for a work that may be given the ticket.
    pub(crate) fn new(work: W, ticket: Ticket, way_back: WayBack<N>) -> WorkItem<N, W>
        requires { W.ready_for work ticket }
        ensures { (result.work ≡ work) × (result.ticket ≡ ticket) }
    {
        WorkItem {
            work,
            ticket,
            way_back,
        }
    }

    /// The ticket and the work of an item that nobody took.
    pub(crate) fn into_parts(self) -> (Ticket, W)
        ensures { (result.0 ≡ self.ticket) × (result.1 ≡ self.work) }
    {
        let WorkItem {
            work,
            ticket,
            way_back: _,
        } = self;
        (ticket, work)
    }

    /// Runs the work, which is lent the spawner, and gives the ticket, with its way back, and the spawner.
    pub(crate) fn run<S, R: Wait>(self, rt: &R, spawner: S) -> (OwedTicket<N>, S)
    where
        W: Work<N, S>,
    {
        let WorkItem {
            work,
            ticket,
            way_back,
        } = self;
        let (ticket, spawner) = work.run(rt, spawner, ticket);
        let finished = Finished::new(ticket);
        (OwedTicket { finished, way_back }, spawner)
    }
}
