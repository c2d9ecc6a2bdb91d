ghost use Rattle.std.specs.Prelude.{◌↔◌, ◌≡◌, IsTrue, MatchResult};
ghost use Rattle.thread_pool.specs.Returns.{Returns};

use crate::batches::{hand_back, make_items};
use crate::handoffs::Handoff;
use crate::items::{Finished, WayBack, WorkItem};
use crate::locks::PoolLock;
use crate::spawning::{Ready, Spawner, Spawns};
use scope_rules::{Label, ScopeId, TaskId};
use share_ledger::{RealmName, Ticket};
use std::alloc::Global;
use std::collections::VecDeque;
use std::snapshot::Snapshot;
use std::sync::{Arc, Wait};

/// The threads of a pool, as an executor of its works. A work never waits for another to end: a thread that
/// rests takes it, or one that is made for it.
#[derive(Drop)]
pub struct OsThreads<N: RealmName, W: Ready> {
    pub(crate) alloc: Global,
    pub(crate) lock: Arc<PoolLock<WorkItem<N, W>>, Global>,
}

/// What is kept of a work that a thread of a pool runs: by which way its ticket comes back, and which
/// ticket it is.
#[derive(Drop)]
pub struct PoolHandle<N: RealmName> {
    way_back: WayBack<N>,
    task: TaskId,
    scope: ScopeId,
    label: Label,
    first: Snapshot<Ticket>,
    ghost of_task: { task ≡ first.value.task },
    ghost of_scope: { scope ≡ first.value.scope },
    ghost of_label: { label ≡ first.value.label },
}

impl<N: RealmName> PoolHandle<N> {
    /// The handle of the work that is given the ticket.
    pub(crate) fn new(ticket: &Ticket, way_back: WayBack<N>) -> PoolHandle<N>
        ensures { result.first.value ≡ ticket.now }
    {
        PoolHandle {
            way_back,
            task: ticket.task(),
            scope: ticket.scope(),
            label: ticket.label(),
            first: Snapshot::of(ticket),
        }
    }

    /// Whether the ticket is of the task whose ticket the work was given.
    fn is_of(&self, ticket: &Ticket) -> bool
        ensures { IsTrue result → (ticket.now.task ≡ self.now.first.value.task) × (ticket.now.scope ≡ self.now.first.value.scope) × (ticket.now.label ≡ self.now.first.value.label) }
    {
        ticket.task() == self.task
            && ticket.scope() == self.scope
            && is_same_label(&ticket.label(), &self.label)
    }

    /// Waits until the work has ended, and gives its ticket. The tickets that come are compared, and
    /// one of another task would be dropped, which never happens.
    pub(crate) fn wait<R: Wait>(self, rt: &R) -> Ticket
        ensures { Returns N.table self.first.value result }
    {
        for _ in rt.forever() {
            if let Some(Finished { ticket, .. }) = self.way_back.take(rt)
                && self.is_of(&ticket.held)
            {
                return ticket.into_held();
            }
        }
        unreachable!()
    }
}

/// Whether the two labels are one.
fn is_same_label(left: &Label, right: &Label) -> bool
    ensures { IsTrue result ↔ (left.now ≡ right.now) }
{
    left.name.is_same(&right.name)
        && match &right.due {
            Some(end) => left.expects(end),
            None => left.due.is_none(),
        }
}

impl<N: RealmName, W: Ready> Spawner<N> for OsThreads<N, W> {
    type Handle = PoolHandle<N>;

    ghost first_of = { λ handle. handle.first.value };

    fn join<R: Wait>(&mut self, rt: &R, handle: PoolHandle<N>) -> Ticket {
        handle.wait(rt)
    }
}

impl<N: RealmName, W: Ready + Drop> Spawns<N, W> for OsThreads<N, W> {
    /// A thread that rests, or one that is made now, runs the work. It is refused if the pool is
    /// closed, and if memory or a thread is refused.
    fn spawn<R: Wait>(
        &mut self,
        rt: &R,
        ticket: Ticket,
        work: W,
    ) -> Result<PoolHandle<N>, (Ticket, W)> {
        let Some((way_back, way)) = two_ends(self.alloc) else {
            return Err((ticket, work));
        };
        let handle = PoolHandle::new(&ticket, way_back);
        match self.lock.give(rt, WorkItem::new(work, ticket, way)) {
            Ok(()) => Ok(handle),
            Err(item) => Err(item.into_parts()),
        }
    }

    /// Threads that rest run the works, as many as there are: these works come into the queue in one hold of the
    /// pool's lock. It makes no thread.
    fn spawn_all<R: Wait>(
        &mut self,
        rt: &R,
        works: &mut VecDeque<(Ticket, W)>,
        handles: &mut Vec<PoolHandle<N>>,
    ) {
        let count = works.len().min(self.lock.threads_more(rt));
        let Ok(mut items) = VecDeque::with_capacity(self.alloc, count) else {
            return;
        };
        make_items(self.alloc, count, works, handles, &mut items);
        self.lock.give_all(rt, &mut items);
        hand_back(items, works, handles);
    }
}

/// A way back, for who waits and for who runs the work.
pub(crate) fn two_ends<N: RealmName>(alloc: Global) -> Option<(WayBack<N>, WayBack<N>)> {
    let one = Arc::new(alloc, Handoff::new()).ok()?;
    let other = Arc::try_clone(&one).ok()?;
    Some((one, other))
}
