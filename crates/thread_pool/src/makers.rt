use crate::executors::OsThreads;
use crate::handoffs::Handoff;
use crate::items::WorkItem;
use crate::locks::PoolLock;
use crate::spawning::{Ready, Work};
use crate::state::{Next, SharedHandoff};
use share_ledger::RealmName;
use slab::Slab;
use std::alloc::{AllocError, Global};
use std::sync::{Arc, Wait};
use std::thread;
use std::thread::{JoinHandle, Threads};

/// The runtime, if threads are started that use it too.
pub trait PoolRuntime: Threads + Wait + Copy + Send + Sync + 'static {}

impl<R: Threads + Wait + Copy + Send + Sync + 'static> PoolRuntime for R {}

/// The threads of a pool that are to be joined, by their numbers.
type Joins = Slab<JoinHandle<()>>;

/// What the maker of threads does: it makes one for each fork that wants one, until the pool is closed,
/// and then joins all. It alone has the threads' join handles, which can't be sent.
pub(crate) fn make_threads<N, W, R>(
    rt: &R,
    alloc: Global,
    lock: Arc<PoolLock<WorkItem<N, W>>, Global>,
)
where
    N: RealmName + Send + Sync + 'static,
    W: Ready + Work<N, OsThreads<N, W>> + Send + Drop + 'static,
    R: PoolRuntime,
{
    let mut joins = Slab::new(alloc);
    for _ in rt.forever() {
        if !lock.is_thread_wanted(rt) {
            break;
        }
        join_ended(rt, &lock, &mut joins);
        let made = make_thread(rt, alloc, &lock, &mut joins).ok();
        lock.tell(rt, made);
    }
    for (_, thread) in joins {
        thread.join(rt);
    }
}

/// Joins the threads that have ended.
fn join_ended<O: Drop, R: Threads + Wait>(rt: &R, lock: &PoolLock<O>, joins: &mut Joins) {
    for _ in rt.forever() {
        let Some(number) = lock.next_ended(rt) else {
            return;
        };
        if let Some(thread) = joins.try_remove(number) {
            thread.join(rt);
        }
    }
}

/// Makes a thread, and gives its handoff. Refused if memory or a thread is.
fn make_thread<N, W, R>(
    rt: &R,
    alloc: Global,
    lock: &Arc<PoolLock<WorkItem<N, W>>, Global>,
    joins: &mut Joins,
) -> Result<SharedHandoff<WorkItem<N, W>>, AllocError>
where
    N: RealmName + Send + Sync + 'static,
    W: Ready + Work<N, OsThreads<N, W>> + Send + Drop + 'static,
    R: PoolRuntime,
{
    joins.reserve(1)?;
    lock.reserve(rt, joins.len().saturating_add(1))?;
    let handoff = Arc::new(alloc, Handoff::new())?;
    let theirs = Arc::try_clone(&handoff)?;
    let own = Arc::try_clone(lock)?;
    let lent = Arc::try_clone(lock)?;
    let (runtime, number) = (*rt, joins.vacant_key());
    let thread = thread::spawn(rt, move || {
        serve(
            &runtime,
            &own,
            &theirs,
            number,
            OsThreads { alloc, lock: lent },
        )
    })?;
    joins.insert_reserved(thread);
    Ok(handoff)
}

/// What a thread of a pool does: it sleeps at its handoff until it is woken, finds an item there or in the
/// queue, runs its work, and puts the ticket into the item's way back; and so on with the items that are
/// left. It takes the next, or goes idle, before it puts the ticket there, so that who waits for the
/// ticket finds it at rest.
fn serve<N, W, R>(
    rt: &R,
    lock: &PoolLock<WorkItem<N, W>>,
    handoff: &SharedHandoff<WorkItem<N, W>>,
    number: usize,
    mut threads: OsThreads<N, W>,
)
where
    N: RealmName,
    W: Ready + Work<N, OsThreads<N, W>> + Drop,
    R: Wait,
{
    let mut item = find(rt, lock, handoff);
    for _ in rt.forever() {
        let next = match item {
            Some(item) => {
                let (owed, lent) = item.run(rt, threads);
                threads = lent;
                let next = lock.next(rt, handoff, number);
                owed.put(rt);
                next
            }
            None => lock.next(rt, handoff, number),
        };
        item = match next {
            Next::Run(item) => Some(item),
            Next::Rest => find(rt, lock, handoff),
            Next::End => return,
        };
    }
}

/// Sleeps at the handoff until it is woken, and finds an item: there, or in the queue.
fn find<O: Drop, R: Wait>(rt: &R, lock: &PoolLock<O>, handoff: &Handoff<O>) -> Option<O> {
    match handoff.wait(rt) {
        Some(item) => Some(item),
        None => lock.come(rt),
    }
}
