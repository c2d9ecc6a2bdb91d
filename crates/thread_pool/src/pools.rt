use crate::executors::OsThreads;
use crate::items::WorkItem;
use crate::locks::PoolLock;
use crate::makers::{PoolRuntime, make_threads};
use crate::spawning::{Ready, Work};
use share_ledger::RealmName;
use std::alloc::{AllocError, Global};
use std::sync::{Arc, Wait};
use std::thread;
use std::thread::{JoinHandle, Threads};

/// A thread pool for works of type `W` in the realm that is named `N`. It
/// grows to as many threads as there were works at once, and `keep` of them rest if there is no work.
/// A pool can't be dropped: its owner closes it, else the program is refused.
pub struct ThreadPool<N: RealmName, W: Ready + Work<N, OsThreads<N, W>>> {
    alloc: Global,
    lock: Arc<PoolLock<WorkItem<N, W>>, Global>,
    maker: JoinHandle<()>,
}

impl<N: RealmName, W: Ready + Work<N, OsThreads<N, W>>> ThreadPool<N, W> {
    /// A thread pool with one thread, which makes the others. So many of its threads may rest;
    /// if none may, each work has a thread of its own. Refused if memory or that thread is. No clause says
    /// more of a pool: its threads and works lie under its lock, where no contract sees them; tests count them.
    pub fn open<R: PoolRuntime>(
        rt: &R,
        alloc: Global,
        keep: usize,
    ) -> Result<ThreadPool<N, W>, AllocError>
    where
        N: Send + Sync + 'static,
        W: Send + Drop + 'static,
    {
        let lock = Arc::new(alloc, PoolLock::new(alloc, keep))?;
        let theirs = Arc::try_clone(&lock)?;
        let runtime = *rt;
        let maker = thread::spawn(rt, move || make_threads(&runtime, alloc, theirs))?;
        Ok(ThreadPool { alloc, lock, maker })
    }

    /// The pool's threads, as an executor. Refused only if std's count of holders is full. No clause says whose
    /// threads they are: they are distinguished by what lies under the pool's lock; tests count them.
    pub fn threads(&self) -> Result<OsThreads<N, W>, AllocError> {
        let lock = Arc::try_clone(&self.lock)?;
        Ok(OsThreads {
            alloc: self.alloc,
            lock,
        })
    }

    /// Closes the pool: from now on each fork is refused. Waits until the works that run have ended, and
    /// joins all threads. No clause says so, since it speaks of other calls and of threads; tests count them.
    pub fn close<R: Threads + Wait>(self, rt: &R)
    where
        W: Drop,
    {
        let ThreadPool {
            alloc: _,
            lock,
            maker,
        } = self;
        lock.close(rt);
        maker.join(rt);
    }
}
