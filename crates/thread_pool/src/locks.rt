ghost use Rattle.std.specs.Prelude.{◌++◌, ◌≡◌, IfErr, List};

use crate::handoffs::pause;
use crate::state::{Answer, Called, Next, PoolState, SharedHandoff, SubmitError, Wish};
use std::alloc::{AllocError, Global};
use std::collections::VecDeque;
use std::sync::{Arc, Condvar, Mutex, Wait};
use std::thread::Parker;

/// The lock of a pool, which all its threads share: its state under a lock, what the maker of threads
/// sleeps on, and what those forks sleep on that wait for a thread.
#[derive(Drop)]
pub(crate) struct PoolLock<O> {
    state: Mutex<PoolState<O>>,
    maker: Parker,
    answered: Condvar,
}

impl<O: Drop> PoolLock<O> {
    /// The lock of a pool with no thread, of which so many may rest.
    pub(crate) fn new(alloc: Global, keep: usize) -> PoolLock<O> {
        PoolLock {
            state: Mutex::new(PoolState::new(alloc, keep)),
            maker: Parker::new(),
            answered: Condvar::new(),
        }
    }

    /// Gives the item to a thread of the pool: to one that rests, or to one that is made now. It is handed
    /// back if the pool is closed, and if memory or a thread is refused.
    pub(crate) fn give<R: Wait>(&self, rt: &R, item: O) -> Result<(), O>
        ensures { IfErr result (λ back. back ≡ item) }
    {
        let taken = self.state.lock(rt).take_or_ask(item);
        match taken {
            Ok(called) => {
                wake(called);
                Ok(())
            }
            Err((SubmitError::Pool, item)) => Err(item),
            Err((SubmitError::Thread, item)) => {
                self.maker.unpark();
                match self.wait_for_answer(rt) {
                    Answer::Made(handoff) => {
                        handoff.put(rt, item);
                        Ok(())
                    }
                    Answer::Unmade => self.give_once_more(rt, item),
                }
            }
        }
    }

    /// Gives the first of the items, as many as there are threads for, to threads that rest, in one hold of the
    /// lock. The others are left: it makes no thread, and takes none if the pool is closed or memory is refused.
    pub(crate) fn give_all<R: Wait>(&self, rt: &R, items: &mut VecDeque<O>)
        ensures { (taken : List O) × (items.old.items ≡ taken ++ items.new.items) }
    {
        let called = self.state.lock(rt).take_all(items);
        wake(called);
    }

    /// For how many items more there are threads at this moment.
    pub(crate) fn threads_more<R: Wait>(&self, rt: &R) -> usize {
        self.state.lock(rt).threads_more()
    }

    /// Gives the item for which no thread could be made, to one that went idle meanwhile.
    fn give_once_more<R: Wait>(&self, rt: &R, item: O) -> Result<(), O>
        ensures { IfErr result (λ back. back ≡ item) }
    {
        let taken = self.state.lock(rt).take(item);
        match taken {
            Ok(called) => {
                wake(called);
                Ok(())
            }
            Err((_, item)) => Err(item),
        }
    }

    fn wait_for_answer<R: Wait>(&self, rt: &R) -> Answer<O> {
        let mut state = self.state.lock(rt);
        for _ in rt.forever() {
            match state.answer() {
                Some(answer) => return answer,
                None => state = self.answered.wait(rt, state),
            }
        }
        unreachable!()
    }

    /// A thread that was woken comes: the item that it is to run, if one is left. Who is to be woken for
    /// the others is woken before it is run. As long as the threads at work take the items quickly, it spins.
    pub(crate) fn come<R: Wait>(&self, rt: &R) -> Option<O> {
        for _ in rt.forever() {
            let came = self.state.lock(rt).come();
            match came {
                Some((item, called)) => {
                    wake(called);
                    return item;
                }
                None => pause(),
            }
        }
        unreachable!()
    }

    /// What a thread does next that has done its work: an item that is left, or it goes idle at its
    /// handoff, or it is to end.
    pub(crate) fn next<R: Wait>(
        &self,
        rt: &R,
        handoff: &SharedHandoff<O>,
        number: usize,
    ) -> Next<O> {
        self.state
            .lock(rt)
            .next(Arc::try_clone(handoff).ok(), number)
    }

    /// Waits until a fork wants a thread, and answers true; or until the pool is closed, and answers
    /// false.
    pub(crate) fn is_thread_wanted<R: Wait>(&self, rt: &R) -> bool {
        for _ in rt.forever() {
            let wish = self.state.lock(rt).wish();
            match wish {
                Wish::Thread => return true,
                Wish::End => return false,
                Wish::Nothing => self.maker.park(rt),
            }
        }
        unreachable!()
    }

    /// The number of a thread that ended and is to be joined.
    pub(crate) fn next_ended<R: Wait>(&self, rt: &R) -> Option<usize> {
        self.state.lock(rt).next_ended()
    }

    /// Makes room for the lists of a pool of so many threads.
    pub(crate) fn reserve<R: Wait>(&self, rt: &R, threads: usize) -> Result<(), AllocError> {
        self.state.lock(rt).reserve(threads)
    }

    /// Tells a fork of the thread that was made, or that none could be.
    pub(crate) fn tell<R: Wait>(&self, rt: &R, made: Option<SharedHandoff<O>>) {
        self.state.lock(rt).tell(made);
        self.answered.notify_one();
    }

    /// From now on no thread is found. Those that rest are sent home; the others end once they have
    /// done their work.
    pub(crate) fn close<R: Wait>(&self, rt: &R) {
        self.state.lock(rt).close();
        self.maker.unpark();
    }
}

/// Wakes the thread that was called, if one was.
fn wake<O: Drop>(called: Option<Called<O>>) {
    match called {
        Some(called) => called.wake(),
        None => {}
    }
}
