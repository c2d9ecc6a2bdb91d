//! The state of a pool, as data: what each call makes of it.
ghost use Rattle.std.specs.Prelude.{[], ◌++◌, ◌+◌, ◌-◌, ◌<◌, ◌||◌, ◌≡◌, ◌≤◌, MatchOption, MatchResult, OnOk, drop, false, is_some, length, option_to_list, take, true, vec_len};
ghost use Rattle.thread_pool.specs.{Comes, Goes, IsRefused, IsTold, PoolState.HasRoomFor, Takes, TakesFirst, Tells, Wishes, asked, deque_capacity, deque_len, fitting, is_calling, nobody, takers};

use crate::handoffs::Handoff;
use crate::pace::Pace;
use std::alloc::{AllocError, Global};
use std::collections::VecDeque;
use std::marker::Model;
use std::sync::Arc;

/// The handoff of a thread, at which it sleeps, and in which it finds its first item.
pub(crate) type SharedHandoff<O> = Arc<Handoff<O>, Global>;

/// A thread that was called from its rest, and sleeps on until it is woken. It can't be dropped: who has it
/// wakes it.
pub(crate) struct Called<O> {
    handoff: SharedHandoff<O>,
}

impl<O: Drop> Called<O> {
    /// Wakes the thread.
    pub(crate) fn wake(self) {
        let Called { handoff } = self;
        handoff.ring();
    }
}

/// Why an item is not taken.
#[derive(Clone, Copy)]
pub(crate) enum SubmitError {
    /// No thread rests for it: one may be asked for.
    Thread,
    /// The pool is closed, or memory is refused.
    Pool,
}

/// What a fork is told that asked for a thread.
pub(crate) enum Answer<O> {
    /// A thread was made, of this handoff.
    Made(SharedHandoff<O>),
    /// None could be made.
    Unmade,
}

/// What a thread is to do that has done its work.
pub(crate) enum Next<O> {
    /// To run this item.
    Run(O),
    /// To rest at its handoff.
    Rest,
    /// To end.
    End,
}

/// What the maker of threads is to do.
pub(crate) enum Wish {
    /// To make a thread, for a fork that waits for it.
    Thread,
    /// To sleep until it is woken.
    Nothing,
    /// To join all threads: the pool is closed, and no fork waits.
    End,
}

/// Who is in a pool, who is wanted, and which items nobody has taken yet. It lies under the pool's lock.
///
/// Until the pool is closed there are never more such items than threads that rest or were called and have
/// taken none. And if there is one, a thread is on the way: who was called takes an item and calls the
/// next for those that are left, before it runs its own, at the latest once the others took none for the time between
/// two looks. So no item waits for another to end.
#[derive(Drop)]
pub(crate) struct PoolState<O> {
    /// How many threads may rest.
    keep: usize,
    /// The handoffs of the threads that rest, the last to rest last: it is the one most likely awake.
    resting: Vec<SharedHandoff<O>>,
    /// The items that nobody has taken, the oldest first.
    queue: VecDeque<O>,
    /// Whether a thread was called that has not come yet.
    called: bool,
    pace: Pace,
    /// How many forks wait for a thread whose making was not begun yet.
    wanted: u64,
    /// The handoffs of threads that were made for forks, one for each.
    made: Vec<SharedHandoff<O>>,
    /// How many forks are to be told that no thread could be made.
    unmade: u64,
    /// The numbers of the threads that ended and are to be joined.
    ended: Vec<usize>,
    closed: bool,
}

impl<O> Model for PoolState<O> {
    ghost use Rattle.std.specs.Prelude.{◌-◌, vec_len, vec_capacity};
    ghost use Rattle.std.specs.VecDeque.{deque_len, deque_capacity};
    ghost use Rattle.thread_pool.specs.PoolState.{PoolStateValue, IsConsistent, books, room};

    ghost Value = { PoolStateValue O };

    ghost view = { λ s. record { books = books s.keep (vec_len s.resting) s.queue.items s.called s.wanted (vec_len s.made) s.unmade s.ended.items s.closed; room = room (vec_capacity s.resting - vec_len s.resting) (deque_capacity s.queue - deque_len s.queue) (vec_capacity s.made - vec_len s.made) (vec_capacity s.ended - vec_len s.ended) } };

    ghost invariant = { λ s. IsConsistent (books s.keep (vec_len s.resting) s.queue.items s.called s.wanted (vec_len s.made) s.unmade s.ended.items s.closed) };
}

/// What a fork does with the state.
impl<O: Drop> PoolState<O> {
    /// Nobody, of whom so many may rest.
    pub(crate) fn new(alloc: Global, keep: usize) -> PoolState<O>
        ensures { result.books ≡ nobody keep }
    {
        PoolState {
            keep,
            resting: Vec::new(alloc),
            queue: VecDeque::new(alloc),
            called: false,
            pace: Pace::new(),
            wanted: 0,
            made: Vec::new(alloc),
            unmade: 0,
            ended: Vec::new(alloc),
            closed: false,
        }
    }

    /// Takes the item of a fork into the queue, if there is a thread for it, and says who is to be woken;
    /// else it hands the item back.
    pub(crate) fn take(&mut self, item: O) -> Result<Option<Called<O>>, (SubmitError, O)>
        ensures { MatchResult result (λ called. Takes item called self.old.books self.new.books) (λ back. (back.1 ≡ item) × IsRefused back.0 self.old × (self.new.books ≡ self.old.books)) }
    {
        if self.closed {
            return Err((SubmitError::Pool, item));
        }
        if self.threads_more() == 0 {
            return Err((SubmitError::Thread, item));
        }
        match self.queue.push_back(item) {
            Ok(()) => Ok(call(&mut self.resting, &self.queue, &mut self.called)),
            Err(refused) => Err((SubmitError::Pool, refused.value)),
        }
    }

    /// The same, and if it is for want of a thread that the item is handed back, one is asked for.
    pub(crate) fn take_or_ask(&mut self, item: O) -> Result<Option<Called<O>>, (SubmitError, O)>
        ensures { MatchResult result (λ called. Takes item called self.old.books self.new.books) (λ back. (back.1 ≡ item) × IsRefused back.0 self.old × (self.new.books ≡ asked back.0 self.old.books)) }
    {
        let taken = self.take(item);
        if let Err((SubmitError::Thread, _)) = taken {
            self.wanted = self.wanted.saturating_add(1);
        }
        taken
    }

    /// Takes the first of the items into the queue, as many as there are threads for, and says who is to be
    /// woken; the others are left. It takes none if the pool is closed, or memory is refused.
    pub(crate) fn take_all(&mut self, items: &mut VecDeque<O>) -> Option<Called<O>>
        ensures { TakesFirst items.old.items items.new.items result self.old self.new.books }
    {
        let count = self.fitting(items.len());
        move_first(items, &mut self.queue, count);
        call(&mut self.resting, &self.queue, &mut self.called)
    }

    /// How many of so many items there are threads and room for.
    fn fitting(&mut self, items: usize) -> usize
        ensures same { self.new.books ≡ self.old.books }
        ensures none { self.old.books.closed ≡ true → result ≡ 0 }
        ensures items { result ≤ items }
        ensures room { result ≤ self.new.room.queue }
        ensures threads { self.old.books.closed ≡ false → length self.old.books.queue + result ≤ takers self.old.books }
        ensures all { let most = fitting items self.old.books in self.old.books.closed ≡ false → most ≤ self.old.room.queue → result ≡ most }
    {
        if self.closed {
            return 0;
        }
        let count = items.min(self.threads_more());
        match self.queue.reserve(count) {
            Ok(()) => count,
            Err(_) => 0,
        }
    }

    /// For how many items more there are threads, which rest or were called.
    pub(crate) fn threads_more(&self) -> usize
        ensures { result ≡ takers self.now.books - length self.now.books.queue }
    {
        let called = if self.called { 1 } else { 0 };
        (self.resting.len() + called).saturating_sub(self.queue.len())
    }

    /// What a fork that asked is told; nothing as long as the maker gave no answer that is left. It takes
    /// none of the threads that went idle, so each answer is for one fork.
    pub(crate) fn answer(&mut self) -> Option<Answer<O>>
        ensures { MatchOption result ((self.old.books.made ≡ 0) × (self.old.books.unmade ≡ 0) × (self.new.books ≡ self.old.books)) (λ answer. Tells answer self.old.books self.new.books) }
    {
        if let Some(handoff) = self.made.pop() {
            return Some(Answer::Made(handoff));
        }
        if self.unmade == 0 {
            return None;
        }
        self.unmade -= 1;
        Some(Answer::Unmade)
    }
}

/// Moves so many items, the first, to the end of the queue, where there is room for them.
fn move_first<O>(items: &mut VecDeque<O>, queue: &mut VecDeque<O>, count: usize)
    requires items { count ≤ deque_len items.old }
    requires room { count ≤ deque_capacity queue.old - deque_len queue.old }
    ensures moved { queue.new.items ≡ queue.old.items ++ take count items.old.items }
    ensures left { items.new.items ≡ drop count items.old.items }
{
    for _ in 0..count {
        let Some(item) = items.pop_front() else {
            unreachable!()
        };
        queue.push_back_reserved(item);
    }
}

/// What the threads of the pool do with it.
impl<O: Drop> PoolState<O> {
    /// A thread that was woken comes: the item that it is to run, if one is left, and who is to be woken
    /// for the others. None if the threads at work take the items quickly, so that one more would only contend with
    /// them for their locks: it is to look again soon, and is on the way until then.
    pub(crate) fn come(&mut self) -> Option<(Option<O>, Option<Called<O>>)>
        ensures { MatchOption result ((0 < length self.old.books.queue) × (self.new.books ≡ self.old.books)) (λ came. Comes came.0 came.1 self.old.books self.new.books) }
    {
        if !self.queue.is_empty() && self.pace.is_to_wait() {
            return None;
        }
        self.called = false;
        let item = self.queue.pop_front();
        let called = call(&mut self.resting, &self.queue, &mut self.called);
        self.pace.come();
        Some((item, called))
    }

    /// What a thread does next that has done its work: it takes an item that is left; else it comes to
    /// rest at this handoff, or is to end.
    pub(crate) fn next(&mut self, handoff: Option<SharedHandoff<O>>, number: usize) -> Next<O>
        ensures { Goes handoff number result self.old self.new.books }
    {
        if let Some(item) = self.queue.pop_front() {
            self.pace.take();
            return Next::Run(item);
        }
        self.pace.rest();
        if let Some(handoff) = handoff
            && !self.closed
            && self.resting.len() < self.keep
            && self.resting.push(handoff).is_ok()
        {
            return Next::Rest;
        }
        // room was made for it; a thread that is not listed is joined at the close
        let _listed = self.ended.push(number);
        Next::End
    }

    /// From now on no item is taken. The threads that rest are sent home, once they have run the items
    /// that are left; so do the others once they have done their work.
    pub(crate) fn close(&mut self)
        ensures { self.new.books ≡ record self.old.books { closed = true; resting = 0 } }
    {
        self.closed = true;
        while let Some(handoff) = self.resting.pop() {
            handoff.ring();
        }
    }
}

/// Who is to be woken for the items in the queue: nobody if there is none, or if a thread is on the way.
fn call<O: Drop>(
    resting: &mut Vec<SharedHandoff<O>>,
    queue: &VecDeque<O>,
    called: &mut bool,
) -> Option<Called<O>>
    ensures calls { is_some result ≡ is_calling called.old (deque_len queue.now) (vec_len resting.old) }
    ensures left { vec_len resting.new + length (option_to_list result) ≡ vec_len resting.old }
    ensures called { called.new ≡ (called.old || is_some result) }
{
    if *called || queue.is_empty() {
        return None;
    }
    let handoff = resting.pop()?;
    *called = true;
    Some(Called { handoff })
}

/// What the maker of threads does with it.
impl<O: Drop> PoolState<O> {
    /// What the maker is to do next. A wish for a thread is told once.
    pub(crate) fn wish(&mut self) -> Wish
        ensures { Wishes result self.old.books self.new.books }
    {
        if self.wanted > 0 {
            self.wanted -= 1;
            Wish::Thread
        } else if self.closed {
            Wish::End
        } else {
            Wish::Nothing
        }
    }

    /// Makes room for the lists of a pool of so many threads.
    pub(crate) fn reserve(&mut self, threads: usize) -> Result<(), AllocError>
        ensures same { self.new.books ≡ self.old.books }
        ensures room { OnOk result (HasRoomFor threads self.new) }
    {
        self.resting.reserve(threads.min(self.keep))?;
        self.queue.reserve(threads)?;
        self.ended.reserve(threads)?;
        self.made.reserve(1)
    }

    /// A fork is to be told of the thread that was made, or that none could be.
    pub(crate) fn tell(&mut self, made: Option<SharedHandoff<O>>)
        ensures { IsTold made self.old self.new.books }
    {
        if let Some(handoff) = made {
            match self.made.push(handoff) {
                Ok(()) => return,
                Err(refused) => refused.value.ring(),
            }
        }
        self.unmade = self.unmade.saturating_add(1);
    }

    /// The number of a thread that ended and is to be joined.
    pub(crate) fn next_ended(&mut self) -> Option<usize>
        ensures { (self.new.books ≡ record self.old.books { ended = self.new.books.ended }) × (self.old.books.ended ≡ self.new.books.ended ++ option_to_list result) × MatchOption result (self.old.books.ended ≡ []) (λ _. Unit {0}) }
    {
        self.ended.pop()
    }
}
