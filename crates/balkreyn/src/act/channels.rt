//! Channels between jobs, whose waits a cancel and a deadline end.
ghost use Rattle.std.specs.Prelude.{◌≡◌, MatchResult};
ghost use Rattle.balkreyn.specs.{HandsBack, Pauses, Receives, Sends, SleptLast};

use crate::act::contexts::Acts;
use crate::act::locked::{Hears, Locked};
use crate::act::turns::{Turn, Waiting};
use crate::act::waits::{Looks, awaited, paused, rings_of};
use cancel_marks::Bell;
use realm_lock::Mark;
use scope_rules::Refusal;
use std::alloc::{AllocError, AllocFailed, Global};
use std::collections::VecDeque;
use std::sync::atomic::{AtomicU64, Ordering};
use std::sync::{Arc, Wait};
use tree_dump::WaitCall;

/// The half of a channel into which values are sent. Each job that sends has a share of it; once the last is dropped, the
/// channel is closed: what is in it can still be received.
///
/// A job that sends numbers, and closes the channel by its end:
///
/// ```rust
/// impl Task for Counts {
///     fn run<X: Acts<Counts>>(self, cx: &mut X) -> End {
///         for number in 0..100u32 {
///             match send(cx, &self.into, number) {
///                 Ok(Sent::Done) => {}
///                 _ => return Err(Fault(named(b"unsent"))),
///             }
///         }
///         Ok(Value::Num(100))
///     }
/// }
/// ```
pub struct Sender<T> {
    shared: Arc<Locked<Queue<T>, Halves>, Global>,
}

/// The half of a channel from which values are received. Each job that receives has a share of it; once the last is dropped,
/// each value that is sent comes back, and what is in the channel is dropped with it.
///
/// A receive that a deadline ends:
///
/// ```rust
/// fn waited_for<X: Acts<Counts>>(cx: &mut X, from: &Receiver<u32>) -> Result<Received<u32>, Refusal> {
///     let options = cx.move_on_after(50);
///     scope(
///         cx,
///         Joiner::AwaitAll,
///         options,
///         |cx, _scope| receive(cx, from),
///     )
/// }
/// ```
pub struct Receiver<T> {
    shared: Arc<Locked<Queue<T>, Halves>, Global>,
}

/// How many shares there are of each half. It lies beside the lock, since a drop takes none.
#[derive(Drop)]
struct Halves {
    senders: AtomicU64,
    receivers: AtomicU64,
}

/// What is in the channel, and who waits.
#[derive(Drop)]
struct Queue<T> {
    values: VecDeque<T>,
    room: usize,
    senders: Waiting,
    receivers: Waiting,
}

/// What a send answers.
///
/// A value that wasn't sent comes back:
///
/// ```rust
/// fn back(sent: &Sent<u32>) -> Option<u32> {
///     match sent {
///         Sent::Done => None,
///         Sent::Closed(number) | Sent::Cancelled(number) => Some(*number),
///     }
/// }
/// ```
#[derive(Drop)]
pub enum Sent<T> {
    /// The value is in the channel.
    Done,
    /// Nobody can receive any more; the value comes back.
    Closed(T),
    /// A cancel or a deadline came before there was room; the value comes back.
    Cancelled(T),
}

/// What a receive answers.
#[derive(Drop)]
pub enum Received<T> {
    /// The value that was sent first of those in the channel.
    Value(T),
    /// Nobody can send any more, and nothing is left in the channel.
    Closed,
    /// A cancel or a deadline came before there was a value.
    Cancelled,
}

/// What one try to send answers.
enum Put<T> {
    Done,
    Full(T),
    Closed(T),
}

/// A queue between jobs, which holds so many values at most, and one at least, and gives them in the order in which they were
/// sent. Who waits to send or to receive is served in the order of asking (Trio, `open_memory_channel`). Who waits sleeps: a
/// send wakes the first who waits to receive, a receive the first who waits to send, and the drop of a half all.
///
/// # Errors
/// Memory is refused.
pub fn channel<T: Drop>(
    alloc: Global,
    room: usize,
) -> Result<(Sender<T>, Receiver<T>), AllocError> {
    let room = room.max(1);
    let queue = Queue {
        values: VecDeque::with_capacity(alloc, room)?,
        room,
        senders: Waiting::new(alloc),
        receivers: Waiting::new(alloc),
    };
    let halves = Halves {
        senders: AtomicU64::new(1),
        receivers: AtomicU64::new(1),
    };
    let shared = Arc::new(alloc, Locked::new(queue, halves))?;
    let other = Arc::try_clone(&shared)?;
    Ok((Sender { shared }, Receiver { shared: other }))
}

impl Halves {
    /// Whether nobody can receive any more.
    fn are_deaf(&self) -> bool {
        self.receivers.load(Ordering::SeqCst) == 0
    }

    /// Whether nobody can send any more.
    fn are_closed(&self) -> bool {
        self.senders.load(Ordering::SeqCst) == 0
    }
}

/// The values need not be `Drop` here: so none of them can be lost. Each call also says whose bell is to be rung behind it.
impl<T> Queue<T> {
    /// Puts the value behind the others, if there is room and nobody asked before.
    fn put(&mut self, halves: &Halves, turn: Option<&Turn>, value: T) -> (Put<T>, Option<Bell>)
        ensures { HandsBack value result.0 }
    {
        if halves.are_deaf() {
            return (Put::Closed(value), None);
        }
        if self.values.len() >= self.room || !self.senders.is_first(turn) {
            return (Put::Full(value), None);
        }
        match self.values.push_back(value) {
            Ok(()) => (Put::Done, self.receivers.first()),
            Err(AllocFailed { value }) => (Put::Full(value), None),
        }
    }

    /// The first of the values, if nobody asked before; none if the channel is closed and empty.
    fn take(&mut self, halves: &Halves, turn: Option<&Turn>) -> (Option<Option<T>>, Option<Bell>) {
        if self.values.is_empty() {
            return (
                if halves.are_closed() {
                    Some(None)
                } else {
                    None
                },
                None,
            );
        }
        if !self.receivers.is_first(turn) {
            return (None, None);
        }
        (Some(self.values.pop_front()), self.senders.first())
    }

    /// Leaves the line of those who wait to send.
    fn leave_senders(&mut self, halves: &Halves, turn: Turn) -> Option<Bell> {
        self.senders.leave(turn);
        if halves.are_deaf() || self.values.len() < self.room {
            self.senders.first()
        } else {
            None
        }
    }

    /// Leaves the line of those who wait for a value.
    fn leave_receivers(&mut self, halves: &Halves, turn: Turn) -> Option<Bell> {
        self.receivers.leave(turn);
        if halves.are_closed() || !self.values.is_empty() {
            self.receivers.first()
        } else {
            None
        }
    }
}

/// Told is that the last share of a half was dropped: then all who wait for the other are woken.
impl<T> Hears<Halves> for Queue<T> {
    fn hear(&mut self, halves: &Halves) -> Option<Bell> {
        if halves.are_closed() {
            self.receivers.ring_all();
        }
        if halves.are_deaf() {
            self.senders.ring_all();
        }
        None
    }
}

impl<T: Drop> Drop for Sender<T> {
    fn drop(self) {
        let Sender { shared } = self;
        if shared.beside.senders.fetch_sub(1, Ordering::SeqCst) == 1 {
            shared.tell();
        }
        drop(shared);
    }
}

impl<T: Drop> Drop for Receiver<T> {
    fn drop(self) {
        let Receiver { shared } = self;
        if shared.beside.receivers.fetch_sub(1, Ordering::SeqCst) == 1 {
            shared.tell();
        }
        drop(shared);
    }
}

impl<T> Sender<T> {
    /// The same half for one more. It takes no memory.
    ///
    /// # Errors
    /// std's count of holders is full.
    pub fn share(&self) -> Result<Sender<T>, AllocError> {
        let shared = Arc::try_clone(&self.shared)?;
        shared.beside.senders.fetch_add(1, Ordering::SeqCst);
        Ok(Sender { shared })
    }

    /// Puts the value behind the others, if there is room and nobody asked before.
    fn put<R: Wait>(&self, rt: &R, turn: Option<&Turn>, value: T) -> Put<T>
        ensures { HandsBack value result }
    {
        let (put, bell) = self.shared.lock(rt).put(&self.shared.beside, turn, value);
        self.shared.behind(bell);
        put
    }

    /// A place behind those who wait to send.
    fn ask<R: Wait>(&self, rt: &R, bell: Option<Bell>) -> Turn {
        let turn = self.shared.lock(rt).senders.ask(bell);
        self.shared.behind(None);
        turn
    }

    /// Leaves the line of those who wait to send.
    fn leave<R: Wait>(&self, rt: &R, turn: Turn) {
        let bell = self
            .shared
            .lock(rt)
            .leave_senders(&self.shared.beside, turn);
        self.shared.behind(bell);
    }
}

impl<T> Receiver<T> {
    /// The same half for one more. It takes no memory.
    ///
    /// # Errors
    /// std's count of holders is full.
    pub fn share(&self) -> Result<Receiver<T>, AllocError> {
        let shared = Arc::try_clone(&self.shared)?;
        shared.beside.receivers.fetch_add(1, Ordering::SeqCst);
        Ok(Receiver { shared })
    }
}

/// What is awaited of a channel is a value; there is none if it is closed and empty.
impl<T> Looks<Option<T>> for Receiver<T> {
    fn call(&self) -> WaitCall {
        WaitCall::Receive
    }

    fn ask<R: Wait>(&self, rt: &R, bell: Option<Bell>) -> Turn {
        let turn = self.shared.lock(rt).receivers.ask(bell);
        self.shared.behind(None);
        turn
    }

    fn look<R: Wait>(&self, rt: &R, turn: Option<&Turn>) -> Option<Option<T>> {
        let (taken, bell) = self.shared.lock(rt).take(&self.shared.beside, turn);
        self.shared.behind(bell);
        taken
    }

    fn leave<R: Wait>(&self, rt: &R, turn: Turn) {
        let bell = self
            .shared
            .lock(rt)
            .leave_receivers(&self.shared.beside, turn);
        self.shared.behind(bell);
    }
}

/// Receives the value that was sent first, once there is one. Who waits makes no look before it is woken, unless memory for
/// its place is refused: then it looks each millisecond.
///
/// # Errors
/// The refusal of the wait.
pub fn receive<T: Drop, W, X: Acts<W>>(
    cx: &mut X,
    from: &Receiver<T>,
) -> Result<Received<T>, Refusal>
    ensures { Receives X.token (λ old new slept. Pauses X.reads X.reading X.time X.token X.seat 1 old new slept) cx.old cx.new result }
{
    let taken: Result<Result<Option<T>, Mark>, Refusal> = awaited(cx, 1, from);
    match taken? {
        Ok(Some(value)) => Ok(Received::Value(value)),
        Ok(None) => Ok(Received::Closed),
        Err(_mark) => Ok(Received::Cancelled),
    }
}

/// Sends the value, once there is room for it. It waits as `receive` does.
///
/// # Errors
/// The refusal of the wait. The value is dropped.
pub fn send<T: Drop, W, X: Acts<W>>(
    cx: &mut X,
    into: &Sender<T>,
    value: T,
) -> Result<Sent<T>, Refusal>
    ensures { MatchResult result (Sends X.token (λ old new slept. Pauses X.reads X.reading X.time X.token X.seat 1 old new slept) value cx.old cx.new) (λ refusal. SleptLast X.token (λ old new slept. Pauses X.reads X.reading X.time X.token X.seat 1 old new slept) cx.old cx.new (Err refusal)) }
{
    match into.put(cx, None, value) {
        Put::Done => Ok(Sent::Done),
        Put::Closed(back) => Ok(Sent::Closed(back)),
        Put::Full(back) => sent_in_line(cx, into, back),
    }
}

/// The same in line.
fn sent_in_line<T: Drop, W, X: Acts<W>>(
    cx: &mut X,
    into: &Sender<T>,
    value: T,
) -> Result<Sent<T>, Refusal>
    ensures { MatchResult result (Sends X.token (λ old new slept. Pauses X.reads X.reading X.time X.token X.seat 1 old new slept) value cx.old cx.new) (λ refusal. SleptLast X.token (λ old new slept. Pauses X.reads X.reading X.time X.token X.seat 1 old new slept) cx.old cx.new (Err refusal)) }
{
    let turn = into.ask(cx, Bell::new(cx.alloc()).ok());
    let offered = offer(cx, into, &turn, value);
    into.leave(cx, turn);
    match offered {
        Ok(sent) => Ok(sent),
        Err((refusal, _value)) => Err(refusal),
    }
}

/// The same at a place, of a value that can't be dropped: with the refusal of the wait it comes back.
fn offer<T, W, X: Acts<W>>(
    cx: &mut X,
    into: &Sender<T>,
    turn: &Turn,
    mut value: T,
) -> Result<Sent<T>, (Refusal, T)>
    ensures { MatchResult result (Sends X.token (λ old new slept. Pauses X.reads X.reading X.time X.token X.seat 1 old new slept) value cx.old cx.new) (λ failed. SleptLast X.token (λ old new slept. Pauses X.reads X.reading X.time X.token X.seat 1 old new slept) cx.old cx.new (Err failed.0)) }
{
    for _ in 0..u64::MAX {
        let heard = rings_of(turn.bell());
        value = match into.put(cx, Some(turn), value) {
            Put::Done => return Ok(Sent::Done),
            Put::Closed(back) => return Ok(Sent::Closed(back)),
            Put::Full(back) => back,
        };
        match paused(cx, WaitCall::Send, 1, turn.bell(), heard) {
            Ok(None) => {}
            Ok(Some(_mark)) => return Ok(Sent::Cancelled(value)),
            Err(refusal) => return Err((refusal, value)),
        }
    }
    for _ in cx.forever() {}
    unreachable!()
}
