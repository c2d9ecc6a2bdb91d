//! Waits for what others give: one looks, sleeps at a bell until that is rung, and looks again.
ghost use Rattle.balkreyn.specs.{Awaits, Pauses, SeesMore};

use crate::act::contexts::Acts;
use crate::act::turns::Turn;
use cancel_marks::Bell;
use realm_lock::Mark;
use scope_rules::Refusal;
use std::sync::Wait;
use tree_dump::WaitCall;

/// What is had in the order of asking, if it is there.
pub(crate) trait Looks<T> {
    /// The call in which one waits for it.
    fn call(&self) -> WaitCall;

    /// A place behind those who wait, at this bell.
    fn ask<R: Wait>(&self, rt: &R, bell: Option<Bell>) -> Turn;

    /// Takes it, if it is there, and nobody asked before.
    fn look<R: Wait>(&self, rt: &R, turn: Option<&Turn>) -> Option<T>;

    /// Leaves the line; the next one's bell is rung, if there is something for it.
    fn leave<R: Wait>(&self, rt: &R, turn: Turn);
}

/// Looks, and if it isn't there waits for it in line. If a cancel or a deadline ends the wait, it gives the mark.
///
/// # Errors
/// The refusal of the wait.
pub(crate) fn awaited<T, A: Looks<T>, W, X: Acts<W>>(
    cx: &mut X,
    millis: u64,
    it: &A,
) -> Result<Result<T, Mark>, Refusal>
    ensures sees { SeesMore (X.token cx.old) (X.token cx.new) }
    ensures answer { Awaits X.token (λ old new slept. Pauses X.reads X.reading X.time X.token X.seat millis old new slept) cx.old cx.new result }
{
    if let Some(found) = it.look(cx, None) {
        return Ok(Ok(found));
    }
    let turn = it.ask(cx, Bell::new(cx.alloc()).ok());
    let found = in_line(cx, millis, it, &turn);
    it.leave(cx, turn);
    found
}

/// Looks until it is there, and pauses between two looks.
fn in_line<T, A: Looks<T>, W, X: Acts<W>>(
    cx: &mut X,
    millis: u64,
    it: &A,
    turn: &Turn,
) -> Result<Result<T, Mark>, Refusal>
    ensures sees { SeesMore (X.token cx.old) (X.token cx.new) }
    ensures answer { Awaits X.token (λ old new slept. Pauses X.reads X.reading X.time X.token X.seat millis old new slept) cx.old cx.new result }
{
    for _ in 0..u64::MAX {
        let heard = rings_of(turn.bell());
        if let Some(found) = it.look(cx, Some(turn)) {
            return Ok(Ok(found));
        }
        if let Some(mark) = paused(cx, it.call(), millis, turn.bell(), heard)? {
            return Ok(Err(mark));
        }
    }
    for _ in cx.forever() {}
    unreachable!()
}

/// How often the bell has rung, if there is one.
pub(crate) fn rings_of(bell: Option<&Bell>) -> u64 {
    match bell {
        Some(bell) => bell.rings(),
        None => 0,
    }
}

/// Sleeps until the bell has rung more often than that, or, if there is none, for so many milliseconds. It waits in this call.
pub(crate) fn paused<W, X: Acts<W>>(
    cx: &mut X,
    call: WaitCall,
    millis: u64,
    bell: Option<&Bell>,
    heard: u64,
) -> Result<Option<Mark>, Refusal>
    ensures sees { SeesMore (X.token cx.old) (X.token cx.new) }
    ensures answer { Pauses X.reads X.reading X.time X.token X.seat millis cx.old cx.new result }
{
    match bell {
        Some(bell) => cx.wait_rung(call, bell, heard),
        None => cx.sleep(millis),
    }
}
