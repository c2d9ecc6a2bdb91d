//! What an actor waits for: a time, a value, room, or a permit.

use super::board::Board;
use super::playing::{Hands, Work};
use super::scopes::opened;
use super::steps::{Act, Note};
use balkreyn::act::{Acts, Received, Receiver, Sender, Sent, receive, send};
use balkreyn::looks::WaitCall;
use balkreyn::{Bell, Joiner, Options, Refusal};

/// What such an act comes to.
pub fn note_of<X: Acts<Work>>(cx: &mut X, hands: &mut Hands, act: Act) -> Result<Note, Refusal> {
    match act {
        Act::Sleep(millis) => match cx.sleep(millis)? {
            None => Ok(Note::Done),
            Some(_mark) => Ok(Note::Cut),
        },
        Act::Receive => received(cx, &hands.board.empty),
        Act::Fill(number) => sent(cx, &hands.board.full, number),
        Act::Send(number) => match &hands.halves {
            Some(halves) => sent(cx, &halves.into, number),
            None => Ok(Note::Not),
        },
        Act::Drain => match &hands.halves {
            Some(halves) => received(cx, &halves.from),
            None => Ok(Note::Not),
        },
        Act::DropHalves => {
            hands.halves = None;
            Ok(Note::Done)
        }
        Act::Ring => {
            let bell = Bell::new(cx.alloc())?;
            match cx.wait_rung(WaitCall::Ring, &bell, 0)? {
                None => Ok(Note::Done),
                Some(_mark) => Ok(Note::Cut),
            }
        }
        Act::SendEach(first, many) => match &hands.halves {
            Some(halves) => sent_each(cx, &hands.board, &halves.into, (first, many)),
            None => Ok(Note::Not),
        },
        Act::ReceiveAll => received_all(cx, &hands.board),
        _ => permitted(cx, hands, act),
    }
}

/// What one comes to that has to do with permits.
fn permitted<X: Acts<Work>>(cx: &mut X, hands: &mut Hands, act: Act) -> Result<Note, Refusal> {
    match act {
        Act::Permit => {
            hands.permit = hands.board.limiter.permit(cx)?;
            match &hands.permit {
                Some(_) => Ok(Note::Done),
                None => Ok(Note::Cut),
            }
        }
        Act::GiveBack => {
            hands.permit = None;
            Ok(Note::Done)
        }
        Act::Takes(times) => {
            for number in 0..times {
                match hands.board.limiter.permit(cx)? {
                    Some(permit) => drop(permit),
                    None => return Ok(Note::Gave(number)),
                }
            }
            Ok(Note::Gave(times))
        }
        Act::Greedy(taken, over) => {
            for _ in 0..u32::MAX {
                if hands.board.counted(over) > 0 {
                    return Ok(Note::Done);
                }
                let permit = hands.board.limiter.permit(cx)?;
                let mark = cx.sleep(1)?;
                hands.board.count(taken);
                if permit.is_none() || mark.is_some() {
                    break;
                }
            }
            Ok(Note::Cut)
        }
        _ => Ok(Note::Not),
    }
}

/// What a receive comes to.
fn received<X: Acts<Work>>(cx: &mut X, from: &Receiver<u64>) -> Result<Note, Refusal> {
    match receive(cx, from)? {
        Received::Value(number) => Ok(Note::Gave(number)),
        Received::Closed => Ok(Note::Shut),
        Received::Cancelled => Ok(Note::Cut),
    }
}

/// What a send comes to; a value that comes back is the one that was sent.
fn sent<X: Acts<Work>>(cx: &mut X, into: &Sender<u64>, number: u64) -> Result<Note, Refusal> {
    match send(cx, into, number)? {
        Sent::Done => Ok(Note::Done),
        Sent::Closed(back) if back == number => Ok(Note::Shut),
        Sent::Cancelled(back) if back == number => Ok(Note::Cut),
        Sent::Closed(back) | Sent::Cancelled(back) => Ok(Note::Gave(back)),
    }
}

/// Sends the numbers, each within no more than two milliseconds; what comes back is counted.
fn sent_each<X: Acts<Work>>(
    cx: &mut X,
    board: &Board,
    into: &Sender<u64>,
    numbers: (u64, u64),
) -> Result<Note, Refusal> {
    let (first, many) = numbers;
    for step in 0..many {
        let number = first.saturating_add(step);
        let options = cx.move_on_after(step % 3);
        let scope = opened(cx, Joiner::AwaitAll, options)?;
        let found = sent(cx, into, number);
        cx.close(scope)?;
        if found? != Note::Done {
            board.see(number);
        }
    }
    Ok(Note::Done)
}

/// Receives until the channel is closed; each fourth time it waits for no more than a millisecond. Behind each eighth number
/// it sleeps.
fn received_all<X: Acts<Work>>(cx: &mut X, board: &Board) -> Result<Note, Refusal> {
    for round in 0..u32::MAX {
        let options = if round % 4 == 0 {
            cx.move_on_after(1)
        } else {
            Options::PLAIN
        };
        let scope = opened(cx, Joiner::AwaitAll, options)?;
        let found = received(cx, &board.empty);
        cx.close(scope)?;
        match found? {
            Note::Gave(number) => {
                board.see(number);
                if number % 8 == 0 {
                    cx.sleep(1)?;
                }
            }
            Note::Shut => return Ok(Note::Done),
            _ => {}
        }
    }
    Ok(Note::Not)
}
