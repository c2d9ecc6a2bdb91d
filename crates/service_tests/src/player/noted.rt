//! What is counted, read and seen meanwhile.

use super::board::threads_now;
use super::playing::{Hands, Work};
use super::steps::{Act, Note};
use balkreyn::Refusal;
use balkreyn::act::Acts;
use balkreyn::looks::Times;

/// What such an act comes to.
pub fn note_of<X: Acts<Work>>(cx: &mut X, hands: &mut Hands, act: Act) -> Result<Note, Refusal> {
    match act {
        Act::Mark => {
            hands.since = cx.now();
            hands.read = hands.board.read();
            Ok(Note::Done)
        }
        Act::Took(least, most) => {
            let took = cx.now().saturating_sub(hands.since);
            Ok(is_so(least <= took && took <= most))
        }
        Act::Says(words) => Ok(is_so(cx.tree()?.contains(words))),
        Act::SaysOf(task, (words, aged)) => says_of(cx, task, words, aged),
        Act::Threads(more) => threads_come(cx, hands, more),
        Act::AskStop => match &hands.board.stop {
            Some(stop) => {
                stop.ask(cx);
                Ok(Note::Done)
            }
            None => Ok(Note::Not),
        },
        Act::WriteStop => {
            hands.board.write_stop()?;
            Ok(Note::Done)
        }
        _ => Ok(counted(hands, act)),
    }
}

/// What one comes to that has to do with the board alone.
fn counted(hands: &mut Hands, act: Act) -> Note {
    let board = &hands.board;
    match act {
        Act::Count(cell) => {
            board.count(cell);
            Note::Done
        }
        Act::Place(cell) => Note::Gave(board.count(cell)),
        Act::Counted(cell) => Note::Gave(board.counted(cell)),
        Act::Recall(cell) => {
            hands.count = board.counted(cell);
            Note::Done
        }
        Act::MoreAtMost(cell, more) => {
            is_so(board.counted(cell) <= hands.count.saturating_add(more))
        }
        Act::Await(cell, least) => {
            board.wait(cell, least);
            Note::Done
        }
        Act::Once(many) => Note::Gave(board.once(many)),
        Act::ReadAtMost(times) => is_so(board.read().saturating_sub(hands.read) <= times),
        Act::InLine(cell) => {
            board.put(cell, board.read().saturating_add(1));
            Note::Done
        }
        Act::AwaitLine(cell) => {
            board.wait_line(cell);
            Note::Done
        }
        Act::AtHand => Note::Gave(board.load.at_hand()),
        Act::Fails => Note::Done,
        _ => Note::Not,
    }
}

/// Done if it is so.
fn is_so(so: bool) -> Note {
    if so { Note::Done } else { Note::Not }
}

/// Whether the tree has these words behind this task, and the one with times those that tell for how long.
fn says_of<X: Acts<Work>>(
    cx: &mut X,
    task: &str,
    words: &str,
    aged: &str,
) -> Result<Note, Refusal> {
    let plain = says(cx.tree()?.as_str(), task, words);
    let mut times = Times::new(cx.alloc());
    cx.note(&mut times)?;
    let timed = says(cx.timed_tree(&times)?.as_str(), task, aged);
    Ok(is_so(plain && timed))
}

/// Whether a line of the tree is of this task, and has these words.
fn says(tree: &str, task: &str, words: &str) -> bool {
    for line in tree.lines() {
        if line.trim_start().starts_with(task) && line.contains(words) {
            return true;
        }
    }
    false
}

/// Whether the process comes to have so many threads more than before the service, and has as many a little later.
fn threads_come<X: Acts<Work>>(cx: &mut X, hands: &mut Hands, more: u64) -> Result<Note, Refusal> {
    let wanted = hands.board.threads.saturating_add(more);
    for _ in 0..500u32 {
        if threads_now(&hands.board.io) == wanted {
            break;
        }
        cx.sleep(1)?;
    }
    cx.sleep(20)?;
    Ok(is_so(threads_now(&hands.board.io) == wanted))
}
