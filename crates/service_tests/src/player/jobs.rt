//! What is done with jobs.

use super::playing::{Hands, Player, Work};
use super::steps::{Act, Note};
use balkreyn::act::{Acts, Came, fork_value, map_at_most, next_done};
use balkreyn::{Options, Refusal, named};
use std::alloc::Global;
use std::sync::Arc;

/// What such an act comes to.
pub fn note_of<X: Acts<Work>>(cx: &mut X, hands: &mut Hands, act: Act) -> Result<Note, Refusal> {
    match act {
        Act::Fork(place) => {
            let player = player_at(hands, place)?;
            cx.fork(hands.here(), named(b"job"), Work::Plays(player))?;
            Ok(Note::Done)
        }
        Act::Hand(place) => {
            let mut player = player_at(hands, place)?;
            player.halves = hands.halves.take();
            cx.fork(hands.here(), named(b"job"), Work::Plays(player))?;
            Ok(Note::Done)
        }
        Act::Share(place) => {
            let mut player = player_at(hands, place)?;
            if let Some(halves) = &hands.halves {
                player.halves = Some(halves.share()?);
            }
            cx.fork(hands.here(), named(b"job"), Work::Plays(player))?;
            Ok(Note::Done)
        }
        Act::Value(place) => {
            let player = player_at(hands, place)?;
            let slot = fork_value(cx, hands.here(), named(b"job"), player)?;
            hands.slots.push(slot)?;
            Ok(Note::Done)
        }
        Act::Map(at_once) => {
            let jobs = players_of(cx.alloc(), hands)?;
            let _came = map_at_most(cx, named(b"job"), Options::PLAIN, at_once, jobs)?;
            Ok(Note::Done)
        }
        _ => match next_done(cx, &mut hands.slots)? {
            Some(Came::Value((_task, given))) => Ok(Note::Gave(given)),
            Some(Came::Failed(_)) => Ok(Note::Failed),
            Some(Came::Cut(_)) => Ok(Note::Cut),
            None => Ok(Note::Not),
        },
    }
}

/// All jobs.
fn players_of(alloc: Global, hands: &Hands) -> Result<Vec<Player>, Refusal> {
    let mut jobs = Vec::new(alloc);
    for place in 0..hands.board.jobs.len() {
        let player = player_at(hands, place)?;
        jobs.push(player)?;
    }
    Ok(jobs)
}

/// The job with this place.
fn player_at(hands: &Hands, place: usize) -> Result<Player, Refusal> {
    let Some(steps) = hands.board.jobs.get(place) else {
        return Err(Refusal::NoTask);
    };
    Ok(Player {
        number: (place as u64).saturating_add(1),
        first: &[],
        steps: *steps,
        board: Arc::try_clone(&hands.board)?,
        halves: None,
    })
}
