//! What is done with scopes, their deadlines and their cancels.

use super::playing::{Hands, Work};
use super::steps::{Act, Due, Kind, Note};
use balkreyn::act::Acts;
use balkreyn::{Cancelling, CauseKind, Joiner, Options, Outcome, Refusal, ScopeId};

/// What such an act comes to.
pub fn note_of<X: Acts<Work>>(cx: &mut X, hands: &mut Hands, act: Act) -> Result<Note, Refusal> {
    match act {
        Act::Open(kind, due) => {
            let options = options_of(cx, due);
            let scope = opened(cx, joiner_of(kind), options)?;
            hands.scopes.push(scope)?;
            Ok(Note::Done)
        }
        Act::Close => {
            cx.close(hands.here())?;
            hands.scopes.pop();
            Ok(Note::Done)
        }
        Act::Join => Ok(said(&cx.join(hands.here())?.outcome)),
        Act::Cancel => cancelled(cx, hands.here()),
        Act::CancelOf(cell) => {
            let scope = u32::try_from(hands.board.counted(cell)).unwrap_or(0);
            cancelled(cx, scope)
        }
        Act::Owns(cell) => {
            hands.board.put(cell, u64::from(hands.here()));
            Ok(Note::Done)
        }
        Act::Retire => {
            cx.retire()?;
            Ok(Note::Done)
        }
        _ => timed(cx, hands, act),
    }
}

/// What one comes to that has to do with a deadline.
fn timed<X: Acts<Work>>(cx: &mut X, hands: &mut Hands, act: Act) -> Result<Note, Refusal> {
    match act {
        Act::Move(after) => {
            let until = match after {
                Some(millis) => Some(cx.now().saturating_add(millis)),
                None => None,
            };
            let outermost = match hands.scopes.first() {
                Some(scope) => *scope,
                None => 0,
            };
            cx.move_deadline(outermost, until)?;
            Ok(Note::Done)
        }
        Act::Remaining(least, most) => match cx.remaining(hands.here())? {
            None => Ok(Note::Not),
            Some(left) if least <= left && left <= most => Ok(Note::Done),
            Some(left) => Ok(Note::Gave(left)),
        },
        Act::Looks(times) => {
            for _ in 0..times {
                if cx.checkpoint().is_some() {
                    return Ok(Note::Cut);
                }
            }
            Ok(Note::Not)
        }
        _ => Ok(computed(cx)),
    }
}

/// Computes until a checkpoint shows a deadline; not if it takes over ten seconds, or another cancel is shown.
fn computed<X: Acts<Work>>(cx: &mut X) -> Note {
    let begun = cx.now();
    for _ in 0..u64::MAX {
        if let Some(mark) = cx.checkpoint() {
            return match mark.cause.kind {
                CauseKind::Deadline => Note::Done,
                _ => Note::Not,
            };
        }
        if cx.now().saturating_sub(begun) > 10_000 {
            break;
        }
    }
    Note::Not
}

/// Whether this cancel was the first.
fn cancelled<X: Acts<Work>>(cx: &mut X, scope: ScopeId) -> Result<Note, Refusal> {
    match cx.cancel(scope)? {
        Cancelling::Recorded => Ok(Note::Done),
        Cancelling::Already => Ok(Note::Not),
    }
}

/// Opens a scope with a joiner that its caller names.
pub fn opened<W, X: Acts<W>>(
    cx: &mut X,
    joiner: Joiner,
    options: Options,
) -> Result<ScopeId, Refusal> {
    cx.open(joiner, options)
}

fn joiner_of(kind: Kind) -> Joiner {
    match kind {
        Kind::All => Joiner::All,
        Kind::Any => Joiner::Any,
        Kind::AwaitAll => Joiner::AwaitAll,
    }
}

/// The options of a scope.
pub fn options_of<X: Acts<Work>>(cx: &X, due: Due) -> Options {
    match due {
        Due::Never => Options::PLAIN,
        Due::FailAfter(millis) => cx.fail_after(millis),
        Due::MoveOnAfter(millis) => cx.move_on_after(millis),
        Due::Shielded => Options::PLAIN.shielded(),
    }
}

/// What is noted of an outcome.
fn said(outcome: &Outcome) -> Note {
    match outcome {
        Outcome::All(_) => Note::All,
        Outcome::Any { .. } => Note::Any,
        Outcome::Done => Note::Done,
        Outcome::Failed { .. } => Note::Failed,
        Outcome::Timeout => Note::Timeout,
        Outcome::Cancelled(_) => Note::Cancelled,
        Outcome::Partial(_) => Note::Partial,
        Outcome::Empty | Outcome::List(_) => Note::Not,
    }
}
