//! Actors that play steps: one job, and one service, for all rows.

use super::board::{Board, Halves};
use super::steps::{Act, Body, Note, Step};
use super::{jobs, noted, scopes, waits};
use balkreyn::act::{Acts, Permit, Serves, Task, TypedTask, Worker, scope, shielded};
use balkreyn::{
    End, Fault, Joiner, Name, Refusal, ScopeId, ServiceAnswer, ServiceError, Slot, Typed, Value,
    Yields, named,
};
use std::alloc::Global;
use std::sync::Arc;

/// One who plays steps. Main has the number 0, and the job with place 0 the number 1.
#[derive(Drop)]
pub struct Player {
    pub number: u64,
    /// What it does first, and then.
    pub first: &'static [Step],
    pub steps: &'static [Step],
    pub board: Arc<Board, Global>,
    pub halves: Option<Halves>,
}

/// What it has at hand meanwhile.
#[derive(Drop)]
pub struct Hands {
    pub board: Arc<Board, Global>,
    pub halves: Option<Halves>,
    pub permit: Option<Permit>,
    /// The scopes that it is in, of which the last is the innermost.
    pub scopes: Vec<ScopeId>,
    pub slots: Vec<Slot<Player>>,
    /// What it noted last: the time, a number of readings, and a count.
    pub since: u64,
    pub read: u64,
    pub count: u64,
    /// The last number that it was given.
    pub given: u64,
}

impl Hands {
    /// The innermost scope.
    pub fn here(&self) -> ScopeId {
        match self.scopes.last() {
            Some(scope) => *scope,
            None => 0,
        }
    }
}

/// A job: it plays steps, alone, for its value, or as one of many.
#[derive(Drop)]
pub enum Work {
    Plays(Player),
    Valued(Typed<Player>),
    Mapped(Worker<Player>),
}

impl From<Typed<Player>> for Work {
    fn from(typed: Typed<Player>) -> Work {
        Work::Valued(typed)
    }
}

impl From<Worker<Player>> for Work {
    fn from(worker: Worker<Player>) -> Work {
        Work::Mapped(worker)
    }
}

impl Task for Work {
    fn run<X: Acts<Work>>(self, cx: &mut X) -> End {
        match self {
            Work::Plays(player) => match player.play(cx, None) {
                Ok(_given) => Ok(Value::Num(1)),
                Err(_refusal) => Err(Fault(named(b"gave-up"))),
            },
            Work::Valued(typed) => typed.act(cx),
            Work::Mapped(worker) => worker.act(cx),
        }
    }
}

impl Yields for Player {
    /// The last number that it was given.
    type Value = u64;

    type Error = Refusal;

    ghost is_fact = { λ name given. Prim.hlevel };
}

impl TypedTask<Work> for Player {
    fn run_typed<X: Acts<Work>>(self, cx: &mut X, _name: Name) -> Result<u64, Refusal> {
        self.play(cx, None)
    }
}

impl Player {
    /// Plays its steps, in this scope if there is one; refused if one comes to something else, which the board is told, or if it
    /// is to give up.
    fn play<X: Acts<Work>>(self, cx: &mut X, own: Option<ScopeId>) -> Result<u64, Refusal> {
        let Player {
            number,
            first,
            steps,
            board,
            halves,
        } = self;
        let mut scopes = Vec::new(cx.alloc());
        if let Some(own) = own {
            scopes.push(own)?;
        }
        let mut hands = Hands {
            board,
            halves,
            permit: None,
            scopes,
            slots: Vec::new(cx.alloc()),
            since: 0,
            read: 0,
            count: 0,
            given: 0,
        };
        go(cx, &mut hands, number, first)?;
        go(cx, &mut hands, number, steps)?;
        Ok(hands.given)
    }
}

/// Goes on by these steps.
fn go<X: Acts<Work>>(
    cx: &mut X,
    hands: &mut Hands,
    number: u64,
    steps: &[Step],
) -> Result<(), Refusal> {
    let mut place = 0u64;
    for (act, wanted) in steps {
        place = place.saturating_add(1);
        let note = note_of(cx, hands, *act);
        if note != *wanted {
            hands.board.strays(number, place);
            return Err(Refusal::Unavailable);
        }
        match (act, note) {
            (Act::Fails, _) => return Err(Refusal::NotBound),
            (_, Note::Gave(given)) => hands.given = given,
            _ => {}
        }
    }
    Ok(())
}

/// What the act comes to.
fn note_of<X: Acts<Work>>(cx: &mut X, hands: &mut Hands, act: Act) -> Note {
    let found = match act {
        Act::Open(..)
        | Act::Close
        | Act::Join
        | Act::Cancel
        | Act::Owns(_)
        | Act::CancelOf(_)
        | Act::Move(_)
        | Act::Remaining(..)
        | Act::Looks(_)
        | Act::Computes
        | Act::Retire => scopes::note_of(cx, hands, act),
        Act::Fork(_) | Act::Hand(_) | Act::Share(_) | Act::Value(_) | Act::NextDone | Act::Map(_) =>
            { jobs::note_of(cx, hands, act) }
        Act::Sleep(_)
        | Act::Send(_)
        | Act::Receive
        | Act::Fill(_)
        | Act::Drain
        | Act::DropHalves
        | Act::Permit
        | Act::GiveBack
        | Act::Takes(_)
        | Act::Greedy(..)
        | Act::Ring
        | Act::SendEach(..)
        | Act::ReceiveAll => waits::note_of(cx, hands, act),
        _ => noted::note_of(cx, hands, act),
    };
    match found {
        Ok(note) => note,
        Err(refusal) => Note::Refused(refusal),
    }
}

/// The service.
#[derive(Drop)]
pub struct Main {
    pub body: Body,
    pub player: Player,
}

impl ServiceAnswer for Main {
    type Answer = u64;

    type Error = ServiceError;
}

impl Serves<Work> for Main {
    fn serve<X: Acts<Work>>(self, cx: &mut X) -> Result<u64, ServiceError> {
        let player = self.player;
        let found: Result<u64, Refusal> = match self.body {
            Body::Bare => player.play(cx, None),
            Body::InScope(due) => {
                let options = scopes::options_of(cx, due);
                scope(
                    cx,
                    Joiner::AwaitAll,
                    options,
                    |cx, own| player.play(cx, Some(own)),
                )
            }
            Body::Shielded => shielded(cx, |cx, own| player.play(cx, Some(own))),
        };
        Ok(found?)
    }
}
