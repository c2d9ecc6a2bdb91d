//! Services that have to do with scopes, cancels, deadlines and joins, as rows.

use super::steps::Act::*;
use super::steps::Body::{Bare, InScope};
use super::steps::Due::{FailAfter, MoveOnAfter, Never};
use super::steps::Kind::AwaitAll;
use super::steps::Note::{Cut, Done, Gave, Not};
use super::steps::{Body, Due, Kind, Note, PLAIN, Row, Step, StopBy};
use balkreyn::Refusal;

/// A job that lasts until a cancel ends it.
const LASTS: &[Step] = &[(Sleep(60_000), Cut)];

/// A job that is done at once.
const QUICK: &[Step] = &[(Counted(9), Gave(0))];

/// Scopes that are cancelled, of which the observer hears once.
pub const CANCELS: [Row; 6] = [
    Row {
        name: "by a call, and by another, which does nothing",
        steps: &[
            (Fork(0), Done),
            (Sleep(50), Done),
            (Cancel, Done),
            (Cancel, Not),
            (Looks(1), Cut),
            (Join, Note::Cancelled),
        ],
        jobs: &[LASTS],
        heard: Some((1, 0, 0, 0)),
        ..PLAIN
    },
    Row {
        name: "by its close, while a job runs that nobody joined",
        steps: &[(Fork(0), Done), (Sleep(200), Done)],
        jobs: &[LASTS],
        refused: Some(Refusal::NotJoined),
        heard: Some((0, 1, 0, 0)),
        ..PLAIN
    },
    Row {
        name: "by its joiner, once the first of two jobs succeeds",
        steps: &[
            (Open(Kind::Any, Never), Done),
            (Fork(0), Done),
            (Fork(1), Done),
            (Join, Note::Any),
            (Looks(1), Cut),
            (Close, Done),
        ],
        jobs: &[&[(Sleep(5), Done)], LASTS],
        heard: Some((0, 0, 1, 0)),
        ..PLAIN
    },
    Row {
        name: "by its deadline, which the join tells, and a sleep behind that",
        body: InScope(FailAfter(20)),
        steps: &[(Fork(0), Done), (Join, Note::Timeout), (Sleep(60_000), Cut)],
        jobs: &[LASTS],
        heard: Some((0, 0, 0, 1)),
        ..PLAIN
    },
    Row {
        name: "by its deadline, which a sleep in a scope within shows, and then the join tells",
        body: InScope(FailAfter(20)),
        steps: &[
            (Open(AwaitAll, Never), Done),
            (Sleep(60_000), Cut),
            (Close, Done),
            (Join, Note::Timeout),
        ],
        heard: Some((0, 0, 0, 1)),
        ..PLAIN
    },
    Row {
        name: "by its deadline, which a checkpoint alone shows",
        body: InScope(FailAfter(20)),
        steps: &[(Fork(0), Done), (Computes, Done), (Join, Note::Timeout)],
        jobs: &[LASTS],
        heard: Some((0, 0, 0, 1)),
        ..PLAIN
    },
];

/// What a stopped service does: what it does ends, what is behind a shield is done, and a job is never begun.
const ENDS: &[Step] = &[
    (Sleep(60_000), Cut),
    (Open(AwaitAll, Due::Shielded), Done),
    (Sleep(20), Done),
    (Close, Done),
    (Open(Kind::All, Never), Done),
    (Fork(0), Done),
    (Join, Note::Cancelled),
    (Close, Done),
    (Took(0, 4_999), Done),
];

/// A job that is not to begin.
const NEVER: &[Step] = &[(Sleep(0), Not)];

/// Stops, deadlines and shields.
pub const TIMES: [Row; 6] = [
    Row {
        name: "a stop by a call, once the watch waits for it",
        body: Bare,
        first: &[(Mark, Done), (Sleep(50), Done), (AskStop, Done)],
        steps: ENDS,
        jobs: &[NEVER],
        stop: StopBy::Call,
        ..PLAIN
    },
    Row {
        name: "a stop by a file",
        body: Bare,
        first: &[(Mark, Done), (WriteStop, Done)],
        steps: ENDS,
        jobs: &[NEVER],
        stop: StopBy::File,
        ..PLAIN
    },
    Row {
        name: "a stop under a watch",
        body: Bare,
        steps: &[(AskStop, Done), (Sleep(60_000), Cut)],
        stop: StopBy::Watched,
        ..PLAIN
    },
    Row {
        name: "the time that is left is that of the deadline",
        body: Bare,
        steps: &[
            (Open(AwaitAll, Never), Done),
            (Remaining(0, 0), Not),
            (Close, Done),
            (Mark, Done),
            (Open(AwaitAll, MoveOnAfter(60_000)), Done),
            (Open(AwaitAll, Never), Done),
            (Remaining(50_000, 60_000), Done),
            (Move(Some(100)), Done),
            (Remaining(0, 100), Done),
            (Move(None), Done),
            (Remaining(0, 0), Not),
            (Move(Some(100)), Done),
            (Sleep(30_000), Cut),
            (Remaining(0, 0), Done),
            (Close, Done),
            (Close, Done),
            (Took(0, 9_999), Done),
        ],
        ..PLAIN
    },
    Row {
        name: "a checkpoint shows a deadline that has passed, and reads no clock without one",
        body: Bare,
        steps: &[
            (Mark, Done),
            (Looks(1_000), Not),
            (ReadAtMost(0), Done),
            (Open(AwaitAll, FailAfter(50)), Done),
            (Computes, Done),
            (Took(40, 4_999), Done),
            (Close, Done),
            (Open(Kind::All, FailAfter(50)), Done),
            (Fork(0), Done),
            (Join, Note::Timeout),
            (Close, Done),
            (Mark, Done),
            (Open(AwaitAll, FailAfter(60_000)), Done),
            (Move(Some(50)), Done),
            (Computes, Done),
            (Took(40, 4_999), Done),
            (Close, Done),
        ],
        jobs: &[&[(Computes, Done)]],
        ..PLAIN
    },
    Row {
        name: "a cancel is shown before a shield, not under it, and behind it",
        steps: &[
            (Cancel, Done),
            (Sleep(1), Cut),
            (Open(AwaitAll, Due::Shielded), Done),
            (Sleep(1), Done),
            (Close, Done),
            (Sleep(1), Cut),
        ],
        ..PLAIN
    },
];

/// What is owed for forks, and what jobs give.
pub const JOBS: [Row; 12] = [
    Row {
        name: "a body that forgets to join",
        steps: &[(Fork(0), Done), (Fork(0), Done)],
        jobs: &[QUICK],
        refused: Some(Refusal::NotJoined),
        ..PLAIN
    },
    Row {
        name: "a body that joins",
        steps: &[(Fork(0), Done), (Fork(0), Done), (Join, Done)],
        jobs: &[QUICK],
        ..PLAIN
    },
    Row {
        name: "a body that takes all",
        steps: &[
            (Value(0), Done),
            (Value(0), Done),
            (NextDone, Gave(0)),
            (NextDone, Gave(0)),
        ],
        jobs: &[QUICK],
        ..PLAIN
    },
    Row {
        name: "a body that takes one",
        steps: &[(Value(0), Done), (Value(0), Done), (NextDone, Gave(0))],
        jobs: &[QUICK],
        refused: Some(Refusal::NotJoined),
        ..PLAIN
    },
    Row {
        name: "a body that fails",
        steps: &[(Fork(0), Done), (Fork(0), Done), (Fails, Done)],
        jobs: &[QUICK],
        refused: Some(Refusal::NotBound),
        ..PLAIN
    },
    Row {
        name: "a body that forks nothing",
        ..PLAIN
    },
    Row {
        name: "a body behind a shield that forgets to join",
        body: Body::Shielded,
        steps: &[(Fork(0), Done)],
        jobs: &[QUICK],
        refused: Some(Refusal::NotJoined),
        ..PLAIN
    },
    Row {
        name: "who waits for the next end sleeps until one is over",
        steps: &[
            (Mark, Done),
            (Value(0), Done),
            (Value(1), Done),
            (Value(2), Done),
            (NextDone, Note::Failed),
            (Count(0), Done),
            (NextDone, Gave(1)),
            (Count(0), Done),
            (NextDone, Gave(2)),
            (NextDone, Not),
            (ReadAtMost(60), Done),
        ],
        jobs: &[
            &[
                (Await(0, 2), Done),
                (Sleep(100), Done),
                (Counted(0), Gave(2)),
            ],
            &[
                (Await(0, 1), Done),
                (Sleep(100), Done),
                (Counted(0), Gave(1)),
            ],
            &[(Fails, Done)],
        ],
        ..PLAIN
    },
    Row {
        name: "mapped jobs begin in order",
        steps: &[(Map(1), Done), (Counted(0), Gave(6))],
        jobs: &[
            &[(Place(0), Gave(0))],
            &[(Place(0), Gave(1))],
            &[(Place(0), Gave(2))],
            &[(Place(0), Gave(3))],
            &[(Place(0), Gave(4))],
            &[(Place(0), Gave(5))],
        ],
        ..PLAIN
    },
    Row {
        name: "no mapped job begins behind a failure",
        steps: &[(Map(2), Done), (Counted(0), Gave(2))],
        jobs: &[
            &[(Count(0), Done), (Sleep(60_000), Cut)],
            &[(Count(0), Done), (Fails, Done)],
            &[(Count(0), Done)],
            &[(Count(0), Done)],
            &[(Count(0), Done)],
            &[(Count(0), Done)],
        ],
        ..PLAIN
    },
    Row {
        name: "jobs are at hand, and then no thread rests",
        steps: FOUR_AT_ONCE,
        jobs: AT_HAND,
        keep: 0,
        most: 4,
        ..PLAIN
    },
    Row {
        name: "jobs are at hand, and then three threads rest",
        steps: FOUR_AND_THREE,
        jobs: AT_HAND,
        keep: 3,
        most: 4,
        ..PLAIN
    },
];

/// Four jobs at once, of which all have begun before one looks how many there are; with the pool's maker as many threads rest
/// as may.
const FOUR_AT_ONCE: &[Step] = &[
    (Fork(0), Done),
    (Fork(0), Done),
    (Fork(0), Done),
    (Fork(0), Done),
    (Join, Done),
    (Threads(1), Done),
];

const FOUR_AND_THREE: &[Step] = &[
    (Fork(0), Done),
    (Fork(0), Done),
    (Fork(0), Done),
    (Fork(0), Done),
    (Join, Done),
    (Threads(4), Done),
];

const AT_HAND: &[&[Step]] = &[&[
    (Count(0), Done),
    (Await(0, 4), Done),
    (AtHand, Gave(4)),
    (Count(1), Done),
    (Await(1, 4), Done),
]];
