//! Services whose jobs wait for one another at channels and limiters, as rows.

use super::steps::Act::*;
use super::steps::Body::{Bare, InScope};
use super::steps::Due::{MoveOnAfter, Never};
use super::steps::Kind::AwaitAll;
use super::steps::Note::{Cut, Done, Gave, Not, Shut};
use super::steps::{Note, PLAIN, Row, Step, StopBy};
use balkreyn::Refusal;

/// Main holds the permit while three jobs begin to wait, and for a tenth of a second more, in which the clock is read seldom.
const HOLDS: &[Step] = &[
    (Permit, Done),
    (Fill(5), Done),
    (Fork(0), Done),
    (Await(0, 1), Done),
    (Sleep(20), Done),
    (Fork(1), Done),
    (Await(0, 2), Done),
    (Sleep(20), Done),
    (Fork(2), Done),
    (Await(0, 3), Done),
    (Sleep(20), Done),
    (Mark, Done),
    (Sleep(100), Done),
    (ReadAtMost(20), Done),
];

/// One waits for a value, one for room, and one for a permit, and all are cut off.
const CUT_OFF: &[&[Step]] = &[
    &[(Count(0), Done), (Receive, Cut)],
    &[(Count(0), Done), (Fill(6), Cut)],
    &[(Count(0), Done), (Permit, Cut)],
];

/// Who waits sleeps until it is woken.
pub const WOKEN: [Row; 4] = [
    Row {
        name: "woken by what it waits for",
        body: InScope(MoveOnAfter(5_000)),
        first: HOLDS,
        steps: &[
            (GiveBack, Done),
            (Send(7), Done),
            (Drain, Gave(5)),
            (Join, Done),
        ],
        jobs: &[
            &[(Count(0), Done), (Receive, Gave(7))],
            &[(Count(0), Done), (Fill(6), Done)],
            &[(Count(0), Done), (Permit, Done)],
        ],
        ..PLAIN
    },
    Row {
        name: "woken by a close",
        body: InScope(MoveOnAfter(5_000)),
        first: HOLDS,
        steps: &[(GiveBack, Done), (DropHalves, Done), (Join, Done)],
        jobs: &[
            &[(Count(0), Done), (Receive, Shut)],
            &[(Count(0), Done), (Fill(6), Shut)],
            &[(Count(0), Done), (Permit, Done)],
        ],
        ..PLAIN
    },
    Row {
        name: "woken by a cancel, and by nothing else",
        body: InScope(MoveOnAfter(600_000)),
        first: HOLDS,
        steps: &[(Cancel, Done), (GiveBack, Done), (Join, Note::Cancelled)],
        jobs: CUT_OFF,
        ..PLAIN
    },
    Row {
        name: "woken by a deadline",
        body: InScope(MoveOnAfter(400)),
        first: HOLDS,
        steps: &[(Sleep(5_000), Cut), (GiveBack, Done), (Join, Note::Partial)],
        jobs: CUT_OFF,
        ..PLAIN
    },
];

/// Two who wait, of whom the first is cancelled just before there is something for one; the permit comes back behind it.
const TWO_WAIT: &[Step] = &[
    (Permit, Done),
    (Fill(5), Done),
    (Fork(0), Done),
    (Await(0, 1), Done),
    (Sleep(2), Done),
    (Fork(1), Done),
    (Await(0, 2), Done),
    (Sleep(2), Done),
    (CancelOf(1), Done),
];

/// What comes goes to who waits first, alone, and who is cancelled as it is woken passes that on.
pub const HANDING: [Row; 4] = [
    Row {
        name: "handing values over in the order of asking",
        body: InScope(MoveOnAfter(5_000)),
        first: &[
            (Fork(0), Done),
            (Await(0, 1), Done),
            (Sleep(20), Done),
            (Fork(1), Done),
            (Await(0, 2), Done),
            (Sleep(20), Done),
            (Fork(2), Done),
            (Await(0, 3), Done),
            (Sleep(20), Done),
            (Fork(3), Done),
            (Await(0, 4), Done),
            (Sleep(20), Done),
        ],
        steps: &[
            (Send(0), Done),
            (Sleep(30), Done),
            (Counted(1), Gave(1)),
            (Send(1), Done),
            (Sleep(30), Done),
            (Counted(1), Gave(2)),
            (Send(2), Done),
            (Sleep(30), Done),
            (Counted(1), Gave(3)),
            (Send(3), Done),
            (Sleep(30), Done),
            (Counted(1), Gave(4)),
            (Join, Done),
        ],
        jobs: &[
            &[(Count(0), Done), (Receive, Gave(0)), (Count(1), Done)],
            &[(Count(0), Done), (Receive, Gave(1)), (Count(1), Done)],
            &[(Count(0), Done), (Receive, Gave(2)), (Count(1), Done)],
            &[(Count(0), Done), (Receive, Gave(3)), (Count(1), Done)],
        ],
        ..PLAIN
    },
    Row {
        name: "handing a value on",
        body: InScope(MoveOnAfter(5_000)),
        first: TWO_WAIT,
        steps: &[(Send(7), Done), (GiveBack, Done), (Join, Done)],
        jobs: &[
            &[
                (Open(AwaitAll, Never), Done),
                (Owns(1), Done),
                (Count(0), Done),
                (Receive, Cut),
                (Close, Done),
            ],
            &[(Count(0), Done), (Receive, Gave(7))],
        ],
        rounds: 40,
        ..PLAIN
    },
    Row {
        name: "handing room on",
        body: InScope(MoveOnAfter(5_000)),
        first: TWO_WAIT,
        steps: &[(Drain, Gave(5)), (GiveBack, Done), (Join, Done)],
        jobs: &[
            &[
                (Open(AwaitAll, Never), Done),
                (Owns(1), Done),
                (Count(0), Done),
                (Fill(6), Cut),
                (Close, Done),
            ],
            &[(Count(0), Done), (Fill(6), Done)],
        ],
        rounds: 40,
        ..PLAIN
    },
    Row {
        name: "handing a permit on",
        body: InScope(MoveOnAfter(5_000)),
        first: TWO_WAIT,
        steps: &[(GiveBack, Done), (Join, Done)],
        jobs: &[
            &[
                (Open(AwaitAll, Never), Done),
                (Owns(1), Done),
                (Count(0), Done),
                (Permit, Cut),
                (Close, Done),
            ],
            &[(Count(0), Done), (Permit, Done)],
        ],
        rounds: 40,
        ..PLAIN
    },
];

/// Who comes newly gets in line behind who waits, each channel has room for one value, and a closed one gives what is left.
pub const LINES: [Row; 5] = [
    Row {
        name: "a value that is left in a closed channel",
        body: InScope(MoveOnAfter(10_000)),
        steps: &[
            (Send(1), Done),
            (DropHalves, Done),
            (Receive, Gave(1)),
            (Receive, Shut),
        ],
        ..PLAIN
    },
    Row {
        name: "room in a channel that is to have none",
        body: InScope(MoveOnAfter(0)),
        steps: &[(Fill(1), Done)],
        rooms: (0, 0),
        ..PLAIN
    },
    Row {
        name: "a value for who is in line",
        body: InScope(MoveOnAfter(10_000)),
        steps: &[
            (Fork(0), Done),
            (Count(0), Done),
            (AwaitLine(1), Done),
            (Open(AwaitAll, MoveOnAfter(0)), Done),
            (Send(1), Done),
            (Receive, Cut),
            (Close, Done),
            (Join, Done),
        ],
        jobs: &[&[(Await(0, 1), Done), (InLine(1), Done), (Receive, Gave(1))]],
        rooms: (1, 1),
        rounds: 8,
        ..PLAIN
    },
    Row {
        name: "room for who is in line",
        body: InScope(MoveOnAfter(10_000)),
        steps: &[
            (Fill(1), Done),
            (Fork(0), Done),
            (Count(0), Done),
            (AwaitLine(1), Done),
            (Open(AwaitAll, MoveOnAfter(0)), Done),
            (Drain, Gave(1)),
            (Fill(3), Cut),
            (Close, Done),
            (Join, Done),
        ],
        jobs: &[&[(Await(0, 1), Done), (InLine(1), Done), (Fill(2), Done)]],
        rounds: 8,
        ..PLAIN
    },
    Row {
        name: "fairness beside one who asks for a permit again and again",
        body: InScope(MoveOnAfter(8_000)),
        steps: &[
            (Fork(0), Done),
            (Sleep(20), Done),
            (Recall(0), Done),
            (Permit, Done),
            (MoreAtMost(0, 2), Done),
            (Count(1), Done),
            (GiveBack, Done),
            (Join, Done),
        ],
        jobs: &[&[(Greedy(0, 1), Done)]],
        rounds: 10,
        ..PLAIN
    },
];

/// Two who wait for a value, and one who waits for room, are told that the channel is closed, by a job that drops the halves,
/// or are told so if they come behind that.
const TOLD: &[&[Step]] = &[
    &[(Receive, Shut)],
    &[(Fill(7), Shut)],
    &[(DropHalves, Done)],
];

const THREE_WAIT: &[Step] = &[
    (Fill(6), Done),
    (Fork(0), Done),
    (Fork(0), Done),
    (Fork(1), Done),
];

/// Many at once: halves that are dropped, permits, and numbers of which some are cancelled on the way.
pub const CROWDS: [Row; 5] = [
    Row {
        name: "halves that are dropped at once",
        body: InScope(MoveOnAfter(5_000)),
        first: THREE_WAIT,
        steps: &[(Hand(2), Done), (Join, Done)],
        jobs: TOLD,
        rounds: 50,
        ..PLAIN
    },
    Row {
        name: "halves that are dropped a millisecond later",
        body: InScope(MoveOnAfter(5_000)),
        first: THREE_WAIT,
        steps: &[(Sleep(1), Done), (Hand(2), Done), (Join, Done)],
        jobs: TOLD,
        rounds: 50,
        ..PLAIN
    },
    Row {
        name: "halves that are dropped two milliseconds later",
        body: InScope(MoveOnAfter(5_000)),
        first: THREE_WAIT,
        steps: &[(Sleep(2), Done), (Hand(2), Done), (Join, Done)],
        jobs: TOLD,
        rounds: 50,
        ..PLAIN
    },
    Row {
        name: "permits that are dropped by the thousand",
        body: InScope(MoveOnAfter(20_000)),
        steps: &[
            (Fork(0), Done),
            (Fork(0), Done),
            (Fork(0), Done),
            (Fork(0), Done),
            (Fork(0), Done),
            (Fork(0), Done),
            (Join, Done),
        ],
        jobs: &[&[(Takes(500), Gave(500))]],
        permits: 2,
        keep: 8,
        ..PLAIN
    },
    Row {
        name: "each number is received once, or comes back",
        body: InScope(MoveOnAfter(20_000)),
        steps: &[
            (Fork(0), Done),
            (Fork(0), Done),
            (Fork(0), Done),
            (Share(1), Done),
            (Share(2), Done),
            (Share(3), Done),
            (Share(4), Done),
            (DropHalves, Done),
            (Join, Done),
            (Once(160), Gave(160)),
        ],
        jobs: &[
            &[(ReceiveAll, Done)],
            &[(SendEach(0, 40), Done)],
            &[(SendEach(40, 40), Done)],
            &[(SendEach(80, 40), Done)],
            &[(SendEach(120, 40), Done)],
        ],
        rooms: (2, 1),
        keep: 8,
        ..PLAIN
    },
];

/// In which calls three jobs wait, in the first history of the realm, and in the next.
const THREE_CALLS: Row = Row {
    name: "a tree says at what its jobs wait",
    body: Bare,
    first: &[
        (Open(AwaitAll, Never), Done),
        (Permit, Done),
        (Fill(5), Done),
        (Fork(0), Done),
        (Fork(1), Done),
        (Fork(2), Done),
        (Await(0, 3), Done),
        (Sleep(40), Done),
        (SaysOf("task 1 ", AT_RECEIVE), Done),
        (SaysOf("task 2 ", AT_SEND), Done),
        (SaysOf("task 3 ", AT_PERMIT), Done),
        (Says("main waits"), Not),
        (Cancel, Done),
        (GiveBack, Done),
        (Join, Note::Cancelled),
        (Close, Done),
    ],
    steps: &[
        (Retire, Done),
        (Open(AwaitAll, Never), Done),
        (Permit, Done),
        (Fork(0), Done),
        (Fork(1), Done),
        (Fork(2), Done),
        (Await(0, 6), Done),
        (Sleep(40), Done),
        (SaysOf("task 4 ", AT_RECEIVE), Done),
        (SaysOf("task 5 ", AT_SEND), Done),
        (SaysOf("task 6 ", AT_PERMIT), Done),
        (Says("main waits"), Not),
        (Cancel, Done),
        (GiveBack, Done),
        (Join, Note::Cancelled),
        (Close, Done),
    ],
    jobs: CUT_OFF,
    ..PLAIN
};

const AT_RECEIVE: (&str, &str) = (", waits in receive", ", waits in receive for ");

const AT_SEND: (&str, &str) = (", waits in send", ", waits in send for ");

const AT_PERMIT: (&str, &str) = (", waits in permit", ", waits in permit for ");

/// A tree says in which call each of its actors waits. A job looks at it once main has had time to wait, or once it is cut off.
pub const TREES: [Row; 5] = [
    THREE_CALLS,
    Row {
        name: "a tree says that main waits in a join, and the watch for a stop",
        body: InScope(MoveOnAfter(400)),
        steps: &[(Fork(0), Done), (Join, Done)],
        jobs: &[&[
            (Sleep(40), Done),
            (Says("stop: running, waits in stop\n"), Done),
            (Says(", main waits in join\n"), Done),
        ]],
        stop: StopBy::Call,
        ..PLAIN
    },
    Row {
        name: "a tree says that main waits in a close",
        body: InScope(MoveOnAfter(400)),
        steps: &[(Fork(0), Done), (Await(0, 1), Done)],
        jobs: &[&[
            (Count(0), Done),
            (Sleep(10_000), Cut),
            (Says(", main waits in close\n"), Done),
        ]],
        refused: Some(Refusal::NotJoined),
        stop: StopBy::Call,
        ..PLAIN
    },
    Row {
        name: "a tree says that main waits for the next end",
        body: InScope(MoveOnAfter(400)),
        steps: &[(Value(0), Done), (NextDone, Gave(0))],
        jobs: &[&[
            (Sleep(40), Done),
            (Says(", main waits in next_done\n"), Done),
        ]],
        stop: StopBy::Call,
        ..PLAIN
    },
    Row {
        name: "a tree says that main waits for a ring, which a deadline ends",
        body: InScope(MoveOnAfter(400)),
        steps: &[(Fork(0), Done), (Ring, Cut)],
        jobs: &[&[
            (Sleep(40), Done),
            (Says(", main waits in wait_rung\n"), Done),
        ]],
        refused: Some(Refusal::NotJoined),
        stop: StopBy::Call,
        ..PLAIN
    },
];
