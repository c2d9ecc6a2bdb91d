//! What the actors of a service do, and what comes of it: rows of data, which `playing` plays.

use balkreyn::Refusal;

/// What is done, and what it is to come to.
pub type Step = (Act, Note);

/// A count on the board.
pub type Cell = usize;

/// What an actor does. A scope is the innermost one that it has opened, or the one that it is given.
#[derive(Clone, Copy)]
pub enum Act {
    /// Opens a scope within.
    Open(Kind, Due),
    Close,
    Join,
    Cancel,
    /// Notes its scope in the cell.
    Owns(Cell),
    /// Cancels the scope that is noted there.
    CancelOf(Cell),
    /// Moves the deadline of the outermost scope that it has opened to so many milliseconds from now, or takes it away.
    Move(Option<u64>),
    /// Whether so many milliseconds are left at least, and so many at most.
    Remaining(u64, u64),
    /// Looks for a mark, so often at most.
    Looks(u32),
    /// Computes until a deadline is shown.
    Computes,
    Retire,
    /// Gives up.
    Fails,
    /// Forks the job with this place.
    Fork(usize),
    /// Forks it, and hands its own halves over, or shares them.
    Hand(usize),
    Share(usize),
    /// Forks it for its value.
    Value(usize),
    NextDone,
    /// Maps all jobs, so many at a time.
    Map(u32),
    Sleep(u64),
    /// Sends into the channel that is empty at first.
    Send(u64),
    Receive,
    /// Sends into the channel that has room for one.
    Fill(u64),
    Drain,
    DropHalves,
    Permit,
    GiveBack,
    /// Takes a permit so often, and drops it.
    Takes(u64),
    /// Takes the permit again and again, and counts that in the first cell, until something is counted in the second.
    Greedy(Cell, Cell),
    /// Waits at a bell that nobody rings.
    Ring,
    /// Sends so many numbers from the first on, each within no more than two milliseconds; one that comes back is counted.
    SendEach(u64, u64),
    /// Receives until the channel is closed, and counts what comes.
    ReceiveAll,
    Count(Cell),
    /// Counts, and gives how much was counted before.
    Place(Cell),
    Counted(Cell),
    /// Notes how much is counted.
    Recall(Cell),
    /// Whether no more than so much was counted since then.
    MoreAtMost(Cell, u64),
    /// Waits until so much is counted.
    Await(Cell, u64),
    /// How many cells from the first on were counted just once.
    Once(u64),
    /// Notes the time, and how often the clock was read.
    Mark,
    /// Whether it was read so often at most since then.
    ReadAtMost(u64),
    /// Whether between so many milliseconds have passed since then.
    Took(u64, u64),
    /// Notes in the cell how often the clock will have been read once it waits in line.
    InLine(Cell),
    /// Waits until it was read so often.
    AwaitLine(Cell),
    /// Whether the tree has these words.
    Says(&'static str),
    /// Whether the tree has the first of these behind this task, and the one with times has the last.
    SaysOf(&'static str, (&'static str, &'static str)),
    AskStop,
    /// Asks for the stop by its file.
    WriteStop,
    AtHand,
    /// Whether the process comes to have so many threads more than before the service, and stays there.
    Threads(u64),
}

/// What comes of it.
#[derive(Clone, Copy, PartialEq, Eq)]
pub enum Note {
    Done,
    /// It isn't so, there is none, or it was so before.
    Not,
    Gave(u64),
    /// A cancel or a deadline came first, or is shown.
    Cut,
    /// The channel is closed, and a value came back.
    Shut,
    /// The outcome of a join: all succeeded, the first did, one failed, and so on.
    All,
    Any,
    Failed,
    Timeout,
    Partial,
    Cancelled,
    Refused(Refusal),
}

/// A joiner.
#[derive(Clone, Copy)]
pub enum Kind {
    All,
    Any,
    AwaitAll,
}

/// The options of a scope.
#[derive(Clone, Copy)]
pub enum Due {
    Never,
    FailAfter(u64),
    MoveOnAfter(u64),
    Shielded,
}

/// In what main plays: in no scope, in one of `scope` that has so much time, or in one of `shielded`.
#[derive(Clone, Copy)]
pub enum Body {
    Bare,
    InScope(Due),
    Shielded,
}

/// What stops the service, if anything may.
#[derive(Clone, Copy)]
pub enum StopBy {
    Nothing,
    Call,
    File,
    /// A call, and the service is under a watch.
    Watched,
}

/// A service: what main does, and its jobs.
#[derive(Clone, Copy)]
pub struct Row {
    pub name: &'static str,
    pub body: Body,
    /// What main does first, and then.
    pub first: &'static [Step],
    pub steps: &'static [Step],
    pub jobs: &'static [&'static [Step]],
    /// What the body is refused.
    pub refused: Option<Refusal>,
    /// How many cancels are heard of: by a call, a close, a joiner and a deadline.
    pub heard: Option<(u64, u64, u64, u64)>,
    pub stop: StopBy,
    /// How often it is played.
    pub rounds: u32,
    /// How much room the channels have: the one that is empty, and the other.
    pub rooms: (usize, usize),
    pub permits: u32,
    /// How many threads may be idle.
    pub keep: usize,
    /// How many jobs may be at hand.
    pub most: u64,
}

/// A row without steps.
pub const PLAIN: Row = Row {
    name: "plain",
    body: Body::InScope(Due::Never),
    first: &[],
    steps: &[],
    jobs: &[],
    refused: None,
    heard: None,
    stop: StopBy::Nothing,
    rounds: 1,
    rooms: (4, 1),
    permits: 1,
    keep: 4,
    most: 100,
};
