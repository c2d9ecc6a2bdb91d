//! The numbers by which C is answered. The header has a name for each.

ghost use Rattle.std.specs.Prelude.{◌*◌, ◌+◌, ◌<◌, ◌≡◌, pos};
ghost use Rattle.balkreyn_c.specs.{cause_number, closed, forked, kind_code, number_of, outcome_number, refused, some_number, stage_number, state_code, state_number, told_number, two, until_number};

use scope_checks::EventReply;
use scope_index::BareOutcome;
use scope_rules::{Base, Cause, CauseKind, Effective, ForkReply, Refusal, Stage, State, Verdict};

/// The book holds no realm.
pub const NO_REALM: i64 = -21;

/// The book holds a realm already.
pub const HAS_REALM: i64 = -22;

/// A text is no name, or a number is none of those that are listed.
pub const BAD_ARGUMENT: i64 = -23;

/// The line was performed, and there was no memory for its reply.
pub const UNTOLD: i64 = -24;

/// Another call works on the book.
pub const BUSY: i64 = -25;

/// The call was done, and there is no more to say.
pub const DONE: i64 = 0;

/// The refusal: from -1 to -20.
pub fn refused(refusal: Refusal) -> i64
    ensures { result ≡ refused refusal }
{
    -i64::from(refusal.number())
}

/// A kind, and the scope or task that goes with it.
fn two(kind: u8, number: u32) -> i64
    ensures { result ≡ two kind number }
{
    i64::from(kind) * 4294967296 + i64::from(number)
}

/// What a command is told.
pub fn told(answer: Result<EventReply, Refusal>) -> i64
    ensures { result ≡ number_of told_number answer }
{
    match answer {
        Ok(EventReply::Scope(scope)) => i64::from(scope),
        Ok(EventReply::Task(reply)) => forked(reply),
        Ok(EventReply::Closed(verdict)) => closed(verdict),
        Ok(EventReply::Already) => 1,
        Ok(EventReply::Recorded | EventReply::Done) => DONE,
        Err(refusal) => refused(refusal),
    }
}

/// A fork.
fn forked(reply: ForkReply) -> i64
    ensures { result ≡ forked reply }
{
    match reply {
        ForkReply::Thread(task) => i64::from(task),
        ForkReply::Never(task) => two(1, task),
    }
}

/// The end of a close.
fn closed(verdict: Verdict) -> i64
    ensures { result ≡ closed verdict }
{
    match verdict {
        Verdict::Plain => DONE,
        Verdict::NotJoined => 2,
        Verdict::Violated => 3,
    }
}

/// What a join answered, without its list.
pub fn outcome(answer: Result<BareOutcome, Refusal>) -> i64
    ensures { result ≡ number_of outcome_number answer }
{
    match answer {
        Ok(BareOutcome::All) => two(1, 0),
        Ok(BareOutcome::Any { task, value: _ }) => two(2, task),
        Ok(BareOutcome::Empty) => two(3, 0),
        Ok(BareOutcome::Done) => two(4, 0),
        Ok(BareOutcome::Failed { task, fault: _ }) => two(5, task),
        Ok(BareOutcome::List) => two(6, 0),
        Ok(BareOutcome::Timeout) => two(7, 0),
        Ok(BareOutcome::Partial) => two(8, 0),
        Ok(BareOutcome::Cancelled(scope)) => two(9, scope),
        Err(refusal) => refused(refusal),
    }
}

/// A retirement.
pub fn retired(answer: Result<Base, Refusal>) -> i64
    ensures { result ≡ number_of (λ base. pos 0) answer }
{
    match answer {
        Ok(_) => DONE,
        Err(refusal) => refused(refusal),
    }
}

/// A note of a time.
pub fn noted(answer: Result<(), Refusal>) -> i64
    ensures { result ≡ number_of (λ done. pos 0) answer }
{
    match answer {
        Ok(()) => DONE,
        Err(refusal) => refused(refusal),
    }
}

/// What can be read of a task.
pub fn state_code(state: State) -> u32
    ensures { result ≡ state_code state }
{
    match state {
        State::Unavailable => 0,
        State::Success(_) => 1,
        State::Failed(_) => 2,
    }
}

/// The same, or the refusal.
pub fn state(answer: Result<State, Refusal>) -> i64
    ensures { result ≡ number_of state_number answer }
{
    match answer {
        Ok(state) => i64::from(state_code(state)),
        Err(refusal) => refused(refusal),
    }
}

/// How far a task has come.
pub fn stage(answer: Result<Stage, Refusal>) -> i64
    ensures { result ≡ number_of stage_number answer }
{
    match answer {
        Ok(Stage::Never) => 0,
        Ok(Stage::Waiting) => 1,
        Ok(Stage::Running) => 2,
        Ok(Stage::Finished) => 3,
        Err(refusal) => refused(refusal),
    }
}

/// Why a scope is cancelled, if it is.
pub fn cause(answer: Result<Option<Cause>, Refusal>) -> i64
    ensures { result ≡ number_of cause_number answer }
{
    match answer {
        Ok(Some(cause)) => two(kind_code(cause.kind), cause.scope),
        Ok(None) => 0,
        Err(refusal) => refused(refusal),
    }
}

/// What made a cancel.
fn kind_code(kind: CauseKind) -> u8
    ensures { result ≡ kind_code kind }
{
    match kind {
        CauseKind::Call => 1,
        CauseKind::Close => 2,
        CauseKind::Joiner => 3,
        CauseKind::Deadline => 4,
    }
}

/// Which deadline is in effect.
pub fn until(answer: Result<Effective, Refusal>) -> i64
    ensures { result ≡ number_of until_number answer }
{
    match answer {
        Ok(Effective::Never) => 0,
        Ok(Effective::At(_)) => 1,
        Ok(Effective::Past) => 2,
        Err(refusal) => refused(refusal),
    }
}

/// A scope or task, or 0 if there is none.
pub fn some(number: Option<u32>) -> i64
    ensures { result ≡ some_number number }
{
    match number {
        Some(number) => i64::from(number),
        None => 0,
    }
}

/// The same, or the refusal.
pub fn some_answer(answer: Result<Option<u32>, Refusal>) -> i64
    ensures { result ≡ number_of some_number answer }
{
    match answer {
        Ok(number) => some(number),
        Err(refusal) => refused(refusal),
    }
}
