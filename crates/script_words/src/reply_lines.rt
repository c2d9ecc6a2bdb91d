//! The line of a reply.
ghost use Rattle.std.specs.Prelude.{[], ◌++◌, ◌+◌, ◌∷◌, ◌≡◌, ◌≤◌, OnErr, OnOk, Some, false, length, true, vec_capacity, vec_len};
ghost use Rattle.script_words.specs.{counts_line, decimal, reply_text};

use crate::parts::ShownCounts;
use crate::reply::Reply;
use arrayvec::ArrayString;
use itoa::{Buffer, Integer};
use scope_rules::{Counts, Effective, ForkReply, Stage, State, Verdict};
use std::alloc::AllocError;
use std::fmt;
use std::fmt::{Display, Write};

/// The line of the reply, without the line feed.
impl fmt::Display for Reply {
    ghost output = { λ r. Some (reply_text r) };

    #[tactic(auto, unfolding(crate::specs::ReplyText::reply_text))]
    fn fmt<W: fmt::Write>(&self, f: &mut fmt::Formatter<W>) -> fmt::Result {
        let words = match self {
            Reply::Rejected => "rejected",
            Reply::Started => "started",
            Reply::Finished => "finished",
            Reply::Cancelled => "cancelled",
            Reply::Already => "already",
            Reply::Moved => "moved",
            Reply::Bound => "bound",
            Reply::Unbound => "unbound",
            Reply::Closing => "closing",
            Reply::Closed(Verdict::Plain) => "closed",
            Reply::Closed(Verdict::NotJoined) => "closed not-joined",
            Reply::Closed(Verdict::Violated) => "closed violated",
            Reply::Cause(None) => "live",
            Reply::Until(Effective::Past) => "past",
            Reply::Until(Effective::Never) => "never",
            Reply::Scope(scope) => return write!(f, "scope {scope}"),
            Reply::Task(ForkReply::Thread(task)) => return write!(f, "task {task} thread"),
            Reply::Task(ForkReply::Never(task)) => return write!(f, "task {task} none"),
            Reply::Moment(moment) => return write!(f, "moment {moment}"),
            Reply::Outcome(outcome) => return write!(f, "outcome {outcome}"),
            Reply::Retired { scopes, tasks } => return write!(f, "retired {scopes} {tasks}"),
            Reply::State(state) => return write!(f, "state {}", state.word()),
            Reply::Stage(stage) => return write!(f, "stage {}", stage.word()),
            Reply::Value(value) => return write!(f, "value {value}"),
            Reply::Fault(fault) => return write!(f, "fault {fault}"),
            Reply::Cause(Some(cause)) => {
                return write!(f, "cancelled {} {}", cause.scope, cause.kind.word());
            }
            Reply::Until(Effective::At(moment)) => return write!(f, "at {moment}"),
            Reply::Counts(counts) => return ShownCounts(*counts).fmt(f),
            Reply::Refused(refusal) => return refusal.fmt(f),
        };
        f.write_str(words)
    }
}

/// How many bytes a line may have, with its line feed, that is put together with no memory of its own. Counts
/// take at most 82; only the lists of tasks that a join gives may be longer.
const SHORT_LINE: usize = 96;

/// Appends the line of the reply, and its line feed. If memory is refused, nothing is appended.
pub fn append_line(text: &mut Vec<u8>, reply: &Reply) -> Result<(), AllocError>
    ensures ok { OnOk result (text.new.items ≡ text.old.items ++ reply_text reply.now ++ 10 ∷ []) }
    ensures err { OnErr result (text.new.items ≡ text.old.items) }
{
    text.reserve(SHORT_LINE)?;
    if push_usual_line(text, reply) {
        return Ok(());
    }
    append_written_line(text, reply)
}

/// Appends the line, with its line feed, of a reply that is words and numbers of its own, and says that it did. Of
/// a rare one, and of any other, it appends nothing.
#[tactic(auto, unfolding(crate::specs::ReplyText::reply_text))]
fn push_usual_line(text: &mut Vec<u8>, reply: &Reply) -> bool
    requires room { vec_len text.old + SHORT_LINE ≤ vec_capacity text.old }
    ensures appended { result ≡ true → text.new.items ≡ text.old.items ++ reply_text reply.now ++ 10 ∷ [] }
    ensures kept { result ≡ false → text.new.items ≡ text.old.items }
{
    match reply {
        Reply::Started => pushed(text, b"started\n"),
        Reply::Finished => pushed(text, b"finished\n"),
        Reply::Cancelled => pushed(text, b"cancelled\n"),
        Reply::Moved => pushed(text, b"moved\n"),
        Reply::Bound => pushed(text, b"bound\n"),
        Reply::Unbound => pushed(text, b"unbound\n"),
        Reply::Closing => pushed(text, b"closing\n"),
        Reply::Closed(Verdict::Plain) => pushed(text, b"closed\n"),
        Reply::Cause(None) => pushed(text, b"live\n"),
        Reply::State(State::Unavailable) => pushed(text, b"state unavailable\n"),
        Reply::State(State::Success(_)) => pushed(text, b"state success\n"),
        Reply::State(State::Failed(_)) => pushed(text, b"state failed\n"),
        Reply::Stage(Stage::Waiting) => pushed(text, b"stage waiting\n"),
        Reply::Stage(Stage::Running) => pushed(text, b"stage running\n"),
        Reply::Stage(Stage::Finished) => pushed(text, b"stage finished\n"),
        Reply::Scope(scope) => {
            push_number(text, b"scope ", *scope);
            pushed(text, b"\n")
        }
        Reply::Moment(moment) => {
            push_number(text, b"moment ", *moment);
            pushed(text, b"\n")
        }
        Reply::Task(ForkReply::Thread(task)) => {
            push_number(text, b"task ", *task);
            pushed(text, b" thread\n")
        }
        Reply::Task(ForkReply::Never(task)) => {
            push_number(text, b"task ", *task);
            pushed(text, b" none\n")
        }
        Reply::Counts(counts) => {
            push_counts(text, counts);
            true
        }
        _ => false,
    }
}

/// Appends the end of a line, for which there must be room, and says so.
#[inline(always)]
fn pushed(text: &mut Vec<u8>, bytes: &[u8]) -> bool
    requires room { vec_len text.old + length bytes.now ≤ vec_capacity text.old }
    ensures done { result ≡ true }
    ensures bytes { text.new.items ≡ text.old.items ++ bytes.now }
{
    push_bytes(text, bytes);
    true
}

/// Appends the line of the counts, with its line feed. There must be room for it.
fn push_counts(text: &mut Vec<u8>, counts: &Counts)
    requires room { vec_len text.old + SHORT_LINE ≤ vec_capacity text.old }
    ensures { text.new.items ≡ text.old.items ++ counts_line counts.now ++ 10 ∷ [] }
{
    push_count(text, b"counts never=", counts.never);
    push_count(text, b" waiting=", counts.waiting);
    push_count(text, b" running=", counts.running);
    push_count(text, b" finished=", counts.finished);
    push_bytes(text, b"\n");
}

/// Appends the words, and then the count, which is often one digit. There must be room for both.
#[inline(always)]
#[tactic(auto, using(std::proofs::lemmas::Fmt::decimal_digit))]
fn push_count(text: &mut Vec<u8>, words: &[u8], count: u32)
    requires room { vec_len text.old + length words.now + 10 ≤ vec_capacity text.old }
    ensures bytes { text.new.items ≡ text.old.items ++ words.now ++ decimal count }
    ensures len { vec_len text.new ≤ vec_len text.old + length words.now + 10 }
    ensures capacity { vec_capacity text.old ≤ vec_capacity text.new }
{
    if count >= 10 {
        push_number(text, words, count);
        return;
    }
    push_bytes(text, words);
    text.push_reserved(b'0' + count as u8);
}

/// Appends the words, and then the number. There must be room for both.
#[inline(always)]
fn push_number<I: Integer>(text: &mut Vec<u8>, words: &[u8], number: I)
    requires room { vec_len text.old + length words.now + I.MAX_STR_LEN ≤ vec_capacity text.old }
    ensures bytes { text.new.items ≡ text.old.items ++ words.now ++ I.text number }
    ensures len { vec_len text.new ≤ vec_len text.old + length words.now + I.MAX_STR_LEN }
    ensures capacity { vec_capacity text.old ≤ vec_capacity text.new }
{
    push_bytes(text, words);
    push_digits(text, number);
}

/// Appends the number. There must be room for it.
#[inline(never)]
fn push_digits<I: Integer>(text: &mut Vec<u8>, number: I)
    requires room { vec_len text.old + I.MAX_STR_LEN ≤ vec_capacity text.old }
    ensures bytes { text.new.items ≡ text.old.items ++ I.text number }
    ensures len { vec_len text.new ≤ vec_len text.old + I.MAX_STR_LEN }
    ensures capacity { vec_capacity text.old ≤ vec_capacity text.new }
{
    push_bytes(text, Buffer::new().format(number).as_bytes());
}

/// Appends the bytes. There must be room for them.
#[inline(always)]
fn push_bytes(text: &mut Vec<u8>, bytes: &[u8])
    requires room { vec_len text.old + length bytes.now ≤ vec_capacity text.old }
    ensures bytes { text.new.items ≡ text.old.items ++ bytes.now }
    ensures len { vec_len text.new ≡ vec_len text.old + length bytes.now }
    ensures capacity { vec_capacity text.old ≤ vec_capacity text.new }
{
    let _there_is_room = text.extend_from_slice(bytes);
}

/// Appends the line of the reply, whichever it is, and its line feed.
#[inline(never)]
fn append_written_line(text: &mut Vec<u8>, reply: &Reply) -> Result<(), AllocError>
    ensures ok { OnOk result (text.new.items ≡ text.old.items ++ reply_text reply.now ++ 10 ∷ []) }
    ensures err { OnErr result (text.new.items ≡ text.old.items) }
{
    let mut line = ArrayString::<SHORT_LINE>::new();
    match writeln!(line, "{reply}") {
        Ok(()) => text.extend_from_slice(line.as_bytes()),
        Err(_) => append_long_line(text, reply),
    }
}

/// Appends the line of the reply, of any length, and its line feed.
fn append_long_line(text: &mut Vec<u8>, reply: &Reply) -> Result<(), AllocError>
    ensures ok { OnOk result (text.new.items ≡ text.old.items ++ reply_text reply.now ++ 10 ∷ []) }
    ensures err { OnErr result (text.new.items ≡ text.old.items) }
{
    let long_line = format!(in *text.allocator(); "{reply}\n")?;
    text.extend_from_slice(long_line.as_bytes())
}
