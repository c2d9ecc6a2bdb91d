//! Text that goes out through a buffer of the caller's.

ghost use Rattle.std.specs.Prelude.{◌≡◌, MatchResult, length, pos};
ghost use Rattle.balkreyn_c.specs.{OutcomeLine, TellsLine, Writes, reply_line, text_in};

use crate::book::{Book, put, taken};
use crate::numbers::refused;
use arrayvec::ArrayString;
use realm_state::RealmState;
use scope_checks::queries;
use scope_rules::{Refusal, ScopeId};
use script_words::Reply;
use std::alloc::{AllocError, Global};
use std::fmt::Write;

/// How many bytes a line may have, with its line feed, that takes no memory. Only the lists of tasks that a join
/// gives may be longer.
const SHORT_LINE: usize = 96;

/// Writes the text to the buffer's head if there is room for all of it, and answers its length.
pub fn write_text(buffer: &mut [u8], text: &[u8]) -> i64
    ensures answer { result ≡ pos (length text.now) }
    ensures text { buffer.new ≡ text_in text.now buffer.old }
{
    if text.len() <= buffer.len() {
        buffer[..text.len()].copy_from_slice(text);
    }
    text.len() as i64
}

/// Writes the line of the reply, with its line feed. If memory is refused, nothing is written.
pub fn write_line(alloc: Global, reply: &Reply, buffer: &mut [u8]) -> Result<i64, AllocError>
    ensures { MatchResult result (λ answer. Writes (reply_line reply.now) answer buffer.old buffer.new) (λ _. buffer.new ≡ buffer.old) }
{
    let mut line = ArrayString::<SHORT_LINE>::new();
    match writeln!(line, "{reply}") {
        Ok(()) => Ok(write_text(buffer, line.as_bytes())),
        Err(_) => write_long_line(alloc, reply, buffer),
    }
}

/// Writes the line of the reply, of any length.
fn write_long_line(alloc: Global, reply: &Reply, buffer: &mut [u8]) -> Result<i64, AllocError>
    ensures { MatchResult result (λ answer. Writes (reply_line reply.now) answer buffer.old buffer.new) (λ _. buffer.new ≡ buffer.old) }
{
    let line = format!(in alloc; "{reply}\n")?;
    Ok(write_text(buffer, line.as_bytes()))
}

/// The line of what the join of the scope answered.
#[unsafe(no_mangle)]
pub extern "C" fn balkreyn_outcome_line(
    alloc: Global,
    book: &mut Book,
    scope: u32,
    text: &mut [u8],
) -> i64
    ensures line { OutcomeLine book.old.place.held scope result text.old text.new }
    ensures kept { book.new.place.held ≡ book.old.place.held }
{
    let timed = match taken(alloc, &mut book.word, &mut book.place) {
        Ok(timed) => timed,
        Err(number) => return number,
    };
    let answer = write_outcome(alloc, &timed.realm, scope, text);
    put(&mut book.word, &mut book.place, timed);
    answer
}

/// Writes the line of what the join of the scope answered.
#[tactic(auto, using(crate::proofs::Lines::line_told, crate::proofs::Lines::line_untold))]
fn write_outcome(alloc: Global, realm: &RealmState, scope: ScopeId, text: &mut [u8]) -> i64
    ensures { TellsLine realm.now.history scope result text.old text.new }
{
    match queries::outcome(realm, alloc, scope) {
        Ok(outcome) => match write_line(alloc, &Reply::Outcome(outcome), text) {
            Ok(length) => length,
            Err(_) => refused(Refusal::Memory),
        },
        Err(refusal) => refused(refusal),
    }
}
