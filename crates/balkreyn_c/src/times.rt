//! When events happened: the host notes its clock's readings, and the journal says them.
ghost use Rattle.std.specs.Prelude.{◌≡◌, IfOk, string_bytes};
ghost use Rattle.balkreyn_c.specs.{NotesTime, Shows, WritesOrNot, timed_text};

use crate::book::{Book, put, taken};
use crate::numbers::{noted, refused};
use crate::text::write_text;
use crate::timed::TimedRealm;
use scope_rules::Refusal;
use script_journal::timed_script;
use std::alloc::{AllocError, Global};

/// Each event since the last note happened by this reading of the host's clock, in milliseconds.
#[unsafe(no_mangle)]
pub extern "C" fn balkreyn_note(alloc: Global, book: &mut Book, now: u64) -> i64
    ensures { NotesTime book.old.place.held now result book.new.place.held }
{
    let mut timed = match taken(alloc, &mut book.word, &mut book.place) {
        Ok(timed) => timed,
        Err(number) => return number,
    };
    let answer = noted(timed.note(now));
    put(&mut book.word, &mut book.place, timed);
    answer
}

/// The journal with the readings that were noted, and behind all of it this one.
#[unsafe(no_mangle)]
pub extern "C" fn balkreyn_timed_journal(
    alloc: Global,
    book: &mut Book,
    now: u64,
    text: &mut [u8],
) -> i64
    ensures text { Shows book.old.place.held (λ timed. timed_text timed.realm.history timed.times.items now) result text.old text.new }
    ensures kept { book.new.place.held ≡ book.old.place.held }
{
    let timed = match taken(alloc, &mut book.word, &mut book.place) {
        Ok(timed) => timed,
        Err(number) => return number,
    };
    let answer = write_timed(alloc, &timed, now, text);
    put(&mut book.word, &mut book.place, timed);
    answer
}

/// Writes the journal with times.
fn write_timed(alloc: Global, timed: &TimedRealm, now: u64, text: &mut [u8]) -> i64
    ensures { WritesOrNot (timed_text timed.now.realm.history timed.now.times.items now) result text.old text.new }
{
    match script_with_times(alloc, timed, now) {
        Ok(script) => write_text(text, script.as_bytes()),
        Err(_) => refused(Refusal::Memory),
    }
}

/// The script of the realm's history with its times. It is refused for memory alone.
fn script_with_times(alloc: Global, timed: &TimedRealm, now: u64) -> Result<String, AllocError>
    ensures { IfOk result (λ text. string_bytes text ≡ timed_text timed.now.realm.history timed.now.times.items now) }
{
    let events = timed.realm.copied_events(alloc)?;
    timed_script(
        alloc,
        timed.realm.base(),
        events.as_slice(),
        timed.times.as_slice(),
        now,
    )
}
