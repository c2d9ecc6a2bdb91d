//! What there is of a realm as text: the tree of its scopes, and its journal.

ghost use Rattle.std.specs.Prelude.{◌≡◌};
ghost use Rattle.balkreyn_c.specs.{Shows, WritesOrNot, dump_text, script_text};

use crate::book::{Book, put, taken};
use crate::numbers::refused;
use crate::text::write_text;
use realm_state::RealmState;
use scope_rules::Refusal;
use script_journal::journal_of;
use std::alloc::Global;
use tree_dump::dump_of;

/// The tree of the scopes that are not closed, as JSON without blanks.
#[unsafe(no_mangle)]
pub extern "C" fn balkreyn_dump(alloc: Global, book: &mut Book, text: &mut [u8]) -> i64
    ensures text { Shows book.old.place.held (λ timed. dump_text timed.realm.history) result text.old text.new }
    ensures kept { book.new.place.held ≡ book.old.place.held }
{
    let timed = match taken(alloc, &mut book.word, &mut book.place) {
        Ok(timed) => timed,
        Err(number) => return number,
    };
    let answer = write_dump(alloc, &timed.realm, text);
    put(&mut book.word, &mut book.place, timed);
    answer
}

/// What happened since the last retirement, as a script.
#[unsafe(no_mangle)]
pub extern "C" fn balkreyn_journal(alloc: Global, book: &mut Book, text: &mut [u8]) -> i64
    ensures text { Shows book.old.place.held (λ timed. script_text timed.realm.history) result text.old text.new }
    ensures kept { book.new.place.held ≡ book.old.place.held }
{
    let timed = match taken(alloc, &mut book.word, &mut book.place) {
        Ok(timed) => timed,
        Err(number) => return number,
    };
    let answer = write_journal(alloc, &timed.realm, text);
    put(&mut book.word, &mut book.place, timed);
    answer
}

/// Writes the tree of the realm.
fn write_dump(alloc: Global, realm: &RealmState, text: &mut [u8]) -> i64
    ensures { WritesOrNot (dump_text realm.now.history) result text.old text.new }
{
    match dump_of(alloc, realm) {
        Ok(tree) => write_text(text, tree.as_bytes()),
        Err(_) => refused(Refusal::Memory),
    }
}

/// Writes the journal of the realm.
fn write_journal(alloc: Global, realm: &RealmState, text: &mut [u8]) -> i64
    ensures { WritesOrNot (script_text realm.now.history) result text.old text.new }
{
    match journal_of(alloc, realm) {
        Ok(script) => write_text(text, script.as_bytes()),
        Err(_) => refused(Refusal::Memory),
    }
}
