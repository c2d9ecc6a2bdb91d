//! A realm is opened in a book, and closed.

ghost use Rattle.std.specs.Prelude.{◌≡◌, ◌⊎◌, MatchResult, None, Some, pos};
ghost use Rattle.balkreyn_c.specs.{IsFresh, IsRefused, OpensBook, WantsMemory, closing_number};

use crate::book::{Book, EMPTY, FULL, WORKING, put, taken};
use crate::numbers::{BAD_ARGUMENT, BUSY, DONE, HAS_REALM, refused};
use crate::timed::TimedRealm;
use crate::word::{rest, swapped};
use scope_rules::{Limits, Refusal};
use std::alloc::Global;

/// The number of the interface, which a change of the header's prototypes or numbers raises.
#[unsafe(no_mangle)]
pub extern "C" fn balkreyn_abi() -> u32
    ensures { result ≡ 3 }
{
    3
}

/// Opens a fresh realm of these limits in the book, which holds none.
#[unsafe(no_mangle)]
pub extern "C" fn balkreyn_book_open(
    alloc: Global,
    book: &mut Book,
    scopes: u32,
    tasks: u32,
    load: u32,
) -> i64
    ensures { OpensBook book.old.place.held scopes tasks load result book.new.place.held }
{
    let found = swapped(&mut book.word, WORKING);
    if found == FULL {
        rest(&mut book.word, FULL);
        return HAS_REALM;
    }
    if found != EMPTY {
        return BUSY;
    }
    match fresh(alloc, scopes, tasks, load) {
        Ok(timed) => {
            put(&mut book.word, &mut book.place, timed);
            DONE
        }
        Err(number) => {
            rest(&mut book.word, EMPTY);
            number
        }
    }
}

/// A fresh realm of these limits, or what the call answers.
fn fresh(alloc: Global, scopes: u32, tasks: u32, load: u32) -> Result<Box<TimedRealm, Global>, i64>
    ensures { MatchResult result (λ timed. IsFresh scopes tasks load (pos 0) (Some timed.value)) (λ number. IsRefused scopes tasks load number None ⊎ WantsMemory scopes tasks load number None) }
{
    let Some(limits) = Limits::new(scopes, tasks, load) else {
        return Err(BAD_ARGUMENT);
    };
    match Box::new(alloc, TimedRealm::new(alloc, limits)) {
        Ok(timed) => Ok(timed),
        Err(_) => Err(refused(Refusal::Memory)),
    }
}

/// Closes the book: its realm is dropped.
#[unsafe(no_mangle)]
pub extern "C" fn balkreyn_book_close(alloc: Global, book: &mut Book) -> i64
    ensures answer { result ≡ closing_number book.old.place.held }
    ensures none { book.new.place.held ≡ None }
{
    match taken(alloc, &mut book.word, &mut book.place) {
        Ok(_timed) => {
            rest(&mut book.word, EMPTY);
            DONE
        }
        Err(number) => number,
    }
}
