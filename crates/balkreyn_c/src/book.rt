//! A book: it holds a realm, or none. While a call works on it, the realm is the call's, and the book's word says so: a
//! second call that comes at once finds it, and answers that the book is busy. Of one call after another none does.
ghost use Rattle.std.specs.Prelude.{◌≡◌, MatchResult, None, Some, is_some};
ghost use Rattle.balkreyn_c.specs.{Numbers.no_realm, Resting.nothing, Resting.resting};

use crate::numbers::{BUSY, NO_REALM};
use crate::place::Place;
use crate::timed::TimedRealm;
use crate::word::{rest, swapped};
use std::alloc::Global;
use std::mem;

/// The word of a book that holds no realm.
pub const EMPTY: u64 = 0;

/// The word of a book that holds a realm.
pub const FULL: u64 = 1;

/// The word of a book while a call works on it.
pub const WORKING: u64 = 2;

/// A book, which C keeps. Zeroed memory is a book that holds no realm.
#[repr(C)]
pub struct Book {
    pub word: u64,
    pub place: Place,
    ghost fits: { word ≡ resting (is_some place.held) },
}

/// The realm, taken out of the book, which is being worked on from here on; or what a call answers that has none.
pub fn taken(
    alloc: Global,
    word: &mut u64,
    place: &mut Place,
) -> Result<Box<TimedRealm, Global>, i64>
    requires { word.old ≡ resting (is_some place.old.held) }
    ensures realm { MatchResult result (λ timed. place.old.held ≡ Some timed.value) (λ number. (number ≡ no_realm) × (place.old.held ≡ None) × (word.new ≡ 0)) }
    ensures left { place.new.held ≡ None }
{
    let found = swapped(word, WORKING);
    if found == FULL {
        Ok(mem::replace(place, Place::empty(alloc)).into_box())
    } else {
        if found == EMPTY {
            rest(word, EMPTY);
        }
        Err(nothing(found))
    }
}

/// What a call answers that found the word so, and no realm for it.
pub fn nothing(found: u64) -> i64
    ensures { result ≡ nothing found }
{
    if found == EMPTY { NO_REALM } else { BUSY }
}

/// Puts the realm into the book, which holds none. The call is over.
pub fn put(word: &mut u64, place: &mut Place, timed: Box<TimedRealm, Global>)
    requires { place.old.held ≡ None }
    ensures holds { place.new.held ≡ Some timed.value }
    ensures word { word.new ≡ 1 }
{
    let _nothing = mem::replace(place, Place::of_box(timed));
    rest(word, FULL);
}
