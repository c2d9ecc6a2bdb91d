//! From the arguments of a command to its event, and from that to the answer.

ghost use Rattle.std.specs.Prelude.{◌≡◌, None, Some};
ghost use Rattle.balkreyn_c.specs.{Acts};

use crate::book::{Book, put, taken};
use crate::numbers::{BAD_ARGUMENT, told};
use scope_rules::Event;
use std::alloc::Global;

/// Tries the event in the book's realm, if the arguments made one.
#[tactic(auto, using(crate::proofs::Acted::tried))]
pub fn act(alloc: Global, book: &mut Book, event: Option<Event>) -> i64
    ensures { Acts book.old.place.held event result book.new.place.held }
{
    let mut timed = match taken(alloc, &mut book.word, &mut book.place) {
        Ok(timed) => timed,
        Err(number) => return number,
    };
    let Some(event) = event else {
        put(&mut book.word, &mut book.place, timed);
        return BAD_ARGUMENT;
    };
    let answer = told(timed.realm.perform(&event, false, None));
    put(&mut book.word, &mut book.place, timed);
    answer
}
