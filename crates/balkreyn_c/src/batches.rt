//! Tasks that are forked in one call.

ghost use Rattle.std.specs.Prelude.{◌<ℤ◌, ◌<◌, ◌↔◌, ◌≡◌, IsTrue, length, pos};
ghost use Rattle.balkreyn_c.specs.{ActsMany, Batched, TriesAt, answer_at, fork_of};

use crate::book::{Book, put, taken};
use crate::numbers::{BAD_ARGUMENT, told};
use realm_state::RealmState;
use scope_rules::{Event, Label};
use script_words::name;
use std::alloc::Global;

/// The actor forks a task of this name in its scope for each of the answers, until a fork is refused. It answers how
/// many were forked.
#[unsafe(no_mangle)]
pub extern "C" fn balkreyn_fork_many(
    alloc: Global,
    book: &mut Book,
    actor: u32,
    scope: u32,
    text: &[u8],
    answers: &mut [i64],
) -> i64
    ensures { ActsMany book.old.place.held (fork_of actor scope text.now) result book.new.place.held answers.old answers.new }
{
    let event = match name(text) {
        Some(name) => Some(Event::Fork {
            actor,
            scope,
            label: Label { name, due: None },
        }),
        None => None,
    };
    act_many(alloc, book, event, answers)
}

/// Tries the event for each of the answers, if the arguments made one.
#[tactic(auto, using(crate::proofs::Repeats::acted))]
fn act_many(alloc: Global, book: &mut Book, event: Option<Event>, answers: &mut [i64]) -> i64
    ensures { ActsMany book.old.place.held event result book.new.place.held answers.old answers.new }
{
    let mut timed = match taken(alloc, &mut book.word, &mut book.place) {
        Ok(timed) => timed,
        Err(number) => return number,
    };
    let Some(event) = event else {
        put(&mut book.word, &mut book.place, timed);
        return BAD_ARGUMENT;
    };
    let answer = repeat(&mut timed.realm, &event, answers);
    put(&mut book.word, &mut book.place, timed);
    answer
}

/// Tries the event for each of the answers, until it is refused. How many tries were not refused.
fn repeat(realm: &mut RealmState, event: &Event, answers: &mut [i64]) -> i64
    ensures { Batched realm.old event.now result realm.new answers.old answers.new }
{
    for place in 0..answers.len() {
        if try_at(realm, event, answers, place) {
            return place as i64;
        }
    }
    answers.len() as i64
}

/// Tries the event, and writes at the place what it is answered. Whether it was refused.
fn try_at(realm: &mut RealmState, event: &Event, answers: &mut [i64], place: usize) -> bool
    requires { place < length answers.old }
    ensures tries { TriesAt realm.old event.now place realm.new answers.old answers.new }
    ensures refused { IsTrue result ↔ (answer_at answers.new place <ℤ pos 0) }
{
    let answer = told(realm.perform(event, false, None));
    answers[place] = answer;
    answer < 0
}
