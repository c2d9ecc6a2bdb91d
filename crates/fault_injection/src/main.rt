//! `fault_injection` plays scenarios on task scopes while requests for memory are refused, by `gate/refuse.c` in front of
//! the system's allocator. A call that is refused memory is made again, with what it handed back; so what a run
//! writes is what one writes in which nothing is refused, or else the refused call had changed something. On
//! standard error it says which calls were refused.
//!
//!     fault_injection book FILE      the script FILE on a book
//!     fault_injection realm FILE     the same on a realm under its lock
//!     fault_injection parts          the parts below a book, each call that takes memory
//!     fault_injection expire         deadlines that pass, refused as often as it takes
//!     fault_injection spent          what the parts, a cell and tickets do without memory, once it is used up
//!     fault_injection marks          marks of a realm
//!     fault_injection tickets        a close with its ticket
//!     fault_injection jobs           jobs on threads
//!     fault_injection stress N SEED  N realms in which main and its jobs do anything, by numbers that look random
//!     fault_injection plain FILE..   scripts on the plain evaluator, for `test-beside`
//!     fault_injection told FILE..    the same on a book
//!     fault_injection calls FILE..   the same as calls of a realm under its lock
//!
//! In a script the line `#` with ` no more memory` behind it uses memory up, where all requests from some place
//! on are refused: the calls behind it take none.
#![tactic(auto)]

mod beside;
mod driving;
mod duties;
mod hands;
mod jobs;
mod marks;
mod parts;
mod refusals;
mod reports;
mod roaming;
mod said;
mod scripts;
mod spent;
mod stress;
mod tickets;
mod waits;

use beside::On;
use refusals::Refusals;
use share_ledger::Seed;
use std::alloc::Global;
use std::fs;
use std::marker::Brand;
use std::process::ExitCode;
use std::rt::{Clock as SystemTime, Files};
use std::sync::Wait;
use thread_pool::PoolRuntime;

/// What the words say, the first of them the program's name.
const WORDS: &str =
    "fault_injection book FILE | realm FILE | parts | expire | spent | marks | tickets | jobs | stress N SEED | plain FILE.. | told FILE.. | calls FILE..";

/// The status where something was otherwise than without a refusal.
const WRONG: u8 = 1;

/// The status where memory was refused before the scenario began.
const NOT_BEGUN: u8 = 3;

fn main(rt: HostRuntime) -> ExitCode {
    let status = match words_of_the_line(&rt) {
        Some(words) => status_of(&rt, &words),
        None => NOT_BEGUN,
    };
    ExitCode::from(status)
}

/// The words of the command line. None where memory is refused.
fn words_of_the_line(rt: &HostRuntime) -> Option<Vec<String>> {
    std::env::args(rt).ok()?.collect(rt.alloc()).ok()
}

/// Plays what the words say, and tells which calls were refused.
fn status_of<R: PoolRuntime + SystemTime + Files + AllocGlobal + Print + Eprint>(
    rt: &R,
    words: &[String],
) -> u8 {
    let refusals = Refusals::new();
    let played = play(rt, words, &refusals);
    refusals.tell(rt);
    match played {
        Some(true) => 0,
        Some(false) => WRONG,
        None => NOT_BEGUN,
    }
}

/// The word at the place, or none.
fn word(words: &[String], place: usize) -> &str {
    match words.get(place) {
        Some(word) => word.as_str(),
        None => "",
    }
}

/// Plays what the words say: false where something was otherwise. None where memory was refused before.
fn play<R: PoolRuntime + SystemTime + Files + AllocGlobal + Print + Eprint>(
    rt: &R,
    words: &[String],
    refusals: &Refusals,
) -> Option<bool> {
    let alloc = rt.alloc();
    match word(words, 1) {
        "book" | "realm" => play_script(rt, words, refusals),
        "parts" => parts::play(alloc, refusals),
        "expire" => parts::expire(alloc, refusals),
        "spent" => spent::play::<Brand, R>(rt, alloc, Seed::new(alloc).ok()?),
        "marks" => marks::play::<Brand, R>(rt, alloc, Seed::new(alloc).ok()?, refusals),
        "tickets" => {
            let seed = Seed::new(alloc).ok()?;
            tickets::close_with_a_ticket::<Brand, R>(rt, alloc, seed, refusals)
        }
        "jobs" => jobs::play::<Brand, R>(rt, alloc, Seed::new(alloc).ok()?),
        "stress" => {
            let (realms, seed) = (word(words, 2).parse().ok(), word(words, 3).parse().ok());
            Some(stress::play(rt, alloc, realms?, seed?))
        }
        "plain" => beside::play(rt, On::Plain, words.get(2..)?),
        "told" => beside::play(rt, On::Book, words.get(2..)?),
        "calls" => beside::play(rt, On::Realm, words.get(2..)?),
        _ => Some(println!(rt; "{WORDS}").is_ok()),
    }
}

/// Plays a script, and writes what was answered.
fn play_script<R: Wait + Files + AllocGlobal + Print>(
    rt: &R,
    words: &[String],
    refusals: &Refusals,
) -> Option<bool> {
    let alloc = rt.alloc();
    let text = fs::read_to_string(rt, word(words, 2)).ok()?;
    if word(words, 1) == "book" {
        scripts::on_a_book(rt, alloc, text.as_str(), refusals)
    } else {
        play_on_a_realm(rt, alloc, &text, refusals)
    }
}

/// Plays the script on a realm of its own.
fn play_on_a_realm<R: Wait + Print>(
    rt: &R,
    alloc: Global,
    script: &String,
    refusals: &Refusals,
) -> Option<bool> {
    match Seed::new(alloc) {
        Ok(seed) => scripts::on_a_realm::<Brand, R>(rt, alloc, seed, script, refusals),
        Err(_) => None,
    }
}
