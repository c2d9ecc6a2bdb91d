//! Scripts that are played on the plain evaluator, on a book, and as calls of a realm under its lock. Each answers
//! them in the lines of `scopectl replay`, so that what it answers can be compared with that byte for byte; what it
//! notes beside them is to be compared with what the others note.

mod book;
mod calls;
mod parts;
mod plain;
mod replies;

use crate::said::Said;
use parts::limits_of;
use share_ledger::Seed;
use std::alloc::Global;
use std::fs;
use std::marker::Brand;
use std::rt::Files;
use std::sync::Wait;

/// What scripts are played on.
#[derive(Clone, Copy)]
pub enum On {
    Plain,
    Book,
    Realm,
}

/// Plays each script of the files that are named, each from the beginning, and writes what it is answered: false where
/// something was otherwise than it should be. None where memory is refused, or a file is no script.
pub fn play<R: Wait + Files + AllocGlobal + Print>(
    rt: &R,
    on: On,
    names: &[String],
) -> Option<bool> {
    let mut is_played = true;
    for name in names {
        let script = fs::read_to_string(rt, name.as_str()).ok()?;
        is_played = play_script(rt, on, &script)? && is_played;
    }
    Some(is_played)
}

/// Plays the script, and writes what it is answered.
fn play_script<R: Wait + AllocGlobal + Print>(rt: &R, on: On, script: &String) -> Option<bool> {
    let alloc = rt.alloc();
    if let On::Realm = on {
        return play_on_a_realm(rt, alloc, script);
    }
    let limits = limits_of(script.as_str())?;
    let mut said = Said::new(alloc)?;
    let is_played = if let On::Plain = on {
        plain::play(alloc, limits, script.as_str(), &mut said);
        true
    } else {
        book::play(alloc, limits, script.as_str(), &mut said)
    };
    Some(said.write(rt) && is_played)
}

/// Plays the script on a realm of its own.
fn play_on_a_realm<R: Wait + Print>(rt: &R, alloc: Global, script: &String) -> Option<bool> {
    match Seed::new(alloc) {
        Ok(seed) => calls::play::<Brand, R>(rt, alloc, seed, script),
        Err(_) => None,
    }
}
