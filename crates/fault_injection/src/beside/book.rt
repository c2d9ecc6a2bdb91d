//! Scripts on a book.

use super::parts::{BOOK_SIGN, JOURNAL_END, JOURNAL_SIGN, Part, SIGN, part_of};
use crate::said::Said;
use scope_book::BookState;
use scope_rules::{AnyEnd, Limits, Refusal, ScopeId};
use scope_script::{Command, Reply, perform};
use script_journal::journal_of;
use std::alloc::Global;
use tree_dump::dump;

/// Plays the script, and notes at its end the journal: false where memory is refused. (All that changes the book stands
/// here: a function that is lent one to change it could hand out what a caller's closure is, which the gate refuses.)
pub fn play(alloc: Global, limits: Limits, script: &str, said: &mut Said) -> bool {
    let mut book = BookState::<AnyEnd>::new(alloc, limits);
    let mut is_played = true;
    for line in script.lines() {
        match part_of(line) {
            Part::Silent => {}
            Part::BadWord => said.say(&Reply::Refused(Refusal::BadWord)),
            Part::Command(command) => match perform(&mut book, &command) {
                Ok(reply) => said.say(&reply),
                Err(_) => is_played = false,
            },
            Part::Show(most) => {
                show_scopes(alloc, &book, most, said);
                for number in 0..=most {
                    if let Some(scope) = book.nth_cancelled(number as usize) {
                        note_cancel(&book, scope, said);
                    }
                }
                said.note_lines(BOOK_SIGN, dump(alloc, &book));
            }
        }
    }
    note_journal(alloc, &book, said);
    is_played
}

/// Notes what is to be seen of the scopes up to this one.
fn show_scopes(alloc: Global, book: &BookState<AnyEnd>, most: ScopeId, said: &mut Said) {
    for scope in 0..=most {
        show(alloc, book, scope, said);
    }
}

/// Notes what is to be seen of the scope.
fn show(alloc: Global, book: &BookState<AnyEnd>, scope: ScopeId, said: &mut Said) {
    match book.project(scope) {
        Ok(log) => {
            said.note(SIGN, &Reply::Moment(book.moment()));
            said.note_lines(SIGN, format!(in alloc; "{log}"));
        }
        Err(refusal) => said.note(SIGN, &Reply::Refused(refusal)),
    }
    match book.outcome(scope) {
        Ok(outcome) => said.note(BOOK_SIGN, &Reply::Outcome(outcome)),
        Err(refusal) => said.note(BOOK_SIGN, &Reply::Refused(refusal)),
    }
}

/// Notes that the scope is cancelled, and where it was.
fn note_cancel(book: &BookState<AnyEnd>, scope: ScopeId, said: &mut Said) {
    let place = book.cancelled_at(scope).unwrap_or(None).unwrap_or(0);
    said.note(BOOK_SIGN, &Reply::Moment(place as u64));
    said.note(BOOK_SIGN, &Reply::Scope(scope));
}

/// Notes the script of the history that the book is left with.
fn note_journal(alloc: Global, book: &BookState<AnyEnd>, said: &mut Said) {
    said.note_lines(JOURNAL_SIGN, journal_of(alloc, book.realm()));
    said.add(JOURNAL_END);
}
