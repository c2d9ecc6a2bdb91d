//! Scripts on the plain evaluator.

use super::parts::{BOOK_SIGN, Part, SIGN, part_of};
use super::replies::reply_of;
use crate::said::Said;
use scope_model::Plain;
use scope_rules::{Limits, Refusal, ScopeId};
use scope_script::Reply;
use std::alloc::Global;
use tree_dump::dump_of;

/// A place in the history at which a scope was cancelled, and that scope.
type Cancel = (usize, ScopeId);

/// Plays the script, and says at its end what is left, as a dump.
pub fn play(alloc: Global, limits: Limits, script: &str, said: &mut Said) {
    let mut plain = Plain::new(alloc, limits);
    for line in script.lines() {
        tell(alloc, &mut plain, line, said);
    }
    said.note_lines("", dump_of(alloc, &plain.view()));
}

/// Tells it the line.
fn tell(alloc: Global, plain: &mut Plain, line: &str, said: &mut Said) {
    match part_of(line) {
        Part::Silent => {}
        Part::BadWord => said.say(&Reply::Refused(Refusal::BadWord)),
        Part::Command(command) => said.say(&reply_of(plain, command)),
        Part::Show(most) => {
            for scope in 0..=most {
                show(alloc, plain, scope, said);
            }
            show_cancels(plain, most, said);
            said.note_lines(BOOK_SIGN, dump_of(alloc, &plain.view()));
        }
    }
}

/// Notes what is to be seen of the scope.
fn show(alloc: Global, plain: &Plain, scope: ScopeId, said: &mut Said) {
    match plain.project(scope) {
        Ok(log) => {
            said.note(SIGN, &Reply::Moment(plain.moment()));
            said.note_lines(SIGN, format!(in alloc; "{log}"));
        }
        Err(refusal) => said.note(SIGN, &Reply::Refused(refusal)),
    }
    match plain.outcome(scope) {
        Ok(outcome) => said.note(BOOK_SIGN, &Reply::Outcome(outcome)),
        Err(refusal) => said.note(BOOK_SIGN, &Reply::Refused(refusal)),
    }
}

/// The first cancel of the scopes up to the number that comes after the other: in the history, or of equals by
/// the numbers of the scopes.
fn next_cancel(plain: &Plain, most: ScopeId, after: Cancel) -> Option<Cancel> {
    let mut next = None;
    for scope in 1..=most {
        if let Ok(Some(place)) = plain.cancelled_at(scope) {
            let cancel = (place, scope);
            if comes_before(after, cancel) && next.is_none_or(|best| comes_before(cancel, best)) {
                next = Some(cancel);
            }
        }
    }
    next
}

/// Whether the one cancel comes before the other.
fn comes_before(one: Cancel, other: Cancel) -> bool {
    one.0 < other.0 || (one.0 == other.0 && one.1 < other.1)
}

/// Notes which scopes are cancelled, in the order in which they were, and where.
fn show_cancels(plain: &Plain, most: ScopeId, said: &mut Said) {
    let mut last = (0, 0);
    for _ in 0..most {
        let Some(next) = next_cancel(plain, most, last) else {
            return;
        };
        said.note(BOOK_SIGN, &Reply::Moment(next.0 as u64));
        said.note(BOOK_SIGN, &Reply::Scope(next.1));
        last = next;
    }
}
