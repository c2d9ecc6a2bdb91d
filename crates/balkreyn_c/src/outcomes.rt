//! What a join answers: without memory at first, and its list afterwards.

ghost use Rattle.std.specs.Prelude.{◌≡◌};
ghost use Rattle.balkreyn_c.specs.{AnswersBare, Joins, LetsGo, TellsOutcome, after, check_of, followed, outcome, outcome_check};

use crate::book::{Book, put, taken};
use crate::numbers::{outcome as outcome_number, retired};
use realm_state::RealmState;
use scope_checks::Readings;
use scope_checks::checks::{refuse_if, scope_check};
use scope_index::BareOutcome;
use scope_rules::{Actor, Event, Refusal, ScopeId};
use std::alloc::Global;

/// The join of the scope, or its refusal. It takes no memory.
#[tactic(auto, using(crate::proofs::Joins::join_passes, crate::proofs::Joins::join_answers, crate::proofs::Joins::join_leaves, crate::proofs::Joins::join_refused, crate::proofs::Joins::join_keeps))]
pub fn join_in(realm: &mut RealmState, actor: Actor, scope: ScopeId) -> Result<BareOutcome, Refusal>
    ensures answer { AnswersBare (check_of realm.old.limits realm.old.history (Event.Join actor scope)) (outcome (followed realm.old.history (Event.Join actor scope)) scope) result }
    ensures left { realm.new ≡ after realm.old (Event.Join actor scope) (check_of realm.old.limits realm.old.history (Event.Join actor scope)) }
{
    match realm.perform(&Event::Join { actor, scope }, false, None) {
        Ok(_) => Ok(realm.bare_outcome(scope)),
        Err(refusal) => Err(refusal),
    }
}

/// What the join of the scope answered, without its list.
fn outcome_in(realm: &RealmState, scope: ScopeId) -> Result<BareOutcome, Refusal>
    ensures { AnswersBare (outcome_check realm.now.history scope) (outcome realm.now.history scope) result }
{
    outcome_check(realm, scope)?;
    Ok(realm.bare_outcome(scope))
}

/// What a query of an outcome is refused for.
#[tactic(auto, unfolding(scope_rules::specs::Replies::outcome_check, scope_rules::specs::Checks::checks, scope_rules::specs::Checks::then_check))]
fn outcome_check(realm: &RealmState, scope: ScopeId) -> Result<(), Refusal>
    ensures { result ≡ outcome_check realm.now.history scope }
{
    scope_check(realm, scope)?;
    refuse_if(!realm.joined(scope), Refusal::NotJoined)
}

/// The owner joins its scope. It takes no memory.
#[unsafe(no_mangle)]
pub extern "C" fn balkreyn_join(alloc: Global, book: &mut Book, actor: u32, scope: u32) -> i64
    ensures { Joins book.old.place.held actor scope result book.new.place.held }
{
    let mut timed = match taken(alloc, &mut book.word, &mut book.place) {
        Ok(timed) => timed,
        Err(number) => return number,
    };
    let answer = outcome_number(join_in(&mut timed.realm, actor, scope));
    put(&mut book.word, &mut book.place, timed);
    answer
}

/// What the join of the scope answered.
#[unsafe(no_mangle)]
pub extern "C" fn balkreyn_outcome(alloc: Global, book: &mut Book, scope: u32) -> i64
    ensures answer { TellsOutcome book.old.place.held scope result }
    ensures kept { book.new.place.held ≡ book.old.place.held }
{
    let timed = match taken(alloc, &mut book.word, &mut book.place) {
        Ok(timed) => timed,
        Err(number) => return number,
    };
    let answer = outcome_number(outcome_in(&timed.realm, scope));
    put(&mut book.word, &mut book.place, timed);
    answer
}

/// Lets the past go.
#[unsafe(no_mangle)]
pub extern "C" fn balkreyn_retire(alloc: Global, book: &mut Book, actor: u32) -> i64
    ensures { LetsGo book.old.place.held actor result book.new.place.held }
{
    let mut timed = match taken(alloc, &mut book.word, &mut book.place) {
        Ok(timed) => timed,
        Err(number) => return number,
    };
    let answer = retired(timed.realm.retire(actor));
    timed.let_go();
    put(&mut book.word, &mut book.place, timed);
    answer
}
