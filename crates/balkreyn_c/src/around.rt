//! By which scope an actor is cancelled: its innermost one that is not closed, or else the one in which it was forked.

ghost use Rattle.std.specs.Prelude.{◌≡◌};
ghost use Rattle.balkreyn_c.specs.{around_check, around_reply, asked, cause, cause_number, mark_reply, number_of, some_number, surrounding};

use crate::book::{Book, put, taken};
use crate::numbers::{cause, some_answer};
use realm_state::RealmState;
use scope_checks::Readings;
use scope_checks::checks::task_check;
use scope_rules::{Actor, Cause, Refusal, ScopeId};
use std::alloc::Global;

/// The scope by which the actor is cancelled, or 0 of main where it has none open.
#[unsafe(no_mangle)]
pub extern "C" fn balkreyn_around(alloc: Global, book: &mut Book, actor: u32) -> i64
    ensures answer { result ≡ asked book.old.place.held (λ h. number_of some_number (around_reply h actor)) }
    ensures kept { book.new.place.held ≡ book.old.place.held }
{
    let timed = match taken(alloc, &mut book.word, &mut book.place) {
        Ok(timed) => timed,
        Err(number) => return number,
    };
    let answer = some_answer(around(&timed.realm, actor));
    put(&mut book.word, &mut book.place, timed);
    answer
}

/// Why the actor is cancelled, if it is: why the scope around it is.
#[unsafe(no_mangle)]
pub extern "C" fn balkreyn_is_cancelled(alloc: Global, book: &mut Book, actor: u32) -> i64
    ensures answer { result ≡ asked book.old.place.held (λ h. number_of cause_number (mark_reply h actor)) }
    ensures kept { book.new.place.held ≡ book.old.place.held }
{
    let timed = match taken(alloc, &mut book.word, &mut book.place) {
        Ok(timed) => timed,
        Err(number) => return number,
    };
    let answer = cause(mark(&timed.realm, actor));
    put(&mut book.word, &mut book.place, timed);
    answer
}

/// The scope around the actor, if there is one. Refused for an unknown task (`NoTask`, `Retired`).
fn around(realm: &RealmState, actor: Actor) -> Result<Option<ScopeId>, Refusal>
    ensures { result ≡ around_reply realm.now.history actor }
{
    around_check(realm, actor)?;
    Ok(surrounding(realm, actor))
}

/// Why the scope around the actor is cancelled, if it is. Refused as `around` is.
fn mark(realm: &RealmState, actor: Actor) -> Result<Option<Cause>, Refusal>
    ensures { result ≡ mark_reply realm.now.history actor }
{
    around_check(realm, actor)?;
    match surrounding(realm, actor) {
        Some(scope) => Ok(cause_of(realm, scope)),
        None => Ok(None),
    }
}

/// Whether the actor is main, or a task that was forked since the base.
fn around_check(realm: &RealmState, actor: Actor) -> Result<(), Refusal>
    ensures { result ≡ around_check realm.now.history actor }
{
    if actor == 0 {
        Ok(())
    } else {
        task_check(realm, actor)
    }
}

/// The actor's innermost scope, or else the one in which it was forked.
#[tactic(auto, unfolding(scope_rules::specs::Scopes::surrounding))]
fn surrounding(realm: &RealmState, actor: Actor) -> Option<ScopeId>
    ensures { result ≡ surrounding realm.now.history actor }
{
    match realm.innermost(actor) {
        Some(scope) => Some(scope),
        None => realm.forked_in(actor),
    }
}

/// Why the scope is cancelled, if it is.
#[tactic(auto, unfolding(scope_rules::specs::Cancels::cause))]
fn cause_of(realm: &RealmState, scope: ScopeId) -> Option<Cause>
    ensures { result ≡ cause realm.now.history scope }
{
    match realm.first_cancel(scope) {
        Some(first) => Some(first.cause),
        None => None,
    }
}
