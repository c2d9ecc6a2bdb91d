//! What lay around each scope as it was opened, for all scopes at once. Readings tell what is innermost now and not
//! what was. So the scopes are gone through by number: of what an actor opened before, the search begins at the
//! latest, and goes on from a closed one to what was the innermost as that one was opened. It takes as many steps as
//! scopes lay around one another, and no event is looked at.
ghost use Rattle.std.specs.Prelude.{◌+◌, ◌≡◌, ◌≤◌};
ghost use Rattle.run_picture.specs.{ℕ, AreLasts, AreOwns, HasFirsts, HasOwns, IfOk, IsNestOf, IsSearched, Landmark, OnOk, Some, around, before, closed, forked_in, innermost, is_some};
ghost use Rattle.run_picture.specs.{length, nat_eq, opened_count, opening, own_around, true};
ghost use Rattle.std.specs.HashMap as hash;

use run_times::landmarks::{Firsts, Landmark, firsts_of};
use scope_checks::Readings;
use scope_rules::types::records::Opening;
use scope_rules::{Actor, Event, ScopeId};
use std::alloc::{AllocError, Global};
use std::collections::HashMap;

/// By number, the innermost scope of the actor that opened the scope, just before it did.
#[derive(Drop)]
pub(crate) struct Owns {
    pub(crate) before: u32,
    pub(crate) scopes: Vec<Option<u32>>,
}

/// Whether the scope was closed before the place.
pub(crate) fn closed_before<R: Readings>(
    readings: &R,
    closes: &Firsts,
    scope: ScopeId,
    place: usize,
) -> bool
    requires closes { HasFirsts closes.now Landmark.Closed (R.history readings.now).events (R.history readings.now).base.scopes (opened_count (R.history readings.now)) }
    requires opened { is_some (opening (R.history readings.now) scope) ≡ true }
    requires within { place ≤ length (R.history readings.now).events }
    ensures { result ≡ closed (before (R.history readings.now) place) scope }
{
    let _readings = readings;
    match closes.place(scope) {
        Some(at) => at < place,
        None => false,
    }
}

/// The scope in which to go on, behind a closed one.
fn outwards<R: Readings>(
    readings: &R,
    owns: &[Option<u32>],
    scope: ScopeId,
    place: usize,
) -> Option<ScopeId>
    requires owns { AreOwns owns.now (R.history readings.now) (opened_count (before (R.history readings.now) place)) }
    requires opened { is_some (opening (before (R.history readings.now) place) scope) ≡ true }
    ensures { result ≡ own_around (R.history readings.now) scope }
{
    owns[(scope - readings.retired_scopes() - 1) as usize]
}

/// The actor's innermost scope before the place, if so many scopes had been opened. All that it had opened behind
/// the scope to begin with is closed there.
fn innermost_before<R: Readings>(
    readings: &R,
    closes: &Firsts,
    owns: &[Option<u32>],
    opening: Opening,
    from: Option<ScopeId>,
) -> Option<ScopeId>
    requires closes { HasFirsts closes.now Landmark.Closed (R.history readings.now).events (R.history readings.now).base.scopes (opened_count (R.history readings.now)) }
    requires owns { AreOwns owns.now (R.history readings.now) (opened_count (before (R.history readings.now) opening.place)) }
    requires within { opening.place ≤ length (R.history readings.now).events }
    requires searched { IsSearched (R.history readings.now) opening.place opening.actor from }
    ensures { result ≡ innermost (before (R.history readings.now) opening.place) opening.actor }
{
    let mut candidate = from;
    while let Some(scope) = candidate {
        if !closed_before(readings, closes, scope, opening.place) {
            break;
        }
        candidate = outwards(readings, owns, scope, opening.place);
    }
    candidate
}

/// The last scope of the actor.
fn last_scope(last: &HashMap<u32, u32>, actor: Actor) -> Option<ScopeId>
    ensures { result ≡ hash.get nat_eq last.now actor }
{
    last.get(&actor).copied()
}

/// The same for the scope with this number, which is the next one, and the actor's last scope from now on. It is
/// refused for memory alone.
fn next_own<R: Readings>(
    readings: &R,
    closes: &Firsts,
    owns: &[Option<u32>],
    last: &mut HashMap<u32, u32>,
    scope: ScopeId,
) -> Result<Option<ScopeId>, AllocError>
    requires closes { HasFirsts closes.now Landmark.Closed (R.history readings.now).events (R.history readings.now).base.scopes (opened_count (R.history readings.now)) }
    requires numbered { scope ≡ (R.history readings.now).base.scopes + 1 + length owns.now }
    requires owns { AreOwns owns.now (R.history readings.now) (length owns.now) }
    requires last { AreLasts (hash.get nat_eq last.old) (R.history readings.now) (length owns.now) }
    ensures own { IfOk result (λ own. own ≡ own_around (R.history readings.now) scope) }
    ensures last { OnOk result (AreLasts (hash.get nat_eq last.new) (R.history readings.now) (length owns.now + 1)) }
{
    let Some(opening) = readings.opening(scope) else {
        return Ok(None);
    };
    let from = last_scope(last, opening.actor);
    last.insert(opening.actor, scope)?;
    Ok(innermost_before(readings, closes, owns, opening, from))
}

/// The scopes that lay innermost, for all scopes since the base. It is refused for memory alone.
pub(crate) fn owns_of<R: Readings>(
    alloc: Global,
    readings: &R,
    closes: &Firsts,
) -> Result<Owns, AllocError>
    requires { HasFirsts closes.now Landmark.Closed (R.history readings.now).events (R.history readings.now).base.scopes (opened_count (R.history readings.now)) }
    ensures { IfOk result (λ owns. HasOwns owns (R.history readings.now)) }
{
    let before = readings.retired_scopes();
    let count = readings.scopes() - before;
    let mut scopes = Vec::new(alloc);
    let mut last = HashMap::new(alloc);
    for index in 0..count {
        let own = next_own(readings, closes, &scopes, &mut last, before + 1 + index)?;
        scopes.push(own)?;
    }
    Ok(Owns { before, scopes })
}

/// What is kept of the scopes beside their rows.
#[derive(Drop)]
pub(crate) struct Nest {
    pub(crate) closes: Firsts,
    pub(crate) owns: Owns,
}

/// The nest of what was read. It is refused for memory alone.
pub(crate) fn nest_of<R: Readings>(
    alloc: Global,
    readings: &R,
    events: &[Event],
) -> Result<Nest, AllocError>
    requires { events.now ≡ (R.history readings.now).events }
    ensures { IfOk result (λ nest. IsNestOf nest (R.history readings.now)) }
{
    let before = readings.retired_scopes();
    let count = readings.scopes() - before;
    let closes = firsts_of(alloc, events, Landmark::Closed, before, count)?;
    let owns = owns_of(alloc, readings, &closes)?;
    Ok(Nest { closes, owns })
}

/// What lay innermost around the scope, of the scopes of its actor, as it was opened.
pub(crate) fn own_of<R: Readings>(readings: &R, nest: &Nest, scope: ScopeId) -> Option<ScopeId>
    requires nest { IsNestOf nest.now (R.history readings.now) }
    requires opened { is_some (opening (R.history readings.now) scope) ≡ true }
    ensures { result ≡ own_around (R.history readings.now) scope }
{
    nest.owns.scopes[(scope - readings.retired_scopes() - 1) as usize]
}

/// The scope in which the actor, a task, was forked before the place.
#[tactic(auto, using(scope_rules::proofs::Earlier::forking_before, crate::proofs::Befores::forking_late, crate::proofs::Befores::forking_never))]
fn forked_in_before<R: Readings>(readings: &R, place: usize, actor: Actor) -> Option<ScopeId>
    ensures { result ≡ forked_in (before (R.history readings.now) place) actor }
{
    match readings.forking(actor) {
        Some(forking) if forking.place < place => Some(forking.scope),
        _ => None,
    }
}

/// What lay around the opening of the scope.
#[tactic(auto, unfolding(scope_rules::specs::Scopes::surrounding))]
pub(crate) fn around<R: Readings>(
    readings: &R,
    nest: &Nest,
    scope: ScopeId,
    opened: Opening,
) -> Option<ScopeId>
    requires nest { IsNestOf nest.now (R.history readings.now) }
    requires opening { opening (R.history readings.now) scope ≡ Some opened }
    ensures { result ≡ around (R.history readings.now) opened }
{
    let own = own_of(readings, nest, scope);
    own.or(forked_in_before(readings, opened.place, opened.actor))
}
