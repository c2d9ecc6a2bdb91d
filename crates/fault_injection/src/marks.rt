//! Marks of a realm: scopes that are opened with their cells, and views by a mark.
ghost use Rattle.std.specs.Prelude.{◌≡◌, IfSome};
ghost use Rattle.realm_lock.specs.Cells.{IsFresh};

use crate::refusals::{Call, Refusals, again};
use join_rules::Joiner;
use realm_lock::{ActorToken, Mark, MarkCell, Realm, RealmName, Seat, Seed};
use scope_rules::{AnyEnd, Limits, Options, Refusal, ScopeId};
use std::alloc::Global;
use std::sync::Wait;

/// Opens a scope with its cell. A refusal for memory hands the joiner back, by which it is opened then.
fn opened<N: RealmName, R: Wait>(
    rt: &R,
    realm: &Realm<AnyEnd, N>,
    token: &mut ActorToken,
    refusals: &Refusals,
) -> Option<(ScopeId, MarkCell, Seat)>
    requires { token.old.table ≡ N.table }
    ensures token { token.new ≡ record token.old { seen = token.new.seen } }
    ensures cell { IfSome result (λ opened. IsFresh opened.1 opened.2) }
{
    match realm.open_marked(rt, token, Joiner::AwaitAll, Options::PLAIN) {
        Ok(opened) => Some(opened),
        Err((Refusal::Memory, joiner)) => {
            refusals.note(Call::OpenMarked);
            realm.open_marked(rt, token, joiner, Options::PLAIN).ok()
        }
        Err(_) => None,
    }
}

/// Whether the view by the mark shows what that says.
fn is_shown<N: RealmName, R: Wait>(
    rt: &R,
    realm: &Realm<AnyEnd, N>,
    token: &mut ActorToken,
    mark: &Mark,
) -> Result<bool, Refusal>
    requires { token.old.table ≡ N.table }
    ensures { token.new ≡ record token.old { seen = token.new.seen } }
{
    match realm.view_with(rt, token, mark.scope, mark) {
        Ok(view) => Ok(view.cause == Some(mark.cause)),
        Err(refusal) => Err(refusal),
    }
}

/// A scope that is cancelled, with one inside it: the mark of the inner one's cell shows that, and so does the
/// view by it.
fn is_marked<N: RealmName, R: Wait>(
    rt: &R,
    realm: &Realm<AnyEnd, N>,
    main: &mut ActorToken,
    refusals: &Refusals,
) -> Option<bool>
    requires { main.old.table ≡ N.table }
    ensures { main.new ≡ record main.old { seen = main.new.seen } }
{
    let (outer, _cell, _seat) = opened(rt, realm, main, refusals)?;
    let (inner, cell, mut seat) = opened(rt, realm, main, refusals)?;
    let was_live = cell.checkpoint(&mut seat).is_none();
    let is_told = again!(refusals, Call::Cancel, realm.cancel(rt, main, outer)).is_ok();
    let mark = cell.checkpoint(&mut seat)?;
    let shows = again!(refusals, Call::ViewWith, is_shown(rt, realm, main, &mark)) == Ok(true);
    let is_there = (outer, inner, mark.scope, mark.number) == (1, 2, 2, 2);
    Some(was_live && is_told && shows && is_there)
}

/// Plays that in a realm: false where something is otherwise than without a refusal. None where memory was refused
/// before.
pub fn play<N: RealmName, R: Wait>(
    rt: &R,
    alloc: Global,
    seed: Seed,
    refusals: &Refusals,
) -> Option<bool>
    requires { seed ≡ N.table }
{
    let (realm, mut main) = Realm::<AnyEnd, N>::new(alloc, seed, Limits::GREATEST).ok()?;
    Some(is_marked(rt, &realm, &mut main, refusals) == Some(true))
}
