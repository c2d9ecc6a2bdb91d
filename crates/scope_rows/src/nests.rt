//! What lies in what: the outermost scope of an actor and the scope inside a scope, by the rows alone,
//! without a look at the history.
//!
//! Each unclosed scope of an actor lies in the one before it. So an actor has no more of them than there
//! are levels, and a walk over all of them takes constant time.

ghost use Rattle.std.specs.Prelude.{◌≡◌};
ghost use Rattle.scope_rows.specs.{AreRowsOf, History, Legal, Limits, below_of, inner, next_unclosed, outermost};

use crate::rows::Rows;
use scope_rules::types::capacity::LEVEL_LIMIT;
use scope_rules::{Actor, ScopeId};

/// The actor's outermost scope: the first that it opened and has not closed.
pub fn outermost(rows: &Rows, actor: Actor) -> Option<ScopeId>
    ensures { (L : Limits) (h : History) → Legal L h → AreRowsOf h rows.now → result ≡ outermost h actor }
{
    next_unclosed(rows, actor, 0)
}

/// The scope inside the scope: the next that its owner opened and has not closed. None if no such
/// scope was opened since the base.
pub fn inner(rows: &Rows, scope: ScopeId) -> Option<ScopeId>
    ensures { (L : Limits) (h : History) → Legal L h → AreRowsOf h rows.now → result ≡ inner h scope }
{
    let row = rows.scope(scope)?;
    next_unclosed(rows, row.opening.actor, scope)
}

/// The first scope after `scope` that the actor opened and has not closed.
fn next_unclosed(rows: &Rows, actor: Actor, scope: ScopeId) -> Option<ScopeId>
    ensures { (L : Limits) (h : History) → Legal L h → AreRowsOf h rows.now → result ≡ next_unclosed h actor scope }
{
    let mut found = None;
    let mut next = rows.innermost(actor);
    for _level in 0..LEVEL_LIMIT {
        let Some(here) = next else {
            return found;
        };
        if here <= scope {
            return found;
        }
        found = next;
        next = below(rows, here);
    }
    found
}

/// The scope below this one: the innermost that its owner had when it opened this one.
fn below(rows: &Rows, scope: ScopeId) -> Option<ScopeId>
    ensures { result ≡ below_of rows.now.scopes_before rows.now.scopes scope }
{
    match rows.scope(scope) {
        Some(row) => row.below,
        None => None,
    }
}
