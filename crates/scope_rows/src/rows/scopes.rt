//! What the events of scopes make of the rows.

ghost use Rattle.std.specs.Prelude.{ℕ, ◌≡◌, ◌≤◌, IfSome, length};
ghost use Rattle.scope_rows.specs.{Accepts, AreLinked, AreRowsOf, BeginClose, CanBeginClose, CanEndClose, CanOpen, EndClose, HasEntry, HasScope, History, Join, Legal, Limits, Open, Steps.joined, close_begun, close_ended};
ghost use Rattle.scope_rows.specs.{followed, is_this, marked, opened, stack, surrounding};

use crate::numbered::Numbered;
use crate::records::ScopeRow;
use crate::rows::Rows;
use scope_rules::types::records::Opening;
use scope_rules::{Actor, Counts, ScopeId};

impl Rows {
    /// The row of the scope that is opened so, which has the next number, inside `parent`, while its
    /// actor has so many own pairs. There is room for it.
    pub fn open(&mut self, opening: Opening, parent: Option<ScopeId>, height: usize)
        requires room { 1 ≤ self.old.scope_room }
        requires there { CanOpen self.old opening.actor }
        ensures rows { self.new ≡ opened self.old opening parent height }
        ensures agrees { (L : Limits) (h : History) → Legal L h → Accepts L h (Open opening.actor opening.policy opening.options) → AreRowsOf h self.old → opening.place ≡ length h.events → parent ≡ surrounding h opening.actor → height ≡ length (stack h opening.actor) → AreRowsOf (followed h (Open opening.actor opening.policy opening.options)) self.new }
    {
        let actor = opening.actor;
        let scope = self.last_scope() + 1;
        let below = self.innermost(actor);
        self.scopes.push(ScopeRow {
            opening,
            parent,
            below,
            height,
            joined: None,
            closing: false,
            closed: false,
            violated: false,
            counts: Counts {
                never: 0,
                waiting: 0,
                running: 0,
                finished: 0,
            },
        });
        self.set_innermost(actor, Some(scope));
    }

    /// The scope is joined by the event at the place.
    pub fn join(&mut self, scope: ScopeId, place: usize)
        requires { HasScope self.old scope }
        ensures rows { self.new ≡ joined self.old scope place }
        ensures agrees { (L : Limits) (h : History) (actor : ℕ) → Legal L h → Accepts L h (Join actor scope) → AreRowsOf h self.old → place ≡ length h.events → AreRowsOf (followed h (Join actor scope)) self.new }
    {
        self.scopes.get_mut(scope).joined = Some(place);
    }

    /// The actor begins the close of its scope: that is closing, and so is each scope that the actor
    /// opened later and has not closed. It takes time by how many those are.
    pub fn begin_close(&mut self, actor: Actor, scope: ScopeId)
        requires { CanBeginClose self.old actor scope }
        ensures rows { self.new ≡ close_begun self.old actor scope }
        ensures agrees { (L : Limits) (h : History) → Legal L h → Accepts L h (BeginClose actor scope) → AreRowsOf h self.old → AreRowsOf (followed h (BeginClose actor scope)) self.new }
    {
        let from = self.innermost(actor);
        mark_closing(&mut self.scopes, from, scope);
        let out_of_order = !is_this(from, scope);
        self.scopes.get_mut(scope).violated |= out_of_order;
    }

    /// The actor ends the close of its innermost scope. Its innermost is then the one below it.
    pub fn end_close(&mut self, actor: Actor, scope: ScopeId)
        requires { CanEndClose self.old actor scope }
        ensures rows { self.new ≡ close_ended self.old actor scope }
        ensures agrees { (L : Limits) (h : History) → Legal L h → Accepts L h (EndClose actor scope) → AreRowsOf h self.old → AreRowsOf (followed h (EndClose actor scope)) self.new }
    {
        let row = self.scopes.get_mut(scope);
        let below = row.below;
        row.closed = true;
        self.set_innermost(actor, below);
    }
}

/// Marks the scopes from this one down to `scope`, each opened below the one before it.
fn mark_closing(rows: &mut Numbered<ScopeRow>, from: Option<ScopeId>, scope: ScopeId)
    requires linked { AreLinked rows.old.before rows.old.items }
    requires from { IfSome from (HasEntry rows.old) }
    ensures { rows.new ≡ record rows.old { items = marked rows.old.before scope from rows.old.items } }
{
    let mut next = from;
    while let Some(here) = next {
        let row = rows.get_mut(here);
        row.closing = true;
        next = if here == scope { None } else { row.below };
    }
}

/// Whether this is the scope.
fn is_this(innermost: Option<ScopeId>, scope: ScopeId) -> bool
    ensures { result ≡ is_this innermost scope }
{
    match innermost {
        Some(innermost) => innermost == scope,
        None => false,
    }
}
