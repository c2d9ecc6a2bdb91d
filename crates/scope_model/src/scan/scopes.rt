ghost use Rattle.std.specs.Prelude.{◌+◌, ◌<◌, ◌^◌, ◌≡◌, ◌≤◌};
ghost use Rattle.scope_model.specs.{IfSome, Some, around, begins_closing, closed, closing, closing_at, covers, forked_in, have_one_opener, innermost, joined, latest, length};
ghost use Rattle.scope_model.specs.{next_level, opened_count, opening, outer, outwards, parent, some_below, surrounding, unclosed_of};

use crate::scan::view::HistoryView;
use scope_rules::types::events::Event;
use scope_rules::types::records::Opening;
use scope_rules::types::values::{Actor, ScopeId};

impl<'a> HistoryView<'a> {
    /// Whether the scope is joined.
    #[tactic(auto, unfolding(scope_rules::specs::Scopes::joined))]
    pub fn joined(&self, scope: ScopeId) -> bool
        ensures { result ≡ joined self.now scope }
    {
        self.events().iter().any(
            |event| matches!(*event, Event::Join { scope: joined, .. } if joined == scope),
        )
    }

    /// Whether the scope is closed.
    #[tactic(auto, unfolding(scope_rules::specs::Scopes::closed))]
    pub fn closed(&self, scope: ScopeId) -> bool
        ensures { result ≡ closed self.now scope }
    {
        self.events().iter().any(
            |event| matches!(*event, Event::EndClose { scope: closed, .. } if closed == scope),
        )
    }

    /// The scope that was opened after this many since the base, if the actor opened it and has not
    /// closed it.
    pub fn unclosed_of(&self, actor: Actor, count: u32) -> Option<ScopeId>
        requires { count < opened_count self.now }
        ensures { result ≡ unclosed_of self.now actor count }
    {
        let scope = self.scope_after(count);
        let opening = self.opening(scope)?;
        if opening.actor == actor && !self.closed(scope) {
            Some(scope)
        } else {
            None
        }
    }

    /// The actor's innermost scope: the latest that it opened and has not closed.
    #[tactic(auto, using(scope_rules::proofs::Searching::latest_more), unfolding(scope_rules::specs::Scopes::innermost, scope_rules::specs::Search::latest))]
    pub fn innermost(&self, actor: Actor) -> Option<ScopeId>
        ensures { result ≡ innermost self.now actor }
    {
        let mut found = None;
        for count in 0..self.opened_count() {
            found = self.unclosed_of(actor, count).or(found);
        }
        found
    }

    /// The scope that lies around whatever the actor opens next (Trio: a task inherits the scopes
    /// around the scope that it was forked in).
    #[tactic(auto, unfolding(scope_rules::specs::Scopes::surrounding))]
    pub fn surrounding(&self, actor: Actor) -> Option<ScopeId>
        ensures { result ≡ surrounding self.now actor }
    {
        self.innermost(actor).or(self.forked_in(actor))
    }

    /// The scope in which the actor, a task, was forked.
    fn forked_in(&self, actor: Actor) -> Option<ScopeId>
        ensures { result ≡ forked_in self.now actor }
    {
        match self.forking(actor) {
            Some(forking) => Some(forking.scope),
            None => None,
        }
    }

    /// What lay around the opening.
    fn around(&self, opening: &Opening) -> Option<ScopeId>
        requires { opening.now.place < length self.now.events }
        ensures { result ≡ around self.now opening.now }
    {
        self.before(opening.place).surrounding(opening.actor)
    }

    /// The scope around the scope.
    #[tactic(auto, unfolding(scope_rules::specs::Scopes::parent))]
    pub fn parent(&self, scope: ScopeId) -> Option<ScopeId>
        ensures { result ≡ parent self.now scope }
    {
        let opening = self.opening(scope)?;
        self.around(&opening)
    }

    /// The scope whose cancels reach the scope from outside: its parent, unless it is shielded
    /// (Trio, `shield`).
    #[tactic(auto, unfolding(scope_rules::specs::Scopes::outer))]
    pub fn outer(&self, scope: ScopeId) -> Option<ScopeId>
        ensures { result ≡ outer self.now scope }
    {
        let opening = self.opening(scope)?;
        if opening.options.shield {
            None
        } else {
            self.around(&opening)
        }
    }

    /// How many scopes lie around one another from the scope outwards, of which it looks at so many.
    fn level_within(&self, count: u64, scope: ScopeId) -> u64
        ensures level { result ≡ length (outwards (parent self.now) count scope) }
        ensures bound { result ≤ count }
    {
        if count == 0 {
            return 0;
        }
        match self.parent(scope) {
            Some(parent) => self.level_within(count - 1, parent) + 1,
            None => 1,
        }
    }

    /// The level of what the actor opens next: 1 where nothing lies around it.
    #[tactic(auto, unfolding(scope_rules::specs::Scopes::next_level, scope_rules::specs::Scopes::level, scope_rules::specs::Chains::chain_by))]
    pub fn next_level(&self, actor: Actor) -> u64
        ensures { result ≡ next_level self.now actor }
    {
        match self.surrounding(actor) {
            Some(parent) => self.level_within(u64::from(parent) + 1, parent) + 1,
            None => 1,
        }
    }

    /// Whether one actor opened both scopes.
    fn have_one_opener(&self, one: ScopeId, other: ScopeId) -> bool
        ensures { result ≡ have_one_opener (opening self.now one) (opening self.now other) }
    {
        match (self.opening(one), self.opening(other)) {
            (Some(one), Some(other)) => one.actor == other.actor,
            _ => false,
        }
    }

    /// Whether the beginning of a close, next, covers the scope: the scope that closes, or one that
    /// its owner opened later and has not closed.
    #[tactic(auto, unfolding(scope_rules::specs::Scopes::covers))]
    pub fn covers(&self, closing: ScopeId, scope: ScopeId) -> bool
        ensures { result ≡ covers self.now closing scope }
    {
        closing == scope
            || (closing < scope && !self.closed(scope) && self.have_one_opener(closing, scope))
    }

    /// Whether the event, next, begins a close that covers the scope.
    fn begins_closing(&self, scope: ScopeId, event: &Event) -> bool
        ensures { result ≡ begins_closing self.now scope event.now }
    {
        matches!(*event, Event::BeginClose { scope: closing, .. } if self.covers(closing, scope))
    }

    /// Whether the event at the place begins a close that covers the scope.
    fn closing_at(&self, scope: ScopeId, place: usize) -> bool
        requires { place < length self.now.events }
        ensures { result ≡ closing_at self.now scope place }
    {
        let event = self.event(place);
        self.before(place).begins_closing(scope, event)
    }

    /// Whether the scope is closing or closed.
    #[tactic(auto, using(scope_rules::proofs::Searching::some_below_more), unfolding(scope_rules::specs::Scopes::closing, scope_rules::specs::Search::some_below))]
    pub fn closing(&self, scope: ScopeId) -> bool
        ensures { result ≡ closing self.now scope }
    {
        let mut found = false;
        for place in 0..self.len() {
            found |= self.closing_at(scope, place);
        }
        found
    }
}
