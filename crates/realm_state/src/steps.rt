//! By which events a scope was joined, and its close began and ended.

ghost use Rattle.std.specs.Prelude.{◌<◌, ◌≡◌, IfSome, length};
ghost use Rattle.realm_state.specs.{begin_mark, ends, joins, marks, position, takes};

use crate::realm::RealmState;
use scope_checks::Readings;
use scope_rules::{Event, ScopeId};

/// A step that a scope takes once at most.
#[derive(Clone, Copy)]
enum Step {
    Join,
    BeginClose,
    EndClose,
}

/// Whether by the event the scope takes the step.
fn takes(step: Step, scope: ScopeId, event: &Event) -> bool
    ensures { result ≡ takes step scope event.now }
{
    match (step, *event) {
        (Step::Join, Event::Join { scope: joined, .. }) => joined == scope,
        (Step::BeginClose, Event::BeginClose { scope: closing, .. }) => closing == scope,
        (Step::EndClose, Event::EndClose { scope: closed, .. }) => closed == scope,
        _ => false,
    }
}

/// The places of a scope's steps. Each costs what the scope's own events after the step are, and all of its own
/// if it did not take the step.
impl RealmState {
    /// The place of the event that joined the scope, if it is joined.
    pub fn joined_place(&self, scope: ScopeId) -> Option<usize>
        ensures place { result ≡ position (joins scope) self.now.history.events }
        ensures within { IfSome result (λ place. place < length self.now.history.events) }
    {
        self.step_place(Step::Join, scope)
    }

    /// The place of the event that began the scope's own close, if it has begun.
    pub fn begun_place(&self, scope: ScopeId) -> Option<usize>
        ensures place { result ≡ position (marks begin_mark scope) self.now.history.events }
        ensures within { IfSome result (λ place. place < length self.now.history.events) }
    {
        self.step_place(Step::BeginClose, scope)
    }

    /// The place of the event that closed the scope, if it is closed.
    pub fn closed_place(&self, scope: ScopeId) -> Option<usize>
        ensures place { result ≡ position (ends scope) self.now.history.events }
        ensures within { IfSome result (λ place. place < length self.now.history.events) }
    {
        self.step_place(Step::EndClose, scope)
    }

    /// The place of the event by which the scope took the step, if it did. It walks back along the scope's own
    /// events.
    fn step_place(&self, step: Step, scope: ScopeId) -> Option<usize>
        ensures place { result ≡ position (takes step scope) self.now.history.events }
        ensures within { IfSome result (λ place. place < length self.now.history.events) }
    {
        let _legal = self.limits();
        if self.opening(scope).is_none() {
            return None;
        }
        let mut next = Some(self.trails.last(scope));
        while let Some(place) = next {
            if takes(step, scope, &self.event(place as usize)) {
                return Some(place as usize);
            }
            next = self.trails.back(place);
        }
        None
    }
}
