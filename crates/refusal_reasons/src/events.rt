//! The events by which the scopes of a legal history were joined and closed, and how far their tasks have ended.

ghost use Rattle.std.specs.Prelude.{◌<◌, ◌≡◌};
ghost use Rattle.refusal_reasons.specs.{IfSome, Legal, Limits, None, begun_place, closed_place, find, is_pending, joined_place, length, take, tasks_of};

use scope_rules::ScopeId;

/// The events of a legal history, by their places, the first one's being 0.
pub trait Events {
    ghost use Rattle.scope_rules.specs.History.{History};

    /// The history of the events.
    ghost history: { Self → History };

    /// How many events there are. It also says that their history is legal.
    fn count(&self) -> usize
        ensures count { result ≡ length (history self.now).events }
        ensures legal { (L : Limits) × Legal L (history self.now) };

    /// The place of the event that joined the scope, if it is joined.
    fn joined_place(&self, scope: ScopeId) -> Option<usize>
        ensures place { result ≡ joined_place (history self.now).events scope }
        ensures within { IfSome result (λ place. place < length (history self.now).events) };

    /// The place of the event that began the close of this very scope, if there is one.
    fn begun_place(&self, scope: ScopeId) -> Option<usize>
        ensures place { result ≡ begun_place (history self.now).events scope }
        ensures within { IfSome result (λ place. place < length (history self.now).events) };

    /// The place of the event that closed the scope, if it is closed.
    fn closed_place(&self, scope: ScopeId) -> Option<usize>
        ensures place { result ≡ closed_place (history self.now).events scope }
        ensures within { IfSome result (λ place. place < length (history self.now).events) };

    /// How many of the scope's first tasks neither wait nor run, as far as is known: 0 is true of every scope. The
    /// larger it is, the sooner is the first found that does.
    fn passed_tasks(&self, scope: ScopeId) -> usize
        ensures { find (is_pending (history self.now)) (take result (tasks_of (history self.now) scope)) ≡ None };
}
