ghost use Rattle.std.specs.Prelude.{◌+◌, ◌<◌, ◌≡◌, ◌≤◌};
ghost use Rattle.scope_model.specs.{IfSome, Some, cancelled_at, cancelled_before, cause, counting_deadline, deadline, direct_kind, earliest, earliest_on, effective, first_cancel};
ghost use Rattle.scope_model.specs.{is_cancelled, kind_by, last_of, least_on, length, move_of, nearer, outer, outwards, overdue, own, own_at, own_cancel, sooner};

use crate::scan::view::HistoryView;
use scope_rules::types::answers::{Cause, CauseKind, Effective};
use scope_rules::types::events::Event;
use scope_rules::types::records::{FirstCancel, OwnCancel};
use scope_rules::types::values::ScopeId;

impl<'a> HistoryView<'a> {
    /// The deadline that the scope's last move set.
    #[tactic(auto, unfolding(scope_rules::specs::Search::last_of))]
    fn last_move(&self, scope: ScopeId) -> Option<Option<u64>>
        ensures { result ≡ last_of (move_of scope) self.now.events }
    {
        let mut last = None;
        for place in 0..self.len() {
            last = move_of(scope, self.event(place)).or(last);
        }
        last
    }

    /// The deadline of the scope: that of its last move, or else of its opening.
    #[tactic(auto, unfolding(scope_rules::specs::Cancels::deadline))]
    pub fn deadline(&self, scope: ScopeId) -> Option<u64>
        ensures { result ≡ deadline self.now scope }
    {
        match self.last_move(scope) {
            Some(moved) => moved,
            None => match self.opening(scope) {
                Some(opening) => opening.options.deadline,
                None => None,
            },
        }
    }

    /// Whether the scope isn't joined and its deadline has come.
    #[tactic(auto, unfolding(scope_rules::specs::Cancels::overdue))]
    fn overdue(&self, scope: ScopeId) -> bool
        ensures { result ≡ overdue self.now scope }
    {
        if self.joined(scope) {
            return false;
        }
        match self.deadline(scope) {
            Some(deadline) => deadline <= self.moment(),
            None => false,
        }
    }

    /// What the event, next, does to the scope by itself.
    fn direct_kind(&self, scope: ScopeId, event: &Event) -> Option<CauseKind>
        ensures { result ≡ direct_kind self.now scope event.now }
    {
        match *event {
            Event::Cancel { scope: cancelled } => {
                if cancelled == scope {
                    Some(CauseKind::Call)
                } else {
                    None
                }
            }
            Event::BeginClose {
                actor: _,
                scope: closing,
            } => {
                if self.covers(closing, scope) {
                    Some(CauseKind::Close)
                } else {
                    None
                }
            }
            _ => None,
        }
    }

    /// What gives the scope its own cancel at the place.
    fn kind_by(&self, scope: ScopeId, place: usize, event: &Event) -> Option<CauseKind>
        requires { place < length self.now.events }
        ensures { result ≡ kind_by self.now scope place event.now }
    {
        if let Some(kind) = self.before(place).direct_kind(scope, event) {
            return Some(kind);
        }
        let with_it = self.through(place);
        if with_it.joiner_fires(scope, event) {
            return Some(CauseKind::Joiner);
        }
        if with_it.overdue(scope) {
            return Some(CauseKind::Deadline);
        }
        None
    }

    /// The scope's own cancel, if the event at the place gives it one.
    #[tactic(auto, unfolding(scope_rules::specs::Cancels::own_at))]
    fn own_at(&self, scope: ScopeId, place: usize) -> Option<OwnCancel>
        requires { place < length self.now.events }
        ensures { result ≡ own_at self.now scope place }
    {
        if self.through(place).opening(scope).is_none() {
            return None;
        }
        let kind = self.kind_by(scope, place, self.event(place))?;
        Some(OwnCancel { place, kind })
    }

    /// The scope's own cancel: at the first event, not before its opening, that gives it one.
    #[tactic(auto, using(scope_rules::proofs::Searching::earliest_found, scope_rules::proofs::Searching::earliest_none_step), unfolding(scope_rules::specs::Cancels::own, scope_rules::specs::Search::earliest))]
    pub fn own(&self, scope: ScopeId) -> Option<OwnCancel>
        ensures { result ≡ own self.now scope }
    {
        for place in 0..self.len() {
            let own = self.own_at(scope, place);
            if own.is_some() {
                return own;
            }
        }
        None
    }

    /// The scope's own cancel, as a cause.
    fn own_cancel(&self, scope: ScopeId) -> Option<FirstCancel>
        ensures { result ≡ own_cancel self.now scope }
    {
        let own = self.own(scope)?;
        Some(FirstCancel {
            place: own.place,
            cause: Cause {
                scope,
                kind: own.kind,
            },
        })
    }

    /// The earliest own cancel of the scopes from the scope outwards, of which it looks at so many;
    /// the nearest on a tie.
    #[tactic(auto, using(scope_rules::proofs::ChainLaws::nearer_none))]
    fn cancel_within(&self, count: u64, scope: ScopeId) -> Option<FirstCancel>
        ensures { result ≡ earliest_on (own_cancel self.now) (outwards (outer self.now) count scope) }
    {
        if count == 0 {
            return None;
        }
        let own = self.own_cancel(scope);
        match self.outer(scope) {
            Some(outer) => nearer(own, self.cancel_within(count - 1, outer)),
            None => own,
        }
    }

    /// Why the scope is cancelled, with the place of the event that did it: the earliest own cancel
    /// on its chain, the nearest on a tie.
    #[tactic(auto, unfolding(scope_rules::specs::Cancels::first_cancel, scope_rules::specs::Chains::first_cancel_by, scope_rules::specs::Chains::chain_by))]
    pub fn first_cancel(&self, scope: ScopeId) -> Option<FirstCancel>
        ensures { result ≡ first_cancel self.now scope }
    {
        self.cancel_within(u64::from(scope) + 1, scope)
    }

    /// Why the scope is cancelled.
    #[tactic(auto, unfolding(scope_rules::specs::Cancels::cause))]
    pub fn cause(&self, scope: ScopeId) -> Option<Cause>
        ensures { result ≡ cause self.now scope }
    {
        let first_cancel = self.first_cancel(scope)?;
        Some(first_cancel.cause)
    }

    /// Whether the scope is cancelled.
    #[tactic(auto, unfolding(scope_rules::specs::Cancels::is_cancelled))]
    pub fn is_cancelled(&self, scope: ScopeId) -> bool
        ensures { result ≡ is_cancelled self.now scope }
    {
        self.first_cancel(scope).is_some()
    }

    /// The place of the event by which the scope became cancelled, not before its opening.
    #[tactic(auto, unfolding(scope_rules::specs::Cancels::cancelled_at))]
    pub fn cancelled_at(&self, scope: ScopeId) -> Option<usize>
        ensures { result ≡ cancelled_at self.now scope }
    {
        let opening = self.opening(scope)?;
        let first_cancel = self.first_cancel(scope)?;
        Some(opening.place.max(first_cancel.place))
    }

    /// Whether the scope became cancelled before the place.
    #[tactic(auto, unfolding(scope_rules::specs::Cancels::cancelled_before))]
    pub fn cancelled_before(&self, scope: ScopeId, place: usize) -> bool
        ensures { result ≡ cancelled_before self.now scope place }
    {
        match self.cancelled_at(scope) {
            Some(at) => at < place,
            None => false,
        }
    }

    /// The scope's deadline, while it counts: until the scope is joined.
    #[tactic(auto, unfolding(scope_rules::specs::Cancels::counting_deadline))]
    fn counting_deadline(&self, scope: ScopeId) -> Option<u64>
        ensures { result ≡ counting_deadline self.now scope }
    {
        if self.joined(scope) {
            return None;
        }
        self.deadline(scope)
    }

    /// The least deadline that counts, of the scopes from the scope outwards, of which it looks at so
    /// many.
    #[tactic(auto, using(scope_rules::proofs::ChainLaws::sooner_none))]
    fn least_within(&self, count: u64, scope: ScopeId) -> Option<u64>
        ensures { result ≡ least_on (counting_deadline self.now) (outwards (outer self.now) count scope) }
    {
        if count == 0 {
            return None;
        }
        let own = self.counting_deadline(scope);
        match self.outer(scope) {
            Some(outer) => sooner(own, self.least_within(count - 1, outer)),
            None => own,
        }
    }

    /// The earliest deadline in effect for the scope (Trio, `current_effective_deadline`).
    #[tactic(auto, unfolding(scope_rules::specs::Cancels::effective, scope_rules::specs::Cancels::is_cancelled, scope_rules::specs::Cancels::first_cancel, scope_rules::specs::Chains::chain_by))]
    pub fn effective(&self, scope: ScopeId) -> Effective
        ensures { result ≡ effective self.now scope }
    {
        if self.is_cancelled(scope) {
            return Effective::Past;
        }
        match self.least_within(u64::from(scope) + 1, scope) {
            Some(deadline) => Effective::At(deadline),
            None => Effective::Never,
        }
    }
}

/// The deadline that the event sets for the scope, if it is a move of it.
fn move_of(scope: ScopeId, event: &Event) -> Option<Option<u64>>
    ensures { result ≡ move_of scope event.now }
{
    match *event {
        Event::Move {
            scope: moved,
            deadline,
        } => { if moved == scope { Some(deadline) } else { None } }
        _ => None,
    }
}

/// The earlier of the two; the near one on a tie.
fn nearer(near: Option<FirstCancel>, far: Option<FirstCancel>) -> Option<FirstCancel>
    ensures { result ≡ nearer near far }
{
    match (near, far) {
        (None, far) => far,
        (Some(near), None) => Some(near),
        (Some(near), Some(far)) => {
            if near.place <= far.place {
                Some(near)
            } else {
                Some(far)
            }
        }
    }
}

/// The sooner of the two, if they are set.
fn sooner(one: Option<u64>, other: Option<u64>) -> Option<u64>
    ensures { result ≡ sooner one other }
{
    match (one, other) {
        (None, other) => other,
        (Some(one), None) => Some(one),
        (Some(one), Some(other)) => Some(one.min(other)),
    }
}
