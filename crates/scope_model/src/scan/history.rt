ghost use Rattle.std.specs.Prelude.{◌+◌, ◌<◌, ◌^◌, ◌≡◌, ◌≤◌};
ghost use Rattle.scope_model.specs.{IfSome, Some, earliest, forking, forking_of, is_fork, is_open, is_some, last_of, length, moment, numbered_at, opening, opening_of};
ghost use Rattle.scope_model.specs.{tick_of};

use crate::scan::view::HistoryView;
use scope_rules::types::events::Event;
use scope_rules::types::records::{Forking, Opening};
use scope_rules::types::values::{ScopeId, TaskId};

/// What an event gives a number to: a scope at its opening, a task at its forking.
trait Numbered: Copy {
    ghost use Rattle.std.specs.Prelude.{ℕ, Bool, Option};
    ghost use Rattle.scope_rules.specs.declared.types.events.Event.{Event};

    ghost kind: { Event → Bool };

    ghost shown: { ℕ → Event → Option Self };

    ghost stands_at: { Self → ℕ };

    /// It, if the event at the place is of the kind.
    fn shown_by(place: usize, event: &Event) -> Option<Self>
        ensures shows { result ≡ shown place event.now }
        ensures kind { is_some result ≡ kind event.now }
        ensures placed { IfSome result (λ it. stands_at it ≡ place) };
}

impl Numbered for Opening {
    ghost kind = { is_open };

    ghost shown = { opening_of };

    ghost stands_at = { λ o. o.place };

    fn shown_by(place: usize, event: &Event) -> Option<Opening> {
        match *event {
            Event::Open {
                actor,
                policy,
                options,
            } => Some(Opening {
                place,
                actor,
                policy,
                options,
            }),
            _ => None,
        }
    }
}

impl Numbered for Forking {
    ghost kind = { is_fork };

    ghost shown = { forking_of };

    ghost stands_at = { λ f. f.place };

    fn shown_by(place: usize, event: &Event) -> Option<Forking> {
        match *event {
            Event::Fork {
                actor,
                scope,
                label,
            } => Some(Forking {
                place,
                actor,
                scope,
                label,
            }),
            _ => None,
        }
    }
}

/// What got the number, if it was given since the base, whose numbers end with `last`.
fn find_numbered<R: Numbered>(view: &HistoryView<'_>, last: u32, number: u32) -> Option<R>
    ensures found { result ≡ earliest (numbered_at R.kind R.shown last view.now.events number) (length view.now.events) }
    ensures within { IfSome result (λ it. R.stands_at it < length view.now.events) }
{
    let wanted = u64::from(number);
    let mut given = u64::from(last);
    for place in 0..view.len() {
        if let Some(found) = R::shown_by(place, view.event(place)) {
            if given + 1 == wanted {
                return Some(found);
            }
            given += 1;
        }
    }
    None
}

impl<'a> HistoryView<'a> {
    /// The opening of the scope, if it was opened since the base.
    #[tactic(auto, unfolding(scope_rules::specs::History::opening))]
    pub fn opening(&self, scope: ScopeId) -> Option<Opening>
        ensures found { result ≡ opening self.now scope }
        ensures within { IfSome result (λ o. o.place < length self.now.events) }
    {
        find_numbered(self, self.base().scopes(), scope)
    }

    /// The forking of the task, if it was forked since the base.
    #[tactic(auto, unfolding(scope_rules::specs::History::forking))]
    pub fn forking(&self, task: TaskId) -> Option<Forking>
        ensures found { result ≡ forking self.now task }
        ensures within { IfSome result (λ f. f.place < length self.now.events) }
    {
        find_numbered(self, self.base().tasks(), task)
    }

    /// The moment, in milliseconds: that of the last tick.
    #[tactic(auto, unfolding(scope_rules::specs::History::moment))]
    pub fn moment(&self) -> u64
        ensures { result ≡ moment self.now }
    {
        self.last_tick().unwrap_or(self.base().moment())
    }

    /// The moment that the last tick set.
    #[tactic(auto, using(scope_rules::proofs::Prefixes::last_of_more), unfolding(scope_rules::specs::Search::last_of))]
    fn last_tick(&self) -> Option<u64>
        ensures { result ≡ last_of tick_of self.now.events }
    {
        let mut last = None;
        for place in 0..self.len() {
            last = tick_of(self.event(place)).or(last);
        }
        last
    }
}

/// The moment that the event sets, if it is a tick.
fn tick_of(event: &Event) -> Option<u64>
    ensures { result ≡ tick_of event.now }
{
    match *event {
        Event::Tick { now } => Some(now),
        _ => None,
    }
}
