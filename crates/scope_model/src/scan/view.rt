ghost use Rattle.std.specs.Prelude.{◌+◌, ◌<◌, ◌^◌, ◌≡◌, ◌≤◌};
ghost use Rattle.scope_model.specs.{HasSmallNumbers, Some, before, count_by, forked_count, is_fork, is_open, length, opened_count, scopes, slice_get, tasks};

use scope_rules::types::bases::Base;
use scope_rules::types::events::Event;
use std::marker::Model;

/// A history as it is read: the base and the events since, or the first of these. Its numbers fit
/// 32 bits.
#[derive(Drop)]
pub struct HistoryView<'a> {
    base: &'a Base,
    events: &'a [Event],
}

impl<'a> Model for HistoryView<'a> {
    ghost use Rattle.scope_rules.specs.History.{History, HasSmallNumbers};

    ghost Value = { History };

    ghost view = { λ p. record { base = p.base.now; events = p.events.now } };

    ghost invariant = { λ p. HasSmallNumbers (record { base = p.base.now; events = p.events.now }) };
}

impl<'a> HistoryView<'a> {
    ghost use Rattle.scope_rules.specs.History.{History};

    /// The base with these events after it.
    pub fn new(base: &'a Base, events: &'a [Event]) -> HistoryView<'a>
        requires { HasSmallNumbers (record { base = base.now; events = events.now }) }
        ensures { result ≡ record { base = base.now; events = events.now } }
    {
        HistoryView { base, events }
    }

    /// The history before the place.
    #[tactic(auto, using(scope_rules::proofs::Prefixes::small_before))]
    pub fn before(&self, place: usize) -> HistoryView<'a>
        requires { place ≤ length self.now.events }
        ensures { result ≡ before self.now place }
    {
        HistoryView {
            base: self.base,
            events: &self.events[..place],
        }
    }

    /// The history up to the place and with it.
    pub fn through(&self, place: usize) -> HistoryView<'a>
        requires { place < length self.now.events }
        ensures { result ≡ before self.now (place + 1) }
    {
        let count = self.events[..place].len() + 1;
        self.before(count)
    }

    /// What the history begins with.
    pub fn base(&self) -> &'a Base
        ensures { result.now ≡ self.now.base }
    {
        self.base
    }

    /// The events, in order.
    pub fn events(&self) -> &'a [Event]
        ensures { result.now ≡ self.now.events }
    {
        self.events
    }

    /// How many events there are.
    pub fn len(&self) -> usize
        ensures count { result ≡ length self.now.events }
        ensures small { result < 2 ^ 32 }
    {
        self.events.len()
    }

    /// The event at the place.
    pub fn event(&self, place: usize) -> &'a Event
        requires { place < length self.now.events }
        ensures { slice_get self.now.events place ≡ Some result.now }
    {
        event_at(self.events, place)
    }

    /// How many scopes were opened since the base.
    pub fn opened_count(&self) -> u32
        ensures { result ≡ opened_count self.now }
    {
        count_opened(self.events)
    }

    /// How many scopes were numbered so far: the number of the last one.
    pub fn scopes(&self) -> u32
        ensures { result ≡ scopes self.now }
    {
        self.base.scopes() + count_opened(self.events)
    }

    /// How many tasks were forked since the base.
    pub fn forked_count(&self) -> u32
        ensures { result ≡ forked_count self.now }
    {
        count_forked(self.events)
    }

    /// The task that was forked after this many since the base.
    pub fn task_after(&self, count: u32) -> u32
        requires { count < forked_count self.now }
        ensures { result ≡ self.now.base.tasks + 1 + count }
    {
        let _forked_fit = count_forked(self.events);
        self.base.tasks() + 1 + count
    }

    /// The scope that was opened after this many since the base.
    pub fn scope_after(&self, count: u32) -> u32
        requires { count < opened_count self.now }
        ensures { result ≡ self.now.base.scopes + 1 + count }
    {
        let _opened_fit = count_opened(self.events);
        self.base.scopes() + 1 + count
    }

    /// How many tasks were numbered so far: the number of the last one.
    pub fn tasks(&self) -> u32
        ensures { result ≡ tasks self.now }
    {
        self.base.tasks() + count_forked(self.events)
    }
}

/// The event at the place.
fn event_at(events: &[Event], place: usize) -> &Event
    requires { place < length events.now }
    ensures { slice_get events.now place ≡ Some result.now }
{
    &events[place]
}

/// How many of the events open a scope.
fn count_opened(events: &[Event]) -> u32
    requires { count_by is_open events.now < 2 ^ 32 }
    ensures { result ≡ count_by is_open events.now }
{
    events.iter().filter(|event| is_open(event)).count() as u32
}

/// How many of the events fork a task.
fn count_forked(events: &[Event]) -> u32
    requires { count_by is_fork events.now < 2 ^ 32 }
    ensures { result ≡ count_by is_fork events.now }
{
    events.iter().filter(|event| is_fork(event)).count() as u32
}

/// Whether the event opens a scope.
fn is_open(event: &Event) -> bool
    ensures { result ≡ is_open event.now }
{
    matches!(event, Event::Open { .. })
}

/// Whether the event forks a task.
fn is_fork(event: &Event) -> bool
    ensures { result ≡ is_fork event.now }
{
    matches!(event, Event::Fork { .. })
}
