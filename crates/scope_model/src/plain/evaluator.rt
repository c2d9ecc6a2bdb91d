ghost use Rattle.std.specs.Prelude.{◌≡◌};
ghost use Rattle.scope_model.specs.{Accepts, AnswersOrMemory, IsRuled, Words.Legal, MatchResult, base_check, base_of, starting, weight, with_event};

use crate::scan::view::HistoryView;
use scope_journal::{Journal, weight};
use scope_rules::types::bases::Base;
use scope_rules::types::capacity::Limits;
use scope_rules::types::events::Event;
use scope_rules::types::refusals::Refusal;
use std::alloc::Global;
use std::marker::Model;

/// A realm that keeps its journal, and beside it the events as they are, and answers each query by
/// scanning these. It is slow on purpose: it is the definitions' plain program, against which faster ones
/// are tested.
#[derive(Drop)]
pub struct Plain {
    journal: Journal,
    events: Vec<Event>,
}

impl Model for Plain {
    ghost use Rattle.std.specs.Prelude.{vec_capacity};
    ghost use Rattle.scope_rules.specs.Replies.{Realm};
    ghost use Rattle.scope_model.specs.Events.{AreEventsOf};

    ghost Value = { Realm };

    ghost view = { λ p. p.journal.realm };

    ghost invariant = { λ p. AreEventsOf p.journal.realm.history p.events.items (vec_capacity p.events) };
}

impl Plain {
    ghost use Rattle.scope_rules.specs.Origin.{the_start};

    /// A fresh realm.
    pub fn new(alloc: Global, limits: Limits) -> Plain
        ensures { result ≡ starting limits the_start }
    {
        Plain {
            journal: Journal::new(alloc, limits),
            events: Vec::new(alloc),
        }
    }

    /// A realm that begins with the base, as a retirement leaves it. Refused if the base has more
    /// pairs than the limit of load (`TooMany`), and if memory is refused (`Memory`).
    pub fn with_base(alloc: Global, limits: Limits, base: Base) -> Result<Plain, Refusal>
        ensures { AnswersOrMemory (base_check limits base) (starting limits base) result }
    {
        let journal = Journal::with_base(alloc, limits, base)?;
        let Ok(events) = Vec::with_capacity(alloc, journal.base().binds().len()) else {
            return Err(Refusal::Memory);
        };
        Ok(Plain { journal, events })
    }

    /// The allocator that the realm grows by.
    pub(crate) fn allocator(&self) -> Global {
        self.journal.allocator()
    }

    /// The realm's limits. It also says of the history that it is legal, and within the limits: the
    /// load and the numbers too, the base's counted.
    pub fn limits(&self) -> Limits
        ensures { IsRuled self.now result }
    {
        self.journal.limits()
    }

    /// The realm's history, to be read by a scan of its events.
    pub fn view(&self) -> HistoryView<'_>
        ensures { result ≡ self.now.history }
    {
        let _small = self.journal.event_count();
        HistoryView::new(self.journal.base(), &self.events)
    }

    /// Appends the event, which was accepted, or is refused memory.
    pub(crate) fn try_append(&mut self, event: Event) -> Result<(), Refusal>
        requires { Accepts self.old.limits self.old.history event }
        ensures answer { MatchResult result (λ _. self.new ≡ with_event self.old event) (λ refusal. (refusal ≡ Refusal.Memory) × (self.new ≡ self.old)) }
    {
        let load = (self.journal.load() + weight(&event)) as usize;
        let more = load.saturating_sub(self.events.len());
        let Ok(()) = self.events.reserve(more) else {
            return Err(Refusal::Memory);
        };
        let _legal = self.journal.limits();
        self.journal.append(&event)?;
        self.events.push_reserved(event);
        Ok(())
    }

    /// Appends the event, which was accepted and for which there is room.
    pub(crate) fn record(&mut self, event: Event)
        requires accepted { Accepts self.old.limits self.old.history event }
        requires free { weight event ≡ 0 }
        ensures added { self.new ≡ with_event self.old event }
        ensures legal { Legal self.new.limits self.new.history }
    {
        let _legal = self.journal.limits();
        self.journal.record(&event, 0);
        self.events.push_reserved(event);
    }

    /// Leaves the base alone, which is the history's.
    pub(crate) fn reset(&mut self, base: Base)
        requires { base ≡ base_of self.old.history }
        ensures { self.new ≡ starting self.old.limits base }
    {
        self.journal.reset(base);
        self.events.clear();
    }
}
