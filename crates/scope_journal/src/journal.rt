ghost use Rattle.std.specs.Prelude.{◌-◌, ◌<◌, ◌≡◌, ◌≤◌, IfOk, MatchResult, OnErr, OnOk, Some, length, slice_get};
ghost use Rattle.scope_journal.specs.{Accepts, AnswersOrMemory, HasSmallNumbers, IsWithin, Legal, Words.with_event, base_check, base_of, load, realm_given, starting, weight};

use crate::event_list::EventList;
use crate::weights::weight;
use scope_rules::{Base, Event, Limits, Refusal};
use std::alloc::{AllocError, Global};
use std::marker::Model;

/// A realm's limits, its base and its events since. They are always a legal history within the limits,
/// and there is room for each event that may still come at no cost: a scope's join and the beginning and
/// end of its close, a task's start or reject and its end.
#[derive(Drop)]
pub struct Journal {
    limits: Limits,
    base: Base,
    events: EventList,
    load: u64,
    // The load that there is room for.
    reserved: u64,
}

impl Model for Journal {
    ghost use Rattle.std.specs.Prelude.{◌-◌};
    ghost use Rattle.scope_journal.specs.JournalKeeps.{JournalTable, JournalKeeps, HasLoadReserved};

    ghost Value = { JournalTable };

    ghost view = { λ j. record { realm = record { limits = j.limits; history = record { base = j.base; events = j.events.events } }; spare = j.reserved - j.load } };

    ghost invariant = { λ j. JournalKeeps j.limits (record { base = j.base; events = j.events.events }) j.reserved j.load × HasLoadReserved j.events j.reserved j.load };
}

impl Journal {
    ghost use Rattle.scope_rules.specs.Origin.{the_start};

    /// The journal of a fresh realm. It takes no memory; that of later calls comes from `alloc`.
    pub fn new(alloc: Global, limits: Limits) -> Journal
        ensures { result.realm ≡ starting limits the_start }
    {
        Journal {
            limits,
            base: Base::empty(alloc),
            events: EventList::new(alloc),
            load: 0,
            reserved: 0,
        }
    }

    /// The journal of a realm that begins with the base, as a retirement leaves it. Refused if the
    /// base has more pairs than the limit of load (`TooMany`), and if memory is refused (`Memory`).
    pub fn with_base(alloc: Global, limits: Limits, base: Base) -> Result<Journal, Refusal>
        ensures { AnswersOrMemory (base_check limits base) (starting limits base) (realm_given result) }
    {
        let _numbers = (base.scopes(), base.tasks());
        let pairs = base.binds().len();
        if pairs > limits.load as usize {
            return Err(Refusal::TooMany);
        }
        let mut events = EventList::new(alloc);
        let Ok(()) = events.reserve(pairs, 0) else {
            return Err(Refusal::Memory);
        };
        Ok(Journal {
            limits,
            base,
            events,
            load: pairs as u64,
            reserved: pairs as u64,
        })
    }

    /// The allocator that the journal grows by.
    pub fn allocator(&self) -> Global {
        self.events.allocator()
    }

    /// The realm's limits. It also says of the history that it is legal, and within the limits: the
    /// load and the numbers too, the base's counted.
    pub fn limits(&self) -> Limits
        ensures limits { result ≡ self.now.realm.limits }
        ensures legal { Legal self.now.realm.limits self.now.realm.history }
        ensures within { IsWithin self.now.realm.limits self.now.realm.history }
    {
        self.limits
    }

    /// What the history begins with.
    pub fn base(&self) -> &Base
        ensures { result.now ≡ self.now.realm.history.base }
    {
        &self.base
    }

    /// How many events there are since. It also says that places and numbers fit 32 bits.
    #[tactic(auto, using(crate::proofs::Keeping::kept_small))]
    pub fn event_count(&self) -> usize
        ensures count { result ≡ length self.now.realm.history.events }
        ensures small { HasSmallNumbers self.now.realm.history }
    {
        self.events.len()
    }

    /// The event at the place, the first one's being 0.
    pub fn event(&self, place: usize) -> Event
        requires { place < length self.now.realm.history.events }
        ensures { slice_get self.now.realm.history.events place ≡ Some result }
    {
        self.events.event(place)
    }

    /// A copy of the events since, in order.
    ///
    /// # Errors
    ///
    /// If `alloc` refuses the memory of the copy.
    pub fn copied_events(&self, alloc: Global) -> Result<Vec<Event>, AllocError>
        ensures { IfOk result (λ events. events.items ≡ self.now.realm.history.events) }
    {
        self.events.copied(alloc)
    }

    /// The load so far: a unit for each pair of the base, and what the events cost.
    pub fn load(&self) -> u64
        ensures { result ≡ load self.now.realm.history }
    {
        self.load
    }

    /// Makes room for events that cost so much, in units of load.
    ///
    /// # Errors
    ///
    /// If memory is refused. Then nothing has changed.
    pub fn reserve(&mut self, units: u64) -> Result<(), AllocError>
        requires { units ≤ 4 }
        ensures ok { OnOk result (units ≤ self.new.spare) }
        ensures kept { self.new.realm ≡ self.old.realm }
        ensures err { OnErr result (self.new ≡ self.old) }
    {
        let reserved = self.load + units;
        if self.reserved < reserved {
            self.events.reserve(reserved as usize, units as usize)?;
            self.reserved = reserved;
        }
        Ok(())
    }

    /// Appends the event, which was accepted.
    ///
    /// # Errors
    ///
    /// `Memory` if memory is refused. Then nothing has changed.
    pub fn append(&mut self, event: &Event) -> Result<(), Refusal>
        requires { Accepts self.old.realm.limits self.old.realm.history event.now }
        ensures answer { MatchResult result (λ _. self.new.realm ≡ with_event self.old.realm event.now) (λ refusal. (refusal ≡ Refusal.Memory) × (self.new ≡ self.old)) }
    {
        let load = weight(event);
        if self.reserve(load).is_err() {
            return Err(Refusal::Memory);
        }
        self.record(event, load);
        Ok(())
    }

    /// Appends the event, which was accepted and costs this load, and for which there is room: one that costs
    /// nothing always has it.
    pub fn record(&mut self, event: &Event, load: u64)
        requires costs { load ≡ weight event.now }
        requires accepted { Accepts self.old.realm.limits self.old.realm.history event.now }
        requires room { weight event.now ≤ self.old.spare }
        ensures added { self.new.realm ≡ with_event self.old.realm event.now }
        ensures room { self.new.spare ≡ self.old.spare - weight event.now }
        ensures legal { Legal self.new.realm.limits self.new.realm.history }
    {
        self.load += load;
        self.events.push(event);
    }

    /// Leaves the base alone, which is that of the history.
    pub fn reset(&mut self, base: Base)
        requires { base ≡ base_of self.old.realm.history }
        ensures { self.new.realm ≡ starting self.old.realm.limits base }
    {
        self.events.clear();
        self.load = base.binds().len() as u64;
        self.reserved = self.load;
        self.base = base;
    }
}
