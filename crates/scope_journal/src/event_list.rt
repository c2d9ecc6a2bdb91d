//! A list of events in few bytes.

ghost use Rattle.std.specs.Prelude.{[], ◌++◌, ◌+◌, ◌-◌, ◌<◌, ◌^◌, ◌∷◌, ◌≡◌, ◌≤◌, IfOk, OnErr, OnOk, length, slice_get};
ghost use Rattle.scope_journal.specs.{EventTable.EventTable, HasMoreEventRoom, HasRoom, IsPushed, weight};

use crate::codes::Code;
use crate::entries::Entries;
use scope_rules::Event;
use std::alloc::{AllocError, Global};
use std::marker::Model;

/// A list of events. Each takes sixteen bytes; an open, a bind and an end with a text or a fault take as
/// much as they need beside it, and so does the label of a fork, unless the fork before it had the same.
#[derive(Drop)]
pub struct EventList {
    codes: Vec<Code>,
    entries: Entries,
}

impl Model for EventList {
    ghost use Rattle.std.specs.Prelude.{min, vec_capacity};
    ghost use Rattle.scope_journal.specs.EventTable.{EventTable, AreCodes, events_said};

    ghost Value = { EventTable };

    ghost view = { λ l. record { events = events_said l.entries l.codes.items; room = min (vec_capacity l.codes) l.entries.name_room; spare = l.entries.spare } };

    ghost invariant = { λ l. AreCodes l.entries l.codes.items };
}

impl EventList {
    /// No events. They take no memory; that of later calls comes from `alloc`.
    pub fn new(alloc: Global) -> EventList
        ensures { result ≡ record { events = []; room = 0; spare = 0 } }
    {
        EventList {
            codes: Vec::new(alloc),
            entries: Entries::new(alloc),
        }
    }

    /// The allocator that the list grows by.
    pub fn allocator(&self) -> Global {
        self.entries.allocator()
    }

    /// How many events there are.
    pub fn len(&self) -> usize
        ensures { result ≡ length self.now.events }
    {
        self.codes.len()
    }

    /// The event at the place, the first one's being 0.
    pub fn event(&self, place: usize) -> Event
        requires { place < length self.now.events }
        ensures { slice_get self.now.events place ≡ Some result }
    {
        let code = self.codes[place];
        self.entries.event_of(code)
    }

    /// A copy of the events, in order.
    ///
    /// # Errors
    ///
    /// If `alloc` refuses the memory of the copy.
    pub fn copied(&self, alloc: Global) -> Result<Vec<Event>, AllocError>
        ensures { IfOk result (λ events. events.items ≡ self.now.events) }
    {
        let mut events = Vec::with_capacity(alloc, self.len())?;
        for place in 0..self.len() {
            events.push(self.event(place))?;
        }
        Ok(events)
    }

    /// Makes room for so many events in all, and for the entries of those that cost so much, in units
    /// of load.
    ///
    /// # Errors
    ///
    /// If memory is refused. Then the events are the same.
    pub fn reserve(&mut self, room: usize, units: usize) -> Result<(), AllocError>
        ensures room { OnOk result (room ≤ self.new.room) }
        ensures units { OnOk result (units ≤ self.new.spare) }
        ensures kept { HasMoreEventRoom self.old self.new }
    {
        let more = room.saturating_sub(self.codes.len());
        self.codes.reserve(more)?;
        self.entries.reserve(room, units)
    }

    /// Adds the event, for which there is room. It takes no memory.
    pub fn push(&mut self, event: &Event)
        requires room { HasRoom self.old event.now }
        requires few { length self.old.events < 2 ^ 32 - 1 }
        ensures { IsPushed self.old event.now self.new }
    {
        let code = self.entries.code_of(event);
        self.codes.push_reserved(code);
    }

    /// Discards the events, and keeps their memory.
    pub fn clear(&mut self)
        ensures { self.new ≡ record { events = []; room = self.old.room; spare = self.new.spare } }
    {
        self.codes.clear();
        self.entries.clear();
    }
}
