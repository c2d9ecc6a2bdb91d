//! Laws of the places of events, and of the room for them. Each function does nothing: its contract is
//! the law.

ghost use Rattle.scope_journal.specs.{EntriesAreAtPlaces, EventsAreOfOneScope, EventsFindRoom, FreeEventsFindRoom};

/// An event is in the log of one scope at the most: of the one that it opens, that it names, or in which
/// the task was forked that it names.
pub fn events_are_of_one_scope()
    ensures { EventsAreOfOneScope }
{}

/// The entries of a scope's log, its mark left out, are those of the events at the scope's places.
pub fn entries_are_at_places()
    ensures { EntriesAreAtPlaces }
{}

/// An accepted event finds room, if there is room for the load with it; and for one that costs
/// nothing there always is.
pub fn events_find_room()
    ensures paid { EventsFindRoom }
    ensures free { FreeEventsFindRoom }
{}
