ghost use Rattle.std.specs.Prelude.{[], ℕ, ◌+◌, ◌-◌, ◌<◌, ◌≡◌, ◌≤◌, IfOk, OnErr, OnOk, Option, Some, false, length, true};
ghost use Rattle.scope_journal.specs.{AreTrailsOf, Event, HasEventRoom, HasLoadRoom, HasTrail, History, IsLatest, Legal, Limits, Open, Options, Origin, Policy, TrailTable.with_event, back, followed, is_of_at, is_open, last_in};
ghost use Rattle.scope_journal.specs.{no_trails, places_of, scope_of_event, trail_in, with_last, with_open};

use scope_rows::Numbered;
use scope_rules::ScopeId;
use std::alloc::{AllocError, Global};
use std::marker::Model;
use std::mem;

/// The places of each scope's events in a realm's history, the first event's at 0. Beside each event
/// is the place of the event of the same scope before it, and for each scope the place of its last
/// event.
#[derive(Drop)]
pub struct Trails {
    // The first event of a scope, and an event of none, has its own place.
    links: Vec<u32>,
    lasts: Numbered<u32>,
}

impl Model for Trails {
    ghost use Rattle.std.specs.Prelude.{vec_capacity};
    ghost use Rattle.scope_journal.specs.TrailTable.{TrailTable};

    ghost Value = { TrailTable };

    ghost view = { λ t. record { before = t.lasts.before; links = t.links.items; lasts = t.lasts.items; room = vec_capacity t.links; spare = t.lasts.spare } };
}

impl Trails {
    /// No events and no scopes, if so many scopes were numbered before. It takes no memory; that of
    /// later calls comes from `alloc`.
    pub fn new(alloc: Global, before: u32) -> Trails
        ensures trails { result ≡ no_trails before }
        ensures agrees { (base : Origin) → base.scopes ≡ before → AreTrailsOf (record { base = base; events = [] }) result }
    {
        Trails {
            links: Vec::new(alloc),
            lasts: Numbered::new(alloc, before),
        }
    }

    /// Leaves no events and no scopes, if so many scopes were numbered before. It keeps the memory, and
    /// takes none.
    pub fn reset(&mut self, before: u32)
        ensures agrees { (base : Origin) → base.scopes ≡ before → AreTrailsOf (record { base = base; events = [] }) self.new }
    {
        self.links.clear();
        self.lasts.reset(before);
    }

    /// The places of the scope's events, the earliest first, in time by how many they are.
    ///
    /// # Errors
    ///
    /// If `alloc` refuses the memory of the list.
    pub fn places(&self, alloc: Global, scope: ScopeId) -> Result<Vec<u32>, AllocError>
        requires { HasTrail self.now scope }
        ensures list { IfOk result (λ places. places.items ≡ trail_in self.now scope) }
        ensures agrees { IfOk result (λ places. (h : History) → AreTrailsOf h self.now → places.items ≡ places_of h scope) }
    {
        let mut places = Vec::new(alloc);
        let mut next = Some(self.last(scope));
        while let Some(place) = next {
            places.push(place)?;
            next = self.back(place);
        }
        places.reverse();
        Ok(places)
    }

    /// The place of the scope's last event.
    pub fn last(&self, scope: ScopeId) -> u32
        requires { HasTrail self.now scope }
        ensures last { result ≡ last_in self.now scope }
        ensures agrees { (h : History) → AreTrailsOf h self.now → IsLatest h scope (length h.events) (Some result) }
    {
        *self.lasts.get(scope)
    }

    /// The place of the event before this one of the same scope, if there is one.
    pub fn back(&self, place: u32) -> Option<u32>
        ensures link { result ≡ back self.now.links place }
        ensures agrees { (h : History) (s : ℕ) → AreTrailsOf h self.now → HasTrail self.now s → is_of_at h s place ≡ true → IsLatest h s place result }
    {
        let link = *self.links.get(place as usize)?;
        if link < place { Some(link) } else { None }
    }

    /// Makes room for a history of so much load.
    ///
    /// # Errors
    ///
    /// If memory is refused. Then nothing has changed.
    pub fn reserve(&mut self, load: u64) -> Result<(), AllocError>
        ensures ok { OnOk result (load ≤ self.new.room) }
        ensures kept { self.new ≡ record self.old { room = self.new.room } }
        ensures agrees { (h : History) → AreTrailsOf h self.old → AreTrailsOf h self.new }
        ensures err { OnErr result (self.new ≡ self.old) }
    {
        let more = (load as usize).saturating_sub(self.links.len());
        self.links.reserve(more)
    }

    /// Makes room for one scope more.
    ///
    /// # Errors
    ///
    /// If memory is refused. Then nothing has changed.
    pub fn reserve_scope(&mut self) -> Result<(), AllocError>
        ensures ok { OnOk result (1 ≤ self.new.spare) }
        ensures kept { self.new ≡ record self.old { spare = self.new.spare } }
        ensures agrees { (h : History) → AreTrailsOf h self.old → AreTrailsOf h self.new }
        ensures err { OnErr result (self.new ≡ self.old) }
    {
        self.lasts.reserve()
    }

    /// Adds the event at this place, which opens the next scope, if there is room for both. It takes
    /// no memory.
    pub fn open(&mut self, place: u32)
        requires place { place ≡ length self.old.links }
        requires room { HasEventRoom self.old }
        requires spare { 1 ≤ self.old.spare }
        ensures kept { self.new ≡ with_open self.old }
        ensures agrees { (L : Limits) (h : History) (actor : ℕ) (policy : Policy) (options : Options) → let g = followed h (Open actor policy options) in Legal L h → HasLoadRoom g self.old.room → AreTrailsOf h self.old → AreTrailsOf g self.new }
    {
        self.links.push_reserved(place);
        self.lasts.push(place);
    }

    /// Adds the event at this place, of the scope or of none, for which there is room. It is not an open.
    /// It takes no memory.
    pub fn note(&mut self, scope: Option<ScopeId>, place: u32)
        requires place { place ≡ length self.old.links }
        requires room { HasEventRoom self.old }
        requires scope { (s : ℕ) → scope ≡ Some s → HasTrail self.old s }
        ensures kept { self.new ≡ with_event self.old scope }
        ensures agrees { (h : History) (e : Event) → is_open e ≡ false → scope_of_event h e ≡ scope → HasLoadRoom (followed h e) self.old.room → AreTrailsOf h self.old → AreTrailsOf (followed h e) self.new }
    {
        let link = match scope {
            Some(scope) => self.move_last(scope, place),
            None => place,
        };
        self.links.push_reserved(link);
    }

    /// Moves the scope's last place to this one, and answers the one before.
    fn move_last(&mut self, scope: ScopeId, place: u32) -> u32
        requires { HasTrail self.old scope }
        ensures was { result ≡ last_in self.old scope }
        ensures kept { self.new ≡ with_last self.old scope place }
    {
        mem::replace(self.lasts.get_mut(scope), place)
    }
}
