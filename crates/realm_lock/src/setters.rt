ghost use Rattle.std.specs.Prelude.{[], ◌<◌, ◌≡◌, IfOk, OnSome, length, true};
ghost use Rattle.realm_lock.specs.{AddsSetter, AreBehind, AreMarks, IsCellAt, UsesSetter, history_of, is_cancelled, opened_count};

use cancel_marks::{Bell, CellReservation, MarkCell, MarkSetter};
use realm_core::{RealmCore, RealmName};
use realm_state::RealmState;
use scope_checks::{Readings, queries};
use scope_rules::{Catalog, ScopeId};
use std::alloc::{AllocError, Global};
use std::marker::Model;

/// The setters of the cells of a realm's scopes, in the order of the scopes since the last retirement. They
/// lie beside the core, and `catch_up` has them tell what that has come to know.
#[derive(Drop)]
pub(crate) struct CancelSetters {
    setters: Vec<MarkSetter>,
    // Of how many cancelled scopes they were used, in the order in which these were cancelled.
    marked: usize,
}

impl Model for CancelSetters {
    ghost use Rattle.std.specs.Prelude.{vec_capacity};
    ghost use Rattle.realm_lock.specs.Marked.{MarksValue};

    ghost Value = { MarksValue };

    ghost view = { λ s. record { setters = s.setters.items; room = vec_capacity s.setters; marked = s.marked } };
}

impl CancelSetters {
    /// Those of a realm that begins.
    pub(crate) fn new(alloc: Global) -> CancelSetters
        ensures { (result.setters ≡ []) × (result.marked ≡ 0) }
    {
        CancelSetters {
            setters: Vec::new(alloc),
            marked: 0,
        }
    }

    /// Shared for what is kept of one scope more, if it is obtained.
    pub(crate) fn make_room(&mut self, alloc: Global) -> Option<CellReservation>
        ensures kept { self.new ≡ record self.old { room = self.new.room } }
        ensures room { OnSome result (length self.new.setters < self.new.room) }
    {
        let room = CellReservation::new(alloc).ok()?;
        self.setters.reserve(1).ok()?;
        Some(room)
    }

    /// Adds the setter of a scope that was opened, for which there is room, and gives its cell.
    pub(crate) fn add(&mut self, room: CellReservation, scope: ScopeId) -> MarkCell
        requires { length self.old.setters < self.old.room }
        ensures { AddsSetter self.old self.new scope result }
    {
        let (setter, cell) = room.of(scope);
        self.setters.push_reserved(setter);
        cell
    }

    /// Uses the setters of the scopes that were cancelled since this was last called. It takes no memory,
    /// and time by how many they are.
    pub(crate) fn catch_up<C: Catalog, N: RealmName>(&mut self, core: &mut RealmCore<C, N>)
        requires { AreBehind (history_of core.old.steps) self.old }
        ensures core { core.new ≡ core.old }
        ensures marks { AreMarks (history_of core.new.steps) self.new }
    {
        let mut next = core.nth_cancelled(self.marked);
        while let Some(scope) = next {
            self.use_setter(core.realm(), scope);
            self.marked += 1;
            next = core.nth_cancelled(self.marked);
        }
    }

    /// Uses the setter of a cancelled scope.
    fn use_setter(&mut self, realm: &RealmState, scope: ScopeId)
        requires cancelled { is_cancelled realm.now.history scope ≡ true }
        requires each { length self.old.setters ≡ opened_count realm.now.history }
        ensures { UsesSetter realm.now.history scope self.old self.new }
    {
        let Some((number, cause)) = queries::cancellation(realm, scope) else {
            unreachable!()
        };
        let place = (scope - realm.retired_scopes() - 1) as usize;
        self.setters[place].set(cause, number);
    }

    /// Wakes who sleeps at the cell of the scope.
    pub(crate) fn wake(&self, realm: &RealmState, scope: ScopeId) {
        if let Some(setter) = self.setter(realm, scope) {
            setter.wake();
        }
    }

    /// The setter of the scope, if it was opened since the last retirement.
    fn setter(&self, realm: &RealmState, scope: ScopeId) -> Option<&MarkSetter> {
        self.setters.get(place_since(realm, scope)?)
    }

    /// Notes a bell whose sleeper is woken when the scope becomes cancelled, and gives its place at the scope. None if
    /// memory is refused, or the scope lies before a retirement.
    pub(crate) fn note_bell(
        &mut self,
        realm: &RealmState,
        scope: ScopeId,
        bell: Bell,
    ) -> Option<usize>
        ensures { self.new ≡ self.old }
    {
        let index = place_since(realm, scope)?;
        self.setters.get_mut(index)?.note_bell(bell)
    }

    /// The bell at that place is noted no longer.
    pub(crate) fn forget_bell(&mut self, realm: &RealmState, scope: ScopeId, place: usize)
        ensures { self.new ≡ self.old }
    {
        if let Some(index) = place_since(realm, scope) {
            if let Some(setter) = self.setters.get_mut(index) {
                setter.forget_bell(place);
            }
        }
    }

    /// The cell of the scope at the place, for one holder more.
    pub(crate) fn cell_at(&self, place: usize) -> Result<MarkCell, AllocError>
        requires { place < length self.now.setters }
        ensures { IfOk result (λ cell. IsCellAt self.now.setters place cell) }
    {
        self.setters[place].cell()
    }

    /// Lets go of what belongs to the scopes before a retirement.
    pub(crate) fn clear(&mut self)
        ensures { (self.new.setters ≡ []) × (self.new.marked ≡ 0) }
    {
        self.setters.clear();
        self.marked = 0;
    }
}

/// The place of a scope among those that were opened since the last retirement, if it was.
fn place_since(realm: &RealmState, scope: ScopeId) -> Option<usize> {
    let before = u64::from(realm.retired_scopes()) + 1;
    Some(u64::from(scope).checked_sub(before)? as usize)
}
