//! The cancelled scopes of a tree, in order of their cancellation.
ghost use Rattle.std.specs.Prelude.{[], ℕ, ◌++◌, ◌+◌, ◌<◌, ◌∷◌, ◌≡◌, ◌≤◌, IsPermutation, OnOk, Option, Some, cond, drop, false, if◌then◌else◌, is_ok, length, true, vec_capacity};
ghost use Rattle.cancel_tree.specs.{AreRuns, IsGrown, IsOnce};

use scope_rules::ScopeId;
use std::alloc::{AllocError, Global};

/// The cancelled scopes. Those that one event cancelled are in order of their numbers once they are
/// asked for: the last of these runs is put in order then, or when the next one begins.
#[derive(Drop)]
pub(crate) struct CancelOrder {
    pub(crate) scopes: Vec<ScopeId>,
    /// Where the last run begins.
    run: usize,
    /// The place of the event that cancelled the scopes of the last run.
    place: usize,
    /// Whether the last run is in order.
    in_order: bool,
}

impl CancelOrder {
    /// No scopes. The memory of later calls comes from `alloc`.
    pub(crate) fn new(alloc: Global) -> CancelOrder
        ensures none { result.scopes.items ≡ [] }
        ensures run { result.run ≡ 0 }
        ensures place { result.place ≡ 0 }
    {
        CancelOrder {
            scopes: Vec::new(alloc),
            run: 0,
            place: 0,
            in_order: true,
        }
    }

    /// Leaves no scopes. It keeps the memory, and takes none.
    pub(crate) fn clear(&mut self)
        ensures none { self.new.scopes.items ≡ [] }
        ensures run { self.new.run ≡ 0 }
        ensures place { self.new.place ≡ 0 }
    {
        self.scopes.clear();
        self.run = 0;
        self.place = 0;
        self.in_order = true;
    }

    /// Makes room for so many scopes in all. Refused if memory is.
    pub(crate) fn make_room(&mut self, all: usize) -> Result<(), AllocError>
        ensures room { OnOk result (all ≤ vec_capacity self.new.scopes) }
        ensures kept_room { vec_capacity self.old.scopes ≤ vec_capacity self.new.scopes }
        ensures scopes { self.new.scopes.items ≡ self.old.scopes.items }
        ensures run { self.new.run ≡ self.old.run }
        ensures place { self.new.place ≡ self.old.place }
        ensures in_order { self.new.in_order ≡ self.old.in_order }
    {
        self.scopes.reserve(all.saturating_sub(self.scopes.len()))
    }

    /// Puts the last run in order. Takes no memory.
    pub(crate) fn order(&mut self)
        ensures runs { (when : ℕ → Option ℕ) → IsOnce self.old.scopes.items → AreRuns when self.old → AreRuns when self.new }
        ensures moved { IsPermutation self.old.scopes.items self.new.scopes.items }
        ensures place { self.new.place ≡ self.old.place }
        ensures room { vec_capacity self.new.scopes ≡ vec_capacity self.old.scopes }
        ensures in_order { self.new.in_order ≡ true }
    {
        if !self.in_order {
            self.sort_run();
            self.in_order = true;
        }
    }

    /// Sorts the last run by the numbers.
    fn sort_run(&mut self)
        ensures runs { (when : ℕ → Option ℕ) → IsOnce self.old.scopes.items → AreRuns when self.old → AreRuns when (record self.new { in_order = true }) }
        ensures moved { IsPermutation self.old.scopes.items self.new.scopes.items }
        ensures place { self.new.place ≡ self.old.place }
        ensures room { vec_capacity self.new.scopes ≡ vec_capacity self.old.scopes }
    {
        if self.run < self.scopes.len() {
            self.scopes[self.run..].sort_unstable();
        }
    }

    /// The scopes that are listed next became cancelled at this place, which never falls. Takes no
    /// memory.
    pub(crate) fn begin(&mut self, place: usize)
        requires later { self.old.place ≤ place }
        ensures runs { (when : ℕ → Option ℕ) → IsOnce self.old.scopes.items → AreRuns when self.old → AreRuns when self.new }
        ensures moved { IsPermutation self.old.scopes.items self.new.scopes.items }
        ensures place { self.new.place ≡ place }
        ensures room { vec_capacity self.new.scopes ≡ vec_capacity self.old.scopes }
        ensures in_order { self.new.in_order ≡ false }
    {
        if self.place < place {
            self.begin_run(place);
        } else {
            self.in_order = false;
        }
    }

    /// Begins a run of a later place.
    fn begin_run(&mut self, place: usize)
        requires later { self.old.place < place }
        ensures runs { (when : ℕ → Option ℕ) → IsOnce self.old.scopes.items → AreRuns when self.old → AreRuns when self.new }
        ensures moved { IsPermutation self.old.scopes.items self.new.scopes.items }
        ensures place { self.new.place ≡ place }
        ensures room { vec_capacity self.new.scopes ≡ vec_capacity self.old.scopes }
        ensures in_order { self.new.in_order ≡ false }
    {
        self.order();
        self.run = self.scopes.len();
        self.place = place;
        self.in_order = false;
    }

    /// Lists the scope at the end, if there is room.
    pub(crate) fn push(&mut self, scope: ScopeId)
        requires room { length self.old.scopes.items < vec_capacity self.old.scopes }
        ensures grown { IsGrown self.old self.new }
        ensures scopes { self.new.scopes.items ≡ self.old.scopes.items ++ scope ∷ [] }
    {
        self.scopes.push_reserved(scope);
    }

    /// Lists a scope that is cancelled from the start, at the place of its opening. Takes no memory.
    pub(crate) fn add(&mut self, scope: ScopeId, is_cancelled: bool, opened: usize)
        requires room { length self.old.scopes.items < vec_capacity self.old.scopes }
        requires later { self.old.place ≤ opened }
        ensures runs { (when : ℕ → Option ℕ) → IsOnce self.old.scopes.items → AreRuns when self.old → (is_cancelled ≡ true → when scope ≡ Some opened) → AreRuns when self.new }
        ensures moved { IsPermutation (if is_cancelled then self.old.scopes.items ++ scope ∷ [] else self.old.scopes.items) self.new.scopes.items }
        ensures place { self.new.place ≡ (if is_cancelled then opened else self.old.place) }
        ensures room { vec_capacity self.new.scopes ≡ vec_capacity self.old.scopes }
    {
        if is_cancelled {
            self.begin(opened);
            self.push(scope);
        }
    }

    /// The scopes from the n-th on, from 0: none if there are no more than n.
    pub(crate) fn since(&self, n: usize) -> &[ScopeId]
        ensures { result.now ≡ drop n self.now.scopes.items }
    {
        let from = n.min(self.scopes.len());
        &self.scopes[from..]
    }
}
