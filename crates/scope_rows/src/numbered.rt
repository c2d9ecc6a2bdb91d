//! Lists that go by a number, as that of a scope or a task.

ghost use Rattle.std.specs.Prelude.{ℕ, ◌+◌, ◌<◌, ◌≡◌, ◌≤◌, OnErr, OnOk, length, option_map, slice_index_or, vec_capacity, vec_len};
ghost use Rattle.scope_rows.specs.{HasEntry, cleared, no_entries, place_of, row_of, sem, with_next};

use std::alloc::{AllocError, Global};
use std::marker::Model;

/// A list with an entry for each number after those that were given before. Each call takes constant
/// time.
#[derive(Drop)]
pub struct Numbered<T> {
    before: u32,
    items: Vec<T>,
}

impl<T> Model for Numbered<T> {
    ghost use Rattle.std.specs.Prelude.{◌-◌, vec_capacity, vec_len};
    ghost use Rattle.scope_rows.specs.Numbered.{Entries};

    ghost Value = { Entries T };

    ghost view = { λ n. record { before = n.before; items = n.items.items; spare = vec_capacity n.items - vec_len n.items } };
}

impl<T: Drop> Numbered<T> {
    ghost use Rattle.scope_rows.specs.NumberedLends.{LendsEntry};

    /// No entries, if so many numbers were given before. It takes no memory; that of later calls comes
    /// from `alloc`.
    pub fn new(alloc: Global, before: u32) -> Numbered<T>
        ensures { result ≡ no_entries before }
    {
        Numbered {
            before,
            items: Vec::new(alloc),
        }
    }

    /// How many numbers were given before.
    pub fn before(&self) -> u32
        ensures { result ≡ self.now.before }
    {
        self.before
    }

    /// How many entries there are.
    pub fn len(&self) -> usize
        ensures { result ≡ length self.now.items }
    {
        self.items.len()
    }

    /// The entry of the number.
    pub fn get(&self, number: u32) -> &T
        requires { HasEntry self.now number }
        ensures { result.now ≡ slice_index_or self.now.items (place_of self.now.before number) result.now }
    {
        &self.items[self.place(number)]
    }

    /// The entry of the number, if it has one.
    pub fn find(&self, number: u32) -> Option<&T>
        ensures { option_map (λ entry. entry.now) result ≡ row_of self.now.before self.now.items number }
    {
        if number <= self.before {
            return None;
        }
        self.items.get(self.place(number))
    }

    /// The entry of the number, to be changed.
    pub fn get_mut(&mut self, number: u32) -> &mut T
        requires { HasEntry self.old number }
        ensures* writes_back { sem 𝓛 (LendsEntry T.row self.entry number result) }
        ensures value { result.now ≡ slice_index_or self.old.items (place_of self.old.before number) result.now }
    {
        let at = self.place(number);
        &mut self.items[at]
    }

    /// Makes room for one entry more. It is refused for memory alone, and then changes nothing.
    pub fn reserve(&mut self) -> Result<(), AllocError>
        ensures ok { OnOk result (1 ≤ self.new.spare) }
        ensures kept { self.new ≡ record self.old { spare = self.new.spare } }
        ensures err { OnErr result (self.new ≡ self.old) }
    {
        make_room(&mut self.items, 1)
    }

    /// Adds the entry of the next number, for which there is room. It takes no memory.
    pub fn push(&mut self, entry: T)
        requires { 1 ≤ self.old.spare }
        ensures { self.new ≡ with_next self.old entry }
    {
        self.items.push_reserved(entry);
    }

    /// Leaves no entries, if so many numbers were given before. It keeps the memory, and takes none.
    pub fn reset(&mut self, before: u32)
        ensures { self.new ≡ cleared self.old before }
    {
        self.items.clear();
        self.before = before;
    }

    /// The place of the number, if it was not given before.
    fn place(&self, number: u32) -> usize
        requires { self.now.before < number }
        ensures { result ≡ place_of self.now.before number }
    {
        (number - self.before - 1) as usize
    }
}

/// Makes room for so many entries more, and at first for these alone: most realms have few of them.
///
/// # Errors
///
/// If memory is refused. Then nothing has changed.
pub fn make_room<T>(entries: &mut Vec<T>, more: usize) -> Result<(), AllocError>
    ensures items { entries.new.items ≡ entries.old.items }
    ensures len { vec_len entries.new ≡ vec_len entries.old }
    ensures room { OnOk result (vec_len entries.new + more ≤ vec_capacity entries.new) }
    ensures grown { vec_capacity entries.old ≤ vec_capacity entries.new }
    ensures refused { OnErr result (vec_capacity entries.new ≡ vec_capacity entries.old) }
{
    if entries.is_empty() {
        entries.reserve_exact(more)
    } else {
        entries.reserve(more)
    }
}
