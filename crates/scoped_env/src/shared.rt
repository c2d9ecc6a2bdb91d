ghost use Rattle.std.specs.Prelude.{[], ◌++◌, ◌<◌, ◌^◌, ◌≡◌, ◌≤◌, IfOk, OnOk, length};
ghost use Rattle.scoped_env.specs.{arc_slice_items, bound_to, joined};

use crate::batch::Batch;
use crate::keys::last_value;
use scope_rules::{Binding, Name, Value};
use std::alloc::{AllocError, Global};
use std::marker::Model;
use std::sync::{Arc, ArcSlice};

/// A list of pairs that several environments can hold at once, in any threads. It never changes.
#[derive(Drop)]
pub struct SharedPairs {
    list: PairList,
}

/// A list of pairs by its length.
#[derive(Drop)]
enum PairList {
    /// No pairs, which take no memory.
    Empty,
    /// A few, which are looked through.
    Few(ArcSlice<Binding>),
    /// More, in batches that other lists have too.
    Many(Arc<BatchRow, Global>),
}

impl Model for SharedPairs {
    ghost use Rattle.std.specs.Prelude.{List};
    ghost use Rattle.scope_rules.specs.declared.types.events.Binding.{Binding};
    ghost use Rattle.scoped_env.specs.Shared.{pairs_of};

    ghost Value = { List Binding };

    ghost view = { λ s. pairs_of s.list };
}

/// Batches of pairs, the oldest first, and how many pairs they have.
#[derive(Drop)]
pub struct BatchRow {
    batches: Vec<Batch>,
    count: u32,
}

impl Model for BatchRow {
    ghost use Rattle.std.specs.Prelude.{◌≡◌, List, length};
    ghost use Rattle.scope_rules.specs.declared.types.events.Binding.{Binding};
    ghost use Rattle.scoped_env.specs.Joined.{joined};

    ghost Value = { List Binding };

    ghost view = { λ r. joined r.batches.items };

    ghost invariant = { λ r. r.count ≡ length (joined r.batches.items) };
}

impl BatchRow {
    /// How many pairs there are.
    fn len(&self) -> u32
        ensures { result ≡ length self.now }
    {
        self.count
    }

    /// Adds these batches at the end of others. It is refused for memory, or if std's count of holders is
    /// full.
    fn push_to(&self, others: &mut Vec<Batch>) -> Result<(), AllocError>
        ensures { OnOk result (joined others.new.items ≡ joined others.old.items ++ self.now) }
    {
        share_all(&self.batches, others)
    }

    /// A copy of the pairs, the oldest first. It is refused for memory alone.
    fn to_vec(&self, alloc: Global) -> Result<Vec<Binding>, AllocError>
        ensures { IfOk result (λ pairs. pairs.items ≡ self.now) }
    {
        pairs_in(alloc, &self.batches)
    }

    /// The same pairs, with the batches from this place on as one. It is refused for memory, or if std's count
    /// of holders is full.
    fn joined_from(&self, alloc: Global, place: usize) -> Result<BatchRow, AllocError>
        ensures { IfOk result (λ row. row ≡ self.now) }
    {
        let (first, last) = self.batches.split_at(place.min(self.batches.len()));
        let mut batches = Vec::new(alloc);
        share_all(first, &mut batches)?;
        let pairs = ArcSlice::from_vec(pairs_in(alloc, last)?)?;
        let batch = Batch::of(alloc, pairs)?;
        batches.push(batch)?;
        Ok(BatchRow {
            batches,
            count: self.count,
        })
    }

    /// The value of the last pair with the key, if there is one.
    fn value_of(&self, key: &Name) -> Option<Value>
        ensures { result ≡ bound_to key.now self.now }
    {
        value_in(&self.batches, key)
    }
}

impl SharedPairs {
    /// The empty list.
    pub fn empty() -> SharedPairs
        ensures { result ≡ [] }
    {
        SharedPairs {
            list: PairList::Empty,
        }
    }

    /// These pairs, of which there are a few: a look-up goes through them all.
    pub fn few(pairs: ArcSlice<Binding>) -> SharedPairs
        ensures { result ≡ arc_slice_items pairs }
    {
        SharedPairs {
            list: PairList::Few(pairs),
        }
    }

    /// The pairs of these batches, which have so many. It is refused for memory, and from 2^32 pairs on.
    pub fn of(alloc: Global, batches: Vec<Batch>, count: usize) -> Result<SharedPairs, AllocError>
        requires { count ≡ length (joined batches.items) }
        ensures { IfOk result (λ shared. shared ≡ joined batches.items) }
    {
        let Ok(count) = u32::try_from(count) else {
            return Err(AllocError);
        };
        let row = BatchRow { batches, count };
        Ok(SharedPairs {
            list: PairList::Many(Arc::new(alloc, row)?),
        })
    }

    /// The same list for one holder more. Nothing is copied, and no memory is taken: it is refused
    /// only if std's count of holders is full.
    pub fn share(&self) -> Result<SharedPairs, AllocError>
        ensures { IfOk result (λ all. all ≡ self.now) }
    {
        let list = match &self.list {
            PairList::Empty => PairList::Empty,
            PairList::Few(pairs) => PairList::Few(pairs.clone()?),
            PairList::Many(row) => PairList::Many(Arc::try_clone(row)?),
        };
        Ok(SharedPairs { list })
    }

    /// The same pairs, with those of the last batches in one if they are at most so many. It is refused for
    /// memory, or if std's count of holders is full.
    pub fn settled(&self, alloc: Global, most: usize) -> Result<SharedPairs, AllocError>
        ensures { IfOk result (λ all. all ≡ self.now) }
    {
        let PairList::Many(row) = &self.list else {
            return self.share();
        };
        let place = small_from(&row.batches, most);
        if row.batches.len() < place + 2 {
            return self.share();
        }
        let row = row.joined_from(alloc, place)?;
        Ok(SharedPairs {
            list: PairList::Many(Arc::new(alloc, row)?),
        })
    }

    /// How many pairs there are.
    pub fn len(&self) -> usize
        ensures count { result ≡ length self.now }
        ensures fits { result < 2 ^ 63 }
    {
        match &self.list {
            PairList::Empty => 0,
            PairList::Few(pairs) => pairs.as_slice().len(),
            PairList::Many(row) => row.len() as usize,
        }
    }

    /// Adds the pairs to the batches, in batches that they share. It is refused for memory, or if std's
    /// count of holders is full.
    pub fn push_to(&self, alloc: Global, batches: &mut Vec<Batch>) -> Result<(), AllocError>
        ensures { OnOk result (joined batches.new.items ≡ joined batches.old.items ++ self.now) }
    {
        match &self.list {
            PairList::Empty => Ok(()),
            PairList::Few(pairs) => {
                let batch = Batch::of(alloc, pairs.clone()?)?;
                batches.push(batch)?;
                Ok(())
            }
            PairList::Many(row) => row.push_to(batches),
        }
    }

    /// A copy of the pairs, the oldest first. It is refused for memory alone.
    pub fn to_vec(&self, alloc: Global) -> Result<Vec<Binding>, AllocError>
        ensures { IfOk result (λ pairs. pairs.items ≡ self.now) }
    {
        match &self.list {
            PairList::Empty => Ok(Vec::new(alloc)),
            PairList::Few(pairs) => Vec::from_slice(alloc, pairs.as_slice()),
            PairList::Many(row) => row.to_vec(alloc),
        }
    }

    /// The value of the last pair with the key, if there is one. It takes no memory.
    pub fn value_of(&self, key: &Name) -> Option<Value>
        ensures { result ≡ bound_to key.now self.now }
    {
        match &self.list {
            PairList::Empty => None,
            PairList::Few(pairs) => last_value(pairs.as_slice(), key),
            PairList::Many(row) => row.value_of(key),
        }
    }
}

/// Adds the batches to others, for one holder more. It is refused for memory, or if std's count of
/// holders is full.
pub(crate) fn share_all(batches: &[Batch], others: &mut Vec<Batch>) -> Result<(), AllocError>
    ensures { OnOk result (joined others.new.items ≡ joined others.old.items ++ joined batches.now) }
{
    for batch in batches {
        let shared = batch.share()?;
        others.push(shared)?;
    }
    Ok(())
}

/// A copy of the pairs of the batches, the oldest first. It is refused for memory alone.
fn pairs_in(alloc: Global, batches: &[Batch]) -> Result<Vec<Binding>, AllocError>
    ensures { IfOk result (λ pairs. pairs.items ≡ joined batches.now) }
{
    let mut pairs = Vec::new(alloc);
    for batch in batches {
        pairs.extend_from_slice(batch.as_slice())?;
    }
    Ok(pairs)
}

/// From which place on the batches have at most so many pairs together.
fn small_from(batches: &[Batch], most: usize) -> usize
    ensures { result ≤ length batches.now }
{
    let mut left = most;
    let mut place = batches.len();
    while place > 0 {
        let count = batches[place - 1].as_slice().len();
        if left < count {
            return place;
        }
        left -= count;
        place -= 1;
    }
    0
}

/// The value of the last pair with the key in the batches, if there is one.
fn value_in(batches: &[Batch], key: &Name) -> Option<Value>
    ensures { result ≡ bound_to key.now (joined batches.now) }
{
    let mut left = batches.len();
    while left > 0 {
        left -= 1;
        let value = batches[left].value_of(key);
        if value.is_some() {
            return value;
        }
    }
    None
}
