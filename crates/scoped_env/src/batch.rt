ghost use Rattle.std.specs.Prelude.{◌≡◌, IfOk};
ghost use Rattle.scoped_env.specs.{arc_slice_items, bound_to};

use crate::keys::{LatestValues, OrderedKey, last_value, latest_of};
use crate::stack::FEW;
use scope_rules::{Binding, Name, Value};
use std::alloc::{AllocError, Global};
use std::marker::Model;
use std::sync::{Arc, ArcSlice};

/// Pairs that were bound one after the other, and that several environments can hold at once, in any
/// threads. More than sixteen have an index of their keys, which is made with them.
#[derive(Drop)]
pub struct Batch {
    list: BatchList,
}

/// The pairs of a batch by their number.
#[derive(Drop)]
enum BatchList {
    /// At most sixteen, which are looked through.
    Few(ArcSlice<Binding>),
    /// More, which have an index.
    Many(Arc<IndexedPairs, Global>),
}

impl Model for Batch {
    ghost use Rattle.std.specs.Prelude.{List};
    ghost use Rattle.scope_rules.specs.declared.types.events.Binding.{Binding};
    ghost use Rattle.scoped_env.specs.Batches.{pairs_in};

    ghost Value = { List Binding };

    ghost view = { λ s. pairs_in s.list };
}

/// Pairs that never change, and the value that each key has by them.
#[derive(Drop)]
pub struct IndexedPairs {
    pairs: ArcSlice<Binding>,
    latest: LatestValues,
}

impl Model for IndexedPairs {
    ghost use Rattle.std.specs.Prelude.{List};
    ghost use Rattle.std.specs.Arc.{arc_slice_items};
    ghost use Rattle.scope_rules.specs.declared.types.events.Binding.{Binding};
    ghost use Rattle.scoped_env.specs.Keys.{HasLatest};

    ghost Value = { List Binding };

    ghost view = { λ s. arc_slice_items s.pairs };

    ghost invariant = { λ s. HasLatest s.latest (arc_slice_items s.pairs) };
}

impl IndexedPairs {
    /// The pairs, with their index. It is refused for memory alone.
    fn new(alloc: Global, pairs: ArcSlice<Binding>) -> Result<IndexedPairs, AllocError>
        ensures { IfOk result (λ indexed. indexed ≡ arc_slice_items pairs) }
    {
        let latest = latest_of(alloc, pairs.as_slice())?;
        Ok(IndexedPairs { pairs, latest })
    }

    /// The pairs, the oldest first.
    fn as_slice(&self) -> &[Binding]
        ensures { result.now ≡ self.now }
    {
        self.pairs.as_slice()
    }

    /// The value of the last pair with the key, if there is one.
    fn value_of(&self, key: &Name) -> Option<Value>
        ensures { result ≡ bound_to key.now self.now }
    {
        self.latest.get(&OrderedKey { name: *key }).copied()
    }
}

impl Batch {
    /// These pairs, which several environments can hold from then on. It is refused for memory alone.
    pub fn of(alloc: Global, pairs: ArcSlice<Binding>) -> Result<Batch, AllocError>
        ensures { IfOk result (λ batch. batch ≡ arc_slice_items pairs) }
    {
        let list = if pairs.as_slice().len() <= FEW {
            BatchList::Few(pairs)
        } else {
            BatchList::Many(Arc::new(alloc, IndexedPairs::new(alloc, pairs)?)?)
        };
        Ok(Batch { list })
    }

    /// The same pairs for one holder more. Nothing is copied, and no memory is taken: it is refused
    /// only if std's count of holders is full.
    pub fn share(&self) -> Result<Batch, AllocError>
        ensures { IfOk result (λ batch. batch ≡ self.now) }
    {
        let list = match &self.list {
            BatchList::Few(pairs) => BatchList::Few(pairs.clone()?),
            BatchList::Many(pairs) => BatchList::Many(Arc::try_clone(pairs)?),
        };
        Ok(Batch { list })
    }

    /// The pairs, the oldest first.
    pub fn as_slice(&self) -> &[Binding]
        ensures { result.now ≡ self.now }
    {
        match &self.list {
            BatchList::Few(pairs) => pairs.as_slice(),
            BatchList::Many(pairs) => pairs.as_slice(),
        }
    }

    /// The value of the last pair with the key, if there is one. It takes no memory.
    pub fn value_of(&self, key: &Name) -> Option<Value>
        ensures { result ≡ bound_to key.now self.now }
    {
        match &self.list {
            BatchList::Few(pairs) => last_value(pairs.as_slice(), key),
            BatchList::Many(pairs) => pairs.value_of(key),
        }
    }
}
