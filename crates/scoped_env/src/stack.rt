ghost use Rattle.std.specs.Prelude.{[], ◌++◌, ◌↔◌, ◌∷◌, ◌≡◌, IfOk, IsSome, OnErr, OnOk, false, if◌then◌else◌};
ghost use Rattle.scoped_env.specs.{Name, bound_to, same_name, value_in, without_last};

use crate::keys::{LatestValues, OrderedKey, last_value};
use scope_rules::{Binding, Name, Value};
use std::alloc::{AllocError, Global};
use std::collections::BTreeMap;
use std::marker::Model;

/// How many pairs are looked through without an index.
pub(crate) const FEW: usize = 16;

/// A stack of pairs, the latest last. The first sixteen are looked through, and an index has the keys of
/// the others, so that a key is found, bound and taken away in time logarithmic in how many they are.
#[derive(Drop)]
pub struct PairStack {
    pairs: Vec<Binding>,
    // The value that each key has by the pairs behind the first sixteen.
    latest: LatestValues,
    // For each pair behind the first sixteen, the value that its key had by those before it.
    earlier: Vec<Option<Value>>,
}

impl Model for PairStack {
    ghost use Rattle.std.specs.Prelude.{List};
    ghost use Rattle.scope_rules.specs.declared.types.events.Binding.{Binding};
    ghost use Rattle.scoped_env.specs.Stacked.{IsIndexed};

    ghost Value = { List Binding };

    ghost view = { λ s. s.pairs.items };

    ghost invariant = { λ s. IsIndexed s.pairs.items s.latest s.earlier.items };
}

impl PairStack {
    /// The empty stack. It takes no memory; that of later calls comes from `alloc`.
    pub fn new(alloc: Global) -> PairStack
        ensures { result ≡ [] }
    {
        PairStack {
            pairs: Vec::new(alloc),
            latest: BTreeMap::new(alloc),
            earlier: Vec::new(alloc),
        }
    }

    /// The stack of these pairs, the latest last. It is refused for memory alone.
    pub fn of(alloc: Global, pairs: &[Binding]) -> Result<PairStack, AllocError>
        ensures { IfOk result (λ stack. stack ≡ pairs.now) }
    {
        let mut stack = PairStack::new(alloc);
        for pair in pairs {
            stack.push(*pair)?;
        }
        Ok(stack)
    }

    /// The allocator that the stack grows by.
    pub fn allocator(&self) -> Global {
        *self.pairs.allocator()
    }

    /// The pairs, the latest last.
    pub fn as_slice(&self) -> &[Binding]
        ensures { result.now ≡ self.now }
    {
        &self.pairs
    }

    /// The value of the last pair with the key, if there is one. It takes no memory.
    pub fn value_of(&self, key: &Name) -> Option<Value>
        ensures { result ≡ bound_to key.now self.now }
    {
        if self.pairs.len() <= FEW {
            return last_value(&self.pairs, key);
        }
        match self.latest.get(&OrderedKey { name: *key }) {
            Some(value) => Some(*value),
            None => last_value(&self.pairs[..FEW], key),
        }
    }

    /// Adds the pair. It is refused for memory alone, and then changes nothing.
    pub fn push(&mut self, pair: Binding) -> Result<(), AllocError>
        ensures ok { OnOk result (self.new ≡ self.old ++ pair ∷ []) }
        ensures err { OnErr result (self.new ≡ self.old) }
    {
        if self.pairs.len() < FEW {
            self.pairs.push(pair)?;
            return Ok(());
        }
        self.pairs.reserve(1)?;
        self.earlier.reserve(1)?;
        let earlier = self
            .latest
            .insert(OrderedKey { name: pair.key }, pair.value)?;
        self.earlier.push_reserved(earlier);
        self.pairs.push_reserved(pair);
        Ok(())
    }

    /// Takes the last pair away, and says whether there was one. It takes no memory.
    pub fn pop(&mut self) -> bool
        ensures last { self.new ≡ without_last self.old }
        ensures empty { (result ≡ false) ↔ (self.old ≡ []) }
    {
        let Some(pair) = self.pairs.pop() else {
            return false;
        };
        if let Some(earlier) = self.earlier.pop() {
            put_back(&mut self.latest, pair.key, earlier);
        }
        true
    }
}

/// Gives the key, which has a value, the value that it had before, or none.
fn put_back(latest: &mut LatestValues, key: Name, earlier: Option<Value>)
    requires { IsSome (value_in latest.old key) }
    ensures { (other : Name) → value_in latest.new other ≡ (if same_name key other then earlier else value_in latest.old other) }
{
    match earlier {
        Some(value) => {
            if latest.insert(OrderedKey { name: key }, value).is_err() {
                unreachable!()
            }
        }
        None => {
            latest.remove(&OrderedKey { name: key });
        }
    }
}
