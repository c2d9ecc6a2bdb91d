ghost use Rattle.std.specs.Prelude.{[], ◌↔◌, ◌≡◌, ◌≤◌, IfErr, IfOk, IfSome, IsErr, OnErr, OnOk, Some, length};
ghost use Rattle.scoped_env.specs.{arc_slice_items, bound_to};

use crate::frozen::Frozen;
use crate::listed::Listed;
use crate::shared::SharedPairs;
use crate::stack::{FEW, PairStack};
use scope_rules::{Binding, Name, Refusal, Value};
use std::alloc::{AllocError, Global};
use std::marker::Model;
use std::sync::ArcSlice;

/// The pairs of an actor that binds some itself: those that it inherited, then its own stack.
#[derive(Drop)]
pub struct OwnPairs {
    inherited: SharedPairs,
    stack: PairStack,
    // How many own pairs there were when the last of the inherited batches were joined.
    settled: usize,
    // The own pairs that were shared, and none of which was taken away since.
    frozen: Frozen,
    listed: Listed,
    // The pairs of the task that was forked last, which are kept until one of them is taken away.
    snapshot: Option<SharedPairs>,
}

impl Model for OwnPairs {
    ghost use Rattle.scoped_env.specs.Joined.{Keeps};
    ghost use Rattle.scoped_env.specs.Layers.{Layers};

    ghost Value = { Layers };

    ghost view = { λ e. record { inherited = e.inherited; stack = e.stack } };

    ghost invariant = { λ e. Keeps e.inherited e.stack e.frozen e.listed e.snapshot };
}

impl OwnPairs {
    ghost use Rattle.scoped_env.specs.Layers.{all_pairs, with_pair, without_last_pair};

    /// The inherited pairs, and above them those of the stack, the latest last.
    pub fn above(inherited: SharedPairs, stack: PairStack) -> OwnPairs
        ensures { result ≡ record { inherited = inherited; stack = stack } }
    {
        let frozen = Frozen::new(stack.allocator());
        OwnPairs {
            inherited,
            stack,
            settled: 0,
            frozen,
            listed: Listed::new(),
            snapshot: None,
        }
    }

    /// Binds the key to the value, above all other pairs. It is refused for memory alone, and then
    /// changes nothing.
    pub fn bind(&mut self, key: Name, value: Value) -> Result<(), AllocError>
        ensures ok { OnOk result (self.new ≡ with_pair self.old (record { key = key; value = value })) }
        ensures err { OnErr result (self.new ≡ self.old) }
    {
        let depth = self.depth();
        let pair = Binding { key, value };
        self.stack.push(pair)?;
        self.listed.push(depth, &pair);
        Ok(())
    }

    /// Takes away the last pair of the own stack. It is refused `NotBound` exactly if that is
    /// empty: an inherited pair stays. It takes no memory.
    pub fn unbind(&mut self) -> Result<(), Refusal>
        ensures ok { OnOk result (self.new ≡ without_last_pair self.old) }
        ensures empty { IsErr result ↔ (self.old.stack ≡ []) }
        ensures refusal { IfErr result (λ refusal. refusal ≡ Refusal.NotBound) }
        ensures err { OnErr result (self.new ≡ self.old) }
    {
        if !self.stack.pop() {
            return Err(Refusal::NotBound);
        }
        let own = self.stack.as_slice().len();
        let depth = self.inherited.len() + own;
        self.frozen.cut(own);
        self.listed.cut(depth);
        self.snapshot = no_longer(self.snapshot.take(), depth);
        Ok(())
    }

    /// All pairs in one list. It copies none if the last call's list had the same, whatever was bound and taken
    /// away since. It is refused for memory, or if std's count of holders is full.
    pub fn list_all(&mut self) -> Result<ArcSlice<Binding>, AllocError>
        ensures ok { IfOk result (λ all. arc_slice_items all ≡ all_pairs self.old) }
        ensures unchanged { self.new ≡ self.old }
    {
        let depth = self.depth();
        if let Some(list) = self.listed.whole(depth)? {
            return Ok(list);
        }
        let mut pairs = self.inherited.to_vec(self.stack.allocator())?;
        pairs.extend_from_slice(self.stack.as_slice())?;
        let all = ArcSlice::from_vec(pairs)?;
        let list = all.clone()?;
        self.listed = Listed::of(all);
        Ok(list)
    }

    /// All pairs for a task that is forked, as the last call made them if they are the same again: what was bound
    /// and taken away since costs nothing. Else it shares what earlier calls shared, and copies few of the others
    /// more than once. It is refused for memory, or if std's count of holders is full.
    pub fn share_all(&mut self) -> Result<SharedPairs, AllocError>
        ensures ok { IfOk result (λ all. all ≡ all_pairs self.old) }
        ensures unchanged { self.new ≡ self.old }
    {
        if self.stack.as_slice().is_empty() {
            return self.inherited.share();
        }
        let depth = self.depth();
        if let Some(all) = &self.snapshot
            && all.len() == depth
        {
            return all.share();
        }
        let all = if depth <= FEW {
            SharedPairs::few(self.list_all()?)
        } else {
            self.batched()?
        };
        let shared = all.share()?;
        self.snapshot = Some(all);
        Ok(shared)
    }

    /// All pairs in batches. It is refused for memory, or if std's count of holders is full.
    fn batched(&mut self) -> Result<SharedPairs, AllocError>
        ensures ok { IfOk result (λ all. all ≡ all_pairs self.old) }
        ensures unchanged { self.new ≡ self.old }
    {
        let alloc = self.stack.allocator();
        self.settle(alloc)?;
        self.frozen.extend(alloc, self.stack.as_slice())?;
        let mut batches = Vec::new(alloc);
        self.inherited.push_to(alloc, &mut batches)?;
        self.frozen.push_to(&mut batches)?;
        let depth = self.inherited.len() + self.stack.as_slice().len();
        SharedPairs::of(alloc, batches, depth)
    }

    /// Joins the last of the inherited batches if they have at most twice as many pairs as the stack, which has
    /// doubled since the last time. So an actor copies about as many inherited pairs as it binds, and those whose
    /// batches are few are found soon. It is refused for memory, or if std's count of holders is full.
    fn settle(&mut self, alloc: Global) -> Result<(), AllocError>
        ensures unchanged { self.new ≡ self.old }
    {
        let own = self.stack.as_slice().len();
        if own / 2 < self.settled {
            return Ok(());
        }
        self.inherited = self.inherited.settled(alloc, own.saturating_mul(2))?;
        self.settled = own;
        Ok(())
    }

    /// How many pairs there are, inherited and own.
    pub fn depth(&self) -> usize
        ensures { result ≡ length (all_pairs self.now) }
    {
        self.inherited.len() + self.stack.as_slice().len()
    }

    /// The own pairs, the latest last.
    pub fn stack(&self) -> &[Binding]
        ensures { result.now ≡ self.now.stack }
    {
        self.stack.as_slice()
    }

    /// The value of the last pair with the key, own or inherited, if there is one. It takes no memory.
    pub fn value_of(&self, key: &Name) -> Option<Value>
        ensures { result ≡ bound_to key.now (all_pairs self.now) }
    {
        match self.stack.value_of(key) {
            Some(value) => Some(value),
            None => self.inherited.value_of(key),
        }
    }
}

/// The pairs, if they are at most so many.
fn no_longer(pairs: Option<SharedPairs>, depth: usize) -> Option<SharedPairs>
    ensures { IfSome result (λ kept. (pairs ≡ Some kept) × (length kept ≤ depth)) }
{
    pairs.filter(|pairs| pairs.len() <= depth)
}
