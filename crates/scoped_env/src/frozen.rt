ghost use Rattle.std.specs.Prelude.{[], ◌++◌, ◌-◌, ◌<◌, ◌∷◌, ◌≡◌, ◌≤◌, OnErr, OnOk, length, take};
ghost use Rattle.scoped_env.specs.{BeginsWith, joined};

use crate::batch::Batch;
use crate::shared::share_all;
use scope_rules::Binding;
use std::alloc::{AllocError, Global};
use std::marker::Model;
use std::sync::ArcSlice;

/// The own pairs of an actor that were shared, in batches. At most three batches are of about one size,
/// and the larger ones lie below the smaller ones. So there are few, and a pair is copied to another batch
/// about as often as the number of pairs doubles, whatever is bound, taken away and shared.
#[derive(Drop)]
pub struct Frozen {
    batches: Vec<Batch>,
    // How many pairs the batches have.
    count: usize,
    // How many own pairs, from the first on, were in a batch since they were bound.
    seen: usize,
}

impl Model for Frozen {
    ghost use Rattle.std.specs.Prelude.{◌≡◌, List, length};
    ghost use Rattle.scope_rules.specs.declared.types.events.Binding.{Binding};
    ghost use Rattle.scoped_env.specs.Joined.{joined};

    ghost Value = { List (List Binding) };

    ghost view = { λ f. f.batches.items };

    ghost invariant = { λ f. f.count ≡ length (joined f.batches.items) };
}

impl Frozen {
    /// No batches. It takes no memory; that of later calls comes from `alloc`.
    pub fn new(alloc: Global) -> Frozen
        ensures { result ≡ [] }
    {
        Frozen {
            batches: Vec::new(alloc),
            count: 0,
            seen: 0,
        }
    }

    /// How many pairs the batches have.
    pub fn len(&self) -> usize
        ensures { result ≡ length (joined self.now) }
    {
        self.count
    }

    /// How many batches there are.
    fn number(&self) -> usize
        ensures { result ≡ length self.now }
    {
        self.batches.len()
    }

    /// Drops the batches that have pairs behind the first so many, since those were taken away. It takes no
    /// memory.
    pub fn cut(&mut self, own: usize)
        ensures within { length (joined self.new) ≤ own }
        ensures first { self.new ≡ take (length self.new) self.old }
    {
        self.seen = self.seen.min(own);
        while self.len() > own {
            self.pop();
        }
    }

    /// Adds batches for the pairs that have none yet. It is refused for memory alone, and then some of them
    /// may have got one.
    pub fn extend(&mut self, alloc: Global, pairs: &[Binding]) -> Result<(), AllocError>
        requires { BeginsWith pairs.now (joined self.old) }
        ensures begins { BeginsWith pairs.now (joined self.new) }
        ensures all { OnOk result (joined self.new ≡ pairs.now) }
    {
        let fresh = pairs.len().saturating_sub(self.seen);
        let number = self.settled(pairs.len(), fresh);
        self.keep(number);
        while self.len() < pairs.len() {
            let count = self.len();
            let len = piece(pairs.len() - count, fresh);
            self.push(alloc, &pairs[count..count + len])?;
        }
        self.seen = pairs.len();
        Ok(())
    }

    /// Adds the batches at the end of others. It is refused for memory, or if std's count of holders is
    /// full.
    pub fn push_to(&self, others: &mut Vec<Batch>) -> Result<(), AllocError>
        ensures { OnOk result (joined others.new.items ≡ joined others.old.items ++ joined self.now) }
    {
        share_all(&self.batches, others)
    }

    /// Adds a batch of these pairs. It is refused for memory alone, and then changes nothing.
    fn push(&mut self, alloc: Global, pairs: &[Binding]) -> Result<(), AllocError>
        ensures ok { OnOk result (self.new ≡ self.old ++ pairs.now ∷ []) }
        ensures err { OnErr result (self.new ≡ self.old) }
    {
        let Some(count) = self.count.checked_add(pairs.len()) else {
            return Err(AllocError);
        };
        let batch = Batch::of(alloc, ArcSlice::from_slice(alloc, pairs)?)?;
        self.batches.push(batch)?;
        self.count = count;
        Ok(())
    }

    /// Drops the last batch, if there is one.
    fn pop(&mut self)
        ensures { self.new ≡ take (length self.old - 1) self.old }
    {
        if let Some(batch) = self.batches.pop() {
            self.count -= batch.as_slice().len();
        }
    }

    /// Drops all batches but the first so many.
    fn keep(&mut self, number: usize)
        ensures { self.new ≡ take (length self.new) self.old }
    {
        while self.number() > number {
            self.pop();
        }
    }

    /// How many batches stay as they are if there are so many pairs, of which so many were in none. The
    /// others are too small to lie below the next one, or too many of its size.
    fn settled(&self, depth: usize, fresh: usize) -> usize {
        let mut kept = self.batches.len();
        let mut rest = depth.saturating_sub(self.count);
        loop {
            let surplus = surplus(&self.batches[..kept], piece(rest, fresh));
            if surplus == 0 {
                return kept;
            }
            for batch in &self.batches[kept - surplus..kept] {
                rest = rest.saturating_add(batch.as_slice().len());
            }
            kept -= surplus;
        }
    }
}

/// How many pairs the next batch takes of the rest: all if most of them are fresh, and else the first
/// half, so that an unbind drops a batch with few pairs.
fn piece(rest: usize, fresh: usize) -> usize
    ensures some { 0 < rest → 0 < result }
    ensures within { 0 < rest → result ≤ rest }
{
    if fresh >= rest / 2 {
        rest
    } else {
        rest / 2 + 1
    }
}

/// How many of the last batches join a batch of so many pairs that comes above them: one that is at most
/// half as large, or three, of which none is twice as large.
fn surplus(batches: &[Batch], first: usize) -> usize
    ensures { result ≤ length batches.now }
{
    match batches {
        [.., last] if last.as_slice().len() <= first / 2 => 1,
        [.., third, _, _] if third.as_slice().len() / 2 < first => 3,
        _ => 0,
    }
}
