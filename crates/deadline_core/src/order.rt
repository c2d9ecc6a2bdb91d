ghost use Rattle.std.specs.Prelude.{ℕ, ◌≡◌, IfNone, IfOk, IfSome, OnErr, OnOk, Some, false};
ghost use Rattle.deadline_core.specs.{AreInOrder, IsDueInOrder, IsFirst, IsFirstDue, IsOrdered, is_due, pair_cmp, scopes_up_to};
ghost use Rattle.std.specs.FinMap as map;

use scope_rules::ScopeId;
use std::alloc::{AllocError, Global};
use std::collections::BTreeSet;
use std::collections::btree_set::Iter;
use std::marker::Model;

/// The deadlines of scopes, in milliseconds, in order: a finite map from scopes to moments, for a caller who
/// knows the deadline of each scope and says it with each change. So it takes one list where `Deadlines`
/// takes two. Each call takes time logarithmic in how many deadlines there are.
#[derive(Drop)]
pub struct DeadlineOrder {
    pairs: BTreeSet<(u64, ScopeId)>,
    alloc: Global,
}

impl Model for DeadlineOrder {
    ghost use Rattle.std.specs.Prelude.{ℕ};
    ghost use Rattle.std.specs.Ordering.{nat_cmp};
    ghost use Rattle.std.specs.FinMap as map;
    ghost use Rattle.std.specs.Coded.{coded_ℕ};
    ghost use Rattle.deadline_core.specs.Ordered.{HasOneOfEach, moments_in};

    ghost Value = { map.FinMap nat_cmp ℕ };

    ghost coded = { map.code coded_ℕ coded_ℕ };

    ghost view = { λ a. moments_in a.pairs.keys };

    ghost invariant = { λ a. HasOneOfEach a.pairs };
}

impl DeadlineOrder {
    /// No deadlines. The memory of later calls comes from `alloc`.
    pub fn new(alloc: Global) -> DeadlineOrder
        ensures { result ≡ map.empty }
    {
        DeadlineOrder {
            pairs: BTreeSet::new(alloc),
            alloc,
        }
    }

    /// Gives the scope this deadline, in place of `before`, the one that it has.
    ///
    /// # Errors
    ///
    /// If memory is refused. Then nothing has changed.
    pub fn set(
        &mut self,
        scope: ScopeId,
        before: Option<u64>,
        deadline: u64,
    ) -> Result<(), AllocError>
        requires { before ≡ map.get self.old scope }
        ensures set { OnOk result (self.new ≡ map.insert self.old scope deadline) }
        ensures unchanged { OnErr result (self.new ≡ self.old) }
    {
        if before == Some(deadline) {
            return Ok(());
        }
        self.pairs.insert((deadline, scope))?;
        if let Some(before) = before {
            self.pairs.remove(&(before, scope));
        }
        Ok(())
    }

    /// Takes away `before`, the deadline that the scope has, if it has one. Takes no memory.
    pub fn remove(&mut self, scope: ScopeId, before: Option<u64>)
        requires { before ≡ map.get self.old scope }
        ensures { self.new ≡ map.remove self.old scope }
    {
        if let Some(before) = before {
            self.pairs.remove(&(before, scope));
        }
    }

    /// The earliest deadline and its scope; of equal deadlines that of the scope with the least number.
    pub fn earliest(&self) -> Option<(u64, ScopeId)>
        ensures none { IfNone result (self.now ≡ map.empty) }
        ensures first { IfSome result (λ p. IsFirst self.now p.0 p.1) }
    {
        self.pairs.first().copied()
    }

    /// Each deadline with its scope, the earlier first.
    pub fn in_order(&self) -> Iter<'_, (u64, ScopeId)>
        ensures { AreInOrder self.now result }
    {
        self.pairs.iter()
    }

    /// Takes out the earliest deadline, if it is at or before `now`, and answers its scope.
    /// Takes no memory.
    pub fn pop_expired(&mut self, now: u64) -> Option<ScopeId>
        ensures none { IfNone result ((scope : ℕ) → is_due self.old now scope ≡ false) }
        ensures unchanged { IfNone result (self.new ≡ self.old) }
        ensures first { IfSome result (λ scope. IsFirstDue self.old now scope) }
        ensures removed { IfSome result (λ scope. self.new ≡ map.remove self.old scope) }
    {
        let (deadline, scope) = self.earliest()?;
        if deadline > now {
            return None;
        }
        self.remove(scope, Some(deadline));
        Some(scope)
    }

    /// The scopes whose deadlines are at or before `now`, by deadline and then by number. Refused if memory
    /// is.
    pub fn due(&self, now: u64) -> Result<Vec<ScopeId>, AllocError>
        ensures { IfOk result (λ scopes. IsDueInOrder self.now now scopes.items) }
    {
        scopes_up_to(&self.pairs, now, self.alloc)
    }
}

/// The scopes that are listed up to the moment, in their order.
fn scopes_up_to(
    pairs: &BTreeSet<(u64, ScopeId)>,
    now: u64,
    alloc: Global,
) -> Result<Vec<ScopeId>, AllocError>
    ensures listed { IfOk result (λ scopes. scopes.items ≡ scopes_up_to now pairs.now.keys) }
    ensures ordered { IsOrdered pair_cmp pairs.now }
{
    pairs
        .iter()
        .take_while(|(deadline, _)| *deadline <= now)
        .map(|(_, scope)| *scope)
        .collect(alloc)
}
