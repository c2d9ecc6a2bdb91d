ghost use Rattle.std.specs.Prelude.{ℕ, ◌≡◌, IfNone, IfOk, IfSome, IsTrue, OnErr, OnOk, false, not};
ghost use Rattle.deadline_core.specs.{IsDueInOrder, IsFirst, IsFirstDue, is_due};
ghost use Rattle.std.specs.FinMap as map;

use crate::order::DeadlineOrder;
use scope_rules::ScopeId;
use std::alloc::{AllocError, Global};
use std::collections::BTreeMap;
use std::marker::Model;

/// The deadlines of scopes: a finite map from scopes to moments, in milliseconds.
/// Each call takes time logarithmic in how many deadlines there are, for each scope that it answers.
#[derive(Drop)]
pub struct Deadlines {
    moments: BTreeMap<ScopeId, u64>,
    order: DeadlineOrder,
}

impl Model for Deadlines {
    ghost use Rattle.std.specs.Prelude.{ℕ};
    ghost use Rattle.std.specs.Ordering.{nat_cmp};
    ghost use Rattle.std.specs.FinMap as map;
    ghost use Rattle.std.specs.Coded.{coded_ℕ};
    ghost use Rattle.deadline_core.specs.Ordered.{IsOrderOf};

    ghost Value = { map.FinMap nat_cmp ℕ };

    ghost coded = { map.code coded_ℕ coded_ℕ };

    ghost view = { λ a. a.order };

    ghost invariant = { λ a. IsOrderOf a.moments a.order };
}

impl Deadlines {
    /// No deadlines. The memory of later calls comes from `alloc`.
    pub fn new(alloc: Global) -> Deadlines
        ensures { result ≡ map.empty }
    {
        Deadlines {
            moments: BTreeMap::new(alloc),
            order: DeadlineOrder::new(alloc),
        }
    }

    /// The scope's deadline, if it has one.
    pub fn get(&self, scope: ScopeId) -> Option<u64>
        ensures { result ≡ map.get self.now scope }
    {
        self.moments.get(&scope).copied()
    }

    /// Gives the scope this deadline, in place of the one that it had.
    ///
    /// # Errors
    ///
    /// If memory is refused. Then nothing has changed.
    pub fn set(&mut self, scope: ScopeId, deadline: u64) -> Result<(), AllocError>
        ensures set { OnOk result (self.new ≡ map.insert self.old scope deadline) }
        ensures unchanged { OnErr result (self.new ≡ self.old) }
    {
        let before = self.get(scope);
        self.order.set(scope, before, deadline)?;
        match self.moments.insert(scope, deadline) {
            Ok(_) => Ok(()),
            Err(_) => {
                self.order.remove(scope, Some(deadline));
                Err(AllocError)
            }
        }
    }

    /// Takes the scope's deadline away, if it has one. Takes no memory.
    pub fn remove(&mut self, scope: ScopeId)
        ensures { self.new ≡ map.remove self.old scope }
    {
        let before = self.moments.remove(&scope);
        self.order.remove(scope, before);
    }

    /// The earliest deadline and its scope; of equal deadlines that of the scope with the least number.
    pub fn earliest(&self) -> Option<(u64, ScopeId)>
        ensures none { IfNone result (self.now ≡ map.empty) }
        ensures first { IfSome result (λ p. IsFirst self.now p.0 p.1) }
    {
        self.order.earliest()
    }

    /// Takes out the earliest deadline, if it is at or before `now`, and answers its scope.
    /// Takes no memory.
    pub fn pop_expired(&mut self, now: u64) -> Option<ScopeId>
        ensures none { IfNone result ((scope : ℕ) → is_due self.old now scope ≡ false) }
        ensures unchanged { IfNone result (self.new ≡ self.old) }
        ensures first { IfSome result (λ scope. IsFirstDue self.old now scope) }
        ensures removed { IfSome result (λ scope. self.new ≡ map.remove self.old scope) }
    {
        let scope = self.order.pop_expired(now)?;
        self.moments.remove(&scope);
        Some(scope)
    }

    /// Takes out each deadline at or before `now`, and answers their scopes, by deadline and then by
    /// number.
    ///
    /// # Errors
    ///
    /// If memory is refused. Then nothing has changed.
    pub fn expire(&mut self, now: u64) -> Result<Vec<ScopeId>, AllocError>
        ensures due { IfOk result (λ scopes. IsDueInOrder self.old now scopes.items) }
        ensures left { OnOk result (self.new ≡ map.retain_keys self.old (λ scope. not (is_due self.old now scope))) }
        ensures unchanged { OnErr result (self.new ≡ self.old) }
    {
        let due = self.order.due(now)?;
        for scope in &due {
            self.remove(*scope);
        }
        Ok(due)
    }
}
