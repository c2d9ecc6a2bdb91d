ghost use Rattle.std.specs.Prelude.{◌++◌, ◌+◌, ◌<◌, ◌^◌, ◌≡◌, ◌≤◌};
ghost use Rattle.scope_model.specs.{[], IfOk, IfSome, OnOk, Some, base_of, bindings, bindings_within, bound_as_at, bound_as_opened, bound_to, cons_option, differ_at};
ghost use Rattle.scope_model.specs.{first_stack, height_after, holds_last, length, opened_above, pair_after, same_pair, same_pairs, scope_numbers, slice_get, some_below, stack, take, value_under};

use crate::scan::view::HistoryView;
use scope_rules::types::bases::Base;
use scope_rules::types::events::{Binding, Event};
use scope_rules::types::names::Name;
use scope_rules::types::records::Opening;
use scope_rules::types::values::{Actor, MAIN, ScopeId, Value};
use std::alloc::{AllocError, Global};

impl<'a> HistoryView<'a> {
    /// The own pairs that the actor begins with: main those of the base, a task none.
    fn first_stack(&self, actor: Actor) -> &'a [Binding]
        ensures { result.now ≡ first_stack self.now actor }
    {
        if actor == MAIN {
            self.base().binds()
        } else {
            &[]
        }
    }

    /// How many own pairs the actor has.
    #[tactic(auto, using(scope_rules::proofs::Stacks::height_more, scope_rules::proofs::Stacks::stack_whole), unfolding(scope_rules::specs::Bindings::stack))]
    pub fn stack_len(&self, actor: Actor) -> u64
        ensures { result ≡ length (stack self.now actor) }
    {
        let mut height = self.first_stack(actor).len() as u64;
        for place in 0..self.len() {
            height = height_after(actor, height, self.event(place));
        }
        height
    }

    /// The actor's own pair at the place, counted from 0 from below.
    #[tactic(auto, unfolding(scope_rules::specs::Bindings::stack))]
    fn stack_pair(&self, actor: Actor, index: u64) -> Option<Binding>
        ensures { result ≡ slice_get (stack self.now actor) index }
    {
        let first = self.first_stack(actor);
        let mut height = first.len() as u64;
        let mut pair = first.get(index as usize).copied();
        for place in 0..self.len() {
            let event = self.event(place);
            pair = pair_after(actor, index, height, pair, event);
            height = height_after(actor, height, event);
        }
        pair
    }

    /// The actor's own pairs, the latest last.
    #[tactic(auto, using(scope_rules::proofs::Stacks::take_option))]
    fn stack(&self, alloc: Global, actor: Actor) -> Result<Vec<Binding>, AllocError>
        ensures { IfOk result (λ pairs. pairs.items ≡ stack self.now actor) }
    {
        let mut pairs = Vec::new(alloc);
        for index in 0..self.stack_len(actor) {
            push_pair(&mut pairs, self.stack_pair(actor, index))?;
        }
        Ok(pairs)
    }

    /// What a retirement leaves of the history.
    #[tactic(auto, unfolding(scope_rules::specs::Replies::base_of))]
    pub fn base_after(&self, alloc: Global) -> Result<Base, AllocError>
        ensures { IfOk result (λ base. base ≡ base_of self.now) }
    {
        let binds = self.stack(alloc, MAIN)?;
        Ok(Base::new(self.moment(), self.scopes(), self.tasks(), binds))
    }

    /// The value of the actor's last own pair with the key.
    fn bound_on_stack(&self, actor: Actor, key: &Name) -> Option<Value>
        ensures { result ≡ bound_to key.now (stack self.now actor) }
    {
        let mut found = None;
        for index in 0..self.stack_len(actor) {
            found = value_under(key, self.stack_pair(actor, index)).or(found);
        }
        found
    }

    /// The value of the last pair with the key that the actor sees, looking at most so many forks
    /// back.
    #[tactic(auto, using(scope_rules::proofs::Stacks::bound_to_append, scope_rules::proofs::Stacks::bound_to_none), unfolding(scope_rules::specs::Bindings::bindings_within))]
    fn bound_within(&self, forks: u32, actor: Actor, key: &Name) -> Option<Value>
        ensures { result ≡ bound_to key.now (bindings_within self.now forks actor) }
    {
        let own = self.bound_on_stack(actor, key);
        if own.is_some() || forks == 0 {
            return own;
        }
        match self.forking(actor) {
            Some(forking) => {
                self.before(forking.place)
                    .bound_within(forks - 1, forking.actor, key)
            }
            None => None,
        }
    }

    /// What the actor sees the key bound to: the value of the last pair with it (JEP 506: a task
    /// inherits what its forker saw at the fork).
    #[tactic(auto, unfolding(scope_rules::specs::Bindings::bindings))]
    pub fn binding(&self, actor: Actor, key: &Name) -> Option<Value>
        ensures { result ≡ bound_to key.now (bindings self.now actor) }
    {
        self.bound_within(actor, actor, key)
    }

    /// Whether the actor's own pairs at the place, now and before, differ.
    fn differ_at(&self, then: &HistoryView<'a>, actor: Actor, index: u64) -> bool
        ensures { result ≡ differ_at (stack self.now actor) (stack then.now actor) index }
    {
        !is_same_pair(self.stack_pair(actor, index), then.stack_pair(actor, index))
    }

    /// Whether the actor's own pairs are those it had then.
    #[tactic(auto, using(scope_rules::proofs::Searching::some_below_more), unfolding(scope_rules::specs::Bindings::same_pairs, scope_rules::specs::Search::some_below))]
    fn has_same_pairs(&self, then: &HistoryView<'a>, actor: Actor) -> bool
        ensures { result ≡ same_pairs (stack self.now actor) (stack then.now actor) }
    {
        let count = self.stack_len(actor);
        let mut differ = false;
        for index in 0..count {
            differ |= self.differ_at(then, actor, index);
        }
        count == then.stack_len(actor) && !differ
    }

    /// Whether the actor's bindings are those at the opening of the scope.
    #[tactic(auto, unfolding(scope_rules::specs::Bindings::bound_as_opened))]
    pub fn bound_as_opened(&self, actor: Actor, scope: ScopeId) -> bool
        ensures { result ≡ bound_as_opened self.now actor scope }
    {
        match self.opening(scope) {
            Some(opening) => {
                let then = self.before(opening.place);
                self.has_same_pairs(&then, actor)
            }
            None => false,
        }
    }

    /// Whether the actor opened the scope, has not closed it, and had at least as many own pairs then
    /// as now.
    fn opened_above(&self, actor: Actor, scope: ScopeId) -> bool
        ensures { result ≡ opened_above self.now actor scope }
    {
        match self.opening(scope) {
            Some(opening) => {
                opening.actor == actor
                    && !self.closed(scope)
                    && self.stack_len(actor) <= self.before(opening.place).stack_len(actor)
            }
            None => false,
        }
    }

    /// Whether a scope that the actor has not closed was opened while its last pair stood.
    #[tactic(auto, using(scope_rules::proofs::Numbers::list_any_range), unfolding(scope_rules::specs::Bindings::holds_last))]
    pub fn holds_last(&self, actor: Actor) -> bool
        ensures { result ≡ holds_last self.now actor }
    {
        let mut found = false;
        for before in 0..self.opened_count() {
            found |= self.opened_above(actor, self.scope_after(before));
        }
        found
    }
}

/// Adds the pair, if there is one.
fn push_pair(pairs: &mut Vec<Binding>, pair: Option<Binding>) -> Result<(), AllocError>
    ensures { OnOk result (pairs.new.items ≡ pairs.old.items ++ cons_option pair []) }
{
    match pair {
        Some(pair) => Ok(pairs.push(pair)?),
        None => Ok(()),
    }
}

/// The actor's own pair at the place after the event, if it had so many pairs.
fn pair_after(
    actor: Actor,
    index: u64,
    height: u64,
    pair: Option<Binding>,
    event: &Event,
) -> Option<Binding>
    ensures { result ≡ pair_after actor index height pair event.now }
{
    match *event {
        Event::Bind { actor: by, binding } => {
            if by == actor && height == index {
                Some(binding)
            } else {
                pair
            }
        }
        Event::Unbind { actor: by } => {
            if by == actor && height.saturating_sub(1) <= index {
                None
            } else {
                pair
            }
        }
        _ => pair,
    }
}

/// The value of the pair, if it has the key.
fn value_under(key: &Name, pair: Option<Binding>) -> Option<Value>
    ensures { result ≡ value_under key.now pair }
{
    let pair = pair?;
    if pair.key.is_same(key) {
        Some(pair.value)
    } else {
        None
    }
}

/// Whether both pairs are there, and are the same.
fn is_same_pair(one: Option<Binding>, other: Option<Binding>) -> bool
    ensures { result ≡ same_pair one other }
{
    match (one, other) {
        (Some(one), Some(other)) => {
            one.key.is_same(&other.key) && one.value.is_same(&other.value)
        }
        _ => false,
    }
}

/// How many own pairs the actor has after the event.
fn height_after(actor: Actor, height: u64, event: &Event) -> u64
    requires { height + 1 < 2 ^ 64 }
    ensures { result ≡ height_after actor height event.now }
{
    match *event {
        Event::Bind {
            actor: by,
            binding: _,
        } => { if by == actor { height + 1 } else { height } }
        Event::Unbind { actor: by } => {
            if by == actor {
                height.saturating_sub(1)
            } else {
                height
            }
        }
        _ => height,
    }
}
