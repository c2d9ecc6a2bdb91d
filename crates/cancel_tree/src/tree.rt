ghost use Rattle.std.specs.Prelude.{[], ℕ, ◌++◌, ◌+◌, ◌<◌, ◌∷◌, ◌≡◌, ◌≤◌, IfErr, IfOk, IfSome, List, None, OnErr, OnOk, Some, drop, if◌then◌else◌, is_ok, is_some, length, nat_lt};
ghost use Rattle.cancel_tree.specs.{AreLed, Contains, IsAdded, IsCancelOrder, IsEarliest, IsInward, IsLatest, KeepsNodes, LEVEL_LIMIT, Memory, TooDeep, cancel_at, cancel_of, cause_of, chain_by, changed, deadline_of, effective_of};
ghost use Rattle.cancel_tree.specs.{is_at_or_before, last_inner, least_on, level_in, level_of, nearer, new_row, onward, option_and_then, outer_of, own_of, place_of, sem, sooner, with_deadline, with_own};

use crate::cancel_order::CancelOrder;
use crate::rows::{Links, ScopeNode};
use crate::spread::spread;
use scope_rules::types::capacity::LEVEL_LIMIT;
use scope_rules::types::records::FirstCancel;
use scope_rules::{Cause, CauseKind, Effective, Refusal, ScopeId};
use std::alloc::{AllocError, Global};
use std::marker::Model;

/// The tree of a realm's scopes, which are numbered from 1 in order of opening.
/// Its calls take constant time, but for `cancel`, which takes time by the scopes that it reaches,
/// `effective_deadline`, which goes outwards along the chain, and the sorting of the scopes that one
/// event cancelled: when `cancelled_since` asks for them, or when the next event cancels a scope.
#[derive(Drop)]
pub struct Tree {
    nodes: Vec<ScopeNode>,
    links: Vec<Links>,
    cancels: Vec<Option<FirstCancel>>,
    listed: CancelOrder,
}

impl Model for Tree {
    ghost use Rattle.std.specs.Prelude.{List};
    ghost use Rattle.cancel_tree.specs.declared.rows.ScopeNode.{ScopeNode as Row};
    ghost use Rattle.cancel_tree.specs.CancelOrder.{AreKept};

    ghost Value = { List Row };

    ghost view = { λ a. a.nodes.items };

    ghost invariant = { λ a. AreKept a.nodes.items a.links.items a.cancels.items a.listed };
}

impl Tree {
    /// No scopes. The memory of later calls comes from `alloc`.
    pub fn new(alloc: Global) -> Tree
        ensures { result ≡ [] }
    {
        Tree {
            nodes: Vec::new(alloc),
            links: Vec::new(alloc),
            cancels: Vec::new(alloc),
            listed: CancelOrder::new(alloc),
        }
    }

    /// Leaves no scopes. It keeps the memory, and takes none.
    pub fn clear(&mut self)
        ensures { self.new ≡ [] }
    {
        self.nodes.clear();
        self.links.clear();
        self.cancels.clear();
        self.listed.clear();
    }

    /// Adds the scope, which has the next number, inside `parent`, or outside all others. If the
    /// parent is cancelled and no shield is in the way, it is cancelled from the start. `opened` is the
    /// place of its opening, which never falls from one call to the next, nor below that of a cancel.
    ///
    /// # Errors
    ///
    /// `TooDeep` where it would lie more than 16 levels deep; else `Memory` if memory is refused.
    /// Then nothing has changed.
    pub fn add(
        &mut self,
        scope: ScopeId,
        parent: Option<ScopeId>,
        shield: bool,
        opened: usize,
    ) -> Result<(), Refusal>
        requires next { scope ≡ length self.old + 1 }
        requires there { IfSome parent (IsAdded self.old) }
        requires latest { IsLatest self.old opened }
        ensures added { OnOk result (self.new ≡ self.old ++ new_row parent shield opened ∷ []) }
        ensures level { OnOk result (level_in self.old parent ≤ LEVEL_LIMIT) }
        ensures refused { IfErr result (λ refusal. refusal ≡ (if nat_lt LEVEL_LIMIT (level_in self.old parent) then TooDeep else Memory)) }
        ensures unchanged { OnErr result (self.new ≡ self.old) }
    {
        let around = self.level_around(parent);
        if around >= LEVEL_LIMIT {
            return Err(Refusal::TooDeep);
        }
        let nodes = ScopeNode {
            parent,
            shield,
            opened,
            own: None,
            deadline: None,
        };
        let outer = nodes.outer();
        let links = Links {
            level: around + 1,
            first_inner: None,
            next_inner: self.last_inner(outer),
        };
        let first_cancel = self.cancel_from(outer);
        if self.listed.make_room(self.nodes.len() + 1).is_err() {
            return Err(Refusal::Memory);
        }
        if append(
            &mut self.nodes,
            &mut self.links,
            &mut self.cancels,
            nodes,
            links,
            first_cancel,
        )
        .is_err()
        {
            return Err(Refusal::Memory);
        }
        self.listed.add(scope, first_cancel.is_some(), opened);
        lead_to(&mut self.links, outer, scope);
        Ok(())
    }

    /// How many scopes there are: the number of the last one.
    pub fn len(&self) -> usize
        ensures { result ≡ length self.now }
    {
        self.nodes.len()
    }

    /// How many scopes lie around one another down to this one, itself included.
    pub fn level(&self, scope: ScopeId) -> u32
        requires { IsAdded self.now scope }
        ensures { result ≡ level_of self.now scope }
    {
        self.links[(scope - 1) as usize].level
    }

    /// How many scopes lie around one another down to the parent, itself included.
    fn level_around(&self, parent: Option<ScopeId>) -> u32
        requires { IfSome parent (IsAdded self.now) }
        ensures { result + 1 ≡ level_in self.now parent }
    {
        match parent {
            Some(parent) => self.level(parent),
            None => 0,
        }
    }

    /// The scope that was last added inside it, shielded ones aside.
    fn last_inner(&self, outer: Option<ScopeId>) -> Option<ScopeId>
        requires { IfSome outer (IsAdded self.now) }
        ensures { result ≡ option_and_then (λ s. last_inner (outer_of self.now) s (length self.now)) outer }
    {
        match outer {
            Some(outer) => self.links[(outer - 1) as usize].first_inner,
            None => None,
        }
    }

    /// The first cancel of the scope outside.
    fn cancel_from(&self, outer: Option<ScopeId>) -> Option<FirstCancel>
        requires { IfSome outer (IsAdded self.now) }
        ensures { result ≡ option_and_then (cancel_of self.now) outer }
    {
        match outer {
            Some(outer) => self.cancels[(outer - 1) as usize],
            None => None,
        }
    }

    /// Whether the scope is cancelled: by its own cancel, or by that of a scope on its chain.
    pub fn is_cancelled(&self, scope: ScopeId) -> bool
        requires { IsAdded self.now scope }
        ensures { result ≡ is_some (cancel_of self.now scope) }
    {
        self.cancels[(scope - 1) as usize].is_some()
    }

    /// Whether the scope has an own cancel.
    pub fn has_own_cancel(&self, scope: ScopeId) -> bool
        requires { IsAdded self.now scope }
        ensures { result ≡ is_some (own_of self.now scope) }
    {
        self.nodes[(scope - 1) as usize].own.is_some()
    }

    /// The earliest own cancel on the chain, the nearest on a tie, with its place. The scope whose it is
    /// has no greater number.
    pub fn first_cancel(&self, scope: ScopeId) -> Option<FirstCancel>
        requires { IsAdded self.now scope }
        ensures first_cancel { result ≡ cancel_of self.now scope }
        ensures within { IfSome result (λ first_cancel. first_cancel.cause.scope ≤ scope) }
    {
        self.cancels[(scope - 1) as usize]
    }

    /// The scope on the chain whose own cancel is the earliest, the nearest on a tie, with its kind.
    pub fn cause(&self, scope: ScopeId) -> Option<Cause>
        requires { IsAdded self.now scope }
        ensures { result ≡ cause_of self.now scope }
    {
        self.first_cancel(scope)
            .map(|first_cancel| first_cancel.cause)
    }

    /// The place of the cause: that of the event that made it.
    pub fn number(&self, scope: ScopeId) -> Option<u64>
        requires { IsAdded self.now scope }
        ensures { result ≡ place_of self.now scope }
    {
        self.first_cancel(scope)
            .map(|first_cancel| first_cancel.place as u64)
    }

    /// The earliest deadline in effect for the scope (Trio, `current_effective_deadline`): past if it
    /// is cancelled, and else the least deadline on its chain.
    pub fn effective_deadline(&self, scope: ScopeId) -> Effective
        requires { IsAdded self.now scope }
        ensures { result ≡ effective_of self.now scope }
    {
        if self.is_cancelled(scope) {
            return Effective::Past;
        }
        match least_deadline(&self.nodes, scope) {
            Some(deadline) => Effective::At(deadline),
            None => Effective::Never,
        }
    }

    /// The scope's own deadline, in milliseconds, if it has one.
    pub fn deadline(&self, scope: ScopeId) -> Option<u64>
        requires { IsAdded self.now scope }
        ensures { result ≡ deadline_of self.now scope }
    {
        self.nodes[(scope - 1) as usize].deadline
    }

    /// Gives the scope this deadline, in place of the one that it had. Takes no memory.
    pub fn set_deadline(&mut self, scope: ScopeId, deadline: u64)
        requires { IsAdded self.old scope }
        ensures { self.new ≡ changed self.old scope (with_deadline (Some deadline)) }
    {
        self.nodes[(scope - 1) as usize].deadline = Some(deadline);
    }

    /// Takes the scope's deadline away. Takes no memory.
    pub fn clear_deadline(&mut self, scope: ScopeId)
        requires { IsAdded self.old scope }
        ensures { self.new ≡ changed self.old scope (with_deadline None) }
    {
        self.nodes[(scope - 1) as usize].deadline = None;
    }

    /// Cancels the scope: it keeps the first own cancel that it is given. The cancel reaches all inside
    /// it that no shield is in the way of, and is the cause if none was earlier; of two at one
    /// place the nearer is. The place, `number`, never falls from one call to the next. Takes no memory.
    pub fn cancel(&mut self, scope: ScopeId, kind: CauseKind, number: u64)
        requires added { IsAdded self.old scope }
        requires latest { IsLatest self.old number }
        ensures { self.new ≡ changed self.old scope (with_own (cancel_at number scope kind)) }
    {
        let place = (scope - 1) as usize;
        if self.nodes[place].own.is_some() {
            return;
        }
        let first_cancel = FirstCancel {
            place: number as usize,
            cause: Cause { scope, kind },
        };
        let is_cause = is_at_or_before(number, self.cancels[place]);
        put_own(&mut self.nodes, scope, first_cancel);
        if is_cause {
            self.listed.begin(number as usize);
            spread(
                &self.nodes,
                &self.links,
                &mut self.cancels,
                &mut self.listed,
                scope,
                first_cancel,
            );
        }
    }

    /// The cancelled scopes in order of their cancellation, those that one event cancelled by their
    /// numbers, from the n-th on, from 0: none if no more than n are cancelled. It takes no memory,
    /// and time by the scopes that were cancelled since it was last called, with those of the last event
    /// before them.
    pub fn cancelled_since(&mut self, n: usize) -> &[ScopeId]
        ensures* kept { sem 𝓛 (KeepsNodes self.entry) }
        ensures order { (list : List ℕ) × IsCancelOrder self.old list × (result.now ≡ drop n list) }
    {
        self.listed.order();
        self.listed.since(n)
    }
}

/// Puts a row at the end of each column, which at first has room for that one alone: most realms have few scopes.
fn append(
    nodes: &mut Vec<ScopeNode>,
    links: &mut Vec<Links>,
    cancels: &mut Vec<Option<FirstCancel>>,
    row: ScopeNode,
    link: Links,
    first_cancel: Option<FirstCancel>,
) -> Result<(), AllocError>
    ensures nodes { nodes.new.items ≡ (if is_ok result then nodes.old.items ++ row ∷ [] else nodes.old.items) }
    ensures links { links.new.items ≡ (if is_ok result then links.old.items ++ link ∷ [] else links.old.items) }
    ensures cancels { cancels.new.items ≡ (if is_ok result then cancels.old.items ++ first_cancel ∷ [] else cancels.old.items) }
{
    if nodes.is_empty() {
        nodes.reserve_exact(1)?;
        links.reserve_exact(1)?;
        cancels.reserve_exact(1)?;
    }
    links.reserve(1)?;
    cancels.reserve(1)?;
    nodes.push(row)?;
    links.push(link)?;
    cancels.push(first_cancel)?;
    Ok(())
}

/// The scope outside, if there is one, leads to this scope.
fn lead_to(links: &mut Vec<Links>, outer: Option<ScopeId>, scope: ScopeId)
    requires { IfSome outer (λ o. (1 ≤ o) × (o ≤ length links.old.items)) }
    ensures { AreLed links.old.items outer scope links.new.items }
{
    if let Some(outer) = outer {
        links[(outer - 1) as usize].first_inner = Some(scope);
    }
}

/// The scope, which has no own cancel, has this one.
fn put_own(nodes: &mut Vec<ScopeNode>, scope: ScopeId, first_cancel: FirstCancel)
    requires added { IsAdded nodes.old.items scope }
    requires none { own_of nodes.old.items scope ≡ None }
    ensures { nodes.new.items ≡ changed nodes.old.items scope (with_own first_cancel) }
{
    nodes[(scope - 1) as usize].own = Some(first_cancel);
}

/// The least deadline on the chain of the scope.
fn least_deadline(nodes: &[ScopeNode], scope: ScopeId) -> Option<u64>
    requires added { IsAdded nodes.now scope }
    requires inward { IsInward (outer_of nodes.now) }
    ensures { result ≡ least_on (deadline_of nodes.now) (chain_by (outer_of nodes.now) scope) }
{
    let mut least = None;
    let mut next = Some(scope);
    while let Some(here) = next {
        let row = &nodes[(here - 1) as usize];
        least = sooner(least, row.deadline);
        next = row.outer();
    }
    least
}

/// The lesser of two deadlines, if they are set.
fn sooner(one: Option<u64>, other: Option<u64>) -> Option<u64>
    ensures { result ≡ sooner one other }
{
    match (one, other) {
        (Some(one), Some(other)) => Some(one.min(other)),
        (Some(one), None) => Some(one),
        (None, other) => other,
    }
}

/// Whether the place is at or before that of the first cancel, or there is none.
fn is_at_or_before(number: u64, first_cancel: Option<FirstCancel>) -> bool
    ensures { result ≡ is_at_or_before number first_cancel }
{
    match first_cancel {
        Some(first_cancel) => number <= first_cancel.place as u64,
        None => true,
    }
}

/// Laws of the definitions that the contracts cite. None of them does anything.
impl Tree {
    /// The chain of a scope is the scope, then the chain of the scope outside it.
    pub fn chain_goes_outwards(&self, scope: ScopeId)
        requires { IsAdded self.now scope }
        ensures { chain_by (outer_of self.now) scope ≡ scope ∷ onward (outer_of self.now scope) (chain_by (outer_of self.now)) }
    {
        let _rows_are_kept = &self.nodes;
    }

    /// The first cancel of a scope is the nearer of its own cancel and the first cancel of the scope outside.
    pub fn first_cancel_is_own_or_outer(&self, scope: ScopeId)
        requires { IsAdded self.now scope }
        ensures { cancel_of self.now scope ≡ nearer (own_of self.now scope) (option_and_then (cancel_of self.now) (outer_of self.now scope)) }
    {
        let _rows_are_kept = &self.nodes;
    }

    /// The first cancel of a scope is the own cancel of a scope on its chain, none on the chain has an
    /// earlier one, and none nearer has one as early.
    pub fn first_cancel_is_the_earliest(&self, scope: ScopeId)
        ensures { IsEarliest (own_of self.now) (chain_by (outer_of self.now) scope) (cancel_of self.now scope) }
    {
        let _rows_are_kept = &self.nodes;
    }

    /// The cause of a scope is a scope on its chain.
    pub fn cause_is_on_the_chain(&self, scope: ScopeId)
        ensures { IfSome (cause_of self.now scope) (λ cause. Contains (chain_by (outer_of self.now) scope) cause.scope) }
    {
        let _rows_are_kept = &self.nodes;
    }

    /// There is one list of the cancelled scopes in order of their cancellation.
    pub fn cancel_order_is_one(&self)
        ensures { (one other : List ℕ) → IsCancelOrder self.now one → IsCancelOrder self.now other → one ≡ other }
    {
        let _rows_are_kept = &self.nodes;
    }
}
