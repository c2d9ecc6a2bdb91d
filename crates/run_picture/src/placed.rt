//! The tasks and the scopes of a run as nodes of one tree, in its order: a node, what lies below it, and then the next node
//! below the same parent. Nodes are first the tasks by number, then the scopes. Below a scope lie its tasks, and the scopes
//! that its owner opened in it; below a task, those that it opened itself.
ghost use Rattle.std.specs.Prelude.{◌+◌, ◌<◌, ◌^◌, ◌≡◌};
ghost use Rattle.run_picture.specs.{ℕ, AreKeys, IfOk, IfSome, IsEarlier, IsForestOf, IsOncePlaced, None, OnOk, ScopeRow, Some, get_or, length, node_count, scope_at, slice_get, task_at, times, times_below};

use crate::columns::{Columns, ScopeRow, TaskRow};
use scope_rules::{ScopeId, TaskId};
use std::alloc::{AllocError, Global};

/// A node in a row, so deep below a root.
#[derive(Clone, Copy, PartialEq, Eq, Debug, Drop)]
pub struct Placed {
    pub node: u32,
    pub depth: u32,
}

/// By node, the last one below it, and the one before it below the same parent. Behind the nodes stands the last root.
#[derive(Drop)]
pub(crate) struct Forest {
    pub(crate) last: Vec<Option<u32>>,
    pub(crate) before: Vec<Option<u32>>,
}

/// The row of the task, if there is one.
pub(crate) fn task_at(columns: &Columns, task: TaskId) -> Option<TaskRow>
    ensures { result ≡ task_at columns.now task }
{
    if task <= columns.tasks_before {
        return None;
    }
    let index = task - columns.tasks_before - 1;
    columns.tasks.get(index as usize).copied()
}

/// The row of the scope, if there is one.
pub(crate) fn scope_at(columns: &Columns, scope: ScopeId) -> Option<ScopeRow>
    ensures { result ≡ scope_at columns.now scope }
{
    if scope <= columns.scopes_before {
        return None;
    }
    let index = scope - columns.scopes_before - 1;
    columns.scopes.get(index as usize).copied()
}

/// How many nodes there are, if they are less than 2^31; no realm has more.
fn node_count(columns: &Columns) -> Option<u32>
    ensures is { IfSome result (λ count. count ≡ node_count columns.now) }
    ensures few { IfSome result (λ count. count < 2 ^ 31) }
{
    let count = columns.tasks.len().checked_add(columns.scopes.len())?;
    if count < 1 << 31 {
        Some(count as u32)
    } else {
        None
    }
}

/// The node of the task, if it was forked before the place.
fn task_before(columns: &Columns, task: TaskId, place: usize) -> Option<u32>
    ensures { IfSome result (λ node. IsEarlier columns.now node place) }
{
    let row = task_at(columns, task)?;
    if row.forked.place < place {
        Some(task - columns.tasks_before - 1)
    } else {
        None
    }
}

/// The node of the scope, if it was opened before the place.
fn scope_before(columns: &Columns, scope: ScopeId, place: usize) -> Option<u32>
    requires { node_count columns.now < 2 ^ 31 }
    ensures { IfSome result (λ node. IsEarlier columns.now node place) }
{
    let row = scope_at(columns, scope)?;
    if row.opened.place < place {
        Some(columns.tasks.len() as u32 + (scope - columns.scopes_before - 1))
    } else {
        None
    }
}

/// The node above the scope in the row with this index: the scope of its owner around it, or else its owner, a task.
fn above_scope(columns: &Columns, index: usize) -> Option<u32>
    requires { node_count columns.now < 2 ^ 31 }
    ensures { (row : ScopeRow) → slice_get columns.now.scopes.items index ≡ Some row → IfSome result (λ node. IsEarlier columns.now node row.opened.place) }
{
    let row = columns.scopes.get(index)?;
    if let Some(parent) = row.parent {
        if let Some(around) = scope_at(columns, parent) {
            if around.opened.actor == row.opened.actor {
                return scope_before(columns, parent, row.opened.place);
            }
        }
    }
    task_before(columns, row.opened.actor, row.opened.place)
}

/// The nodes above the nodes, all of which happened earlier; the number of nodes stands for none. It is refused for memory
/// alone.
fn keys_of(alloc: Global, columns: &Columns, count: u32) -> Result<Vec<u32>, AllocError>
    requires count { count ≡ node_count columns.now }
    requires few { count < 2 ^ 31 }
    ensures { IfOk result (λ keys. AreKeys keys.items columns.now (node_count columns.now)) }
{
    let mut keys = Vec::new(alloc);
    for row in &columns.tasks {
        let above = scope_before(columns, row.forked.scope, row.forked.place);
        keys.push(above.unwrap_or(count))?;
    }
    for index in 0..columns.scopes.len() {
        keys.push(above_scope(columns, index).unwrap_or(count))?;
    }
    Ok(keys)
}

/// So many times nothing. It is refused for memory alone.
pub(crate) fn nothings(alloc: Global, count: usize) -> Result<Vec<Option<u32>>, AllocError>
    ensures long { IfOk result (λ nothings. length nothings.items ≡ count) }
    ensures each { IfOk result (λ nothings. (k : ℕ) → k < count → get_or nothings.items k None ≡ None) }
{
    let mut nothings = Vec::new(alloc);
    for _ in 0..count {
        nothings.push(None)?;
    }
    Ok(nothings)
}

/// The forest of nodes by their parents. It is refused for memory alone.
fn forest_of(alloc: Global, keys: &[u32]) -> Result<Forest, AllocError>
    requires small { (i : ℕ) → i < length keys.now → get_or keys.now i 0 < length keys.now + 1 }
    requires few { length keys.now < 2 ^ 31 }
    ensures { IfOk result (λ forest. IsForestOf forest keys.now (length keys.now)) }
{
    let mut last = nothings(alloc, keys.len() + 1)?;
    let mut before = Vec::new(alloc);
    for node in 0..keys.len() {
        let key = keys[node] as usize;
        before.push(last[key])?;
        last[key] = Some(node as u32);
    }
    Ok(Forest { last, before })
}

/// Puts the nodes below this one upon those that are still to be placed, the first at the top. It is refused for memory
/// alone.
fn push_below(
    keys: &[u32],
    forest: &Forest,
    pending: &mut Vec<Placed>,
    key: usize,
    depth: u32,
) -> Result<(), AllocError>
    requires forest { IsForestOf forest.now keys.now (length keys.now) }
    requires key { key < length keys.now + 1 }
    ensures { OnOk result ((n : ℕ) → times n pending.new.items ≡ times n pending.old.items + times_below keys.now key (length keys.now) n) }
{
    let _keys = keys;
    let mut next = forest.last[key];
    while let Some(node) = next {
        pending.push(Placed { node, depth })?;
        next = forest.before[node as usize];
    }
    Ok(())
}

/// The nodes in the order of the tree. It is refused for memory alone.
fn walked(
    alloc: Global,
    columns: &Columns,
    keys: &[u32],
    forest: &Forest,
) -> Result<Vec<Placed>, AllocError>
    requires keys { AreKeys keys.now columns.now (node_count columns.now) }
    requires forest { IsForestOf forest.now keys.now (length keys.now) }
    ensures { IfOk result (λ placed. IsOncePlaced placed.items (node_count columns.now)) }
{
    let _columns = columns;
    let mut placed = Vec::new(alloc);
    let mut pending = Vec::new(alloc);
    push_below(keys, forest, &mut pending, keys.len(), 0)?;
    while let Some(one) = pending.pop() {
        placed.push(one)?;
        let below = one.depth.saturating_add(1);
        push_below(keys, forest, &mut pending, one.node as usize, below)?;
    }
    Ok(placed)
}

/// The tasks and the scopes in the order of the tree, each exactly once.
///
/// # Errors
/// It is refused for memory alone; of 2^31 nodes and more, which no realm has, it asks none, and is refused too.
pub fn placed_of(alloc: Global, columns: &Columns) -> Result<Vec<Placed>, AllocError>
    ensures once { IfOk result (λ placed. IsOncePlaced placed.items (node_count columns.now)) }
{
    let Some(count) = node_count(columns) else {
        return Err(AllocError);
    };
    let keys = keys_of(alloc, columns, count)?;
    let forest = forest_of(alloc, &keys)?;
    walked(alloc, columns, &keys, &forest)
}
