//! Works that come into a pool's queue together.

ghost use Rattle.std.specs.Prelude.{[], ◌++◌, ◌+◌, ◌-◌, ◌∷◌, ◌≡◌, ◌≤◌, IfSome, MatchOption, map, take, vec_capacity, vec_len};
ghost use Rattle.thread_pool.specs.{All, SpawnsFirst, declared.executors.PoolHandle.PoolHandle, declared.items.WorkItem.WorkItem, deque_capacity, deque_len};

use crate::executors::{PoolHandle, two_ends};
use crate::items::WorkItem;
use crate::spawning::Ready;
use share_ledger::{RealmName, Ticket};
use std::alloc::Global;
use std::collections::VecDeque;

/// Makes an item of the first work, with its handle. None if there is no work, or no memory.
fn make_item<N: RealmName, W: Ready>(
    alloc: Global,
    works: &mut VecDeque<(Ticket, W)>,
) -> Option<(PoolHandle<N>, WorkItem<N, W>)>
    requires ready { All (λ w. W.ready_for w.1 w.0) works.old.items }
    ensures made { MatchOption result (works.new.items ≡ works.old.items) (λ made. works.old.items ≡ (made.1.ticket, made.1.work) ∷ works.new.items) }
    ensures handle { IfSome result (λ made. made.0.first.value ≡ made.1.ticket) }
    ensures len { MatchOption result (deque_len works.new ≡ deque_len works.old) (λ _. deque_len works.new + 1 ≡ deque_len works.old) }
    ensures capacity { deque_capacity works.new ≡ deque_capacity works.old }
{
    let (way_back, way) = two_ends(alloc)?;
    let (ticket, work) = works.pop_front()?;
    let handle = PoolHandle::new(&ticket, way_back);
    Some((handle, WorkItem::new(work, ticket, way)))
}

/// Makes items of the first works, so many, with their handles, and stops where memory is refused.
pub(crate) fn make_items<N: RealmName, W: Ready>(
    alloc: Global,
    count: usize,
    works: &mut VecDeque<(Ticket, W)>,
    handles: &mut Vec<PoolHandle<N>>,
    items: &mut VecDeque<WorkItem<N, W>>,
)
    requires ready { All (λ w. W.ready_for w.1 w.0) works.old.items }
    requires none { (items.old.items ≡ []) × (handles.old.items ≡ []) }
    requires room { (count ≤ deque_capacity items.old) × (deque_len works.old ≤ vec_capacity handles.old) }
    ensures are { works.old.items ≡ map (λ (i : WorkItem _ _ _ _). (i.ticket, i.work)) items.new.items ++ works.new.items }
    ensures given { map (λ (h : PoolHandle _ _). h.first.value) handles.new.items ≡ map (λ (i : WorkItem _ _ _ _). i.ticket) items.new.items }
    ensures room { deque_len works.new + deque_len items.new ≤ deque_capacity works.new }
{
    for _ in 0..count {
        let Some((handle, item)) = make_item(alloc, works) else {
            return;
        };
        handles.push_reserved(handle);
        items.push_back_reserved(item);
    }
}

/// Puts the works of the items back before the others, and drops their handles, the last.
pub(crate) fn hand_back<N: RealmName, W: Ready + Drop>(
    mut items: VecDeque<WorkItem<N, W>>,
    works: &mut VecDeque<(Ticket, W)>,
    handles: &mut Vec<PoolHandle<N>>,
)
    requires room { deque_len works.old + deque_len items ≤ deque_capacity works.old }
    ensures works { works.new.items ≡ map (λ (i : WorkItem _ _ _ _). (i.ticket, i.work)) items.items ++ works.old.items }
    ensures handles { handles.new.items ≡ take (vec_len handles.old - deque_len items) handles.old.items }
{
    handles.truncate(handles.len().saturating_sub(items.len()));
    while let Some(item) = items.pop_back() {
        works.push_front_reserved(item.into_parts());
    }
}
