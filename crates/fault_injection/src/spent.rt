//! Calls that take no memory, made once memory is used up: of deadlines, of a tree, of the cell of a mark, and what
//! tickets come to together.
ghost use Rattle.std.specs.Prelude.{◌≡◌, [], length, IsTrue};
ghost use Rattle.cancel_tree.specs.Rows.{IsLatest};

use crate::refusals::use_up;
use crate::tickets::one_ended;
use cancel_marks::{CellReservation, MarkCell, MarkSetter};
use cancel_tree::Tree;
use deadline_core::Deadlines;
use realm_lock::{ActorToken, Forked, Realm, RealmName, Seed, Ticket};
use scope_rules::{AnyEnd, Cause, CauseKind, Effective, Label, Limits, Name};
use share_ledger::{Totals, gather};
use std::alloc::Global;
use std::sync::Wait;

/// Why the first scope is cancelled, and all that this reaches.
const CAUSE: Cause = Cause {
    scope: 1,
    kind: CauseKind::Call,
};

/// Four deadlines: false where memory is refused.
fn set_four(deadlines: &mut Deadlines) -> bool {
    for scope in 1..5u32 {
        let deadline = u64::from(scope).saturating_mul(100);
        if deadlines.set(scope, deadline).is_err() {
            return false;
        }
    }
    true
}

/// Takes the first away, and then the two that have passed at 300.
fn take_three(deadlines: &mut Deadlines) -> bool {
    deadlines.remove(1);
    let is_away = deadlines.get(1).is_none() && deadlines.earliest() == Some((200, 2));
    let early = deadlines.pop_expired(199);
    let second = deadlines.pop_expired(300);
    let third = deadlines.pop_expired(300);
    let fourth = deadlines.pop_expired(300);
    let popped = (early, second, third, fourth) == (None, Some(2), Some(3), None);
    is_away && popped && deadlines.earliest() == Some((400, 4))
}

/// Three scopes, each inside the one before, and the last in a shield: false where memory is refused.
fn grow_three(tree: &mut Tree) -> bool
    requires { tree.old ≡ [] }
    ensures { IsTrue result → (length tree.new ≡ 3) × IsLatest tree.new 3 }
{
    tree.add(1, None, false, 0).is_ok()
        && tree.add(2, Some(1), false, 1).is_ok()
        && tree.add(3, Some(2), true, 2).is_ok()
}

/// Cancels the first, which reaches the second and not the third, and takes the third's deadline away.
#[tactic(auto, using(cancel_tree::proofs::RowLaws::altered_length))]
fn cancel_two(tree: &mut Tree) -> bool
    requires three { length tree.old ≡ 3 }
    requires latest { IsLatest tree.old 3 }
{
    tree.cancel(1, CauseKind::Call, 3);
    let reached = (tree.cause(1), tree.cause(2), tree.cause(3));
    tree.set_deadline(3, 50);
    let is_there = tree.effective_deadline(3) == Effective::At(50);
    tree.clear_deadline(3);
    let is_away = tree.effective_deadline(3) == Effective::Never;
    reached == (Some(CAUSE), Some(CAUSE), None) && is_there && is_away
}

/// The cell of scope 2 shows nothing until it is set, and then why.
fn is_shown(setter: &mut MarkSetter, cell: &MarkCell) -> bool {
    let mut seat = cell.seat();
    if cell.checkpoint(&mut seat).is_some() {
        return false;
    }
    let is_first = setter.set(CAUSE, 3);
    match cell.checkpoint(&mut seat) {
        Some(mark) => is_first && (mark.scope, mark.cause, mark.number) == (2, CAUSE, 3),
        None => false,
    }
}

/// Prepares all of that, and uses memory up: false where a call answers otherwise than with memory. None where
/// memory was refused before.
fn without_memory(alloc: Global, tickets: &[Ticket]) -> Option<bool> {
    let mut deadlines = Deadlines::new(alloc);
    let mut tree = Tree::new(alloc);
    let (mut setter, cell) = CellReservation::new(alloc).ok()?.of(2);
    if !(set_four(&mut deadlines) && grow_three(&mut tree)) {
        return None;
    }
    use_up(alloc);
    let totals = Totals {
        given: 2,
        started: 1,
        finished: 1,
    };
    let are_kept = take_three(&mut deadlines) && cancel_two(&mut tree);
    Some(are_kept && is_shown(&mut setter, &cell) && gather(tickets) == totals)
}

/// With the tickets of a task that has ended, and of one that waits.
fn with_tickets<N: RealmName, R: Wait>(
    rt: &R,
    alloc: Global,
    realm: &Realm<AnyEnd, N>,
    main: &mut ActorToken,
    label: Label,
) -> Option<bool>
    requires { main.old.table ≡ N.table }
    ensures { main.new ≡ record main.old { seen = main.new.seen } }
{
    let (scope, ended) = one_ended(rt, realm, main, label)?;
    match realm.fork(rt, main, scope, label) {
        Ok(Forked::Thread(waits)) => without_memory(alloc, &[ended, waits]),
        _ => None,
    }
}

/// Plays that in a realm.
pub fn play<N: RealmName, R: Wait>(rt: &R, alloc: Global, seed: Seed) -> Option<bool>
    requires { seed ≡ N.table }
{
    let label = Label {
        name: Name::new(b"work")?,
        due: None,
    };
    let (realm, mut main) = Realm::<AnyEnd, N>::new(alloc, seed, Limits::GREATEST).ok()?;
    with_tickets(rt, alloc, &realm, &mut main, label)
}
