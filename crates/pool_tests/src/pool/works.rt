//! Small works of several kinds, and how they are forked and joined.
ghost use Rattle.std.specs.Prelude.{◌≡◌, IfSome};
ghost use Rattle.thread_pool.specs.Returns.{Returns};
ghost use Rattle.pool_tests.specs.Tickets.{IsNew};

use super::boards::Board;
use crate::Ledger;
use scope_rules::{Label, Name, Value};
use share_ledger::{RealmName, Seed, Ticket};
use std::alloc::{AllocError, Global};
use std::sync::{Arc, Wait};
use std::thread;
use thread_pool::{Ready, Spawns, Work};

/// The place at which works are forked by one that does so until it is refused.
pub const INNER: u32 = 30;

/// What a work does once it was counted at its place. Each ends with a number.
#[derive(Clone, Copy)]
pub enum Kind {
    /// It ends with this number.
    Plain(i64),
    /// It looks for a run at this place, so often at most, and ends with 1 if there was one, else with 0.
    Meets(u32, u32),
    /// It waits until so many works were run at its own place, with itself, and ends with 1 once they were.
    Gathers(u64),
    /// It forks two of its kind, one less deep, and joins them, unless it is 0 deep. It ends with the
    /// number of works that it and they were.
    Tree(u32),
    /// It forks plain works at the inner place and joins each, until one is refused. It ends with 1 if
    /// each of them ended as it was to, else with 0.
    UntilRefused,
}

/// The board of a test's realm, which is named `N`.
pub type Shared<N> = Arc<Board<Ledger<N>>, Global>;

/// A work of the realm that is named `N`.
#[derive(Drop)]
pub struct PoolWork<N: RealmName> {
    pub kind: Kind,
    pub place: u32,
    pub board: Shared<N>,
}

impl<N: RealmName> Ready for PoolWork<N> {
    ghost use Rattle.std.proofs.Props.{props};
    ghost use Rattle.pool_tests.specs.Tickets.{IsNew};

    ghost ready_for = { λ work ticket. IsNew N.table ticket };

    ghost is_fact = { λ work ticket. Prim.hlevel props };
}

impl<N: RealmName, S: Spawns<N, PoolWork<N>>> Work<N, S> for PoolWork<N> {
    fn run<R: Wait>(self, rt: &R, spawner: S, ticket: Ticket) -> (Ticket, S) {
        let (mut ticket, mut spawner) = (ticket, spawner);
        let PoolWork { kind, place, board } = self;
        let token = board.ledger.lock(rt).start(&mut ticket);
        board.note(place);
        let end = match kind {
            Kind::Plain(number) => number,
            Kind::Meets(other, looks) => i64::from(is_seen(&board, other, looks)),
            Kind::Gathers(count) => i64::from(is_gathered(&board, place, count)),
            Kind::Tree(depth) => grow(rt, &mut spawner, &board, depth),
            Kind::UntilRefused => fork_until_refused(rt, &mut spawner, &board),
        };
        board
            .ledger
            .lock(rt)
            .finish(&mut ticket, token, Ok(Value::Num(end)));
        (ticket, spawner)
    }
}

/// The board of a realm with no task.
pub fn shared<N: RealmName>(alloc: Global, seed: Seed) -> Result<Shared<N>, AllocError>
    requires { seed ≡ N.table }
{
    let name = Name::new(b"work").ok_or(AllocError)?;
    let label = Label { name, due: None };
    Ok(Arc::new(alloc, Board::new(alloc, label, Ledger::new(seed))?)?)
}

/// Main forks a task.
fn new_ticket<N: RealmName, R: Wait>(rt: &R, board: &Shared<N>) -> Option<Ticket>
    ensures { IfSome result (IsNew N.table) }
{
    board.ledger.lock(rt).fork(&board.label)
}

/// A work at the place.
fn work<N: RealmName>(board: &Shared<N>, kind: Kind, place: u32) -> Option<PoolWork<N>> {
    let board = Arc::try_clone(board).ok()?;
    Some(PoolWork { kind, place, board })
}

/// Forks a work at the place, and once more the pair that comes back where it is refused. Gives how often
/// it was refused, and its handle. None where another pair came back, or a refused work was run.
pub fn fork<N: RealmName, S: Spawns<N, PoolWork<N>>, R: Wait>(
    rt: &R,
    spawner: &mut S,
    board: &Shared<N>,
    kind: Kind,
    place: u32,
) -> Option<(u32, Option<S::Handle>)> {
    let runs = board.runs(place);
    let ticket = new_ticket(rt, board)?;
    let task = ticket.task();
    let (ticket, work) = match spawner.spawn(rt, ticket, work(board, kind, place)?) {
        Ok(handle) => return Some((0, Some(handle))),
        Err(refused) => refused,
    };
    if ticket.task() != task || work.place != place || board.runs(place) != runs {
        return None;
    }
    match spawner.spawn(rt, ticket, work) {
        Ok(handle) => Some((1, Some(handle))),
        Err(_) => Some((2, None)),
    }
}

/// Waits for a work, and gives the number that it ended with. None where there is none.
pub fn join<N: RealmName, S: Spawns<N, PoolWork<N>>, R: Wait>(
    rt: &R,
    spawner: &mut S,
    handle: Option<S::Handle>,
) -> Option<i64> {
    let ticket = spawner.join(rt, handle?);
    match ticket.end()? {
        Ok(Value::Num(end)) => Some(end),
        _ => None,
    }
}

/// Whether a run at the place is seen, in so many looks at most.
pub fn is_seen<L>(board: &Board<L>, place: u32, looks: u32) -> bool {
    are_seen(board, place, 1, looks)
}

/// Whether so many runs at the place are seen, in so many looks as there are at most.
fn is_gathered<L>(board: &Board<L>, place: u32, count: u64) -> bool {
    are_seen(board, place, count, u32::MAX)
}

/// Whether so many runs at the place are seen, in so many looks at most.
fn are_seen<L>(board: &Board<L>, place: u32, count: u64, looks: u32) -> bool {
    for _ in 0..looks {
        if board.runs(place) >= count {
            return true;
        }
        thread::yield_now();
    }
    false
}

/// How many works the tree is, with this one.
fn grow<N: RealmName, S: Spawns<N, PoolWork<N>>, R: Wait>(
    rt: &R,
    spawner: &mut S,
    board: &Shared<N>,
    depth: u32,
) -> i64 {
    let Some(less) = depth.checked_sub(1) else {
        return 1;
    };
    let left = handle_of(fork(rt, spawner, board, Kind::Tree(less), less));
    let right = handle_of(fork(rt, spawner, board, Kind::Tree(less), less));
    let left = join(rt, spawner, left).unwrap_or(0);
    let right = join(rt, spawner, right).unwrap_or(0);
    left.saturating_add(right).saturating_add(1)
}

/// The handle of what was forked, if it was.
fn handle_of<H>(forked: Option<(u32, Option<H>)>) -> Option<H> {
    match forked {
        Some((_, handle)) => handle,
        None => None,
    }
}

/// Forks works at the inner place and joins each, until one is refused. 1 if each ended with that place.
fn fork_until_refused<N: RealmName, S: Spawns<N, PoolWork<N>>, R: Wait>(
    rt: &R,
    spawner: &mut S,
    board: &Shared<N>,
) -> i64 {
    for _ in rt.forever() {
        match fork(rt, spawner, board, Kind::Plain(7), INNER) {
            Some((_, Some(handle))) => {
                if join(rt, spawner, Some(handle)) != Some(7) {
                    return 0;
                }
            }
            Some((_, None)) => return 1,
            None => return 0,
        }
    }
    unreachable!()
}
