//! A wait of main by a clock, while jobs do anything.
ghost use Rattle.std.specs.Prelude.{◌≡◌, Some};

use crate::duties::{Duty, Shared, Worker, fork};
use crate::roaming::opened;
use job_runner::{Clock, JobWork, TaskCtx};
use join_rules::Joiner;
use realm_lock::{Joined, RealmName};
use scope_rules::{AnyEnd, Options, Refusal, ScopeId};
use std::rt::Clock as SystemTime;
use std::sync::{Arc, Wait};
use test_driver::Throws;
use thread_pool::{Spawner, Spawns};

/// A clock of which each reading is a moment that nobody was told before.
#[derive(Drop)]
struct LaterClock {
    board: Shared,
    last: Option<u64>,
}

impl Clock for LaterClock {
    ghost reading = { λ clock. clock.last };

    ghost reads = { λ old new now. new.last ≡ Some now };

    fn now(&mut self) -> u64 {
        let now = self.board.next_moment();
        self.last = Some(now);
        now
    }

    fn last(&self) -> Option<u64> {
        self.last
    }
}

/// Whether a wait may be refused so, by a scope of main's own that is open: its tick has no load, or
/// memory is refused.
fn is_of_tick(refusal: Option<Refusal>) -> bool {
    matches!(
        refusal,
        None | Some(Refusal::TooMany) | Some(Refusal::Memory)
    )
}

/// Waits in the scope by the clock: for a join, for the mark, or for some milliseconds.
fn wait<N: RealmName, S: Spawner<N>, R: Wait + SystemTime>(
    rt: &R,
    ctx: &mut TaskCtx<AnyEnd, S, N>,
    board: &Shared,
    scope: ScopeId,
    clock: &mut LaterClock,
    throws: &mut Throws,
) {
    match throws.below(3) {
        0 => board.check(is_of_tick(ctx.join_by::<Joined, _, _>(rt, scope, clock).err())),
        1 => match ctx.wait_by(rt, clock, None, None) {
            Ok(mark) => board.check(mark.is_some()),
            Err(refusal) => board.check(is_of_tick(Some(refusal))),
        },
        _ => {
            let until = board.moment().saturating_add(u64::from(throws.below(8)));
            match ctx.wait_by(rt, clock, Some(until), None) {
                Ok(Some(_)) => {}
                Ok(None) => board.check(clock.last >= Some(until)),
                Err(refusal) => board.check(is_of_tick(Some(refusal))),
            }
        }
    }
}

/// Opens a scope with a deadline, forks two jobs that do anything, waits by a clock, and closes it so, or
/// without a clock where that is refused.
pub fn wait_by_a_clock<
    N: RealmName,
    S: Spawns<N, JobWork<AnyEnd, N, Worker>>,
    R: Wait + SystemTime,
>(rt: &R, ctx: &mut TaskCtx<AnyEnd, S, N>, board: &Shared, seed: u64) {
    let mut throws = Throws::new(seed);
    let Ok(share) = Arc::try_clone(board) else {
        return;
    };
    let mut clock = LaterClock {
        board: share,
        last: None,
    };
    let deadline = board.moment().saturating_add(u64::from(throws.below(8)));
    let options = Options {
        deadline: Some(deadline),
        shield: throws.one_in(3),
        ..Options::PLAIN
    };
    let Some(scope) = opened(rt, ctx, Joiner::AwaitAll, options) else {
        return;
    };
    for _ in 0..2u32 {
        let seed = throws.any();
        let _forked = fork(rt, ctx, board, scope, Duty::Roams { depth: 1, seed });
    }
    wait(rt, ctx, board, scope, &mut clock, &mut throws);
    let _waited = ctx.await_close_by(rt, scope, &mut clock);
    board.check(ctx.close_scope_bare(rt, scope).is_ok());
}
