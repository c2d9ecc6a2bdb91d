ghost use Rattle.std.specs.Prelude.{◌≡◌};

use crate::executors::PoolHandle;
use crate::spawning::{Ready, Spawner, Spawns};
use share_ledger::{RealmName, Ticket};
use std::sync::Wait;

/// An executor that refuses every work: for who forks none.
#[derive(Clone, Copy)]
pub struct Nobody;

impl<N: RealmName> Spawner<N> for Nobody {
    type Handle = PoolHandle<N>;

    ghost first_of = { λ handle. handle.first.value };

    fn join<R: Wait>(&mut self, rt: &R, handle: PoolHandle<N>) -> Ticket {
        handle.wait(rt)
    }
}

impl<N: RealmName, W: Ready> Spawns<N, W> for Nobody {
    fn spawn<R: Wait>(
        &mut self,
        _rt: &R,
        ticket: Ticket,
        work: W,
    ) -> Result<PoolHandle<N>, (Ticket, W)> {
        Err((ticket, work))
    }
}
