ghost use Rattle.std.specs.Prelude.{◌≡◌, Some, IsOk, IsSome, MatchResult};
ghost use Rattle.thread_pool.specs.Returns.{Returns};

use share_ledger::{OfRealm, RealmName, Ticket};
use std::snapshot::Snapshot;
use std::sync::Wait;
use thread_pool::{Ready, Spawner, Spawns, Work};

/// An executor that runs each work in the caller's thread, before the fork is answered, and lends
/// it the spawner `L` for the works that it forks in turn. A work that waits for a later one never ends
/// there.
#[derive(Drop)]
pub struct Inline<L> {
    /// Away while a work runs.
    lent: Option<L>,
}

impl<L> Inline<L> {
    /// One that lends its works this spawner.
    pub fn new(lent: L) -> Inline<L>
        ensures { result.lent ≡ Some lent }
    {
        Inline { lent: Some(lent) }
    }
}

/// What is kept of a work that has ended.
#[derive(Drop)]
pub struct InlineHandle<N: RealmName> {
    ticket: OfRealm<N, Ticket>,
    first: Snapshot<Ticket>,
    ghost returns: { Returns N.table first.value ticket },
}

impl<N: RealmName> InlineHandle<N> {
    /// Of the work that was given the first ticket, and gave back the last.
    fn new(first: Snapshot<Ticket>, ticket: Ticket) -> InlineHandle<N>
        requires { Returns N.table first.value ticket }
        ensures { result.first.value ≡ first.value }
    {
        InlineHandle {
            ticket: OfRealm::new(ticket),
            first,
        }
    }

    /// The ticket, whose task has ended.
    fn into_ticket(self) -> Ticket
        ensures { Returns N.table self.first.value result }
    {
        self.ticket.into_held()
    }
}

impl<N: RealmName, L> Spawner<N> for Inline<L> {
    type Handle = InlineHandle<N>;

    ghost first_of = { λ handle. handle.first.value };

    fn join<R: Wait>(&mut self, _rt: &R, handle: InlineHandle<N>) -> Ticket {
        handle.into_ticket()
    }
}

impl<N: RealmName, L: Drop, W: Ready + Work<N, L>> Spawns<N, W> for Inline<L> {
    fn spawn<R: Wait>(
        &mut self,
        rt: &R,
        ticket: Ticket,
        work: W,
    ) -> Result<InlineHandle<N>, (Ticket, W)>
        requires { W.ready_for work ticket }
        ensures handed { MatchResult result (λ handle. handle.first.value ≡ ticket) (λ refused. (refused.0 ≡ ticket) × (refused.1 ≡ work)) }
        ensures runs { IsSome self.old.lent → IsOk result × IsSome self.new.lent }
    {
        let Some(lent) = self.lent.take() else {
            return Err((ticket, work));
        };
        let first = Snapshot::of(&ticket);
        let (ticket, lent) = work.run(rt, lent, ticket);
        self.lent = Some(lent);
        Ok(InlineHandle::new(first, ticket))
    }
}
