ghost use Rattle.std.specs.Prelude.{◌≡◌, ◌==◌, ◌-◌, IsErr, MatchResult};

use share_ledger::{RealmName, Ticket};
use std::collections::VecDeque;
use std::sync::Wait;
use thread_pool::{Ready, Spawner, Spawns};

/// An executor that refuses one work, the `nth` that it is passed, and hands the others to
/// another spawner.
#[derive(Drop)]
pub struct RefuseNth<S> {
    /// How many works it is passed until it has refused; 0 once it has.
    left: u64,
    inner: S,
}

impl<S> RefuseNth<S> {
    /// One that refuses the `nth` work, counted from 1; none if that is 0.
    pub fn new(nth: u64, inner: S) -> RefuseNth<S>
        ensures { (result.left ≡ nth) × (result.inner ≡ inner) }
    {
        RefuseNth { left: nth, inner }
    }

    /// Whether the work that is passed now is the one to be refused.
    fn is_refused(&mut self) -> bool
        ensures refused { result ≡ (self.old.left == 1) }
        ensures counted { (self.new.left ≡ self.old.left - 1) × (self.new.inner ≡ self.old.inner) }
    {
        let left = self.left;
        self.left = left.saturating_sub(1);
        left == 1
    }
}

impl<N: RealmName, S: Spawner<N>> Spawner<N> for RefuseNth<S> {
    type Handle = S::Handle;

    ghost first_of = { S.first_of };

    fn join<R: Wait>(&mut self, rt: &R, handle: S::Handle) -> Ticket {
        self.inner.join(rt, handle)
    }
}

impl<N: RealmName, W: Ready, S: Spawns<N, W>> Spawns<N, W> for RefuseNth<S> {
    fn spawn<R: Wait>(&mut self, rt: &R, ticket: Ticket, work: W) -> Result<S::Handle, (Ticket, W)>
        requires { W.ready_for work ticket }
        ensures handed { MatchResult result (λ handle. S.first_of handle ≡ ticket) (λ refused. (refused.0 ≡ ticket) × (refused.1 ≡ work)) }
        ensures refused { self.old.left ≡ 1 → IsErr result × (self.new.inner ≡ self.old.inner) }
        ensures counted { self.new.left ≡ self.old.left - 1 }
    {
        if self.is_refused() {
            return Err((ticket, work));
        }
        self.inner.spawn(rt, ticket, work)
    }

    /// It takes what the other spawner takes, unless it is still to refuse one: then it takes none in one go.
    fn spawn_all<R: Wait>(
        &mut self,
        rt: &R,
        works: &mut VecDeque<(Ticket, W)>,
        handles: &mut Vec<S::Handle>,
    ) {
        if self.left == 0 {
            self.inner.spawn_all(rt, works, handles);
        }
    }
}
