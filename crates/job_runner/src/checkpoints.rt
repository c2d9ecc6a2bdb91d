ghost use Rattle.std.specs.Prelude.{[], ◌≡◌, IfSome, IsSome, Some};
ghost use Rattle.job_runner.specs.{KeepsOthers, Shows, scope_here, seat_here};

use crate::contexts::{OpenScope, TaskCtx};
use crate::readers::CellReader;
use cancel_marks::Mark;
use realm_lock::{Realm, RealmName};
use scope_rules::Catalog;
use std::sync::Wait;
use thread_pool::Spawner;

impl<C: Catalog, S: Spawner<N>, N: RealmName> TaskCtx<C, S, N> {
    /// The mark of the context's innermost scope, if that is seen to be cancelled; without an open scope,
    /// of the scope in which its task was forked; and none for main without one (Trio, checkpoints). What
    /// was shown once is shown at each later checkpoint of that scope. It takes no lock and no memory, and
    /// waits for nobody; when a cancel is seen is not promised.
    pub fn checkpoint(&mut self) -> Option<Mark>
        ensures rest { (self.new ≡ record self.old { around = self.new.around; opened = self.new.opened }) × KeepsOthers self.old.around self.new.around self.old.opened.items self.new.opened.items }
        ensures shows { Shows (seat_here self.old.around self.old.opened.items) (seat_here self.new.around self.new.opened.items) result }
        ensures of { IfSome result (λ mark. scope_here self.old.around self.old.opened.items ≡ Some mark.scope) }
    {
        match self.opened.pop() {
            Some(open) => {
                let OpenScope { scope, mut reader } = open;
                let mark = reader.look();
                self.opened.push_reserved(OpenScope { scope, reader });
                mark
            }
            None => look_around(&mut self.around),
        }
    }

    /// Waits until `checkpoint` would show a mark, and gives it: for a job that has nothing to do but wait
    /// to be cancelled (Trio, `sleep_forever`). It sleeps meanwhile, and takes no memory. None at once for
    /// main without an open scope. That it returns else is not promised: if that scope is never
    /// cancelled it doesn't.
    pub fn wait_cancelled<R: Wait>(&mut self, rt: &R) -> Option<Mark>
        ensures rest { (self.new ≡ record self.old { around = self.new.around; opened = self.new.opened }) × KeepsOthers self.old.around self.new.around self.old.opened.items self.new.opened.items }
        ensures shows { Shows (seat_here self.old.around self.old.opened.items) (seat_here self.new.around self.new.opened.items) result }
        ensures of { IfSome result (λ mark. scope_here self.old.around self.old.opened.items ≡ Some mark.scope) }
        ensures waits { IsSome (seat_here self.old.around self.old.opened.items) → IsSome result }
    {
        match self.opened.pop() {
            Some(open) => {
                let OpenScope { scope, mut reader } = open;
                let mark = reader.wait(rt, self.realm.lent());
                self.opened.push_reserved(OpenScope { scope, reader });
                Some(mark)
            }
            None => wait_around(rt, self.realm.lent(), &mut self.around),
        }
    }
}

/// The mark of the scope around, if there is one and it is seen to be cancelled.
fn look_around(around: &mut Option<CellReader>) -> Option<Mark>
    ensures shows { Shows around.old around.new result }
    ensures of { IfSome result (λ mark. scope_here around.old [] ≡ Some mark.scope) }
{
    match around {
        Some(reader) => reader.look(),
        None => None,
    }
}

/// The mark of the scope around, once it is cancelled, if there is one.
fn wait_around<C: Catalog, N: RealmName, R: Wait>(
    rt: &R,
    realm: &Realm<C, N>,
    around: &mut Option<CellReader>,
) -> Option<Mark>
    ensures shows { Shows around.old around.new result }
    ensures of { IfSome result (λ mark. scope_here around.old [] ≡ Some mark.scope) }
    ensures waits { IsSome around.old → IsSome result }
{
    match around {
        Some(reader) => Some(reader.wait(rt, realm)),
        None => None,
    }
}
