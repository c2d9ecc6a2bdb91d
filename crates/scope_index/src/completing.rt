//! The end of a task, as its scope's account and joiner see it.

ghost use Rattle.std.specs.Prelude.{◌<◌, ◌≡◌, IfSome};
ghost use Rattle.scope_index.specs.{HasRoom, HasRow, IsCompleted, IsLatest, TASK_LIMIT, account_at};

use crate::CancelIndex;
use join_rules::StoredTest;
use scope_rules::{CauseKind, Completion, ScopeId};

/// Counts the completion of the scope, for which there is room, and cancels the scope if its joiner
/// fires at it. The caller's closure is asked if it is given, and its rule is the joiner's.
pub(crate) fn complete(
    cancels: &mut CancelIndex,
    scope: ScopeId,
    done: Completion,
    test: Option<&StoredTest>,
    place: usize,
)
    requires row { HasRow cancels.old scope }
    requires room { IfSome (account_at cancels.old scope) (λ a. HasRoom a 1) }
    requires few { IfSome (account_at cancels.old scope) (λ a. a.totals.completions < TASK_LIMIT) }
    requires latest { IsLatest cancels.old.nodes place }
    ensures { IsCompleted cancels.old cancels.new scope done place }
{
    cancels.count(scope, done);
    if cancels.account(scope).fires_by(test) {
        cancels.cancel(scope, CauseKind::Joiner, place);
    }
}
