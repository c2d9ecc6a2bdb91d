//! What the join of a scope answered.

ghost use Rattle.std.specs.Prelude.{◌≡◌, IfOk, Some, option_map};
ghost use Rattle.scope_index.specs.{AreCancelsOf, AreForksOf, AreRowsOf, HasForks, HasJoined, HasRow, History, Legal, Limits, answer_of, bare_of, cause_before, outcome, readable_by};

use crate::CancelIndex;
use crate::answers::IndexedTasks;
use crate::bare::{BareOutcome, bare_answer_of};
use crate::forks::Forks;
use scope_rows::Rows;
use scope_rules::types::events::Expiry;
use scope_rules::types::records::FirstCancel;
use scope_rules::{Cause, Outcome, Policy, ScopeId, joins};
use std::alloc::{AllocError, Global};

/// What decides the answer of a join: the index of the scope's tasks, its joiner, what its deadline
/// means, and why it was cancelled before the join, if it was.
#[derive(Drop)]
struct AnswerParts<'a> {
    tasks: IndexedTasks<'a>,
    policy: Policy,
    expiry: Expiry,
    cause: Option<Cause>,
}

/// What the join of the scope answered (JEP 505, `join` and the joiners' `result`), in time by how many
/// tasks the scope has. It is refused if memory is; that of the lists that it answers comes from
/// `alloc`.
pub fn outcome(
    alloc: Global,
    rows: &Rows,
    cancels: &CancelIndex,
    forks: &Forks,
    scope: ScopeId,
) -> Result<Outcome, AllocError>
    requires joined { HasJoined rows.now scope }
    requires row { HasRow cancels.now scope }
    requires list { HasForks forks.now scope }
    ensures { IfOk result (λ o. (L : Limits) (h : History) → Legal L h → AreRowsOf h rows.now → AreCancelsOf h cancels.now → AreForksOf h forks.now → outcome h scope ≡ Some o) }
{
    let at = parts_of(rows, cancels, forks, scope);
    joins::answer_of(&at.tasks, alloc, scope, at.policy, at.expiry, at.cause)
}

/// The same without the lists, in constant time. It takes no memory.
pub fn bare_outcome(
    rows: &Rows,
    cancels: &CancelIndex,
    forks: &Forks,
    scope: ScopeId,
) -> BareOutcome
    requires joined { HasJoined rows.now scope }
    requires row { HasRow cancels.now scope }
    requires list { HasForks forks.now scope }
    ensures { (L : Limits) (h : History) → Legal L h → AreRowsOf h rows.now → AreCancelsOf h cancels.now → AreForksOf h forks.now → option_map bare_of (outcome h scope) ≡ Some result }
{
    let at = parts_of(rows, cancels, forks, scope);
    bare_answer_of(&at.tasks, scope, at.policy, at.expiry, at.cause)
}

/// What decides the answer of the scope's join.
fn parts_of<'a>(
    rows: &'a Rows,
    cancels: &'a CancelIndex,
    forks: &'a Forks,
    scope: ScopeId,
) -> AnswerParts<'a>
    requires joined { HasJoined rows.now scope }
    requires row { HasRow cancels.now scope }
    requires list { HasForks forks.now scope }
    ensures { (L : Limits) (h : History) → Legal L h → AreRowsOf h rows.now → AreCancelsOf h cancels.now → AreForksOf h forks.now → outcome h scope ≡ Some (answer_of (readable_by result.tasks.rows.now result.tasks.account.now.totals result.tasks.tasks.now) scope result.policy result.expiry result.cause) }
{
    let row = rows.scope(scope).unwrap();
    let place = row.joined.unwrap();
    let cause = cause_before(cancels.first_cancel(scope), place);
    let tasks = IndexedTasks {
        rows,
        account: cancels.account(scope),
        tasks: forks.of(scope),
    };
    AnswerParts {
        tasks,
        policy: row.opening.policy,
        expiry: row.opening.options.expiry,
        cause,
    }
}

/// What the first cancel says before the place: nothing, if it came later.
fn cause_before(first_cancel: Option<FirstCancel>, place: usize) -> Option<Cause>
    ensures { result ≡ cause_before first_cancel place }
{
    let first_cancel = first_cancel?;
    if first_cancel.place < place {
        Some(first_cancel.cause)
    } else {
        None
    }
}
