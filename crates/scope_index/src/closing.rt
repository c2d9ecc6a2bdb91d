//! The beginning of a close, as the scopes that it covers see it.

ghost use Rattle.std.specs.Prelude.{◌≡◌};
ghost use Rattle.scope_index.specs.{CanClose, HasBegunClose, below_of};

use crate::CancelIndex;
use scope_rows::Rows;
use scope_rules::{CauseKind, ScopeId};

/// Cancels the scopes that the beginning of the close covers, by the close: those from the owner's
/// innermost scope down to `scope`, each opened below the one before it. Takes time by how many those are
/// and by what their cancels reach.
pub(crate) fn cancel_covered(
    rows: &Rows,
    cancels: &mut CancelIndex,
    from: Option<ScopeId>,
    scope: ScopeId,
    place: usize,
)
    requires { CanClose rows.now cancels.old from scope place }
    ensures followed { HasBegunClose rows.now cancels.old cancels.new from scope place }
    ensures accounts { cancels.new.accounts ≡ cancels.old.accounts }
{
    let mut next = from;
    while let Some(here) = next {
        cancels.cancel(here, CauseKind::Close, place);
        next = if here == scope {
            None
        } else {
            below(rows, here)
        };
    }
}

/// The scope below this one: the innermost that its owner had when it opened this one.
fn below(rows: &Rows, scope: ScopeId) -> Option<ScopeId>
    ensures { result ≡ below_of rows.now.scopes_before rows.now.scopes scope }
{
    match rows.scope(scope) {
        Some(row) => row.below,
        None => None,
    }
}
