ghost use Rattle.std.specs.Prelude.{ℕ, ◌≡◌, List};
ghost use Rattle.realm_core.specs.{CanClose, Ends.Ends, EndsInnermost, SeesAll, history_of, verdict};

use crate::{RealmCore, RealmName};
use scope_checks::Readings;
use scope_rules::{Catalog, ScopeId, Verdict};
use share_ledger::OwnerShare;

/// A scope that was closed, and how.
#[derive(Clone, Copy)]
pub struct Ended {
    pub scope: ScopeId,
    pub verdict: Verdict,
}

/// Closes the actor's innermost scope, for the close of `scope`, which can end: the token has seen the
/// whole list, and then sees exactly one step more. It takes no memory and is never refused.
pub fn end_innermost<C: Catalog, N: RealmName>(
    core: &mut RealmCore<C, N>,
    token: &mut OwnerShare,
    scope: ScopeId,
) -> Ended
    requires named { token.old.table ≡ N.table }
    requires can { CanClose (history_of core.old.steps) token.old.actor scope }
    ensures seen { SeesAll core.old core.new token.old token.new }
    ensures end { EndsInnermost token.old.limits token.old.actor scope result.scope core.old.steps token.new.seen }
    ensures verdict { result.verdict ≡ verdict (history_of token.new.seen) result.scope }
{
    let _legal = core.limits();
    let Some(innermost) = core.realm().innermost(token.actor()) else {
        unreachable!()
    };
    let Ok(verdict) = core.end_close(token, innermost) else {
        unreachable!()
    };
    Ended {
        scope: innermost,
        verdict,
    }
}

/// Closes the scope and all that its owner opened later and has not closed, the latest first, if the
/// close can end: it has begun, and no task of these waits or runs. The token then sees exactly these
/// steps more. It takes no memory and is never refused.
pub fn end_all<C: Catalog, N: RealmName>(
    core: &mut RealmCore<C, N>,
    token: &mut OwnerShare,
    scope: ScopeId,
) -> Verdict
    requires named { token.old.table ≡ N.table }
    requires can { CanClose (history_of core.old.steps) token.old.actor scope }
    ensures seen { SeesAll core.old core.new token.old token.new }
    ensures ends { (nested : List ℕ) × Ends token.old.limits token.old.actor scope nested core.old.steps token.new.seen }
    ensures verdict { result ≡ verdict (history_of token.new.seen) scope }
{
    let mut last = end_innermost(core, token, scope);
    while last.scope != scope {
        last = end_innermost(core, token, scope);
    }
    last.verdict
}
