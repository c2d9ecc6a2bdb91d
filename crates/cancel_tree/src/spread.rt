ghost use Rattle.std.specs.Prelude.{ℕ, ◌-◌, ◌<◌, ◌≡◌, ◌≤◌, None, Some, cond, length, set, slice_get, suc, vec_capacity};
ghost use Rattle.cancel_tree.specs.{IsAdded, IsGrown, IsInward, IsLinked, IsListOf, IsSpread, outer_of, own_of, reached};

use crate::cancel_order::CancelOrder;
use crate::rows::{Links, ScopeNode};
use scope_rules::ScopeId;
use scope_rules::types::records::FirstCancel;

/// Gives the first cancel to the scope, and to all inside it that no shield or own cancel is in the way of. Those
/// that had none are listed.
pub(crate) fn spread(
    nodes: &[ScopeNode],
    links: &[Links],
    cancels: &mut [Option<FirstCancel>],
    listed: &mut CancelOrder,
    scope: ScopeId,
    first_cancel: FirstCancel,
)
    requires added { IsAdded nodes.now scope }
    requires rows { length links.now ≡ length nodes.now }
    requires columns { length cancels.old ≡ length nodes.now }
    requires inward { IsInward (outer_of nodes.now) }
    requires linked { IsLinked (outer_of nodes.now) links.now }
    requires whole { IsListOf cancels.old listed.old.scopes.items }
    requires room { length cancels.old ≤ vec_capacity listed.old.scopes }
    ensures spread { IsSpread (reached (outer_of nodes.now) (own_of nodes.now) scope 0) first_cancel cancels.old cancels.new }
    ensures whole { IsListOf cancels.new listed.new.scopes.items }
    ensures grown { IsGrown listed.old listed.new }
{
    put(cancels, listed, scope, first_cancel);
    let mut next = links[(scope - 1) as usize].first_inner;
    while let Some(inner) = next {
        if nodes[(inner - 1) as usize].own.is_none() {
            spread(nodes, links, cancels, listed, inner, first_cancel);
        }
        next = links[(inner - 1) as usize].next_inner;
    }
}

/// Gives the first cancel to the scope, which is listed if it had none.
fn put(
    cancels: &mut [Option<FirstCancel>],
    listed: &mut CancelOrder,
    scope: ScopeId,
    first_cancel: FirstCancel,
)
    requires number { 1 ≤ scope }
    requires within { scope ≤ length cancels.old }
    requires whole { IsListOf cancels.old listed.old.scopes.items }
    requires room { length cancels.old ≤ vec_capacity listed.old.scopes }
    ensures put { cancels.new ≡ set cancels.old (scope - 1) (Some first_cancel) }
    ensures whole { IsListOf cancels.new listed.new.scopes.items }
    ensures grown { IsGrown listed.old listed.new }
{
    if cancels[(scope - 1) as usize].is_none() {
        listed.push(scope);
    }
    cancels[(scope - 1) as usize] = Some(first_cancel);
}
