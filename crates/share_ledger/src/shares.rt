ghost use Rattle.std.specs.Prelude.{◌≡◌};
ghost use Rattle.share_ledger.specs.{IsShareOf, TokenOf, limits_of, steps_of, view_of};

use crate::views::LedgerView;
use atomic_table::Badge;
use scope_rules::Actor;
use std::marker::Model;

/// The share of an actor's token. It has seen a beginning of the realm's list of steps, which has all of
/// the token's own steps.
#[derive(Drop)]
pub struct OwnerShare {
    pub(crate) actor: Actor,
    pub(crate) badge: Badge<LedgerView>,
}

impl Model for OwnerShare {
    ghost use Rattle.share_ledger.specs.declared.steps.Holder.TheVariants.{TokenOf};
    ghost use Rattle.share_ledger.specs.Desks.{limits_of, steps_of, view_of, IsShareOf};
    ghost use Rattle.share_ledger.specs.Values.{OwnerValue};

    ghost Value = { OwnerValue };

    ghost view = { λ s. record { table = s.badge.table_id; limits = limits_of (view_of s.badge.views); actor = s.actor; seen = steps_of (view_of s.badge.views) } };

    ghost invariant = { λ s. IsShareOf s.badge.views (TokenOf s.actor) };
}

impl OwnerShare {
    /// The share that the badge is.
    pub(crate) fn new(actor: Actor, badge: Badge<LedgerView>) -> OwnerShare
        requires { IsShareOf badge.views (TokenOf actor) }
        ensures { result ≡ record { table = badge.table_id; limits = limits_of (view_of badge.views); actor = actor; seen = steps_of (view_of badge.views) } }
    {
        OwnerShare { actor, badge }
    }

    /// Whose token's share it is.
    pub fn actor(&self) -> Actor
        ensures { result ≡ self.now.actor }
    {
        self.actor
    }
}
