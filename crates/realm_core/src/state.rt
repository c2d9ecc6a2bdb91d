ghost use Rattle.std.specs.Prelude.{[], ℕ, ◌≡◌, List, slice_get};
ghost use Rattle.realm_core.specs.{Fitting, IsCancelOrderOf, IsLegal, history_of};

use crate::RealmName;
use realm_state::{FittingRealm, RealmState};
use scope_rules::types::values::MAIN;
use scope_rules::{Catalog, Limits, ScopeId};
use share_ledger::{Keeper, OwnerShare, Seed};
use std::alloc::Global;
use std::marker::{Model, PhantomData};

/// What lies under a realm's lock: what is kept of the realm, and the keeper of the list of its steps.
/// Contracts see the limits and that list. What is kept is always the replay of the list, which is
/// legal, and each end in it fits its task's label by the catalog `C`. `N` is the realm's name.
#[derive(Drop)]
pub struct RealmCore<C: Catalog, N: RealmName> {
    pub(crate) realm: FittingRealm<C>,
    pub(crate) keeper: Keeper,
    pub(crate) name: PhantomData<N>,
}

impl<C: Catalog, N: RealmName> Model for RealmCore<C, N> {
    ghost use Rattle.realm_core.specs.Cores.{CoreValue, Tied};

    ghost Value = { CoreValue };

    ghost view = { λ c. record { limits = c.keeper.limits; steps = c.keeper.steps } };

    ghost invariant = { λ c. Tied N.table c.realm c.keeper };
}

impl<C: Catalog, N: RealmName> RealmCore<C, N> {
    /// A realm that begins, and main's token. It takes no memory; that of later calls comes from `alloc`.
    pub fn new(alloc: Global, seed: Seed, limits: Limits) -> (RealmCore<C, N>, OwnerShare)
        requires named { seed ≡ N.table }
        ensures core { result.0 ≡ record { limits = limits; steps = [] } }
        ensures token { result.1 ≡ record { table = N.table; limits = limits; actor = MAIN; seen = [] } }
    {
        let (keeper, share) = seed.begin(limits);
        let core = RealmCore {
            realm: FittingRealm::over(RealmState::new(alloc, limits)),
            keeper,
            name: PhantomData,
        };
        (core, share)
    }

    /// The realm's limits. It also says of the list that it is legal and fitting.
    pub fn limits(&self) -> Limits
        ensures limits { result ≡ self.now.limits }
        ensures legal { IsLegal self.now.limits self.now.steps }
        ensures fitting { Fitting C.fitting (history_of self.now.steps) }
    {
        self.realm.limits()
    }

    /// The realm as it is, which queries read without a token.
    pub fn realm(&self) -> &RealmState
        ensures { result.now ≡ record { limits = self.now.limits; history = history_of self.now.steps } }
    {
        self.realm.realm()
    }

    /// The n-th scope to be cancelled since the last retirement, from 0, if so many are: those that one
    /// event cancelled come in order of their numbers. It takes no memory, and time by the scopes that
    /// were cancelled since it was last called, with those of the last event before them.
    pub fn nth_cancelled(&mut self, n: usize) -> Option<ScopeId>
        ensures kept { self.new ≡ self.old }
        ensures order { (list : List ℕ) × IsCancelOrderOf (history_of self.old.steps) list × (result ≡ slice_get list n) }
    {
        self.realm.nth_cancelled(n)
    }
}
