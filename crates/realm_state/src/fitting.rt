ghost use Rattle.std.specs.Prelude.{[], ℕ, ◌≡◌, List, slice_get};
ghost use Rattle.realm_state.specs.{FitsEvent, Fitting, IsCancelOrderOf, IsRuled, Retires, Tells};

use crate::realm::RealmState;
use join_rules::StoredTest;
use scope_checks::EventReply;
use scope_rules::{Actor, Base, Catalog, Event, Limits, Refusal, ScopeId};
use std::marker::{Model, PhantomData};

/// A realm state whose ends fit: its history is legal, and each end in it fits its task's label by the
/// catalog. It applies events; queries read the realm state that it lends.
#[derive(Drop)]
pub struct FittingRealm<C: Catalog> {
    kept: RealmState,
    catalog: PhantomData<C>,
}

impl<C: Catalog> Model for FittingRealm<C> {
    ghost use Rattle.scope_rules.specs.Replies.{Realm};
    ghost use Rattle.realm_state.specs.Fits.{Fitting};

    ghost Value = { Realm };

    ghost view = { λ l. l.kept };

    ghost invariant = { λ l. Fitting C.fitting l.kept.history };
}

impl<C: Catalog> FittingRealm<C> {
    /// A realm in which nothing has happened since its base.
    #[tactic(auto, using(crate::proofs::Growing::fitting_at_base))]
    pub fn over(kept: RealmState) -> FittingRealm<C>
        requires { kept.history.events ≡ [] }
        ensures { result ≡ kept }
    {
        FittingRealm {
            kept,
            catalog: PhantomData,
        }
    }

    /// The realm's limits. It also says of the history that it is legal, within the limits (the load and
    /// the numbers too, the base's counted) and fitting.
    pub fn limits(&self) -> Limits
        ensures ruled { IsRuled self.now result }
        ensures fitting { Fitting C.fitting self.now.history }
    {
        self.kept.limits()
    }

    /// The realm state that queries read.
    pub fn realm(&self) -> &RealmState
        ensures { result.now ≡ self.now }
    {
        &self.kept
    }

    /// The n-th scope to be cancelled since the base, from 0, if so many are: those that one event
    /// cancelled come in order of their numbers. It takes no memory, and time by the scopes that were
    /// cancelled since it was last called, with those of the last event before them.
    pub fn nth_cancelled(&mut self, n: usize) -> Option<ScopeId>
        ensures kept { self.new ≡ self.old }
        ensures order { (list : List ℕ) × IsCancelOrderOf self.old.history list × (result ≡ slice_get list n) }
    {
        self.kept.cancelled_since(n).get(0)
    }

    /// Performs the command of the event, which fits where it is the end of a task (`RealmState::perform`).
    pub fn perform(
        &mut self,
        event: &Event,
        listed: bool,
        test: Option<&StoredTest>,
    ) -> Result<EventReply, Refusal>
        requires fits { FitsEvent C.fitting self.old.history event.now }
        ensures { Tells self.old event.now result self.new }
    {
        self.kept.perform(event, listed, test)
    }

    /// Lets the past go, and leaves its base (`RealmState::retire`).
    #[tactic(auto, using(crate::proofs::Growing::fitting_after_retiring))]
    pub fn retire(&mut self, actor: Actor) -> Result<Base, Refusal>
        ensures { Retires self.old actor result self.new }
    {
        self.kept.retire(actor)
    }
}
