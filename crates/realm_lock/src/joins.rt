ghost use Rattle.std.specs.Prelude.{◌≡◌, Err};
ghost use Rattle.std.proofs.Common.{inl};
ghost use Rattle.realm_lock.specs.{Fitting, Joins, JoinsBy, JoinsBare, NotReady, SeesMore, history_seen};
ghost use Rattle.realm_core.proofs.Joining.{joins_bare_later, joins_later};

use crate::lookouts::{Until, Wanted};
use crate::realm::Realm;
use crate::times::{Never, Time};
use realm_core::{BareOutcome, Joined, RealmCore, RealmName};
use scope_rules::{Catalog, Refusal, ScopeId};
use share_ledger::OwnerShare;
use std::sync::Wait;

/// What a join gives: the outcome with its lists and the scope's log (`Joined`), or the outcome without the lists, in
/// constant time and without memory (`BareOutcome`).
pub trait JoinAnswer {
    ghost use Rattle.std.specs.Prelude.{ℕ, ◌≡◌, Err, Result, is_ok};
    ghost use Rattle.scope_rules.specs.declared.types.events.Event.TheVariants.{Join};
    ghost use Rattle.scope_rules.specs.declared.types.refusals.Refusal.{Refusal};
    ghost use Rattle.share_ledger.specs.Values.{OwnerValue};
    ghost use Rattle.share_ledger.specs.Holders.{Agrees};
    ghost use Rattle.share_ledger.specs.declared.steps.Holder.TheVariants.{TokenOf};
    ghost use Rattle.share_ledger.specs.declared.steps.RealmStep.TheVariants.{Happened};
    ghost use Rattle.realm_core.specs.{Calls.SeesMore, Telling.Stepped, Views.Joins};

    /// What a join of this scope did that is answered so.
    ghost joins: { OwnerValue → OwnerValue → ℕ → Result Self Refusal → Type 0 };

    /// Joins the scope, if it may be joined already.
    fn join_in<C: Catalog, N: RealmName>(
        core: &mut RealmCore<C, N>,
        token: &mut OwnerShare,
        scope: ScopeId,
    ) -> Result<Self, Refusal>
        requires named { token.old.table ≡ N.table }
        ensures sees { SeesMore token.old token.new }
        ensures steps { Stepped core.old core.new token.new (Happened (Join token.old.actor scope)) (is_ok result) }
        ensures answer { joins token.old token.new scope result };

    /// It is refused as each join is.
    ghost refused: { (old new : OwnerValue) (s : ℕ) (refusal : Refusal) → joins old new s (Err refusal) → Joins old new s (Err refusal) };

    /// A join after looks is a join.
    ghost later: { (old now new : OwnerValue) (s : ℕ) (result : Result Self Refusal) → SeesMore old now → Agrees (TokenOf old.actor) old.seen now.seen → joins now new s result → joins old new s result };
}

impl JoinAnswer for Joined {
    ghost joins = { Joins };

    ghost refused = { λ old new s refusal it. it };

    ghost later = { joins_later };

    fn join_in<C: Catalog, N: RealmName>(
        core: &mut RealmCore<C, N>,
        token: &mut OwnerShare,
        scope: ScopeId,
    ) -> Result<Joined, Refusal> {
        core.join(token, scope)
    }
}

impl JoinAnswer for BareOutcome {
    ghost joins = { JoinsBare };

    ghost refused = { λ old new s refusal it. (it.0, inl it.1) };

    ghost later = { joins_bare_later };

    fn join_in<C: Catalog, N: RealmName>(
        core: &mut RealmCore<C, N>,
        token: &mut OwnerShare,
        scope: ScopeId,
    ) -> Result<BareOutcome, Refusal> {
        core.join_bare(token, scope)
    }
}

impl<C: Catalog, N: RealmName> Realm<C, N> {
    /// Joins the actor's scope (JEP 505, `join`): waits until the scope is cancelled or all its tasks
    /// have ended, and gives its outcome and its log, with the join at the end. Nothing is recorded
    /// while it waits. All that it gives is made before the join is recorded, so want of memory leaves
    /// the scope unjoined. Refused if the actor is no running task or main, for a scope that is
    /// unknown (`NoScope`, `Retired`), another's (`NotOwner`), closing or closed (`Closed`) or joined
    /// (`AlreadyJoined`). That it returns is not promised.
    pub fn join<R: Wait>(
        &self,
        rt: &R,
        token: &mut OwnerShare,
        scope: ScopeId,
    ) -> Result<Joined, Refusal>
        requires named { token.old.table ≡ N.table }
        ensures answer { Joins token.old token.new scope result }
        ensures fitting { Fitting C.fitting (history_seen token.new) }
        ensures waited { result ≡ Err NotReady → ⊥ }
    {
        self.join_by(rt, token, scope, &mut Never)
    }

    /// Joins the actor's scope as `join` does, by a clock, if one is given, and gives what is asked for: the outcome alone
    /// (`BareOutcome`) takes no memory. Refused as `join` is, and if a tick is; then nothing is joined.
    pub fn join_by<A: JoinAnswer, R: Wait, T: Time>(
        &self,
        rt: &R,
        token: &mut OwnerShare,
        scope: ScopeId,
        time: &mut T,
    ) -> Result<A, Refusal>
        requires named { token.old.table ≡ N.table }
        ensures token { SeesMore token.old token.new }
        ensures answer { JoinsBy T.reads A.joins token.old token.new time.old time.new scope result }
        ensures fitting { Fitting C.fitting (history_seen token.new) }
        ensures waited { result ≡ Err NotReady → ⊥ }
    {
        let wanted = Wanted::Scope(scope, Until::Joinable);
        let mut owed = None;
        for _ in rt.forever() {
            let now = time.read();
            let mut locked = self.shared.lock(rt);
            match locked.join_in_time(token, scope, now) {
                Err(Refusal::NotReady) => owed = self.park(rt, locked, now, None, wanted, owed),
                Err(refusal) => {
                    self.hand_on(&locked, owed);
                    return Err(refusal);
                }
                Ok(joined) => {
                    self.hand_on(&locked, owed);
                    return Ok(joined);
                }
            }
        }
        unreachable!()
    }
}
