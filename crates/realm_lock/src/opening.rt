ghost use Rattle.std.specs.Prelude.{◌≡◌, IfErr, IfOk, MatchResult};
ghost use Rattle.realm_lock.specs.{CellAnswers, DoesOrMemory, Fitting, IsFresh, Reads, history_seen, next_scope, policy_of, refusal_alone, scope_alone, scope_marked};

use crate::realm::Realm;
use cancel_marks::{MarkCell, Seat};
use join_rules::Joiner;
use realm_core::RealmName;
use scope_rules::{Catalog, Event, Options, Refusal, ScopeId};
use share_ledger::{OwnerShare, RealmStep};
use std::sync::Wait;

/// Scopes and their cells. The room for a scope's cell is made before the scope is opened; the cell is
/// set in the hold of the event by which the scope becomes cancelled.
impl<C: Catalog, N: RealmName> Realm<C, N> {
    /// Opens a scope for the token's actor, inside what lies around it (JEP 505, `open`). Refused if
    /// the actor is no running task or main, if its innermost scope is closing (`Closed`), past level
    /// 16 (`TooDeep`), and where a limit is met (`TooMany`); the joiner is then handed back.
    pub fn open<R: Wait>(
        &self,
        rt: &R,
        token: &mut OwnerShare,
        joiner: Joiner,
        options: Options,
    ) -> Result<ScopeId, (Refusal, Joiner)>
        requires named { token.old.table ≡ N.table }
        ensures answer { DoesOrMemory token.old token.new (RealmStep.Happened (Event.Open token.old.actor (policy_of joiner) options)) next_scope (refusal_alone result) }
        ensures handed_back { IfErr result (λ e. e.1 ≡ joiner) }
        ensures fitting { Fitting C.fitting (history_seen token.new) }
    {
        match self.open_with_cell(rt, token, joiner, options) {
            Ok((scope, _)) => Ok(scope),
            Err(back) => Err(back),
        }
    }

    /// The same, with the scope's cell and a seat at it, which was shown nothing yet.
    pub fn open_marked<R: Wait>(
        &self,
        rt: &R,
        token: &mut OwnerShare,
        joiner: Joiner,
        options: Options,
    ) -> Result<(ScopeId, MarkCell, Seat), (Refusal, Joiner)>
        requires named { token.old.table ≡ N.table }
        ensures answer { DoesOrMemory token.old token.new (RealmStep.Happened (Event.Open token.old.actor (policy_of joiner) options)) next_scope (scope_marked result) }
        ensures cell { IfOk result (λ opened. (opened.1.scope ≡ opened.0) × IsFresh opened.1 opened.2) }
        ensures handed_back { IfErr result (λ e. e.1 ≡ joiner) }
        ensures fitting { Fitting C.fitting (history_seen token.new) }
    {
        match self.open_with_cell(rt, token, joiner, options) {
            Ok((scope, cell)) => {
                let seat = cell.seat();
                Ok((scope, cell, seat))
            }
            Err(back) => Err(back),
        }
    }

    /// The same without a seat. Who waits by a clock is woken if there is a deadline, which may be the
    /// next to come.
    fn open_with_cell<R: Wait>(
        &self,
        rt: &R,
        token: &mut OwnerShare,
        joiner: Joiner,
        options: Options,
    ) -> Result<(ScopeId, MarkCell), (Refusal, Joiner)>
        requires named { token.old.table ≡ N.table }
        ensures answer { DoesOrMemory token.old token.new (RealmStep.Happened (Event.Open token.old.actor (policy_of joiner) options)) next_scope (scope_alone result) }
        ensures cell { MatchResult result (λ opened. opened.1.scope ≡ opened.0) (λ back. back.1 ≡ joiner) }
        ensures fitting { Fitting C.fitting (history_seen token.new) }
    {
        let mut locked = self.shared.lock(rt);
        let before = locked.next_deadline();
        let opened = locked.open(token, joiner, options);
        self.wake_if_nearer(&mut locked, before);
        opened
    }

    /// The cell of the scope and a seat at it, which was shown nothing yet, with any actor's token.
    /// Refused for an unknown scope (`NoScope`, `Retired`), and if std's count of holders of the cell
    /// is full (`Memory`).
    pub fn cell<R: Wait>(
        &self,
        rt: &R,
        token: &mut OwnerShare,
        scope: ScopeId,
    ) -> Result<(MarkCell, Seat), Refusal>
        requires named { token.old.table ≡ N.table }
        ensures answer { Reads token.old token.new (λ h. CellAnswers h scope result) }
        ensures fitting { Fitting C.fitting (history_seen token.new) }
    {
        let mut locked = self.shared.lock(rt);
        locked.look(token);
        let _fitting = locked.core().limits();
        let cell = locked.cell(scope)?;
        let seat = cell.seat();
        Ok((cell, seat))
    }
}
