ghost use Rattle.std.specs.Prelude.{◌≡◌};
ghost use Rattle.realm_lock.specs.{Fitting, Reads, answering, binding_reply, effective, fault_reply, history_seen, innermost, result_reply, state, task_check, until_check};

use crate::realm::Realm;
use realm_core::RealmName;
use scope_checks::{Readings, queries};
use scope_rules::{Catalog, Effective, Fault, Name, Refusal, ScopeId, State, TaskId, Value};
use share_ledger::OwnerShare;
use std::sync::Wait;

/// The queries with a token, each one hold of the lock. Each adds nothing, and answers its definition of
/// what the token has seen then; in that each end fits its task's label. None takes memory.
impl<C: Catalog, N: RealmName> Realm<C, N> {
    /// What the token's actor sees the key bound to (JEP 506, `ScopedValue.get`). Refused if the actor
    /// is no running task or main, and if nothing is bound to the key (`NotBound`).
    pub fn get<R: Wait>(&self, rt: &R, token: &mut OwnerShare, key: &Name) -> Result<Value, Refusal>
        requires named { token.old.table ≡ N.table }
        ensures answer { Reads token.old token.new (λ h. result ≡ binding_reply h token.new.actor key.now) }
        ensures fitting { Fitting C.fitting (history_seen token.new) }
    {
        let mut locked = self.shared.lock(rt);
        locked.look(token);
        let _fitting = locked.core().limits();
        queries::binding(locked.core().realm(), token.actor(), key)
    }

    /// The value of the task, read by the owner of its scope after the join (JEP 505, `Subtask.get`).
    /// Refused if the actor is no running task or main, for a task that is unknown (`NoTask`,
    /// `Retired`) or of another's scope (`NotOwner`), before the join (`NotJoined`), and for one that
    /// can't be read (`Unavailable`) or failed (`NotSuccess`).
    pub fn result<R: Wait>(
        &self,
        rt: &R,
        token: &mut OwnerShare,
        task: TaskId,
    ) -> Result<Value, Refusal>
        requires named { token.old.table ≡ N.table }
        ensures answer { Reads token.old token.new (λ h. result ≡ result_reply h token.new.actor task) }
        ensures fitting { Fitting C.fitting (history_seen token.new) }
    {
        let mut locked = self.shared.lock(rt);
        locked.look(token);
        let _fitting = locked.core().limits();
        queries::result(locked.core().realm(), token.actor(), task)
    }

    /// The fault of the task, read by the owner of its scope after the join (JEP 505,
    /// `Subtask.exception`). Refused as `result` is, and for a task that succeeded (`NotFailed`).
    pub fn fault<R: Wait>(
        &self,
        rt: &R,
        token: &mut OwnerShare,
        task: TaskId,
    ) -> Result<Fault, Refusal>
        requires named { token.old.table ≡ N.table }
        ensures answer { Reads token.old token.new (λ h. result ≡ fault_reply h token.new.actor task) }
        ensures fitting { Fitting C.fitting (history_seen token.new) }
    {
        let mut locked = self.shared.lock(rt);
        locked.look(token);
        let _fitting = locked.core().limits();
        queries::fault(locked.core().realm(), token.actor(), task)
    }

    /// The scope that the token's actor opened last of those that it has not closed, if there is one.
    pub fn innermost<R: Wait>(&self, rt: &R, token: &mut OwnerShare) -> Option<ScopeId>
        requires named { token.old.table ≡ N.table }
        ensures answer { Reads token.old token.new (λ h. result ≡ innermost h token.new.actor) }
        ensures fitting { Fitting C.fitting (history_seen token.new) }
    {
        let mut locked = self.shared.lock(rt);
        locked.look(token);
        let _fitting = locked.core().limits();
        locked.core().realm().innermost(token.actor())
    }

    /// What can be read of the task, with any actor's token (JEP 505, `Subtask.state`). Refused for an
    /// unknown task (`NoTask`, `Retired`).
    pub fn state<R: Wait>(
        &self,
        rt: &R,
        token: &mut OwnerShare,
        task: TaskId,
    ) -> Result<State, Refusal>
        requires named { token.old.table ≡ N.table }
        ensures answer { Reads token.old token.new (λ h. result ≡ answering (task_check h task) (state h task)) }
        ensures fitting { Fitting C.fitting (history_seen token.new) }
    {
        let mut locked = self.shared.lock(rt);
        locked.look(token);
        let _fitting = locked.core().limits();
        queries::state(locked.core().realm(), task)
    }

    /// The earliest deadline in effect for the scope, in milliseconds, with any actor's token (Trio,
    /// `current_effective_deadline`). Refused for a scope that is unknown (`NoScope`, `Retired`) or
    /// closed (`Closed`).
    pub fn effective_deadline<R: Wait>(
        &self,
        rt: &R,
        token: &mut OwnerShare,
        scope: ScopeId,
    ) -> Result<Effective, Refusal>
        requires named { token.old.table ≡ N.table }
        ensures answer { Reads token.old token.new (λ h. result ≡ answering (until_check h scope) (effective h scope)) }
        ensures fitting { Fitting C.fitting (history_seen token.new) }
    {
        let mut locked = self.shared.lock(rt);
        locked.look(token);
        let _fitting = locked.core().limits();
        queries::effective_deadline(locked.core().realm(), scope)
    }
}
