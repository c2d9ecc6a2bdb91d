ghost use Rattle.std.specs.Prelude.{[], ◌≡◌, IfOk};
ghost use Rattle.realm_lock.specs.{DoesOrMemory, Fitting, GivesTicket, Records, RecordsOrMemory, base_of, fork_reply, history_seen, ticket_aside};

use crate::realm::Realm;
use realm_core::{Forked, RealmName, reply_done, reply_noted};
use scope_rules::{
    Base, Binding, Cancelling, Catalog, Event, Label, Name, Refusal, ScopeId, Value,
};
use share_ledger::{Ask, OwnerShare, RealmStep};
use std::sync::Wait;

/// The commands with a token, each one hold of the lock. If one is accepted, what the token has seen
/// then ends with exactly its step, and the reply is the rules' on the steps before; else nothing is
/// added, and the refusal, or that all is so already, is the rules' on what the token has seen by then.
/// A cancel, a move and a tick are steps of the token that asked for them: no other call adds one.
/// `Memory` is answered only if the command would be accepted there.
impl<C: Catalog, N: RealmName> Realm<C, N> {
    /// Forks the next task in the actor's scope (JEP 505, `fork`), and gives its ticket, unless the scope
    /// is cancelled. Refused if the actor is no running task or main, for a scope that is unknown
    /// (`NoScope`, `Retired`), another's (`NotOwner`), closing or closed (`Closed`) or joined
    /// (`AlreadyJoined`), while the actor's bindings are not those at the scope's opening (`Structure`;
    /// JEP 506), and where a limit is met (`TooMany`).
    pub fn fork<R: Wait>(
        &self,
        rt: &R,
        token: &mut OwnerShare,
        scope: ScopeId,
        label: Label,
    ) -> Result<Forked, Refusal>
        requires named { token.old.table ≡ N.table }
        ensures answer { DoesOrMemory token.old token.new (RealmStep.Happened (Event.Fork token.old.actor scope label)) (λ h. fork_reply h scope) (ticket_aside result) }
        ensures ticket { GivesTicket token.new scope label result }
        ensures fitting { Fitting C.fitting (history_seen token.new) }
    {
        let mut locked = self.shared.lock(rt);
        locked.fork(token, scope, label)
    }

    /// Binds the key above the actor's other bindings (JEP 506, `where`). Refused if the actor is no
    /// running task or main, and where the limit of load is met (`TooMany`).
    pub fn bind<R: Wait>(
        &self,
        rt: &R,
        token: &mut OwnerShare,
        key: Name,
        value: Value,
    ) -> Result<(), Refusal>
        requires named { token.old.table ≡ N.table }
        ensures answer { DoesOrMemory token.old token.new (RealmStep.Happened (Event.Bind token.old.actor (record { key = key; value = value }))) (λ _. tt) result }
        ensures fitting { Fitting C.fitting (history_seen token.new) }
    {
        let actor = token.actor();
        let binding = Binding { key, value };
        let mut locked = self.shared.lock(rt);
        reply_done(locked.perform(token, &Event::Bind { actor, binding }))
    }

    /// Takes away the actor's last own binding. Refused if the actor is no running task or main, has
    /// no own binding (`NotBound`), or has a scope open or closing that was opened while the binding
    /// stood (`Structure`), and where the limit of load is met (`TooMany`).
    pub fn unbind<R: Wait>(&self, rt: &R, token: &mut OwnerShare) -> Result<(), Refusal>
        requires named { token.old.table ≡ N.table }
        ensures answer { DoesOrMemory token.old token.new (RealmStep.Happened (Event.Unbind token.old.actor)) (λ _. tt) result }
        ensures fitting { Fitting C.fitting (history_seen token.new) }
    {
        let actor = token.actor();
        let mut locked = self.shared.lock(rt);
        reply_done(locked.perform(token, &Event::Unbind { actor }))
    }

    /// Begins to close the actor's scope, and with it each scope that the actor opened later and has not
    /// closed (JEP 505, `close` cancels first). A scope that is closing or closed stays as it is.
    /// Refused if the actor is no running task or main, and for a scope that is unknown (`NoScope`,
    /// `Retired`) or another's (`NotOwner`). It takes no memory.
    pub fn begin_close<R: Wait>(
        &self,
        rt: &R,
        token: &mut OwnerShare,
        scope: ScopeId,
    ) -> Result<Cancelling, Refusal>
        requires named { token.old.table ≡ N.table }
        ensures answer { Records token.old token.new (Event.BeginClose token.old.actor scope) result }
        ensures fitting { Fitting C.fitting (history_seen token.new) }
    {
        let mut locked = self.shared.lock(rt);
        locked.begin_close(token, scope)
    }

    /// Cancels the scope and all that it reaches, with any actor's token (Trio, `cancel`). A scope that
    /// is cancelled already stays as it is. Refused for a scope that is unknown (`NoScope`, `Retired`),
    /// or closing or closed (`Closed`), and where the limit of load is met (`TooMany`).
    pub fn cancel<R: Wait>(
        &self,
        rt: &R,
        token: &mut OwnerShare,
        scope: ScopeId,
    ) -> Result<Cancelling, Refusal>
        requires named { token.old.table ≡ N.table }
        ensures answer { RecordsOrMemory token.old token.new (Event.Cancel scope) result }
        ensures fitting { Fitting C.fitting (history_seen token.new) }
    {
        let mut locked = self.shared.lock(rt);
        reply_noted(locked.perform(token, &Event::Cancel { scope }))
    }

    /// Sets the deadline of the scope anew, in milliseconds, or takes it away, with any actor's token
    /// (Trio: a cancel scope's deadline may be moved). Refused for a scope that is unknown (`NoScope`,
    /// `Retired`), closing or closed (`Closed`) or joined (`AlreadyJoined`), and if the limit of load
    /// is met (`TooMany`).
    pub fn move_deadline<R: Wait>(
        &self,
        rt: &R,
        token: &mut OwnerShare,
        scope: ScopeId,
        deadline: Option<u64>,
    ) -> Result<(), Refusal>
        requires named { token.old.table ≡ N.table }
        ensures answer { DoesOrMemory token.old token.new (RealmStep.Asked token.old.actor (Ask.Move scope deadline)) (λ _. tt) result }
        ensures fitting { Fitting C.fitting (history_seen token.new) }
    {
        let mut locked = self.shared.lock(rt);
        let before = locked.next_deadline();
        let told = locked.perform(token, &Event::Move { scope, deadline });
        self.wake_if_nearer(&mut locked, before);
        reply_done(told)
    }

    /// Sets the realm's time, in milliseconds, with any actor's token. Refused for a moment before the present
    /// one (`ClockBack`), and where the limit of load is met (`TooMany`).
    pub fn tick<R: Wait>(&self, rt: &R, token: &mut OwnerShare, now: u64) -> Result<(), Refusal>
        requires named { token.old.table ≡ N.table }
        ensures answer { DoesOrMemory token.old token.new (RealmStep.Asked token.old.actor (Ask.Tick now)) (λ _. tt) result }
        ensures fitting { Fitting C.fitting (history_seen token.new) }
    {
        let mut locked = self.shared.lock(rt);
        reply_done(locked.perform(token, &Event::Tick { now }))
    }

    /// Takes the events out and leaves a base, once main's outermost scope is closed; what is left goes
    /// on, with numbers after the base's. It answers that base. Refused if the token's actor is no
    /// running task or main, is not main (`NotOwner`), and while main has a scope that is not closed
    /// (`Structure`).
    pub fn retire<R: Wait>(&self, rt: &R, token: &mut OwnerShare) -> Result<Base, Refusal>
        requires named { token.old.table ≡ N.table }
        ensures answer { DoesOrMemory token.old token.new RealmStep.Retirement base_of result }
        ensures base { IfOk result (λ base. history_seen token.new ≡ record { base = base; events = [] }) }
        ensures fitting { Fitting C.fitting (history_seen token.new) }
    {
        let mut locked = self.shared.lock(rt);
        locked.retire(token)
    }
}
