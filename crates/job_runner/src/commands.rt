ghost use Rattle.std.specs.Prelude.{[], ◌≡◌, IfOk};
ghost use Rattle.job_runner.specs.{DoesOrMemory, RecordsOrMemory, base_of, history_seen};

use crate::contexts::TaskCtx;
use realm_lock::RealmName;
use scope_rules::{Base, Cancelling, Catalog, Event, Name, Refusal, ScopeId, Value};
use share_ledger::{Ask, RealmStep};
use std::sync::Wait;
use thread_pool::Spawner;

/// Commands that neither open nor close a scope, each one hold of the realm's lock. Each does what the
/// realm's call of that name does, with the context's token.
impl<C: Catalog, S: Spawner<N>, N: RealmName> TaskCtx<C, S, N> {
    /// Binds the key above the actor's other bindings (JEP 506, `where`). Refused as `Realm::bind` is.
    pub fn bind<R: Wait>(&mut self, rt: &R, key: Name, value: Value) -> Result<(), Refusal>
        ensures answer { (self.new ≡ record self.old { token = self.new.token }) × DoesOrMemory self.old.token self.new.token (RealmStep.Happened (Event.Bind self.old.token.actor (record { key = key; value = value }))) (λ _. tt) result }
    {
        let token = &mut self.token;
        self.realm.lent().bind(rt, &mut token.held, key, value)
    }

    /// Takes away the actor's last own binding. Refused as `Realm::unbind` is.
    pub fn unbind<R: Wait>(&mut self, rt: &R) -> Result<(), Refusal>
        ensures answer { (self.new ≡ record self.old { token = self.new.token }) × DoesOrMemory self.old.token self.new.token (RealmStep.Happened (Event.Unbind self.old.token.actor)) (λ _. tt) result }
    {
        let token = &mut self.token;
        self.realm.lent().unbind(rt, &mut token.held)
    }

    /// Cancels the scope and all that it reaches, whoever owns it (Trio, `cancel`). Refused as
    /// `Realm::cancel` is.
    pub fn cancel<R: Wait>(&mut self, rt: &R, scope: ScopeId) -> Result<Cancelling, Refusal>
        ensures answer { (self.new ≡ record self.old { token = self.new.token }) × RecordsOrMemory self.old.token self.new.token (Event.Cancel scope) result }
    {
        let token = &mut self.token;
        self.realm.lent().cancel(rt, &mut token.held, scope)
    }

    /// Sets the deadline of the scope anew, in milliseconds, or takes it away, whoever owns it (Trio: a
    /// cancel scope's deadline may be moved). Refused as `Realm::move_deadline` is.
    pub fn move_deadline<R: Wait>(
        &mut self,
        rt: &R,
        scope: ScopeId,
        deadline: Option<u64>,
    ) -> Result<(), Refusal>
        ensures answer { (self.new ≡ record self.old { token = self.new.token }) × DoesOrMemory self.old.token self.new.token (RealmStep.Asked self.old.token.actor (Ask.Move scope deadline)) (λ _. tt) result }
    {
        let token = &mut self.token;
        self.realm
            .lent()
            .move_deadline(rt, &mut token.held, scope, deadline)
    }

    /// Sets the realm's time, in milliseconds. Refused as `Realm::tick` is.
    pub fn tick<R: Wait>(&mut self, rt: &R, now: u64) -> Result<(), Refusal>
        ensures answer { (self.new ≡ record self.old { token = self.new.token }) × DoesOrMemory self.old.token self.new.token (RealmStep.Asked self.old.token.actor (Ask.Tick now)) (λ _. tt) result }
    {
        let token = &mut self.token;
        self.realm.lent().tick(rt, &mut token.held, now)
    }

    /// Takes the events out and leaves a base, once main's outermost scope is closed. Refused as
    /// `Realm::retire` is, so in the context of a task always.
    pub fn retire<R: Wait>(&mut self, rt: &R) -> Result<Base, Refusal>
        ensures answer { (self.new ≡ record self.old { token = self.new.token }) × DoesOrMemory self.old.token self.new.token RealmStep.Retirement base_of result }
        ensures base { IfOk result (λ base. history_seen self.new.token ≡ record { base = base; events = [] }) }
    {
        let token = &mut self.token;
        self.realm.lent().retire(rt, &mut token.held)
    }
}
