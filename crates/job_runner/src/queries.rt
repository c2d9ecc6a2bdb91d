ghost use Rattle.std.specs.Prelude.{◌≡◌, Err, IfErr, MatchResult};
ghost use Rattle.realm_core.specs.Views.{Joins};
ghost use Rattle.job_runner.specs.{Fitting, JoinsBy, MarkedViewAnswers, Reads, SeesMore, ViewAnswers, answering, binding_reply, effective, fault_reply, history_seen, result_reply, state, task_check, until_check};

use crate::contexts::TaskCtx;
use realm_lock::{JoinAnswer, Joined, Look, Mark, Realm, RealmName, Time, View};
use scope_rules::{Catalog, Effective, Event, Fault, Name, Refusal, ScopeId, State, TaskId, Value};
use std::sync::Wait;
use thread_pool::Spawner;

/// The join, and what can be read. Each does what the realm's call of that name does, with the context's
/// token.
impl<C: Catalog, S: Spawner<N>, N: RealmName> TaskCtx<C, S, N> {
    /// Joins the actor's scope (JEP 505, `join`): waits until the scope is cancelled or all its tasks
    /// have ended, and gives its outcome and its log. Refused as `Realm::join` is. That it returns is not
    /// promised.
    pub fn join<R: Wait>(&mut self, rt: &R, scope: ScopeId) -> Result<Joined, Refusal>
        ensures answer { (self.new ≡ record self.old { token = self.new.token }) × Joins self.old.token self.new.token scope result }
        ensures fitting { Fitting C.fitting (history_seen self.new.token) }
        ensures waited { result ≡ Err Refusal.NotReady → ⊥ }
    {
        let token = &mut self.token;
        self.realm.lent().join(rt, &mut token.held, scope)
    }

    /// Joins the actor's scope as `join` does, by a clock, if one is given (or `Never`), and gives what is asked for: the
    /// outcome alone (`BareOutcome`) takes no memory. Refused as `Realm::join_by` is.
    pub fn join_by<A: JoinAnswer, R: Wait, T: Time>(
        &mut self,
        rt: &R,
        scope: ScopeId,
        time: &mut T,
    ) -> Result<A, Refusal>
        ensures rest { (self.new ≡ record self.old { token = self.new.token }) × SeesMore self.old.token self.new.token }
        ensures answer { JoinsBy T.reads A.joins self.old.token self.new.token time.old time.new scope result }
        ensures fitting { Fitting C.fitting (history_seen self.new.token) }
        ensures waited { result ≡ Err Refusal.NotReady → ⊥ }
    {
        let token = &mut self.token;
        self.realm.lent().join_by(rt, &mut token.held, scope, time)
    }

    /// The value of the task, read by the owner of its scope after the join (JEP 505, `Subtask.get`).
    /// Refused as `Realm::result` is.
    pub fn result<R: Wait>(&mut self, rt: &R, task: TaskId) -> Result<Value, Refusal>
        ensures answer { (self.new ≡ record self.old { token = self.new.token }) × Reads self.old.token self.new.token (λ h. result ≡ result_reply h self.new.token.actor task) }
    {
        let token = &mut self.token;
        self.realm.lent().result(rt, &mut token.held, task)
    }

    /// The fault of the task, read by the owner of its scope after the join (JEP 505,
    /// `Subtask.exception`). Refused as `Realm::fault` is.
    pub fn fault<R: Wait>(&mut self, rt: &R, task: TaskId) -> Result<Fault, Refusal>
        ensures answer { (self.new ≡ record self.old { token = self.new.token }) × Reads self.old.token self.new.token (λ h. result ≡ fault_reply h self.new.token.actor task) }
    {
        let token = &mut self.token;
        self.realm.lent().fault(rt, &mut token.held, task)
    }

    /// One share more of the context's realm, as for a thread that looks at it. It is refused only if
    /// std's count of holders is full (`Memory`).
    pub fn realm(&self) -> Result<Realm<C, N>, Refusal>
        ensures { IfErr result (λ refusal. refusal ≡ Refusal.Memory) }
    {
        self.realm.lent().share()
    }

    /// What the look reads off the realm, of all that the context's token has seen then.
    pub fn look<R: Wait, L: Look>(&mut self, rt: &R, look: L) -> L::Answer
        ensures answer { (self.new ≡ record self.old { token = self.new.token }) × Reads self.old.token self.new.token (λ h. L.tells look h result) }
    {
        let token = &mut self.token;
        self.realm.lent().look(rt, &mut token.held, look)
    }

    /// What can be read of the task, whoever owns it (JEP 505, `Subtask.state`). Refused as
    /// `Realm::state` is.
    pub fn state<R: Wait>(&mut self, rt: &R, task: TaskId) -> Result<State, Refusal>
        ensures answer { (self.new ≡ record self.old { token = self.new.token }) × Reads self.old.token self.new.token (λ h. result ≡ answering (task_check h task) (state h task)) }
    {
        let token = &mut self.token;
        self.realm.lent().state(rt, &mut token.held, task)
    }

    /// What the actor sees the key bound to (JEP 506, `ScopedValue.get`). Refused as `Realm::get` is.
    pub fn get<R: Wait>(&mut self, rt: &R, key: &Name) -> Result<Value, Refusal>
        ensures answer { (self.new ≡ record self.old { token = self.new.token }) × Reads self.old.token self.new.token (λ h. result ≡ binding_reply h self.new.token.actor key.now) }
    {
        let token = &mut self.token;
        self.realm.lent().get(rt, &mut token.held, key)
    }

    /// What there is to see of the scope, whoever owns it. Refused as `Realm::view` is.
    pub fn view<R: Wait>(&mut self, rt: &R, scope: ScopeId) -> Result<View, Refusal>
        ensures answer { (self.new ≡ record self.old { token = self.new.token }) × Reads self.old.token self.new.token (λ h. ViewAnswers h scope result × Fitting C.fitting h) }
    {
        let token = &mut self.token;
        self.realm.lent().view(rt, &mut token.held, scope)
    }

    /// The same, if the scope is cancelled as the mark says. Refused as `Realm::view_with` is.
    pub fn view_with<R: Wait>(
        &mut self,
        rt: &R,
        scope: ScopeId,
        mark: &Mark,
    ) -> Result<View, Refusal>
        ensures answer { (self.new ≡ record self.old { token = self.new.token }) × Reads self.old.token self.new.token (λ h. MarkedViewAnswers h scope mark.now.cause mark.now.number result × Fitting C.fitting h) }
    {
        let token = &mut self.token;
        self.realm
            .lent()
            .view_with(rt, &mut token.held, scope, mark)
    }

    /// The earliest deadline in effect for the scope, in milliseconds (Trio, `current_effective_deadline`).
    /// Refused as `Realm::effective_deadline` is.
    pub fn effective_deadline<R: Wait>(
        &mut self,
        rt: &R,
        scope: ScopeId,
    ) -> Result<Effective, Refusal>
        ensures answer { (self.new ≡ record self.old { token = self.new.token }) × Reads self.old.token self.new.token (λ h. result ≡ answering (until_check h scope) (effective h scope)) }
    {
        let token = &mut self.token;
        self.realm
            .lent()
            .effective_deadline(rt, &mut token.held, scope)
    }

    /// All events since the last retirement, in order. Refused as `Realm::history` is.
    pub fn history<R: Wait>(&mut self, rt: &R) -> Result<Vec<Event>, Refusal>
        ensures answer { (self.new ≡ record self.old { token = self.new.token }) × Reads self.old.token self.new.token (λ h. MatchResult result (λ events. events.items ≡ h.events) (λ refusal. refusal ≡ Refusal.Memory) × Fitting C.fitting h) }
    {
        let token = &mut self.token;
        self.realm.lent().history(rt, &mut token.held)
    }
}
