ghost use Rattle.std.specs.Prelude.{◌<◌, ◌≡◌, ◌⊎◌, IfErr, IfOk, MatchResult};
ghost use Rattle.job_runner.specs.{All, AreGone, ClosesHere, EndsOwn, Held, IsBegun, IsOpenOf, ListsBelow, Memory, NotReady, SeesMore, StaysHere, TicketValue, history_seen};

use crate::contexts::TaskCtx;
use realm_lock::{CloseReport, RealmName};
use scope_rules::{Catalog, Refusal, ScopeId};
use std::sync::Wait;
use thread_pool::Spawner;

impl<C: Catalog, S: Spawner<N>, N: RealmName> TaskCtx<C, S, N> {
    /// Closes the actor's scope as `close_scope_bare` does, with a report of it and of what was closed
    /// inside it (JEP 505, `close`). The tickets that the joined threads gave back, each its own, show that each
    /// task has one start and one finish there. Refused as `Realm::close` is: once it has begun only if memory is refused for
    /// the report (`Memory`), or if the tickets are not those of the scopes (`NotReady`), which no run
    /// meets. Then the scope is closing, its threads are joined, and their tickets are kept for the next
    /// call.
    pub fn close_scope<R: Wait>(&mut self, rt: &R, scope: ScopeId) -> Result<CloseReport, Refusal>
        ensures rest { (self.new ≡ record self.old { token = self.new.token; spawner = self.new.spawner; opened = self.new.opened; team = self.new.team }) × SeesMore self.old.token self.new.token }
        ensures answer { MatchResult result (λ report. ClosesHere self.old.token self.new.token scope self.old.team report) (λ refusal. StaysHere self.old.token self.new.token scope self.old.team self.new.team refusal) }
        ensures left { MatchResult result (λ _. AreGone scope self.new.team × ListsBelow scope self.old.opened.items self.new.opened.items) (λ _. self.new.opened ≡ self.old.opened) }
        ensures sure { IsOpenOf (history_seen self.old.token) self.old.token.actor scope → IfErr result (λ refusal. (refusal ≡ NotReady) ⊎ (refusal ≡ Memory)) }
    {
        let token = &mut self.token;
        if let Err(refusal) = self.realm.lent().begin_closing(rt, &mut token.held, scope) {
            return Err(refusal);
        }
        self.join_threads(rt, scope);
        self.end_with_report(rt, scope)
    }

    /// Ends the close that has begun, with a report.
    fn end_with_report<R: Wait>(&mut self, rt: &R, scope: ScopeId) -> Result<CloseReport, Refusal>
        requires begun { IsBegun (history_seen self.old.token) self.old.token.actor scope }
        ensures rest { (self.new ≡ record self.old { token = self.new.token; opened = self.new.opened; team = self.new.team }) × SeesMore self.old.token self.new.token }
        ensures running { self.new.team.running ≡ self.old.team.running }
        ensures listed { MatchResult result (λ _. ListsBelow scope self.old.opened.items self.new.opened.items) (λ _. self.new.opened ≡ self.old.opened) }
        ensures gone { IfOk result (λ _. All (λ (t : TicketValue). t.scope < scope) self.new.team.returned) }
        ensures closed { IfOk result (λ report. EndsOwn scope self.old.team.returned self.old.token self.new.token report) }
        ensures refused { IfErr result (λ refusal. Held scope self.old.team.returned self.new.team.returned self.old.token self.new.token refusal) }
    {
        let Some(mut tickets) = self.team.take_from(self.alloc, scope) else {
            return Err(Refusal::Memory);
        };
        let token = &mut self.token;
        match self
            .realm
            .lent()
            .end_reporting(rt, &mut token.held, scope, &mut tickets)
        {
            Ok(report) => {
                self.forget(scope);
                Ok(report)
            }
            Err(refusal) => {
                self.team.put_back(tickets);
                Err(refusal)
            }
        }
    }
}
