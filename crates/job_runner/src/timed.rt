ghost use Rattle.std.specs.Prelude.{[], ◌≡◌, ◌⊎◌, IfErr, IfOk, IfSome, IsNone, IsSome, MatchResult, None, Ok, Some};
ghost use Rattle.job_runner.specs.{AreGone, ClosesAfter, ClosesHere, FoundUnsettled, HasCome, HasPassed, IsBegun, IsOpenOf, KeepsOthers, ListsBelow, Memory, NotReady, SeesMore, Shows, StaysHere};
ghost use Rattle.job_runner.specs.{StaysUnclosed, Stopped, StopsClosing, Waited, WaitsToClose, history_seen, scope_here, seat_here, shown_in};

use crate::contexts::{OpenScope, TaskCtx};
use crate::readers::CellReader;
use cancel_marks::Mark;
use realm_lock::{ActorToken, BellWait, CloseReport, Realm, RealmName, Time};
use scope_rules::{Catalog, Refusal, ScopeId};
use std::sync::Wait;
use thread_pool::Spawner;

/// The waits by a clock, by which deadlines pass while all wait (Trio). Each does what the realm's wait of
/// that name does, or the context's without a clock: it sleeps until it is woken or the realm's next
/// deadline has come, and then it ticks to what its clock reads. If that tick is refused, as if the
/// load is used up (`TooMany`), the wait answers so at once. That one wakes in time is not promised.
impl<C: Catalog, S: Spawner<N>, N: RealmName> TaskCtx<C, S, N> {
    /// Begins to close the actor's scope, as a close does, and waits by the clock until that can end: until no
    /// task waits or runs of the scope, and of what the actor opened later. Then no close waits. Refused as
    /// `Realm::close_bare` is, and if a tick is: then the scope is closing. `close_scope_bare` closes it in
    /// either case, and takes no load.
    pub fn await_close_by<R: Wait, T: Time>(
        &mut self,
        rt: &R,
        scope: ScopeId,
        time: &mut T,
    ) -> Result<(), Refusal>
        ensures rest { (self.new ≡ record self.old { token = self.new.token }) × SeesMore self.old.token self.new.token }
        ensures answer { MatchResult result (λ _. WaitsToClose T.reads self.old.token self.new.token time.old time.new scope) (StaysUnclosed T.reads self.old.token self.new.token time.old time.new scope) }
        ensures settled { IfOk result (λ _. IsBegun (history_seen self.new.token) self.old.token.actor scope × FoundUnsettled (history_seen self.new.token) scope None) }
        ensures sure { IsOpenOf (history_seen self.old.token) self.old.token.actor scope → IfErr result (StopsClosing T.reads self.old.token self.new.token time.old time.new scope) }
    {
        let token = &mut self.token;
        self.realm
            .lent()
            .await_close_by(rt, &mut token.held, scope, time)
    }

    /// Closes the actor's scope with a report, as `close_scope` does, once it has waited by the clock until its tasks
    /// have ended. Refused as that is, and if a tick is: then the scope is closing, and its threads are not
    /// joined; `close_scope_bare` closes it, which takes no load.
    pub fn close_scope_by<R: Wait, T: Time>(
        &mut self,
        rt: &R,
        scope: ScopeId,
        time: &mut T,
    ) -> Result<CloseReport, Refusal>
        ensures rest { (self.new ≡ record self.old { token = self.new.token; spawner = self.new.spawner; opened = self.new.opened; team = self.new.team }) × SeesMore self.old.token self.new.token }
        ensures closed { IfOk result (λ report. ClosesAfter T.reads self.old.token time.old time.new scope (λ there. FoundUnsettled (history_seen there) scope None × ClosesHere there self.new.token scope self.old.team report)) }
        ensures refused { IfErr result (λ refusal. (StaysUnclosed T.reads self.old.token self.new.token time.old time.new scope refusal × (self.new.team ≡ self.old.team)) ⊎ ClosesAfter T.reads self.old.token time.old time.new scope (λ there. FoundUnsettled (history_seen there) scope None × StaysHere there self.new.token scope self.old.team self.new.team refusal)) }
        ensures left { MatchResult result (λ _. AreGone scope self.new.team × ListsBelow scope self.old.opened.items self.new.opened.items) (λ _. self.new.opened ≡ self.old.opened) }
        ensures sure { IsOpenOf (history_seen self.old.token) self.old.token.actor scope → IfErr result (λ refusal. (refusal ≡ NotReady) ⊎ (refusal ≡ Memory) ⊎ StopsClosing T.reads self.old.token self.new.token time.old time.new scope refusal) }
    {
        match self.await_close_by(rt, scope, time) {
            Ok(()) => self.close_scope(rt, scope),
            Err(refusal) => Err(refusal),
        }
    }

    /// Waits by the clock until `checkpoint` would show a mark, and gives it; or until this time of the realm, in
    /// milliseconds (Trio, `sleep_until`), or a ring of the bell, if one is given, and gives none then. If both have come it
    /// gives the mark, and each deadline that has come by then is passed first. Refused if a tick is. For main without an
    /// open scope it waits for moment and ring alone, and not at all without them. A ring is counted before the wait: who
    /// reads the bell's count, looks for what it waits for, and finds nothing, misses no ring that comes behind its look.
    pub fn wait_by<R: Wait, T: Time>(
        &mut self,
        rt: &R,
        time: &mut T,
        until: Option<u64>,
        bell: Option<BellWait<'_>>,
    ) -> Result<Option<Mark>, Refusal>
        ensures rest { (self.new ≡ record self.old { token = self.new.token; around = self.new.around; opened = self.new.opened }) × SeesMore self.old.token self.new.token × KeepsOthers self.old.around self.new.around self.old.opened.items self.new.opened.items }
        ensures answer { MatchResult result (λ _. Waited T.reads self.old.token time.old self.new.token time.new) (Stopped T.reads self.old.token self.new.token time.old time.new) }
        ensures shows { Shows (seat_here self.old.around self.old.opened.items) (seat_here self.new.around self.new.opened.items) (shown_in result) }
        ensures of { IfSome (shown_in result) (λ mark. scope_here self.old.around self.old.opened.items ≡ Some mark.scope) }
        ensures slept { result ≡ Ok None → IsNone bell.entry → IsSome (seat_here self.old.around self.old.opened.items) ⊎ IsSome until → HasPassed until (T.reading time.new) }
        ensures passed_all { result ≡ Ok None → IsSome (seat_here self.old.around self.old.opened.items) ⊎ IsSome until ⊎ IsSome bell.entry → IfSome (T.reading time.new) (λ now. HasCome (history_seen self.new.token) now → ⊥) }
    {
        let realm = self.realm.lent();
        let token = &mut self.token;
        match self.opened.pop() {
            Some(open) => {
                let OpenScope { scope, mut reader } = open;
                let shown = reader.wait_by(rt, realm, &mut token.held, time, until, bell);
                self.opened.push_reserved(OpenScope { scope, reader });
                shown
            }
            None => {
                let around = &mut self.around;
                wait_around_by(rt, realm, &mut token.held, around, time, until, bell)
            }
        }
    }
}

/// What is waited for if the context has no open scope: the mark of the scope around, the moment and a ring of the bell,
/// whichever there are. Without a scope around there is a bell or a moment, or neither.
fn wait_around_by<C: Catalog, N: RealmName, R: Wait, T: Time>(
    rt: &R,
    realm: &Realm<C, N>,
    token: &mut ActorToken,
    around: &mut Option<CellReader>,
    time: &mut T,
    until: Option<u64>,
    bell: Option<BellWait<'_>>,
) -> Result<Option<Mark>, Refusal>
    requires named { token.old.table ≡ N.table }
    ensures token { SeesMore token.old token.new }
    ensures answer { MatchResult result (λ _. Waited T.reads token.old time.old token.new time.new) (Stopped T.reads token.old token.new time.old time.new) }
    ensures shows { Shows around.old around.new (shown_in result) }
    ensures of { IfSome (shown_in result) (λ mark. scope_here around.old [] ≡ Some mark.scope) }
    ensures slept { result ≡ Ok None → IsNone bell.entry → IsSome around.old ⊎ IsSome until → HasPassed until (T.reading time.new) }
    ensures passed_all { result ≡ Ok None → IsSome around.old ⊎ IsSome until ⊎ IsSome bell.entry → IfSome (T.reading time.new) (λ now. HasCome (history_seen token.new) now → ⊥) }
{
    match around {
        Some(reader) => reader.wait_by(rt, realm, token, time, until, bell),
        None => match (until, bell) {
            (None, None) => Ok(None),
            (until, bell) => match realm.pause_by(rt, token, time, until, bell) {
                Ok(()) => Ok(None),
                Err(refusal) => Err(refusal),
            },
        },
    }
}
