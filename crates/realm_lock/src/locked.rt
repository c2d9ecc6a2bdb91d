ghost use Rattle.std.specs.Prelude.{[], ◌<◌, ◌≡◌, ◌≤◌, ◌⊎◌, Err, IfErr, IfOk, IsOk, MatchResult, None, Ok, OnSome, Some, false, is_ok, length, true, vec_capacity};
ghost use Rattle.realm_lock.specs.{Added, All, Begins, DoesOrMemory, Finishes, Fitting, ForksAll, ForksSome, FoundUnsettled, GivesCell, GivesTicket, IsBegun, IsHeldUp, IsNextDeadline, IsOpenOf, IsRunning, IsWaiting};
ghost use Rattle.realm_lock.specs.{Looked, MatchOption, MayEnd, MayFinish, MayReport, Memory, NoDeadlineComes, NotReady, Options, Performed, Policy, Records, SeesMore, Shown, Stepped, TicketAdded, TicketValue, base_of};
ghost use Rattle.realm_lock.specs.{fork_reply, given_in, history_of, history_seen, innermost, is_open, is_recorded_by, next_scope, policy_of, refusal_of, scope_alone, scope_check, settled, ticket_aside};

use crate::joins::JoinAnswer;
use crate::lookouts::Until;
use crate::setters::CancelSetters;
use crate::timed_waiters::{CalledWaiter, Noted, OwedWatch, TimedWaiters, WaitTarget};
use cancel_marks::{Bell, MarkCell};
use join_rules::Joiner;
use realm_core::{
    CloseReport, Forked, RealmCore, RealmName, begin, end_if_settled, report_if_settled, unsettled,
};
use scope_checks::checks::scope_check;
use scope_checks::{EventReply, Readings, queries, table};
use scope_rules::{
    Base, Cancelling, Catalog, Effective, End, Event, Label, Limits, Options, Refusal, ScopeId,
    Verdict,
};
use share_ledger::{OwnerShare, RealmStep, Seed, Ticket};
use std::alloc::Global;
use std::marker::Model;

/// The wake of those who sleep at a cell, which is due once the lock is free: woken under it they would sleep for it, and
/// all others with them. It can't be dropped: who has it wakes them.
pub(crate) struct OwedWake {
    cell: MarkCell,
}

impl OwedWake {
    /// Wakes them.
    pub(crate) fn wake(self) {
        let OwedWake { cell } = self;
        cell.wakes().wake();
    }
}

/// What lies under a realm's lock: the core, the setters of its scopes' cells, and who sleeps by a clock.
/// Between calls there is
/// one setter for each scope since the last retirement, and just those of the cancelled scopes were used,
/// each for the cause of its scope, with the place at which that became cancelled.
#[derive(Drop)]
pub(crate) struct LockedRealm<C: Catalog, N: RealmName> {
    alloc: Global,
    pub(crate) core: RealmCore<C, N>,
    pub(crate) setters: CancelSetters,
    timed_waiters: TimedWaiters,
}

impl<C: Catalog, N: RealmName> Model for LockedRealm<C, N> {
    ghost use Rattle.realm_core.specs.Cores.{CoreValue};
    ghost use Rattle.share_ledger.specs.Steps.{history_of};
    ghost use Rattle.realm_lock.specs.Marked.{AreMarks};

    ghost Value = { CoreValue };

    ghost view = { λ m. m.core };

    ghost invariant = { λ m. AreMarks (history_of m.core.steps) m.setters };
}

/// The calls of the core, each of which leaves the cells as its events want them.
impl<C: Catalog, N: RealmName> LockedRealm<C, N> {
    /// A realm that begins, and main's token.
    pub(crate) fn new(alloc: Global, seed: Seed, limits: Limits) -> (LockedRealm<C, N>, OwnerShare)
        requires named { seed ≡ N.table }
        ensures token { result.1 ≡ record { table = N.table; limits = limits; actor = 0; seen = [] } }
    {
        let (core, token) = RealmCore::new(alloc, seed, limits);
        let setters = CancelSetters::new(alloc);
        let marked = LockedRealm {
            alloc,
            core,
            setters,
            timed_waiters: TimedWaiters::new(alloc),
        };
        (marked, token)
    }

    /// Where the memory of calls comes from.
    pub(crate) fn alloc(&self) -> Global {
        self.alloc
    }

    /// The core, which queries read.
    pub(crate) fn core(&self) -> &RealmCore<C, N>
        ensures { result.now ≡ self.now }
    {
        &self.core
    }

    /// Lets the token see all that has happened.
    pub(crate) fn look(&mut self, token: &mut OwnerShare)
        requires named { token.old.table ≡ N.table }
        ensures steps { Shown self.old self.new token.new }
        ensures looks { Looked token.old token.new }
    {
        self.core.look(token);
    }

    /// Performs the command of an event that opens no scope.
    pub(crate) fn perform(
        &mut self,
        token: &mut OwnerShare,
        event: &Event,
    ) -> Result<EventReply, Refusal>
        requires named { token.old.table ≡ N.table }
        requires event { is_recorded_by token.old.actor event.now ≡ true }
        requires unopened { is_open event.now ≡ false }
        ensures answer { Performed token.old token.new event.now result }
        ensures fitting { Fitting C.fitting (history_seen token.new) }
    {
        let _legal = self.core.limits();
        let result = self.core.perform(token, event);
        self.setters.catch_up(&mut self.core);
        let _fitting = self.core.limits();
        result
    }

    /// Forks a task.
    pub(crate) fn fork(
        &mut self,
        token: &mut OwnerShare,
        scope: ScopeId,
        label: Label,
    ) -> Result<Forked, Refusal>
        requires named { token.old.table ≡ N.table }
        ensures answer { DoesOrMemory token.old token.new (RealmStep.Happened (Event.Fork token.old.actor scope label)) (λ h. fork_reply h scope) (ticket_aside result) }
        ensures ticket { GivesTicket token.new scope label result }
        ensures fitting { Fitting C.fitting (history_seen token.new) }
    {
        self.fork_next(token, scope, label)
    }

    /// Forks a task of each label, in their order, up to the first that is refused, and adds what each
    /// gives, for which there is room.
    pub(crate) fn fork_all(
        &mut self,
        token: &mut OwnerShare,
        scope: ScopeId,
        labels: &[Label],
        forked: &mut Vec<Forked>,
    ) -> Result<(), Refusal>
        requires named { token.old.table ≡ N.table }
        requires empty { forked.old.items ≡ [] }
        requires room { length labels.now ≤ vec_capacity forked.old }
        ensures seen { SeesMore token.old token.new × Fitting C.fitting (history_seen token.new) }
        ensures all { IfOk result (λ _. ForksAll token.old token.new scope labels.now forked.new.items) }
        ensures some { IfErr result (λ refusal. ForksSome token.old token.new scope labels.now forked.new.items refusal) }
    {
        self.look(token);
        let _fitting = self.core.limits();
        for label in labels {
            match self.fork_next(token, scope, *label) {
                Ok(next) => forked.push_reserved(next),
                Err(refusal) => return Err(refusal),
            }
        }
        Ok(())
    }

    /// Forks a task. What lies under the lock then is what the token has seen.
    #[tactic(auto, using(crate::proofs::Behind::behind_stepped))]
    fn fork_next(
        &mut self,
        token: &mut OwnerShare,
        scope: ScopeId,
        label: Label,
    ) -> Result<Forked, Refusal>
        requires named { token.old.table ≡ N.table }
        ensures steps { Stepped self.old self.new token.new (RealmStep.Happened (Event.Fork token.old.actor scope label)) (is_ok result) }
        ensures answer { DoesOrMemory token.old token.new (RealmStep.Happened (Event.Fork token.old.actor scope label)) (λ h. fork_reply h scope) (ticket_aside result) }
        ensures ticket { GivesTicket token.new scope label result }
        ensures fitting { Fitting C.fitting (history_seen token.new) }
    {
        let _legal = self.core.limits();
        let result = self.core.fork(token, scope, label);
        self.setters.catch_up(&mut self.core);
        let _fitting = self.core.limits();
        result
    }

    /// Joins a scope, if it may be joined already.
    #[tactic(auto, using(crate::proofs::Behind::behind_stepped))]
    pub(crate) fn join<A: JoinAnswer>(
        &mut self,
        token: &mut OwnerShare,
        scope: ScopeId,
    ) -> Result<A, Refusal>
        requires named { token.old.table ≡ N.table }
        ensures token { SeesMore token.old token.new }
        ensures answer { A.joins token.old token.new scope result }
        ensures steps { Stepped self.old self.new token.new (RealmStep.Happened (Event.Join token.old.actor scope)) (is_ok result) }
        ensures busy { result ≡ Err NotReady → settled (history_of self.new.steps) scope ≡ false }
        ensures fitting { Fitting C.fitting (history_seen token.new) }
    {
        let _legal = self.core.limits();
        let result = A::join_in(&mut self.core, token, scope);
        self.setters.catch_up(&mut self.core);
        let _fitting = self.core.limits();
        result
    }

    /// Begins to close a scope.
    #[tactic(auto, using(crate::proofs::Behind::behind_stepped))]
    pub(crate) fn begin_close(
        &mut self,
        token: &mut OwnerShare,
        scope: ScopeId,
    ) -> Result<Cancelling, Refusal>
        requires named { token.old.table ≡ N.table }
        ensures answer { Records token.old token.new (Event.BeginClose token.old.actor scope) result }
        ensures fitting { Fitting C.fitting (history_seen token.new) }
    {
        let _legal = self.core.limits();
        let result = self.core.begin_close(token, scope);
        self.setters.catch_up(&mut self.core);
        let _fitting = self.core.limits();
        result
    }

    /// Takes the events out, and with them the setters of the scopes before.
    pub(crate) fn retire(&mut self, token: &mut OwnerShare) -> Result<Base, Refusal>
        requires named { token.old.table ≡ N.table }
        ensures answer { DoesOrMemory token.old token.new RealmStep.Retirement base_of result }
        ensures base { MatchResult result (λ base. history_seen token.new ≡ record { base = base; events = [] }) (λ _. Unit {0}) }
        ensures fitting { Fitting C.fitting (history_seen token.new) }
    {
        let result = self.core.retire(token);
        let _fitting = self.core.limits();
        if result.is_ok() {
            self.setters.clear();
        }
        result
    }

    /// Records that no thread was available for the ticket's task.
    #[tactic(auto, using(crate::proofs::Behind::behind_added))]
    pub(crate) fn reject(&mut self, ticket: &mut Ticket)
        requires named { ticket.old.table ≡ N.table }
        requires waiting { IsWaiting ticket.old }
        ensures added { TicketAdded ticket.old ticket.new (RealmStep.Happened (Event.Reject ticket.old.task)) }
        ensures given { given_in ticket.new.task ticket.new.seen ≡ false }
        ensures fitting { Fitting C.fitting (history_of ticket.new.seen) }
    {
        let _legal = self.core.limits();
        self.core.reject(ticket);
        self.setters.catch_up(&mut self.core);
        let _fitting = self.core.limits();
        self.wake_if_settled(ticket.scope());
    }

    /// The same, and lets the token see it.
    pub(crate) fn reject_with(&mut self, token: &mut OwnerShare, ticket: &mut Ticket)
        requires named { (token.old.table ≡ N.table) × (ticket.old.table ≡ N.table) }
        requires waiting { IsWaiting ticket.old }
        ensures added { TicketAdded ticket.old ticket.new (RealmStep.Happened (Event.Reject ticket.old.task)) }
        ensures given { given_in ticket.new.task ticket.new.seen ≡ false }
        ensures token { SeesMore token.old token.new × Added token.old token.new (RealmStep.Happened (Event.Reject ticket.old.task)) }
        ensures fitting { Fitting C.fitting (history_of ticket.new.seen) × Fitting C.fitting (history_seen token.new) }
    {
        let _legal = self.core.limits();
        self.core.look(token);
        self.core.reject(ticket);
        self.core.look(token);
        self.setters.catch_up(&mut self.core);
        let _fitting = self.core.limits();
        self.wake_if_settled(ticket.scope());
    }

    /// Starts the ticket's task, and gives its token.
    #[tactic(auto, using(crate::proofs::Behind::behind_added))]
    pub(crate) fn start(&mut self, ticket: &mut Ticket) -> OwnerShare
        requires named { ticket.old.table ≡ N.table }
        requires waiting { IsWaiting ticket.old }
        ensures added { TicketAdded ticket.old ticket.new (RealmStep.Happened (Event.Start ticket.old.task)) }
        ensures running { IsRunning ticket.new }
        ensures token { result ≡ record { table = N.table; limits = ticket.old.limits; actor = ticket.old.task; seen = ticket.new.seen } }
        ensures fitting { Fitting C.fitting (history_of ticket.new.seen) }
    {
        let _legal = self.core.limits();
        let token = self.core.start(ticket);
        self.setters.catch_up(&mut self.core);
        let _fitting = self.core.limits();
        token
    }

    /// Records the end of the ticket's task, and gives the wake of those who wait for its scope, if it was the last.
    #[tactic(auto, using(crate::proofs::Behind::behind_stepped))]
    pub(crate) fn finish(
        &mut self,
        ticket: &mut Ticket,
        token: OwnerShare,
        end: End,
    ) -> (Result<(), (Refusal, OwnerShare)>, Option<OwedWake>)
        requires token { token.table ≡ N.table }
        requires task { MayFinish N.table C.fitting ticket.old token end }
        ensures answer { Finishes ticket.old ticket.new token end result.0 }
        ensures sure { innermost (history_seen token) token.actor ≡ None → IsOk result.0 }
        ensures fitting { Fitting C.fitting (history_of ticket.new.seen) }
    {
        let _legal = self.core.limits();
        let result = self.core.finish(ticket, token, end);
        self.setters.catch_up(&mut self.core);
        let _fitting = self.core.limits();
        (result, self.owed_wake(ticket.scope()))
    }
}

/// Who sleeps, and whom an event wakes. A mark wakes when it is set.
impl<C: Catalog, N: RealmName> LockedRealm<C, N> {
    /// The wake of those who wait for the scope, if no task of it waits or runs any longer. If its cell isn't had, since
    /// std's count of holders is full, they are woken here.
    fn owed_wake(&self, scope: ScopeId) -> Option<OwedWake> {
        if !self.core.realm().settled(scope) {
            return None;
        }
        match self.cell(scope) {
            Ok(cell) => Some(OwedWake { cell }),
            Err(_) => {
                self.wake_if_settled(scope);
                None
            }
        }
    }

    /// Wakes who waits for the scope, if no task of it waits or runs any longer.
    fn wake_if_settled(&self, scope: ScopeId) {
        let realm = self.core.realm();
        if realm.settled(scope) {
            self.setters.wake(realm, scope);
        }
    }

    /// A scope of which a task waits or runs, of those that the close of the scope covers, which can't end.
    pub(crate) fn unsettled(&self, scope: ScopeId) -> ScopeId
        requires { IsHeldUp (history_of self.now.steps) scope }
        ensures { settled (history_of self.now.steps) result ≡ false }
    {
        match unsettled(self.core.realm(), scope) {
            Some(busy) => busy,
            None => unreachable!(),
        }
    }

    /// The deadline that comes next, in milliseconds, if one does: of a scope that isn't joined, closed or
    /// cancelled.
    pub(crate) fn next_deadline(&self) -> Option<u64>
        ensures { MatchOption result (NoDeadlineComes (history_of self.now.steps)) (IsNextDeadline (history_of self.now.steps)) }
    {
        self.core.realm().next_deadline()
    }

    /// The deadline in effect for the scope of the target, in milliseconds, if there is one to come.
    pub(crate) fn deadline_at(&self, target: &WaitTarget) -> Option<u64> {
        match queries::effective_deadline(self.core.realm(), target.scope()?) {
            Ok(Effective::At(deadline)) => Some(deadline),
            _ => None,
        }
    }

    /// Whether there is of the scope what a call waits for.
    pub(crate) fn is_done(&self, scope: ScopeId, until: Until) -> bool
        ensures { result ≡ false → settled (history_of self.now.steps) scope ≡ false }
    {
        let realm = self.core.realm();
        let is_cancelled = match until {
            Until::Joinable => realm.is_cancelled(scope),
            Until::Settled => false,
        };
        is_cancelled || realm.settled(scope)
    }

    /// Notes that a call goes to sleep at the target that waits by a clock, and its bell at the scope whose cancel wakes it.
    /// It owes no watch then. What it owes is handed back if no note is obtained.
    pub(crate) fn note_waiter(
        &mut self,
        target: &WaitTarget,
        owed: Option<OwedWatch>,
    ) -> Result<Noted, Option<OwedWatch>>
        ensures { self.new ≡ self.old }
    {
        let Some(shared) = target.share() else {
            return Err(owed);
        };
        let Some((scope, bell)) = target.bell() else {
            return self.timed_waiters.enter(shared, owed);
        };
        let Some(place) = self.note_bell(scope, bell) else {
            return Err(owed);
        };
        match self.timed_waiters.enter(shared, owed) {
            Ok(noted) => Ok(noted.with_bell(scope, place)),
            Err(owed) => {
                self.setters.forget_bell(self.core.realm(), scope, place);
                Err(owed)
            }
        }
    }

    /// Notes the bell at the scope, and gives its place there.
    fn note_bell(&mut self, scope: ScopeId, bell: &Bell) -> Option<usize>
        ensures { self.new ≡ self.old }
    {
        let bell = bell.share().ok()?;
        self.setters.note_bell(self.core.realm(), scope, bell)
    }

    /// Whether the call that is noted watches.
    pub(crate) fn is_watching(&self, noted: &Noted) -> bool {
        self.timed_waiters.is_watching(noted)
    }

    /// Whether the call that is noted watches, if it is to, and else somebody does.
    pub(crate) fn is_watched(&self, noted: &Noted, watches: bool) -> bool {
        self.timed_waiters.is_watched(noted, watches)
    }

    /// Forgets a call that has woken, and where its bell was noted. Gives the watch, if the call owes it now.
    pub(crate) fn forget_waiter(&mut self, noted: Noted) -> Option<OwedWatch>
        ensures { self.new ≡ self.old }
    {
        let (bell, owed) = self.timed_waiters.leave(noted);
        if let Some((scope, place)) = bell {
            self.setters.forget_bell(self.core.realm(), scope, place);
        }
        owed
    }

    /// Hands on the watch: gives the call that is to keep it, if nobody does and one sleeps.
    pub(crate) fn heir(&self, owed: OwedWatch) -> Option<CalledWaiter<'_>> {
        self.timed_waiters.heir(owed)
    }

    /// Who watches does so no longer. Gives the index of its note.
    pub(crate) fn dismiss_watcher(&mut self) -> Option<usize>
        ensures { self.new ≡ self.old }
    {
        self.timed_waiters.dismiss()
    }

    /// The target that is noted at the index.
    pub(crate) fn target(&self, place: usize) -> Option<&WaitTarget> {
        self.timed_waiters.target(place)
    }
}

/// The holds of a close.
impl<C: Catalog, N: RealmName> LockedRealm<C, N> {
    /// Begins it.
    #[tactic(auto, using(crate::proofs::Behind::behind_stepped))]
    pub(crate) fn begin(
        &mut self,
        token: &mut OwnerShare,
        scope: ScopeId,
    ) -> Result<Cancelling, Refusal>
        requires named { token.old.table ≡ N.table }
        ensures seen { SeesMore token.old token.new × Fitting C.fitting (history_seen token.new) }
        ensures answer { Begins token.old token.new scope result }
        ensures sure { IsOpenOf (history_seen token.old) token.old.actor scope → IsOk result }
    {
        let _legal = self.core.limits();
        let result = begin(&mut self.core, token, scope);
        self.setters.catch_up(&mut self.core);
        let _fitting = self.core.limits();
        result
    }

    /// Whether it can end, by what the token sees then.
    pub(crate) fn is_settled(&mut self, token: &mut OwnerShare, scope: ScopeId) -> bool
        requires named { token.old.table ≡ N.table }
        requires begun { IsBegun (history_seen token.old) token.old.actor scope }
        ensures looks { Looked token.old token.new × Fitting C.fitting (history_seen token.new) }
        ensures begun { IsBegun (history_seen token.new) token.old.actor scope }
        ensures settled { result ≡ true → FoundUnsettled (history_seen token.new) scope None }
        ensures steps { Shown self.old self.new token.new }
        ensures held_up { result ≡ false → IsHeldUp (history_of self.new.steps) scope }
    {
        self.core.look(token);
        let _fitting = self.core.limits();
        unsettled(self.core.realm(), scope).is_none()
    }

    /// Ends it, if it can end.
    #[tactic(auto, using(crate::proofs::Behind::behind_closed))]
    pub(crate) fn end_if_settled(
        &mut self,
        token: &mut OwnerShare,
        scope: ScopeId,
    ) -> Option<Verdict>
        requires named { token.old.table ≡ N.table }
        requires begun { IsBegun (history_seen token.old) token.old.actor scope }
        ensures seen { SeesMore token.old token.new × Fitting C.fitting (history_seen token.new) }
        ensures answer { MayEnd token.old token.new scope result }
        ensures held_up { result ≡ None → IsHeldUp (history_of self.new.steps) scope }
    {
        let _legal = self.core.limits();
        let result = end_if_settled(&mut self.core, token, scope);
        self.setters.catch_up(&mut self.core);
        let _fitting = self.core.limits();
        result
    }

    /// Ends it with a report, if it can end.
    #[tactic(auto, using(crate::proofs::Behind::behind_reported))]
    pub(crate) fn report_if_settled(
        &mut self,
        token: &mut OwnerShare,
        scope: ScopeId,
        tickets: &mut Vec<Ticket>,
    ) -> Option<Result<CloseReport, Refusal>>
        requires named { token.old.table ≡ N.table }
        requires tickets { All (λ (t : TicketValue). t.table ≡ N.table) tickets.old.items }
        requires begun { IsBegun (history_seen token.old) token.old.actor scope }
        ensures seen { SeesMore token.old token.new × Fitting C.fitting (history_seen token.new) }
        ensures answer { MayReport token.old token.new scope tickets.old.items tickets.new.items result }
        ensures held_up { result ≡ None → IsHeldUp (history_of self.new.steps) scope }
    {
        let _legal = self.core.limits();
        let result = report_if_settled(&mut self.core, self.alloc, token, scope, tickets);
        self.setters.catch_up(&mut self.core);
        let _fitting = self.core.limits();
        result
    }
}

/// Scopes and their cells.
impl<C: Catalog, N: RealmName> LockedRealm<C, N> {
    /// Opens a scope for the token's actor, and gives its cell too. All room is made before.
    pub(crate) fn open(
        &mut self,
        token: &mut OwnerShare,
        joiner: Joiner,
        options: Options,
    ) -> Result<(ScopeId, MarkCell), (Refusal, Joiner)>
        requires named { token.old.table ≡ N.table }
        ensures answer { DoesOrMemory token.old token.new (RealmStep.Happened (Event.Open token.old.actor (policy_of joiner) options)) next_scope (scope_alone result) }
        ensures cell { MatchResult result (λ opened. opened.1.scope ≡ opened.0) (λ back. back.1 ≡ joiner) }
        ensures fitting { Fitting C.fitting (history_seen token.new) }
    {
        let Some(room) = self.setters.make_room(self.alloc) else {
            return Err((self.refusal_without_room(token), joiner));
        };
        let event = Event::Open {
            actor: token.actor(),
            policy: joiner.policy(),
            options,
        };
        let _legal = self.core.limits();
        match self.core.perform(token, &event) {
            Ok(EventReply::Scope(scope)) => {
                let cell = self.setters.add(room, scope);
                self.setters.catch_up(&mut self.core);
                let _fitting = self.core.limits();
                Ok((scope, cell))
            }
            Ok(_) => unreachable!(),
            Err(refusal) => {
                let _fitting = self.core.limits();
                Err((refusal, joiner))
            }
        }
    }

    /// What an open is refused for if there is no room for it: what the rules refuse it for, or else
    /// want of memory.
    fn refusal_without_room(&mut self, token: &mut OwnerShare) -> Refusal
        requires named { token.old.table ≡ N.table }
        ensures answer { (policy : Policy) (options : Options) → DoesOrMemory token.old token.new (RealmStep.Happened (Event.Open token.old.actor policy options)) next_scope (Err result) }
        ensures fitting { Fitting C.fitting (history_seen token.new) }
    {
        self.core.look(token);
        let limits = self.core.limits();
        refusal_or_memory(table::open_row(self.core.realm(), &limits, token.actor()))
    }

    /// The cell of the scope, for one holder more.
    pub(crate) fn cell(&self, scope: ScopeId) -> Result<MarkCell, Refusal>
        ensures { GivesCell (history_of self.now.steps) scope result }
    {
        let realm = self.core.realm();
        scope_check(realm, scope)?;
        let place = (scope - realm.retired_scopes() - 1) as usize;
        match self.setters.cell_at(place) {
            Ok(cell) => Ok(cell),
            Err(_) => Err(Refusal::Memory),
        }
    }
}

/// The refusal, or want of memory if there is none.
fn refusal_or_memory(answer: Result<(), Refusal>) -> Refusal
    ensures { result ≡ refusal_of answer }
{
    match answer {
        Ok(()) => Refusal::Memory,
        Err(refusal) => refusal,
    }
}
