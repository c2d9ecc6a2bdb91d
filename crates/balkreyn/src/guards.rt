//! A scope that can't be forgotten.
ghost use Rattle.std.specs.Prelude.{◌≡◌, ◌⊎◌, Err, IfErr, IfOk, IsOk, MatchResult, None};
ghost use Rattle.balkreyn.specs.{AreGone, ClosesAfter, ClosesBare, ClosesBy, ClosesHere, DoesInRoom, Fitting, ForksJob, FoundUnsettled, IsOpenOf, JoinsBy, KeepsThread, ListsBelow, ListsOne, Memory, NotReady};
ghost use Rattle.balkreyn.specs.{SeesMore, StaysHere, StaysUnclosed, StopsClosing, history_seen, job_of, next_scope, policy_of, why_alone};

use crate::aliases::CanFork;
use crate::scoped::close_in_time;
use job_runner::{Answers, Clock, ForkRefusal, NamedJob, TaskCtx};
use join_rules::Joiner;
use realm_lock::{CloseReport, JoinAnswer, RealmName, Time};
use scope_rules::{Catalog, Event, ForkReply, Options, Refusal, ScopeId, Verdict};
use share_ledger::RealmStep;
use std::marker::Model;
use std::rt::Clock as SystemTime;
use std::sync::Wait;
use thread_pool::Spawner;

/// A scope that was opened and is still to be closed (JEP 505 has the block of a `try` in its place, Trio
/// that of a nursery). It can't be dropped: if it would be, by a forgotten `close` or by a `?` before it,
/// the program doesn't compile. Pass it to `close_by` or `report_by`, or to `close` or `report`, which wait without
/// a clock, in the context in which it was opened: another refuses it.
///
/// A request over a guard:
///
/// ```rust
/// fn sum_guarded<R: Wait + SystemTime + Copy, N: RealmName, S: CanFork<AnyEnd, N, Ask<R>>>(
///     rt: &R,
///     ctx: &mut TaskCtx<AnyEnd, S, N>,
///     clock: &mut SystemClock<R>,
///     asks: (Ask<R>, Ask<R>),
///     millis: u64,
/// ) -> Result<Option<i64>, Refusal> {
///     let options = fail_after(clock, millis);
///     let scope = ScopeGuard::at(rt, ctx, Joiner::All, options)?;
///     let found = ask_both(rt, ctx, &scope, clock, asks);
///     scope.close_by(rt, ctx, clock)?;
///     found
/// }
/// ```
pub struct ScopeGuard {
    scope: ScopeId,
}

impl Model for ScopeGuard {
    ghost use Rattle.std.specs.Prelude.{ℕ};

    ghost Value = { ℕ };

    ghost view = { λ o. o.scope };
}

impl ScopeGuard {
    /// Opens a scope for the context's actor, as `TaskCtx::open` does (JEP 505, `open`).
    ///
    /// # Errors
    /// Those of `TaskCtx::open`; the joiner is then let go.
    pub fn at<C: Catalog, S: Spawner<N>, N: RealmName, R: Wait>(
        rt: &R,
        ctx: &mut TaskCtx<C, S, N>,
        joiner: Joiner,
        options: Options,
    ) -> Result<ScopeGuard, Refusal>
        ensures rest { (ctx.new ≡ record ctx.old { token = ctx.new.token; opened = ctx.new.opened }) × SeesMore ctx.old.token ctx.new.token }
        ensures answer { DoesInRoom ctx.old.token ctx.new.token (RealmStep.Happened (Event.Open ctx.old.token.actor (policy_of joiner) options)) next_scope result }
        ensures listed { MatchResult result (λ scope. ListsOne scope ctx.old.opened.items ctx.new.opened.items) (λ _. ctx.new.opened.items ≡ ctx.old.opened.items) }
    {
        match ctx.open(rt, joiner, options) {
            Ok(scope) => Ok(ScopeGuard { scope }),
            Err((refusal, _joiner)) => Err(refusal),
        }
    }

    /// The scope's number, by which all can ask for it.
    pub fn number(&self) -> ScopeId
        ensures { result ≡ self.now }
    {
        self.scope
    }

    /// Forks the job in the scope, as `TaskCtx::fork_job` does (JEP 505, `fork`).
    ///
    /// # Errors
    /// Those of `TaskCtx::fork_job`; the job is then handed back.
    pub fn fork<C: Catalog, J: Answers + Drop, S: CanFork<C, N, J>, N: RealmName, R: Wait>(
        &self,
        rt: &R,
        ctx: &mut TaskCtx<C, S, N>,
        job: NamedJob<C, J>,
    ) -> Result<ForkReply, ForkRefusal<C, J>>
        ensures rest { (ctx.new ≡ record ctx.old { token = ctx.new.token; spawner = ctx.new.spawner; team = ctx.new.team }) × SeesMore ctx.old.token ctx.new.token }
        ensures answer { ForksJob ctx.old.token ctx.new.token self.now job.label (why_alone result) }
        ensures handed_back { IfErr result (λ e. job_of e ≡ job) }
        ensures kept { IfOk result (λ reply. KeepsThread ctx.new.token self.now job.label reply ctx.old.team ctx.new.team) }
    {
        ctx.fork_job(rt, self.scope, job)
    }

    /// Joins the scope, as `TaskCtx::join_by` does (JEP 505, `join`): by a clock deadlines pass while it waits (Trio), by
    /// `Never` they don't. That it returns is not promised.
    ///
    /// # Errors
    /// Those of `TaskCtx::join_by`.
    pub fn join_by<A: JoinAnswer, C: Catalog, S: Spawner<N>, N: RealmName, R: Wait, T: Time>(
        &self,
        rt: &R,
        ctx: &mut TaskCtx<C, S, N>,
        time: &mut T,
    ) -> Result<A, Refusal>
        ensures rest { (ctx.new ≡ record ctx.old { token = ctx.new.token }) × SeesMore ctx.old.token ctx.new.token }
        ensures answer { JoinsBy T.reads A.joins ctx.old.token ctx.new.token time.old time.new self.now result }
        ensures fitting { Fitting C.fitting (history_seen ctx.new.token) }
        ensures waited { result ≡ Err NotReady → ⊥ }
    {
        ctx.join_by(rt, self.scope, time)
    }

    /// Closes the scope, and all that its actor opened later and has not closed, and says how it was
    /// closed, as `TaskCtx::close_scope_bare` does (JEP 505, `close`). That it returns is not promised.
    ///
    /// # Errors
    /// Those of `TaskCtx::close_scope_bare`: never for a scope that the token shows as its actor's and not
    /// closed. So it is refused for one that was closed by its number, or by the close of a scope around
    /// it, and in a context of another actor. The guard is then gone.
    pub fn close<C: Catalog, S: Spawner<N>, N: RealmName, R: Wait>(
        self,
        rt: &R,
        ctx: &mut TaskCtx<C, S, N>,
    ) -> Result<Verdict, Refusal>
        ensures rest { (ctx.new ≡ record ctx.old { token = ctx.new.token; spawner = ctx.new.spawner; opened = ctx.new.opened; team = ctx.new.team }) × SeesMore ctx.old.token ctx.new.token }
        ensures answer { ClosesBare ctx.old.token ctx.new.token self result }
        ensures sure { IsOpenOf (history_seen ctx.old.token) ctx.old.token.actor self → IsOk result }
        ensures left { MatchResult result (λ _. AreGone self ctx.new.team × ListsBelow self ctx.old.opened.items ctx.new.opened.items) (λ _. (ctx.new.team ≡ ctx.old.team) × (ctx.new.opened ≡ ctx.old.opened)) }
    {
        let ScopeGuard { scope } = self;
        ctx.close_scope_bare(rt, scope)
    }

    /// Closes the scope as `close` does, once it has waited by the clock until its tasks have ended: deadlines
    /// pass meanwhile, also behind a shield (Trio). Where a tick is refused, it goes on without the clock.
    ///
    /// # Errors
    /// Those of `close`.
    pub fn close_by<C: Catalog, S: Spawner<N>, N: RealmName, R: Wait + SystemTime, K: Clock>(
        self,
        rt: &R,
        ctx: &mut TaskCtx<C, S, N>,
        clock: &mut K,
    ) -> Result<Verdict, Refusal>
        ensures rest { (ctx.new ≡ record ctx.old { token = ctx.new.token; spawner = ctx.new.spawner; opened = ctx.new.opened; team = ctx.new.team }) × SeesMore ctx.old.token ctx.new.token }
        ensures answer { ClosesBy K.reads ctx.old.token ctx.new.token clock.old clock.new self result }
        ensures sure { IsOpenOf (history_seen ctx.old.token) ctx.old.token.actor self → IsOk result }
        ensures left { MatchResult result (λ _. AreGone self ctx.new.team × ListsBelow self ctx.old.opened.items ctx.new.opened.items) (λ _. (ctx.new.team ≡ ctx.old.team) × (ctx.new.opened ≡ ctx.old.opened)) }
    {
        let ScopeGuard { scope } = self;
        close_in_time(rt, ctx, scope, clock)
    }

    /// Closes the scope as `close` does, with a report of it and of what was closed inside it, as
    /// `TaskCtx::close_scope` gives it (JEP 505, `close`).
    ///
    /// # Errors
    /// Those of `TaskCtx::close_scope`, with the guard handed back: `close` closes without a report where
    /// memory is refused for one.
    pub fn report<C: Catalog, S: Spawner<N>, N: RealmName, R: Wait>(
        self,
        rt: &R,
        ctx: &mut TaskCtx<C, S, N>,
    ) -> Result<CloseReport, (Refusal, ScopeGuard)>
        ensures rest { (ctx.new ≡ record ctx.old { token = ctx.new.token; spawner = ctx.new.spawner; opened = ctx.new.opened; team = ctx.new.team }) × SeesMore ctx.old.token ctx.new.token }
        ensures answer { MatchResult result (λ report. ClosesHere ctx.old.token ctx.new.token self ctx.old.team report) (λ back. StaysHere ctx.old.token ctx.new.token self ctx.old.team ctx.new.team back.0) }
        ensures left { MatchResult result (λ _. AreGone self ctx.new.team × ListsBelow self ctx.old.opened.items ctx.new.opened.items) (λ _. ctx.new.opened ≡ ctx.old.opened) }
        ensures sure { IsOpenOf (history_seen ctx.old.token) ctx.old.token.actor self → IfErr result (λ back. (back.0 ≡ NotReady) ⊎ (back.0 ≡ Memory)) }
        ensures handed_back { IfErr result (λ back. back.1 ≡ self) }
    {
        match ctx.close_scope(rt, self.scope) {
            Ok(report) => {
                let ScopeGuard { scope: _ } = self;
                Ok(report)
            }
            Err(refusal) => Err((refusal, self)),
        }
    }

    /// The same by the clock, as `TaskCtx::close_scope_by` does.
    ///
    /// # Errors
    /// Those of `report`, and those of a tick, with the guard handed back: `close` closes then without clock and
    /// report, and takes no load.
    pub fn report_by<C: Catalog, S: Spawner<N>, N: RealmName, R: Wait + SystemTime, K: Clock>(
        self,
        rt: &R,
        ctx: &mut TaskCtx<C, S, N>,
        clock: &mut K,
    ) -> Result<CloseReport, (Refusal, ScopeGuard)>
        ensures rest { (ctx.new ≡ record ctx.old { token = ctx.new.token; spawner = ctx.new.spawner; opened = ctx.new.opened; team = ctx.new.team }) × SeesMore ctx.old.token ctx.new.token }
        ensures closed { IfOk result (λ report. ClosesAfter K.reads ctx.old.token clock.old clock.new self (λ there. FoundUnsettled (history_seen there) self None × ClosesHere there ctx.new.token self ctx.old.team report)) }
        ensures refused { IfErr result (λ back. (StaysUnclosed K.reads ctx.old.token ctx.new.token clock.old clock.new self back.0 × (ctx.new.team ≡ ctx.old.team)) ⊎ ClosesAfter K.reads ctx.old.token clock.old clock.new self (λ there. FoundUnsettled (history_seen there) self None × StaysHere there ctx.new.token self ctx.old.team ctx.new.team back.0)) }
        ensures left { MatchResult result (λ _. AreGone self ctx.new.team × ListsBelow self ctx.old.opened.items ctx.new.opened.items) (λ _. ctx.new.opened ≡ ctx.old.opened) }
        ensures sure { IsOpenOf (history_seen ctx.old.token) ctx.old.token.actor self → IfErr result (λ back. (back.0 ≡ NotReady) ⊎ (back.0 ≡ Memory) ⊎ StopsClosing K.reads ctx.old.token ctx.new.token clock.old clock.new self back.0) }
        ensures handed_back { IfErr result (λ back. back.1 ≡ self) }
    {
        match ctx.close_scope_by(rt, self.scope, clock) {
            Ok(report) => {
                let ScopeGuard { scope: _ } = self;
                Ok(report)
            }
            Err(refusal) => Err((refusal, self)),
        }
    }
}
