//! Until when a request is served.
ghost use Rattle.std.specs.Prelude.{◌↔◌, ◌≡◌};
ghost use Rattle.quote_gateway.specs.{ℕ, Allows, Err, Finds, HasExpired, HasForked, IfErr, IfOk, IsOpenHere, IsSome, IsTold, IsTrue, KeepsTasks, OnOk, Option, Options, Pulsed, SeesMore};
ghost use Rattle.quote_gateway.specs.{Some, answer_text, history_seen, labels_of, moving_on, without_deadline};

use crate::faults::GatewayFault;
use crate::requests::{answer_joined, join_and_answer};
use job_runner::{Clock, TaskCtx, pulse};
use quote_plan::{Answer, Plan};
use realm_lock::{Joined, RealmName};
use scope_rules::{Due, Expiry, Options, Refusal, ScopeId, TaskId};
use std::alloc::Global;
use std::rt::Clock as SystemTime;
use std::sync::Wait;
use thread_pool::Spawner;

/// Until when a request is served, which is waited for by a clock `K`.
pub(crate) trait Until<K, R: Wait> {
    /// The options of the request's scope.
    ghost scope_options: { Self → Options };

    /// By the clock the time is over.
    ghost is_over: { Self → K → Type 0 };

    /// What the clock read last.
    ghost reading: { K → Option ℕ };

    /// The options of the request's scope.
    fn options(&self) -> Options
        ensures { result ≡ scope_options self.now };

    /// Joins the scope, and answers by what its tasks came to until then.
    fn answer<N: RealmName, S: Spawner<N>>(
        &self,
        rt: &R,
        alloc: Global,
        ctx: &mut TaskCtx<Due, S, N>,
        scope: ScopeId,
        plan: &Plan,
        tasks: &[TaskId],
        clock: &mut K,
    ) -> Result<Answer, GatewayFault>
        requires forked { HasForked ctx.old.token scope (labels_of plan.now) tasks.now }
        ensures token { SeesMore ctx.old.token ctx.new.token }
        ensures keeps { KeepsTasks ctx.old.token ctx.new.token }
        ensures allowed { IfOk result (λ a. Allows plan.now (is_over self.now clock.new) (answer_text a)) }
        ensures found { Finds ctx.old.token ctx.new.token plan.now scope (is_over self.now clock.new) result }
        ensures told { OnOk result (IsTold (history_seen ctx.new.token) (reading clock.new)) };

    /// Waits by the clock, if there is one, until the jobs of a scope without an answer have ended.
    fn give_up<N: RealmName, S: Spawner<N>>(
        &self,
        rt: &R,
        ctx: &mut TaskCtx<Due, S, N>,
        scope: ScopeId,
        clock: &mut K,
    )
        requires here { IsOpenHere ctx.old.token scope }
        ensures token { SeesMore ctx.old.token ctx.new.token }
        ensures keeps { KeepsTasks ctx.old.token ctx.new.token };
}

/// There is no deadline, and the clock stands at 0.
#[derive(Drop)]
pub(crate) struct Untimed;

impl<R: Wait> Until<(), R> for Untimed {
    ghost scope_options = { λ until. without_deadline };

    ghost is_over = { λ until clock. ⊥ };

    ghost reading = { λ clock. Some 0 };

    fn options(&self) -> Options {
        WITHOUT_DEADLINE
    }

    fn answer<N: RealmName, S: Spawner<N>>(
        &self,
        rt: &R,
        alloc: Global,
        ctx: &mut TaskCtx<Due, S, N>,
        scope: ScopeId,
        plan: &Plan,
        tasks: &[TaskId],
        _clock: &mut (),
    ) -> Result<Answer, GatewayFault> {
        join_and_answer(rt, alloc, ctx, scope, plan, tasks)
    }

    fn give_up<N: RealmName, S: Spawner<N>>(
        &self,
        _rt: &R,
        _ctx: &mut TaskCtx<Due, S, N>,
        _scope: ScopeId,
        _clock: &mut (),
    ) {}
}

/// By this deadline, in milliseconds.
#[derive(Drop)]
pub(crate) struct By {
    /// The deadline.
    pub(crate) deadline: u64,
}

impl<K: Clock, R: Wait + SystemTime> Until<K, R> for By {
    ghost scope_options = { λ until. moving_on until.deadline };

    ghost is_over = { λ until clock. HasExpired until.deadline (K.reading clock) };

    ghost reading = { λ clock. K.reading clock };

    fn options(&self) -> Options {
        Options {
            deadline: Some(self.deadline),
            expiry: Expiry::MoveOn,
            shield: false,
        }
    }

    fn answer<N: RealmName, S: Spawner<N>>(
        &self,
        rt: &R,
        alloc: Global,
        ctx: &mut TaskCtx<Due, S, N>,
        scope: ScopeId,
        plan: &Plan,
        tasks: &[TaskId],
        clock: &mut K,
    ) -> Result<Answer, GatewayFault> {
        answer_in_time(rt, alloc, ctx, scope, plan, tasks, self.deadline, clock)
    }

    fn give_up<N: RealmName, S: Spawner<N>>(
        &self,
        rt: &R,
        ctx: &mut TaskCtx<Due, S, N>,
        scope: ScopeId,
        clock: &mut K,
    ) {
        end_jobs(rt, ctx, scope, clock);
    }
}

/// Joins the scope by the clock, waits by it until the jobs have ended, reads it once more, and answers by what
/// the scope's tasks came to.
fn answer_in_time<N: RealmName, S: Spawner<N>, K: Clock, R: Wait + SystemTime>(
    rt: &R,
    alloc: Global,
    ctx: &mut TaskCtx<Due, S, N>,
    scope: ScopeId,
    plan: &Plan,
    tasks: &[TaskId],
    deadline: u64,
    clock: &mut K,
) -> Result<Answer, GatewayFault>
    requires forked { HasForked ctx.old.token scope (labels_of plan.now) tasks.now }
    ensures token { SeesMore ctx.old.token ctx.new.token }
    ensures keeps { KeepsTasks ctx.old.token ctx.new.token }
    ensures allowed { IfOk result (λ a. Allows plan.now (HasExpired deadline (K.reading clock.new)) (answer_text a)) }
    ensures found { Finds ctx.old.token ctx.new.token plan.now scope (HasExpired deadline (K.reading clock.new)) result }
    ensures told { OnOk result (IsTold (history_seen ctx.new.token) (K.reading clock.new)) }
{
    let joined: Joined = match ctx.join_by(rt, scope, clock) {
        Ok(joined) => joined,
        Err(refusal) => {
            end_jobs(rt, ctx, scope, clock);
            return Err(GatewayFault::of_refusal(refusal));
        }
    };
    end_jobs(rt, ctx, scope, clock);
    if let Err(refusal) = tell(rt, ctx, clock) {
        return Err(GatewayFault::of_refusal(refusal));
    }
    let expired = has_expired(clock, deadline);
    answer_joined(rt, alloc, ctx, plan, tasks, &joined.outcome, expired)
}

/// Begins the close of the scope, and waits by the clock until its jobs have ended: so deadlines inside it pass
/// meanwhile, also behind a shield. If a tick is refused, the end of the close waits without the clock.
fn end_jobs<N: RealmName, S: Spawner<N>, K: Clock, R: Wait + SystemTime>(
    rt: &R,
    ctx: &mut TaskCtx<Due, S, N>,
    scope: ScopeId,
    clock: &mut K,
)
    requires here { IsOpenHere ctx.old.token scope }
    ensures token { SeesMore ctx.old.token ctx.new.token }
    ensures keeps { KeepsTasks ctx.old.token ctx.new.token }
{
    let _waited = ctx.await_close_by(rt, scope, clock);
}

/// Tells the realm the moment that the clock reads, unless it has come that far by another's clock. If
/// the deadline passed by that, the answer may be of what was there, since this clock has reached it too.
fn tell<N: RealmName, S: Spawner<N>, K: Clock, R: Wait>(
    rt: &R,
    ctx: &mut TaskCtx<Due, S, N>,
    clock: &mut K,
) -> Result<(), Refusal>
    ensures token { SeesMore ctx.old.token ctx.new.token }
    ensures keeps { KeepsTasks ctx.old.token ctx.new.token }
    ensures told { OnOk result (IsTold (history_seen ctx.new.token) (K.reading clock.new)) }
    ensures read { IsSome (K.reading clock.new) }
    ensures refused { IfErr result (λ refusal. Pulsed ctx.old.token ctx.new.token (K.reading clock.new) (Err refusal)) }
{
    match pulse(rt, ctx, clock) {
        Ok(_) => Ok(()),
        Err(Refusal::ClockBack) => Ok(()),
        Err(refusal) => Err(refusal),
    }
}

/// Whether the clock's last reading is at the deadline or past it.
fn has_expired<K: Clock>(clock: &K, deadline: u64) -> bool
    ensures { IsTrue result ↔ HasExpired deadline (K.reading clock.now) }
{
    match clock.last() {
        Some(reading) => reading >= deadline,
        None => false,
    }
}

/// No deadline and no shield.
const WITHOUT_DEADLINE: Options = Options {
    deadline: None,
    expiry: Expiry::Fail,
    shield: false,
};
