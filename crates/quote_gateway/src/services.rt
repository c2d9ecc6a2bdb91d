//! A request in a realm of its own, with which a service may begin.
ghost use Rattle.std.specs.Prelude.{◌↔◌, ◌≡◌};
ghost use Rattle.quote_gateway.specs.{AllowedText, AllowedTextBy, ComesTo, Err, HasExpired, IfErr, IfOk, IsTold, MatchResult, None, OnOk, answer_text, history_seen, innermost, labels_in};
ghost use Rattle.quote_gateway.specs.{labels_of, moving_on, unused, without_deadline};

use crate::faults::GatewayFault;
use crate::labels::are_offers;
use crate::serving::ask;
use crate::until::{By, Untimed};
use job_runner::{Answers, Clock, JobWork, NamedJob, TaskCtx};
use quote_plan::{Answer, Plan};
use realm_lock::{Realm, RealmName, Seed};
use scope_rules::{Due, Limits};
use std::alloc::Global;
use std::rt::Clock as SystemTime;
use std::sync::Wait;
use thread_pool::{Spawner, Spawns};

/// What a request in a realm of its own came to.
pub struct Served<S: Spawner<N>, N: RealmName> {
    /// The answer, or why there is none.
    pub found: Result<Answer, GatewayFault>,
    /// Main's context in the realm, whose token has seen the whole request. No scope is open in it. The caller
    /// leaves it, or has more requests served over it.
    pub ctx: TaskCtx<Due, S, N>,
}

/// Serves the request as `serve_in` does, over main's context in a realm of its own with the greatest limits,
/// and gives the context back beside the answer.
///
/// # Errors
/// `Strange` exactly if the jobs' labels are not those of the plan's offers, in order, one each, and
/// `Memory` if no realm is obtained. Else the context is given back, and why there is no answer is found beside
/// it: a fault of `serve_in`.
pub fn serve<N: RealmName, J: Answers + Drop, S: Spawns<N, JobWork<Due, N, J>> + Drop, R: Wait>(
    rt: &R,
    alloc: Global,
    seed: Seed,
    plan: &Plan,
    jobs: Vec<NamedJob<Due, J>>,
    spawner: S,
) -> Result<Served<S, N>, GatewayFault>
    requires named { seed ≡ N.table }
    ensures main { IfOk result (λ served. (served.ctx.token.table ≡ N.table) × (served.ctx.token.actor ≡ 0) × (innermost (history_seen served.ctx.token) 0 ≡ None)) }
    ensures allowed { IfOk result (λ served. IfOk served.found (λ a. AllowedText plan.now (answer_text a))) }
    ensures rests { IfOk result (λ served. ComesTo (unused served.ctx.token) served.ctx.token plan.now without_deadline ⊥ served.found) }
    ensures strange { (result ≡ Err GatewayFault.Strange) ↔ (labels_in jobs.items ≡ labels_of plan.now → ⊥) }
    ensures none { IfErr result (λ fault. labels_in jobs.items ≡ labels_of plan.now → fault ≡ GatewayFault.Memory) }
{
    if !are_offers(plan, jobs.as_slice()) {
        return Err(GatewayFault::Strange);
    }
    let mut ctx = main_context::<N, S>(alloc, seed, spawner)?;
    let found = ask(rt, alloc, &mut ctx, plan, jobs, &Untimed, &mut ());
    Ok(Served { found, ctx })
}

/// Serves the request as `serve_in_by` does, by the deadline, over main's context in a realm of its own with
/// the greatest limits, and gives the context back beside the answer.
///
/// # Errors
/// As those of `serve`.
pub fn serve_by<
    N: RealmName,
    J: Answers + Drop,
    S: Spawns<N, JobWork<Due, N, J>> + Drop,
    K: Clock,
    R: Wait + SystemTime,
>(
    rt: &R,
    alloc: Global,
    seed: Seed,
    plan: &Plan,
    jobs: Vec<NamedJob<Due, J>>,
    spawner: S,
    deadline: u64,
    clock: &mut K,
) -> Result<Served<S, N>, GatewayFault>
    requires named { seed ≡ N.table }
    ensures main { IfOk result (λ served. (served.ctx.token.table ≡ N.table) × (served.ctx.token.actor ≡ 0) × (innermost (history_seen served.ctx.token) 0 ≡ None)) }
    ensures allowed { IfOk result (λ served. IfOk served.found (λ a. AllowedTextBy plan.now deadline (K.reading clock.new) (answer_text a))) }
    ensures rests { IfOk result (λ served. ComesTo (unused served.ctx.token) served.ctx.token plan.now (moving_on deadline) (HasExpired deadline (K.reading clock.new)) served.found) }
    ensures told { IfOk result (λ served. OnOk served.found (IsTold (history_seen served.ctx.token) (K.reading clock.new))) }
    ensures strange { (result ≡ Err GatewayFault.Strange) ↔ (labels_in jobs.items ≡ labels_of plan.now → ⊥) }
    ensures none { IfErr result (λ fault. labels_in jobs.items ≡ labels_of plan.now → fault ≡ GatewayFault.Memory) }
{
    if !are_offers(plan, jobs.as_slice()) {
        return Err(GatewayFault::Strange);
    }
    let mut ctx = main_context::<N, S>(alloc, seed, spawner)?;
    let found = ask(rt, alloc, &mut ctx, plan, jobs, &By { deadline }, clock);
    Ok(Served { found, ctx })
}

/// Main's context in a realm of its own, with the greatest limits: for who shares the realm before a request is served in
/// it. Refused for memory alone.
pub fn main_context<N: RealmName, S: Spawner<N> + Drop>(
    alloc: Global,
    seed: Seed,
    spawner: S,
) -> Result<TaskCtx<Due, S, N>, GatewayFault>
    requires named { seed ≡ N.table }
    ensures { MatchResult result (λ ctx. (ctx.token ≡ unused ctx.token) × (ctx.token.table ≡ N.table) × (ctx.token.actor ≡ 0)) (λ fault. fault ≡ GatewayFault.Memory) }
{
    match Realm::<Due, N>::new(alloc, seed, Limits::GREATEST) {
        Ok((realm, token)) => Ok(TaskCtx::main(alloc, realm, token, spawner)),
        Err(_refusal) => Err(GatewayFault::Memory),
    }
}
