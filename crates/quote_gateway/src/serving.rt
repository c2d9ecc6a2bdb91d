//! Serving requests over the context of a service.
ghost use Rattle.std.specs.Prelude.{◌↔◌, ◌≡◌};
ghost use Rattle.quote_gateway.specs.{[], AllowedText, AllowedTextBy, Allows, ComesTo, Err, Fails, FailsBy, Finds, HasForked, IfErr, IfOk, IsBeginning, IsTold, KeepsInnermost, KeepsScopes};
ghost use Rattle.quote_gateway.specs.{OnOk, RestsOn, SeesMore, answer_text, history_seen, labels_in, labels_of, moving_on, without_deadline};

use crate::faults::GatewayFault;
use crate::labels::are_offers;
use crate::requests::{close_scope, fork_all, open_scope};
use crate::until::{By, Until, Untimed};
use job_runner::{Answers, Clock, JobWork, NamedJob, TaskCtx};
use quote_plan::{Answer, Plan};
use realm_lock::RealmName;
use scope_rules::{Due, ScopeId};
use std::alloc::Global;
use std::rt::Clock as SystemTime;
use std::sync::Wait;
use thread_pool::Spawns;

/// Serves the request over the context, which the caller keeps: forks the jobs, one for each offer of the
/// plan, in order, in a scope that it opens for them with the mode's joiner; joins them, answers as the plan
/// allows, and closes the scope. Once it has answered, the context has no scope open that it had not before.
/// So many requests go over one context, and between them its realm may retire. That it returns is not
/// promised.
///
/// # Errors
/// `Strange` exactly if the jobs' labels are not those of the plan's offers, in order, one each; nothing
/// is done then. Else, of what is refused first, `Memory` if memory is, and `Rejected` if a thread
/// or something else is; `Cancelled` if the scope was cancelled; `Lost` if the answer would rest on an
/// end that is not the offer's.
pub fn serve_in<N: RealmName, J: Answers + Drop, S: Spawns<N, JobWork<Due, N, J>>, R: Wait>(
    rt: &R,
    alloc: Global,
    ctx: &mut TaskCtx<Due, S, N>,
    plan: &Plan,
    jobs: Vec<NamedJob<Due, J>>,
) -> Result<Answer, GatewayFault>
    ensures token { SeesMore ctx.old.token ctx.new.token × IsBeginning ctx.old.token.seen ctx.new.token.seen }
    ensures left { KeepsInnermost ctx.old.token ctx.new.token }
    ensures allowed { IfOk result (λ a. AllowedText plan.now (answer_text a)) }
    ensures rests { IfOk result (RestsOn ctx.old.token ctx.new.token plan.now without_deadline) }
    ensures strange { (result ≡ Err GatewayFault.Strange) ↔ (labels_in jobs.items ≡ labels_of plan.now → ⊥) }
    ensures untouched { result ≡ Err GatewayFault.Strange → ctx.new ≡ ctx.old }
    ensures fails { IfErr result (λ fault. labels_in jobs.items ≡ labels_of plan.now → Fails ctx.old.token ctx.new.token plan.now without_deadline ⊥ fault) }
{
    if !are_offers(plan, jobs.as_slice()) {
        return Err(GatewayFault::Strange);
    }
    ask(rt, alloc, ctx, plan, jobs, &Untimed, &mut ())
}

/// Serves the request as `serve_in` does, by a deadline, in milliseconds: it waits by the clock until all
/// jobs have ended or the deadline has come, and jobs that look for their mark end then too. By the clock it
/// also waits for the end of those that go on, before it closes their scope. It reads the clock once more; if
/// that has reached the deadline, the answer may be of the prices that were there by then (`Answer::Partial`).
///
/// # Errors
/// As those of `serve_in`. `Rejected` also if a tick was refused, as if the load is used up.
/// `Cancelled` also if another's clock reached the deadline before this one.
pub fn serve_in_by<
    N: RealmName,
    J: Answers + Drop,
    S: Spawns<N, JobWork<Due, N, J>>,
    K: Clock,
    R: Wait + SystemTime,
>(
    rt: &R,
    alloc: Global,
    ctx: &mut TaskCtx<Due, S, N>,
    plan: &Plan,
    jobs: Vec<NamedJob<Due, J>>,
    deadline: u64,
    clock: &mut K,
) -> Result<Answer, GatewayFault>
    ensures token { SeesMore ctx.old.token ctx.new.token × IsBeginning ctx.old.token.seen ctx.new.token.seen }
    ensures left { KeepsInnermost ctx.old.token ctx.new.token }
    ensures allowed { IfOk result (λ a. AllowedTextBy plan.now deadline (K.reading clock.new) (answer_text a)) }
    ensures rests { IfOk result (RestsOn ctx.old.token ctx.new.token plan.now (moving_on deadline)) }
    ensures told { OnOk result (IsTold (history_seen ctx.new.token) (K.reading clock.new)) }
    ensures strange { (result ≡ Err GatewayFault.Strange) ↔ (labels_in jobs.items ≡ labels_of plan.now → ⊥) }
    ensures untouched { result ≡ Err GatewayFault.Strange → ctx.new ≡ ctx.old }
    ensures fails { IfErr result (λ fault. labels_in jobs.items ≡ labels_of plan.now → FailsBy ctx.old.token ctx.new.token plan.now deadline (K.reading clock.new) fault) }
{
    if !are_offers(plan, jobs.as_slice()) {
        return Err(GatewayFault::Strange);
    }
    ask(rt, alloc, ctx, plan, jobs, &By { deadline }, clock)
}

/// Asks all offers in a scope of their own, until then.
pub(crate) fn ask<
    N: RealmName,
    J: Answers + Drop,
    S: Spawns<N, JobWork<Due, N, J>>,
    K,
    U: Until<K, R>,
    R: Wait,
>(
    rt: &R,
    alloc: Global,
    ctx: &mut TaskCtx<Due, S, N>,
    plan: &Plan,
    jobs: Vec<NamedJob<Due, J>>,
    until: &U,
    clock: &mut K,
) -> Result<Answer, GatewayFault>
    requires labelled { labels_in jobs.items ≡ labels_of plan.now }
    ensures token { SeesMore ctx.old.token ctx.new.token × IsBeginning ctx.old.token.seen ctx.new.token.seen }
    ensures left { KeepsInnermost ctx.old.token ctx.new.token }
    ensures allowed { IfOk result (λ a. Allows plan.now (U.is_over until.now clock.new) (answer_text a)) }
    ensures rests { ComesTo ctx.old.token ctx.new.token plan.now (U.scope_options until.now) (U.is_over until.now clock.new) result }
    ensures told { OnOk result (IsTold (history_seen ctx.new.token) (U.reading clock.new)) }
{
    let scope = open_scope(rt, ctx, plan.mode(), until.options())?;
    let found = find(rt, alloc, ctx, scope, plan, jobs, until, clock);
    close_scope(rt, ctx, scope);
    found
}

/// What is found in the scope until then, once the jobs are forked there.
fn find<
    N: RealmName,
    J: Answers + Drop,
    S: Spawns<N, JobWork<Due, N, J>>,
    K,
    U: Until<K, R>,
    R: Wait,
>(
    rt: &R,
    alloc: Global,
    ctx: &mut TaskCtx<Due, S, N>,
    scope: ScopeId,
    plan: &Plan,
    jobs: Vec<NamedJob<Due, J>>,
    until: &U,
    clock: &mut K,
) -> Result<Answer, GatewayFault>
    requires labelled { labels_in jobs.items ≡ labels_of plan.now }
    requires empty { HasForked ctx.old.token scope [] [] }
    ensures token { SeesMore ctx.old.token ctx.new.token }
    ensures keeps { KeepsScopes ctx.old.token ctx.new.token }
    ensures allowed { IfOk result (λ a. Allows plan.now (U.is_over until.now clock.new) (answer_text a)) }
    ensures found { Finds ctx.old.token ctx.new.token plan.now scope (U.is_over until.now clock.new) result }
    ensures told { OnOk result (IsTold (history_seen ctx.new.token) (U.reading clock.new)) }
{
    match fork_all(rt, alloc, ctx, scope, jobs) {
        Ok(tasks) => until.answer(rt, alloc, ctx, scope, plan, tasks.as_slice(), clock),
        Err(fault) => {
            until.give_up(rt, ctx, scope, clock);
            Err(fault)
        }
    }
}
