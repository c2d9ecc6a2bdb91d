//! The answer that the ends of a plan's jobs make.

ghost use Rattle.std.specs.Prelude.{◌≡◌};
ghost use Rattle.quote_plan.specs.{[], AllowedBest, AllowedFor, Answer, Answers, AreDue, AreDueSoFar, AreDueValues, Cancelled, Err, IfOk, IsCancelled, IsLost, IsLostOrMemory, IsNoAnswer, IsSome};
ghost use Rattle.quote_plan.specs.{MatchResult, NoneSucceeds, Some, available, failed_answer, first_answer, offer_of, quotes_in};

use crate::answers::{Answer, Quote};
use crate::choosing::{best_quote, quotes, quotes_so_far};
use crate::ends::{are_due, are_due_so_far, are_due_values, offer_of};
use crate::plans::{Mode, Offer, Plan};
use scope_rules::{Fault, Outcome, TaskId, TaskState, TaskValue, Value};
use std::alloc::Global;

/// Why there is no answer.
#[derive(Clone, Copy, Debug, PartialEq, Eq)]
pub enum NoAnswer {
    /// It would rest on an end that is not the offer's.
    Lost,
    /// The scope was cancelled, or its time ran out.
    Cancelled,
    /// Memory was refused.
    Memory,
}

/// The answer to the plan: `tasks` are the tasks of its offers, in order, with their states at the join of
/// their scope, and `outcome` is what the join gave. The scope is to have the joiner of the plan's mode;
/// an outcome that this joiner never gives is answered `Lost`.
pub fn answer(
    alloc: Global,
    plan: &Plan,
    tasks: &[TaskState],
    outcome: &Outcome,
) -> Result<Answer, NoAnswer>
    ensures allowed { IfOk result (λ a. AllowedFor plan.now outcome.now a) }
    ensures rests { MatchResult result (λ a. Answers plan.now.mode plan.now.offers tasks.now outcome.now a) (λ e. IsNoAnswer (Answers plan.now.mode plan.now.offers tasks.now outcome.now) outcome.now e) }
    ensures cancelled { IsCancelled outcome.now → result ≡ Err Cancelled }
{
    answer_by_ends(alloc, plan, tasks, outcome)
}

/// The same, by the plan's mode and what the join gave: that it rests on the ends. So the plan allows it.
fn answer_by_ends(
    alloc: Global,
    plan: &Plan,
    tasks: &[TaskState],
    outcome: &Outcome,
) -> Result<Answer, NoAnswer>
    ensures rests { MatchResult result (λ a. Answers plan.now.mode plan.now.offers tasks.now outcome.now a) (λ e. IsNoAnswer (Answers plan.now.mode plan.now.offers tasks.now outcome.now) outcome.now e) }
    ensures cancelled { IsCancelled outcome.now → result ≡ Err Cancelled }
{
    match (plan.mode(), outcome) {
        (_, Outcome::Timeout | Outcome::Cancelled(_)) => Err(NoAnswer::Cancelled),
        (_, Outcome::Partial(states)) => partial_answer(alloc, plan, states.as_slice()),
        (Mode::Best, Outcome::Done) => best_answer(plan, tasks),
        (Mode::All, Outcome::All(values)) => all_answer(alloc, plan, values.as_slice()),
        (Mode::All, Outcome::Failed { task, fault }) => {
            found(failed_answer(plan, tasks, *task, fault))
        }
        (Mode::First, Outcome::Any { task, value }) => {
            found(first_answer(plan, tasks, *task, value))
        }
        (Mode::First, Outcome::Failed { task, fault }) => {
            none_succeeded(plan, tasks, *task, fault)
        }
        (Mode::First, Outcome::Empty) => no_offers(plan),
        _ => Err(NoAnswer::Lost),
    }
}

/// In mode `best`, if all tasks have ended.
fn best_answer(plan: &Plan, tasks: &[TaskState]) -> Result<Answer, NoAnswer>
    ensures { MatchResult result (λ a. AreDue plan.now.offers tasks.now × AllowedBest plan.now.offers a) (λ e. IsLost (AreDue plan.now.offers tasks.now) e) }
{
    if !are_due(plan, tasks) {
        return Err(NoAnswer::Lost);
    }
    match best_quote(plan) {
        Some(quote) => Ok(Answer::Best(quote)),
        None => Ok(Answer::NoPrice),
    }
}

/// In mode `all`, if all tasks succeeded.
fn all_answer(alloc: Global, plan: &Plan, values: &[TaskValue]) -> Result<Answer, NoAnswer>
    ensures { MatchResult result (λ a. AreDueValues plan.now.offers values.now × (a ≡ Answer.All (quotes_in plan.now.offers))) (λ e. IsLostOrMemory (AreDueValues plan.now.offers values.now) e) }
{
    if !are_due_values(plan, values) {
        return Err(NoAnswer::Lost);
    }
    match quotes(alloc, plan) {
        Ok(quotes) => Ok(Answer::All(quotes)),
        Err(_) => Err(NoAnswer::Memory),
    }
}

/// After the deadline.
fn partial_answer(alloc: Global, plan: &Plan, states: &[TaskState]) -> Result<Answer, NoAnswer>
    ensures { MatchResult result (λ a. AreDueSoFar plan.now.offers states.now × (a ≡ Answer.Partial (available plan.now.offers states.now))) (λ e. IsLostOrMemory (AreDueSoFar plan.now.offers states.now) e) }
{
    if !are_due_so_far(plan, states) {
        return Err(NoAnswer::Lost);
    }
    match quotes_so_far(alloc, plan, states) {
        Ok(quotes) => Ok(Answer::Partial(quotes)),
        Err(_) => Err(NoAnswer::Memory),
    }
}

/// In mode `first`, if no task succeeded and this one was the first to fail.
fn none_succeeded(
    plan: &Plan,
    tasks: &[TaskState],
    task: TaskId,
    fault: &Fault,
) -> Result<Answer, NoAnswer>
    ensures { MatchResult result (λ a. NoneSucceeds plan.now.offers tasks.now × (failed_answer (offer_of plan.now.offers tasks.now task) fault.now ≡ Some a)) (λ e. IsLost (NoneSucceeds plan.now.offers tasks.now × IsSome (failed_answer (offer_of plan.now.offers tasks.now task) fault.now)) e) }
{
    if !are_due(plan, tasks) || best_quote(plan).is_some() {
        return Err(NoAnswer::Lost);
    }
    found(failed_answer(plan, tasks, task, fault))
}

/// In mode `first`, if no task ended.
fn no_offers(plan: &Plan) -> Result<Answer, NoAnswer>
    ensures { MatchResult result (λ a. (plan.now.offers ≡ []) × (a ≡ Answer.Empty)) (λ e. IsLost (plan.now.offers ≡ []) e) }
{
    if plan.is_empty() {
        Ok(Answer::Empty)
    } else {
        Err(NoAnswer::Lost)
    }
}

/// The answer that was found, or else that there is none.
fn found(answer: Option<Answer>) -> Result<Answer, NoAnswer>
    ensures { MatchResult result (λ a. answer ≡ Some a) (λ e. IsLost (IsSome answer) e) }
{
    answer.ok_or(NoAnswer::Lost)
}

/// That the task's offer fails, if it is to fail so.
fn failed_answer(plan: &Plan, tasks: &[TaskState], task: TaskId, fault: &Fault) -> Option<Answer>
    ensures { result ≡ failed_answer (offer_of plan.now.offers tasks.now task) fault.now }
{
    match offer_of(plan, tasks, task)? {
        (name, Offer::Fails(due)) if due.0.is_same(&fault.0) => {
            Some(Answer::Failed { name, fault: due })
        }
        _ => None,
    }
}

/// The task's offer with its price, where it is to end so.
fn first_answer(plan: &Plan, tasks: &[TaskState], task: TaskId, value: &Value) -> Option<Answer>
    ensures { result ≡ first_answer (offer_of plan.now.offers tasks.now task) value.now }
{
    match (offer_of(plan, tasks, task)?, value) {
        ((name, Offer::Price(due)), Value::Num(price)) if due == *price => {
            Some(Answer::First(Quote { name, price: due }))
        }
        _ => None,
    }
}
