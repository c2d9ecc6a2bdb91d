//! The prices of a plan.

ghost use Rattle.std.specs.Prelude.{◌++◌, ◌∷◌, ◌≡◌};
ghost use Rattle.quote_plan.specs.{[], IfOk, IsBest, IsBestOf, List, available, option_and_then, quote_in, quote_there, quotes_in, slice_get};

use crate::answers::{Quote, Quotes};
use crate::ends::is_unavailable;
use crate::plans::{Offer, Plan};
use scope_rules::{State, TaskState};
use std::alloc::{AllocError, Global};

/// The least price, the first listed of equals.
pub(crate) fn best_quote(plan: &Plan) -> Option<Quote>
    ensures { IsBestOf (quotes_in plan.now.offers) result }
{
    let mut best = None;
    for index in 0..plan.len() {
        if let Some(quote) = quote_at(plan, index) {
            best = Some(better(best, quote));
        }
    }
    best
}

/// The quote with the lesser price, the first of equals.
fn better(best: Option<Quote>, quote: Quote) -> Quote
    ensures { (quotes : List Quote) → IsBestOf quotes best → IsBest (quotes ++ quote ∷ []) result }
{
    match best {
        Some(best) => {
            if best.price <= quote.price {
                best
            } else {
                quote
            }
        }
        None => quote,
    }
}

/// All prices, in order.
pub(crate) fn quotes(alloc: Global, plan: &Plan) -> Result<Quotes, AllocError>
    ensures { IfOk result (λ quotes. quotes ≡ quotes_in plan.now.offers) }
{
    let mut quotes = Vec::new(alloc);
    for index in 0..plan.len() {
        if let Some(quote) = quote_at(plan, index) {
            quotes.push(quote)?;
        }
    }
    Ok(Quotes::new(quotes))
}

/// The prices of the offers whose tasks have ended, in order.
pub(crate) fn quotes_so_far(
    alloc: Global,
    plan: &Plan,
    tasks: &[TaskState],
) -> Result<Quotes, AllocError>
    ensures { IfOk result (λ quotes. quotes ≡ available plan.now.offers tasks.now) }
{
    let mut quotes = Vec::new(alloc);
    for (index, task) in tasks.iter().enumerate() {
        if let Some(quote) = quote_there(plan, index, &task.state) {
            quotes.push(quote)?;
        }
    }
    Ok(Quotes::new(quotes))
}

/// The same of an offer whose task has this state, if the task has ended.
fn quote_there(plan: &Plan, index: usize, state: &State) -> Option<Quote>
    ensures { result ≡ option_and_then (quote_there state.now) (slice_get plan.now.offers index) }
{
    if is_unavailable(state) {
        return None;
    }
    quote_at(plan, index)
}

/// The name and the price of the offer at this place, if it has one.
fn quote_at(plan: &Plan, index: usize) -> Option<Quote>
    ensures { result ≡ option_and_then quote_in (slice_get plan.now.offers index) }
{
    match plan.named_at(index)? {
        (name, Offer::Price(price)) => Some(Quote { name, price }),
        (_, Offer::Fails(_)) => None,
    }
}
