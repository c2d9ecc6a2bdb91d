//! The numbers of events and of a base fit their types, so that a script can say them.

ghost use Rattle.std.specs.Prelude.{ℕ, ◌≡◌, ◌≤◌, Some, length, slice_get};
ghost use Rattle.script_journal.specs.{AllFit, BaseFits, Binding, Fits, IsMoment, IsPolicy, IsSmall, IsValue};

use scope_rules::{Base, Binding, Event, Limits, Policy, Rule, Value};

/// A number of 32 bits.
fn small_fits(_number: u32)
    ensures { IsSmall _number }
{}

/// A moment, if there is one.
fn moment_fits(moment: Option<u64>)
    ensures { IsMoment moment }
{
    if let Some(_moment) = moment {}
}

/// A value.
fn value_fits(value: Value)
    ensures { IsValue value }
{
    if let Value::Num(_number) = value {}
}

/// A joiner.
fn policy_fits(policy: Policy)
    ensures { IsPolicy policy }
{
    match policy {
        Policy::Until(Rule::FailuresAtLeast(count) | Rule::SuccessesAtLeast(count)) => small_fits(
            count,
        ),
        Policy::Until(Rule::SumAtLeast(_sum)) => {}
        _ => {}
    }
}

/// An event.
#[tactic(auto, unfolding(script_words::specs::Spelling::HasWords))]
fn event_fits(event: Event)
    ensures { Fits event }
{
    match event {
        Event::Open {
            actor: _,
            policy,
            options,
        } => {
            policy_fits(policy);
            moment_fits(options.deadline);
        }
        Event::Finish {
            task: _task,
            end: Ok(value),
        } => value_fits(value),
        Event::Finish {
            task: _task,
            end: Err(_fault),
        } => {}
        Event::Move { scope: _, deadline } => moment_fits(deadline),
        Event::Bind { actor: _, binding } => value_fits(binding.value),
        Event::Fork {
            actor: _a,
            scope: _s,
            label: _l,
        } => {}
        Event::Reject { task: _task } | Event::Start { task: _task } => {}
        Event::Cancel { scope: _s } => {}
        Event::Tick { now: _now } => {}
        Event::Unbind { actor: _a } => {}
        Event::Join {
            actor: _a,
            scope: _s,
        }
        | Event::BeginClose {
            actor: _a,
            scope: _s,
        }
        | Event::EndClose {
            actor: _a,
            scope: _s,
        } => {}
    }
}

/// The events of a list.
pub(crate) fn events_fit(events: &[Event])
    ensures { AllFit events.now }
{
    for event in events {
        event_fits(*event);
    }
}

/// The pairs of a list.
fn pairs_fit(pairs: &[Binding])
    ensures { (i : ℕ) (pair : Binding) → slice_get pairs.now i ≡ Some pair → IsValue pair.value }
{
    for pair in pairs {
        value_fits(pair.value);
    }
}

/// A base, if its pairs are within the load.
pub(crate) fn base_fits(_limits: Limits, base: &Base)
    ensures { length base.now.binds ≤ _limits.load → BaseFits _limits base.now }
{
    let _moment = base.moment();
    pairs_fit(base.binds());
}
