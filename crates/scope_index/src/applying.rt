//! Applies an accepted event to the index: one match, one call for each event.

ghost use Rattle.std.specs.Prelude.{◌≡◌, IsOk, OnErr, OnOk};
ghost use Rattle.scope_index.specs.{HasAppliedAt, History, IsIndexOf, IsReadyAt, Legal, Limits, weight};

use crate::index::RealmIndex;
use join_rules::StoredTest;
use scope_rules::Event;
use std::alloc::AllocError;

/// Applies the event to the index. The event was accepted, after `place` others. If it opens a scope,
/// `listed` says whether a closure of the caller's is shown its completions; if it ends a task, `test` is
/// the closure that may be asked.
///
/// # Errors
///
/// If memory is refused, but never for an event that costs no load. Then the index still agrees with
/// the history without the event.
pub fn apply(
    index: &mut RealmIndex,
    event: &Event,
    listed: bool,
    test: Option<&StoredTest>,
    place: usize,
) -> Result<(), AllocError>
    requires { IsReadyAt index.old event.now place }
    ensures followed { OnOk result (HasAppliedAt index.old event.now place index.new) }
    ensures refused { OnErr result ((L : Limits) (h : History) → Legal L h → IsIndexOf h index.old → IsIndexOf h index.new) }
    ensures free { weight event.now ≡ 0 → IsOk result }
{
    match *event {
        Event::Open {
            actor,
            policy,
            options,
        } => return index.open(actor, policy, options, listed, place),
        Event::Fork { actor, scope, .. } => return index.fork(actor, scope, place),
        Event::Move { scope, deadline } => return index.move_deadline(scope, deadline, place),
        Event::Bind { actor, binding } => return index.bind(actor, binding.key, binding.value),
        Event::Reject { task } => index.reject(task),
        Event::Start { task } => index.start(task),
        Event::Finish { task, end } => index.finish(task, end, test, place),
        Event::Cancel { scope } => index.cancel(scope, place),
        Event::Tick { now } => index.tick(now, place),
        Event::Unbind { actor } => index.unbind(actor),
        Event::Join { scope, .. } => index.join(scope, place),
        Event::BeginClose { actor, scope } => index.begin_close(actor, scope, place),
        Event::EndClose { actor, scope } => index.end_close(actor, scope),
    }
    Ok(())
}
