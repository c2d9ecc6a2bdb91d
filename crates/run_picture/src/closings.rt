//! Where scopes begin to close: by a close of their own, or by one of a scope around that covers them. The scopes are
//! gone through by number, so that what lies around a scope is known before.
ghost use Rattle.std.specs.Prelude.{◌+◌, ◌<◌, ◌≡◌};
ghost use Rattle.run_picture.specs.{AreClosings, HasFirsts, IfOk, IsNestOf, Landmark, begins_to_close, first_place, is_some, length, opened_count, opening, own_around, sooner, true};

use crate::arounds::Nest;
use run_times::landmarks::Firsts;
use scope_checks::Readings;
use scope_rules::ScopeId;
use std::alloc::{AllocError, Global};

/// The sooner of the two places, if there is one.
fn sooner(left: Option<usize>, right: Option<usize>) -> Option<usize>
    ensures { result ≡ sooner left right }
{
    match (left, right) {
        (None, right) => right,
        (Some(left), None) => Some(left),
        (Some(left), Some(right)) => Some(left.min(right)),
    }
}

/// Where the next scope begins to close, whose own close begins there, and around which its owner had that scope open.
fn next_closing<R: Readings>(
    readings: &R,
    closings: &Firsts,
    begin: Option<usize>,
    own: Option<ScopeId>,
) -> Option<usize>
    requires closings { AreClosings closings.now (R.history readings.now) (length closings.now.places.items) }
    requires opened { length closings.now.places.items < opened_count (R.history readings.now) }
    requires begin { begin ≡ first_place Landmark.Began (R.history readings.now).events ((R.history readings.now).base.scopes + 1 + length closings.now.places.items) }
    requires own { own ≡ own_around (R.history readings.now) ((R.history readings.now).base.scopes + 1 + length closings.now.places.items) }
    ensures { result ≡ begins_to_close (R.history readings.now) ((R.history readings.now).base.scopes + 1 + length closings.now.places.items) }
{
    let _readings = readings;
    match own {
        Some(own) => sooner(begin, closings.place(own)),
        None => begin,
    }
}

/// Where each scope since the base begins to close, if it does. It is refused for memory alone.
pub(crate) fn closings_of<R: Readings>(
    alloc: Global,
    readings: &R,
    nest: &Nest,
    begins: &Firsts,
) -> Result<Firsts, AllocError>
    requires nest { IsNestOf nest.now (R.history readings.now) }
    requires begins { HasFirsts begins.now Landmark.Began (R.history readings.now).events (R.history readings.now).base.scopes (opened_count (R.history readings.now)) }
    ensures { IfOk result (λ closings. AreClosings closings (R.history readings.now) (opened_count (R.history readings.now))) }
{
    let before = readings.retired_scopes();
    let count = readings.scopes() - before;
    let mut closings = Firsts {
        before,
        places: Vec::new(alloc),
    };
    for index in 0..count as usize {
        let begin = begins.places[index];
        let own = nest.owns.scopes[index];
        let place = next_closing(readings, &closings, begin, own);
        closings.places.push(place)?;
    }
    Ok(closings)
}

/// Where the scope begins to close, if it does: by its own close, or by one of a scope around that covers it.
pub(crate) fn closing_at<R: Readings>(
    readings: &R,
    closings: &Firsts,
    scope: ScopeId,
) -> Option<usize>
    requires closings { AreClosings closings.now (R.history readings.now) (opened_count (R.history readings.now)) }
    requires opened { is_some (opening (R.history readings.now) scope) ≡ true }
    ensures { result ≡ begins_to_close (R.history readings.now) scope }
{
    let _readings = readings;
    closings.place(scope)
}
