//! Where a task or a scope began and ended, by the places that are kept.
ghost use Rattle.std.specs.Prelude.{◌≡◌, is_some, true};
ghost use Rattle.run_times.specs.{HasFirsts, first_place, forked_count, forking, opened_count, opening};
ghost use Rattle.run_times.specs.declared.landmarks.Landmark.TheVariants as mark;

use crate::landmarks::{Firsts, Landmark};
use scope_checks::Readings;
use scope_rules::{ScopeId, TaskId};

/// Where the landmark was reached first by the task, if it was.
pub(crate) fn reached_at<R: Readings>(
    readings: &R,
    firsts: &Firsts,
    landmark: Landmark,
    task: TaskId,
) -> Option<usize>
    requires firsts { HasFirsts firsts.now landmark (R.history readings.now).events (R.history readings.now).base.tasks (forked_count (R.history readings.now)) }
    requires forked { is_some (forking (R.history readings.now) task) ≡ true }
    ensures { result ≡ first_place landmark (R.history readings.now).events task }
{
    let (_readings, _landmark) = (readings, landmark);
    firsts.place(task)
}

/// Where the task got its thread, if it did.
pub fn started_at<R: Readings>(readings: &R, starts: &Firsts, task: TaskId) -> Option<usize>
    requires starts { HasFirsts starts.now mark.Started (R.history readings.now).events (R.history readings.now).base.tasks (forked_count (R.history readings.now)) }
    requires forked { is_some (forking (R.history readings.now) task) ≡ true }
    ensures { result ≡ first_place mark.Started (R.history readings.now).events task }
{
    reached_at(readings, starts, Landmark::Started, task)
}

/// Where the task ended, or was rejected, if it did.
pub fn ended_at<R: Readings>(readings: &R, ends: &Firsts, task: TaskId) -> Option<usize>
    requires ends { HasFirsts ends.now mark.Ended (R.history readings.now).events (R.history readings.now).base.tasks (forked_count (R.history readings.now)) }
    requires forked { is_some (forking (R.history readings.now) task) ≡ true }
    ensures { result ≡ first_place mark.Ended (R.history readings.now).events task }
{
    reached_at(readings, ends, Landmark::Ended, task)
}

/// Where the scope was closed, if it was.
pub fn closed_at<R: Readings>(readings: &R, closes: &Firsts, scope: ScopeId) -> Option<usize>
    requires closes { HasFirsts closes.now mark.Closed (R.history readings.now).events (R.history readings.now).base.scopes (opened_count (R.history readings.now)) }
    requires opened { is_some (opening (R.history readings.now) scope) ≡ true }
    ensures { result ≡ first_place mark.Closed (R.history readings.now).events scope }
{
    let _readings = readings;
    closes.place(scope)
}
