//! Whether one more scope, one more task or so much load more would pass a limit.

ghost use Rattle.std.specs.Prelude.{◌≡◌};
ghost use Rattle.scope_checks.specs.{over_load, over_scopes, over_tasks};

use crate::readings::Readings;
use scope_rules::types::capacity::{GREATEST_NUMBER, Limits};

/// Whether so much load more would pass the limit.
pub fn over_load<R: Readings>(readings: &R, limits: &Limits, units: u64) -> bool
    ensures { result ≡ over_load limits.now (R.history readings.now) units }
{
    u64::from(limits.load) < readings.load().saturating_add(units)
}

/// Whether one more scope would pass the limit of scopes, or has no number.
pub fn over_scopes<R: Readings>(readings: &R, limits: &Limits) -> bool
    ensures { result ≡ over_scopes limits.now (R.history readings.now) }
{
    let last = readings.scopes();
    limits.scopes <= last - readings.retired_scopes() || GREATEST_NUMBER <= last
}

/// Whether one more task would pass the limit of tasks, or has no number.
pub fn over_tasks<R: Readings>(readings: &R, limits: &Limits) -> bool
    ensures { result ≡ over_tasks limits.now (R.history readings.now) }
{
    let last = readings.tasks();
    limits.tasks <= last - readings.retired_tasks() || GREATEST_NUMBER <= last
}
