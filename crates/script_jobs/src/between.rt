//! Which events of a run are drawn, by their times.
ghost use Rattle.std.specs.Prelude.{◌≡◌};
ghost use Rattle.script_jobs.specs.{count_before, from_by, seen_between, to_by};

use run_picture::View;

/// Between which moments a run is drawn, in milliseconds since the realm began. A moment that is not given bounds nothing,
/// and neither does one of a run without times.
#[derive(Clone, Copy)]
pub struct Between {
    /// The first event is the first that happened at this moment or later.
    pub since: Option<u32>,
    /// The last event is the last of those, from the first on, that happened by this moment.
    pub until: Option<u32>,
}

impl Between {
    /// The whole run.
    pub fn all() -> Between {
        Between {
            since: None,
            until: None,
        }
    }

    /// What is drawn of what is in view, by the times of the events.
    pub(crate) fn narrowed(self, seen: View, times: &[u32]) -> View
        ensures { result ≡ seen_between self times.now seen }
    {
        View {
            width: seen.width,
            rows: seen.rows,
            from: from_by(self.since, times, seen.from),
            to: to_by(self.until, times, seen.to),
            scope: seen.scope,
        }
    }
}

/// The place of the first event in view.
fn from_by(since: Option<u32>, times: &[u32], from: u32) -> u32
    ensures { result ≡ from_by since times.now from }
{
    match since {
        None => from,
        Some(moment) => from.max(
            count_before(times, u64::from(moment)).min(u32::MAX as usize) as u32,
        ),
    }
}

/// The place of the last event in view.
fn to_by(until: Option<u32>, times: &[u32], to: u32) -> u32
    ensures { result ≡ to_by until times.now to }
{
    match (until, times) {
        (None, _) | (Some(_), []) => to,
        (Some(moment), times) => {
            let count = count_before(times, u64::from(moment) + 1).min(u32::MAX as usize) as u32;
            to.min(count.saturating_sub(1))
        }
    }
}

/// How many of the times, from the first on, come before the moment.
fn count_before(times: &[u32], moment: u64) -> usize
    ensures { result ≡ count_before moment times.now }
{
    let mut rest = times;
    let mut count = 0;
    while let Some((time, others)) = rest.split_first() {
        if moment <= u64::from(*time) {
            return count;
        }
        count += 1;
        rest = others;
    }
    count
}
