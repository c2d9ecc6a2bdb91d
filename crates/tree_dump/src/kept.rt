//! Readings by scope and by task, of those by event.
ghost use Rattle.std.specs.Prelude.{◌+◌, ◌≡◌, IfOk, OnOk, length, string_bytes};
ghost use Rattle.tree_dump.specs.{clock_by, clock_kept, clock_of, known_clock, no_clock, small, stamp_at, stamps_to, tree_by};

use crate::ages::Ages;
use crate::text_walk::tree_with;
use crate::waits::Waits;
use run_times::{end_times, fork_times, open_times, start_times};
use scope_checks::Readings;
use scope_rules::Event;
use std::alloc::{AllocError, Global};

/// Readings of a clock by scope and by task, which `Ages` lends.
#[derive(Drop)]
pub struct KeptAges {
    last: Option<u32>,
    forked: Vec<u32>,
    started: Vec<u32>,
    ended: Vec<u32>,
    opened: Vec<u32>,
}

impl KeptAges {
    /// Of the readings by event, and the last one of all. If there is none by event, there is none.
    ///
    /// # Errors
    /// It is refused for memory alone.
    pub fn new<R: Readings>(
        alloc: Global,
        readings: &R,
        events: &[Event],
        times: &[u32],
        last: u32,
    ) -> Result<KeptAges, AllocError>
        requires { events.now ≡ (R.history readings.now).events }
        ensures { IfOk result (λ kept. clock_kept kept ≡ clock_by (R.history readings.now) times.now last) }
    {
        if times.is_empty() {
            return Ok(KeptAges {
                last: None,
                forked: Vec::new(alloc),
                started: Vec::new(alloc),
                ended: Vec::new(alloc),
                opened: Vec::new(alloc),
            });
        }
        Ok(KeptAges {
            last: Some(last),
            forked: fork_times(alloc, readings, times)?,
            started: start_times(alloc, readings, events, times)?,
            ended: end_times(alloc, readings, events, times)?,
            opened: open_times(alloc, readings, times)?,
        })
    }

    /// The same, lent.
    pub fn lent(&self) -> Ages<'_>
        ensures { clock_of result ≡ clock_kept self.now }
    {
        Ages {
            last: self.last,
            forked: &self.forked,
            started: &self.started,
            ended: &self.ended,
            opened: &self.opened,
            waits: Waits::none(),
        }
    }
}

/// The time, if it has 32 bits, or else the largest one that has.
fn small(time: u64) -> u32
    ensures { result ≡ small time }
{
    if time <= 4_294_967_295 {
        time as u32
    } else {
        u32::MAX
    }
}

/// The time of the event at the place, if it is known, or else that of now.
#[tactic(auto, unfolding(crate::specs::Kept::stamp_at))]
fn stamp_at(times: &[u64], place: usize, now: u64) -> u32
    ensures { result ≡ stamp_at times.now now place }
{
    match times.get(place) {
        Some(time) => small(*time),
        None => small(now),
    }
}

/// The times of so many events, as far as they are known. It is refused for memory alone.
#[tactic(auto, using(std::proofs::lemmas::Grind::common_steps, crate::proofs::Stamped::stamps_none, crate::proofs::Stamped::stamps_more))]
fn stamps_of(alloc: Global, times: &[u64], now: u64, count: usize) -> Result<Vec<u32>, AllocError>
    ensures { IfOk result (λ found. found.items ≡ stamps_to times.now now count) }
{
    let mut found = Vec::new(alloc);
    for place in 0..count {
        found.push(stamp_at(times, place, now))?;
    }
    Ok(found)
}

/// Readings by the times of the events in milliseconds, as far as they are known, and by that of now. The others happened by
/// now. A time past 4294967295 counts as that.
///
/// # Errors
/// It is refused for memory alone.
pub fn ages_at<R: Readings>(
    alloc: Global,
    readings: &R,
    events: &[Event],
    times: &[u64],
    now: u64,
) -> Result<KeptAges, AllocError>
    requires { events.now ≡ (R.history readings.now).events }
    ensures { IfOk result (λ kept. clock_kept kept ≡ known_clock (R.history readings.now) times.now now) }
{
    let stamps = stamps_of(alloc, times, now, events.len() + 1)?;
    KeptAges::new(alloc, readings, events, &stamps, small(now))
}

/// The tree of what was read, as text for a terminal, with ages by `ages_at`.
///
/// # Errors
/// It is refused for memory alone.
pub fn tree_at<R: Readings>(
    alloc: Global,
    readings: &R,
    events: &[Event],
    times: &[u64],
    now: u64,
) -> Result<String, AllocError>
    requires { events.now ≡ (R.history readings.now).events }
    ensures { IfOk result (λ text. string_bytes text ≡ tree_by (known_clock (R.history readings.now) times.now now) (R.history readings.now)) }
{
    let kept = ages_at(alloc, readings, events, times, now)?;
    tree_with(alloc, readings, &kept.lent())
}
