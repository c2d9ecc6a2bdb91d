//! The readings of a clock by task and by scope.
ghost use Rattle.std.specs.Prelude.{◌≡◌, IfOk};
ghost use Rattle.run_times.specs.{HasFirsts, end_times, fork_time, fork_times, forked_count, open_time, open_times, reading_at, start_times, task_time, tasks_to};

use crate::landmarks::{Firsts, Landmark, firsts_of};
use crate::turns::reached_at;
use scope_checks::Readings;
use scope_rules::{Event, ScopeId, TaskId};
use std::alloc::{AllocError, Global};

/// The reading at the place, or 0, if there is none.
fn reading_at(times: &[u32], place: usize) -> u32
    ensures { result ≡ reading_at times.now place }
{
    match times.get(place) {
        Some(reading) => *reading,
        None => 0,
    }
}

/// The reading as the landmark was reached by the task, or 0, if it was not.
#[tactic(auto, unfolding(crate::specs::Stamps::task_time))]
fn task_time<R: Readings>(
    readings: &R,
    firsts: &Firsts,
    landmark: Landmark,
    times: &[u32],
    task: TaskId,
) -> u32
    requires { HasFirsts firsts.now landmark (R.history readings.now).events (R.history readings.now).base.tasks (forked_count (R.history readings.now)) }
    ensures { result ≡ task_time landmark (R.history readings.now) times.now task }
{
    let Some(_forking) = readings.forking(task) else {
        return 0;
    };
    match reached_at(readings, firsts, landmark, task) {
        Some(place) => reading_at(times, place),
        None => 0,
    }
}

/// The reading as the task was forked.
#[tactic(auto, unfolding(crate::specs::Stamps::fork_time))]
fn fork_time<R: Readings>(readings: &R, times: &[u32], task: TaskId) -> u32
    ensures { result ≡ fork_time (R.history readings.now) times.now task }
{
    match readings.forking(task) {
        Some(forking) => reading_at(times, forking.place),
        None => 0,
    }
}

/// The reading as the scope was opened.
#[tactic(auto, unfolding(crate::specs::Stamps::open_time))]
fn open_time<R: Readings>(readings: &R, times: &[u32], scope: ScopeId) -> u32
    ensures { result ≡ open_time (R.history readings.now) times.now scope }
{
    match readings.opening(scope) {
        Some(opening) => reading_at(times, opening.place),
        None => 0,
    }
}

/// By task since the last retirement, the reading as the landmark was reached by it, of these readings by event; 0, if it
/// was not. The events are those of the history that is read.
#[tactic(auto, using(std::proofs::lemmas::Grind::common_steps, crate::proofs::Stamped::tasks_none, crate::proofs::Stamped::tasks_more))]
fn task_times<R: Readings>(
    alloc: Global,
    readings: &R,
    events: &[Event],
    times: &[u32],
    landmark: Landmark,
) -> Result<Vec<u32>, AllocError>
    requires { events.now ≡ (R.history readings.now).events }
    ensures { IfOk result (λ found. found.items ≡ tasks_to landmark (R.history readings.now) times.now (forked_count (R.history readings.now))) }
{
    let before = readings.retired_tasks();
    let count = readings.tasks() - before;
    let firsts = firsts_of(alloc, events, landmark, before, count)?;
    let mut found = Vec::new(alloc);
    for index in 0..count {
        let task = before + 1 + index;
        found.push(task_time(readings, &firsts, landmark, times, task))?;
    }
    Ok(found)
}

/// By task since the last retirement, the reading as it started, of these readings by event; 0, if it did not start. The
/// events are those of the history that is read.
///
/// # Errors
/// It is refused for memory alone.
pub fn start_times<R: Readings>(
    alloc: Global,
    readings: &R,
    events: &[Event],
    times: &[u32],
) -> Result<Vec<u32>, AllocError>
    requires { events.now ≡ (R.history readings.now).events }
    ensures { IfOk result (λ found. found.items ≡ start_times (R.history readings.now) times.now) }
{
    task_times(alloc, readings, events, times, Landmark::Started)
}

/// By task since the last retirement, the reading as it finished or was rejected; 0, if it has not ended so. The events are
/// those of the history that is read.
///
/// # Errors
/// It is refused for memory alone.
pub fn end_times<R: Readings>(
    alloc: Global,
    readings: &R,
    events: &[Event],
    times: &[u32],
) -> Result<Vec<u32>, AllocError>
    requires { events.now ≡ (R.history readings.now).events }
    ensures { IfOk result (λ found. found.items ≡ end_times (R.history readings.now) times.now) }
{
    task_times(alloc, readings, events, times, Landmark::Ended)
}

/// By task since the last retirement, the reading as it was forked, of these readings by event.
///
/// # Errors
/// It is refused for memory alone.
#[tactic(auto, using(std::proofs::lemmas::Grind::common_steps, crate::proofs::Stamped::forks_none, crate::proofs::Stamped::forks_more))]
pub fn fork_times<R: Readings>(
    alloc: Global,
    readings: &R,
    times: &[u32],
) -> Result<Vec<u32>, AllocError>
    ensures { IfOk result (λ found. found.items ≡ fork_times (R.history readings.now) times.now) }
{
    let before = readings.retired_tasks();
    let count = readings.tasks() - before;
    let mut found = Vec::new(alloc);
    for index in 0..count {
        found.push(fork_time(readings, times, before + 1 + index))?;
    }
    Ok(found)
}

/// By scope since the last retirement, the reading as it was opened, of these readings by event.
///
/// # Errors
/// It is refused for memory alone.
#[tactic(auto, using(std::proofs::lemmas::Grind::common_steps, crate::proofs::Stamped::opens_none, crate::proofs::Stamped::opens_more))]
pub fn open_times<R: Readings>(
    alloc: Global,
    readings: &R,
    times: &[u32],
) -> Result<Vec<u32>, AllocError>
    ensures { IfOk result (λ found. found.items ≡ open_times (R.history readings.now) times.now) }
{
    let before = readings.retired_scopes();
    let count = readings.scopes() - before;
    let mut found = Vec::new(alloc);
    for index in 0..count {
        found.push(open_time(readings, times, before + 1 + index))?;
    }
    Ok(found)
}
