//! The columns of a run, which its page reads: a row for each task and for each scope since the last retirement, by
//! number. A row says where things happened, as places of events, so that the page compares numbers and knows no rule.
ghost use Rattle.std.specs.Prelude.{◌≡◌};
ghost use Rattle.run_picture.specs.{AreColumnsOf, ArePlacesOf, AreScopeRows, AreTaskRows, IfOk, IsScopeRow, IsTaskRow, Landmark, Some, first_place, forked_count, forking, is_some, opened_count};
ghost use Rattle.run_picture.specs.{opening, true};

use crate::arounds::{Nest, around, nest_of};
use crate::closings::{closing_at, closings_of};
use run_times::landmarks::{Firsts, Landmark, firsts_of};
use run_times::{closed_at, ended_at, started_at};
use scope_checks::Readings;
use scope_checks::queries::cancellation;
use scope_rules::types::records::{Forking, Opening};
use scope_rules::{Cause, Event, ScopeId, Stage, State, TaskId};
use std::alloc::{AllocError, Global};

/// What happened to a task.
#[derive(Clone, Copy)]
pub struct TaskRow {
    /// Its fork: the place, who forked it in which scope, and its label.
    pub forked: Forking,
    /// Where it got its thread.
    pub started: Option<usize>,
    /// Where it ended, or was rejected.
    pub ended: Option<usize>,
    /// How far it came. One that never starts and was not rejected was forked under a cancel.
    pub stage: Stage,
    /// What can be read of it.
    pub state: State,
}

/// What happened to a scope.
#[derive(Clone, Copy)]
pub struct ScopeRow {
    /// Its opening: the place, its owner, its joiner and its options.
    pub opened: Opening,
    /// The scope around it: of its owner, or else the one that its owner was forked in.
    pub parent: Option<ScopeId>,
    /// Where it was joined.
    pub joined: Option<usize>,
    /// Where a close began that covers it: its own, or that of a scope around.
    pub closing: Option<usize>,
    /// Where it was closed.
    pub closed: Option<usize>,
    /// Where it became cancelled, and why: at its opening, if it was opened under a cancel.
    pub cancelled: Option<(usize, Cause)>,
}

/// The rows of a run.
#[derive(Drop)]
pub struct Columns {
    /// How many tasks were numbered before the first row.
    pub tasks_before: TaskId,
    pub tasks: Vec<TaskRow>,
    /// How many scopes were numbered before the first row.
    pub scopes_before: ScopeId,
    pub scopes: Vec<ScopeRow>,
}

/// Where what happens to tasks and scopes happened.
#[derive(Drop)]
pub(crate) struct Places {
    pub(crate) starts: Firsts,
    pub(crate) ends: Firsts,
    pub(crate) joins: Firsts,
    pub(crate) closings: Firsts,
    pub(crate) nest: Nest,
}

/// The places of what was read. It is refused for memory alone.
fn places_of<R: Readings>(
    alloc: Global,
    readings: &R,
    events: &[Event],
) -> Result<Places, AllocError>
    requires { events.now ≡ (R.history readings.now).events }
    ensures { IfOk result (λ places. ArePlacesOf places (R.history readings.now)) }
{
    let tasks_before = readings.retired_tasks();
    let tasks = readings.tasks() - tasks_before;
    let scopes_before = readings.retired_scopes();
    let scopes = readings.scopes() - scopes_before;
    let nest = nest_of(alloc, readings, events)?;
    let begins = firsts_of(alloc, events, Landmark::Began, scopes_before, scopes)?;
    let closings = closings_of(alloc, readings, &nest, &begins)?;
    Ok(Places {
        starts: firsts_of(alloc, events, Landmark::Started, tasks_before, tasks)?,
        ends: firsts_of(alloc, events, Landmark::Ended, tasks_before, tasks)?,
        joins: firsts_of(alloc, events, Landmark::Joined, scopes_before, scopes)?,
        closings,
        nest,
    })
}

/// The row of the task that was forked so.
#[tactic(auto, using(scope_checks::proofs::Checked::task_passes))]
fn task_row<R: Readings>(readings: &R, places: &Places, task: TaskId, forked: Forking) -> TaskRow
    requires places { ArePlacesOf places.now (R.history readings.now) }
    requires forked { forking (R.history readings.now) task ≡ Some forked }
    ensures { IsTaskRow (R.history readings.now) task result }
{
    TaskRow {
        forked,
        started: started_at(readings, &places.starts, task),
        ended: ended_at(readings, &places.ends, task),
        stage: readings.stage(task),
        state: readings.state(task),
    }
}

/// Where the scope was joined, if it was.
fn joined_at<R: Readings>(readings: &R, places: &Places, scope: ScopeId) -> Option<usize>
    requires places { ArePlacesOf places.now (R.history readings.now) }
    requires opened { is_some (opening (R.history readings.now) scope) ≡ true }
    ensures { result ≡ first_place Landmark.Joined (R.history readings.now).events scope }
{
    let _readings = readings;
    places.joins.place(scope)
}

/// The row of the scope that was opened so.
fn scope_row<R: Readings>(
    readings: &R,
    places: &Places,
    scope: ScopeId,
    opened: Opening,
) -> ScopeRow
    requires places { ArePlacesOf places.now (R.history readings.now) }
    requires opened { opening (R.history readings.now) scope ≡ Some opened }
    ensures { IsScopeRow (R.history readings.now) scope result }
{
    ScopeRow {
        opened,
        parent: around(readings, &places.nest, scope, opened),
        joined: joined_at(readings, places, scope),
        closing: closing_at(readings, &places.closings, scope),
        closed: closed_at(readings, &places.nest.closes, scope),
        cancelled: cancellation(readings, scope),
    }
}

/// The rows of the tasks. It is refused for memory alone.
fn task_rows<R: Readings>(
    alloc: Global,
    readings: &R,
    places: &Places,
) -> Result<Vec<TaskRow>, AllocError>
    requires { ArePlacesOf places.now (R.history readings.now) }
    ensures { IfOk result (λ rows. AreTaskRows rows.items (R.history readings.now) (forked_count (R.history readings.now))) }
{
    let before = readings.retired_tasks();
    let mut rows = Vec::new(alloc);
    for index in 0..readings.tasks() - before {
        let task = before + 1 + index;
        let Some(forked) = readings.forking(task) else {
            unreachable!();
        };
        rows.push(task_row(readings, places, task, forked))?;
    }
    Ok(rows)
}

/// The rows of the scopes. It is refused for memory alone.
fn scope_rows<R: Readings>(
    alloc: Global,
    readings: &R,
    places: &Places,
) -> Result<Vec<ScopeRow>, AllocError>
    requires { ArePlacesOf places.now (R.history readings.now) }
    ensures { IfOk result (λ rows. AreScopeRows rows.items (R.history readings.now) (opened_count (R.history readings.now))) }
{
    let before = readings.retired_scopes();
    let mut rows = Vec::new(alloc);
    for index in 0..readings.scopes() - before {
        let scope = before + 1 + index;
        let Some(opened) = readings.opening(scope) else {
            unreachable!();
        };
        rows.push(scope_row(readings, places, scope, opened))?;
    }
    Ok(rows)
}

/// The columns of what was read; the events are those of its history. Its time is that of its events and numbers, each
/// looked at a few times.
///
/// # Errors
/// It is refused for memory alone.
pub fn columns_of<R: Readings>(
    alloc: Global,
    readings: &R,
    events: &[Event],
) -> Result<Columns, AllocError>
    requires { events.now ≡ (R.history readings.now).events }
    ensures { IfOk result (λ columns. AreColumnsOf columns (R.history readings.now)) }
{
    let places = places_of(alloc, readings, events)?;
    Ok(Columns {
        tasks_before: readings.retired_tasks(),
        tasks: task_rows(alloc, readings, &places)?,
        scopes_before: readings.retired_scopes(),
        scopes: scope_rows(alloc, readings, &places)?,
    })
}
