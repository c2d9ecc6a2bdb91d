//! How long tasks run and scopes are open, by a clock.
ghost use Rattle.std.specs.Prelude.{◌≡◌, Some, option_map};
ghost use Rattle.tree_dump.specs.{clock_of, due_in, late_by, no_clock, option_and_then, reading_in, runs_or_ran, scope_age, scope_late, scope_since, since, span_text, task_age, task_reading, task_times, with_waits};

use crate::waits::Waits;
use scope_checks::Readings;
use scope_rules::types::infos::ScopeInfo;
use scope_rules::{ScopeId, Stage, TaskId};
use std::fmt;

/// Readings of a clock, in milliseconds since the realm began. Without any no age is shown.
#[derive(Clone, Copy)]
pub struct Ages<'a> {
    /// The last reading, if the clock was read.
    pub last: Option<u32>,
    /// By task since the last retirement, the reading as it was forked.
    pub forked: &'a [u32],
    /// By task since the last retirement, the reading as it started.
    pub started: &'a [u32],
    /// By task since the last retirement, the reading as it ended.
    pub ended: &'a [u32],
    /// By scope since the last retirement, the reading as it was opened.
    pub opened: &'a [u32],
    /// In which calls actors wait.
    pub waits: Waits<'a>,
}

impl<'a> Ages<'a> {
    /// Without readings.
    pub fn none() -> Ages<'a>
        ensures { clock_of result ≡ no_clock }
    {
        Ages {
            last: None,
            forked: &[],
            started: &[],
            ended: &[],
            opened: &[],
            waits: Waits::none(),
        }
    }

    /// The same readings, and these waits.
    pub fn with(self, waits: Waits<'a>) -> Ages<'a>
        ensures { clock_of result ≡ with_waits (clock_of self.entry) waits.entry }
    {
        Ages { waits, ..self }
    }
}

/// What there is for the number, of those behind `before`.
pub(crate) fn reading_in<T: Copy>(readings: &[T], before: u32, number: u32) -> Option<T>
    ensures { result ≡ reading_in readings.now before number }
{
    if before < number {
        readings.get((number - before - 1) as usize).copied()
    } else {
        None
    }
}

/// How long it is since a reading, if there is one, and the clock was read.
fn since(ages: &Ages<'_>, reading: Option<u32>) -> Option<u64>
    ensures { result ≡ option_and_then (since (clock_of ages.now)) reading }
{
    match (ages.last, reading) {
        (Some(last), Some(reading)) => Some(u64::from(last.saturating_sub(reading))),
        _ => None,
    }
}

/// The reading as the task started, if it runs, or as it was forked, if it waits, if that is known.
fn task_reading<R: Readings>(
    readings: &R,
    ages: &Ages<'_>,
    task: TaskId,
    stage: Stage,
) -> Option<u32>
    ensures { result ≡ task_reading (clock_of ages.now) (R.history readings.now) task stage }
{
    match stage {
        Stage::Waiting => reading_in(ages.forked, readings.retired_tasks(), task),
        Stage::Running => reading_in(ages.started, readings.retired_tasks(), task),
        _ => None,
    }
}

/// How long the task waits or runs, in milliseconds, if it does and the reading as that began is known.
pub(crate) fn task_age<R: Readings>(
    readings: &R,
    ages: &Ages<'_>,
    task: TaskId,
    stage: Stage,
) -> Option<u64>
    ensures { result ≡ task_age (clock_of ages.now) (R.history readings.now) task stage }
{
    since(ages, task_reading(readings, ages, task, stage))
}

/// How long the scope is open, in milliseconds, if the reading as it was opened is known.
pub(crate) fn scope_age<R: Readings>(readings: &R, ages: &Ages<'_>, scope: ScopeId) -> Option<u64>
    ensures { result ≡ scope_age (clock_of ages.now) (R.history readings.now) scope }
{
    since(
        ages,
        reading_in(ages.opened, readings.retired_scopes(), scope),
    )
}

/// The reading as the scope was opened, if it is known. Without ages none is told.
pub(crate) fn scope_since<R: Readings>(
    readings: &R,
    ages: Option<&Ages<'_>>,
    scope: ScopeId,
) -> Option<Option<u32>>
    ensures { result ≡ option_map (λ c. scope_since c (R.history readings.now) scope) (option_map (λ a. clock_of a.now) ages.entry) }
{
    match ages {
        Some(ages) => Some(reading_in(ages.opened, readings.retired_scopes(), scope)),
        None => None,
    }
}

/// Whether a task at this stage runs or ran.
fn runs_or_ran(stage: Stage) -> bool
    ensures { result ≡ runs_or_ran stage }
{
    matches!(stage, Stage::Running | Stage::Finished)
}

/// The readings as a task started and ended, each if it did and the reading is known.
#[derive(Clone, Copy)]
pub(crate) struct TaskTimes {
    pub(crate) ended: Option<u32>,
    pub(crate) since: Option<u32>,
}

/// When the task started, if it runs or ran, and when it ended. Without ages none is told.
pub(crate) fn task_times<R: Readings>(
    readings: &R,
    ages: Option<&Ages<'_>>,
    task: TaskId,
    stage: Stage,
) -> Option<TaskTimes>
    ensures { result ≡ option_map (λ c. task_times c (R.history readings.now) task stage) (option_map (λ a. clock_of a.now) ages.entry) }
{
    let ages = ages?;
    let before = readings.retired_tasks();
    let started = reading_in(ages.started, before, task);
    let ended = reading_in(ages.ended, before, task);
    Some(TaskTimes {
        ended: if stage == Stage::Finished {
            ended
        } else {
            None
        },
        since: if runs_or_ran(stage) { started } else { None },
    })
}

/// How late it is by now, if the deadline is past and the scope is not joined.
fn late_by(ages: &Ages<'_>, joined: bool, deadline: Option<u64>) -> Option<u64>
    ensures { result ≡ late_by (clock_of ages.now) joined deadline }
{
    let now = u64::from(ages.last?);
    match deadline {
        Some(deadline) if !joined && deadline < now => Some(now - deadline),
        _ => None,
    }
}

/// How late the scope is, in milliseconds, if its deadline is past, it is not joined, and the reading as it was opened is
/// known.
pub(crate) fn scope_late<R: Readings>(readings: &R, ages: &Ages<'_>, info: ScopeInfo) -> Option<u64>
    ensures { result ≡ scope_late (clock_of ages.now) (R.history readings.now) info }
{
    match scope_age(readings, ages, info.scope) {
        Some(_) => late_by(ages, info.joined, info.deadline),
        None => None,
    }
}

/// In how long the deadline of the scope comes, in milliseconds, if it is not past, and can do something: the scope isn't
/// joined or cancelled.
pub(crate) fn due_in(ages: &Ages<'_>, info: ScopeInfo) -> Option<u64>
    ensures { result ≡ due_in (clock_of ages.now) info }
{
    let now = u64::from(ages.last?);
    match info.deadline {
        Some(deadline) if !info.joined && info.cause.is_none() && now <= deadline => {
            Some(deadline - now)
        }
        _ => None,
    }
}

/// These words, and behind them so many milliseconds, from a second on as seconds with tenths; nothing if none are known.
#[derive(Clone, Copy)]
pub(crate) struct ShownSpan(pub(crate) &'static str, pub(crate) Option<u64>);

impl fmt::Display for ShownSpan {
    ghost output = { λ s. Some (span_text s.0.now s.1) };

    #[tactic(auto, unfolding(crate::specs::Ages::span_text))]
    fn fmt<W: fmt::Write>(&self, f: &mut fmt::Formatter<W>) -> fmt::Result {
        let words = self.0;
        match self.1 {
            None => Ok(()),
            Some(millis) if millis < 1000 => write!(f, "{words}{millis} ms"),
            Some(millis) => write!(f, "{words}{}.{} s", millis / 1000, millis / 100 % 10),
        }
    }
}
