//! Parts of the tree as text: what is waited for alone, or some levels. A last line sums up all that is open.
ghost use Rattle.std.specs.Prelude.{◌++◌, ◌≡◌, IfOk, OnOk, Some, count_by, string_bytes};
ghost use Rattle.tree_dump.specs.{Passes, awaited, awaited_if, awaited_sums, awaited_task, clock_of, ended_sums, filter, flat_map, is_shown, is_stage, is_unclosed, is_unsettled, levels_from, part_text, scope_check};
ghost use Rattle.tree_dump.specs.{scope_numbers, settled, stands, sums, sums_text, task_line, task_numbers, waits};

use crate::ages::Ages;
use crate::text_walk::{append_scope, append_scope_line, append_task_line, begun, tree_with};
use crate::told::info_at;
use scope_checks::Readings;
use scope_rules::types::capacity::LEVEL_LIMIT;
use scope_rules::types::values::MAIN;
use scope_rules::{ScopeId, Stage, TaskId};
use std::alloc::{AllocError, Global};
use std::fmt;

/// What of a tree is shown.
#[derive(Clone, Copy)]
pub enum TreePart {
    /// All of it, without the line of sums.
    Whole,
    /// The scopes that wait for tasks, the oldest first, each with its tasks that wait or run.
    Awaited,
    /// A part of the tree.
    Levels {
        /// How many levels of scopes are shown.
        depth: u32,
        /// The scope that is shown with what is inside it, or else main's outermost one.
        scope: Option<ScopeId>,
    },
}

/// How many scopes are not closed, and how many of their tasks are at each stage.
#[derive(Clone, Copy)]
pub struct Sums {
    pub scopes: u64,
    pub waiting: u64,
    pub running: u64,
    pub finished: u64,
    pub never: u64,
}

/// How many scopes are not closed.
#[tactic(auto, using(std::proofs::lemmas::Grind::common_steps, crate::proofs::Parted::count_more))]
fn open_scopes<R: Readings>(readings: &R) -> u64
    ensures { result ≡ count_by (is_unclosed (R.history readings.now)) (scope_numbers (R.history readings.now)) }
{
    let before = readings.retired_scopes();
    let last = readings.scopes();
    let mut count = 0;
    for index in 0..last - before {
        if !readings.closed(before + 1 + index) {
            count += 1;
        }
    }
    count
}

/// Whether the stage is the one that is wanted.
fn is_stage(wanted: Stage, stage: Stage) -> bool
    ensures { result ≡ is_stage wanted stage }
{
    match wanted {
        Stage::Never => matches!(stage, Stage::Never),
        Stage::Waiting => matches!(stage, Stage::Waiting),
        Stage::Running => matches!(stage, Stage::Running),
        Stage::Finished => matches!(stage, Stage::Finished),
    }
}

/// Whether the task is at the stage, and its scope is not closed.
fn is_shown<R: Readings>(readings: &R, wanted: Stage, task: TaskId) -> bool
    ensures { result ≡ is_shown (R.history readings.now) wanted task }
{
    match readings.forking(task) {
        Some(forking) => {
            is_stage(wanted, readings.stage(task)) && !readings.closed(forking.scope)
        }
        None => false,
    }
}

/// How many such tasks there are. It looks at each task since the base.
#[tactic(auto, using(std::proofs::lemmas::Grind::common_steps, crate::proofs::Parted::count_more))]
fn tasks_shown<R: Readings>(readings: &R, wanted: Stage) -> u64
    ensures { result ≡ count_by (is_shown (R.history readings.now) wanted) (task_numbers (R.history readings.now)) }
{
    let before = readings.retired_tasks();
    let last = readings.tasks();
    let mut count = 0;
    for index in 0..last - before {
        if is_shown(readings, wanted, before + 1 + index) {
            count += 1;
        }
    }
    count
}

/// What all that is open sums up to.
fn sums_of<R: Readings>(readings: &R) -> Sums
    ensures { result ≡ sums (R.history readings.now) }
{
    Sums {
        scopes: open_scopes(readings),
        waiting: tasks_shown(readings, Stage::Waiting),
        running: tasks_shown(readings, Stage::Running),
        finished: tasks_shown(readings, Stage::Finished),
        never: tasks_shown(readings, Stage::Never),
    }
}

/// Appends what all that is open sums up to. It is refused for memory alone.
fn append_sums<R: Readings>(readings: &R, text: &mut String) -> Result<(), AllocError>
    ensures { OnOk result (string_bytes text.new ≡ string_bytes text.old ++ sums_text (sums (R.history readings.now))) }
{
    let sums = sums_of(readings);
    let awaited = ShownAwaited(sums);
    let ended = ShownEnded(sums);
    write!(text, "{awaited}, {ended}\n")
}

/// How many scopes are not closed, and how many of their tasks wait or run.
#[derive(Clone, Copy)]
struct ShownAwaited(Sums);

impl fmt::Display for ShownAwaited {
    ghost output = { λ s. Some (awaited_sums s.0) };

    fn fmt<W: fmt::Write>(&self, f: &mut fmt::Formatter<W>) -> fmt::Result {
        let scopes = self.0.scopes;
        let waiting = self.0.waiting;
        let running = self.0.running;
        write!(
            f,
            "open in all: scopes {scopes}, tasks waiting {waiting}, running {running}"
        )
    }
}

/// How many of their tasks have come to an end.
#[derive(Clone, Copy)]
struct ShownEnded(Sums);

impl fmt::Display for ShownEnded {
    ghost output = { λ s. Some (ended_sums s.0) };

    fn fmt<W: fmt::Write>(&self, f: &mut fmt::Formatter<W>) -> fmt::Result {
        let finished = self.0.finished;
        let never = self.0.never;
        write!(f, "finished {finished}, never started {never}")
    }
}

/// Whether a task at this stage waits or runs.
fn waits(stage: Stage) -> bool
    ensures { result ≡ waits stage }
{
    matches!(stage, Stage::Waiting | Stage::Running)
}

/// Appends the line of the task, if it waits or runs. It is refused for memory alone.
#[tactic(auto, unfolding(crate::specs::TreeParts::awaited_task))]
fn append_awaited_task<R: Readings>(
    readings: &R,
    ages: &Ages<'_>,
    text: &mut String,
    task: TaskId,
) -> Result<(), AllocError>
    ensures { OnOk result (string_bytes text.new ≡ string_bytes text.old ++ awaited_task (clock_of ages.now) (R.history readings.now) task) }
{
    if waits(readings.stage(task)) {
        append_task_line(readings, ages, text, 1, task)
    } else {
        Ok(())
    }
}

/// Appends the lines of the scope's tasks that wait or run. It is refused for memory alone.
fn append_awaited_tasks<R: Readings>(
    readings: &R,
    ages: &Ages<'_>,
    text: &mut String,
    scope: ScopeId,
) -> Result<(), AllocError>
    requires { Passes (scope_check (R.history readings.now) scope) }
    ensures { OnOk result (string_bytes text.new ≡ string_bytes text.old ++ flat_map (task_line (clock_of ages.now) (R.history readings.now) 1) (filter (is_unsettled (R.history readings.now) scope) (task_numbers (R.history readings.now)))) }
{
    for index in 0..readings.tasks() as usize {
        let Some(task) = readings.task_at(scope, index) else {
            break;
        };
        append_awaited_task(readings, ages, text, task)?;
    }
    Ok(())
}

/// Whether no task of the scope waits or runs.
#[tactic(auto, using(crate::proofs::Awaiting::settled_is))]
fn is_settled<R: Readings>(readings: &R, scope: ScopeId) -> bool
    requires { Passes (scope_check (R.history readings.now) scope) }
    ensures { result ≡ settled (R.history readings.now) scope }
{
    let counts = readings.counts(scope);
    counts.waiting == 0 && counts.running == 0
}

/// Appends the lines of the scope and of its tasks that wait or run, if it is not closed and there are such tasks. It is
/// refused for memory alone.
#[tactic(auto, unfolding(crate::specs::TreeParts::awaited_scope))]
fn append_awaited_scope<R: Readings>(
    readings: &R,
    ages: &Ages<'_>,
    text: &mut String,
    scope: ScopeId,
) -> Result<(), AllocError>
    ensures { OnOk result (string_bytes text.new ≡ string_bytes text.old ++ awaited_if (clock_of ages.now) (R.history readings.now) scope) }
{
    let Some(info) = info_at(readings, Some(scope)) else {
        return Ok(());
    };
    if readings.closed(scope) {
        return Ok(());
    }
    if is_settled(readings, info.scope) {
        return Ok(());
    }
    append_scope_line(readings, ages, text, 0, info)?;
    append_awaited_tasks(readings, ages, text, info.scope)
}

/// Appends all that is waited for. It is refused for memory alone.
#[tactic(auto, using(std::proofs::lemmas::Grind::common_steps, crate::proofs::Parted::scopes_more))]
fn append_awaited<R: Readings>(
    readings: &R,
    ages: &Ages<'_>,
    text: &mut String,
) -> Result<(), AllocError>
    ensures { OnOk result (string_bytes text.new ≡ string_bytes text.old ++ awaited (clock_of ages.now) (R.history readings.now)) }
{
    let before = readings.retired_scopes();
    let last = readings.scopes();
    for index in 0..last - before {
        append_awaited_scope(readings, ages, text, before + 1 + index)?;
    }
    Ok(())
}

/// Whether the scope was opened since the base, and is not closed.
fn stands<R: Readings>(readings: &R, scope: ScopeId) -> bool
    ensures { result ≡ stands (R.history readings.now) scope }
{
    readings.opening(scope).is_some() && !readings.closed(scope)
}

/// Appends so many levels of scopes, from the scope on, or from main's outermost one. It is refused for memory alone.
fn append_levels<R: Readings>(
    readings: &R,
    ages: &Ages<'_>,
    text: &mut String,
    depth: u32,
    scope: Option<ScopeId>,
) -> Result<(), AllocError>
    ensures { OnOk result (string_bytes text.new ≡ string_bytes text.old ++ levels_from (clock_of ages.now) (R.history readings.now) depth scope) }
{
    let levels = depth.min(LEVEL_LIMIT);
    match scope {
        Some(scope) if stands(readings, scope) => {
            append_scope(readings, ages, text, levels, 0, Some(scope))
        }
        Some(scope) => write!(text, "scope {scope} is not open\n"),
        None => match readings.outermost(MAIN) {
            Some(root) => append_scope(readings, ages, text, levels, 0, Some(root)),
            None => text.push_str("nothing is open\n"),
        },
    }
}

/// The part of the tree of what was read, as text, with ages: all of it as `tree_with` has it, or a part between a line
/// with the moment and one that sums up all that is open. It is refused for memory alone.
pub fn tree_part<R: Readings>(
    alloc: Global,
    readings: &R,
    ages: &Ages<'_>,
    part: TreePart,
) -> Result<String, AllocError>
    ensures { IfOk result (λ text. string_bytes text ≡ part_text (clock_of ages.now) (R.history readings.now) part) }
{
    match part {
        TreePart::Whole => tree_with(alloc, readings, ages),
        TreePart::Awaited => {
            let mut text = begun(alloc, readings, ages)?;
            append_awaited(readings, ages, &mut text)?;
            append_sums(readings, &mut text)?;
            Ok(text)
        }
        TreePart::Levels { depth, scope } => {
            let mut text = begun(alloc, readings, ages)?;
            append_levels(readings, ages, &mut text, depth, scope)?;
            append_sums(readings, &mut text)?;
            Ok(text)
        }
    }
}
