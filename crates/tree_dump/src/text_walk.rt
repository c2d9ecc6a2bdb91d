//! The walk over the tree.
ghost use Rattle.std.specs.Prelude.{◌++◌, ◌+◌, ◌≡◌, ◌≤◌, IfOk, OnOk, string_bytes};
ghost use Rattle.tree_dump.specs.{Passes, TextTree.nested, clock_of, moment, moment_line, scope_check, scope_line, task_line, tree_by, tree_text};

use crate::ages::{Ages, ShownSpan, due_in, scope_age, scope_late, task_age};
use crate::text_lines::{AgedScope, Indent, ShownMoment, ShownTask};
use crate::told::info_at;
use crate::waits::{ShownWait, task_wait};
use scope_checks::Readings;
use scope_rules::types::capacity::LEVEL_LIMIT;
use scope_rules::types::infos::ScopeInfo;
use scope_rules::types::values::MAIN;
use scope_rules::{ScopeId, TaskId};
use std::alloc::{AllocError, Global};

/// Appends the line of the scope at this depth. It is refused for memory alone.
pub(crate) fn append_scope_line<R: Readings>(
    readings: &R,
    ages: &Ages<'_>,
    text: &mut String,
    depth: u32,
    info: ScopeInfo,
) -> Result<(), AllocError>
    requires { Passes (scope_check (R.history readings.now) info.scope) }
    ensures { OnOk result (string_bytes text.new ≡ string_bytes text.old ++ scope_line (clock_of ages.now) (R.history readings.now) depth info) }
{
    let counts = readings.counts(info.scope);
    let shown = AgedScope {
        info,
        counts,
        due: due_in(ages, info),
        age: scope_age(readings, ages, info.scope),
        late: scope_late(readings, ages, info),
    };
    write!(text, "{}{shown}\n", Indent(depth))
}

/// Appends the line of the task at this depth, if it was forked since the base. It is refused for memory alone.
#[tactic(auto, using(scope_checks::proofs::Checked::task_passes), unfolding(crate::specs::TextTree::task_line, scope_rules::specs::Nests::label))]
pub(crate) fn append_task_line<R: Readings>(
    readings: &R,
    ages: &Ages<'_>,
    text: &mut String,
    depth: u32,
    task: TaskId,
) -> Result<(), AllocError>
    ensures { OnOk result (string_bytes text.new ≡ string_bytes text.old ++ task_line (clock_of ages.now) (R.history readings.now) depth task) }
{
    let Some(forking) = readings.forking(task) else {
        return Ok(());
    };
    let stage = readings.stage(task);
    let shown = ShownTask {
        task,
        name: forking.label.name,
        stage,
        state: readings.state(task),
    };
    let running = ShownSpan(" for ", task_age(readings, ages, task, stage));
    let waits = ShownWait {
        words: ", ",
        now: ages.last,
        wait: task_wait(readings, ages, task, stage),
    };
    write!(text, "{}{shown}{running}{waits}\n", Indent(depth))
}

/// Appends the lines of what stands where the scope may lie, at this depth: the scope with its tasks and what
/// lies inside, down to so many levels. It is refused for memory alone, and may then have appended some of them.
pub(crate) fn append_scope<R: Readings>(
    readings: &R,
    ages: &Ages<'_>,
    text: &mut String,
    levels: u32,
    depth: u32,
    place: Option<ScopeId>,
) -> Result<(), AllocError>
    requires { depth + (levels + levels) ≤ 64 }
    ensures { OnOk result (string_bytes text.new ≡ string_bytes text.old ++ nested (clock_of ages.now) (R.history readings.now) levels depth place) }
{
    if levels == 0 {
        return Ok(());
    }
    let Some(info) = info_at(readings, place) else {
        return Ok(());
    };
    append_scope_line(readings, ages, text, depth, info)?;
    let within = depth + 1;
    for index in 0..readings.tasks() as usize {
        let Some(task) = readings.task_at(info.scope, index) else {
            break;
        };
        append_task_line(readings, ages, text, within, task)?;
        append_scope(
            readings,
            ages,
            text,
            levels - 1,
            within + 1,
            readings.outermost(task),
        )?;
    }
    append_scope(
        readings,
        ages,
        text,
        levels - 1,
        within,
        readings.inner(info.scope),
    )
}

/// The line with the moment, with the last reading of the clock, if it was read, and with the call in which main waits, if it
/// does. It is refused for memory alone.
pub(crate) fn begun<R: Readings>(
    alloc: Global,
    readings: &R,
    ages: &Ages<'_>,
) -> Result<String, AllocError>
    ensures { IfOk result (λ text. string_bytes text ≡ moment_line (moment (R.history readings.now)) (clock_of ages.now).now (clock_of ages.now).main) }
{
    let line = ShownMoment {
        moment: readings.moment(),
        now: ages.last,
        main: ages.waits.main,
    };
    format!(in alloc; "{line}")
}

/// The tree of what was read, as text, without ages. It is refused for memory alone.
pub fn tree_of<R: Readings>(alloc: Global, readings: &R) -> Result<String, AllocError>
    ensures { IfOk result (λ text. string_bytes text ≡ tree_text (R.history readings.now)) }
{
    tree_with(alloc, readings, &Ages::none())
}

/// The tree of what was read, as text, with ages: how long each task waits or runs, how long each scope is open, and in how
/// long its deadline comes, or how late it is by that; and in which call each actor waits. An age is the last reading less the reading of that task's fork or
/// start, or of that scope's opening. It is refused for memory alone.
#[tactic(auto, unfolding(crate::specs::TextTree::tree_by))]
pub fn tree_with<R: Readings>(
    alloc: Global,
    readings: &R,
    ages: &Ages<'_>,
) -> Result<String, AllocError>
    ensures { IfOk result (λ text. string_bytes text ≡ tree_by (clock_of ages.now) (R.history readings.now)) }
{
    let mut text = begun(alloc, readings, ages)?;
    match readings.outermost(MAIN) {
        None => text.push_str("nothing is open\n")?,
        root => append_scope(readings, ages, &mut text, LEVEL_LIMIT, 0, root)?,
    }
    Ok(text)
}
