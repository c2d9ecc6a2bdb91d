//! The walk over the tree, which is sent to a serializer as it goes.
ghost use Rattle.std.specs.Prelude.{◌≡◌, IfOk, None, OnOk, length, option_map, string_bytes};
ghost use Rattle.tree_dump.specs.{Passes, SendsValue, Tree.nested, array, clock_of, dump_data, dump_text, scope_check, task_shown, tasks_of, tasks_shown};

use crate::ages::{Ages, scope_since, task_times};
use crate::members::{
    scope_members, send_cause, send_ended, send_flag, send_joiner, send_number, send_result,
    send_since, send_started, send_text, send_time, task_members,
};
use crate::told::{TaskTold, info_at, task_told};
use crate::words::{expiry_word, scope_stage_word};
use scope_checks::Readings;
use scope_rules::types::values::MAIN;
use scope_rules::{ScopeId, TaskId};
use serde::{Described, Serialize, Serializer};
use std::alloc::{AllocError, Global};

/// How many levels of scopes there can be.
pub(crate) const LEVELS: u8 = 16;

/// Sends what stands where the scope may lie: the scope with what lies inside it, down to so many levels, or null. With
/// ages each scope has a member more, since when it is open, and each task three: when it started, when it ended, and what it
/// gave.
#[cycle(send_scope)]
pub(crate) fn send_scope<R: Readings, S: Serializer>(
    readings: &R,
    ages: Option<&Ages<'_>>,
    alloc: Global,
    out: &mut S,
    levels: u8,
    place: Option<ScopeId>,
) -> Result<(), S::Error>
    ensures { OnOk result (SendsValue (nested (option_map (λ a. clock_of a.now) ages.entry) (R.history readings.now) levels place) (S.written out.old) (S.written out.new)) }
{
    if levels == 0 {
        return out.unit();
    }
    let Some(info) = info_at(readings, place) else {
        return out.unit();
    };
    let since = scope_since(readings, ages, info.scope);
    out.begin_map(Some(scope_members(since)))?;
    send_cause(out, "cause", info.cause)?;
    send_time(out, "deadline", info.deadline)?;
    send_text(out, "expiry", expiry_word(info.expiry))?;
    send_number(out, "id", info.scope)?;
    out.key("inner")?;
    send_scope(
        readings,
        ages,
        alloc,
        out,
        levels - 1,
        readings.inner(info.scope),
    )?;
    send_flag(out, "joined", info.joined)?;
    send_joiner(alloc, out, "joiner", info.policy)?;
    send_number(out, "owner", info.owner)?;
    send_flag(out, "shield", info.shield)?;
    send_since(out, since)?;
    send_text(out, "stage", scope_stage_word(info.stage))?;
    out.key("tasks")?;
    send_tasks(readings, ages, alloc, out, levels - 1, info.scope)?;
    out.end_map()
}

/// How many tasks were forked in the scope.
#[tactic(auto, using(crate::proofs::Sent::tasks_counted))]
fn task_count<R: Readings>(readings: &R, scope: ScopeId) -> usize
    requires { Passes (scope_check (R.history readings.now) scope) }
    ensures { result ≡ length (tasks_of (R.history readings.now) scope) }
{
    let counts = readings.counts(scope);
    counts.never as usize
        + counts.waiting as usize
        + counts.running as usize
        + counts.finished as usize
}

/// Sends the list of the scope's tasks, in fork order.
#[cycle(send_scope)]
fn send_tasks<R: Readings, S: Serializer>(
    readings: &R,
    ages: Option<&Ages<'_>>,
    alloc: Global,
    out: &mut S,
    levels: u8,
    scope: ScopeId,
) -> Result<(), S::Error>
    requires { Passes (scope_check (R.history readings.now) scope) }
    ensures { OnOk result (SendsValue (array (tasks_shown (option_map (λ a. clock_of a.now) ages.entry) (R.history readings.now) (nested (option_map (λ a. clock_of a.now) ages.entry) (R.history readings.now) levels) scope)) (S.written out.old) (S.written out.new)) }
{
    let count = task_count(readings, scope);
    out.begin_seq(Some(count))?;
    for index in 0..count {
        let Some(task) = readings.task_at(scope, index) else {
            unreachable!()
        };
        send_task(readings, ages, alloc, out, levels, task)?;
    }
    out.end_seq()
}

/// Sends the task with what lies inside it, down to so many levels; null if it was not forked since the base.
#[cycle(send_scope)]
fn send_task<R: Readings, S: Serializer>(
    readings: &R,
    ages: Option<&Ages<'_>>,
    alloc: Global,
    out: &mut S,
    levels: u8,
    task: TaskId,
) -> Result<(), S::Error>
    ensures { OnOk result (SendsValue (task_shown (option_map (λ a. clock_of a.now) ages.entry) (R.history readings.now) (nested (option_map (λ a. clock_of a.now) ages.entry) (R.history readings.now) levels) task) (S.written out.old) (S.written out.new)) }
{
    let Some(told) = task_told(readings, task) else {
        return out.unit();
    };
    let times = task_times(readings, ages, told.task, told.stage);
    out.begin_map(Some(task_members(times)))?;
    send_ended(out, times)?;
    send_number(out, "id", told.task)?;
    out.key("inner")?;
    send_scope(readings, ages, alloc, out, levels, told.inner)?;
    send_text(out, "name", told.label.name.as_str())?;
    send_result(out, times, told.state)?;
    send_started(out, times)?;
    send_text(out, "stage", told.stage.word())?;
    send_text(out, "state", told.state.word())?;
    out.end_map()
}

/// The tree of what is read.
#[derive(Drop)]
struct Tree<'a, R> {
    readings: &'a R,
    alloc: Global,
}

impl<R: Readings> Described for Tree<'_, R> {
    ghost writes = { λ tree. SendsValue (dump_data (R.history tree.readings.now)) };
}

impl<R: Readings> Serialize for Tree<'_, R> {
    fn serialize<S: Serializer>(&self, out: &mut S) -> Result<(), S::Error> {
        out.begin_map(Some(2))?;
        send_time(out, "moment", Some(self.readings.moment()))?;
        out.key("root")?;
        send_scope(
            self.readings,
            None,
            self.alloc,
            out,
            LEVELS,
            self.readings.outermost(MAIN),
        )?;
        out.end_map()
    }
}

/// The tree of what was read, as JSON without blanks. It is refused for memory alone.
pub fn dump_of<R: Readings>(alloc: Global, readings: &R) -> Result<String, AllocError>
    ensures { IfOk result (λ text. string_bytes text ≡ dump_text (R.history readings.now)) }
{
    match serde_json::to_string(alloc, &Tree { readings, alloc }) {
        Ok(text) => Ok(text),
        Err(_) => Err(AllocError),
    }
}
