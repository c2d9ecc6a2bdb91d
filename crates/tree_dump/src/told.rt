//! What a walk over the tree reads of a scope and of a task.
ghost use Rattle.std.specs.Prelude.{◌≡◌, IfSome, option_and_then};
ghost use Rattle.tree_dump.specs.{Passes, info, scope_check, task_told};

use scope_checks::{Readings, queries};
use scope_rules::types::infos::ScopeInfo;
use scope_rules::{Label, ScopeId, Stage, State, TaskId};

/// What there is to say of a task.
#[derive(Clone, Copy)]
pub struct TaskTold {
    pub task: TaskId,
    pub label: Label,
    pub stage: Stage,
    pub state: State,
    /// Its outermost scope.
    pub inner: Option<ScopeId>,
}

/// What there is to say of the scope, if there is one and it was opened since the base.
#[tactic(auto, using(crate::proofs::Answered::info_ok, crate::proofs::Answered::info_err, crate::proofs::Answered::info_passes))]
pub(crate) fn info_at<R: Readings>(readings: &R, place: Option<ScopeId>) -> Option<ScopeInfo>
    ensures info { result ≡ option_and_then (info (R.history readings.now)) place }
    ensures passes { IfSome result (λ i. Passes (scope_check (R.history readings.now) i.scope)) }
{
    match queries::info(readings, place?) {
        Ok(info) => Some(info),
        Err(_) => None,
    }
}

/// What there is to say of the task, if it was forked since the base.
#[tactic(auto, using(scope_checks::proofs::Checked::task_passes), unfolding(crate::specs::Tree::task_told, scope_rules::specs::Nests::label))]
pub(crate) fn task_told<R: Readings>(readings: &R, task: TaskId) -> Option<TaskTold>
    ensures { result ≡ task_told (R.history readings.now) task }
{
    let forking = readings.forking(task)?;
    Some(TaskTold {
        task,
        label: forking.label,
        stage: readings.stage(task),
        state: readings.state(task),
        inner: readings.outermost(task),
    })
}
