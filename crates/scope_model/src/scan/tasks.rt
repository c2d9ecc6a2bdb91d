ghost use Rattle.std.specs.Prelude.{◌+◌, ◌<◌, ◌^◌, ◌≡◌, ◌≤◌};
ghost use Rattle.scope_model.specs.{IfSome, Some, count_by, counts, ending, ending_at, ending_of, finished, forked_count, is_at, is_finished, is_never, is_running};
ghost use Rattle.scope_model.specs.{is_settled, is_stage, is_task_of, is_unsettled, is_waiting, length, list_all, range_with_len, rejected, settled, stage, stage_of, started, state, state_of};
ghost use Rattle.scope_model.specs.{task_numbers};

use crate::scan::view::HistoryView;
use scope_rules::types::answers::{Counts, Stage, State};
use scope_rules::types::events::Event;
use scope_rules::types::records::{Ending, Forking};
use scope_rules::types::values::{ScopeId, TaskId};

impl<'a> HistoryView<'a> {
    /// Whether the task was rejected.
    #[tactic(auto, unfolding(scope_rules::specs::Tasks::rejected))]
    fn rejected(&self, task: TaskId) -> bool
        ensures { result ≡ rejected self.now task }
    {
        self.events().iter().any(
            |event| matches!(*event, Event::Reject { task: rejected } if rejected == task),
        )
    }

    /// Whether the task was started.
    #[tactic(auto, unfolding(scope_rules::specs::Tasks::started))]
    fn started(&self, task: TaskId) -> bool
        ensures { result ≡ started self.now task }
    {
        self.events().iter().any(
            |event| matches!(*event, Event::Start { task: started } if started == task),
        )
    }

    /// Whether the task has ended.
    #[tactic(auto, unfolding(scope_rules::specs::Tasks::finished))]
    fn finished(&self, task: TaskId) -> bool
        ensures { result ≡ finished self.now task }
    {
        self.events().iter().any(
            |event| matches!(*event, Event::Finish { task: finished, .. } if finished == task),
        )
    }

    /// The end of the task, if the event at the place is it.
    fn ending_at(&self, task: TaskId, place: usize) -> Option<Ending>
        requires { place < length self.now.events }
        ensures { result ≡ ending_at self.now task place }
    {
        ending_of(task, place, self.event(place))
    }

    /// The end of the task, with its place.
    #[tactic(auto, using(scope_rules::proofs::Searching::earliest_found, scope_rules::proofs::Searching::earliest_none_step), unfolding(scope_rules::specs::Tasks::ending, scope_rules::specs::Search::earliest))]
    fn ending(&self, task: TaskId) -> Option<Ending>
        ensures { result ≡ ending self.now task }
    {
        for place in 0..self.len() {
            let ending = self.ending_at(task, place);
            if ending.is_some() {
                return ending;
            }
        }
        None
    }

    /// The stage of the task that was forked so.
    #[tactic(auto, unfolding(scope_rules::specs::Tasks::stage_of))]
    fn stage_of(&self, task: TaskId, forking: &Forking) -> Stage
        ensures { result ≡ stage_of self.now task forking.now }
    {
        if self.cancelled_before(forking.scope, forking.place) || self.rejected(task) {
            Stage::Never
        } else if self.finished(task) {
            Stage::Finished
        } else if self.started(task) {
            Stage::Running
        } else {
            Stage::Waiting
        }
    }

    /// The stage of the task.
    #[tactic(auto, unfolding(scope_rules::specs::Tasks::stage))]
    pub fn stage(&self, task: TaskId) -> Stage
        ensures { result ≡ stage self.now task }
    {
        match self.forking(task) {
            Some(forking) => self.stage_of(task, &forking),
            None => Stage::Never,
        }
    }

    /// What can be read of the task: its end, unless that came after its scope's cancel (JEP 505,
    /// `Subtask.state`).
    #[tactic(auto, unfolding(scope_rules::specs::Tasks::state))]
    pub fn state(&self, task: TaskId) -> State
        ensures { result ≡ state self.now task }
    {
        let (Some(forking), Some(ending)) = (self.forking(task), self.ending(task)) else {
            return State::Unavailable;
        };
        if self.cancelled_before(forking.scope, ending.place) {
            return State::Unavailable;
        }
        State::by_end(&ending.end)
    }

    /// Whether the task is one of the scope, at the stage.
    fn is_at(&self, scope: ScopeId, stage: Stage, task: TaskId) -> bool
        ensures { result ≡ is_at self.now scope stage task }
    {
        self.is_task_of(scope, task) && is_stage(stage, self.stage(task))
    }

    /// How many tasks of the scope are at the stage.
    #[tactic(auto, using(scope_rules::proofs::Numbers::count_by_range))]
    fn count_at(&self, scope: ScopeId, stage: Stage) -> u32
        ensures { result ≡ count_by (is_at self.now scope stage) (task_numbers self.now) }
    {
        let mut count = 0;
        for before in 0..self.forked_count() {
            count += u32::from(self.is_at(scope, stage, self.task_after(before)));
        }
        count
    }

    /// How many tasks of the scope are at each stage.
    #[tactic(auto, unfolding(scope_rules::specs::Tasks::counts))]
    pub fn counts(&self, scope: ScopeId) -> Counts
        ensures { result ≡ counts self.now scope }
    {
        Counts {
            never: self.count_at(scope, Stage::Never),
            waiting: self.count_at(scope, Stage::Waiting),
            running: self.count_at(scope, Stage::Running),
            finished: self.count_at(scope, Stage::Finished),
        }
    }

    /// Whether the task is one of the scope that waits or runs.
    fn is_unsettled(&self, scope: ScopeId, task: TaskId) -> bool
        ensures { result ≡ is_unsettled self.now scope task }
    {
        self.is_task_of(scope, task) && !is_settled(self.stage(task))
    }

    /// Whether no task of the scope waits or runs.
    #[tactic(auto, using(scope_rules::proofs::Numbers::list_any_range), unfolding(scope_rules::specs::Tasks::settled))]
    pub fn settled(&self, scope: ScopeId) -> bool
        ensures { result ≡ settled self.now scope }
    {
        let mut unsettled = false;
        for before in 0..self.forked_count() {
            unsettled |= self.is_unsettled(scope, self.task_after(before));
        }
        !unsettled
    }
}

/// The end of the task that the event at the place is, if it is one.
fn ending_of(task: TaskId, place: usize, event: &Event) -> Option<Ending>
    ensures { result ≡ ending_of task place event.now }
{
    match *event {
        Event::Finish {
            task: finished,
            end,
        } => {
            if finished == task {
                Some(Ending { place, end })
            } else {
                None
            }
        }
        _ => None,
    }
}

/// Whether the two stages are one.
fn is_stage(stage: Stage, other: Stage) -> bool
    ensures { result ≡ is_stage stage other }
{
    match stage {
        Stage::Never => matches!(other, Stage::Never),
        Stage::Waiting => matches!(other, Stage::Waiting),
        Stage::Running => matches!(other, Stage::Running),
        Stage::Finished => matches!(other, Stage::Finished),
    }
}

/// Whether a task at the stage will change no more.
fn is_settled(stage: Stage) -> bool
    ensures { result ≡ is_settled stage }
{
    matches!(stage, Stage::Never | Stage::Finished)
}
