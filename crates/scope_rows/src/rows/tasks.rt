//! What the events of tasks make of the rows.

ghost use Rattle.std.specs.Prelude.{ℕ, ◌≡◌, ◌≤◌, length};
ghost use Rattle.scope_rows.specs.{Accepts, AreRowsOf, CanBeTaken, CanFinish, CanFork, Finish, Fork, HasCountRoom, History, Label, Legal, Limits, Reject, Start, Steps.finished, count_finish, count_fork, count_taken, followed};
ghost use Rattle.scope_rows.specs.{forked, is_cancelled, new_task_row, rejected, scope_of, started, state_at_end, taken};

use crate::records::TaskRow;
use crate::rows::Rows;
use scope_rules::{Counts, End, ScopeId, Stage, State, TaskId};

impl Rows {
    /// The row of the task that is forked in the scope by the event at the place, which has the next
    /// number. If its scope is cancelled it never runs. There is room for it.
    pub fn fork(&mut self, scope: ScopeId, place: u32, cancelled: bool)
        requires room { 1 ≤ self.old.task_room }
        requires there { CanFork self.old scope }
        ensures rows { self.new ≡ forked self.old scope place cancelled }
        ensures agrees { (L : Limits) (h : History) (actor : ℕ) (label : Label) → Legal L h → Accepts L h (Fork actor scope label) → AreRowsOf h self.old → place ≡ length h.events → cancelled ≡ is_cancelled h scope → AreRowsOf (followed h (Fork actor scope label)) self.new }
    {
        let row = self.scopes.get_mut(scope);
        row.counts = with_fork(row.counts, cancelled);
        self.tasks.push(new_row(scope, place, cancelled));
    }

    /// The task, which waits, gets no thread.
    pub fn reject(&mut self, task: TaskId)
        requires { CanBeTaken self.old task }
        ensures rows { self.new ≡ rejected self.old task }
        ensures agrees { (L : Limits) (h : History) → Legal L h → Accepts L h (Reject task) → AreRowsOf h self.old → AreRowsOf (followed h (Reject task)) self.new }
    {
        self.take(task, Stage::Never);
    }

    /// The task, which waits, runs.
    pub fn start(&mut self, task: TaskId)
        requires { CanBeTaken self.old task }
        ensures rows { self.new ≡ started self.old task }
        ensures agrees { (L : Limits) (h : History) → Legal L h → Accepts L h (Start task) → AreRowsOf h self.old → AreRowsOf (followed h (Start task)) self.new }
    {
        self.take(task, Stage::Running);
    }

    /// The task, which waits, is at the stage: it runs, or never does.
    fn take(&mut self, task: TaskId, stage: Stage)
        requires { CanBeTaken self.old task }
        ensures { self.new ≡ taken self.old task stage }
    {
        let taken = self.tasks.get_mut(task);
        taken.stage = stage;
        let row = self.scopes.get_mut(taken.scope);
        row.counts = with_taken(row.counts, stage);
    }

    /// The task, which runs, ends. If its scope is cancelled, the end can't be read.
    pub fn finish(&mut self, task: TaskId, end: End, cancelled: bool)
        requires { CanFinish self.old task }
        ensures rows { self.new ≡ finished self.old task end cancelled }
        ensures agrees { (L : Limits) (h : History) → Legal L h → Accepts L h (Finish task end) → AreRowsOf h self.old → cancelled ≡ is_cancelled h (scope_of self.old task) → AreRowsOf (followed h (Finish task end)) self.new }
    {
        let ended = self.tasks.get_mut(task);
        ended.stage = Stage::Finished;
        ended.state = state_at_end(end, cancelled);
        let row = self.scopes.get_mut(ended.scope);
        row.counts = with_finish(row.counts);
    }
}

/// The row of a task that is forked in the scope by the event at the place.
fn new_row(scope: ScopeId, place: u32, cancelled: bool) -> TaskRow
    ensures { result ≡ new_task_row scope place cancelled }
{
    TaskRow {
        scope,
        place,
        innermost: 0,
        stage: if cancelled {
            Stage::Never
        } else {
            Stage::Waiting
        },
        state: State::Unavailable,
    }
}

/// The counts with a task more, which never runs if its scope is cancelled.
fn with_fork(counts: Counts, cancelled: bool) -> Counts
    requires { HasCountRoom counts }
    ensures { result ≡ count_fork cancelled counts }
{
    if cancelled {
        Counts {
            never: counts.never + 1,
            ..counts
        }
    } else {
        Counts {
            waiting: counts.waiting + 1,
            ..counts
        }
    }
}

/// The counts if a task that waited is at the stage: it runs, or never does.
fn with_taken(counts: Counts, stage: Stage) -> Counts
    requires waits { 1 ≤ counts.waiting }
    requires room { HasCountRoom counts }
    ensures { result ≡ count_taken stage counts }
{
    let mut taken = counts;
    taken.waiting -= 1;
    match stage {
        Stage::Running => taken.running += 1,
        _ => taken.never += 1,
    }
    taken
}

/// The counts if a task that ran has finished.
fn with_finish(counts: Counts) -> Counts
    requires runs { 1 ≤ counts.running }
    requires room { HasCountRoom counts }
    ensures { result ≡ count_finish counts }
{
    Counts {
        running: counts.running - 1,
        finished: counts.finished + 1,
        ..counts
    }
}

/// What can be read of a task that ends so: nothing, if its scope is cancelled.
fn state_at_end(end: End, cancelled: bool) -> State
    ensures { result ≡ state_at_end cancelled end }
{
    if cancelled {
        return State::Unavailable;
    }
    State::by_end(&end)
}
