//! How the index applies each accepted event. `place` is the number of events before that one. If a call
//! may be refused, it is for memory alone, and then nothing has changed.

ghost use Rattle.std.specs.Prelude.{ℕ, ◌<◌, ◌^◌, ◌≡◌, OnErr, OnOk, Some, option_map};
ghost use Rattle.scope_index.specs.{HasApplied, HasAppliedAt, HasRoomToFork, HasRow, HasTask, History, IsIndexOf, IsReadyAt, IsReadyFor, Label, Legal, Limits, all_counts, forked_in, forking, is_cancelled, scope_of, surrounding};

use crate::closing::cancel_covered;
use crate::completing::complete;
use crate::index::RealmIndex;
use join_rules::StoredTest;
use scope_rules::types::records::Opening;
use scope_rules::{
    Actor, CauseKind, Completion, Counts, End, Event, Name, Options, Policy, ScopeId, TaskId, Value,
};
use std::alloc::AllocError;

/// The events of scopes.
impl RealmIndex {
    /// The actor opened a scope; `listed` says whether a closure of the caller's is shown its
    /// completions.
    pub(crate) fn open(
        &mut self,
        actor: Actor,
        policy: Policy,
        options: Options,
        listed: bool,
        place: usize,
    ) -> Result<(), AllocError>
        requires { IsReadyAt self.old (Event.Open actor policy options) place }
        ensures followed { OnOk result (HasAppliedAt self.old (Event.Open actor policy options) place self.new) }
        ensures refused { OnErr result ((L : Limits) (h : History) → Legal L h → IsIndexOf h self.old → IsIndexOf h self.new) }
    {
        let parent = self.surrounding(actor);
        let height = self.envs.stack_len(actor);
        self.rows.reserve_scope()?;
        self.forks.reserve_scope()?;
        self.deadlines.reserve_scope()?;
        self.cancels.open(parent, policy, options, listed, place)?;
        let opening = Opening {
            place,
            actor,
            policy,
            options,
        };
        self.rows.open(opening, parent, height);
        self.forks.open();
        self.deadlines.open(options.deadline);
        Ok(())
    }

    /// The scope was cancelled by a call.
    pub(crate) fn cancel(&mut self, scope: ScopeId, place: usize)
        requires { IsReadyAt self.old (Event.Cancel scope) place }
        ensures { HasAppliedAt self.old (Event.Cancel scope) place self.new }
    {
        self.cancels.cancel(scope, CauseKind::Call, place);
    }

    /// The deadline of the scope was moved, in milliseconds, or taken away.
    pub(crate) fn move_deadline(
        &mut self,
        scope: ScopeId,
        deadline: Option<u64>,
        place: usize,
    ) -> Result<(), AllocError>
        requires { IsReadyAt self.old (Event.Move scope deadline) place }
        ensures followed { OnOk result (HasAppliedAt self.old (Event.Move scope deadline) place self.new) }
        ensures refused { OnErr result (self.new ≡ self.old) }
    {
        self.cancels.move_deadline(scope, deadline, place)?;
        self.deadlines.set(scope, deadline);
        Ok(())
    }

    /// The realm's time was set, in milliseconds.
    pub(crate) fn tick(&mut self, now: u64, place: usize)
        requires { IsReadyAt self.old (Event.Tick now) place }
        ensures { HasAppliedAt self.old (Event.Tick now) place self.new }
    {
        self.cancels.tick(now, place);
    }

    /// The scope was joined.
    pub(crate) fn join(&mut self, scope: ScopeId, place: usize)
        requires { (actor : ℕ) × IsReadyAt self.old (Event.Join actor scope) place }
        ensures { (actor : ℕ) → HasAppliedAt self.old (Event.Join actor scope) place self.new }
    {
        self.cancels.join(scope);
        self.rows.join(scope, place);
    }

    /// The actor began the close of its scope, which covers each scope that the actor opened later and
    /// has not closed.
    pub(crate) fn begin_close(&mut self, actor: Actor, scope: ScopeId, place: usize)
        requires { IsReadyAt self.old (Event.BeginClose actor scope) place }
        ensures { HasAppliedAt self.old (Event.BeginClose actor scope) place self.new }
    {
        let from = self.rows.innermost(actor);
        cancel_covered(&self.rows, &mut self.cancels, from, scope, place);
        self.rows.begin_close(actor, scope);
    }

    /// The close of the scope ended.
    pub(crate) fn end_close(&mut self, actor: Actor, scope: ScopeId)
        requires { IsReadyFor self.old (Event.EndClose actor scope) }
        ensures { HasApplied self.old (Event.EndClose actor scope) self.new }
    {
        self.rows.end_close(actor, scope);
    }
}

/// The events of tasks.
impl RealmIndex {
    /// The actor forked the next task in the scope.
    pub(crate) fn fork(
        &mut self,
        actor: Actor,
        scope: ScopeId,
        place: usize,
    ) -> Result<(), AllocError>
        requires { (label : Label) × IsReadyAt self.old (Event.Fork actor scope label) place }
        ensures followed { OnOk result ((label : Label) → HasAppliedAt self.old (Event.Fork actor scope label) place self.new) }
        ensures refused { OnErr result ((L : Limits) (h : History) → Legal L h → IsIndexOf h self.old → IsIndexOf h self.new) }
    {
        let cancelled = self.is_cancelled(scope);
        let more = self.room_to_fork(scope);
        let task = self.rows.last_task() + 1;
        self.rows.reserve_task()?;
        self.forks.reserve(scope)?;
        self.cancels.reserve(scope, more)?;
        self.envs.fork(actor)?;
        self.rows.fork(scope, place as u32, cancelled);
        self.forks.fork(scope, task);
        Ok(())
    }

    /// How much room the list of the scope's completions wants beside what it has, so that each task
    /// forked in it, and one more, may complete.
    fn room_to_fork(&self, scope: ScopeId) -> usize
        requires { HasRow self.now.cancels scope }
        ensures { (L : Limits) (h : History) → Legal L h → IsIndexOf h self.now → HasRoomToFork h self.now.cancels scope result }
    {
        let completed = self.cancels.account(scope).seen().len();
        match self.rows.scope(scope) {
            Some(row) => (all_counts(row.counts) + 1).saturating_sub(completed),
            None => 1,
        }
    }

    /// No thread was available for the task.
    pub(crate) fn reject(&mut self, task: TaskId)
        requires { IsReadyFor self.old (Event.Reject task) }
        ensures { HasApplied self.old (Event.Reject task) self.new }
    {
        self.rows.reject(task);
    }

    /// The task's thread has come.
    pub(crate) fn start(&mut self, task: TaskId)
        requires { IsReadyFor self.old (Event.Start task) }
        ensures { HasApplied self.old (Event.Start task) self.new }
    {
        self.rows.start(task);
    }
}

/// The ends of tasks.
impl RealmIndex {
    /// The task ended. Its scope's account has the completion, and if the joiner fires at it, the
    /// scope is cancelled. `test` is the caller's closure, if the joiner has one: it is asked if the
    /// scope was not cancelled.
    pub(crate) fn finish(&mut self, task: TaskId, end: End, test: Option<&StoredTest>, place: usize)
        requires { IsReadyAt self.old (Event.Finish task end) place }
        ensures { HasAppliedAt self.old (Event.Finish task end) place self.new }
    {
        let scope = self.scope_of(task);
        let cancelled = self.is_cancelled(scope);
        let asked = if cancelled { None } else { test };
        complete(
            &mut self.cancels,
            scope,
            Completion { task, end },
            asked,
            place,
        );
        self.rows.finish(task, end, cancelled);
    }

    /// The scope that the task was forked in.
    fn scope_of(&self, task: TaskId) -> ScopeId
        requires { HasTask self.now.rows task }
        ensures row { result ≡ scope_of self.now.rows task }
        ensures agrees { (h : History) → IsIndexOf h self.now → option_map (λ f. f.scope) (forking h task) ≡ Some result }
    {
        match self.rows.task(task) {
            Some(row) => row.scope,
            None => unreachable!(),
        }
    }
}

/// The events of bindings.
impl RealmIndex {
    /// The actor bound the key to the value.
    pub(crate) fn bind(&mut self, actor: Actor, key: Name, value: Value) -> Result<(), AllocError>
        requires { IsReadyFor self.old (Event.Bind actor (record { key = key; value = value })) }
        ensures followed { OnOk result (HasApplied self.old (Event.Bind actor (record { key = key; value = value })) self.new) }
        ensures refused { OnErr result (self.new ≡ self.old) }
    {
        self.envs.bind(actor, key, value)?;
        Ok(())
    }

    /// The actor's last own binding was taken away.
    pub(crate) fn unbind(&mut self, actor: Actor)
        requires { IsReadyFor self.old (Event.Unbind actor) }
        ensures { HasApplied self.old (Event.Unbind actor) self.new }
    {
        self.envs.unbind(actor);
    }
}

/// What applying an event reads of the index.
impl RealmIndex {
    /// Whether the scope is cancelled.
    fn is_cancelled(&self, scope: ScopeId) -> bool
        ensures { (L : Limits) (h : History) → Legal L h → IsIndexOf h self.now → result ≡ is_cancelled h scope }
    {
        match self.rows.scope(scope) {
            Some(_) => self.cancels.is_cancelled(scope),
            None => false,
        }
    }

    /// The scope that lies around whatever the actor opens next.
    #[tactic(auto, unfolding(scope_rules::specs::Scopes::surrounding))]
    fn surrounding(&self, actor: Actor) -> Option<ScopeId>
        ensures { (L : Limits) (h : History) → Legal L h → IsIndexOf h self.now → result ≡ surrounding h actor }
    {
        match self.rows.innermost(actor) {
            Some(scope) => Some(scope),
            None => self.forked_in(actor),
        }
    }

    /// The scope that the actor was forked in, if it is a task.
    #[tactic(auto, unfolding(scope_rules::specs::Scopes::forked_in))]
    fn forked_in(&self, actor: Actor) -> Option<ScopeId>
        ensures { (h : History) → IsIndexOf h self.now → result ≡ forked_in h actor }
    {
        match self.rows.task(actor) {
            Some(row) => Some(row.scope),
            None => None,
        }
    }
}

/// How many tasks the counts come to.
fn all_counts(counts: Counts) -> usize
    ensures sum { result ≡ all_counts counts }
    ensures small { result < 2 ^ 34 }
{
    counts.never as usize
        + counts.waiting as usize
        + (counts.running as usize + counts.finished as usize)
}
