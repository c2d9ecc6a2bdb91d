//! The readings that checks and queries go by, read off the index. Of a scope or task without a row it says
//! what the rules say of one that was never opened or forked.

ghost use Rattle.std.specs.Prelude.{ℕ, ◌&&◌, ◌<◌, ◌==◌, ◌^◌, ◌≡◌, IsSome, MatchOption, Some, if◌then◌else◌, is_some, not, option_map};
ghost use Rattle.realm_state.specs.{AreCancelsOf, AreEnvsOf, AreRowsOf, Fork, IsNextDeadline, IsScopeRow, IsTaskRow, Label, Legal, NoDeadlineComes, Passes, actor_check, bare_of, counts_some, forked_in, forking, forking_of, level};
ghost use Rattle.realm_state.specs.{opened_as_high, opening, outcome, outcome_check, surrounding, tasks_of};

use crate::realm::RealmState;
use scope_checks::Readings;
use scope_index::{BareOutcome, CancelIndex};
use scope_rows::{Rows, ScopeRow, TaskRow};
use scope_rules::types::answers::{Counts, Effective, Stage, State, Verdict};
use scope_rules::types::events::Event;
use scope_rules::types::names::Name;
use scope_rules::types::outcomes::Outcome;
use scope_rules::types::records::{FirstCancel, Forking, Opening};
use scope_rules::types::values::{Actor, ScopeId, TaskId, Value};
use scoped_env::Envs;
use std::alloc::{AllocError, Global};

/// The parts, as those of the realm's history, which is legal.
impl RealmState {
    /// The rows of scopes and tasks.
    fn rows(&self) -> &Rows
        ensures { AreRowsOf self.now.history result.now × Legal self.now.limits self.now.history }
    {
        let _legal = self.journal.limits();
        self.index.rows()
    }

    /// What is cancelled, and the moment.
    fn cancels(&self) -> &CancelIndex
        ensures { AreCancelsOf self.now.history result.now × Legal self.now.limits self.now.history }
    {
        let _legal = self.journal.limits();
        self.index.cancels()
    }

    /// The deadline that comes next, in milliseconds: the earliest after the moment, of the scopes that aren't
    /// joined, closed or cancelled.
    pub fn next_deadline(&self) -> Option<u64>
        ensures { MatchOption result (NoDeadlineComes self.now.history) (IsNextDeadline self.now.history) }
    {
        self.cancels().next_deadline()
    }

    /// What the actors see bound.
    fn envs(&self) -> &Envs
        ensures { AreEnvsOf self.now.history result.now × Legal self.now.limits self.now.history }
    {
        let _legal = self.journal.limits();
        self.index.envs()
    }

    /// The row of the scope, if it was opened since the base.
    fn scope_row(&self, scope: ScopeId) -> Option<&ScopeRow>
        ensures { MatchOption result (opening self.now.history scope ≡ None) (λ row. IsScopeRow self.now.history scope row.now) × Legal self.now.limits self.now.history }
    {
        self.rows().scope(scope)
    }

    /// The row of the task, if it was forked since the base.
    fn task_row(&self, task: TaskId) -> Option<&TaskRow>
        ensures { MatchOption result (forking self.now.history task ≡ None) (λ row. IsTaskRow self.now.history task row.now) × Legal self.now.limits self.now.history }
    {
        self.rows().task(task)
    }

    /// The tasks of the scope, which was opened since the base, in fork order.
    #[tactic(auto, using(crate::proofs::There::forks_there))]
    pub fn tasks_of(&self, scope: ScopeId) -> &[TaskId]
        requires { IsSome (opening self.now.history scope) }
        ensures { result.now ≡ tasks_of self.now.history scope }
    {
        self.index.forks().of(scope)
    }

    /// What the join of the scope answered, without the lists. It takes no memory, and constant time.
    #[tactic(auto, using(crate::proofs::There::joined_there, crate::proofs::There::joined_row, crate::proofs::There::joined_forks))]
    pub fn bare_outcome(&self, scope: ScopeId) -> BareOutcome
        requires { Passes (outcome_check self.now.history scope) }
        ensures { option_map bare_of (outcome self.now.history scope) ≡ Some result }
    {
        scope_index::bare_outcome(self.rows(), self.cancels(), self.index.forks(), scope)
    }

    /// The scope that lies around whatever the actor opens next.
    #[tactic(auto, unfolding(scope_rules::specs::Scopes::surrounding))]
    fn surrounding(&self, actor: Actor) -> Option<ScopeId>
        ensures { (result ≡ surrounding self.now.history actor) × Legal self.now.limits self.now.history }
    {
        match self.rows().innermost(actor) {
            Some(scope) => Some(scope),
            None => self.scope_of_task(actor),
        }
    }

    /// The scope that the task was forked in, if it was since the base. It reads no event.
    #[tactic(auto, unfolding(scope_rules::specs::Scopes::forked_in))]
    fn scope_of_task(&self, task: TaskId) -> Option<ScopeId>
        ensures { result ≡ forked_in self.now.history task }
    {
        match self.task_row(task) {
            Some(row) => Some(row.scope),
            None => None,
        }
    }

    /// Whether the actor has at most as many own pairs as at the opening of the scope.
    #[tactic(auto, using(crate::proofs::There::env_there))]
    fn is_as_high(&self, actor: Actor, scope: ScopeId) -> bool
        requires { Passes (actor_check self.now.history actor) }
        ensures { result ≡ opened_as_high self.now.history actor scope }
    {
        match self.scope_row(scope) {
            Some(row) => self.envs().stack_len(actor) <= row.height,
            None => false,
        }
    }
}

impl Readings for RealmState {
    ghost history = { λ r. r.history };

    fn retired_scopes(&self) -> u32 {
        self.rows().scopes_before()
    }

    fn retired_tasks(&self) -> u32 {
        self.rows().tasks_before()
    }

    fn scopes(&self) -> u32 {
        let _small = self.journal.event_count();
        self.rows().last_scope()
    }

    fn tasks(&self) -> u32 {
        let _small = self.journal.event_count();
        self.rows().last_task()
    }

    fn load(&self) -> u64 {
        self.journal.load()
    }

    fn moment(&self) -> u64 {
        self.cancels().moment()
    }

    fn opening(&self, scope: ScopeId) -> Option<Opening> {
        match self.scope_row(scope) {
            Some(row) => Some(row.opening),
            None => None,
        }
    }

    #[tactic(auto, using(crate::proofs::There::fork_within, crate::proofs::There::fork_read, crate::proofs::There::fork_there))]
    fn forking(&self, task: TaskId) -> Option<Forking> {
        let row = self.task_row(task)?;
        let place = row.place as usize;
        Some(forking_at(&self.event(place), place, row.scope))
    }

    fn forked_in(&self, task: TaskId) -> Option<ScopeId> {
        self.scope_of_task(task)
    }

    #[tactic(auto, using(scope_rows::proofs::Joinings::joined_is_some, crate::proofs::NeverOpened::unjoined))]
    fn joined(&self, scope: ScopeId) -> bool {
        match self.scope_row(scope) {
            Some(row) => row.joined.is_some(),
            None => false,
        }
    }

    #[tactic(auto, using(crate::proofs::NeverOpened::not_closing))]
    fn closing(&self, scope: ScopeId) -> bool {
        match self.scope_row(scope) {
            Some(row) => row.closing,
            None => false,
        }
    }

    #[tactic(auto, using(crate::proofs::NeverOpened::unclosed))]
    fn closed(&self, scope: ScopeId) -> bool {
        match self.scope_row(scope) {
            Some(row) => row.closed,
            None => false,
        }
    }

    #[tactic(auto, using(crate::proofs::There::row_there, scope_index::proofs::NeverOpened::uncancelled))]
    fn is_cancelled(&self, scope: ScopeId) -> bool {
        match self.scope_row(scope) {
            Some(_) => self.cancels().is_cancelled(scope),
            None => false,
        }
    }

    #[tactic(auto, using(crate::proofs::NeverOpened::settled_where, crate::proofs::NeverOpened::settled_alone))]
    fn settled(&self, scope: ScopeId) -> bool {
        match self.scope_row(scope) {
            Some(row) => is_settled(row.counts),
            None => true,
        }
    }

    #[tactic(auto, using(crate::proofs::NeverOpened::never_staged))]
    fn stage(&self, task: TaskId) -> Stage {
        match self.task_row(task) {
            Some(row) => row.stage,
            None => Stage::Never,
        }
    }

    fn innermost(&self, actor: Actor) -> Option<ScopeId> {
        self.rows().innermost(actor)
    }

    #[tactic(auto, using(crate::proofs::There::around_there, crate::proofs::NeverOpened::next_level_in), unfolding(scope_rules::specs::Scopes::next_level))]
    fn next_level(&self, actor: Actor) -> u64 {
        match self.surrounding(actor) {
            Some(scope) => u64::from(self.cancels().level(scope)) + 1,
            None => 1,
        }
    }

    #[tactic(auto, using(crate::proofs::There::env_there))]
    fn stack_len(&self, actor: Actor) -> u64 {
        self.envs().stack_len(actor) as u64
    }

    #[tactic(auto, using(crate::proofs::There::env_there))]
    fn bound_as_opened(&self, actor: Actor, scope: ScopeId) -> bool {
        match self.scope_row(scope) {
            Some(row) => self.envs().stack_len(actor) == row.height,
            None => false,
        }
    }

    #[tactic(auto, using(crate::proofs::NeverOpened::held_where, crate::proofs::NeverOpened::held_by_none))]
    fn holds_last(&self, actor: Actor) -> bool {
        match self.rows().innermost(actor) {
            Some(scope) => self.is_as_high(actor, scope),
            None => false,
        }
    }

    #[tactic(auto, using(crate::proofs::There::env_there))]
    fn bound(&self, actor: Actor, key: Name) -> Option<Value> {
        self.envs().get(actor, key)
    }

    #[tactic(auto, using(crate::proofs::There::task_there))]
    fn state(&self, task: TaskId) -> State {
        match self.task_row(task) {
            Some(row) => row.state,
            None => unreachable!(),
        }
    }

    #[tactic(auto, using(crate::proofs::There::scope_there))]
    fn counts(&self, scope: ScopeId) -> Counts {
        match self.scope_row(scope) {
            Some(row) => row.counts,
            None => unreachable!(),
        }
    }

    #[tactic(auto, using(crate::proofs::There::row_there, scope_index::proofs::NeverOpened::no_first_cancel))]
    fn first_cancel(&self, scope: ScopeId) -> Option<FirstCancel> {
        match self.scope_row(scope) {
            Some(_) => self.cancels().first_cancel(scope),
            None => None,
        }
    }

    #[tactic(auto, using(crate::proofs::There::deadline_there))]
    fn deadline(&self, scope: ScopeId) -> Option<u64> {
        self.index.deadlines().of(scope)
    }

    #[tactic(auto, using(crate::proofs::There::row_passed))]
    fn effective(&self, scope: ScopeId) -> Effective {
        self.cancels().effective_deadline(scope)
    }

    #[tactic(auto, using(crate::proofs::Closed::verdict_where))]
    fn verdict(&self, scope: ScopeId) -> Verdict {
        match self.scope_row(scope) {
            Some(row) => verdict_of(row),
            None => unreachable!(),
        }
    }

    #[tactic(auto, using(crate::proofs::There::joined_there, crate::proofs::There::joined_row, crate::proofs::There::joined_forks))]
    fn outcome(&self, alloc: Global, scope: ScopeId) -> Result<Outcome, AllocError> {
        scope_index::outcome(
            alloc,
            self.rows(),
            self.cancels(),
            self.index.forks(),
            scope,
        )
    }

    #[tactic(auto, using(crate::proofs::There::opened_there))]
    fn task_at(&self, scope: ScopeId, index: usize) -> Option<TaskId> {
        self.tasks_of(scope).get(index).copied()
    }

    fn outermost(&self, actor: Actor) -> Option<ScopeId> {
        scope_rows::nests::outermost(self.rows(), actor)
    }

    fn inner(&self, scope: ScopeId) -> Option<ScopeId> {
        scope_rows::nests::inner(self.rows(), scope)
    }
}

/// The forking that the event at the place is, a fork in the scope.
fn forking_at(event: &Event, place: usize, scope: ScopeId) -> Forking
    requires { (actor : ℕ) × (label : Label) × (event.now ≡ Fork actor scope label) }
    ensures { Some result ≡ forking_of place event.now }
{
    match *event {
        Event::Fork { actor, label, .. } => Forking {
            place,
            actor,
            scope,
            label,
        },
        _ => unreachable!(),
    }
}

/// Whether none of the tasks waits, and none runs.
fn is_settled(counts: Counts) -> bool
    ensures { result ≡ ((counts.waiting == 0) && (counts.running == 0)) }
{
    counts.waiting == 0 && counts.running == 0
}

/// How the scope of the row was closed.
fn verdict_of(row: &ScopeRow) -> Verdict
    ensures { result ≡ (if row.now.violated then Verdict.Violated else (if counts_some row.now.counts && not (is_some row.now.joined) then Verdict.NotJoined else Verdict.Plain)) }
{
    if row.violated {
        return Verdict::Violated;
    }
    if has_tasks(row.counts) && row.joined.is_none() {
        return Verdict::NotJoined;
    }
    Verdict::Plain
}

/// Whether a task is counted at any stage.
fn has_tasks(counts: Counts) -> bool
    ensures { result ≡ counts_some counts }
{
    let ended = u64::from(counts.never) + u64::from(counts.finished);
    let unended = u64::from(counts.waiting) + u64::from(counts.running);
    0 < ended + unended
}
