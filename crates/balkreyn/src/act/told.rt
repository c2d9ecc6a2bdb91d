//! Which cancels a task reports to the observer, each once.
ghost use Rattle.std.specs.Prelude.{[], ◌≡◌};
ghost use Rattle.balkreyn.specs.{Tells, TellsOf, cause_behind, cause_in, tells};

use crate::act::hooks::Happening;
use realm_lock::{Joined, Mark};
use scope_rules::{Cause, CauseKind, Outcome, Refusal, ScopeId, Verdict};
use std::alloc::Global;

/// The cancels that a task has reported, so that it reports none twice.
#[derive(Drop)]
pub(crate) struct Told {
    /// Whether there is an observer.
    hears: bool,
    /// The scope in which the task was forked; main was forked in none. Each scope that the task opens is later.
    around: Option<ScopeId>,
    /// The scopes whose cancels it has reported, but those that it has closed.
    scopes: Vec<ScopeId>,
}

impl Told {
    /// None is reported yet by a task that was forked in this scope.
    pub(crate) fn nothing(alloc: Global, hears: bool, around: Option<ScopeId>) -> Told
        ensures { (result.hears ≡ hears) × (result.around ≡ around) × (result.scopes.items ≡ []) }
    {
        Told {
            hears,
            around,
            scopes: Vec::new(alloc),
        }
    }

    /// What the task reports when it sees that a scope was cancelled for this cause. A cancel for which there is no memory
    /// to note it may be reported again.
    fn seen(&mut self, cause: Cause) -> Option<Happening>
        ensures { Tells self.old self.new cause result }
    {
        if !self.tells(cause) {
            return None;
        }
        if self.scopes.contains(&cause.scope) {
            return None;
        }
        let _noted = self.scopes.push(cause.scope);
        Some(Happening::Cancelled {
            scope: cause.scope,
            kind: cause.kind,
        })
    }

    /// The same of what a join gives. If all tasks were waited for and none failed, the scope isn't cancelled, and its log
    /// isn't read.
    fn joined(&mut self, joined: &Joined) -> Option<Happening>
        ensures { TellsOf self.old self.new (cause_behind joined.now.outcome (cause_in joined.now.log.entries)) result }
    {
        match &joined.outcome {
            Outcome::All(_) | Outcome::Done | Outcome::Empty => None,
            _ => match joined.log.cause() {
                Some(cause) => self.seen(cause),
                None => None,
            },
        }
    }

    /// The same of what a checkpoint showed.
    pub(crate) fn by_mark(&mut self, shown: &Option<Mark>) -> Option<Happening> {
        match shown {
            Some(mark) => self.seen(mark.cause),
            None => None,
        }
    }

    /// The same of how a sleep ended.
    pub(crate) fn by_sleep(&mut self, slept: &Result<Option<Mark>, Refusal>) -> Option<Happening> {
        match slept {
            Ok(shown) => self.by_mark(shown),
            Err(_refusal) => None,
        }
    }

    /// The same of what a join answered.
    pub(crate) fn by_join(&mut self, answered: &Result<Joined, Refusal>) -> Option<Happening> {
        match answered {
            Ok(joined) => self.joined(joined),
            Err(_refusal) => None,
        }
    }

    /// Whether this task reports such a cancel, if it hasn't yet.
    fn tells(&self, cause: Cause) -> bool
        ensures { result ≡ tells self.now cause }
    {
        let owns = match self.around {
            Some(around) => around < cause.scope,
            None => true,
        };
        let is_its = match cause.kind {
            CauseKind::Call => false,
            CauseKind::Close => true,
            CauseKind::Joiner | CauseKind::Deadline => owns,
        };
        self.hears && is_its
    }

    /// Forgets the scopes that a close of this one closed, if it did: the task sees them no more.
    pub(crate) fn closed(&mut self, scope: ScopeId, closed: &Result<Verdict, Refusal>)
        ensures { (self.new.hears ≡ self.old.hears) × (self.new.around ≡ self.old.around) }
    {
        if closed.is_ok() {
            self.forget(scope);
        }
    }

    /// Forgets this scope, and all that are later.
    fn forget(&mut self, scope: ScopeId)
        ensures { (self.new.hears ≡ self.old.hears) × (self.new.around ≡ self.old.around) }
    {
        self.scopes.retain(|told| *told < scope);
    }
}
