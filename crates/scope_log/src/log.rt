//! The log of a scope.

ghost use Rattle.std.specs.Prelude.{◌+◌, ◌<◌, ◌^◌, ◌≡◌, IfOk, length};
ghost use Rattle.scope_log.specs.{cause_in, completions_in, counts_in, outcome_in, preview_in, ready_in, stage_in, state_in};

use crate::entries::LogEntry;
use crate::previews::Preview;
use crate::{outcomes, readings};
use scope_rules::{
    Actor, Cause, Completion, Counts, Expiry, Outcome, Policy, ScopeId, Stage, State, TaskId,
};
use std::alloc::{AllocError, Global};
use std::marker::Model;

/// The log of a scope: its number, what it was opened with, and its entries, in order.
#[derive(Drop)]
pub struct ScopeLog {
    scope: ScopeId,
    policy: Policy,
    expiry: Expiry,
    items: Vec<LogEntry>,
}

impl Model for ScopeLog {
    ghost use Rattle.std.specs.Prelude.{◌<◌, ◌^◌, length};
    ghost use Rattle.scope_log.specs.Log.{LogValue};

    ghost Value = { LogValue };

    ghost view = { λ l. record { scope = l.scope; policy = l.policy; expiry = l.expiry; entries = l.items.items } };

    ghost invariant = { λ l. length l.items.items < 2 ^ 32 };
}

impl ScopeLog {
    /// A log of these parts. No realm makes one of 2^32 entries.
    pub fn new(scope: ScopeId, policy: Policy, expiry: Expiry, entries: Vec<LogEntry>) -> ScopeLog
        requires { length entries.items < 2 ^ 32 }
        ensures { result ≡ record { scope = scope; policy = policy; expiry = expiry; entries = entries.items } }
    {
        ScopeLog {
            scope,
            policy,
            expiry,
            items: entries,
        }
    }

    /// The number of the scope.
    pub fn scope(&self) -> ScopeId
        ensures { result ≡ self.now.scope }
    {
        self.scope
    }

    /// The joiner that the scope was opened with.
    pub fn policy(&self) -> Policy
        ensures { result ≡ self.now.policy }
    {
        self.policy
    }

    /// What the scope's deadline means for its join.
    pub fn expiry(&self) -> Expiry
        ensures { result ≡ self.now.expiry }
    {
        self.expiry
    }

    /// The entries, in order.
    pub fn entries(&self) -> &[LogEntry]
        ensures { result.now ≡ self.now.entries }
    {
        &self.items
    }

    /// Why the scope is cancelled, if it is.
    pub fn cause(&self) -> Option<Cause>
        ensures { result ≡ cause_in self.now.entries }
    {
        readings::cause(&self.items)
    }

    /// How far the task has come. What is no task of the scope never runs.
    pub fn stage(&self, task: TaskId) -> Stage
        ensures { result ≡ stage_in self.now.entries task }
    {
        readings::stage(&self.items, task)
    }

    /// What can be read of the task (JEP 505, `Subtask.state`). Of what is no task of the scope, nothing.
    pub fn state(&self, task: TaskId) -> State
        ensures { result ≡ state_in self.now.entries task }
    {
        readings::state(&self.items, task)
    }

    /// How many tasks of the scope are at each stage.
    pub fn counts(&self) -> Counts
        ensures { result ≡ counts_in self.now.entries }
    {
        readings::counts(&self.items)
    }

    /// Whether the scope may be joined: it is cancelled, or none of its tasks waits or runs.
    pub fn is_ready(&self) -> bool
        ensures { result ≡ ready_in self.now.entries }
    {
        readings::is_ready(&self.items)
    }

    /// The completions of the scope's tasks, in order, those after its cancel too. It is refused if
    /// memory is.
    pub fn completions(&self, alloc: Global) -> Result<Vec<Completion>, AllocError>
        ensures { IfOk result (λ v. v.items ≡ completions_in self.now.entries) }
    {
        readings::completions(alloc, &self.items)
    }

    /// What the join of the scope answered, if it was joined (JEP 505, `join` and the joiners' `result`).
    /// It is refused if memory is.
    pub fn outcome(&self, alloc: Global) -> Result<Option<Outcome>, AllocError>
        ensures { IfOk result (λ o. o ≡ outcome_in self.now) }
    {
        outcomes::outcome(alloc, &self.items, self.scope, self.policy, self.expiry)
    }

    /// What a join of the scope by the actor would give next, if it wasn't joined: what the join would
    /// answer, and the log with the join at its end. It is refused if memory is.
    pub fn into_preview(mut self, alloc: Global, actor: Actor) -> Result<Preview, AllocError>
        requires { length self.entries + 1 < 2 ^ 32 }
        ensures { IfOk result (λ p. p ≡ preview_in actor self) }
    {
        let outcome = outcomes::answer(alloc, &self.items, self.scope, self.policy, self.expiry)?;
        self.items.push(LogEntry::Join { actor })?;
        Ok(Preview { outcome, log: self })
    }
}
