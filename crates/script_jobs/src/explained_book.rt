//! A book whose refusals are explained.
ghost use Rattle.std.specs.Prelude.{◌≡◌, IfOk, OnErr};
ghost use Rattle.scope_book.specs.Books.{history_of, limits_of, realm_of};
ghost use Rattle.scope_rules.specs.Legal.{Legal};
ghost use Rattle.scope_rules.specs.Origin.{the_start};
ghost use Rattle.scope_rules.specs.Replies.{starting};
ghost use Rattle.scope_script.specs.Replying.{Performs, realm_stopped};
ghost use Rattle.script_jobs.specs.Passed.{Knows};
ghost use Rattle.script_jobs.specs.Whys.{command_why};

use crate::passed::{PassedTasks, pass_tasks};
use crate::whys::{Why, command_why};
use scope_book::BookState;
use scope_rules::{AnyEnd, Event, Limits, ScopeId};
use scope_script::{Command, Reply, perform};
use std::alloc::{AllocError, Global};
use std::collections::BTreeMap;

/// A book, and how far the tasks of its scopes have ended.
#[derive(Drop)]
pub(crate) struct ExplainedBook {
    book: BookState<AnyEnd>,
    passed: PassedTasks,
    ghost knows: { Knows (history_of book) passed },
}

impl ExplainedBook {
    /// The book of a fresh realm. It takes no memory.
    pub(crate) fn new(alloc: Global, limits: Limits) -> ExplainedBook
        ensures { realm_of result.book ≡ starting limits the_start }
    {
        ExplainedBook {
            book: BookState::over(alloc, limits, Vec::new(alloc)),
            passed: BTreeMap::new(alloc),
        }
    }

    /// The book.
    pub(crate) fn book(&self) -> &BookState<AnyEnd>
        ensures { result.now ≡ self.now.book }
    {
        &self.book
    }

    /// Why the book refuses the command, if it does. A task that a scope was found not to wait for is not looked at
    /// again.
    pub(crate) fn why(&mut self, command: &Command) -> Option<Why>
        ensures why { result ≡ command_why (realm_of self.old.book) command.now }
        ensures same { self.new.book ≡ self.old.book }
    {
        if let Some(scope) = awaited_scope(command) {
            pass_tasks(&mut self.passed, self.book.realm(), scope);
        }
        command_why(&self.book, &self.passed, command)
    }

    /// Performs the command, as `perform` does.
    pub(crate) fn perform(&mut self, command: &Command) -> Result<Reply, AllocError>
        requires { Legal (limits_of self.old.book) (history_of self.old.book) }
        ensures performs { IfOk result (λ said. Performs (realm_of self.old.book) command.now (realm_of self.new.book) said) }
        ensures stopped { OnErr result (realm_of self.new.book ≡ realm_stopped (realm_of self.old.book) command.now) }
    {
        let before = self.book.realm().event_count();
        let done = perform(&mut self.book, command);
        if self.book.realm().event_count() < before {
            self.passed.clear();
        }
        done
    }
}

/// The scope that the command joins or closes.
fn awaited_scope(command: &Command) -> Option<ScopeId> {
    match command {
        Command::Do(Event::Join { scope, .. } | Event::EndClose { scope, .. }) => Some(*scope),
        _ => None,
    }
}
