//! The own deadline of each scope: that of its last move, or else of its opening, whether it counts still
//! or not.

ghost use Rattle.std.specs.Prelude.{[], ℕ, ◌≡◌, ◌≤◌, OnErr, OnOk};
ghost use Rattle.scope_rows.specs.{AreDeadlinesOf, HasDeadline, History, Legal, Limits, Move, Open, Options, Origin, Policy, deadline, deadline_in, followed, no_deadlines, with_deadline, with_open};

use crate::numbered::Numbered;
use scope_rules::ScopeId;
use std::alloc::{AllocError, Global};
use std::marker::Model;

/// The own deadline of each scope that was opened since a realm began, in order of the scopes' numbers.
/// Each call takes constant time.
#[derive(Drop)]
pub struct OwnDeadlines {
    deadlines: Numbered<Option<u64>>,
}

impl Model for OwnDeadlines {
    ghost use Rattle.scope_rows.specs.DeadlineTable.{DeadlineTable};

    ghost Value = { DeadlineTable };

    ghost view = { λ d. record { before = d.deadlines.before; deadlines = d.deadlines.items; spare = d.deadlines.spare } };
}

impl OwnDeadlines {
    /// No scopes, if so many were numbered before. It takes no memory; that of later calls comes
    /// from `alloc`.
    pub fn new(alloc: Global, before: u32) -> OwnDeadlines
        ensures table { result ≡ no_deadlines before }
        ensures agrees { (base : Origin) → base.scopes ≡ before → AreDeadlinesOf (record { base = base; events = [] }) result }
    {
        OwnDeadlines {
            deadlines: Numbered::new(alloc, before),
        }
    }

    /// Leaves no scopes, if so many were numbered before. It keeps the memory, and takes none.
    pub fn reset(&mut self, before: u32)
        ensures agrees { (base : Origin) → base.scopes ≡ before → AreDeadlinesOf (record { base = base; events = [] }) self.new }
    {
        self.deadlines.reset(before);
    }

    /// The scope's own deadline, in milliseconds, if it has one.
    pub fn of(&self, scope: ScopeId) -> Option<u64>
        requires { HasDeadline self.now scope }
        ensures table { result ≡ deadline_in self.now scope }
        ensures agrees { (h : History) → AreDeadlinesOf h self.now → result ≡ deadline h scope }
    {
        *self.deadlines.get(scope)
    }

    /// Makes room for one scope more. It is refused for memory alone, and then changes nothing.
    pub fn reserve_scope(&mut self) -> Result<(), AllocError>
        ensures ok { OnOk result (1 ≤ self.new.spare) }
        ensures kept { self.new ≡ record self.old { spare = self.new.spare } }
        ensures agrees { (h : History) → AreDeadlinesOf h self.old → AreDeadlinesOf h self.new }
        ensures err { OnErr result (self.new ≡ self.old) }
    {
        self.deadlines.reserve()
    }

    /// Adds a scope, for which there is room: it has the next number, and this deadline. It takes no
    /// memory.
    pub fn open(&mut self, deadline: Option<u64>)
        requires { 1 ≤ self.old.spare }
        ensures kept { self.new ≡ with_open self.old deadline }
        ensures agrees { (L : Limits) (h : History) (actor : ℕ) (policy : Policy) (options : Options) → Legal L h → options.deadline ≡ deadline → AreDeadlinesOf h self.old → AreDeadlinesOf (followed h (Open actor policy options)) self.new }
    {
        self.deadlines.push(deadline);
    }

    /// Moves the scope's deadline, or takes it away. It takes no memory.
    pub fn set(&mut self, scope: ScopeId, deadline: Option<u64>)
        requires { HasDeadline self.old scope }
        ensures kept { self.new ≡ with_deadline self.old scope deadline }
        ensures agrees { (h : History) → AreDeadlinesOf h self.old → AreDeadlinesOf (followed h (Move scope deadline)) self.new }
    {
        *self.deadlines.get_mut(scope) = deadline;
    }
}
