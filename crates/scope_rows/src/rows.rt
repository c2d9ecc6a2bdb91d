//! The rows, and what queries read of them.

ghost use Rattle.std.specs.Prelude.{[], ◌+◌, ◌≡◌, ◌≤◌, MatchOption, None, OnErr, OnOk, Some, length, option_map, slice_get};
ghost use Rattle.scope_rows.specs.{AreRowsOf, HasActor, HasScopeNumbers, HasTaskNumbers, History, IsScopeRow, IsTaskRow, Legal, Limits, Origin, RowTable, empty_table, forked_count, forking, inner_of, innermost, innermost_of};
ghost use Rattle.scope_rows.specs.{opened_count, opening, restarted, scope_row, scopes, task_row, tasks, with_innermost};

use crate::numbered::Numbered;
use crate::records::{ScopeRow, TaskRow};
use scope_rules::types::values::MAIN;
use scope_rules::{Actor, ScopeId, TaskId};
use std::alloc::{AllocError, Global};
use std::marker::Model;

mod scopes;
mod tasks;

/// A row for each scope and each task since the base, and the innermost unclosed scope of each actor.
/// Each call takes constant time, but for `begin_close`, which takes time by the scopes that it covers.
#[derive(Drop)]
pub struct Rows {
    main_innermost: Option<ScopeId>,
    scopes: Numbered<ScopeRow>,
    tasks: Numbered<TaskRow>,
}

impl Model for Rows {
    ghost use Rattle.scope_rows.specs.Table.{RowTable};

    ghost Value = { RowTable };

    ghost view = { λ a. record { scopes_before = a.scopes.before; tasks_before = a.tasks.before; main_innermost = a.main_innermost; scopes = a.scopes.items; tasks = a.tasks.items; scope_room = a.scopes.spare; task_room = a.tasks.spare } };
}

impl Rows {
    /// No rows, if no number was given before. It takes no memory; that of later calls comes from
    /// `alloc`.
    pub fn new(alloc: Global) -> Rows
        ensures rows { result ≡ empty_table 0 0 }
        ensures agrees { (base : Origin) → base.scopes ≡ 0 → base.tasks ≡ 0 → AreRowsOf (record { base = base; events = [] }) result }
    {
        Rows::with_base(alloc, 0, 0)
    }

    /// No rows, if so many scopes and tasks were numbered before. It takes no memory; that of later
    /// calls comes from `alloc`.
    pub fn with_base(alloc: Global, scopes_before: u32, tasks_before: u32) -> Rows
        ensures rows { result ≡ empty_table scopes_before tasks_before }
        ensures agrees { (base : Origin) → base.scopes ≡ scopes_before → base.tasks ≡ tasks_before → AreRowsOf (record { base = base; events = [] }) result }
    {
        Rows {
            main_innermost: None,
            scopes: Numbered::new(alloc, scopes_before),
            tasks: Numbered::new(alloc, tasks_before),
        }
    }

    /// The row of the scope, if it was opened since the base.
    pub fn scope(&self, scope: ScopeId) -> Option<&ScopeRow>
        ensures row { option_map (λ row. row.now) result ≡ scope_row self.now scope }
        ensures agrees { (h : History) → AreRowsOf h self.now → MatchOption result (opening h scope ≡ None) (λ row. IsScopeRow h scope row.now) }
    {
        self.scopes.find(scope)
    }

    /// The row of the task, if it was forked since the base.
    pub fn task(&self, task: TaskId) -> Option<&TaskRow>
        ensures row { option_map (λ row. row.now) result ≡ task_row self.now task }
        ensures agrees { (h : History) → AreRowsOf h self.now → MatchOption result (forking h task ≡ None) (λ row. IsTaskRow h task row.now) }
    {
        self.tasks.find(task)
    }

    /// The latest scope that the actor opened and has not closed.
    pub fn innermost(&self, actor: Actor) -> Option<ScopeId>
        ensures row { result ≡ innermost_of self.now actor }
        ensures agrees { (L : Limits) (h : History) → Legal L h → AreRowsOf h self.now → result ≡ innermost h actor }
    {
        if actor == MAIN {
            return self.main_innermost;
        }
        match self.task(actor) {
            Some(row) => inner_of(row.innermost),
            None => None,
        }
    }

    /// How many scopes were numbered before.
    pub fn scopes_before(&self) -> u32
        ensures before { result ≡ self.now.scopes_before }
        ensures agrees { (h : History) → AreRowsOf h self.now → result ≡ h.base.scopes }
    {
        self.scopes.before()
    }

    /// How many tasks were numbered before.
    pub fn tasks_before(&self) -> u32
        ensures before { result ≡ self.now.tasks_before }
        ensures agrees { (h : History) → AreRowsOf h self.now → result ≡ h.base.tasks }
    {
        self.tasks.before()
    }

    /// How many scopes were opened since the base.
    pub fn opened(&self) -> usize
        ensures count { result ≡ length self.now.scopes }
        ensures agrees { (h : History) → AreRowsOf h self.now → result ≡ opened_count h }
    {
        self.scopes.len()
    }

    /// How many tasks were forked since the base.
    pub fn forked(&self) -> usize
        ensures count { result ≡ length self.now.tasks }
        ensures agrees { (h : History) → AreRowsOf h self.now → result ≡ forked_count h }
    {
        self.tasks.len()
    }

    /// The number of the last scope, the base's counted.
    pub fn last_scope(&self) -> u32
        requires { HasScopeNumbers self.now }
        ensures number { result ≡ self.now.scopes_before + length self.now.scopes }
        ensures agrees { (h : History) → AreRowsOf h self.now → result ≡ scopes h }
    {
        self.scopes.before() + self.scopes.len() as u32
    }

    /// The number of the last task, the base's counted.
    pub fn last_task(&self) -> u32
        requires { HasTaskNumbers self.now }
        ensures number { result ≡ self.now.tasks_before + length self.now.tasks }
        ensures agrees { (h : History) → AreRowsOf h self.now → result ≡ tasks h }
    {
        self.tasks.before() + self.tasks.len() as u32
    }

    /// Makes room for one scope more.
    ///
    /// # Errors
    ///
    /// If memory is refused. Then nothing has changed.
    pub fn reserve_scope(&mut self) -> Result<(), AllocError>
        ensures ok { OnOk result (1 ≤ self.new.scope_room) }
        ensures kept { self.new ≡ record self.old { scope_room = self.new.scope_room } }
        ensures err { OnErr result (self.new ≡ self.old) }
    {
        self.scopes.reserve()
    }

    /// Makes room for one task more.
    ///
    /// # Errors
    ///
    /// If memory is refused. Then nothing has changed.
    pub fn reserve_task(&mut self) -> Result<(), AllocError>
        ensures ok { OnOk result (1 ≤ self.new.task_room) }
        ensures kept { self.new ≡ record self.old { task_room = self.new.task_room } }
        ensures err { OnErr result (self.new ≡ self.old) }
    {
        self.tasks.reserve()
    }

    /// Leaves no rows, if so many scopes and tasks were numbered before. It keeps the memory, and
    /// takes none.
    pub fn reset(&mut self, scopes_before: u32, tasks_before: u32)
        ensures rows { self.new ≡ restarted self.old scopes_before tasks_before }
        ensures agrees { (base : Origin) → base.scopes ≡ scopes_before → base.tasks ≡ tasks_before → AreRowsOf (record { base = base; events = [] }) self.new }
    {
        self.scopes.reset(scopes_before);
        self.tasks.reset(tasks_before);
        self.main_innermost = None;
    }

    /// Says what the actor's innermost scope is.
    fn set_innermost(&mut self, actor: Actor, innermost: Option<ScopeId>)
        requires { HasActor self.old actor }
        ensures { self.new ≡ with_innermost self.old actor innermost }
    {
        if actor == MAIN {
            self.main_innermost = innermost;
        } else {
            self.tasks.get_mut(actor).innermost = innermost.unwrap_or(0);
        }
    }
}

/// The scope of this number, which is 0 if there is none.
fn inner_of(number: u32) -> Option<ScopeId>
    ensures { result ≡ inner_of number }
{
    if number == 0 { None } else { Some(number) }
}
