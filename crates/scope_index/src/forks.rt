ghost use Rattle.std.specs.Prelude.{[], ℕ, ◌+◌, ◌≡◌, ◌≤◌, OnErr, OnOk};
ghost use Rattle.scope_index.specs.{AreForksOf, Fork, ForkTable.forks_in, HasForkRoom, HasForks, History, Label, Legal, Limits, Open, Options, Origin, Policy, followed, no_forks, no_lists, roomy, tasks, tasks_in, tasks_of};
ghost use Rattle.scope_index.specs.{with_forks, with_open, with_task};

use scope_rows::Numbered;
use scope_rules::{ScopeId, TaskId};
use std::alloc::{AllocError, Global};
use std::marker::Model;

/// The tasks of one scope, in fork order.
#[derive(Drop)]
struct ForkList {
    numbers: Vec<TaskId>,
}

impl Model for ForkList {
    ghost use Rattle.std.specs.Prelude.{◌-◌, vec_capacity, vec_len};
    ghost use Rattle.scope_index.specs.ForkTable.{ForkedTasks};

    ghost Value = { ForkedTasks };

    ghost view = { λ l. record { numbers = l.numbers.items; room = vec_capacity l.numbers - vec_len l.numbers } };
}

impl ForkList {
    /// No tasks. It takes no memory.
    fn new(alloc: Global) -> ForkList
        ensures { result ≡ no_forks }
    {
        ForkList {
            numbers: Vec::new(alloc),
        }
    }

    /// Makes room for one task more.
    fn reserve(&mut self) -> Result<(), AllocError>
        ensures ok { OnOk result (1 ≤ self.new.room) }
        ensures kept { self.new ≡ roomy self.new.room self.old }
        ensures err { OnErr result (self.new ≡ self.old) }
    {
        self.numbers.reserve(1)
    }

    /// Adds the task, for which there is room.
    fn push(&mut self, task: TaskId)
        requires { 1 ≤ self.old.room }
        ensures { self.new ≡ with_task task self.old }
    {
        self.numbers.push_reserved(task);
    }
}

/// The tasks of each scope that was opened since a realm began, in fork order: a list a scope, in order
/// of the scopes' numbers.
#[derive(Drop)]
pub struct Forks {
    lists: Numbered<ForkList>,
    alloc: Global,
}

impl Model for Forks {
    ghost use Rattle.scope_index.specs.ForkTable.{ForkTable};

    ghost Value = { ForkTable };

    ghost view = { λ f. record { before = f.lists.before; lists = f.lists.items; spare = f.lists.spare } };
}

impl Forks {
    /// No scopes, if so many were numbered before. It takes no memory; that of later calls comes
    /// from `alloc`.
    pub fn new(alloc: Global, before: u32) -> Forks
        ensures lists { result ≡ no_lists before }
        ensures agrees { (base : Origin) → base.scopes ≡ before → AreForksOf (record { base = base; events = [] }) result }
    {
        Forks {
            lists: Numbered::new(alloc, before),
            alloc,
        }
    }

    /// Leaves no scopes, if so many were numbered before. It keeps the memory of the lists' list, and
    /// takes none.
    pub fn reset(&mut self, before: u32)
        ensures agrees { (base : Origin) → base.scopes ≡ before → AreForksOf (record { base = base; events = [] }) self.new }
    {
        self.lists.reset(before);
    }

    /// The tasks of the scope, in fork order.
    pub fn of(&self, scope: ScopeId) -> &[TaskId]
        requires { HasForks self.now scope }
        ensures list { result.now ≡ tasks_in self.now scope }
        ensures agrees { (h : History) → AreForksOf h self.now → result.now ≡ tasks_of h scope }
    {
        let list = self.lists.get(scope);
        &list.numbers
    }

    /// Makes room for one scope more. It is refused for memory alone, and then changes nothing.
    pub fn reserve_scope(&mut self) -> Result<(), AllocError>
        ensures ok { OnOk result (1 ≤ self.new.spare) }
        ensures kept { self.new ≡ record self.old { spare = self.new.spare } }
        ensures err { OnErr result (self.new ≡ self.old) }
    {
        self.lists.reserve()
    }

    /// Adds a scope, for which there is room: it has the next number, and no tasks. It takes no memory.
    pub fn open(&mut self)
        requires { 1 ≤ self.old.spare }
        ensures kept { self.new ≡ with_open self.old }
        ensures agrees { (L : Limits) (h : History) (actor : ℕ) (policy : Policy) (options : Options) → Legal L h → AreForksOf h self.old → AreForksOf (followed h (Open actor policy options)) self.new }
    {
        self.lists.push(ForkList::new(self.alloc));
    }

    /// Makes room for one task more of the scope. It is refused for memory alone, and then changes
    /// nothing.
    pub fn reserve(&mut self, scope: ScopeId) -> Result<(), AllocError>
        requires { HasForks self.old scope }
        ensures ok { OnOk result (HasForkRoom self.new scope) }
        ensures kept { self.new ≡ with_forks self.old scope (roomy (forks_in self.new scope).room) }
        ensures agrees { (h : History) → AreForksOf h self.old → AreForksOf h self.new }
        ensures err { OnErr result (self.new ≡ self.old) }
    {
        self.lists.get_mut(scope).reserve()
    }

    /// Adds the task that is forked in the scope now, for which there is room. It takes no memory.
    pub fn fork(&mut self, scope: ScopeId, task: TaskId)
        requires list { HasForks self.old scope }
        requires room { HasForkRoom self.old scope }
        ensures kept { self.new ≡ with_forks self.old scope (with_task task) }
        ensures agrees { (h : History) (actor : ℕ) (label : Label) → AreForksOf h self.old → task ≡ tasks h + 1 → AreForksOf (followed h (Fork actor scope label)) self.new }
    {
        self.lists.get_mut(scope).push(task);
    }
}
