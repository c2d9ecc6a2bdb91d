ghost use Rattle.std.specs.Prelude.{[], ℕ, ◌+◌, ◌-◌, ◌<◌, ◌^◌, ◌≡◌, ◌≤◌, IfSome, List, MatchOption, None, OnErr, OnOk, Option, Some, drop, false, length, option_map, slice_get};
ghost use Rattle.scope_index.specs.{AreCancelsOf, AreOneMore, CancelTable, Event, HasCounted, HasReserved, HasRoom, HasRow, History, IsAdded, IsCancelOrderOf, IsLatest, IsMoved, IsNextDeadline, IsOpened, KeepsTable, LEVEL_LIMIT};
ghost use Rattle.scope_index.specs.{Legal, Limits, NoDeadlineComes, Origin, StandsFor, TASK_LIMIT, account_at, awaited_of, cancelled, cause, deadlined, effective, first_cancel, followed, is_cancelled, joined, level, level_in};
ghost use Rattle.scope_index.specs.{moment, scopes_of, sem, shifted, surrounding, with_scope};

use crate::cancelled::CancelledScopes;
use cancel_tree::Tree;
use deadline_core::DeadlineOrder;
use join_rules::JoinerAccount;
use scope_rows::make_room;
use scope_rules::types::records::FirstCancel;
use scope_rules::{Cause, CauseKind, Completion, Effective, Options, Policy, ScopeId};
use std::alloc::{AllocError, Global};
use std::marker::Model;

/// What cancels the scopes of a realm. The scopes since the base have the rows of the tree, in order of
/// their numbers, and an account of their joiner each; the index has the deadlines that are still to come
/// and would be the own cancels of their scopes.
#[derive(Drop)]
pub struct CancelIndex {
    before: u32,
    moment: u64,
    tree: Tree,
    deadlines: DeadlineOrder,
    accounts: Vec<JoinerAccount>,
    alloc: Global,
}

impl Model for CancelIndex {
    ghost use Rattle.scope_index.specs.CancelTables.{CancelTable, AreKept};

    ghost Value = { CancelTable };

    ghost view = { λ c. record { before = c.before; moment = c.moment; nodes = c.tree; accounts = c.accounts.items } };

    ghost invariant = { λ c. AreKept c.before c.moment c.tree c.accounts.items c.deadlines };
}

/// The queries. Each answers what its definition says of every history that the index agrees with.
impl CancelIndex {
    /// The realm's time, in milliseconds.
    pub fn moment(&self) -> u64
        ensures { (h : History) → AreCancelsOf h self.now → result ≡ moment h }
    {
        self.moment
    }

    /// Whether the scope is cancelled.
    #[tactic(auto, using(crate::proofs::CancelReadings::cancelled_at_scope))]
    pub fn is_cancelled(&self, scope: ScopeId) -> bool
        requires { HasRow self.now scope }
        ensures { (L : Limits) (h : History) → Legal L h → AreCancelsOf h self.now → result ≡ is_cancelled h scope }
    {
        self.tree.is_cancelled(scope - self.before)
    }

    /// The own cancel that reached the scope first, the nearest on a tie, if one did.
    #[tactic(auto, using(crate::proofs::CancelReadings::cancel_at_scope))]
    pub fn first_cancel(&self, scope: ScopeId) -> Option<FirstCancel>
        requires { HasRow self.now scope }
        ensures { (L : Limits) (h : History) → Legal L h → AreCancelsOf h self.now → result ≡ first_cancel h scope }
    {
        let first_cancel = self.tree.first_cancel(scope - self.before);
        later_by(self.before, first_cancel)
    }

    /// The earliest deadline in effect for the scope (Trio, `current_effective_deadline`), in
    /// milliseconds.
    #[tactic(auto, using(crate::proofs::CancelReadings::effective_at_scope))]
    pub fn effective_deadline(&self, scope: ScopeId) -> Effective
        requires { HasRow self.now scope }
        ensures { (L : Limits) (h : History) → Legal L h → AreCancelsOf h self.now → result ≡ effective h scope }
    {
        self.tree.effective_deadline(scope - self.before)
    }

    /// The deadline that comes next, in milliseconds: the earliest after the moment, of the scopes that aren't
    /// joined, closed or cancelled. It takes time by the open scopes that were cancelled with a scope around
    /// them and have an earlier one.
    pub fn next_deadline(&self) -> Option<u64>
        ensures { (L : Limits) (h : History) → Legal L h → AreCancelsOf h self.now → MatchOption result (NoDeadlineComes h) (IsNextDeadline h) }
    {
        for &(deadline, row) in self.deadlines.in_order() {
            if !self.tree.is_cancelled(row) {
                return Some(deadline);
            }
        }
        None
    }

    /// The cancelled scopes in order of their cancellation, those that one event cancelled by their
    /// numbers, from the n-th on, from 0: none if no more than n are cancelled. It takes no memory,
    /// and time by the scopes that were cancelled since it was last called, with those of the last event
    /// before them.
    pub fn cancelled_since(&mut self, n: usize) -> CancelledScopes<'_>
        ensures* kept { sem 𝓛 (KeepsTable self.entry) }
        ensures order { (L : Limits) (h : History) → Legal L h → AreCancelsOf h self.old → (list : List ℕ) × IsCancelOrderOf h list × (scopes_of result ≡ drop n list) }
    {
        let before = self.before;
        CancelledScopes::new(before, self.tree.cancelled_since(n))
    }

    /// The level of the scope: how many scopes lie around one another down to it, itself included.
    #[tactic(auto, using(crate::proofs::CancelReadings::level_at_scope))]
    pub fn level(&self, scope: ScopeId) -> u32
        requires { HasRow self.now scope }
        ensures { (L : Limits) (h : History) → Legal L h → AreCancelsOf h self.now → result ≡ level h scope }
    {
        self.tree.level(scope - self.before)
    }

    /// The account of the scope's joiner.
    pub fn account(&self, scope: ScopeId) -> &JoinerAccount
        requires { HasRow self.now scope }
        ensures { account_at self.now scope ≡ Some result.now }
    {
        &self.accounts[(scope - self.before - 1) as usize]
    }
}

/// What the events change. Those that are not named here leave all as it is; `place` is the number of
/// events before the one that is applied.
impl CancelIndex {
    /// The index of a realm that begins at the moment, in milliseconds, with `before` scopes numbered.
    /// It takes no memory; that of later calls comes from `alloc`.
    #[tactic(auto, using(crate::proofs::Beginning::begun))]
    pub fn new(alloc: Global, before: u32, moment: u64) -> CancelIndex
        ensures { (b : Origin) → b.scopes ≡ before → b.moment ≡ moment → AreCancelsOf (record { base = b; events = [] }) result }
    {
        CancelIndex {
            before,
            moment,
            tree: Tree::new(alloc),
            deadlines: DeadlineOrder::new(alloc),
            accounts: Vec::new(alloc),
            alloc,
        }
    }

    /// Begins anew at the moment, in milliseconds, with `before` scopes numbered. It keeps the memory, and
    /// takes none.
    #[tactic(auto, using(crate::proofs::Beginning::begun))]
    pub fn reset(&mut self, before: u32, moment: u64)
        ensures { (b : Origin) → b.scopes ≡ before → b.moment ≡ moment → AreCancelsOf (record { base = b; events = [] }) self.new }
    {
        self.before = before;
        self.moment = moment;
        self.tree.clear();
        self.deadlines = DeadlineOrder::new(self.alloc);
        self.accounts.clear();
    }

    /// Gives the scope its own cancel, which stays if it has one. Takes no memory.
    pub fn cancel(&mut self, scope: ScopeId, kind: CauseKind, place: usize)
        requires row { HasRow self.old scope }
        requires latest { IsLatest self.old.nodes place }
        ensures { self.new ≡ cancelled self.old scope kind place }
    {
        let row = scope - self.before;
        let before = self.awaited(row);
        self.tree.cancel(row, kind, place as u64);
        self.deadlines.remove(row, before);
    }

    /// The scope was joined: its deadline counts no more. Takes no memory.
    #[tactic(auto, using(crate::proofs::EventSteps::joined_next))]
    pub fn join(&mut self, scope: ScopeId)
        requires { HasRow self.old scope }
        ensures agrees { (L : Limits) (h : History) (actor : ℕ) → Legal L h → AreCancelsOf h self.old → AreCancelsOf (followed h (Event.Join actor scope)) self.new }
        ensures accounts { self.new.accounts ≡ self.old.accounts }
    {
        self.drop_deadline(scope);
    }

    /// The deadline of the scope was moved, in milliseconds, or taken away. If the new one has passed,
    /// it is the scope's own cancel. Refused if memory is, and then nothing has changed.
    #[tactic(auto, using(crate::proofs::Moves::moved_away, crate::proofs::Moves::moved_on, crate::proofs::Moves::moved_past))]
    pub fn move_deadline(
        &mut self,
        scope: ScopeId,
        deadline: Option<u64>,
        place: usize,
    ) -> Result<(), AllocError>
        requires row { HasRow self.old scope }
        requires latest { IsLatest self.old.nodes place }
        ensures moved { OnOk result (IsMoved self.old self.new scope deadline place) }
        ensures accounts { self.new.accounts ≡ self.old.accounts }
        ensures refused { OnErr result (self.new ≡ self.old) }
    {
        match deadline {
            None => self.drop_deadline(scope),
            Some(deadline) if deadline > self.moment => self.await_deadline(scope, deadline)?,
            Some(deadline) => {
                self.pass_deadline(scope, deadline);
                self.cancel(scope, CauseKind::Deadline, place);
            }
        }
        Ok(())
    }

    /// Takes the scope's deadline away. Takes no memory.
    fn drop_deadline(&mut self, scope: ScopeId)
        requires { HasRow self.old scope }
        ensures { self.new ≡ deadlined self.old scope None }
    {
        let row = scope - self.before;
        let before = self.awaited(row);
        self.tree.clear_deadline(row);
        self.deadlines.remove(row, before);
    }

    /// The deadline that the index has of the row: its own, while that is still to come and would cancel it.
    fn awaited(&self, row: ScopeId) -> Option<u64>
        requires { IsAdded self.now.nodes row }
        ensures { result ≡ awaited_of self.now.moment self.now.nodes row }
    {
        match self.tree.deadline(row) {
            Some(deadline) if deadline > self.moment && !self.tree.has_own_cancel(row) => {
                Some(deadline)
            }
            _ => None,
        }
    }

    /// Gives the scope a deadline that is still to come.
    fn await_deadline(&mut self, scope: ScopeId, deadline: u64) -> Result<(), AllocError>
        requires row { HasRow self.old scope }
        requires coming { self.old.moment < deadline }
        ensures given { OnOk result (self.new ≡ deadlined self.old scope (Some deadline)) }
        ensures refused { OnErr result (self.new ≡ self.old) }
    {
        let row = scope - self.before;
        if !self.tree.has_own_cancel(row) {
            let before = self.awaited(row);
            self.deadlines.set(row, before, deadline)?;
        }
        self.tree.set_deadline(row, deadline);
        Ok(())
    }

    /// Gives the scope a deadline that has passed. Takes no memory.
    fn pass_deadline(&mut self, scope: ScopeId, deadline: u64)
        requires row { HasRow self.old scope }
        requires passed { deadline ≤ self.old.moment }
        ensures { self.new ≡ deadlined self.old scope (Some deadline) }
    {
        let row = scope - self.before;
        let before = self.awaited(row);
        self.deadlines.remove(row, before);
        self.tree.set_deadline(row, deadline);
    }

    /// The realm's time was set, in milliseconds. The deadlines that it passes are own cancels of their scopes.
    /// Takes no memory.
    pub fn tick(&mut self, now: u64, place: usize)
        requires forward { self.old.moment ≤ now }
        requires latest { IsLatest self.old.nodes place }
        ensures agrees { (L : Limits) (h : History) → Legal L h → AreCancelsOf h self.old → place ≡ length h.events → AreCancelsOf (followed h (Event.Tick now)) self.new }
        ensures accounts { self.new.accounts ≡ self.old.accounts }
    {
        while let Some(row) = self.deadlines.pop_expired(now) {
            self.tree.cancel(row, CauseKind::Deadline, place as u64);
        }
        self.moment = now;
    }

    /// A scope is opened inside `parent`, or outside all others; `listed` says whether a closure of the
    /// caller's is shown its completions. A deadline that has passed is its own cancel at once. Refused
    /// if memory is, and then nothing has changed.
    pub fn open(
        &mut self,
        parent: Option<ScopeId>,
        policy: Policy,
        options: Options,
        listed: bool,
        place: usize,
    ) -> Result<(), AllocError>
        requires there { IfSome parent (HasRow self.old) }
        requires level { level_in self.old.nodes (option_map (λ p. p - self.old.before) parent) ≤ LEVEL_LIMIT }
        requires number { self.old.before + length self.old.nodes + 1 < 2 ^ 32 }
        requires latest { IsLatest self.old.nodes place }
        ensures opened { OnOk result (IsOpened self.old self.new parent policy options place) }
        ensures accounts { OnOk result (AreOneMore self.old.accounts self.new.accounts) }
        ensures refused { OnErr result (self.new ≡ self.old) }
    {
        let inside = row_of(self.before, parent);
        let account = JoinerAccount::new(self.alloc, policy, listed);
        match options.deadline {
            None => self.add(inside, options.shield, place, account)?,
            Some(deadline) if deadline > self.moment => {
                self.add_before(inside, options.shield, place, account, deadline)?
            }
            Some(deadline) => {
                let scope = self.before + self.tree.len() as ScopeId + 1;
                self.add(inside, options.shield, place, account)?;
                self.pass_deadline(scope, deadline);
                self.cancel(scope, CauseKind::Deadline, place);
            }
        }
        Ok(())
    }

    /// Adds a scope without a deadline.
    fn add(
        &mut self,
        inside: Option<ScopeId>,
        shield: bool,
        place: usize,
        account: JoinerAccount,
    ) -> Result<(), AllocError>
        requires there { IfSome inside (IsAdded self.old.nodes) }
        requires level { level_in self.old.nodes inside ≤ LEVEL_LIMIT }
        requires number { self.old.before + length self.old.nodes + 1 < 2 ^ 32 }
        requires latest { IsLatest self.old.nodes place }
        ensures added { OnOk result (self.new ≡ with_scope self.old inside shield place account) }
        ensures refused { OnErr result (self.new ≡ self.old) }
    {
        make_room(&mut self.accounts, 1)?;
        let row = self.tree.len() as ScopeId + 1;
        if self.tree.add(row, inside, shield, place).is_err() {
            return Err(AllocError);
        }
        self.accounts.push_reserved(account);
        Ok(())
    }

    /// Adds a scope with a deadline that is still to come.
    fn add_before(
        &mut self,
        inside: Option<ScopeId>,
        shield: bool,
        place: usize,
        account: JoinerAccount,
        deadline: u64,
    ) -> Result<(), AllocError>
        requires there { IfSome inside (IsAdded self.old.nodes) }
        requires level { level_in self.old.nodes inside ≤ LEVEL_LIMIT }
        requires number { self.old.before + length self.old.nodes + 1 < 2 ^ 32 }
        requires latest { IsLatest self.old.nodes place }
        requires coming { self.old.moment < deadline }
        ensures added { OnOk result (self.new ≡ deadlined (with_scope self.old inside shield place account) (self.old.before + (length self.old.nodes + 1)) (Some deadline)) }
        ensures refused { OnErr result (self.new ≡ self.old) }
    {
        make_room(&mut self.accounts, 1)?;
        let row = self.tree.len() as ScopeId + 1;
        self.deadlines.set(row, None, deadline)?;
        match self.tree.add(row, inside, shield, place) {
            Ok(()) => {
                self.tree.set_deadline(row, deadline);
                self.accounts.push_reserved(account);
                Ok(())
            }
            Err(_) => {
                self.deadlines.remove(row, Some(deadline));
                Err(AllocError)
            }
        }
    }

    /// Makes room for so many more completions of the scope. Refused if memory is, and then nothing
    /// has changed.
    pub fn reserve(&mut self, scope: ScopeId, more: usize) -> Result<(), AllocError>
        requires { HasRow self.old scope }
        ensures reserved { OnOk result (HasReserved self.old self.new scope more) }
        ensures refused { OnErr result (self.new ≡ self.old) }
    {
        self.accounts[(scope - self.before - 1) as usize].reserve(more)
    }

    /// Counts a completion of the scope, for which there is room. Takes no memory.
    pub fn count(&mut self, scope: ScopeId, done: Completion)
        requires row { HasRow self.old scope }
        requires room { IfSome (account_at self.old scope) (λ a. HasRoom a 1) }
        requires few { IfSome (account_at self.old scope) (λ a. a.totals.completions < TASK_LIMIT) }
        ensures { HasCounted self.old self.new scope done }
    {
        let at = (scope - self.before - 1) as usize;
        if self.accounts[at].count(done).is_err() {
            unreachable!()
        }
    }
}

/// The number of the row that the scope has.
fn row_of(before: u32, scope: Option<ScopeId>) -> Option<ScopeId>
    requires { IfSome scope (λ s. before ≤ s) }
    ensures { result ≡ option_map (λ s. s - before) scope }
{
    match scope {
        Some(scope) => Some(scope - before),
        None => None,
    }
}

/// The first cancel, with so much added to its scope's number.
fn later_by(before: u32, first_cancel: Option<FirstCancel>) -> Option<FirstCancel>
    requires { IfSome first_cancel (λ c. before + c.cause.scope < 2 ^ 32) }
    ensures { result ≡ option_map (shifted before) first_cancel }
{
    let first_cancel = first_cancel?;
    Some(FirstCancel {
        place: first_cancel.place,
        cause: Cause {
            scope: before + first_cancel.cause.scope,
            kind: first_cancel.cause.kind,
        },
    })
}
