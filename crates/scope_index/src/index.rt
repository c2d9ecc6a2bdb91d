ghost use Rattle.std.specs.Prelude.{[], ℕ, ◌≡◌, IfOk, List, drop};
ghost use Rattle.scope_index.specs.{History, IsCancelOrderOf, IsIndexOf, KeepsAll, Legal, Limits, base_of, scopes_of, sem, stack};

use crate::{CancelIndex, CancelledScopes, Forks};
use scope_rows::{OwnDeadlines, Rows};
use scope_rules::Base;
use scoped_env::Envs;
use std::alloc::{AllocError, Global};
use std::marker::Model;

/// The index of a realm's history, in five parts over the same scopes and tasks: rows, cancels,
/// environments, forks and own deadlines. Each answers what every history says that it agrees with.
#[derive(Drop)]
pub struct RealmIndex {
    pub(crate) rows: Rows,
    pub(crate) cancels: CancelIndex,
    pub(crate) envs: Envs,
    pub(crate) forks: Forks,
    pub(crate) deadlines: OwnDeadlines,
}

impl Model for RealmIndex {
    ghost use Rattle.scope_index.specs.IndexTables.{IndexTable, AreAlike};

    ghost Value = { IndexTable };

    ghost view = { λ k. record { rows = k.rows; cancels = k.cancels; envs = k.envs; forks = k.forks; deadlines = k.deadlines } };

    ghost invariant = { λ k. AreAlike k.rows k.cancels k.envs k.forks k.deadlines };
}

/// How an index begins.
impl RealmIndex {
    ghost use Rattle.scope_rules.specs.Origin.{Origin, the_start};

    /// The index of a fresh realm. It takes no memory; that of later calls comes from `alloc`.
    pub fn new(alloc: Global) -> RealmIndex
        ensures { IsIndexOf (record { base = the_start; events = [] }) result }
    {
        RealmIndex {
            rows: Rows::new(alloc),
            cancels: CancelIndex::new(alloc, 0, 0),
            envs: Envs::new(alloc),
            forks: Forks::new(alloc, 0),
            deadlines: OwnDeadlines::new(alloc, 0),
        }
    }

    /// The index of a realm that begins with the base. Refused if memory is.
    pub fn with_base(alloc: Global, base: &Base) -> Result<RealmIndex, AllocError>
        ensures { IfOk result (IsIndexOf (record { base = base.now; events = [] })) }
    {
        Ok(RealmIndex {
            rows: Rows::with_base(alloc, base.scopes(), base.tasks()),
            cancels: CancelIndex::new(alloc, base.scopes(), base.moment()),
            envs: Envs::with_base(alloc, base)?,
            forks: Forks::new(alloc, base.scopes()),
            deadlines: OwnDeadlines::new(alloc, base.scopes()),
        })
    }

    /// Drops all but what the base says, which the history leaves. It takes no memory, and keeps
    /// its tables' for what comes.
    pub fn reset(&mut self, base: &Base)
        requires { (h : History) × IsIndexOf h self.old × (base.now ≡ base_of h) }
        ensures { IsIndexOf (record { base = base.now; events = [] }) self.new }
    {
        self.rows.reset(base.scopes(), base.tasks());
        self.envs.reset(base.tasks());
        self.cancels.reset(base.scopes(), base.moment());
        self.forks.reset(base.scopes());
        self.deadlines.reset(base.scopes());
    }
}

/// What a history leaves.
impl RealmIndex {
    /// The base of this moment and of so many scopes and tasks, with main's own bindings, which it shares:
    /// called again before they change, it copies none of them. Refused if memory is.
    pub fn base(&mut self, moment: u64, scopes: u32, tasks: u32) -> Result<Base, AllocError>
        ensures base { IfOk result (λ base. (h : History) → IsIndexOf h self.old → base ≡ record { moment = moment; scopes = scopes; tasks = tasks; binds = stack h 0 }) }
        ensures unchanged { self.new ≡ self.old }
    {
        self.envs.base(moment, scopes, tasks)
    }
}

/// The parts that queries read.
impl RealmIndex {
    /// The rows of scopes and tasks.
    pub fn rows(&self) -> &Rows
        ensures { result.now ≡ self.now.rows }
    {
        &self.rows
    }

    /// What is cancelled, and the moment.
    pub fn cancels(&self) -> &CancelIndex
        ensures { result.now ≡ self.now.cancels }
    {
        &self.cancels
    }

    /// What the actors see bound.
    pub fn envs(&self) -> &Envs
        ensures { result.now ≡ self.now.envs }
    {
        &self.envs
    }

    /// The tasks of each scope.
    pub fn forks(&self) -> &Forks
        ensures { result.now ≡ self.now.forks }
    {
        &self.forks
    }

    /// The own deadline of each scope.
    pub fn deadlines(&self) -> &OwnDeadlines
        ensures { result.now ≡ self.now.deadlines }
    {
        &self.deadlines
    }

    /// The cancelled scopes in order of their cancellation, those that one event cancelled by their
    /// numbers, from the n-th on, from 0: none if no more than n are cancelled. It takes no memory,
    /// and time by the scopes that were cancelled since it was last called, with those of the last event
    /// before them.
    pub fn cancelled_since(&mut self, n: usize) -> CancelledScopes<'_>
        ensures* kept { sem 𝓛 (KeepsAll self.entry) }
        ensures order { (L : Limits) (h : History) → Legal L h → IsIndexOf h self.old → (list : List ℕ) × IsCancelOrderOf h list × (scopes_of result ≡ drop n list) }
    {
        self.cancels.cancelled_since(n)
    }
}
