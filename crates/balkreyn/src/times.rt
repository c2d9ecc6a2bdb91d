//! When events happened, as looks at a realm found them.
ghost use Rattle.std.specs.Prelude.{[], ◌-◌, ◌≡◌, option_map};
ghost use Rattle.balkreyn.specs.{IsNoted, last_time};

use realm_lock::{Look, RealmState};
use scope_rules::{Refusal, ScopeId, TaskId};
use std::alloc::Global;

/// How far the history of a realm has come: what its last retirement left numbered, and how many events followed.
/// `Times` shows by an example what it is for.
#[derive(Clone, Copy, Debug, PartialEq)]
pub struct Reached {
    pub scopes: ScopeId,
    pub tasks: TaskId,
    pub events: usize,
}

/// The look that counts: it reads three numbers under the realm's lock.
#[derive(Clone, Copy)]
pub(crate) struct Counting;

impl Look for Counting {
    ghost use Rattle.balkreyn.specs.Times.{HasReached};

    type Answer = Reached;

    ghost tells = { λ look h reached. HasReached h reached };

    fn look(self, realm: &RealmState) -> Reached {
        let base = realm.base();
        Reached {
            scopes: base.scopes(),
            tasks: base.tasks(),
            events: realm.event_count(),
        }
    }
}

/// When the events of a realm happened, in milliseconds of one clock: each by the look that was the first to find it. So
/// an event happened at its time at the latest, and after the look before. It lies outside the rules: nothing that a
/// realm answers depends on it. It takes eight bytes an event.
///
/// A service that looks twice, before and after a scope, and gives the journal with these times:
///
/// ```rust
/// impl<N: RealmName, R: Handle, S: CanFork<AnyEnd, N, WithRuntime<R, Nap>>> Service<S, N, R>
///     for Naps {
///     fn serve(self, rt: &R, ctx: &mut TaskCtx<AnyEnd, S, N>) -> Result<Napped, Refusal> {
///         let mut times = Times::new(self.alloc);
///         times.note(ctx.reached(rt), 10)?;
///         let state = take_nap(rt, ctx, self.nap)?;
///         times.note(ctx.reached(rt), 50)?;
///         let script = ctx.timed_journal(rt, self.alloc, &times, 60)?;
///         Ok(Napped { state, script })
///     }
/// }
/// ```
#[derive(Drop)]
pub struct Times {
    pub(crate) found: Vec<u64>,
    pub(crate) scopes: ScopeId,
    pub(crate) tasks: TaskId,
    pub(crate) looked: u64,
}

impl Times {
    /// No look yet.
    pub fn new(alloc: Global) -> Times
        ensures { result.found.items ≡ [] }
    {
        Times {
            found: Vec::new(alloc),
            scopes: 0,
            tasks: 0,
            looked: 0,
        }
    }

    /// A look found that the history has come so far, at this time. After a retirement the times begin anew.
    ///
    /// # Errors
    /// `Memory`.
    pub fn note(&mut self, reached: Reached, at: u64) -> Result<(), Refusal>
        ensures times { IsNoted self.old self.new reached at result }
        ensures looked { self.new.looked ≡ at }
    {
        let is_same = self.scopes == reached.scopes && self.tasks == reached.tasks;
        if !is_same || reached.events < self.found.len() {
            self.found.clear();
        }
        self.scopes = reached.scopes;
        self.tasks = reached.tasks;
        self.looked = at;
        match self.found.resize(reached.events, at) {
            Ok(()) => Ok(()),
            Err(_) => Err(Refusal::Memory),
        }
    }

    /// The time of the latest event that a look has found, if there is one.
    pub fn latest(&self) -> Option<u64>
        ensures { result ≡ last_time self.now.found.items }
    {
        let last = self.found.len().checked_sub(1)?;
        self.found.get(last).copied()
    }

    /// For how many milliseconds nothing had happened at the last look; none if no event was found.
    pub fn quiet(&self) -> Option<u64>
        ensures { result ≡ option_map (λ at. self.now.looked - at) (last_time self.now.found.items) }
    {
        let latest = self.latest()?;
        Some(self.looked.saturating_sub(latest))
    }
}
