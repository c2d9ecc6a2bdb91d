//! What is seen of a realm, by an actor's token.
ghost use Rattle.std.specs.Prelude.{◌≡◌};
ghost use Rattle.balkreyn.specs.{HasReached, Looks.Says, Reads, SaysWhen, dump_text, known_clock, script_text, tree_by, tree_text};

use crate::copies::{CopyOut, dump_in, journal_in, timed_in, timed_tree_in, tree_in};
use crate::times::{Counting, Reached, Times};
use job_runner::TaskCtx;
use realm_lock::RealmName;
use scope_rules::{Catalog, Refusal};
use std::alloc::Global;
use std::sync::Wait;
use thread_pool::Spawner;

/// What shows its realm by an actor's token: a context. What is shown is of all that the token has seen then.
///
/// A job that takes the tree and the JSON of a realm, and the journal by its own context:
///
/// ```rust
/// impl<K: Handle, N: RealmName, S: Spawner<N>> TypedJob<S, N> for Watch<K, N> {
///     fn run_typed<R: Wait>(
///         self,
///         rt: &R,
///         ctx: &mut TaskCtx<AnyEnd, S, N>,
///         name: Name,
///     ) -> Result<Seen, Fault> {
///         let mut clock = self.clock;
///         let until = clock.now().saturating_add(self.millis);
///         match ctx.wait_by(&clock.runtime(), &mut clock, Some(until), None) {
///             Ok(None) => match (
///                 self.realm.tree(rt, self.alloc),
///                 self.realm.dump(rt, self.alloc),
///                 ctx.journal(rt, self.alloc),
///             ) {
///                 (Ok(tree), Ok(dump), Ok(script)) => Ok(Seen { tree, dump, script }),
///                 _ => Err(Fault(name)),
///             },
///             _ => Err(Fault(name)), // the request came to its end before
///         }
///     }
/// }
/// ```
pub trait InspectByToken {
    ghost use Rattle.share_ledger.specs.Values.{OwnerValue};

    /// The actor's token.
    ghost token: { Self → OwnerValue };

    /// This is what is left, but for what the token has seen.
    ghost kept: { Self → Self → Type 0 };

    /// The tree of the scopes that are not closed, as text for a terminal.
    ///
    /// # Errors
    /// `Memory`.
    fn tree<R: Wait>(&mut self, rt: &R, alloc: Global) -> Result<String, Refusal>
        ensures rest { Self.kept self.old self.new }
        ensures answer { Reads (Self.token self.old) (Self.token self.new) (λ h. Says (tree_text h) result) };

    /// The same tree for programs, as JSON without blanks.
    ///
    /// # Errors
    /// `Memory`.
    fn dump<R: Wait>(&mut self, rt: &R, alloc: Global) -> Result<String, Refusal>
        ensures rest { Self.kept self.old self.new }
        ensures answer { Reads (Self.token self.old) (Self.token self.new) (λ h. Says (dump_text h) result) };

    /// What happened since the last retirement, as a script.
    ///
    /// # Errors
    /// `Memory`.
    fn journal<R: Wait>(&mut self, rt: &R, alloc: Global) -> Result<String, Refusal>
        ensures rest { Self.kept self.old self.new }
        ensures answer { Reads (Self.token self.old) (Self.token self.new) (λ h. Says (script_text h) result) };

    /// How far the history has come, as `Inspect::reached`.
    fn reached<R: Wait>(&mut self, rt: &R) -> Reached
        ensures rest { Self.kept self.old self.new }
        ensures answer { Reads (Self.token self.old) (Self.token self.new) (λ h. HasReached h result) };

    /// The tree with ages, by these times of its events, and by that of now, in milliseconds.
    ///
    /// # Errors
    /// `Memory`.
    fn timed_tree<R: Wait>(
        &mut self,
        rt: &R,
        alloc: Global,
        times: &Times,
        now: u64,
    ) -> Result<String, Refusal>
        ensures rest { Self.kept self.old self.new }
        ensures answer { Reads (Self.token self.old) (Self.token self.new) (λ h. Says (tree_by (known_clock h times.now.found.items now) h) result) };

    /// The journal with times, as `Inspect::timed_journal`.
    ///
    /// # Errors
    /// `Memory`.
    fn timed_journal<R: Wait>(
        &mut self,
        rt: &R,
        alloc: Global,
        times: &Times,
        now: u64,
    ) -> Result<String, Refusal>
        ensures rest { Self.kept self.old self.new }
        ensures answer { Reads (Self.token self.old) (Self.token self.new) (λ h. SaysWhen h times.now.found.items now result) };
}

impl<C: Catalog, S: Spawner<N>, N: RealmName> InspectByToken for TaskCtx<C, S, N> {
    ghost token = { λ ctx. ctx.token };

    ghost kept = { λ old new. new ≡ record old { token = new.token } };

    fn tree<R: Wait>(&mut self, rt: &R, alloc: Global) -> Result<String, Refusal> {
        tree_in(alloc, self.look(rt, CopyOut { alloc }))
    }

    fn dump<R: Wait>(&mut self, rt: &R, alloc: Global) -> Result<String, Refusal> {
        dump_in(alloc, self.look(rt, CopyOut { alloc }))
    }

    fn journal<R: Wait>(&mut self, rt: &R, alloc: Global) -> Result<String, Refusal> {
        journal_in(alloc, self.look(rt, CopyOut { alloc }))
    }

    fn reached<R: Wait>(&mut self, rt: &R) -> Reached {
        self.look(rt, Counting)
    }

    fn timed_tree<R: Wait>(
        &mut self,
        rt: &R,
        alloc: Global,
        times: &Times,
        now: u64,
    ) -> Result<String, Refusal> {
        timed_tree_in(alloc, self.look(rt, CopyOut { alloc }), times, now)
    }

    fn timed_journal<R: Wait>(
        &mut self,
        rt: &R,
        alloc: Global,
        times: &Times,
        now: u64,
    ) -> Result<String, Refusal> {
        timed_in(alloc, self.look(rt, CopyOut { alloc }), times, now)
    }
}
