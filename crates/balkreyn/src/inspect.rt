//! What is seen of a realm, without a token.
ghost use Rattle.balkreyn.specs.{HasReached, IsSeen, Looks.Says, SaysWhen, dump_text, script_text, tree_text};

use crate::copies::{CopyOut, dump_in, journal_in, timed_in, tree_in};
use crate::times::{Counting, Reached, Times};
use realm_lock::{Realm, RealmName};
use scope_rules::{Catalog, Refusal};
use std::alloc::Global;
use std::sync::Wait;

/// What shows itself from outside, while others act on it: any thread that has a share of a realm may ask, as a
/// service's that looks at a request which takes too long. The realm's lock is held while the events since the last
/// retirement are copied, and no longer: the text is made of the copy.
///
/// A job that looks at its realm, unless a cancel comes first:
///
/// ```rust
/// impl<K: Handle, N: RealmName, S: Spawner<N>> TypedJob<S, N> for Watch<K, N> {
///     fn run_typed<R: Wait>(
///         self,
///         rt: &R,
///         ctx: &mut TaskCtx<AnyEnd, S, N>,
///         name: Name,
///     ) -> Result<Seen, Fault> {
///         let mut clock = self.clock;
///         let until = clock.now().saturating_add(self.millis);
///         match ctx.wait_by(&clock.runtime(), &mut clock, Some(until), None) {
///             Ok(None) => match (
///                 self.realm.tree(rt, self.alloc),
///                 self.realm.dump(rt, self.alloc),
///                 ctx.journal(rt, self.alloc),
///             ) {
///                 (Ok(tree), Ok(dump), Ok(script)) => Ok(Seen { tree, dump, script }),
///                 _ => Err(Fault(name)),
///             },
///             _ => Err(Fault(name)), // the request came to its end before
///         }
///     }
/// }
/// ```
pub trait Inspect {
    ghost use Rattle.scope_rules.specs.History.{History};

    /// It is so of a history that it may have come to.
    ghost seen: { (History → Type 0) → Type 0 };

    /// The tree of the scopes that are not closed, as text for a terminal: a line for each scope and for each
    /// of its tasks, with how far it has come, why it is cancelled and what is still awaited.
    ///
    /// # Errors
    /// `Memory`.
    fn tree<R: Wait>(&self, rt: &R, alloc: Global) -> Result<String, Refusal>
        ensures { Self.seen (λ h. Says (tree_text h) result) };

    /// The same tree for programs, as JSON without blanks: what `scopectl dump` writes of a script.
    ///
    /// # Errors
    /// `Memory`.
    fn dump<R: Wait>(&self, rt: &R, alloc: Global) -> Result<String, Refusal>
        ensures { Self.seen (λ h. Says (dump_text h) result) };

    /// What happened since the last retirement, as a script that `scopectl replay` plays and `scopectl dump`
    /// draws. Scopes and tasks are counted from that retirement on; what end a label expects is left out.
    ///
    /// # Errors
    /// `Memory`.
    fn journal<R: Wait>(&self, rt: &R, alloc: Global) -> Result<String, Refusal>
        ensures { Self.seen (λ h. Says (script_text h) result) };

    /// How far the history has come: a look that reads three numbers, for `Times::note`.
    fn reached<R: Wait>(&self, rt: &R) -> Reached
        ensures { Self.seen (λ h. HasReached h result) };

    /// The journal with times: before an event whose time is another than the last a comment `# at N`, in milliseconds,
    /// and behind all of them the time of this look. A script passes over comments, so it plays as the journal does.
    ///
    /// # Errors
    /// `Memory`.
    fn timed_journal<R: Wait>(
        &self,
        rt: &R,
        alloc: Global,
        times: &Times,
        now: u64,
    ) -> Result<String, Refusal>
        ensures { Self.seen (λ h. SaysWhen h times.now.found.items now result) };
}

impl<C: Catalog, N: RealmName> Inspect for Realm<C, N> {
    ghost seen = { λ said. IsSeen C.fitting said };

    fn tree<R: Wait>(&self, rt: &R, alloc: Global) -> Result<String, Refusal> {
        tree_in(alloc, self.look_from_outside(rt, CopyOut { alloc }))
    }

    fn dump<R: Wait>(&self, rt: &R, alloc: Global) -> Result<String, Refusal> {
        dump_in(alloc, self.look_from_outside(rt, CopyOut { alloc }))
    }

    fn journal<R: Wait>(&self, rt: &R, alloc: Global) -> Result<String, Refusal> {
        journal_in(alloc, self.look_from_outside(rt, CopyOut { alloc }))
    }

    fn reached<R: Wait>(&self, rt: &R) -> Reached {
        self.look_from_outside(rt, Counting)
    }

    fn timed_journal<R: Wait>(
        &self,
        rt: &R,
        alloc: Global,
        times: &Times,
        now: u64,
    ) -> Result<String, Refusal> {
        timed_in(
            alloc,
            self.look_from_outside(rt, CopyOut { alloc }),
            times,
            now,
        )
    }
}
