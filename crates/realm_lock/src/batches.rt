ghost use Rattle.std.specs.Prelude.{◌≡◌, ◌⊎◌, IfErr, IfOk};
ghost use Rattle.realm_lock.specs.{Fitting, ForksAll, ForksUpTo, SeesMore, history_seen};

use crate::realm::Realm;
use realm_core::{Forked, RealmName};
use scope_rules::{Catalog, Label, Refusal, ScopeId};
use share_ledger::OwnerShare;
use std::alloc::Global;
use std::sync::Wait;

/// Batches of commands, each batch in one hold of the lock.
impl<C: Catalog, N: RealmName> Realm<C, N> {
    /// Forks a task of each label in the actor's scope (JEP 505, `fork`), in the order of the labels, in
    /// one hold of the lock, so that no step of another stands between two of them. It gives what each
    /// fork gives, in that order: the ticket of a task of the label, unless the scope is cancelled. It
    /// stops at the first fork that is refused, and then gives what the forks before it gave, with the
    /// refusal. The list of what they give has its memory before the first fork.
    ///
    /// # Errors
    ///
    /// Those of `fork` for the first label whose fork is refused; the labels after it are not forked.
    /// `Memory` too if there is no room to list what the forks give: then nothing is recorded.
    pub fn fork_all<R: Wait>(
        &self,
        rt: &R,
        alloc: Global,
        token: &mut OwnerShare,
        scope: ScopeId,
        labels: &[Label],
    ) -> Result<Vec<Forked>, (Refusal, Vec<Forked>)>
        requires named { token.old.table ≡ N.table }
        ensures seen { SeesMore token.old token.new }
        ensures all { IfOk result (λ forked. ForksAll token.old token.new scope labels.now forked.items) }
        ensures some { IfErr result (λ back. ForksUpTo token.old token.new scope labels.now back.1.items back.0) }
        ensures fitting { (token.new ≡ token.old) ⊎ Fitting C.fitting (history_seen token.new) }
    {
        let mut forked = Vec::new(alloc);
        if forked.reserve(labels.len()).is_err() {
            return Err((Refusal::Memory, forked));
        }
        let mut locked = self.shared.lock(rt);
        match locked.fork_all(token, scope, labels, &mut forked) {
            Ok(()) => Ok(forked),
            Err(refusal) => Err((refusal, forked)),
        }
    }
}
