//! A look at the whole of a realm.
ghost use Rattle.std.specs.Prelude.{◌≡◌};
ghost use Rattle.realm_lock.specs.{IsSeen, Reads};

use crate::realm::Realm;
use realm_core::{RealmCore, RealmName};
use realm_state::RealmState;
use scope_rules::Catalog;
use share_ledger::OwnerShare;
use std::sync::Wait;

/// What is read off a realm at once: a picture of it, say. All that it reads is of one history.
pub trait Look {
    ghost use Rattle.scope_rules.specs.History.{History};

    /// Of what type it is.
    type Answer;

    /// This is what is read off a realm of that history.
    ghost tells: { Self → History → Self.Answer → Type 0 };

    /// Reads it off. The realm's lock is held meanwhile.
    fn look(self, realm: &RealmState) -> Self::Answer
        ensures { Self.tells self realm.now.history result };
}

/// Looks, each in one hold of the lock. They add nothing.
impl<C: Catalog, N: RealmName> Realm<C, N> {
    /// What the look reads off the realm, with any actor's token: of all that the token has seen then.
    pub fn look<R: Wait, L: Look>(&self, rt: &R, token: &mut OwnerShare, look: L) -> L::Answer
        requires named { token.old.table ≡ N.table }
        ensures { Reads token.old token.new (λ h. L.tells look h result) }
    {
        let mut locked = self.shared.lock(rt);
        locked.look(token);
        look.look(locked.core().realm())
    }

    /// What the look reads off the realm as it is, without a token: any thread that has a share of the
    /// realm may ask, while all tokens are in use. So what is answered is known to be of a history that such a
    /// realm may come to; that it is the present one, tests show.
    pub fn look_from_outside<R: Wait, L: Look>(&self, rt: &R, look: L) -> L::Answer
        ensures { IsSeen C.fitting (λ h. L.tells look h result) }
    {
        let locked = self.shared.lock(rt);
        seen(locked.core(), look)
    }
}

/// What the look reads off what lies under a realm's lock.
fn seen<C: Catalog, N: RealmName, L: Look>(core: &RealmCore<C, N>, look: L) -> L::Answer
    ensures { IsSeen C.fitting (λ h. L.tells look h result) }
{
    let _limits = core.limits();
    look.look(core.realm())
}
