use realm_lock::{Realm, RealmName};
use scope_rules::Catalog;
use std::marker::Model;

/// A share of the realm. Contracts see nothing of it, since what its calls do is said of tokens and tickets:
/// so what lies in a realm is compared with nothing if a type has a share of it.
#[derive(Drop)]
pub(crate) struct OpaqueRealm<C: Catalog, N: RealmName> {
    held: Realm<C, N>,
}

impl<C: Catalog, N: RealmName> Model for OpaqueRealm<C, N> {
    ghost Value = { Unit {0} };

    ghost view = { λ r. tt };
}

impl<C: Catalog, N: RealmName> OpaqueRealm<C, N> {
    /// The share of the realm.
    pub(crate) fn new(held: Realm<C, N>) -> OpaqueRealm<C, N> {
        OpaqueRealm { held }
    }

    /// The share, for a call.
    pub(crate) fn lent(&self) -> &Realm<C, N> {
        &self.held
    }

    /// One share more. None if std's count of holders is full.
    pub(crate) fn again(&self) -> Option<OpaqueRealm<C, N>> {
        let held = self.held.share().ok()?;
        Some(OpaqueRealm { held })
    }
}
