ghost use Rattle.std.specs.Prelude.{◌≡◌};

use crate::names::RealmName;
use crate::shares::OwnerShare;
use crate::tickets::Ticket;
use std::marker::{Model, PhantomData};

/// What is of one realm, of which contracts see the table: a ticket or a token.
pub trait Named {
    ghost use Rattle.atomic_table.specs.Seated.{TableId};

    /// The table of its realm.
    ghost table_of: { Self → TableId };
}

impl Named for Ticket {
    ghost table_of = { λ ticket. ticket.table };
}

impl Named for OwnerShare {
    ghost table_of = { λ share. share.table };
}

/// A ticket or a token of the realm that is named `N`. Contracts see the ticket or the token.
#[derive(Drop)]
pub struct OfRealm<N: RealmName, T: Named> {
    pub held: T,
    realm: PhantomData<N>,
}

impl<N: RealmName, T: Named> Model for OfRealm<N, T> {
    ghost use Rattle.std.specs.Prelude.{◌≡◌};

    ghost Value = { T };

    ghost view = { λ o. o.held };

    ghost invariant = { λ o. T.table_of o.held ≡ N.table };
}

impl<N: RealmName, T: Named> OfRealm<N, T> {
    /// What is of that realm.
    pub fn new(held: T) -> OfRealm<N, T>
        requires { T.table_of held ≡ N.table }
        ensures { result ≡ held }
    {
        OfRealm {
            held,
            realm: PhantomData,
        }
    }

    /// What is held, to be handed on.
    pub fn into_held(self) -> T
        ensures same { result ≡ self }
        ensures named { T.table_of result ≡ N.table }
    {
        self.held
    }
}
