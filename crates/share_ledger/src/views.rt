use crate::{Holder, RealmStep};
use scope_rules::Limits;
use std::collections::LinkedList;

/// What a token or a ticket knows. No value of it is made.
pub struct Share {
    pub limits: Limits,
    pub holder: Holder,
    pub seen: LinkedList<RealmStep>,
}

/// What a seat of the table knows. No value of it is made.
pub enum LedgerView {
    /// The keeper's, before the realm has limits.
    Opening,
    /// The keeper's: the whole list, a share that was just handed in, and the holders whose shares are
    /// in the keeper's hand.
    Keeping {
        limits: Limits,
        steps: LinkedList<RealmStep>,
        arrived: Option<Share>,
        hand: LinkedList<Holder>,
    },
    /// A token's or a ticket's.
    Holding(Share),
    /// That of a share that was handed in.
    Spent,
}

/// What the keeper says in a step on the table.
#[derive(Clone, Copy)]
pub enum Said {
    Limited(Limits),
    Stepped(RealmStep),
}
