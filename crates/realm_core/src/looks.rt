ghost use Rattle.std.specs.Prelude.{◌≡◌};
ghost use Rattle.realm_core.specs.{Looked, Telling.Shown, TicketLooked};

use crate::RealmName;
use crate::state::RealmCore;
use scope_rules::Catalog;
use share_ledger::{OwnerShare, Ticket};

/// The looks: what was seen then is what `realm` lends to be asked.
impl<C: Catalog, N: RealmName> RealmCore<C, N> {
    /// Lets the token see all that has happened.
    pub fn look(&mut self, share: &mut OwnerShare)
        requires named { share.old.table ≡ N.table }
        ensures steps { Shown self.old self.new share.new }
        ensures looks { Looked share.old share.new }
    {
        let _legal = self.realm.limits();
        self.keeper.follow(share);
    }

    /// Lets the ticket see all that has happened: of its own task, that is nothing new.
    pub fn look_with_ticket(&mut self, ticket: &mut Ticket)
        requires named { ticket.old.table ≡ N.table }
        ensures steps { (self.new ≡ self.old) × (ticket.new.seen ≡ self.old.steps) }
        ensures looks { TicketLooked ticket.old ticket.new }
    {
        let _legal = self.realm.limits();
        self.keeper.follow_ticket(ticket);
    }
}
