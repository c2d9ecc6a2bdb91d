ghost use Rattle.std.specs.Prelude.{◌≡◌, IsOk, None, false, is_ok, true};
ghost use Rattle.realm_core.specs.{Finishes, IsRunning, IsWaiting, MayFinish, TicketAdded, TicketStepped, given_in, history_seen, innermost};

use crate::RealmName;
use crate::events::done;
use crate::state::RealmCore;
use scope_rules::{Catalog, End, Event, Refusal};
use share_ledger::{OwnerShare, RealmStep, Ticket};

/// The calls with a ticket. The task of a ticket that is given and not started waits, whatever others did
/// meanwhile, and that of one that is started and not finished runs. None takes memory.
impl<C: Catalog, N: RealmName> RealmCore<C, N> {
    /// Records that no thread was available for the ticket's task.
    pub fn reject(&mut self, ticket: &mut Ticket)
        requires named { ticket.old.table ≡ N.table }
        requires waiting { IsWaiting ticket.old }
        ensures steps { TicketStepped self.old self.new ticket.new (RealmStep.Happened (Event.Reject ticket.old.task)) true }
        ensures added { TicketAdded ticket.old ticket.new (RealmStep.Happened (Event.Reject ticket.old.task)) }
        ensures given { given_in ticket.new.task ticket.new.seen ≡ false }
    {
        let task = ticket.task();
        self.keeper.reject(ticket);
        let rejected = done(&mut self.realm, &Event::Reject { task });
        prove!(rejected.is_ok());
    }

    /// Starts the ticket's task, whose thread has come, and gives the task's token.
    pub fn start(&mut self, ticket: &mut Ticket) -> OwnerShare
        requires named { ticket.old.table ≡ N.table }
        requires waiting { IsWaiting ticket.old }
        ensures steps { TicketStepped self.old self.new ticket.new (RealmStep.Happened (Event.Start ticket.old.task)) true }
        ensures added { TicketAdded ticket.old ticket.new (RealmStep.Happened (Event.Start ticket.old.task)) }
        ensures running { IsRunning ticket.new }
        ensures token { result ≡ record { table = N.table; limits = ticket.old.limits; actor = ticket.old.task; seen = ticket.new.seen } }
    {
        let task = ticket.task();
        let token = self.keeper.start(ticket);
        let started = done(&mut self.realm, &Event::Start { task });
        prove!(started.is_ok());
        token
    }

    /// Records the end of the ticket's task, which runs, and takes the task's token, with which nothing else
    /// is added. Refused only while the task has a scope that is not closed (`Structure`), so never if the
    /// token shows that it has none; then the token is handed back, and the task runs on.
    pub fn finish(
        &mut self,
        ticket: &mut Ticket,
        mut share: OwnerShare,
        end: End,
    ) -> Result<(), (Refusal, OwnerShare)>
        requires token { share.table ≡ N.table }
        requires task { MayFinish N.table C.fitting ticket.old share end }
        ensures steps { TicketStepped self.old self.new ticket.new (RealmStep.Happened (Event.Finish ticket.old.task end)) (is_ok result) }
        ensures answer { Finishes ticket.old ticket.new share end result }
        ensures sure { innermost (history_seen share) share.actor ≡ None → IsOk result }
    {
        let _granted = ticket.label();
        self.keeper.follow_ticket(ticket);
        let task = ticket.task();
        match done(&mut self.realm, &Event::Finish { task, end }) {
            Ok(()) => {
                self.keeper.finish(ticket, share, end);
                Ok(())
            }
            Err(refusal) => {
                self.keeper.follow(&mut share);
                Err((refusal, share))
            }
        }
    }
}
