ghost use Rattle.std.specs.Prelude.{◌≡◌, IsOk, MatchResult, None, false};
ghost use Rattle.realm_lock.specs.{Added, Endings.Ends, Fitting, IsRunning, IsWaiting, MayFinish, SeesMore, TicketAdded, given_in, history_of, history_seen, innermost};

use crate::realm::Realm;
use realm_core::RealmName;
use scope_rules::{Catalog, End, Event, Refusal};
use share_ledger::{OwnerShare, RealmStep, Ticket};
use std::sync::Wait;

/// The calls with a ticket, each one hold of the lock. None takes memory, and none can find its task at
/// another stage than the ticket says. In what the ticket has seen then, each end fits its task's label.
impl<C: Catalog, N: RealmName> Realm<C, N> {
    /// Records that no thread was available for the ticket's task.
    pub fn reject<R: Wait>(&self, rt: &R, mut ticket: Ticket) -> Ticket
        requires named { ticket.table ≡ N.table }
        requires waiting { IsWaiting ticket }
        ensures added { TicketAdded ticket result (RealmStep.Happened (Event.Reject ticket.task)) }
        ensures given { given_in result.task result.seen ≡ false }
        ensures fitting { Fitting C.fitting (history_of result.seen) }
    {
        let mut locked = self.shared.lock(rt);
        locked.reject(&mut ticket);
        ticket
    }

    /// The same, and lets the actor's token see it: the reject is then the last step of what it has seen.
    pub fn reject_with<R: Wait>(&self, rt: &R, token: &mut OwnerShare, mut ticket: Ticket) -> Ticket
        requires named { (token.old.table ≡ N.table) × (ticket.table ≡ N.table) }
        requires waiting { IsWaiting ticket }
        ensures added { TicketAdded ticket result (RealmStep.Happened (Event.Reject ticket.task)) }
        ensures given { given_in result.task result.seen ≡ false }
        ensures token { SeesMore token.old token.new × Added token.old token.new (RealmStep.Happened (Event.Reject ticket.task)) }
        ensures fitting { Fitting C.fitting (history_of result.seen) × Fitting C.fitting (history_seen token.new) }
    {
        let mut locked = self.shared.lock(rt);
        locked.reject_with(token, &mut ticket);
        ticket
    }

    /// Starts the ticket's task, whose thread has come, and gives the task's token.
    pub fn start<R: Wait>(&self, rt: &R, mut ticket: Ticket) -> (Ticket, OwnerShare)
        requires named { ticket.table ≡ N.table }
        requires waiting { IsWaiting ticket }
        ensures added { TicketAdded ticket result.0 (RealmStep.Happened (Event.Start ticket.task)) }
        ensures running { IsRunning result.0 }
        ensures token { result.1 ≡ record { table = N.table; limits = ticket.limits; actor = ticket.task; seen = result.0.seen } }
        ensures fitting { Fitting C.fitting (history_of result.0.seen) }
    {
        let mut locked = self.shared.lock(rt);
        let token = locked.start(&mut ticket);
        (ticket, token)
    }

    /// Records the end of the ticket's task, which runs, and takes the task's token. Refused only while
    /// the task has a scope that is not closed (`Structure`), so never if the token shows that it has none;
    /// then ticket and token are handed back, and the task runs on.
    pub fn finish<R: Wait>(
        &self,
        rt: &R,
        mut ticket: Ticket,
        token: OwnerShare,
        end: End,
    ) -> Result<Ticket, (Refusal, Ticket, OwnerShare)>
        requires token { token.table ≡ N.table }
        requires task { MayFinish N.table C.fitting ticket token end }
        ensures answer { Ends ticket token end result }
        ensures sure { innermost (history_seen token) token.actor ≡ None → IsOk result }
        ensures fitting { MatchResult result (λ ticket. Fitting C.fitting (history_of ticket.seen)) (λ back. Fitting C.fitting (history_of back.1.seen)) }
    {
        let mut locked = self.shared.lock(rt);
        let (finished, owed) = locked.finish(&mut ticket, token, end);
        drop(locked);
        match owed {
            Some(owed) => owed.wake(),
            None => {}
        }
        match finished {
            Ok(()) => Ok(ticket),
            Err((refusal, token)) => Err((refusal, ticket, token)),
        }
    }
}
