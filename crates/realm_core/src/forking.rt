ghost use Rattle.std.specs.Prelude.{◌≡◌, is_ok};
ghost use Rattle.realm_core.specs.{DoesOrMemory, GivesTicket, Stepped, fork_reply, ticket_aside};

use crate::RealmName;
use crate::state::RealmCore;
use scope_checks::EventReply;
use scope_rules::{Catalog, Event, ForkReply, Label, Refusal, ScopeId, TaskId};
use share_ledger::{OwnerShare, RealmStep, Ticket};

/// What a fork gives.
#[derive(Drop)]
pub enum Forked {
    /// The task gets a thread, and this is its ticket.
    Thread(Ticket),
    /// The scope is cancelled: the task never gets a thread (JEP 505, a fork in a cancelled scope).
    Never(TaskId),
}

impl<C: Catalog, N: RealmName> RealmCore<C, N> {
    /// Forks the next task in the actor's scope (JEP 505, `fork`), and gives its ticket, unless the scope
    /// is cancelled. Refused if the actor is no running task or main, for a scope that is unknown
    /// (`NoScope`, `Retired`), another's (`NotOwner`), closing or closed (`Closed`) or joined
    /// (`AlreadyJoined`), while the actor's bindings are not those at the scope's opening (`Structure`;
    /// JEP 506), and where a limit is met (`TooMany`).
    pub fn fork(
        &mut self,
        share: &mut OwnerShare,
        scope: ScopeId,
        label: Label,
    ) -> Result<Forked, Refusal>
        requires named { share.old.table ≡ N.table }
        ensures steps { Stepped self.old self.new share.new (RealmStep.Happened (Event.Fork share.old.actor scope label)) (is_ok result) }
        ensures answer { DoesOrMemory share.old share.new (RealmStep.Happened (Event.Fork share.old.actor scope label)) (λ h. fork_reply h scope) (ticket_aside result) }
        ensures ticket { GivesTicket share.new scope label result }
    {
        let actor = share.actor();
        let event = Event::Fork {
            actor,
            scope,
            label,
        };
        match self.realm.perform(&event, false, None) {
            Ok(EventReply::Task(ForkReply::Thread(task))) => {
                let ticket = self.keeper.fork(share, task, scope, &label);
                Ok(Forked::Thread(ticket))
            }
            Ok(EventReply::Task(ForkReply::Never(task))) => {
                self.keeper.fork_never(share, scope, &label);
                Ok(Forked::Never(task))
            }
            Ok(_) => unreachable!(),
            Err(refusal) => {
                self.keeper.follow(share);
                Err(refusal)
            }
        }
    }
}
