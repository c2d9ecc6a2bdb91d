ghost use Rattle.std.specs.Prelude.{[], ◌++◌, ◌+◌, ◌∷◌, ◌≡◌, None, Some, false, true};
ghost use Rattle.share_ledger.specs.{IsReady, IsWaiting, OwnerAgrees, TicketAgrees, end_in, finished_in, given_in, history_of, is_cancelled, is_recorded_by, limits_of, started_in, step_by, steps_of, tasks};

use crate::RealmStep;
use crate::desk::Desk;
use crate::shares::OwnerShare;
use crate::tickets::Ticket;
use scope_rules::types::values::MAIN;
use scope_rules::{End, Event, Label, Limits, ScopeId, TaskId};
use std::marker::Model;

/// The keeper of a realm's list of steps. Whoever has it, and the share of each holder whose own the
/// step is, takes the next step. It lies under the realm's lock.
#[derive(Drop)]
pub struct Keeper {
    desk: Desk,
}

impl Model for Keeper {
    ghost use Rattle.std.specs.Prelude.{[]};
    ghost use Rattle.share_ledger.specs.Desks.{limits_of, steps_of, IsReady};
    ghost use Rattle.share_ledger.specs.Values.{KeeperValue};

    ghost Value = { KeeperValue };

    ghost view = { λ k. record { table = k.desk.seat.table_id; limits = limits_of k.desk.seat.me.0; steps = steps_of k.desk.seat.me.0 } };

    ghost invariant = { λ k. IsReady k.desk.seat.me.0 [] };
}

impl Keeper {
    /// The keeper at the desk.
    pub(crate) fn new(desk: Desk) -> Keeper
        requires { IsReady desk.seat.me.0 [] }
        ensures { result ≡ record { table = desk.seat.table_id; limits = limits_of desk.seat.me.0; steps = steps_of desk.seat.me.0 } }
    {
        Keeper { desk }
    }

    /// Appends the event, which is the token's actor's own, or what it asks for. The token has then seen the
    /// whole list. What it had seen before agreed with the list.
    pub fn record(&mut self, share: &mut OwnerShare, event: &Event)
        requires table { share.old.table ≡ self.old.table }
        requires event { is_recorded_by share.old.actor event.now ≡ true }
        ensures keeper { self.new ≡ record self.old { steps = self.old.steps ++ step_by share.old.actor event.now ∷ [] } }
        ensures share { share.new ≡ record share.old { seen = self.new.steps } }
        ensures agreed { OwnerAgrees share.old self.old }
    {
        let step = RealmStep::by(share.actor, event);
        self.desk.step_alone(&mut share.badge, step);
    }

    /// Appends a retirement, which is main's.
    pub fn retire(&mut self, share: &mut OwnerShare)
        requires table { share.old.table ≡ self.old.table }
        requires main { share.old.actor ≡ MAIN }
        ensures keeper { self.new ≡ record self.old { steps = self.old.steps ++ RealmStep.Retirement ∷ [] } }
        ensures share { share.new ≡ record share.old { seen = self.new.steps } }
        ensures agreed { OwnerAgrees share.old self.old }
    {
        self.desk
            .step_alone(&mut share.badge, RealmStep::Retirement);
    }

    /// The token has seen the whole list. What it had seen before agreed with the list.
    pub fn follow(&mut self, share: &mut OwnerShare)
        requires table { share.old.table ≡ self.old.table }
        ensures keeper { self.new ≡ self.old }
        ensures share { share.new ≡ record share.old { seen = self.old.steps } }
        ensures agreed { OwnerAgrees share.old self.old }
    {
        self.desk.refresh(&mut share.badge);
    }

    /// The same, for a ticket.
    pub fn follow_ticket(&mut self, ticket: &mut Ticket)
        requires table { ticket.old.table ≡ self.old.table }
        ensures keeper { self.new ≡ self.old }
        ensures ticket { ticket.new ≡ record ticket.old { seen = self.old.steps } }
        ensures agreed { TicketAgrees ticket.old self.old }
    {
        self.desk.refresh(&mut ticket.badge);
    }

    /// Appends a fork, which gives the next task a thread: the scope is not cancelled. The task's ticket
    /// is given out; no step of the task's own was taken yet.
    pub fn fork(
        &mut self,
        share: &mut OwnerShare,
        task: TaskId,
        scope: ScopeId,
        label: &Label,
    ) -> Ticket
        requires table { share.old.table ≡ self.old.table }
        requires number { task ≡ tasks (history_of self.old.steps) + 1 }
        requires live { is_cancelled (history_of self.old.steps) scope ≡ false }
        ensures keeper { self.new ≡ record self.old { steps = self.old.steps ++ RealmStep.Happened (Event.Fork share.old.actor scope label.now) ∷ [] } }
        ensures share { share.new ≡ record share.old { seen = self.new.steps } }
        ensures agreed { OwnerAgrees share.old self.old }
        ensures ticket { result ≡ record { table = self.old.table; limits = self.old.limits; task = task; scope = scope; label = label.now; seen = self.new.steps } }
        ensures waiting { IsWaiting result }
        ensures unended { end_in task result.seen ≡ None }
    {
        let event = Event::Fork {
            actor: share.actor,
            scope,
            label: *label,
        };
        let new = self
            .desk
            .step_naming(&mut share.badge, RealmStep::Happened(event));
        Ticket::new(task, scope, *label, new)
    }

    /// Appends a fork whose task never gets a thread. Nobody has its ticket.
    pub fn fork_never(&mut self, share: &mut OwnerShare, scope: ScopeId, label: &Label)
        requires table { share.old.table ≡ self.old.table }
        ensures keeper { self.new ≡ record self.old { steps = self.old.steps ++ RealmStep.Happened (Event.Fork share.old.actor scope label.now) ∷ [] } }
        ensures share { share.new ≡ record share.old { seen = self.new.steps } }
        ensures agreed { OwnerAgrees share.old self.old }
    {
        let event = Event::Fork {
            actor: share.actor,
            scope,
            label: *label,
        };
        drop(
            self.desk
                .step_naming(&mut share.badge, RealmStep::Happened(event)),
        );
    }

    /// Appends the reject of the ticket's task, which waits.
    pub fn reject(&mut self, ticket: &mut Ticket)
        requires table { ticket.old.table ≡ self.old.table }
        requires waiting { IsWaiting ticket.old }
        ensures keeper { self.new ≡ record self.old { steps = self.old.steps ++ RealmStep.Happened (Event.Reject ticket.old.task) ∷ [] } }
        ensures ticket { ticket.new ≡ record ticket.old { seen = self.new.steps } }
        ensures given { given_in ticket.new.task ticket.new.seen ≡ false }
        ensures agreed { TicketAgrees ticket.old self.old }
    {
        let event = Event::Reject { task: ticket.task };
        self.desk
            .step_alone(&mut ticket.badge, RealmStep::Happened(event));
        ticket.given = false;
    }

    /// Appends the start of the ticket's task, which waits, and gives out the share of its token.
    pub fn start(&mut self, ticket: &mut Ticket) -> OwnerShare
        requires table { ticket.old.table ≡ self.old.table }
        requires waiting { IsWaiting ticket.old }
        ensures keeper { self.new ≡ record self.old { steps = self.old.steps ++ RealmStep.Happened (Event.Start ticket.old.task) ∷ [] } }
        ensures ticket { ticket.new ≡ record ticket.old { seen = self.new.steps } }
        ensures started { started_in ticket.new.task ticket.new.seen ≡ true }
        ensures share { result ≡ record { table = self.old.table; limits = self.old.limits; actor = ticket.old.task; seen = self.new.steps } }
        ensures agreed { TicketAgrees ticket.old self.old }
    {
        let event = Event::Start { task: ticket.task };
        let new = self
            .desk
            .step_naming(&mut ticket.badge, RealmStep::Happened(event));
        ticket.started = true;
        OwnerShare::new(ticket.task, new)
    }

    /// Appends the end of the ticket's task, which has none yet. It takes the share of the task's token,
    /// which has no step any more.
    pub fn finish(&mut self, ticket: &mut Ticket, share: OwnerShare, end: End)
        requires table { (ticket.old.table ≡ self.old.table) × (share.table ≡ self.old.table) }
        requires actor { share.actor ≡ ticket.old.task }
        requires unfinished { finished_in ticket.old.task ticket.old.seen ≡ false }
        ensures keeper { self.new ≡ record self.old { steps = self.old.steps ++ RealmStep.Happened (Event.Finish ticket.old.task end) ∷ [] } }
        ensures ticket { ticket.new ≡ record ticket.old { seen = self.new.steps } }
        ensures ended { end_in ticket.new.task ticket.new.seen ≡ Some end }
        ensures agreed { TicketAgrees ticket.old self.old }
        ensures token_agreed { OwnerAgrees share self.old }
    {
        let event = Event::Finish {
            task: ticket.task,
            end,
        };
        self.desk
            .step_together(&mut ticket.badge, share.badge, RealmStep::Happened(event));
        ticket.end = Some(end);
    }
}
