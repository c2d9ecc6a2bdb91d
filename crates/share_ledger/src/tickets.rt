ghost use Rattle.std.specs.Prelude.{◌≡◌, None, Some, false, true};
ghost use Rattle.share_ledger.specs.{IsTicket, IsWaiting, end_in, finished_count, given_count, grant_in, limits_of, started_count, steps_of, sum_by, view_of};

use crate::views::LedgerView;
use atomic_table::Badge;
use scope_rules::{End, Label, ScopeId, TaskId};
use std::marker::Model;

/// The ticket of a task that was given a thread. It has seen a beginning of the realm's list of steps,
/// which has all of the task's own: its reject, its start and its end.
#[derive(Drop)]
pub struct Ticket {
    pub(crate) task: TaskId,
    scope: ScopeId,
    label: Label,
    pub(crate) given: bool,
    pub(crate) started: bool,
    pub(crate) end: Option<End>,
    pub(crate) badge: Badge<LedgerView>,
}

impl Model for Ticket {
    ghost use Rattle.share_ledger.specs.Desks.{limits_of, steps_of, view_of};
    ghost use Rattle.share_ledger.specs.Values.{TicketValue, IsTicket};

    ghost Value = { TicketValue };

    ghost view = { λ t. record { table = t.badge.table_id; limits = limits_of (view_of t.badge.views); task = t.task; scope = t.scope; label = t.label; seen = steps_of (view_of t.badge.views) } };

    ghost invariant = { λ t. IsTicket t.task t.scope t.label t.given t.started t.end t.badge.views };
}

/// How many tickets were given a thread, started and finished.
#[derive(Clone, Copy, PartialEq, Eq)]
pub struct Totals {
    pub given: u64,
    pub started: u64,
    pub finished: u64,
}

impl Ticket {
    /// The ticket that the badge is, of a task that was forked so and has no own step yet.
    pub(crate) fn new(
        task: TaskId,
        scope: ScopeId,
        label: Label,
        badge: Badge<LedgerView>,
    ) -> Ticket
        requires { IsTicket task scope label true false None badge.views }
        ensures ticket { result ≡ record { table = badge.table_id; limits = limits_of (view_of badge.views); task = task; scope = scope; label = label; seen = steps_of (view_of badge.views) } }
        ensures waiting { IsWaiting result }
        ensures unended { end_in task result.seen ≡ None }
    {
        Ticket {
            task,
            scope,
            label,
            given: true,
            started: false,
            end: None,
            badge,
        }
    }

    /// The task.
    pub fn task(&self) -> TaskId
        ensures { result ≡ self.now.task }
    {
        self.task
    }

    /// The scope in which the task was forked.
    pub fn scope(&self) -> ScopeId
        ensures { result ≡ self.now.scope }
    {
        self.scope
    }

    /// What the task was forked with. It also says of the list that it has that fork, which gave the task
    /// a thread.
    pub fn label(&self) -> Label
        ensures label { result ≡ self.now.label }
        ensures granted { grant_in self.now.task self.now.seen ≡ Some (record { scope = self.now.scope; label = self.now.label }) }
    {
        self.label
    }

    /// 1 if the task was given a thread and not rejected, else 0.
    pub fn given(&self) -> u64
        ensures { result ≡ given_count self.now }
    {
        u64::from(self.given)
    }

    /// 1 if the task was started, else 0.
    pub fn started(&self) -> u64
        ensures { result ≡ started_count self.now }
    {
        u64::from(self.started)
    }

    /// 1 if the task has ended, else 0.
    pub fn finished(&self) -> u64
        ensures { result ≡ finished_count self.now }
    {
        u64::from(self.end.is_some())
    }

    /// How the task ended, if it has.
    pub fn end(&self) -> Option<End>
        ensures { result ≡ end_in self.now.task self.now.seen }
    {
        self.end
    }
}

/// The sums of what the tickets say of themselves.
pub fn gather(tickets: &[Ticket]) -> Totals
    ensures given { result.given ≡ sum_by given_count tickets.now }
    ensures started { result.started ≡ sum_by started_count tickets.now }
    ensures finished { result.finished ≡ sum_by finished_count tickets.now }
{
    let mut totals = Totals {
        given: 0,
        started: 0,
        finished: 0,
    };
    for ticket in tickets {
        totals.given += ticket.given();
        totals.started += ticket.started();
        totals.finished += ticket.finished();
    }
    totals
}
