//! A realm without its rules: the keeper of its steps and main's share, in which no scope is ever opened. So each
//! fork gives a thread, and nothing is refused.
ghost use Rattle.std.specs.Prelude.{◌≡◌, ◌+◌, ◌-◌, ◌^◌, ◌↔◌, IfSome, IsNone, OnSome};
ghost use Rattle.pool_tests.specs.Tickets.{IsEnded, IsForked, IsNew, IsPlain, Runs};

use scope_rules::{End, Label, Limits, TaskId};
use share_ledger::{Keeper, OwnerShare, RealmName, Seed, Ticket};
use std::marker::PhantomData;

/// The keeper of the realm that is named `N`, with main's share.
#[derive(Drop)]
pub struct Ledger<N: RealmName> {
    keeper: Keeper,
    main: OwnerShare,
    /// How many tasks were forked.
    pub forked: TaskId,
    of: PhantomData<N>,
    ghost plain: { IsPlain N.table keeper main forked },
}

impl<N: RealmName> Ledger<N> {
    /// The ledger of a realm with no task.
    pub fn new(seed: Seed) -> Ledger<N>
        requires { seed ≡ N.table }
        ensures { result.forked ≡ 0 }
    {
        let (keeper, main) = seed.begin(Limits::GREATEST);
        Ledger {
            keeper,
            main,
            forked: 0,
            of: PhantomData,
        }
    }

    /// Main forks the next task, in scope 1. None once all numbers were given; nothing is forked then.
    pub fn fork(&mut self, label: &Label) -> Option<Ticket>
        ensures ticket { IfSome result (λ ticket. IsNew N.table ticket × IsForked self.new.forked label.now ticket) }
        ensures next { IfSome result (λ ticket. self.new.forked ≡ self.old.forked + 1) }
        ensures none { IsNone result ↔ (self.old.forked ≡ 2 ^ 32 - 1) }
        ensures kept { IsNone result → self.new ≡ self.old }
    {
        let task = self.forked.checked_add(1)?;
        let ticket = self.keeper.fork(&mut self.main, task, 1, label);
        self.forked = task;
        Some(ticket)
    }

    /// The task of the ticket starts, and its token is given out.
    pub fn start(&mut self, ticket: &mut Ticket) -> OwnerShare
        requires { IsNew N.table ticket.old }
        ensures ticket { Runs N.table ticket.old ticket.new }
        ensures token { (result.table ≡ N.table) × (result.actor ≡ ticket.old.task) }
        ensures forked { self.new.forked ≡ self.old.forked }
    {
        self.keeper.start(ticket)
    }

    /// The task of the ticket, which runs, ends so.
    pub fn finish(&mut self, ticket: &mut Ticket, token: OwnerShare, end: End)
        requires ticket { Runs N.table ticket.old ticket.old }
        requires token { (token.table ≡ N.table) × (token.actor ≡ ticket.old.task) }
        ensures ticket { IsEnded N.table ticket.old end ticket.new }
        ensures forked { self.new.forked ≡ self.old.forked }
    {
        self.keeper.finish(ticket, token, end);
    }
}
