//! The keeper's seat at the table, and the moves through it.
ghost use Rattle.std.specs.Prelude.{[], ◌++◌, ◌∷◌, ◌≡◌, IfOk};
ghost use Rattle.share_ledger.specs.Words.{Opening, TokenOf};
ghost use Rattle.share_ledger.specs.{Desks.IsKnown, Desks.IsReady, Desks.IsShareOf, Desks.first_in, Desks.hand_of, Desks.holder_of, Desks.limits_of, Desks.others_in, Desks.steps_of, Desks.view_of, Rule.MayAppend, Views.IsFresh};
ghost use Rattle.share_ledger.specs.{Views.holding, Views.keeping, Views.newly_named, Views.with_named};

use crate::RealmStep;
use crate::rule::{Append, GiveOut, HandIn, Limit, Look, NamedOnce};
use crate::views::{LedgerView, Said};
use atomic_table::{Badge, Seat, Table};
use scope_rules::Limits;
use std::alloc::{AllocError, Global};

/// The table, with the keeper's seat at it.
#[derive(Drop)]
pub(crate) struct Desk {
    table: Table<Said, LedgerView, (), NamedOnce, Global>,
    pub(crate) seat: Seat<Said, LedgerView>,
    ghost fits: { seat.table_id ≡ table.shared.table_id },
    ghost words: { table.shared.table_id.words ≡ 1 },
    ghost empty: { seat.me.1 ≡ [] },
}

impl Desk {
    /// A table at which nobody but the keeper sits.
    pub(crate) fn new(alloc: Global) -> Result<Desk, AllocError>
        ensures { IfOk result (λ d. d.seat.me.0 ≡ Opening) }
    {
        let (table, seat) = Table::of_words(alloc, &[0], &())?;
        Ok(Desk { table, seat })
    }

    /// The realm gets its limits, and main's share is in hand.
    pub(crate) fn limit(&mut self, limits: Limits)
        requires { self.old.seat.me.0 ≡ Opening }
        ensures table { self.new.seat.table_id ≡ self.old.seat.table_id }
        ensures view { self.new.seat.me.0 ≡ keeping limits [] (TokenOf 0 ∷ []) }
    {
        let said = Said::Limited(limits);
        let table = &self.table;
        table
            .shared
            .compare_exchange_with::<Limit>(&mut self.seat, 0, 0, 0, &said);
    }

    /// A share is handed in, and what it has seen is a beginning of what the keeper knows.
    pub(crate) fn take_in(&mut self, badge: Badge<LedgerView>)
        requires table { badge.table_id ≡ self.old.seat.table_id }
        requires desk { IsReady self.old.seat.me.0 (hand_of self.old.seat.me.0) }
        requires share { IsShareOf badge.views (holder_of (view_of badge.views)) }
        ensures table { self.new.seat.table_id ≡ self.old.seat.table_id }
        ensures view { self.new.seat.me.0 ≡ keeping (limits_of self.old.seat.me.0) (steps_of self.old.seat.me.0) (holder_of (view_of badge.views) ∷ hand_of self.old.seat.me.0) }
        ensures known { IsKnown badge.views self.old.seat.me.0 }
    {
        let other = badge.into_seat();
        let table = &self.table;
        table.shared.join_seat::<HandIn>(&mut self.seat, other);
        table.shared.load::<Look>(&mut self.seat, 0);
    }

    /// The step is appended to the list.
    pub(crate) fn append(&mut self, step: RealmStep)
        requires desk { IsReady self.old.seat.me.0 (hand_of self.old.seat.me.0) }
        requires step { MayAppend (steps_of self.old.seat.me.0) (hand_of self.old.seat.me.0) step }
        ensures table { self.new.seat.table_id ≡ self.old.seat.table_id }
        ensures view { self.new.seat.me.0 ≡ keeping (limits_of self.old.seat.me.0) (steps_of self.old.seat.me.0 ++ step ∷ []) (with_named (newly_named (steps_of self.old.seat.me.0) step) (hand_of self.old.seat.me.0)) }
        ensures fresh { IsFresh (steps_of self.old.seat.me.0) step }
    {
        let said = Said::Stepped(step);
        let table = &self.table;
        table
            .shared
            .compare_exchange_with::<Append>(&mut self.seat, 0, 0, 0, &said);
    }

    /// The first share in hand is given out. It has seen the whole list.
    pub(crate) fn give_out(&mut self) -> Badge<LedgerView>
        requires desk { IsReady self.old.seat.me.0 (first_in (hand_of self.old.seat.me.0) ∷ others_in (hand_of self.old.seat.me.0)) }
        ensures table { (self.new.seat.table_id ≡ self.old.seat.table_id) × (result.table_id ≡ self.old.seat.table_id) }
        ensures view { self.new.seat.me.0 ≡ keeping (limits_of self.old.seat.me.0) (steps_of self.old.seat.me.0) (others_in (hand_of self.old.seat.me.0)) }
        ensures share { result.views ≡ holding (limits_of self.old.seat.me.0) (first_in (hand_of self.old.seat.me.0)) (steps_of self.old.seat.me.0) ∷ [] }
    {
        let table = &self.table;
        let share = table.shared.split_seat::<GiveOut>(&mut self.seat);
        share.into_badge()
    }
}
