//! The moves of one hold: shares are handed in, a step is appended, and they are given out again.
ghost use Rattle.std.specs.Prelude.{[], ◌++◌, ◌∷◌, ◌≡◌, None, Some};
ghost use Rattle.share_ledger.specs.{IsFresh, IsKnown, IsReady, IsShareOf, MayAppend, holder_of, holding, keeping, limits_of, named_by, newly_named, steps_of, view_of};

use crate::RealmStep;
use crate::desk::Desk;
use crate::views::LedgerView;
use atomic_table::Badge;
use std::mem;

impl Desk {
    /// The share has seen the whole list.
    pub(crate) fn refresh(&mut self, badge: &mut Badge<LedgerView>)
        requires table { badge.old.table_id ≡ self.old.seat.table_id }
        requires desk { IsReady self.old.seat.me.0 [] }
        requires share { IsShareOf badge.old.views (holder_of (view_of badge.old.views)) }
        ensures table { (self.new.seat.table_id ≡ self.old.seat.table_id) × (badge.new.table_id ≡ self.old.seat.table_id) }
        ensures desk { self.new.seat.me.0 ≡ keeping (limits_of self.old.seat.me.0) (steps_of self.old.seat.me.0) [] }
        ensures share { badge.new.views ≡ holding (limits_of self.old.seat.me.0) (holder_of (view_of badge.old.views)) (steps_of self.old.seat.me.0) ∷ [] }
        ensures known { IsKnown badge.old.views self.old.seat.me.0 }
    {
        self.take_in(mem::replace(badge, Badge::blank()));
        *badge = self.give_out();
    }

    /// The step, which is nobody else's and names nobody, is appended. The share has seen it.
    pub(crate) fn step_alone(&mut self, badge: &mut Badge<LedgerView>, step: RealmStep)
        requires table { badge.old.table_id ≡ self.old.seat.table_id }
        requires desk { IsReady self.old.seat.me.0 [] }
        requires share { IsShareOf badge.old.views (holder_of (view_of badge.old.views)) }
        requires may { MayAppend (steps_of self.old.seat.me.0) (holder_of (view_of badge.old.views) ∷ []) step }
        requires names { newly_named (steps_of self.old.seat.me.0) step ≡ None }
        ensures table { (self.new.seat.table_id ≡ self.old.seat.table_id) × (badge.new.table_id ≡ self.old.seat.table_id) }
        ensures desk { self.new.seat.me.0 ≡ keeping (limits_of self.old.seat.me.0) (steps_of self.old.seat.me.0 ++ step ∷ []) [] }
        ensures share { badge.new.views ≡ holding (limits_of self.old.seat.me.0) (holder_of (view_of badge.old.views)) (steps_of self.old.seat.me.0 ++ step ∷ []) ∷ [] }
        ensures known { IsKnown badge.old.views self.old.seat.me.0 }
    {
        self.take_in(mem::replace(badge, Badge::blank()));
        self.append(step);
        *badge = self.give_out();
    }

    /// The step is appended, and names a holder. The share of the new holder is given out; both shares have
    /// seen the step.
    pub(crate) fn step_naming(
        &mut self,
        badge: &mut Badge<LedgerView>,
        naming: RealmStep,
    ) -> Badge<LedgerView>
        requires table { badge.old.table_id ≡ self.old.seat.table_id }
        requires desk { IsReady self.old.seat.me.0 [] }
        requires share { IsShareOf badge.old.views (holder_of (view_of badge.old.views)) }
        requires may { IsKnown badge.old.views self.old.seat.me.0 → MayAppend (steps_of self.old.seat.me.0) (holder_of (view_of badge.old.views) ∷ []) naming }
        requires names { newly_named (steps_of self.old.seat.me.0) naming ≡ Some (named_by (steps_of self.old.seat.me.0) naming) }
        ensures table { (self.new.seat.table_id ≡ self.old.seat.table_id) × (result.table_id ≡ self.old.seat.table_id) × (badge.new.table_id ≡ self.old.seat.table_id) }
        ensures desk { self.new.seat.me.0 ≡ keeping (limits_of self.old.seat.me.0) (steps_of self.old.seat.me.0 ++ naming ∷ []) [] }
        ensures new { result.views ≡ holding (limits_of self.old.seat.me.0) (named_by (steps_of self.old.seat.me.0) naming) (steps_of self.old.seat.me.0 ++ naming ∷ []) ∷ [] }
        ensures share { badge.new.views ≡ holding (limits_of self.old.seat.me.0) (holder_of (view_of badge.old.views)) (steps_of self.old.seat.me.0 ++ naming ∷ []) ∷ [] }
        ensures known { IsKnown badge.old.views self.old.seat.me.0 }
        ensures fresh { IsFresh (steps_of self.old.seat.me.0) naming }
    {
        self.take_in(mem::replace(badge, Badge::blank()));
        self.append(naming);
        let new = self.give_out();
        *badge = self.give_out();
        new
    }

    /// The step, which is of these two holders and names nobody, is appended. The first share has seen it;
    /// the second is dropped.
    pub(crate) fn step_together(
        &mut self,
        badge: &mut Badge<LedgerView>,
        last: Badge<LedgerView>,
        end: RealmStep,
    )
        requires table { (badge.old.table_id ≡ self.old.seat.table_id) × (last.table_id ≡ self.old.seat.table_id) }
        requires desk { IsReady self.old.seat.me.0 [] }
        requires share { IsShareOf badge.old.views (holder_of (view_of badge.old.views)) }
        requires last { IsShareOf last.views (holder_of (view_of last.views)) }
        requires may { MayAppend (steps_of self.old.seat.me.0) (holder_of (view_of last.views) ∷ holder_of (view_of badge.old.views) ∷ []) end }
        requires names { newly_named (steps_of self.old.seat.me.0) end ≡ None }
        ensures table { (self.new.seat.table_id ≡ self.old.seat.table_id) × (badge.new.table_id ≡ self.old.seat.table_id) }
        ensures desk { self.new.seat.me.0 ≡ keeping (limits_of self.old.seat.me.0) (steps_of self.old.seat.me.0 ++ end ∷ []) [] }
        ensures share { badge.new.views ≡ holding (limits_of self.old.seat.me.0) (holder_of (view_of badge.old.views)) (steps_of self.old.seat.me.0 ++ end ∷ []) ∷ [] }
        ensures known { IsKnown badge.old.views self.old.seat.me.0 }
        ensures last_known { IsKnown last.views self.old.seat.me.0 }
    {
        self.take_in(mem::replace(badge, Badge::blank()));
        self.take_in(last);
        self.append(end);
        drop(self.give_out());
        *badge = self.give_out();
    }
}
