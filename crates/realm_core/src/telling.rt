ghost use Rattle.std.specs.Prelude.{◌≡◌, true};
ghost use Rattle.realm_core.specs.{OwnerAgrees, is_recorded_by, step_by, told};

use scope_rules::Event;
use share_ledger::{Keeper, OwnerShare, RealmStep};

/// Tells the keeper whether the event was recorded, and lets the token see the whole list.
pub(crate) fn tell(keeper: &mut Keeper, share: &mut OwnerShare, event: &Event, recorded: bool)
    requires table { share.old.table ≡ keeper.old.table }
    requires event { is_recorded_by share.old.actor event.now ≡ true }
    ensures keeper { keeper.new ≡ told keeper.old (step_by share.old.actor event.now) recorded }
    ensures share { share.new ≡ record share.old { seen = keeper.new.steps } }
    ensures agreed { OwnerAgrees share.old keeper.old }
{
    if recorded {
        keeper.record(share, event);
    } else {
        keeper.follow(share);
    }
}

/// The same of a retirement.
pub(crate) fn tell_retired(keeper: &mut Keeper, share: &mut OwnerShare, retired: bool)
    requires table { share.old.table ≡ keeper.old.table }
    requires main { retired ≡ true → share.old.actor ≡ 0 }
    ensures keeper { keeper.new ≡ told keeper.old RealmStep.Retirement retired }
    ensures share { share.new ≡ record share.old { seen = keeper.new.steps } }
    ensures agreed { OwnerAgrees share.old keeper.old }
{
    if retired {
        keeper.retire(share);
    } else {
        keeper.follow(share);
    }
}
