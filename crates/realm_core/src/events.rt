ghost use Rattle.std.specs.Prelude.{◌≡◌, false};
ghost use Rattle.realm_core.specs.{Enters, FitsEvent, History, is_already, weight};

use realm_state::FittingRealm;
use scope_rules::{Catalog, Event, Refusal};

/// Performs the command of an event that costs no load, and of which there is no more to say than that it was
/// done. It takes no memory.
pub(crate) fn done<C: Catalog>(realm: &mut FittingRealm<C>, event: &Event) -> Result<(), Refusal>
    requires fits { FitsEvent C.fitting realm.old.history event.now }
    requires free { weight event.now ≡ 0 }
    requires new { (h : History) → is_already h event.now ≡ false }
    ensures { Enters realm.old event.now tt result realm.new }
{
    realm.perform(event, false, None)?;
    Ok(())
}
