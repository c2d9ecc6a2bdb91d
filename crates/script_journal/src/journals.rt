//! The journal of a realm.
ghost use Rattle.std.specs.Prelude.{◌≡◌, IfOk, string_bytes};
ghost use Rattle.script_journal.specs.{RunsTo, anew, script_text, the_start, without_dues};

use crate::fitting::{base_fits, events_fit};
use crate::script_of;
use realm_state::RealmState;
use std::alloc::{AllocError, Global};

/// The journal of the realm: what happened since its last retirement, as a script. It brings a fresh realm of the same
/// limits to the same history, but that scopes and tasks are counted from the retirement on, and labels expect no end.
///
/// # Errors
/// Memory alone.
pub fn journal_of(alloc: Global, realm: &RealmState) -> Result<String, AllocError>
    ensures text { IfOk result (λ text. string_bytes text ≡ script_text realm.now.history) }
    ensures runs { IfOk result (λ text. realm.now.history.base ≡ the_start → RunsTo realm.now.limits (string_bytes text) (without_dues realm.now.history)) }
    ensures brings { IfOk result (λ text. RunsTo realm.now.limits (string_bytes text) (without_dues (anew realm.now.history))) }
{
    let limits = realm.limits();
    base_fits(limits, realm.base());
    let copied = realm.copied_events(alloc)?;
    let events = copied.as_slice();
    events_fit(events);
    script_of(alloc, realm.base(), events)
}
