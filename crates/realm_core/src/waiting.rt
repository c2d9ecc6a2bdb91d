ghost use Rattle.std.specs.Prelude.{◌≡◌};
ghost use Rattle.realm_core.specs.{FoundUnsettled};

use realm_state::RealmState;
use scope_checks::Readings;
use scope_rules::ScopeId;

/// A scope of which a task waits or runs, of those that the close of the scope covers: the scope itself
/// and what its owner opened later and has not closed. If there is none, the close can end. It takes
/// no memory, and time by how many those scopes are.
pub fn unsettled(realm: &RealmState, scope: ScopeId) -> Option<ScopeId>
    ensures { FoundUnsettled realm.now.history scope result }
{
    let mut next = Some(scope);
    while let Some(here) = next {
        if !realm.settled(here) {
            return Some(here);
        }
        next = realm.inner(here);
    }
    None
}
