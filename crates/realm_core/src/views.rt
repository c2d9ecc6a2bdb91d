ghost use Rattle.std.specs.Prelude.{◌↔◌, ◌≡◌, Err, IfOk, MatchResult, Ok, true};
ghost use Rattle.realm_core.specs.{IsMarkOf, MarkedViewAnswers, ViewAnswers, scope_check};

use realm_state::RealmState;
use scope_checks::{Readings, queries};
use scope_log::ScopeLog;
use scope_rules::{Cause, Counts, Refusal, ScopeId};

/// What a view shows of a scope, as it is then.
#[derive(Drop)]
pub struct View {
    /// The scope's own events, with the mark of its cancellation among them.
    pub log: ScopeLog,
    /// Why the scope is cancelled, if it is.
    pub cause: Option<Cause>,
    /// How many of its tasks are at each stage.
    pub counts: Counts,
    /// The realm's time, in milliseconds.
    pub moment: u64,
}

/// What there is to see of the scope. Refused for an unknown scope (`NoScope`, `Retired`), and if memory
/// is refused (`Memory`).
pub fn view_of(realm: &RealmState, scope: ScopeId) -> Result<View, Refusal>
    ensures { ViewAnswers realm.now.history scope result }
{
    let cause = queries::cause(realm, scope)?;
    let counts = queries::counts(realm, scope)?;
    let moment = realm.moment();
    let log = realm.project(scope)?;
    Ok(View {
        log,
        cause,
        counts,
        moment,
    })
}

/// The same, where the scope became cancelled for this cause, by the event at this place since the base, as
/// a mark of its own says. Refused for another cause or place (`Unavailable`).
pub fn marked_view_of(
    realm: &RealmState,
    scope: ScopeId,
    cause: Cause,
    place: usize,
) -> Result<View, Refusal>
    ensures { MarkedViewAnswers realm.now.history scope cause place result }
{
    if !is_marked(realm, scope, cause, place)? {
        return Err(Refusal::Unavailable);
    }
    view_of(realm, scope)
}

/// Whether the scope became cancelled for this cause, by the event at this place.
fn is_marked(
    realm: &RealmState,
    scope: ScopeId,
    cause: Cause,
    place: usize,
) -> Result<bool, Refusal>
    ensures refused { MatchResult result (λ _. scope_check realm.now.history scope ≡ Ok tt) (λ refusal. scope_check realm.now.history scope ≡ Err refusal) }
    ensures marked { IfOk result (λ b. (b ≡ true) ↔ IsMarkOf realm.now.history scope cause place) }
{
    let told = queries::cause(realm, scope)?;
    let at = queries::cancelled_at(realm, scope)?;
    Ok(told == Some(cause) && at == Some(place))
}
