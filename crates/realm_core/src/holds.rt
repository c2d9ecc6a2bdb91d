ghost use Rattle.std.specs.Prelude.{◌≡◌, IfOk, IsOk, MatchResult, Some};
ghost use Rattle.realm_core.specs.{All, Begins, CanClose, EndedThere, IsBegun, IsDone, IsLeft, IsOpenOf, MayEnd, MayReport, ReportedThere, SeesAll, Stepped, TicketValue, history_of, recorded};

use crate::ending::end_all;
use crate::reports::{CloseReport, close_with_report};
use crate::tickets::{are_tickets_of, take_back};
use crate::waiting::unsettled;
use crate::{RealmCore, RealmName};
use scope_checks::Readings;
use scope_rules::{Cancelling, Catalog, Event, Refusal, ScopeId, Verdict};
use share_ledger::{OwnerShare, RealmStep, Ticket};
use std::alloc::Global;

/// The first hold of a close: begins the close of the actor's scope, if need be (JEP 505, `close` cancels
/// first). Refused if the actor is no running task or main, and for a scope that is unknown (`NoScope`,
/// `Retired`), another's (`NotOwner`) or closed (`Closed`): so never for a scope that the token shows as
/// its actor's and not closed. It takes no memory.
pub fn begin<C: Catalog, N: RealmName>(
    core: &mut RealmCore<C, N>,
    token: &mut OwnerShare,
    scope: ScopeId,
) -> Result<Cancelling, Refusal>
    requires named { token.old.table ≡ N.table }
    ensures seen { SeesAll core.old core.new token.old token.new }
    ensures steps { Stepped core.old core.new token.new (RealmStep.Happened (Event.BeginClose token.old.actor scope)) (recorded result) }
    ensures answer { Begins token.old token.new scope result }
    ensures sure { IsOpenOf (history_of token.old.seen) token.old.actor scope → IsOk result }
{
    match core.begin_close(token, scope) {
        Ok(Cancelling::Recorded) => Ok(Cancelling::Recorded),
        Ok(Cancelling::Already) => {
            if core.realm().closed(scope) {
                Err(Refusal::Closed)
            } else {
                Ok(Cancelling::Already)
            }
        }
        Err(refusal) => Err(refusal),
    }
}

/// A later hold of a close that has begun: ends it, where no task waits or runs of the scope and of those
/// that its owner opened later and has not closed; else it records nothing. It takes no memory.
pub fn end_if_settled<C: Catalog, N: RealmName>(
    core: &mut RealmCore<C, N>,
    token: &mut OwnerShare,
    scope: ScopeId,
) -> Option<Verdict>
    requires named { token.old.table ≡ N.table }
    requires begun { IsBegun (history_of token.old.seen) token.old.actor scope }
    ensures seen { SeesAll core.old core.new token.old token.new }
    ensures there { EndedThere token.old.limits token.old.actor scope core.old core.new result }
    ensures answer { MayEnd token.old token.new scope result }
{
    core.look(token);
    match unsettled(core.realm(), scope) {
        Some(_) => None,
        None => Some(end_all(core, token, scope)),
    }
}

/// The same with a report, for which the tickets are handed in of all tasks that got a thread, of the
/// scopes that are closed. If they are not just these, and each ended, it is refused (`NotReady`); and
/// if memory is refused for the report (`Memory`). Then it records nothing, and the tickets are there
/// still, in any order; if the close is ended they are gone.
pub fn report_if_settled<C: Catalog, N: RealmName>(
    core: &mut RealmCore<C, N>,
    alloc: Global,
    token: &mut OwnerShare,
    scope: ScopeId,
    tickets: &mut Vec<Ticket>,
) -> Option<Result<CloseReport, Refusal>>
    requires named { token.old.table ≡ N.table }
    requires tickets { All (λ (t : TicketValue). t.table ≡ N.table) tickets.old.items }
    requires begun { IsBegun (history_of token.old.seen) token.old.actor scope }
    ensures seen { SeesAll core.old core.new token.old token.new }
    ensures there { ReportedThere token.old.limits token.old.actor scope core.old core.new result }
    ensures answer { MayReport token.old token.new scope tickets.old.items tickets.new.items result }
{
    core.look(token);
    match unsettled(core.realm(), scope) {
        Some(_) => None,
        None => Some(end_with_tickets(core, alloc, token, scope, tickets)),
    }
}

/// Ends a close that can end, if the tickets are those of it.
fn end_with_tickets<C: Catalog, N: RealmName>(
    core: &mut RealmCore<C, N>,
    alloc: Global,
    token: &mut OwnerShare,
    scope: ScopeId,
    tickets: &mut Vec<Ticket>,
) -> Result<CloseReport, Refusal>
    requires named { token.old.table ≡ N.table }
    requires tickets { All (λ (t : TicketValue). t.table ≡ N.table) tickets.old.items }
    requires shown { token.old.seen ≡ core.old.steps }
    requires can { CanClose (history_of core.old.steps) token.old.actor scope }
    ensures seen { SeesAll core.old core.new token.old token.new }
    ensures there { ReportedThere token.old.limits token.old.actor scope core.old core.new (Some result) }
    ensures done { IfOk result (λ report. IsDone token.old token.new scope tickets.old.items report) }
    ensures not { MatchResult result (λ _. Unit {0}) (λ refusal. IsLeft token.old token.new scope tickets.old.items tickets.new.items refusal) }
{
    if !are_tickets_of(core.realm(), scope, tickets) {
        return Err(Refusal::NotReady);
    }
    let report = close_with_report(core, alloc, token, scope)?;
    take_back(core, tickets);
    Ok(report)
}
