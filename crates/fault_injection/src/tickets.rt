//! A close of a realm with its ticket: a report that has no memory leaves the scope closing and hands the ticket
//! back.
ghost use Rattle.std.specs.Prelude.{◌≡◌, All, IfSome};
ghost use Rattle.share_ledger.specs.Values.{TicketValue};

use crate::refusals::{Call, Refusals};
use join_rules::Joiner;
use realm_lock::{ActorToken, Forked, Realm, RealmName, Seed, Ticket};
use scope_rules::{AnyEnd, Label, Limits, Name, Options, Refusal, ScopeId, Value, Verdict};
use std::alloc::Global;
use std::sync::Wait;

/// Opens a scope and forks a task there, which runs and ends: the scope, and the ticket.
pub fn one_ended<N: RealmName, R: Wait>(
    rt: &R,
    realm: &Realm<AnyEnd, N>,
    main: &mut ActorToken,
    label: Label,
) -> Option<(ScopeId, Ticket)>
    requires { main.old.table ≡ N.table }
    ensures main { main.new ≡ record main.old { seen = main.new.seen } }
    ensures ticket { IfSome result (λ found. found.1.table ≡ N.table) }
{
    let Ok(scope) = realm.open(rt, main, Joiner::AwaitAll, Options::PLAIN) else {
        return None;
    };
    let Ok(Forked::Thread(ticket)) = realm.fork(rt, main, scope, label) else {
        return None;
    };
    let (ticket, token) = realm.start(rt, ticket);
    match realm.finish(rt, ticket, token, Ok(Value::Num(1))) {
        Ok(ticket) => Some((scope, ticket)),
        Err(_) => None,
    }
}

/// Closes the scope, which was never joined, with the ticket, and says how. Where memory is refused for the report,
/// the ticket comes back and the scope is closing: it is closed without a report then.
fn close<N: RealmName, R: Wait>(
    rt: &R,
    realm: &Realm<AnyEnd, N>,
    main: &mut ActorToken,
    scope: ScopeId,
    tickets: Vec<Ticket>,
    refusals: &Refusals,
) -> Option<Verdict>
    requires main { main.old.table ≡ N.table }
    requires tickets { All (λ (t : TicketValue). t.table ≡ N.table) tickets.items }
{
    match realm.close(rt, main, scope, tickets) {
        Ok(report) => Some(report.verdict),
        Err((Refusal::Memory, back)) if back.len() == 1 => {
            refusals.note(Call::CloseWith);
            realm.close_bare(rt, main, scope).ok()
        }
        Err(_) => None,
    }
}

/// Plays that in a realm: false where something is otherwise than without a refusal. None where memory was refused
/// before the close.
pub fn close_with_a_ticket<N: RealmName, R: Wait>(
    rt: &R,
    alloc: Global,
    seed: Seed,
    refusals: &Refusals,
) -> Option<bool>
    requires { seed ≡ N.table }
{
    let name = Name::new(b"work")?;
    let (realm, mut main) = Realm::<AnyEnd, N>::new(alloc, seed, Limits::GREATEST).ok()?;
    let (scope, ticket) = one_ended(rt, &realm, &mut main, Label { name, due: None })?;
    let mut tickets = Vec::new(alloc);
    tickets.push(ticket).ok()?;
    let verdict = close(rt, &realm, &mut main, scope, tickets, refusals);
    Some(verdict == Some(Verdict::NotJoined))
}
