//! Calls of a realm that each row makes.
ghost use Rattle.std.specs.Prelude.{◌≡◌, IfOk, IfSome};
ghost use Rattle.realm_lock.specs.Cells.{IsFresh};
ghost use Rattle.share_ledger.specs.Values.{IsWaiting};

use join_rules::Joiner;
use realm_lock::{ActorToken, Forked, MarkCell, Realm, RealmName, Seat, Ticket};
use scope_rules::{AnyEnd, End, Label, Name, Options, ScopeId};
use std::sync::Wait;
use std::test::Fail;

fn label() -> Result<Label, Fail> {
    Ok(Label {
        name: Name::new(b"work").ok_or("a name")?,
        due: None,
    })
}

/// Opens a scope that awaits all its tasks.
pub fn open<N: RealmName, R: Wait>(
    rt: &R,
    realm: &Realm<AnyEnd, N>,
    token: &mut ActorToken,
    options: Options,
) -> Result<ScopeId, Fail>
    requires { token.old.table ≡ N.table }
    ensures { token.new ≡ record token.old { seen = token.new.seen } }
{
    match realm.open(rt, token, Joiner::AwaitAll, options) {
        Ok(scope) => Ok(scope),
        Err((refusal, _)) => Err(refusal)?,
    }
}

/// Forks a task that gets a thread.
pub fn fork<N: RealmName, R: Wait>(
    rt: &R,
    realm: &Realm<AnyEnd, N>,
    token: &mut ActorToken,
    scope: ScopeId,
) -> Result<Ticket, Fail>
    requires { token.old.table ≡ N.table }
    ensures token { token.new ≡ record token.old { seen = token.new.seen } }
    ensures ticket { IfOk result (λ ticket. (ticket.table ≡ N.table) × IsWaiting ticket) }
{
    match realm.fork(rt, token, scope, label()?)? {
        Forked::Thread(ticket) => Ok(ticket),
        Forked::Never(_) => Err("no thread")?,
    }
}

/// Forks two tasks that get threads.
pub fn fork_two<N: RealmName, R: Wait>(
    rt: &R,
    realm: &Realm<AnyEnd, N>,
    token: &mut ActorToken,
    scope: ScopeId,
) -> Result<(Ticket, Ticket), Fail>
    requires { token.old.table ≡ N.table }
    ensures token { token.new ≡ record token.old { seen = token.new.seen } }
    ensures one { IfOk result (λ two. (two.0.table ≡ N.table) × IsWaiting two.0) }
    ensures other { IfOk result (λ two. (two.1.table ≡ N.table) × IsWaiting two.1) }
{
    let one = fork(rt, realm, token, scope)?;
    Ok((one, fork(rt, realm, token, scope)?))
}

/// Ends the ticket's task, if it runs.
pub fn finish<N: RealmName, R: Wait>(
    rt: &R,
    realm: &Realm<AnyEnd, N>,
    ticket: Ticket,
    token: ActorToken,
    end: End,
) -> Option<Ticket>
    requires { (ticket.table ≡ N.table) × (token.table ≡ N.table) × (token.actor ≡ ticket.task) }
    ensures { IfSome result (λ ended. ended.table ≡ N.table) }
{
    if ticket.given() == 0 || ticket.started() == 0 || ticket.finished() != 0 {
        return None;
    }
    match realm.finish(rt, ticket, token, end) {
        Ok(ticket) => Some(ticket),
        Err(_) => None,
    }
}

/// Opens a scope that awaits all its tasks, with its cell.
pub fn open_marked<N: RealmName, R: Wait>(
    rt: &R,
    realm: &Realm<AnyEnd, N>,
    token: &mut ActorToken,
    options: Options,
) -> Result<(ScopeId, MarkCell, Seat), Fail>
    requires { token.old.table ≡ N.table }
    ensures token { token.new ≡ record token.old { seen = token.new.seen } }
    ensures cell { IfOk result (λ opened. IsFresh opened.1 opened.2) }
{
    match realm.open_marked(rt, token, Joiner::AwaitAll, options) {
        Ok(opened) => Ok(opened),
        Err((refusal, _)) => Err(refusal)?,
    }
}

/// Forks a task, and starts it. Its token.
pub fn run<N: RealmName, R: Wait>(
    rt: &R,
    realm: &Realm<AnyEnd, N>,
    main: &mut ActorToken,
    scope: ScopeId,
) -> Result<ActorToken, Fail>
    requires { main.old.table ≡ N.table }
    ensures main { main.new ≡ record main.old { seen = main.new.seen } }
    ensures token { IfOk result (λ token. token.table ≡ N.table) }
{
    let ticket = fork(rt, realm, main, scope)?;
    let (_ticket, token) = realm.start(rt, ticket);
    Ok(token)
}
