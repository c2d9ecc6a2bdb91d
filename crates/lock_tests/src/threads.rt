//! Tickets that go through another thread while main holds the realm.
ghost use Rattle.std.specs.Prelude.{◌≡◌, IfOk};
ghost use Rattle.share_ledger.specs.Values.{IsWaiting};

use crate::common::{finish, fork, fork_two, open};
use realm_lock::{ActorToken, Joined, Realm, RealmName, Ticket};
use scope_rules::{AnyEnd, Options, Outcome, Refusal, ScopeId, Value, Verdict};
use share_ledger::{Totals, gather};
use std::process::Abort;
use std::sync::Wait;
use std::test::Fail;
use std::thread;
use std::thread::Threads;

/// What a thread does with a ticket: it starts the task, and ends it with its number.
fn serve<N: RealmName, R: Wait>(rt: &R, realm: &Realm<AnyEnd, N>, ticket: Ticket) -> Option<Ticket>
    requires { (ticket.table ≡ N.table) × IsWaiting ticket }
{
    let number = i64::from(ticket.task());
    let (ticket, token) = realm.start(rt, ticket);
    finish(rt, realm, ticket, token, Ok(Value::Num(number)))
}

/// Whether the join of the scope answers that all its tasks are done.
fn is_done<N: RealmName, R: Wait>(
    rt: &R,
    realm: &Realm<AnyEnd, N>,
    main: &mut ActorToken,
    scope: ScopeId,
) -> bool
    requires { main.old.table ≡ N.table }
    ensures { main.new ≡ record main.old { seen = main.new.seen } }
{
    match realm.join(rt, main, scope) {
        Ok(joined) => matches!(joined.outcome, Outcome::Done),
        Err(_) => false,
    }
}

/// Two threads take a ticket each through its start and its end. What the tickets sum up to then.
fn served_by_two<N: RealmName + Send + Sync, R: Threads + Wait + Sync>(
    rt: &R,
    realm: &Realm<AnyEnd, N>,
    one: Ticket,
    two: Ticket,
) -> Option<Totals>
    requires one { (one.table ≡ N.table) × IsWaiting one }
    requires two { (two.table ≡ N.table) × IsWaiting two }
{
    let (one, two) = thread::join(
        rt,
        move ||
            requires { (one.table ≡ N.table) × IsWaiting one }
        { serve(rt, realm, one) },
        move ||
            requires { (two.table ≡ N.table) × IsWaiting two }
        { serve(rt, realm, two) },
    );
    Some(gather(&[one?, two?]))
}

/// Two tasks of a scope are served by two threads, and it is joined then.
pub fn two_served<N: RealmName + Send + Sync, R: Threads + Wait + Abort + Sync>(
    rt: &R,
    realm: &Realm<AnyEnd, N>,
    main: &mut ActorToken,
) -> Result<(), Fail>
    requires { main.old.table ≡ N.table }
{
    let scope = open(rt, realm, main, Options::PLAIN)?;
    let (one, two) = fork_two(rt, realm, main, scope)?;
    let totals = served_by_two(rt, realm, one, two).ok_or("a task did not run")?;
    assert_eq!(rt; (totals.given, totals.started, totals.finished), (2, 2, 2));
    assert!(rt; is_done(rt, realm, main, scope));
    Ok(())
}

/// Ends two tasks in turn, with a pause before each.
fn serve_slowly<N: RealmName, R: Wait>(
    rt: &R,
    realm: &Realm<AnyEnd, N>,
    one: Ticket,
    two: Ticket,
) -> bool
    requires one { (one.table ≡ N.table) × IsWaiting one }
    requires two { (two.table ≡ N.table) × IsWaiting two }
{
    for _ in 0..1000u32 {
        thread::yield_now();
    }
    let served = serve(rt, realm, one).is_some();
    for _ in 0..1000u32 {
        thread::yield_now();
    }
    served && serve(rt, realm, two).is_some()
}

/// The join of a scope waits until both its tasks have ended in another thread: its log has both ends
/// before the join.
pub fn waited<N: RealmName + Send + Sync, R: Threads + Wait + Abort + Sync>(
    rt: &R,
    realm: &Realm<AnyEnd, N>,
    main: &mut ActorToken,
) -> Result<(), Fail>
    requires { main.old.table ≡ N.table }
{
    let scope = open(rt, realm, main, Options::PLAIN)?;
    let (one, two) = fork_two(rt, realm, main, scope)?;
    let (served, joined) = thread::join(
        rt,
        move ||
            requires one { (one.table ≡ N.table) × IsWaiting one }
            requires two { (two.table ≡ N.table) × IsWaiting two }
        { serve_slowly(rt, realm, one, two) },
        ||
            requires { main.now.table ≡ N.table }
        { realm.join(rt, main, scope) },
    );
    let log = joined?.log;
    assert!(rt; served && log.counts().finished == 2 && log.entries().len() == 8);
    Ok(())
}

/// Joins the scope, and gives the token back.
pub fn join_by<N: RealmName, R: Wait>(
    rt: &R,
    realm: &Realm<AnyEnd, N>,
    mut main: ActorToken,
    scope: ScopeId,
) -> (ActorToken, Result<Joined, Refusal>)
    requires { main.table ≡ N.table }
    ensures { result.0.table ≡ N.table }
{
    let joined = realm.join(rt, &mut main, scope);
    (main, joined)
}

/// One scope whose task runs in another thread while main joins it, closed and retired.
fn one_round<N: RealmName + Send + Sync, R: Threads + Wait + Abort + Sync>(
    rt: &R,
    realm: &Realm<AnyEnd, N>,
    mut main: ActorToken,
    round: u32,
) -> Result<ActorToken, Fail>
    requires { main.table ≡ N.table }
    ensures { IfOk result (λ token. token.table ≡ N.table) }
{
    let scope = open(rt, realm, &mut main, Options::PLAIN)?;
    let ticket = fork(rt, realm, &mut main, scope)?;
    let (served, (mut main, joined)) = thread::join(
        rt,
        move ||
            requires { (ticket.table ≡ N.table) × IsWaiting ticket }
        { serve(rt, realm, ticket) },
        move ||
            requires { main.table ≡ N.table }
            ensures { result.0.table ≡ N.table }
        { join_by(rt, realm, main, scope) },
    );
    let joined = joined?;
    assert!(rt; served.is_some() && joined.log.counts().finished == 1);
    assert!(rt; realm.close_bare(rt, &mut main, scope) == Ok(Verdict::Plain));
    let base = realm.retire(rt, &mut main)?;
    assert!(rt; base.scopes() == round && base.tasks() == round);
    Ok(main)
}

/// A realm with room for one scope and one task serves ten of them, one after the other.
pub fn ten_rounds<N: RealmName + Send + Sync, R: Threads + Wait + Abort + Sync>(
    rt: &R,
    realm: &Realm<AnyEnd, N>,
    mut main: ActorToken,
) -> Result<(), Fail>
    requires { main.table ≡ N.table }
{
    for round in 1..=10u32 {
        main = one_round(rt, realm, main, round)?;
    }
    Ok(())
}
