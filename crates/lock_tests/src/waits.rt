//! Calls that wait, each woken by one call of another thread, after which nothing else happens until the
//! sleeper has woken: without that call's notice the row would never end.
ghost use Rattle.std.specs.Prelude.{◌≡◌};
ghost use Rattle.share_ledger.specs.Values.{IsWaiting};

use crate::common::{finish, fork, open, open_marked, run};
use crate::waits_by::LockingClock;
use join_rules::Joiner;
use realm_lock::{ActorToken, MarkCell, Realm, RealmName, Seat, Ticket};
use scope_rules::{AnyEnd, Options, ScopeId, Value};
use std::process::Abort;
use std::rt::Clock as SystemTime;
use std::sync::Wait;
use std::sync::atomic::{AtomicU64, Ordering};
use std::test::Fail;
use std::thread;
use std::thread::Threads;

/// What one waits for: the end of a join, of a close around that, of a sleep by a clock, or the mark of a scope.
#[derive(Clone, Copy)]
pub enum Waits {
    Join,
    Close,
    Sleep,
    Mark,
}

/// The other's one call, by which the wait ends.
#[derive(Clone, Copy)]
pub enum Waker {
    /// It cancels the scope, at once or after a pause.
    CancelNow,
    Cancel,
    Tick,
    Move,
    /// The one task that waits gets no thread.
    Reject,
    /// The one task starts and ends.
    End,
    /// It begins to close the scope around all, which is its own.
    BeginClose,
    /// A minute later it opens a scope whose deadline has come by then: the first deadline of all.
    Open,
}

/// So long that the other thread has gone to sleep by then, as a rule.
pub fn pause() {
    for _ in 0..20_000u32 {
        thread::yield_now();
    }
}

/// The scopes of a row: the one around all, of main; in it one of who waits; and in that the one with the task that waits.
#[derive(Clone, Copy)]
struct Scopes {
    around: ScopeId,
    outer: ScopeId,
    inner: ScopeId,
}

/// After a pause, the one call. Whether it is accepted.
fn wake<N: RealmName, R: Wait>(
    rt: &R,
    realm: &Realm<AnyEnd, N>,
    token: &mut ActorToken,
    ticket: Ticket,
    scopes: Scopes,
    time: &AtomicU64,
    waker: Waker,
) -> bool
    requires token { token.old.table ≡ N.table }
    requires ticket { (ticket.table ≡ N.table) × IsWaiting ticket }
{
    match waker {
        Waker::CancelNow => {}
        _ => pause(),
    }
    match waker {
        Waker::CancelNow | Waker::Cancel => realm.cancel(rt, token, scopes.inner).is_ok(),
        Waker::Tick => realm.tick(rt, token, 9).is_ok(),
        Waker::Move => realm
            .move_deadline(rt, token, scopes.inner, Some(0))
            .is_ok(),
        Waker::Reject => {
            let _rejected = realm.reject(rt, ticket);
            true
        }
        Waker::End => {
            let (ticket, own) = realm.start(rt, ticket);
            pause();
            finish(rt, realm, ticket, own, Ok(Value::Num(1))).is_some()
        }
        Waker::BeginClose => realm.begin_close(rt, token, scopes.around).is_ok(),
        Waker::Open => {
            time.store(60_000, Ordering::SeqCst);
            realm
                .open(rt, token, Joiner::AwaitAll, Options::by(50_000))
                .is_ok()
        }
    }
}

/// The wait. Whether it is answered.
fn wait<N: RealmName, R: Wait + SystemTime>(
    rt: &R,
    realm: &Realm<AnyEnd, N>,
    token: &mut ActorToken,
    marked: (MarkCell, Seat),
    scopes: Scopes,
    time: &AtomicU64,
    waits: Waits,
) -> bool
    requires token { token.old.table ≡ N.table }
    requires seat { marked.1.cell ≡ marked.0 }
{
    match waits {
        Waits::Join => realm.join(rt, token, scopes.inner).is_ok(),
        Waits::Close => realm.close_bare(rt, token, scopes.outer).is_ok(),
        Waits::Sleep => {
            let readings = AtomicU64::new(0);
            let mut clock = LockingClock::new(rt, realm, time, &readings);
            realm
                .pause_by(rt, token, &mut clock, Some(60_000), None)
                .is_ok()
        }
        Waits::Mark => {
            let (cell, mut seat) = marked;
            realm.wait_marked(rt, &cell, &mut seat).scope == scopes.inner
        }
    }
}

/// One waits in scopes of its own, until the other's call; both are main and a task of a scope of main's.
fn wakes<N: RealmName + Send + Sync, R: Threads + Wait + SystemTime + Abort + Sync>(
    rt: &R,
    realm: &Realm<AnyEnd, N>,
    one: &mut ActorToken,
    other: &mut ActorToken,
    around: ScopeId,
    row: (Waits, Waker),
) -> Result<(), Fail>
    requires one { one.old.table ≡ N.table }
    requires other { other.old.table ≡ N.table }
{
    let (waits, waker) = row;
    let options = match waker {
        Waker::Tick | Waker::Move => Options::by(5),
        _ => Options::PLAIN,
    };
    let outer = open(rt, realm, one, Options::PLAIN)?;
    let (inner, cell, seat) = open_marked(rt, realm, one, options)?;
    let ticket = fork(rt, realm, one, inner)?;
    let scopes = Scopes {
        around,
        outer,
        inner,
    };
    let time = AtomicU64::new(0);
    let (is_done, is_woken) = thread::join(
        rt,
        ||
            requires token { other.now.table ≡ N.table }
            requires ticket { (ticket.table ≡ N.table) × IsWaiting ticket }
        { wake(rt, realm, other, ticket, scopes, &time, waker) },
        ||
            requires token { one.now.table ≡ N.table }
            requires seat { seat.cell ≡ cell }
        { wait(rt, realm, one, (cell, seat), scopes, &time, waits) },
    );
    assert!(rt; is_done && is_woken);
    Ok(())
}

/// Main waits until a task's call, or the task until main's.
pub fn a_call_wakes<N: RealmName + Send + Sync, R: Threads + Wait + SystemTime + Abort + Sync>(
    rt: &R,
    realm: &Realm<AnyEnd, N>,
    main: &mut ActorToken,
    row: (Waits, Waker),
) -> Result<(), Fail>
    requires { main.old.table ≡ N.table }
{
    let around = open(rt, realm, main, Options::PLAIN)?;
    let mut task = run(rt, realm, main, around)?;
    match row.1 {
        Waker::BeginClose => wakes(rt, realm, &mut task, main, around, row),
        _ => wakes(rt, realm, main, &mut task, around, row),
    }
}
