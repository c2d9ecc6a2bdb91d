//! Who watches for the next deadline, and ends its wait, hands that on: another, who sleeps on, passes what comes then.
//! Clocks are those of `waits_by`: under the realm's lock a reading would never return.
ghost use Rattle.std.specs.Prelude.{◌≡◌, Some};
ghost use Rattle.share_ledger.specs.Values.{IsWaiting};

use crate::common::{finish, fork, open, open_marked, run};
use crate::waits::pause;
use crate::waits_by::LockingClock;
use realm_lock::{ActorToken, Bell, BellWait, Joined, MarkCell, Realm, RealmName, Seat, Ticket};
use scope_rules::{AnyEnd, Options, Refusal, ScopeId, Value};
use share_ledger::Clock;
use std::alloc::Global;
use std::process::Abort;
use std::rt::Clock as SystemTime;
use std::sync::Wait;
use std::sync::atomic::{AtomicU64, Ordering};
use std::test::Fail;
use std::thread;
use std::thread::Threads;

/// How the first waits, who watches.
#[derive(Clone, Copy)]
pub enum Watcher {
    Join,
    Close,
    Mark,
    Sleep,
    Ring,
}

/// When the first's sleep is over, and the deadline that comes behind that, in milliseconds.
const OVER: u64 = 20;

const BEHIND: u64 = 40;

/// What the first waits for: a scope with a task, the mark of one around that, and a bell.
#[derive(Drop)]
struct Awaited {
    scope: ScopeId,
    cell: MarkCell,
    bell: Bell,
}

/// What clocks read, and how often the first and main have read theirs.
#[derive(Drop)]
struct Hands {
    time: AtomicU64,
    first: AtomicU64,
    main: AtomicU64,
}

/// What the wait came to.
fn wait<N: RealmName, R: Wait + SystemTime>(
    rt: &R,
    realm: &Realm<AnyEnd, N>,
    token: &mut ActorToken,
    seat: &mut Seat,
    clock: &mut LockingClock<'_, N, R>,
    watcher: Watcher,
    awaited: &Awaited,
) -> Result<(), Refusal>
    requires named { token.old.table ≡ N.table }
    requires seat { seat.old.cell ≡ awaited.now.cell }
    ensures token { token.new ≡ record token.old { seen = token.new.seen } }
    ensures seat { seat.new.cell ≡ awaited.now.cell }
{
    match watcher {
        Watcher::Join => {
            let _joined: Joined = realm.join_by(rt, token, awaited.scope, clock)?;
            Ok(())
        }
        Watcher::Close => realm.await_close_by(rt, token, awaited.scope, clock),
        Watcher::Mark => {
            let until = Some(OVER);
            realm.wait_marked_by(rt, token, &awaited.cell, seat, clock, until, None)?;
            Ok(())
        }
        Watcher::Sleep => realm.pause_by(rt, token, clock, Some(OVER), None),
        Watcher::Ring => {
            let bell = &awaited.bell;
            realm.pause_by(rt, token, clock, None, Some(BellWait { bell, heard: 0 }))
        }
    }
}

/// A clock that goes on by a millisecond at each reading.
#[derive(Drop)]
struct Steps {
    last: Option<u64>,
}

impl Clock for Steps {
    ghost reading = { λ clock. clock.last };

    ghost reads = { λ old new now. new.last ≡ Some now };

    fn now(&mut self) -> u64 {
        let now = match self.last {
            Some(last) => last.saturating_add(1),
            None => 0,
        };
        self.last = Some(now);
        now
    }

    fn last(&self) -> Option<u64> {
        self.last
    }
}

/// Which wait ends, and whether it does since a tick is refused.
#[derive(Clone, Copy)]
pub struct Handing {
    pub watcher: Watcher,
    pub is_refused: bool,
}

/// Returns once the clock was read, and a little later: who read it has gone to sleep by then, as a rule.
fn await_reading(readings: &AtomicU64) {
    for _ in 0..u32::MAX {
        if readings.load(Ordering::SeqCst) > 0 {
            break;
        }
        thread::yield_now();
    }
    pause();
}

/// The first waits. Then it waits without a clock for the mark that the deadline sets, and cancels the scope in which main
/// waits. Whether all went so; or, if the tick is refused, whether its wait answered that.
fn waits_first<N: RealmName, R: Wait + SystemTime>(
    rt: &R,
    realm: &Realm<AnyEnd, N>,
    mut token: ActorToken,
    mut seat: Seat,
    around: ScopeId,
    hands: &Hands,
    handing: Handing,
    awaited: &Awaited,
) -> bool
    requires named { token.table ≡ N.table }
    requires seat { seat.cell ≡ awaited.now.cell }
{
    let mut clock = LockingClock::new(rt, realm, &hands.time, &hands.first);
    let watcher = handing.watcher;
    let ended = wait(
        rt, realm, &mut token, &mut seat, &mut clock, watcher, awaited,
    );
    if handing.is_refused {
        return ended == Err(Refusal::TooMany);
    }
    hands.time.store(BEHIND, Ordering::SeqCst);
    let mark = realm.wait_marked(rt, &awaited.cell, &mut seat);
    let is_marked = mark.scope == awaited.cell.scope();
    ended.is_ok() && is_marked && realm.cancel(rt, &mut token, around).is_ok()
}

/// Once main has read its clock, behind the first, the task that the first waits for sleeps for a millisecond: it is the last who goes to
/// sleep, and doesn't watch. Then the first's wait is over: its time has come, the task ends, and its bell rings; or its time
/// alone, by which a tick is refused. Whether the task's calls were accepted.
fn ends_it<N: RealmName, R: Wait + SystemTime>(
    rt: &R,
    realm: &Realm<AnyEnd, N>,
    ticket: Ticket,
    hands: &Hands,
    handing: Handing,
    awaited: &Awaited,
) -> bool
    requires { (ticket.table ≡ N.table) × IsWaiting ticket }
{
    await_reading(&hands.main);
    let (ticket, mut token) = realm.start(rt, ticket);
    let has_slept = realm
        .pause_by(rt, &mut token, &mut Steps { last: None }, Some(1), None)
        .is_ok();
    hands.time.store(OVER, Ordering::SeqCst);
    if handing.is_refused {
        return has_slept;
    }
    awaited.bell.ring();
    has_slept && finish(rt, realm, ticket, token, Ok(Value::Num(1))).is_some()
}

/// Main joins by a clock, once the first has read its own. Whether that was answered as it should be.
fn joins_behind<N: RealmName, R: Wait + SystemTime>(
    rt: &R,
    realm: &Realm<AnyEnd, N>,
    main: &mut ActorToken,
    scope: ScopeId,
    hands: &Hands,
    handing: Handing,
) -> bool
    requires { main.old.table ≡ N.table }
{
    await_reading(&hands.first);
    let mut clock = LockingClock::new(rt, realm, &hands.time, &hands.main);
    match realm.join_by::<Joined, _, _>(rt, main, scope, &mut clock) {
        Ok(_joined) => !handing.is_refused,
        Err(refusal) => handing.is_refused && refusal == Refusal::TooMany,
    }
}

/// The first's part beside what ends its wait.
fn first_and_its_end<N: RealmName + Send + Sync, R: Threads + Wait + SystemTime + Abort + Sync>(
    rt: &R,
    realm: &Realm<AnyEnd, N>,
    token: ActorToken,
    seat: Seat,
    ticket: Ticket,
    around: ScopeId,
    hands: &Hands,
    handing: Handing,
    awaited: &Awaited,
) -> bool
    requires token { token.table ≡ N.table }
    requires seat { seat.cell ≡ awaited.now.cell }
    requires ticket { (ticket.table ≡ N.table) × IsWaiting ticket }
{
    let (is_right, has_ended) = thread::join(
        rt,
        move ||
            requires token { token.table ≡ N.table }
            requires seat { seat.cell ≡ awaited.now.cell }
        { waits_first(rt, realm, token, seat, around, hands, handing, awaited) },
        move ||
            requires { (ticket.table ≡ N.table) × IsWaiting ticket }
        { ends_it(rt, realm, ticket, hands, handing, awaited) },
    );
    is_right && has_ended
}

/// A task waits first, and main behind it, both by clocks. The task's wait ends before a deadline that main passes, or a tick
/// is refused to both.
pub fn the_watch_is_handed_on<
    N: RealmName + Send + Sync,
    R: Threads + Wait + SystemTime + Abort + Sync,
>(
    rt: &R,
    alloc: Global,
    realm: &Realm<AnyEnd, N>,
    main: &mut ActorToken,
    handing: Handing,
) -> Result<(), Fail>
    requires { main.old.table ≡ N.table }
{
    let around = open(rt, realm, main, Options::PLAIN)?;
    let mut token = run(rt, realm, main, around)?;
    let deadline = if handing.is_refused { OVER } else { BEHIND };
    let (_late, cell, seat) = open_marked(rt, realm, &mut token, Options::by(deadline))?;
    let scope = open(rt, realm, &mut token, Options::PLAIN)?;
    let ticket = fork(rt, realm, &mut token, scope)?;
    let bell = Bell::new(alloc)?;
    let awaited = Awaited { scope, cell, bell };
    let hands = Hands {
        time: AtomicU64::new(0),
        first: AtomicU64::new(0),
        main: AtomicU64::new(0),
    };
    let (is_right, is_joined) = thread::join(
        rt,
        ||
            requires token { token.table ≡ N.table }
            requires seat { seat.cell ≡ awaited.cell }
            requires ticket { (ticket.table ≡ N.table) × IsWaiting ticket }
        {
            first_and_its_end(
                rt, realm, token, seat, ticket, around, &hands, handing, &awaited,
            )
        },
        ||
            requires { main.now.table ≡ N.table }
        { joins_behind(rt, realm, main, around, &hands, handing) },
    );
    assert!(rt; is_right && is_joined);
    Ok(())
}
