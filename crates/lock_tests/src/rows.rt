//! Rows of calls of a realm, each on one of its own.
ghost use Rattle.std.specs.Prelude.{◌≡◌};

use crate::handing::{Handing, Watcher, the_watch_is_handed_on};
use crate::threads::{ten_rounds, two_served, waited};
use crate::waits::{Waits, Waker, a_call_wakes};
use realm_lock::{ActorToken, Realm, RealmName, Seed};
use scope_rules::{AnyEnd, Limits};
use std::alloc::Global;
use std::marker::Brand;
use std::process::Abort;
use std::rt::Clock as SystemTime;
use std::sync::Wait;
use std::test::Fail;
use std::thread::Threads;

/// Which row.
#[derive(Clone, Copy)]
enum Row {
    TwoServed,
    Waited,
    Woken(Waits, Waker),
    HandedOn(Handing),
    TenRounds,
}

impl Row {
    /// The limits of the row's realm.
    fn limits(self) -> Option<Limits> {
        match self {
            Row::TenRounds => Limits::new(1, 1, 7),
            Row::HandedOn(handing) if handing.is_refused => Limits::new(3, 2, 18), // no load for a tick
            _ => Some(Limits::GREATEST),
        }
    }
}

fn play<N: RealmName + Send + Sync, R: Threads + Wait + SystemTime + Abort + Sync>(
    rt: &R,
    alloc: Global,
    realm: &Realm<AnyEnd, N>,
    mut main: ActorToken,
    row: Row,
) -> Result<(), Fail>
    requires { main.table ≡ N.table }
{
    match row {
        Row::TwoServed => two_served(rt, realm, &mut main),
        Row::Waited => waited(rt, realm, &mut main),
        Row::Woken(waits, waker) => a_call_wakes(rt, realm, &mut main, (waits, waker)),
        Row::HandedOn(handing) => the_watch_is_handed_on(rt, alloc, realm, &mut main, handing),
        Row::TenRounds => ten_rounds(rt, realm, main),
    }
}

fn check<N: RealmName + Send + Sync, R: Threads + Wait + SystemTime + Abort + Sync>(
    rt: &R,
    alloc: Global,
    seed: Seed,
    row: Row,
) -> Result<(), Fail>
    requires { seed ≡ N.table }
{
    let limits = row.limits().ok_or("limits")?;
    let (realm, main) = Realm::<AnyEnd, N>::new(alloc, seed, limits)?;
    play(rt, alloc, &realm, main, row)
}

/// The rows, and how often each is played.
const ROWS: [(Row, u32); 11] = [
    (Row::TwoServed, 1),
    (Row::Waited, 20),
    (Row::Woken(Waits::Join, Waker::Cancel), 1),
    (Row::Woken(Waits::Join, Waker::Tick), 1),
    (Row::Woken(Waits::Join, Waker::Move), 1),
    (Row::Woken(Waits::Join, Waker::Reject), 1),
    (Row::Woken(Waits::Join, Waker::BeginClose), 1),
    (Row::Woken(Waits::Close, Waker::End), 1),
    (Row::Woken(Waits::Sleep, Waker::Open), 1),
    (Row::Woken(Waits::Mark, Waker::CancelNow), 2_000),
    (Row::TenRounds, 1),
];

/// The waits whose end hands on the watch.
const WATCHERS: [Watcher; 5] = [
    Watcher::Join,
    Watcher::Close,
    Watcher::Mark,
    Watcher::Sleep,
    Watcher::Ring,
];

#[test]
fn rows_over_a_realm(rt: HostRuntime) -> Result<(), Fail> {
    for (row, times) in ROWS {
        for _ in 0..times {
            check::<Brand, _>(&rt, rt.alloc(), Seed::new(rt.alloc())?, row)?;
        }
    }
    Ok(())
}

#[test]
fn each_wait_that_ends_hands_on_the_watch(rt: HostRuntime) -> Result<(), Fail> {
    for watcher in WATCHERS {
        for is_refused in [false, true] {
            let row = Row::HandedOn(Handing {
                watcher,
                is_refused,
            });
            check::<Brand, _>(&rt, rt.alloc(), Seed::new(rt.alloc())?, row)?;
        }
    }
    Ok(())
}
