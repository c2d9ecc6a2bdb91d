//! Requests by a deadline.

use super::asking::Duty;
use super::rows::{Row, check};
use super::serving::{Request, Timed, over_a_pool, over_one_thread};
use quote_gateway::GatewayFault;
use realm_lock::Seed;
use std::marker::Brand;
use std::test::Fail;

/// Three prices, of which the last two are the least.
const PRICES: &str = "mode best / offer a 905 / offer b 899 / offer c 899";

/// A request by the deadline of 100 ms, whose clock reads this.
fn timed(
    plan: &'static str,
    duties: &'static [Duty],
    reading: u64,
    wanted: Result<&'static str, GatewayFault>,
) -> Row {
    Row {
        request: Request {
            plan,
            jobs: plan,
            duties,
            refused: 0,
            timed: Some(Timed {
                deadline: 100,
                reading: Some(reading),
            }),
        },
        wanted,
        calls: None,
    }
}

/// On threads: before the deadline is there all prices are waited for; at it the jobs see their marks; and a
/// job that tells a later moment than the clock's cancels the request.
fn on_threads() -> [Row; 3] {
    [
        timed(PRICES, &[], 99, Ok("best b 899")),
        timed(
            PRICES,
            &[Duty::Looks, Duty::Looks, Duty::Looks],
            100,
            Ok("partial"),
        ),
        timed(
            "mode best / offer a 5",
            &[Duty::TicksAt(0, 200)],
            50,
            Err(GatewayFault::Cancelled),
        ),
    ]
}

#[test]
fn requests_have_deadlines(rt: HostRuntime) -> Result<(), Fail> {
    for row in &on_threads() {
        for keep in [0, 4] {
            let seed = Seed::new(rt.alloc())?;
            let served = over_a_pool::<Brand, _>(&rt, rt.alloc(), seed, keep, row.request)?;
            check(&rt, row, &served);
        }
    }
    Ok(())
}

/// A job that is not wanted any more goes on behind a shield until a deadline there has come: the close of the
/// request lets that pass, by the system's clock.
const LINGERING: Row = Row {
    request: Request {
        plan: "mode first / offer b 899 / offer a 905",
        jobs: "mode first / offer b 899 / offer a 905",
        duties: &[Duty::Lingers(300)],
        refused: 0,
        timed: Some(Timed {
            deadline: 60_000,
            reading: None,
        }),
    },
    wanted: Ok("first a 905"),
    calls: Some(2),
};

#[test]
fn a_request_by_a_deadline_closes_by_its_clock(rt: HostRuntime) -> Result<(), Fail> {
    let seed = Seed::new(rt.alloc())?;
    let served = over_a_pool::<Brand, _>(&rt, rt.alloc(), seed, 4, LINGERING.request)?;
    check(&rt, &LINGERING, &served);
    Ok(())
}

/// On one thread, where each job has ended before the clock is read: then all prices are there, whatever the
/// clock reads, and also where a job told a later moment.
fn on_one_thread() -> [Row; 4] {
    [
        timed(PRICES, &[], 99, Ok("best b 899")),
        timed(PRICES, &[], 100, Ok("best b 899")),
        timed(
            "mode all / offer a 5 / offer b fail x / offer c 7",
            &[Duty::Forgets],
            100,
            Err(GatewayFault::Lost),
        ),
        timed(
            "mode best / offer a 5",
            &[Duty::TicksAt(0, 60)],
            50,
            Ok("best a 5"),
        ),
    ]
}

#[test]
fn prices_that_are_there_are_answered_at_any_time(rt: HostRuntime) -> Result<(), Fail> {
    for row in &on_one_thread() {
        let seed = Seed::new(rt.alloc())?;
        let served = over_one_thread::<Brand, _>(&rt, rt.alloc(), seed, row.request)?;
        check(&rt, row, &served);
    }
    Ok(())
}
