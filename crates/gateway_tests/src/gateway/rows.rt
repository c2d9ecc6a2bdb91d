//! Requests without a deadline. What plans are answered, `crates/scopectl/rows` says.

use super::asking::Duty;
use super::serving::{Request, Served, over_a_pool, with_duties};
use quote_gateway::GatewayFault;
use realm_lock::Seed;
use std::marker::Brand;
use std::process::Abort;
use std::test::Fail;

/// A request, and what it comes to.
#[derive(Clone, Copy)]
pub struct Row {
    pub request: Request<'static>,
    /// The line, or why there is none.
    pub wanted: Result<&'static str, GatewayFault>,
    /// How many jobs are called, where that is certain.
    pub calls: Option<u64>,
}

/// That the request came to what the row says.
pub fn check(rt: &impl Abort, row: &Row, served: &Served) {
    match (&served.line, &row.wanted) {
        (Ok(line), Ok(wanted)) => assert_eq!(rt; line.as_str(), *wanted),
        (Err(why), Err(wanted)) => assert_eq!(rt; why, wanted, "{}", row.request.plan),
        (Ok(line), Err(_)) => assert!(rt; false, "{}: {line}", row.request.plan),
        (Err(_), Ok(wanted)) => assert!(rt; false, "no answer, but {wanted}"),
    }
    if let Some(calls) = row.calls {
        assert_eq!(rt; served.calls, calls, "{}", row.request.plan);
    }
}

/// The jobs have these duties, and the request has no answer.
fn fails(plan: &'static str, duties: &'static [Duty], fault: GatewayFault) -> Row {
    Row {
        request: with_duties(plan, duties),
        wanted: Err(fault),
        calls: None,
    }
}

/// The thread of this number is refused.
fn refused(plan: &'static str, nth: u64, calls: u64) -> Row {
    Row {
        request: Request {
            plan,
            jobs: plan,
            duties: &[],
            refused: nth,
            timed: None,
        },
        wanted: Err(GatewayFault::Rejected),
        calls: Some(calls),
    }
}

/// The jobs of the second plan are handed over with the first.
fn strange(plan: &'static str, jobs: &'static str) -> Row {
    Row {
        request: Request {
            plan,
            jobs,
            duties: &[],
            refused: 0,
            timed: None,
        },
        wanted: Err(GatewayFault::Strange),
        calls: Some(0),
    }
}

/// What requests come to that no plan of the program can: a thread is refused, a job ends otherwise than its offer says or cancels
/// the request, and the jobs are not those of the plan.
fn rows() -> [Row; 10] {
    let (one, two) = ("mode best / offer a 5", "mode best / offer a 5 / offer b 6");
    [
        refused(one, 1, 0),
        refused(two, 2, 1),
        fails(one, &[Duty::Forgets], GatewayFault::Lost),
        fails(one, &[Duty::LeavesOpen], GatewayFault::Lost),
        fails(one, &[Duty::Cancels], GatewayFault::Cancelled),
        strange(two, one),
        strange(one, two),
        strange(two, "mode best / offer b 6 / offer a 5"),
        strange(two, "mode best / offer a 5 / offer b 7"),
        strange(two, "mode best / offer a 5 / offer c 6"),
    ]
}

#[test]
fn requests_are_answered(rt: HostRuntime) -> Result<(), Fail> {
    for row in &rows() {
        for keep in [0, 4] {
            let seed = Seed::new(rt.alloc())?;
            let served = over_a_pool::<Brand, _>(&rt, rt.alloc(), seed, keep, row.request)?;
            check(&rt, row, &served);
        }
    }
    Ok(())
}
