//! Requests by the thousand over `serve_requests`: each is answered, or told to the source, once.

use super::counting::Counting;
use balkreyn::act::{Acts, Flow, Hooks, Lost, Need, Source, Stop, Task, serve_requests, shielded};
use balkreyn::{End, Fault, Limits, Name, PoolRuntime, Refusal, ServiceError, Value, Wait, named};
use std::alloc::Global;
use std::process::Abort;
use std::rt::Clock as SystemTime;
use std::sync::Arc;
use std::sync::atomic::{AtomicU32, Ordering};
use std::test::Fail;
use std::thread;
use std::time::Instant;

/// What a request does.
#[derive(Clone, Copy)]
enum Kind {
    Quick,
    Fails,
    /// It takes so many milliseconds.
    Naps(u64),
    /// It waits until so many requests were answered.
    Waits(u32),
}

/// What became of the requests, and how many ran at once at the most.
#[derive(Drop)]
struct Tally {
    answered: AtomicU32,
    refused: AtomicU32,
    failed: AtomicU32,
    late: AtomicU32,
    stopped: AtomicU32,
    running: AtomicU32,
    most: AtomicU32,
}

impl Tally {
    /// Nothing yet.
    fn new() -> Tally {
        Tally {
            answered: AtomicU32::new(0),
            refused: AtomicU32::new(0),
            failed: AtomicU32::new(0),
            late: AtomicU32::new(0),
            stopped: AtomicU32::new(0),
            running: AtomicU32::new(0),
            most: AtomicU32::new(0),
        }
    }

    /// How many were answered, and of those that were lost how many were refused, failed, late, and stopped.
    fn counts(&self) -> (u32, u32, u32, u32, u32) {
        (
            self.answered.load(Ordering::SeqCst),
            self.refused.load(Ordering::SeqCst),
            self.failed.load(Ordering::SeqCst),
            self.late.load(Ordering::SeqCst),
            self.stopped.load(Ordering::SeqCst),
        )
    }
}

/// A request on its way.
#[derive(Drop)]
struct Work {
    kind: Kind,
    tally: Arc<Tally, Global>,
}

impl Work {
    /// Does what its kind says; false if a cancel or a deadline comes before.
    fn act<X: Acts<Work>>(&self, cx: &mut X) -> Result<bool, Refusal> {
        match self.kind {
            Kind::Quick => Ok(true),
            Kind::Fails => Err(Refusal::Unavailable),
            Kind::Naps(millis) => Ok(cx.sleep(millis)?.is_none()),
            Kind::Waits(enough) => {
                for _ in 0..u32::MAX {
                    if self.tally.answered.load(Ordering::SeqCst) >= enough {
                        return Ok(true);
                    }
                    if cx.sleep(1)?.is_some() {
                        return Ok(false);
                    }
                }
                Ok(false)
            }
        }
    }
}

impl Task for Work {
    fn run<X: Acts<Work>>(self, cx: &mut X) -> End {
        let running = self.tally.running.fetch_add(1, Ordering::SeqCst);
        self.tally
            .most
            .fetch_max(running.saturating_add(1), Ordering::SeqCst);
        let done = self.act(cx);
        self.tally.running.fetch_sub(1, Ordering::SeqCst);
        match done {
            Ok(true) => {
                self.tally.answered.fetch_add(1, Ordering::SeqCst);
                Ok(Value::Num(1))
            }
            Ok(false) => Err(Fault(named(b"cut"))),
            Err(_refusal) => Err(Fault(named(b"broken"))),
        }
    }
}

/// Which requests come: of each round the first are of one kind, and the others quick.
#[derive(Clone, Copy)]
struct Load {
    requests: u32,
    round: u32,
    kinds: [Kind; 3],
}

/// Where requests come from. With a stop it asks for that behind the last, and then waits for an hour.
#[derive(Drop)]
struct Shop {
    load: Load,
    asked: AtomicU32,
    tally: Arc<Tally, Global>,
    stop: Option<Arc<Stop, Global>>,
}

impl Shop {
    /// The kind of the request with this number.
    fn kind(&self, number: u32) -> Kind {
        let place = number.checked_rem(self.load.round).unwrap_or(0);
        match self.load.kinds.get(place as usize) {
            Some(kind) => *kind,
            None => Kind::Quick,
        }
    }
}

impl Source<Work> for Shop {
    fn next<X: Acts<Work>>(&self, cx: &mut X) -> Option<(Name, Work)> {
        let number = self.asked.fetch_add(1, Ordering::SeqCst);
        if number >= self.load.requests {
            if let Some(stop) = &self.stop {
                stop.ask(cx);
                let _mark = cx.sleep(3_600_000);
            }
            return None;
        }
        let (kind, tally) = (self.kind(number), Arc::try_clone(&self.tally).ok()?);
        Some((named(b"request"), Work { kind, tally }))
    }

    fn lost<R: Wait>(&self, _rt: &R, _name: Name, why: Lost) {
        let counter = match why {
            Lost::Refused(_refusal) => &self.tally.refused,
            Lost::Failed(_fault) => &self.tally.failed,
            Lost::Late => &self.tally.late,
            Lost::Stopped => &self.tally.stopped,
        };
        counter.fetch_add(1, Ordering::SeqCst);
    }
}

/// Fifty at once, each within 200 milliseconds, and half a second for a stop, in realms with these limits.
fn flow_of(limits: Limits) -> Flow {
    Flow {
        at_once: 50,
        deadline: 200,
        grace: 500,
        limits,
        ..Flow::PLAIN
    }
}

/// A shop that may give one request more, behind its stop, once so many were stopped.
#[derive(Drop)]
struct LateShop {
    shop: Shop,
    stopped: Option<u32>,
    late: AtomicU32,
}

impl LateShop {
    /// Returns once so many were stopped, and a tenth of a second later.
    fn await_stopped<X: Acts<Work>>(&self, cx: &mut X, stopped: u32) {
        for _ in 0..u32::MAX {
            if self.shop.tally.stopped.load(Ordering::SeqCst) >= stopped {
                break;
            }
            thread::yield_now();
        }
        let _slept: Result<(), Refusal> = shielded(cx, |cx, _scope| {
            cx.sleep(100)?;
            Ok(())
        });
    }
}

impl Source<Work> for LateShop {
    fn next<X: Acts<Work>>(&self, cx: &mut X) -> Option<(Name, Work)> {
        if let Some(request) = self.shop.next(cx) {
            return Some(request);
        }
        let stopped = self.stopped?;
        if self.late.fetch_add(1, Ordering::SeqCst) > 0 {
            return None;
        }
        self.await_stopped(cx, stopped);
        let tally = Arc::try_clone(&self.shop.tally).ok()?;
        let kind = Kind::Quick;
        Some((named(b"late"), Work { kind, tally }))
    }

    fn lost<R: Wait>(&self, rt: &R, name: Name, why: Lost) {
        self.shop.lost(rt, name, why);
    }
}

/// How requests come to an end that is none of their own.
#[derive(Clone, Copy)]
enum Ends {
    BySource,
    ByStop,
    /// By the stop, and one comes behind that, once so many were stopped.
    Late(u32),
}

/// Serves these requests; what was counted, and why the service ended if not by its source or stop.
fn served<R: PoolRuntime + SystemTime>(
    rt: &R,
    alloc: Global,
    flow: Flow,
    load: Load,
    ends: Ends,
) -> Result<(Arc<Tally, Global>, Option<ServiceError>), Refusal> {
    let (stop, asks) = match ends {
        Ends::BySource => (None, None),
        Ends::ByStop | Ends::Late(_) => {
            let stop = Arc::new(alloc, Stop::new())?;
            (Some(Arc::try_clone(&stop)?), Some(stop))
        }
    };
    let hooks = Hooks {
        stop,
        ..Hooks::none()
    };
    let tally = Arc::new(alloc, Tally::new())?;
    let shop = Shop {
        load,
        asked: AtomicU32::new(0),
        tally: Arc::try_clone(&tally)?,
        stop: asks,
    };
    let stopped = match ends {
        Ends::Late(stopped) => Some(stopped),
        _ => None,
    };
    let shop = LateShop {
        shop,
        stopped,
        late: AtomicU32::new(0),
    };
    let source = Arc::new(alloc, shop)?;
    let ended = serve_requests::<Work, (), LateShop, R>(rt, alloc, flow, hooks, source);
    Ok((tally, ended.err()))
}

/// The flow of requests that reckons a task for each, and no scope for its deadline.
fn without_scopes(limits: Limits) -> Flow {
    Flow {
        request: Need {
            scopes: 0,
            tasks: 1,
            steps: 0,
        },
        ..flow_of(limits)
    }
}

/// What a request is reckoned to need.
#[derive(Clone, Copy)]
enum Reckoned {
    Plainly,
    WithoutScope,
    AsNothing,
}

/// Requests, how they flow, and what becomes of them.
#[derive(Clone, Copy)]
struct Row {
    name: &'static str,
    limits: (u32, u32, u32),
    reckoned: Reckoned,
    at_once: u32,
    per_second: u32,
    deadline: u64,
    grace: u64,
    load: Load,
    ends: Ends,
    /// How many are answered, and of those that are lost how many are refused, failed, late, and stopped.
    wanted: (u32, u32, u32, u32, u32),
    refused: Option<Refusal>,
    /// How many run at once at the most, and how many milliseconds it takes at least.
    most: Option<u32>,
    least: u128,
    /// How often it is served.
    rounds: u32,
}

impl Row {
    /// How its requests flow, if there are such limits.
    fn flow(self) -> Option<Flow> {
        let (scopes, tasks, load) = self.limits;
        let limits = Limits::new(scopes, tasks, load)?;
        let flow = match self.reckoned {
            Reckoned::Plainly => flow_of(limits),
            Reckoned::WithoutScope => without_scopes(limits),
            Reckoned::AsNothing => Flow {
                request: NOTHING,
                ..flow_of(limits)
            },
        };
        Some(Flow {
            at_once: self.at_once,
            per_second: self.per_second,
            deadline: self.deadline,
            grace: self.grace,
            ..flow
        })
    }
}

/// What needs nothing of a realm.
const NOTHING: Need = Need {
    scopes: 0,
    tasks: 0,
    steps: 0,
};

/// Realms with the greatest limits, and such as have room for six requests each, beside those of a turn.
const GREATEST: (u32, u32, u32) = (4_096, 65_536, 1_048_576);

const SMALL: (u32, u32, u32) = (11, 8, 200);

/// Quick requests.
const QUICK: Load = Load {
    requests: 7,
    round: 100,
    kinds: [Kind::Quick, Kind::Quick, Kind::Quick],
};

/// Seven quick requests without a deadline, in the greatest realms.
const PLAIN: Row = Row {
    name: "plain",
    limits: GREATEST,
    reckoned: Reckoned::Plainly,
    at_once: 50,
    per_second: u32::MAX,
    deadline: u64::MAX,
    grace: 500,
    load: QUICK,
    ends: Ends::BySource,
    wanted: (7, 0, 0, 0, 0),
    refused: None,
    most: None,
    least: 0,
    rounds: 1,
};

/// Twelve requests that take thirty milliseconds each.
const TWELVE: Load = Load {
    requests: 12,
    round: 1,
    kinds: [Kind::Naps(30), Kind::Quick, Kind::Quick],
};

const ROWS: [Row; 13] = [
    Row {
        name: "a slow request, done once 39 were answered, holds up no other",
        limits: SMALL,
        deadline: 60_000,
        load: Load {
            requests: 40,
            round: 100,
            kinds: [Kind::Waits(39), Kind::Quick, Kind::Quick],
        },
        wanted: (40, 0, 0, 0, 0),
        ..PLAIN
    },
    Row {
        name: "realms with room for the scopes of a turn, and for no task: what is too big for an empty one is refused",
        limits: (3, 1, 13),
        deadline: 200,
        wanted: (0, 7, 0, 0, 0),
        ..PLAIN
    },
    Row {
        name: "an owner without room for a turn ends the service",
        limits: (2, 1, 13),
        deadline: 200,
        wanted: (0, 0, 0, 0, 0),
        refused: Some(Refusal::TooMany),
        ..PLAIN
    },
    Row {
        name: "a stop gives grace to what runs: two end within it, two and the source would take an hour",
        load: Load {
            requests: 4,
            round: 2,
            kinds: [Kind::Naps(3_600_000), Kind::Naps(50), Kind::Quick],
        },
        ends: Ends::ByStop,
        wanted: (2, 0, 0, 0, 2),
        ..PLAIN
    },
    Row {
        name: "a stop ends the wait of the first owner",
        limits: SMALL,
        load: Load {
            requests: 3,
            ..QUICK
        },
        ends: Ends::ByStop,
        wanted: (3, 0, 0, 0, 0),
        rounds: 3,
        ..PLAIN
    },
    Row {
        name: "a stop ends the wait of the second owner",
        limits: SMALL,
        load: Load {
            requests: 9,
            ..QUICK
        },
        ends: Ends::ByStop,
        wanted: (9, 0, 0, 0, 0),
        rounds: 3,
        ..PLAIN
    },
    Row {
        name: "a stop reaches both realms: one takes an hour in the first, and the source waits behind the second",
        limits: SMALL,
        grace: 50,
        load: Load {
            requests: 9,
            round: 100,
            kinds: [Kind::Naps(3_600_000), Kind::Quick, Kind::Quick],
        },
        ends: Ends::ByStop,
        wanted: (8, 0, 0, 0, 1),
        ..PLAIN
    },
    Row {
        name: "one runs at once",
        at_once: 1,
        load: TWELVE,
        wanted: (12, 0, 0, 0, 0),
        most: Some(1),
        ..PLAIN
    },
    Row {
        name: "three run at once",
        at_once: 3,
        load: TWELVE,
        wanted: (12, 0, 0, 0, 0),
        most: Some(3),
        ..PLAIN
    },
    Row {
        name: "so many begin in a second: the first waits, too, and what ten milliseconds have room for is caught up",
        per_second: 50,
        deadline: 200,
        load: Load {
            requests: 20,
            ..QUICK
        },
        wanted: (20, 0, 0, 0, 0),
        least: 370,
        ..PLAIN
    },
    Row {
        name: "a request for which there is no room goes to the other realm",
        limits: SMALL,
        reckoned: Reckoned::AsNothing,
        load: Load {
            requests: 40,
            ..QUICK
        },
        wanted: (40, 0, 0, 0, 0),
        ..PLAIN
    },
    Row {
        name: "a request behind a stop is told so: the grace is over when the last comes",
        grace: 0,
        load: Load {
            requests: 1,
            round: 100,
            kinds: [Kind::Naps(3_600_000), Kind::Quick, Kind::Quick],
        },
        ends: Ends::Late(1),
        wanted: (0, 0, 0, 0, 2),
        ..PLAIN
    },
    Row {
        name: "a realm without a scope beside the three of a turn: a request whose scope is refused is told so",
        limits: (3, 8, 200),
        reckoned: Reckoned::WithoutScope,
        deadline: 200,
        load: Load {
            requests: 20,
            ..QUICK
        },
        wanted: (0, 20, 0, 0, 0),
        ..PLAIN
    },
];

/// Whether the row goes as it says.
fn is_right<R: PoolRuntime + SystemTime>(rt: R, alloc: Global, row: Row) -> Option<bool> {
    let flow = row.flow()?;
    let before = Instant::now(&rt).ok()?;
    let (tally, why) = served(&rt, alloc, flow, row.load, row.ends).ok()?;
    let took = before.elapsed(&rt).ok()?.as_millis();
    let why_wanted = match why {
        None => row.refused.is_none(),
        Some(ServiceError::Refused(refusal)) => row.refused == Some(refusal),
        Some(_) => false,
    };
    let is_most = match row.most {
        None => true,
        Some(most) => tally.most.load(Ordering::SeqCst) == most,
    };
    Some(why_wanted && is_most && tally.counts() == row.wanted && took >= row.least)
}

#[test]
fn each_row_of_requests_goes_as_it_says(rt: HostRuntime) -> Result<(), Fail> {
    for row in ROWS {
        for _ in 0..row.rounds {
            assert!(rt; is_right(rt, rt.alloc(), row) == Some(true), "{}", row.name);
        }
    }
    Ok(())
}

#[test]
fn a_hundred_thousand_requests_are_answered_or_told_once(rt: HostRuntime) -> Result<(), Fail> {
    let flow = Flow {
        deadline: 50,
        ..flow_of(Limits::GREATEST)
    };
    let load = Load {
        requests: 100_000,
        round: 100,
        kinds: [Kind::Fails, Kind::Naps(60_000), Kind::Naps(2)],
    };
    let (tally, why) = served(&rt, rt.alloc(), flow, load, Ends::BySource)?;
    let (answered, refused, failed, late, stopped) = tally.counts();
    assert!(rt; why.is_none() && refused == 0 && stopped == 0);
    assert!(rt; failed <= 1_000 && late >= 1_000 && answered <= 98_000);
    assert!(rt; answered.saturating_add(failed).saturating_add(late) == 100_000);
    assert!(rt; tally.most.load(Ordering::SeqCst) <= 50);
    Ok(())
}

/// The first owner gets no time. The other would serve for ever, a request a millisecond; it doesn't go on until its realm is
/// full.
#[test]
fn an_owner_that_fails_alone_ends_the_service(rt: HostRuntime) -> Result<(), Fail> {
    let faltering = Counting::faltering(rt, rt.alloc())?;
    let flow = Flow {
        per_second: 1_000,
        ..flow_of(Limits::GREATEST)
    };
    let load = Load {
        requests: u32::MAX,
        ..QUICK
    };
    let (tally, why) = served(&faltering, rt.alloc(), flow, load, Ends::BySource)?;
    assert!(rt; why == Some(ServiceError::NoTime));
    assert!(rt; tally.counts().0 < 2_000);
    Ok(())
}

/// With the watch for the stop a realm has room for seven requests that are reckoned to need nothing. The last is put back
/// behind the stop, for which the other owner begins no more, as a rule.
#[test]
fn a_request_that_was_put_back_is_answered_or_told(rt: HostRuntime) -> Result<(), Fail> {
    let row = Row {
        limits: SMALL,
        reckoned: Reckoned::AsNothing,
        ..PLAIN
    };
    let flow = row.flow().ok_or("limits")?;
    let (tally, why) = served(&rt, rt.alloc(), flow, QUICK, Ends::Late(0))?;
    let (answered, refused, failed, late, stopped) = tally.counts();
    assert!(rt; why.is_none() && (refused, failed, late) == (0, 0, 0));
    assert!(rt; answered >= 7 && answered.saturating_add(stopped) == 8);
    Ok(())
}
