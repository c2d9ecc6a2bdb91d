//! A server that goes on until it is stopped: of its requests three in a hundred are slow, one fails, and the others are
//! answered. Behind a stop, those that run have three seconds.

use balkreyn::act::*;
use balkreyn::*;
use std::alloc::Global;
use std::rt::Clock as SystemTime;
use std::sync::Arc;
use std::sync::atomic::{AtomicU32, Ordering};

/// A request, by its number.
#[derive(Clone, Copy)]
struct Request(u32);

impl Task for Request {
    fn run<X: Acts<Request>>(self, cx: &mut X) -> End {
        let takes = match self.0 % 100 {
            7 => return Err(Fault(named(b"broken"))),
            33 | 66 | 99 => 60_000,
            _ => 1,
        };
        match cx.sleep(takes) {
            Ok(None) => Ok(Value::Num(1)),
            _ => Err(Fault(named(b"cut"))),
        }
    }
}

/// The requests, what became of those that weren't answered, and the stop that the last one asks for.
#[derive(Drop)]
struct Desk {
    asked: AtomicU32,
    failed: AtomicU32,
    late: AtomicU32,
    other: AtomicU32,
    stop: Arc<Stop, Global>,
}

/// How many requests come.
const REQUESTS: u32 = 1_000;

impl Source<Request> for Desk {
    fn next<X: Acts<Request>>(&self, cx: &mut X) -> Option<(Name, Request)> {
        let number = self.asked.fetch_add(1, Ordering::SeqCst);
        if number >= REQUESTS {
            self.stop.ask(cx);
            let _mark = cx.sleep(60_000);
            return None;
        }
        Some((named(b"request"), Request(number)))
    }

    fn lost<R: Wait>(&self, _rt: &R, _name: Name, why: Lost) {
        let counter = match why {
            Lost::Failed(_fault) => &self.failed,
            Lost::Late => &self.late,
            _ => &self.other,
        };
        counter.fetch_add(1, Ordering::SeqCst);
    }
}

/// Serves, and answers how many requests failed, were late, and were lost otherwise.
fn served<R: PoolRuntime + SystemTime>(
    rt: &R,
    io: HostRuntime,
) -> Result<(u32, u32, u32), ServiceError> {
    let alloc = io.alloc();
    let stop = Arc::new(alloc, Stop::new())?;
    let desk = Desk {
        asked: AtomicU32::new(0),
        failed: AtomicU32::new(0),
        late: AtomicU32::new(0),
        other: AtomicU32::new(0),
        stop: Arc::try_clone(&stop)?,
    };
    let flow = Flow {
        at_once: 50,
        per_second: 20_000,
        deadline: 1_000,
        grace: 3_000,
        ..Flow::PLAIN
    };
    let hooks = Hooks {
        stop: Some(stop),
        ..Hooks::none()
    };
    let desk = Arc::new(alloc, desk)?;
    let source = Arc::try_clone(&desk)?;
    serve_requests::<Request, (), Desk, R>(rt, alloc, flow, hooks, source)?;
    Ok((
        desk.failed.load(Ordering::SeqCst),
        desk.late.load(Ordering::SeqCst),
        desk.other.load(Ordering::SeqCst),
    ))
}

/// Serves, and prints what became of the requests that weren't answered.
pub fn show<R: PoolRuntime + SystemTime>(rt: &R, io: HostRuntime) -> std::io::Result<()> {
    match served(rt, io) {
        Ok((failed, late, other)) => {
            println!(io; "server: {failed} failed, {late} late, {other} lost otherwise")
        }
        Err(failed) => println!(io; "server: {failed}"),
    }
}
