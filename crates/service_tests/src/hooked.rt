//! A service with hooks: what its observer sees, its counters, and the cap on the jobs at hand.

use balkreyn::act::{Acts, Happening, Hooks, Load, Observes, Serves, Task, scope, serve};
use balkreyn::{
    End, Fault, Joiner, Options, PoolRuntime, Refusal, ServiceAnswer, ServiceError, Value, named,
};
use std::alloc::Global;
use std::process::Abort;
use std::rt::Clock as SystemTime;
use std::sync::atomic::{AtomicU64, Ordering};
use std::sync::{Arc, Wait};
use std::test::Fail;

/// A job that lasts a minute, and fails if a cancel ends it.
#[derive(Drop)]
struct Lasts;

impl Task for Lasts {
    fn run<X: Acts<Lasts>>(self, cx: &mut X) -> End {
        match cx.sleep(60_000) {
            Ok(None) => Ok(Value::Num(1)),
            _ => Err(Fault(named(b"ended-early"))),
        }
    }
}

/// Counts what it sees.
#[derive(Drop)]
struct Counts {
    forked: AtomicU64,
    refused: AtomicU64,
    started: AtomicU64,
    failed: AtomicU64,
    cancelled: AtomicU64,
}

impl Observes for Counts {
    fn saw<R: Wait>(&self, _rt: &R, _moment: u64, what: Happening) {
        let counter = match what {
            Happening::Forked { .. } => &self.forked,
            Happening::Refused {
                refusal: Refusal::Memory,
                ..
            } => &self.refused,
            Happening::Started { .. } => &self.started,
            Happening::Ended {
                fault: Some(_fault),
                ..
            } => &self.failed,
            Happening::Cancelled { .. } => &self.cancelled,
            _ => return,
        };
        counter.fetch_add(1, Ordering::SeqCst);
    }
}

impl Counts {
    fn new() -> Counts {
        Counts {
            forked: AtomicU64::new(0),
            refused: AtomicU64::new(0),
            started: AtomicU64::new(0),
            failed: AtomicU64::new(0),
            cancelled: AtomicU64::new(0),
        }
    }

    /// How many were forked, refused, started, failed and cancelled.
    fn all(&self) -> (u64, u64, u64, u64, u64) {
        (
            self.forked.load(Ordering::SeqCst),
            self.refused.load(Ordering::SeqCst),
            self.started.load(Ordering::SeqCst),
            self.failed.load(Ordering::SeqCst),
            self.cancelled.load(Ordering::SeqCst),
        )
    }
}

/// The service: it forks three jobs, lets those that there may be begin, and cancels them.
#[derive(Clone, Copy)]
struct Three;

impl ServiceAnswer for Three {
    /// Which forks were refused, and for what.
    type Answer = (Option<Refusal>, Option<Refusal>, Option<Refusal>);

    type Error = ServiceError;
}

impl Serves<Lasts> for Three {
    fn serve<X: Acts<Lasts>>(
        self,
        cx: &mut X,
    ) -> Result<(Option<Refusal>, Option<Refusal>, Option<Refusal>), ServiceError> {
        let found: Result<(Option<Refusal>, Option<Refusal>, Option<Refusal>), Refusal> = scope(
            cx,
            Joiner::AwaitAll,
            Options::PLAIN,
            |cx, scope| {
                let first = cx.fork(scope, named(b"lasts"), Lasts).err();
                let second = cx.fork(scope, named(b"lasts"), Lasts).err();
                let third = cx.fork(scope, named(b"lasts"), Lasts).err();
                cx.sleep(50)?;
                cx.cancel(scope)?;
                cx.join(scope)?;
                Ok((first, second, third))
            },
        );
        Ok(found?)
    }
}

/// What the service answers, what its observer saw, and its counters behind it: at hand, forked, refused.
fn hooked<R: PoolRuntime + SystemTime>(
    rt: &R,
    alloc: Global,
) -> Result<((u64, u64, u64, u64, u64), (u64, u64, u64), bool), Refusal> {
    let load = Arc::new(alloc, Load::at_most(2))?;
    let observer = Arc::new(alloc, Counts::new())?;
    let hooks = Hooks {
        stop: None,
        watch: None,
        load: Some(Arc::try_clone(&load)?),
        observer: Some(Arc::try_clone(&observer)?),
    };
    let served = serve::<Lasts, Counts, Three, R>(rt, alloc, 2, hooks, Three);
    let wanted = matches!(served, Ok((None, None, Some(Refusal::Memory))));
    let counted = (load.at_hand(), load.forked(), load.refused());
    Ok((observer.all(), counted, wanted))
}

#[test]
fn an_observer_sees_what_happens_and_a_cap_refuses(rt: HostRuntime) -> Result<(), Fail> {
    let (seen, counted, wanted) = hooked(&rt, rt.alloc())?;
    assert!(rt; wanted);
    assert!(rt; seen == (2, 1, 2, 2, 1));
    assert!(rt; counted == (0, 2, 1));
    Ok(())
}
