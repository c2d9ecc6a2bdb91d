//! A stop that is asked for from outside.
ghost use Rattle.balkreyn.specs.{CancelsBehind, Pauses, Sleeps, Watches};

use crate::act::contexts::Acts;
use crate::act::turns::{Turn, ring};
use crate::act::waits::{Looks, awaited};
use crate::literals::named;
use cancel_marks::Bell;
use scope_rules::{End, Fault, Refusal, ScopeId, Value};
use std::alloc::Global;
use std::sync::{Arc, Mutex, Wait};
use tree_dump::WaitCall;

/// A stop of a service. Who may ask for it and the service's `Hooks` share it in an `Arc`.
///
/// A service that asks for its own stop, and finishes behind a shield:
///
/// ```rust
/// impl Serves<Work> for Stopping {
///     fn serve<X: Acts<Work>>(self, cx: &mut X) -> Result<(), ServiceError> {
///         self.0.ask(cx);
///         let hung: Result<(), Refusal> = shielded(cx, |cx, _scope| hang(cx, 200));
///         Ok(hung?)
///     }
/// }
/// ```
#[derive(Drop)]
pub struct Stop {
    asked: Mutex<Asked>,
    file: Option<StopFile>,
}

/// Whether it was asked for, and the bells of the watches that wait for that: one of each realm of a service.
#[derive(Drop)]
struct Asked {
    is_asked: bool,
    first: Option<Bell>,
    second: Option<Bell>,
}

/// A file that asks for a stop by being there.
#[derive(Drop)]
struct StopFile {
    io: HostRuntime,
    path: String,
}

impl Stop {
    /// A stop that a call of `ask` asks for, on any thread.
    pub fn new() -> Stop {
        Stop {
            asked: Asked::not_yet(),
            file: None,
        }
    }

    /// The same, and it is asked for once there is a file at this path.
    pub fn by_file(io: HostRuntime, path: String) -> Stop {
        Stop {
            asked: Asked::not_yet(),
            file: Some(StopFile { io, path }),
        }
    }

    /// Asks for it.
    pub fn ask<R: Wait>(&self, rt: &R) {
        let (first, second) = self.asked.lock(rt).ask();
        ring(first);
        ring(second);
    }

    /// Whether it was asked for.
    pub fn is_asked<R: Wait>(&self, rt: &R) -> bool {
        if self.asked.lock(rt).is_asked {
            return true;
        }
        match &self.file {
            Some(file) => file.is_there(),
            None => false,
        }
    }
}

impl Asked {
    /// Not asked for.
    fn not_yet() -> Mutex<Asked> {
        Mutex::new(Asked {
            is_asked: false,
            first: None,
            second: None,
        })
    }

    /// It is asked for; and the bells that are to be rung behind that.
    fn ask(&mut self) -> (Option<Bell>, Option<Bell>) {
        self.is_asked = true;
        (self.first.take(), self.second.take())
    }

    /// A watch waits at this bell, if no two others wait.
    fn note(&mut self, bell: Option<Bell>) -> Turn {
        if self.first.is_none() {
            let turn = Turn::at(Some(FIRST), &bell);
            self.first = bell;
            return turn;
        }
        if self.second.is_none() {
            let turn = Turn::at(Some(SECOND), &bell);
            self.second = bell;
            return turn;
        }
        Turn::at(None, &None)
    }

    /// The watch with this number waits no more.
    fn forget(&mut self, number: Option<u64>) {
        match number {
            Some(FIRST) => self.first = None,
            Some(_) => self.second = None,
            None => {}
        }
    }
}

/// The numbers of the two places at a stop.
const FIRST: u64 = 0;

const SECOND: u64 = 1;

/// A watch waits at a bell if no file can ask, and no two others wait for the same stop.
impl Looks<()> for Stop {
    fn call(&self) -> WaitCall {
        WaitCall::Stop
    }

    fn ask<R: Wait>(&self, rt: &R, bell: Option<Bell>) -> Turn {
        match &self.file {
            Some(_) => Turn::at(None, &None),
            None => self.asked.lock(rt).note(bell),
        }
    }

    fn look<R: Wait>(&self, rt: &R, _turn: Option<&Turn>) -> Option<()> {
        if self.is_asked(rt) { Some(()) } else { None }
    }

    fn leave<R: Wait>(&self, rt: &R, turn: Turn) {
        self.asked.lock(rt).forget(turn.end());
    }
}

impl StopFile {
    /// Whether there is such a file. One that can't be looked for is not there.
    fn is_there(&self) -> bool {
        match std::fs::exists(&self.io, self.path.as_str()) {
            Ok(there) => there,
            Err(_) => false,
        }
    }
}

/// Watches for a stop of what runs in a scope.
#[derive(Drop)]
pub struct StopWatch {
    stop: Arc<Stop, Global>,
    scope: ScopeId,
    /// The scope that is cancelled later, and how many milliseconds.
    behind: Option<(ScopeId, u64)>,
}

impl StopWatch {
    /// Of this stop, which cancels the scope at once.
    pub(crate) fn cancelling(stop: Arc<Stop, Global>, scope: ScopeId) -> StopWatch {
        let behind = None;
        StopWatch {
            stop,
            scope,
            behind,
        }
    }

    /// The same, and a second scope so many milliseconds later.
    pub(crate) fn with_grace(self, scope: ScopeId, grace: u64) -> StopWatch {
        StopWatch {
            behind: Some((scope, grace)),
            ..self
        }
    }

    /// Watches until the stop is asked for, and then cancels the scope. It looks each ten milliseconds if a file can ask.
    pub(crate) fn run<W, X: Acts<W>>(self, cx: &mut X) -> End {
        match watched(cx, &self) {
            // a turn that has handed on has closed its scope, and its requests still run
            Ok(true) | Err(Refusal::Closed) => self.give_grace(cx),
            Ok(false) => Ok(Value::Num(0)),
            Err(_refusal) => Err(Fault(named(b"no-watch"))),
        }
    }

    /// Cancels the second scope, if there is one, once its time has come.
    fn give_grace<W, X: Acts<W>>(&self, cx: &mut X) -> End {
        let Some((scope, grace)) = self.behind else {
            return Ok(Value::Num(1));
        };
        match cancelled_behind(cx, scope, grace) {
            Ok(_) => Ok(Value::Num(1)),
            Err(_refusal) => Err(Fault(named(b"no-grace"))),
        }
    }
}

/// Cancels the scope once its stop is asked for; false if a cancel or the scope's close comes first.
fn watched<W, X: Acts<W>>(cx: &mut X, watch: &StopWatch) -> Result<bool, Refusal>
    ensures { Watches X.token (λ old new slept. Pauses X.reads X.reading X.time X.token X.seat 10 old new slept) watch.now.scope cx.old cx.new result }
{
    let stop: &Stop = &watch.stop;
    let waited = awaited(cx, 10, stop)?;
    match waited {
        Ok(()) => {
            cx.cancel(watch.scope)?;
            Ok(true)
        }
        Err(_mark) => Ok(false),
    }
}

/// Cancels the scope so many milliseconds later; false if a cancel comes first.
fn cancelled_behind<W, X: Acts<W>>(cx: &mut X, scope: ScopeId, millis: u64) -> Result<bool, Refusal>
    ensures { CancelsBehind X.token (λ old new slept. Sleeps X.reads X.reading X.time X.token X.seat millis old new slept) scope cx.old cx.new result }
{
    if cx.sleep(millis)?.is_some() {
        return Ok(false);
    }
    cx.cancel(scope)?;
    Ok(true)
}
