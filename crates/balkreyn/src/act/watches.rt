//! A watch: a job that notes when events happen, and writes tree and journal to files if the service hangs.
ghost use Rattle.balkreyn.specs.{SeesMore, Sleeps, WatchesOn};

use crate::act::baton::Side;
use crate::act::contexts::Acts;
use crate::times::Times;
use scope_rules::{End, Refusal, Value};
use std::alloc::{AllocError, Global};
use std::fs;
use std::rt::HostRuntime;

/// A job that watches its realm: it looks every so many milliseconds, and writes the tree and the journal with times to
/// two files if nothing has happened for too long, once each time, or if somebody asks. `serve` and `serve_requests` run
/// the one of their `Hooks` beside a service; of the second realm of `serve_requests` the files' names end with `.2`. By
/// hand fork it in a scope around what it watches; the close of that scope ends it. A file that can't be written is passed
/// over.
///
/// A service under a watch, which writes once nothing has happened for 60 milliseconds:
///
/// ```rust
/// fn watched<R: PoolRuntime + SystemTime>(
///     rt: &R,
///     io: HostRuntime,
///     service: Hanging,
/// ) -> Result<(), ServiceError> {
///     let alloc = io.alloc();
///     let watch = Watch {
///         io,
///         tree: String::from_str(alloc, "tree")?,
///         journal: String::from_str(alloc, "journal")?,
///         ask: String::from_str(alloc, "ask")?,
///         every: 2,
///         late: 60,
///     };
///     let hooks = Hooks {
///         watch: Some(watch),
///         ..Hooks::none()
///     };
///     serve::<Work, (), Hanging, R>(rt, alloc, 2, hooks, service)
/// }
/// ```
#[derive(Drop)]
pub struct Watch {
    /// By which it reaches its files.
    pub io: HostRuntime,
    /// The file of the tree.
    pub tree: String,
    /// The file of the journal, a script with times that `scopectl` reads.
    pub journal: String,
    /// If this file is there, both are written, and it is removed.
    pub ask: String,
    /// How many milliseconds lie between two looks: so exact are the times.
    pub every: u64,
    /// For how many milliseconds nothing may happen.
    pub late: u64,
}

/// A watch at work.
#[derive(Drop)]
struct Watching {
    watch: Watch,
    times: Times,
    /// The time of the event at which it found the service hanging.
    told: Option<u64>,
    written: u32,
}

impl Watch {
    /// The same for one turn of a realm, which has files of its own if it is the second.
    pub(crate) fn for_turn(&self, alloc: Global, side: Side) -> Result<Watch, AllocError> {
        Ok(Watch {
            io: self.io,
            tree: path_for(alloc, side, &self.tree)?,
            journal: path_for(alloc, side, &self.journal)?,
            ask: path_for(alloc, side, &self.ask)?,
            every: self.every,
            late: self.late,
        })
    }

    /// Watches until a cancel, as by the close of its scope, or a refusal ends a sleep. It never fails, and its value is how
    /// often it wrote.
    pub fn act<W, X: Acts<W>>(self, cx: &mut X) -> End
        ensures { WatchesOn X.token (λ old new slept. Sleeps X.reads X.reading X.time X.token X.seat self.every old new slept) cx.old cx.new result }
    {
        let every = self.every;
        let mut watching = Watching {
            watch: self,
            times: Times::new(cx.alloc()),
            told: None,
            written: 0,
        };
        for _ in 0..u64::MAX {
            match cx.sleep(every) {
                Ok(None) => watching.look(cx),
                Ok(Some(_mark)) => return Ok(watching.count()),
                Err(_refusal) => return Ok(watching.count()),
            }
        }
        for _ in cx.forever() {}
        unreachable!()
    }
}

/// The path of a file of this side.
fn path_for(alloc: Global, side: Side, path: &String) -> Result<String, AllocError> {
    let mut its = String::from_str(alloc, path.as_str())?;
    match side {
        Side::First => {}
        Side::Second => its.push_str(".2")?,
    }
    Ok(its)
}

impl Watching {
    /// How often it wrote.
    fn count(&self) -> Value {
        Value::Num(i64::from(self.written))
    }

    /// Looks, and writes if that is due. Without memory it goes on at the next look.
    fn look<W, X: Acts<W>>(&mut self, cx: &mut X)
        ensures { SeesMore (X.token cx.old) (X.token cx.new) }
    {
        if cx.note(&mut self.times).is_err() {
            return;
        }
        if self.is_late() || self.is_asked() {
            if self.write(cx).is_ok() {
                self.written = self.written.saturating_add(1);
            }
        }
    }

    /// Whether nothing has happened for too long, and that was not written yet.
    fn is_late(&mut self) -> bool {
        let latest = self.times.latest();
        let is_late = self
            .times
            .quiet()
            .is_some_and(|quiet| quiet >= self.watch.late);
        if !is_late || self.told == latest {
            return false;
        }
        self.told = latest;
        true
    }

    /// Whether somebody asks; the file that asks is removed.
    fn is_asked(&self) -> bool {
        let Watch { io, ask, .. } = &self.watch;
        fs::exists(io, ask.as_str()).is_ok_and(|there| there)
            && fs::remove_file(io, ask.as_str()).is_ok()
    }

    /// Writes both files.
    fn write<W, X: Acts<W>>(&self, cx: &mut X) -> Result<(), Refusal>
        ensures { SeesMore (X.token cx.old) (X.token cx.new) }
    {
        let Watch {
            io,
            tree,
            journal,
            ..
        } = &self.watch;
        let (shown, script) = (cx.timed_tree(&self.times)?, cx.timed_journal(&self.times)?);
        let _shown = fs::write(io, tree.as_str(), shown.as_str());
        let _script = fs::write(io, journal.as_str(), script.as_str());
        Ok(())
    }
}
