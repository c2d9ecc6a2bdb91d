//! A look at the realm of a plan from outside, while it is served: its tree after a time, its journal as it grows, and
//! its page at the end.

use crate::act::{FAULT, fail};
use crate::fault::ProgramFault;
use job_runner::{Clock, SystemClock};
use realm_lock::{Look, Realm, RealmName, RealmState};
use scope_rules::{Base, Due, Event, Limits};
use scope_script::{ScriptFault, Watched};
use script_jobs::{Rendering, View, shown};
use script_journal::ShownEvent;
use std::alloc::{AllocError, Global};
use std::fs::File;
use std::io::{ErrorKind, Write};
use std::rt::{Clock as SystemTime, HostRuntime};
use std::sync::atomic::{AtomicBool, Ordering};
use std::sync::{Arc, Wait};
use std::thread::JoinHandle;
use std::time::Duration;
use std::{fs, io, thread};
use thread_pool::PoolRuntime;
use tree_dump::TreePart;

/// How many milliseconds lie between two looks: so exact are the times of a journal.
const EVERY: u64 = 1;

/// What is wanted of a plan's realm while it is served.
#[derive(Clone, Copy)]
pub struct Wanted<'a> {
    /// The file to which its journal goes.
    pub journal: Option<&'a str>,
    /// The file to which its page goes.
    pub page: Option<&'a str>,
}

/// Who looks at a plan's realm from outside, by a share of it and a thread of its own, if a tree, a journal or a page is
/// wanted. The tree goes to standard error; the journal goes to its file as it grows, so a run that is cut off leaves one.
#[derive(Drop)]
pub struct Looker<'a> {
    host: HostRuntime,
    wanted: Wanted<'a>,
    looking: Option<Looking>,
    fault: Option<LookFault>,
}

/// Why a journal or a page is not in its file, or is not whole.
#[derive(Clone, Copy)]
enum LookFault {
    /// It could not be made, for this cause.
    Unmade(ProgramFault),
    /// The journal's file can't be written.
    Journal,
    /// The page's file can't be written.
    Page,
}

/// The thread that looks. It ends soon after `done` is set, and gives the journal.
#[derive(Drop)]
struct Looking {
    done: Arc<AtomicBool, Global>,
    thread: JoinHandle<Result<String, LookFault>>,
}

impl<'a> Looker<'a> {
    /// Who has not begun to look.
    pub fn new(host: HostRuntime, wanted: Wanted<'a>) -> Looker<'a> {
        Looker {
            host,
            wanted,
            looking: None,
            fault: None,
        }
    }

    /// The status of a run that ended with this one: a fault if a wanted file could not be written. That is said, but
    /// behind a fault of the run, which was.
    pub fn status<E: Write + Drop>(&self, status: u8, errors: &mut Watched<E>) -> u8 {
        let text = match self.fault {
            None => return status,
            Some(_) if status == FAULT => return FAULT,
            Some(LookFault::Unmade(fault)) => return fail(fault, errors),
            Some(LookFault::Journal) => "scopectl: journal\nhint: it can't be written\n",
            Some(LookFault::Page) => "scopectl: page\nhint: it can't be written\n",
        };
        let _said = errors.write_bytes(text.as_bytes());
        FAULT
    }

    /// The plan is going to be served in this realm by this clock, of which the tree is wanted after so many
    /// milliseconds, if it is. Nothing that the realm answers depends on the look.
    pub fn begin<N: RealmName + Send + Sync + 'static, T: PoolRuntime + SystemTime>(
        &mut self,
        rt: &T,
        realm: Realm<Due, N>,
        clock: Option<SystemClock<T>>,
        tree_after: Option<u32>,
    ) {
        let wanted = self.wanted;
        if wanted.journal.is_none() && wanted.page.is_none() && tree_after.is_none() {
            return;
        }
        match begin_look(rt, self.host, wanted.journal, realm, clock, tree_after) {
            Ok(looking) => self.looking = Some(looking),
            Err(fault) => self.fault = Some(fault),
        }
    }

    /// The plan was served.
    pub fn end<T: PoolRuntime>(&mut self, rt: &T) {
        if let Some(looking) = self.looking.take() {
            let Looking { done, thread } = looking;
            done.store(true, Ordering::SeqCst);
            self.fault = match thread.join(rt) {
                Ok(journal) => self.write_page(&journal),
                Err(fault) => Some(fault),
            };
        }
    }

    /// Writes the page of the run with this journal, if one is wanted. Answers why it could not.
    fn write_page(&self, journal: &str) -> Option<LookFault> {
        let path = self.wanted.page?;
        let text = match page_of(&self.host, journal.as_bytes()) {
            Ok(page) => page.text,
            Err(_) => return Some(LookFault::Unmade(ProgramFault::Memory)),
        };
        match fs::write(&self.host, path, text.as_str()) {
            Ok(()) => None,
            Err(error) => Some(unwritten(error.kind(), LookFault::Page)),
        }
    }
}

/// Why a file can't be written.
fn unwritten(kind: ErrorKind, fault: LookFault) -> LookFault {
    if kind == ErrorKind::OutOfMemory {
        LookFault::Unmade(ProgramFault::Memory)
    } else {
        fault
    }
}

/// Begins to look by a thread of its own. The journal's file, if there is to be one, is made first.
fn begin_look<N: RealmName + Send + Sync + 'static, T: PoolRuntime + SystemTime>(
    rt: &T,
    host: HostRuntime,
    journal: Option<&str>,
    realm: Realm<Due, N>,
    clock: Option<SystemClock<T>>,
    tree_after: Option<u32>,
) -> Result<Looking, LookFault> {
    let file = match journal.map(|path| fs::create(&host, path)) {
        None => None,
        Some(Ok(file)) => Some(file),
        Some(Err(error)) => return Err(unwritten(error.kind(), LookFault::Journal)),
    };
    let Some(clock) = clock else {
        return Err(LookFault::Unmade(ProgramFault::Time));
    };
    let Ok(done) = Arc::new(host.alloc(), AtomicBool::new(false)) else {
        return Err(LookFault::Unmade(ProgramFault::Memory));
    };
    let Ok(theirs) = Arc::try_clone(&done) else {
        return Err(LookFault::Unmade(ProgramFault::Memory));
    };
    let runtime = *rt;
    let look = move || look_until(&runtime, &host, &realm, clock, &theirs, file, tree_after);
    match thread::spawn(rt, look) {
        Ok(thread) => Ok(Looking { done, thread }),
        Err(_) => Err(LookFault::Unmade(ProgramFault::Rejected)),
    }
}

/// A copy of the events from a place on.
#[derive(Clone, Copy)]
struct News {
    alloc: Global,
    from: usize,
}

impl Look for News {
    ghost use Rattle.std.specs.Prelude.{⊤};

    type Answer = Result<Vec<Event>, AllocError>;

    ghost tells = { λ look h answer. ⊤ };

    fn look(self, realm: &RealmState) -> Result<Vec<Event>, AllocError> {
        let mut news = Vec::new(self.alloc);
        for place in self.from..realm.event_count() {
            news.push(realm.event(place))?;
        }
        Ok(news)
    }
}

/// The script of what happened so far in a realm that never retired. Before an event stands a comment with its time, in
/// milliseconds, if that is another than the last one's.
#[derive(Drop)]
struct Growing {
    base: Base,
    text: String,
    events: usize,
    last: Option<u64>,
    written: usize,
}

impl Growing {
    /// The script in which nothing has happened.
    fn new(alloc: Global) -> Growing {
        Growing {
            base: Base::empty(alloc),
            text: String::new(alloc),
            events: 0,
            last: None,
            written: 0,
        }
    }

    /// Writes what the file lacks of the script.
    fn write_to(&mut self, file: &mut File) -> io::Result<()> {
        let lacking = self.text.as_bytes().get(self.written..).unwrap_or(b"");
        file.write_all(lacking)?;
        self.written = self.text.len();
        Ok(())
    }

    /// These events have happened too, by this time.
    fn extend(&mut self, news: &[Event], now: u64) -> Result<(), AllocError> {
        for event in news {
            self.note_time(now)?;
            let shown = ShownEvent {
                base: &self.base,
                event: *event,
            };
            write!(self.text, "{shown}\n")?;
            self.events = self.events.saturating_add(1);
        }
        Ok(())
    }

    /// A comment with this time stands at the end.
    fn note_time(&mut self, now: u64) -> Result<(), AllocError> {
        if self.last != Some(now) {
            write!(self.text, "# at {now}\n")?;
            self.last = Some(now);
        }
        Ok(())
    }
}

/// Looks until that is done, and answers the journal with times, which goes to the file as it grows. The tree is written
/// once its time has come.
///
/// # Errors
/// `Unmade` if memory was refused, `Journal` if the file can't be written.
fn look_until<N: RealmName, T: Wait + SystemTime + Copy>(
    rt: &T,
    host: &HostRuntime,
    realm: &Realm<Due, N>,
    mut clock: SystemClock<T>,
    done: &AtomicBool,
    mut file: Option<File>,
    tree_after: Option<u32>,
) -> Result<String, LookFault> {
    let mut grown = Growing::new(host.alloc());
    let mut tree_at = tree_after.map(u64::from);
    for _ in 0..u64::MAX {
        let is_done = done.load(Ordering::SeqCst);
        let now = clock.now();
        let is_shown = tree_at.is_some_and(|at| at <= now);
        let noted = note_news(
            rt,
            host.alloc(),
            realm,
            &mut grown,
            now,
            is_done || is_shown,
        );
        if noted.is_err() {
            return Err(LookFault::Unmade(ProgramFault::Memory));
        }
        if is_shown {
            tree_at = None;
            let _shown = show_tree(host, grown.text.as_bytes());
        }
        if let Some(file) = &mut file {
            if let Err(error) = grown.write_to(file) {
                return Err(unwritten(error.kind(), LookFault::Journal));
            }
        }
        if is_done {
            return Ok(grown.text);
        }
        thread::sleep(host, Duration::from_millis(EVERY));
    }
    Err(LookFault::Unmade(ProgramFault::Time))
}

/// Notes what has happened in the realm since; and the time at the end, if that is wanted.
fn note_news<N: RealmName, T: Wait>(
    rt: &T,
    alloc: Global,
    realm: &Realm<Due, N>,
    grown: &mut Growing,
    now: u64,
    is_timed: bool,
) -> Result<(), AllocError> {
    let look = News {
        alloc,
        from: grown.events,
    };
    let news = realm.look_from_outside(rt, look)?;
    grown.extend(&news, now)?;
    if is_timed {
        grown.note_time(now)?;
    }
    Ok(())
}

/// The page of the run that the script is of.
fn page_of(host: &HostRuntime, script: &[u8]) -> Result<Rendering, ScriptFault> {
    let mut reader = Watched::new(script);
    let mut writer = Watched::new(io::sink());
    shown(
        host.alloc(),
        Limits::GREATEST,
        View::Page,
        &mut reader,
        &mut writer,
    )
}

/// Writes the tree of what the script leaves to standard error.
fn show_tree(host: &HostRuntime, script: &[u8]) -> io::Result<()> {
    let mut reader = Watched::new(script);
    let mut writer = Watched::new(io::sink());
    let view = View::Tree(TreePart::Whole);
    match shown(
        host.alloc(),
        Limits::GREATEST,
        view,
        &mut reader,
        &mut writer,
    ) {
        Ok(shown) => host.stderr().write_all(shown.text.as_bytes()),
        Err(_) => Ok(()),
    }
}
