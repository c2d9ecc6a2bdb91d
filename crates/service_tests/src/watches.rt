//! Services that hang, under a watch: one of the whole service, one by hand, and one beside a stop.

use balkreyn::act::{Acts, Hooks, Serves, Stop, Task, Watch, scope, serve, shielded};
use balkreyn::{
    End, Fault, Joiner, Options, PoolRuntime, Refusal, ServiceAnswer, ServiceError, Value, named,
};
use std::alloc::{AllocError, Global};
use std::fs;
use std::process::Abort;
use std::rt::Clock as SystemTime;
use std::sync::Arc;
use std::sync::atomic::{AtomicI64, Ordering};
use std::test::Fail;
use std::time::Instant;

/// What a service forks: a job that hangs for so many milliseconds, or a watch by hand, of which it is stored how often it wrote.
#[derive(Drop)]
enum Work {
    Hangs(u64),
    Watch(Watch, Arc<AtomicI64, Global>),
}

impl Task for Work {
    fn run<X: Acts<Work>>(self, cx: &mut X) -> End {
        match self {
            Work::Watch(watch, written) => {
                let end = watch.act(cx);
                if let Ok(Value::Num(count)) = end {
                    written.store(count, Ordering::SeqCst);
                }
                end
            }
            Work::Hangs(millis) => match cx.sleep(millis) {
                Ok(None) => Ok(Value::Num(1)),
                _ => Err(Fault(named(b"cut-off"))),
            },
        }
    }
}

/// A service that hangs for so many milliseconds.
#[derive(Drop)]
struct Hanging(u64);

impl ServiceAnswer for Hanging {
    type Answer = ();

    type Error = ServiceError;
}

impl Serves<Work> for Hanging {
    fn serve<X: Acts<Work>>(self, cx: &mut X) -> Result<(), ServiceError> {
        Ok(hang(cx, self.0)?)
    }
}

/// Hangs in a scope of its own.
fn hang<X: Acts<Work>>(cx: &mut X, millis: u64) -> Result<(), Refusal> {
    forked_for(cx, Work::Hangs(millis), None)
}

/// Forks the job in a scope of its own, and joins it; where it is given so many milliseconds, it is cancelled then.
fn forked_for<X: Acts<Work>>(cx: &mut X, work: Work, given: Option<u64>) -> Result<(), Refusal> {
    scope(cx, Joiner::AwaitAll, Options::PLAIN, |cx, scope| {
        cx.fork(scope, named(b"stuck"), work)?;
        if let Some(millis) = given {
            cx.sleep(millis)?;
            cx.cancel(scope)?;
        }
        cx.join(scope)?;
        Ok(())
    })
}

/// Runs the service beside a watch, which writes once nothing has happened for 60 milliseconds.
fn watched<R: PoolRuntime + SystemTime>(
    rt: &R,
    io: HostRuntime,
    service: Hanging,
) -> Result<(), ServiceError> {
    let alloc = io.alloc();
    let watch = Watch {
        io,
        tree: String::from_str(alloc, "tree")?,
        journal: String::from_str(alloc, "journal")?,
        ask: String::from_str(alloc, "ask")?,
        every: 2,
        late: 60,
    };
    let hooks = Hooks {
        watch: Some(watch),
        ..Hooks::none()
    };
    serve::<Work, (), Hanging, R>(rt, alloc, 2, hooks, service)
}

#[test]
fn a_watch_shows_what_hangs_and_since_when(rt: HostRuntime) -> Result<(), Fail> {
    watched(&rt, rt, Hanging(200))?;
    let tree = fs::read_to_string(&rt, "tree")?;
    let journal = fs::read_to_string(&rt, "journal")?;
    for words in [
        "watch: running",
        "stuck: running",
        ", main waits in join for ",
        " ms, waits in sleep for ",
    ] {
        assert!(rt;
            tree.contains(words),
            "the tree shows what hangs, and in which calls"
        );
    }
    assert!(rt;
        journal.contains("\nstart 2\n# at ") || journal.contains("\nstart 2\nstart 1\n# at "),
        "and the journal, until when"
    );
    assert!(rt;
        quiet_in(journal.as_str()) >= 60,
        "nothing is written before"
    );
    Ok(())
}

/// How many milliseconds lie between the last two times of a journal: that of its last event, and that of its writing.
fn quiet_in(journal: &str) -> u64 {
    let (mut before, mut last) = (0u64, 0u64);
    for line in journal.lines() {
        if let Some(time) = line.strip_prefix("# at ") {
            before = last;
            last = time.parse().unwrap_or(0);
        }
    }
    last.saturating_sub(before)
}

/// A watch that writes to this file, looks so often, and writes once nothing has happened for so many milliseconds.
pub fn watch_of(io: HostRuntime, tree: &str, every: u64, late: u64) -> Result<Watch, AllocError> {
    let alloc = io.alloc();
    Ok(Watch {
        io,
        tree: String::from_str(alloc, tree)?,
        journal: String::from_str(alloc, "journal-of-another")?,
        ask: String::from_str(alloc, "asked")?,
        every,
        late,
    })
}

/// A service that forks its watch by hand, and gives it so many milliseconds.
#[derive(Drop)]
struct ByHand {
    watch: Watch,
    millis: u64,
}

impl ServiceAnswer for ByHand {
    /// How often the watch wrote.
    type Answer = i64;

    type Error = ServiceError;
}

impl Serves<Work> for ByHand {
    fn serve<X: Acts<Work>>(self, cx: &mut X) -> Result<i64, ServiceError> {
        let ByHand { watch, millis } = self;
        let written = Arc::new(cx.alloc(), AtomicI64::new(-1))?;
        let work = Work::Watch(watch, Arc::try_clone(&written)?);
        forked_for(cx, work, Some(millis))?;
        Ok(written.load(Ordering::SeqCst))
    }
}

/// How often a watch by hand wrote.
fn written_by<R: PoolRuntime + SystemTime>(
    rt: &R,
    alloc: Global,
    watch: Watch,
    millis: u64,
) -> Result<i64, ServiceError> {
    let by_hand = ByHand { watch, millis };
    serve::<Work, (), ByHand, R>(rt, alloc, 2, Hooks::none(), by_hand)
}

#[test]
fn a_watch_is_forked_by_hand_and_asked(rt: HostRuntime) -> Result<(), Fail> {
    fs::write(&rt, "asked", "")?;
    let watch = watch_of(rt, "asked-tree", 2, u64::MAX)?;
    assert!(rt; written_by(&rt, rt.alloc(), watch, 100) == Ok(1));
    let is_there = fs::exists(&rt, "asked-tree").is_ok_and(|there| there);
    let is_taken = fs::exists(&rt, "asked").is_ok_and(|there| !there);
    assert!(rt; is_there && is_taken);
    Ok(())
}

/// There are three events: the scope is opened, the watch forked, and started.
#[test]
fn a_watch_writes_once_each_time(rt: HostRuntime) -> Result<(), Fail> {
    let watch = watch_of(rt, "quiet-tree", 1, 0)?;
    let written = written_by(&rt, rt.alloc(), watch, 60)?;
    assert!(rt; 1 <= written && written <= 3, "{written}");
    Ok(())
}

/// A service that asks for its own stop, and then hangs behind a shield.
#[derive(Drop)]
struct Stopping(Arc<Stop, Global>);

impl ServiceAnswer for Stopping {
    type Answer = ();

    type Error = ServiceError;
}

impl Serves<Work> for Stopping {
    fn serve<X: Acts<Work>>(self, cx: &mut X) -> Result<(), ServiceError> {
        self.0.ask(cx);
        let hung: Result<(), Refusal> = shielded(cx, |cx, _scope| hang(cx, 200));
        Ok(hung?)
    }
}

/// Hooks with this stop, and a watch that writes once nothing has happened for 60 milliseconds.
fn hooks_of(io: HostRuntime, stop: Arc<Stop, Global>) -> Result<Hooks<()>, Refusal> {
    Ok(Hooks {
        stop: Some(stop),
        watch: Some(watch_of(io, "stopped-tree", 2, 60)?),
        load: None,
        observer: None,
    })
}

#[test]
fn a_watch_sees_what_hangs_behind_a_stop(rt: HostRuntime) -> Result<(), Fail> {
    let stop = Arc::new(rt.alloc(), Stop::new())?;
    let hooks = hooks_of(rt, Arc::try_clone(&stop)?)?;
    serve::<Work, (), Stopping, _>(&rt, rt.alloc(), 2, hooks, Stopping(stop))?;
    assert!(rt; fs::read_to_string(&rt, "stopped-tree")?.contains("stuck: running"));
    Ok(())
}

#[test]
fn a_watch_ends_with_its_service(rt: HostRuntime) -> Result<(), Fail> {
    let watch = watch_of(rt, "no-tree", 60_000, u64::MAX)?;
    let before = Instant::now(&rt)?;
    let hooks = Hooks {
        watch: Some(watch),
        ..Hooks::none()
    };
    let served = serve::<Work, (), Hanging, _>(&rt, rt.alloc(), 2, hooks, Hanging(1));
    assert!(rt; served == Ok(()) && before.elapsed(&rt)?.as_millis() < 5_000);
    Ok(())
}
