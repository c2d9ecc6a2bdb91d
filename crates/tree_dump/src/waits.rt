//! In which calls actors wait: what no history has, and a tree may say.
ghost use Rattle.std.specs.Prelude.{[], ◌≡◌, None, Some};
ghost use Rattle.tree_dump.specs.{call_word, clock_of, task_wait, wait_text, waited};

use crate::ages::{Ages, ShownSpan, reading_in};
use scope_checks::Readings;
use scope_rules::{Stage, TaskId};
use std::fmt;

/// A call in which an actor waits for others, or for a time.
#[derive(Clone, Copy)]
pub enum WaitCall {
    /// For the tasks of its scope.
    Join,
    /// For what still runs in a scope that it closes.
    Close,
    /// For a time.
    Sleep,
    /// For an item of a channel.
    Receive,
    /// For room in a channel.
    Send,
    /// For a permit of a limiter.
    Permit,
    /// For the next of some tasks that is done.
    NextDone,
    /// For a stop.
    Stop,
    /// For the ring of a bell, by what its caller reads.
    Ring,
}

/// In which call an actor waits now, and since when by the clock that its ages go by, in milliseconds.
#[derive(Clone, Copy)]
pub struct CurrentWait {
    pub call: WaitCall,
    pub since: u32,
}

/// In which calls the actors of a realm wait, as far as that is known.
#[derive(Clone, Copy)]
pub struct Waits<'a> {
    /// Main.
    pub main: Option<CurrentWait>,
    /// By task since the last retirement.
    pub tasks: &'a [Option<CurrentWait>],
}

impl<'a> Waits<'a> {
    /// It is known of nobody.
    pub fn none() -> Waits<'a>
        ensures main { result.main ≡ None }
        ensures tasks { result.tasks.now ≡ [] }
    {
        Waits {
            main: None,
            tasks: &[],
        }
    }
}

/// In which call the task waits, if it runs, and that is known.
pub(crate) fn task_wait<R: Readings>(
    readings: &R,
    ages: &Ages<'_>,
    task: TaskId,
    stage: Stage,
) -> Option<CurrentWait>
    ensures { result ≡ task_wait (clock_of ages.now) (R.history readings.now) task stage }
{
    match stage {
        Stage::Running => match reading_in(ages.waits.tasks, readings.retired_tasks(), task) {
            Some(wait) => wait,
            None => None,
        },
        _ => None,
    }
}

/// The call, as who makes it writes it.
fn call_word(call: WaitCall) -> &'static str
    ensures { result.now ≡ call_word call }
{
    match call {
        WaitCall::Join => "join",
        WaitCall::Close => "close",
        WaitCall::Sleep => "sleep",
        WaitCall::Receive => "receive",
        WaitCall::Send => "send",
        WaitCall::Permit => "permit",
        WaitCall::NextDone => "next_done",
        WaitCall::Stop => "stop",
        WaitCall::Ring => "wait_rung",
    }
}

/// How long the wait lasts by now, if the clock was read.
fn waited(now: Option<u32>, wait: CurrentWait) -> Option<u64>
    ensures { result ≡ waited now wait }
{
    match now {
        Some(now) => Some(u64::from(now.saturating_sub(wait.since))),
        None => None,
    }
}

/// These words, and in which call somebody waits, and how long; nothing if none does.
#[derive(Clone, Copy)]
pub(crate) struct ShownWait {
    pub(crate) words: &'static str,
    pub(crate) now: Option<u32>,
    pub(crate) wait: Option<CurrentWait>,
}

impl fmt::Display for ShownWait {
    ghost output = { λ w. Some (wait_text w.words.now w.now w.wait) };

    #[tactic(auto, unfolding(crate::specs::Waits::wait_text))]
    fn fmt<W: fmt::Write>(&self, f: &mut fmt::Formatter<W>) -> fmt::Result {
        let Some(wait) = self.wait else {
            return Ok(());
        };
        let words = self.words;
        let call = call_word(wait.call);
        let waited = ShownSpan(" for ", waited(self.now, wait));
        write!(f, "{words}waits in {call}{waited}")
    }
}
