//! An end of a task that also tells what it changed: what a host asks behind each end, in the same call.

ghost use Rattle.std.specs.Prelude.{◌≡◌, Ok, Some, true};
ghost use Rattle.balkreyn_c.specs.{Ends, EndsTold, IsNewsOf, Num, fault_of, forked_in, option_map_or, settled};

use crate::book::{Book, put, taken};
use crate::numbers::{BAD_ARGUMENT, told};
use realm_state::RealmState;
use scope_checks::Readings;
use scope_rules::{Event, Fault, ScopeId, TaskId, Value};
use script_words::name;
use std::alloc::Global;

/// What there is to hear of once a task ended.
#[repr(C)]
#[derive(Clone, Copy)]
pub struct News {
    pub scope: u32,
    pub quiet: bool,
    pub comes: bool,
    pub cancelled: usize,
    pub deadline: u64,
}

/// The task ended with a number. What there is to hear of then.
#[unsafe(no_mangle)]
pub extern "C" fn balkreyn_finish_told(
    alloc: Global,
    book: &mut Book,
    task: u32,
    value: i64,
    news: &mut News,
) -> i64
    ensures { EndsTold book.old.place.held (Some (Event.Finish task (Ok (Num value)))) task result book.new.place.held news.old news.new }
{
    let event = Event::Finish {
        task,
        end: Ok(Value::Num(value)),
    };
    end_told(alloc, book, Some(event), task, news)
}

/// The task ended with a fault. What there is to hear of then.
#[unsafe(no_mangle)]
pub extern "C" fn balkreyn_fail_told(
    alloc: Global,
    book: &mut Book,
    task: u32,
    text: &[u8],
    news: &mut News,
) -> i64
    ensures { EndsTold book.old.place.held (fault_of task text.now) task result book.new.place.held news.old news.new }
{
    let event = match name(text) {
        Some(name) => Some(Event::Finish {
            task,
            end: Err(Fault(name)),
        }),
        None => None,
    };
    end_told(alloc, book, event, task, news)
}

/// Tries the end in the book's realm, if the arguments made one, and tells the news.
fn end_told(
    alloc: Global,
    book: &mut Book,
    event: Option<Event>,
    task: TaskId,
    news: &mut News,
) -> i64
    ensures { EndsTold book.old.place.held event task result book.new.place.held news.old news.new }
{
    let mut timed = match taken(alloc, &mut book.word, &mut book.place) {
        Ok(timed) => timed,
        Err(number) => return number,
    };
    let Some(event) = event else {
        put(&mut book.word, &mut book.place, timed);
        return BAD_ARGUMENT;
    };
    let answer = end(&mut timed.realm, &event, task, news);
    put(&mut book.word, &mut book.place, timed);
    answer
}

/// Tries the end, and tells the news if it is recorded.
fn end(realm: &mut RealmState, event: &Event, task: TaskId, news: &mut News) -> i64
    ensures { Ends realm.old event.now task result realm.new news.old news.new }
{
    let reply = realm.perform(event, false, None);
    if reply.is_ok() {
        *news = news_of(realm, task);
    }
    told(reply)
}

/// What there is to hear of, as it is told of the task.
fn news_of(realm: &mut RealmState, task: TaskId) -> News
    ensures news { IsNewsOf realm.old.history task result }
    ensures kept { realm.new ≡ realm.old }
{
    let home = realm.forked_in(task);
    let quiet = is_quiet(realm, home);
    let next = realm.next_deadline();
    let cancelled = realm.cancelled_since(0).len();
    News {
        scope: home.unwrap_or(0),
        quiet,
        comes: next.is_some(),
        cancelled,
        deadline: next.unwrap_or(0),
    }
}

/// Whether no task of the scope waits or runs.
fn is_quiet(realm: &RealmState, scope: Option<ScopeId>) -> bool
    ensures { result ≡ option_map_or (settled realm.now.history) scope true }
{
    match scope {
        Some(scope) => realm.settled(scope),
        None => true,
    }
}
