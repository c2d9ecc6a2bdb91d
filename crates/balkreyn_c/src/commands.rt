//! The commands. Each tries one event in the book's realm.

ghost use Rattle.std.specs.Prelude.{◌≡◌, None, Ok, Some};
ghost use Rattle.balkreyn_c.specs.{Acts, Num, bind_of, fault_of, fork_of, opening_of, text_bind_of, text_end_of};

use crate::acting::act;
use crate::book::Book;
use crate::opening::opening_of;
use scope_rules::{Binding, Event, Fault, Label, Value};
use script_words::name;
use std::alloc::Global;

/// The actor opens a scope.
#[unsafe(no_mangle)]
pub extern "C" fn balkreyn_open(
    alloc: Global,
    book: &mut Book,
    actor: u32,
    joiner: u32,
    bound: i64,
    flags: u32,
    deadline: u64,
) -> i64
    ensures { Acts book.old.place.held (opening_of actor joiner bound flags deadline) result book.new.place.held }
{
    act(
        alloc,
        book,
        opening_of(actor, joiner, bound, flags, deadline),
    )
}

/// No thread was available for the task.
#[unsafe(no_mangle)]
pub extern "C" fn balkreyn_reject(alloc: Global, book: &mut Book, task: u32) -> i64
    ensures { Acts book.old.place.held (Some (Event.Reject task)) result book.new.place.held }
{
    act(alloc, book, Some(Event::Reject { task }))
}

/// The task's thread began.
#[unsafe(no_mangle)]
pub extern "C" fn balkreyn_start(alloc: Global, book: &mut Book, task: u32) -> i64
    ensures { Acts book.old.place.held (Some (Event.Start task)) result book.new.place.held }
{
    act(alloc, book, Some(Event::Start { task }))
}

/// The task ended with a number.
#[unsafe(no_mangle)]
pub extern "C" fn balkreyn_finish(alloc: Global, book: &mut Book, task: u32, value: i64) -> i64
    ensures { Acts book.old.place.held (Some (Event.Finish task (Ok (Num value)))) result book.new.place.held }
{
    act(
        alloc,
        book,
        Some(Event::Finish {
            task,
            end: Ok(Value::Num(value)),
        }),
    )
}

/// Cancels the scope.
#[unsafe(no_mangle)]
pub extern "C" fn balkreyn_cancel(alloc: Global, book: &mut Book, scope: u32) -> i64
    ensures { Acts book.old.place.held (Some (Event.Cancel scope)) result book.new.place.held }
{
    act(alloc, book, Some(Event::Cancel { scope }))
}

/// Sets the scope's deadline anew, in milliseconds.
#[unsafe(no_mangle)]
pub extern "C" fn balkreyn_move(alloc: Global, book: &mut Book, scope: u32, deadline: u64) -> i64
    ensures { Acts book.old.place.held (Some (Event.Move scope (Some deadline))) result book.new.place.held }
{
    act(
        alloc,
        book,
        Some(Event::Move {
            scope,
            deadline: Some(deadline),
        }),
    )
}

/// Takes the scope's deadline away.
#[unsafe(no_mangle)]
pub extern "C" fn balkreyn_move_never(alloc: Global, book: &mut Book, scope: u32) -> i64
    ensures { Acts book.old.place.held (Some (Event.Move scope None)) result book.new.place.held }
{
    act(
        alloc,
        book,
        Some(Event::Move {
            scope,
            deadline: None,
        }),
    )
}

/// Sets the realm's time, in milliseconds.
#[unsafe(no_mangle)]
pub extern "C" fn balkreyn_tick(alloc: Global, book: &mut Book, now: u64) -> i64
    ensures { Acts book.old.place.held (Some (Event.Tick now)) result book.new.place.held }
{
    act(alloc, book, Some(Event::Tick { now }))
}

/// The actor takes away the last binding of its own.
#[unsafe(no_mangle)]
pub extern "C" fn balkreyn_unbind(alloc: Global, book: &mut Book, actor: u32) -> i64
    ensures { Acts book.old.place.held (Some (Event.Unbind actor)) result book.new.place.held }
{
    act(alloc, book, Some(Event::Unbind { actor }))
}

/// The owner begins to close the scope.
#[unsafe(no_mangle)]
pub extern "C" fn balkreyn_begin_close(
    alloc: Global,
    book: &mut Book,
    actor: u32,
    scope: u32,
) -> i64
    ensures { Acts book.old.place.held (Some (Event.BeginClose actor scope)) result book.new.place.held }
{
    act(alloc, book, Some(Event::BeginClose { actor, scope }))
}

/// The scope is closed.
#[unsafe(no_mangle)]
pub extern "C" fn balkreyn_end_close(alloc: Global, book: &mut Book, actor: u32, scope: u32) -> i64
    ensures { Acts book.old.place.held (Some (Event.EndClose actor scope)) result book.new.place.held }
{
    act(alloc, book, Some(Event::EndClose { actor, scope }))
}

/// The actor forks a task in its scope.
#[unsafe(no_mangle)]
pub extern "C" fn balkreyn_fork(
    alloc: Global,
    book: &mut Book,
    actor: u32,
    scope: u32,
    text: &[u8],
) -> i64
    ensures { Acts book.old.place.held (fork_of actor scope text.now) result book.new.place.held }
{
    let event = match name(text) {
        Some(name) => Some(Event::Fork {
            actor,
            scope,
            label: Label { name, due: None },
        }),
        None => None,
    };
    act(alloc, book, event)
}

/// The task ended with a text.
#[unsafe(no_mangle)]
pub extern "C" fn balkreyn_finish_text(
    alloc: Global,
    book: &mut Book,
    task: u32,
    text: &[u8],
) -> i64
    ensures { Acts book.old.place.held (text_end_of task text.now) result book.new.place.held }
{
    let event = match name(text) {
        Some(name) => Some(Event::Finish {
            task,
            end: Ok(Value::Text(name)),
        }),
        None => None,
    };
    act(alloc, book, event)
}

/// The task ended with a fault.
#[unsafe(no_mangle)]
pub extern "C" fn balkreyn_fail(alloc: Global, book: &mut Book, task: u32, text: &[u8]) -> i64
    ensures { Acts book.old.place.held (fault_of task text.now) result book.new.place.held }
{
    let event = match name(text) {
        Some(name) => Some(Event::Finish {
            task,
            end: Err(Fault(name)),
        }),
        None => None,
    };
    act(alloc, book, event)
}

/// The actor binds a key to a number.
#[unsafe(no_mangle)]
pub extern "C" fn balkreyn_bind(
    alloc: Global,
    book: &mut Book,
    actor: u32,
    key: &[u8],
    value: i64,
) -> i64
    ensures { Acts book.old.place.held (bind_of actor key.now value) result book.new.place.held }
{
    let event = match name(key) {
        Some(key) => Some(Event::Bind {
            actor,
            binding: Binding {
                key,
                value: Value::Num(value),
            },
        }),
        None => None,
    };
    act(alloc, book, event)
}

/// The actor binds a key to a text.
#[unsafe(no_mangle)]
pub extern "C" fn balkreyn_bind_text(
    alloc: Global,
    book: &mut Book,
    actor: u32,
    key: &[u8],
    text: &[u8],
) -> i64
    ensures { Acts book.old.place.held (text_bind_of actor key.now text.now) result book.new.place.held }
{
    let event = match (name(key), name(text)) {
        (Some(key), Some(text)) => Some(Event::Bind {
            actor,
            binding: Binding {
                key,
                value: Value::Text(text),
            },
        }),
        _ => None,
    };
    act(alloc, book, event)
}
