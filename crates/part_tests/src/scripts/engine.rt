//! Commands on a book.

use scope_book::BookState;
use scope_rules::{AnyEnd, Event, Limits, Refusal};
use scope_script::{Command, Line, Reply, perform, perform_all, read_line};
use std::process::Abort;
use std::test::Fail;

/// The commands of the lines that ` / ` parts.
fn commands(rt: &impl AllocGlobal, text: &str) -> Result<Vec<Command>, Fail> {
    let mut all = Vec::new(rt.alloc());
    for line in text.split(" / ") {
        let Line::Command(command) = read_line(line.as_bytes()) else {
            return Err("a command")?;
        };
        all.push(command)?;
    }
    Ok(all)
}

/// A list of commands goes on past one that is refused; a full load is no want of memory.
fn check_list(rt: &impl Abort, book: &mut BookState<AnyEnd>, all: &[Command]) -> Result<(), Fail> {
    perform_all(book, all)?;
    assert_eq!(rt; book.moment(), 6);
    let reply = perform(book, &Command::Do(Event::Tick { now: 7 }))?;
    assert!(rt; matches!(reply, Reply::Refused(Refusal::TooMany)));
    Ok(())
}

#[test]
fn commands_go_on_past_a_refusal(rt: HostRuntime) -> Result<(), Fail> {
    let limits = Limits::new(4096, 65536, 6).ok_or("limits")?;
    let all = commands(
        &rt,
        "open 0 await / join 0 9 / tick 5 / tick 4 / fork 1 1 a / tick 6",
    )?;
    let mut book: BookState<AnyEnd> = BookState::new(rt.alloc(), limits);
    check_list(&rt, &mut book, &all)
}
