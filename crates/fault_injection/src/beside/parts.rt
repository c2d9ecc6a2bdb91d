//! The lines of a script that is played beside the program.

use scope_rules::{Limits, ScopeId};
use scope_script::{Command, Line, read_line};

/// What a line before the first command begins with, that has the limits of scopes, tasks and load behind it.
const LIMITS: &str = "# limits ";

/// What a line begins with that asks for what is to be seen of the scopes up to the number behind it.
const SHOW: &str = "# show ";

/// What a note of what all show begins with.
pub const SIGN: &str = "# ";

/// What a note of what a realm under its lock doesn't show begins with.
pub const BOOK_SIGN: &str = "#+ ";

/// What a line of the journal begins with.
pub const JOURNAL_SIGN: &str = "#| ";

/// The line behind a journal.
pub const JOURNAL_END: &[u8] = b"#.\n";

/// A line of a script.
pub enum Part {
    Silent,
    BadWord,
    /// What is to be seen of the scopes up to this one.
    Show(ScopeId),
    Command(Command),
}

/// The line; to the program one that begins with `#` says nothing.
pub fn part_of(line: &str) -> Part {
    if let Some(number) = line.strip_prefix(SHOW) {
        return match number.parse() {
            Ok(scope) => Part::Show(scope),
            Err(_) => Part::Silent,
        };
    }
    match read_line(line.as_bytes()) {
        Line::Silent => Part::Silent,
        Line::BadWord => Part::BadWord,
        Line::Command(command) => Part::Command(command),
    }
}

/// The three limits.
fn read_limits(numbers: &str) -> Option<Limits> {
    let (scopes, others) = numbers.split_once(" ")?;
    let (tasks, load) = others.split_once(" ")?;
    Limits::new(
        scopes.parse().ok()?,
        tasks.parse().ok()?,
        load.parse().ok()?,
    )
}

/// The limits that the first line of the script says, or the greatest. None where they are in no form.
pub fn limits_of(script: &str) -> Option<Limits> {
    match script.lines().next() {
        Some(line) => match line.strip_prefix(LIMITS) {
            Some(numbers) => read_limits(numbers),
            None => Some(Limits::GREATEST),
        },
        None => Some(Limits::GREATEST),
    }
}
