//! Readings of a clock in a script: lines `# at MILLIS`, which say nothing to the realm. MILLIS are milliseconds since
//! the realm began, at most 2^32 - 1.
ghost use Rattle.std.specs.Prelude.{◌≡◌};
ghost use Rattle.script_jobs.specs.{[], IfOk, Legal, OnOk, at_line, ended_lines, has_reading, history_of, limits_of, line_said, reading_of, realm_after_line, realm_of, small, stamped};
ghost use Rattle.script_jobs.specs.{stamps_from, stamps_of, stamps_of_script, starting, the_start};

use scope_book::BookState;
use scope_rules::{AnyEnd, Limits};
use scope_script::{Line, first_line, perform, read_line};
use script_words::{just_three, moment};
use std::alloc::{AllocError, Global};

/// When the events of a script happened, by the readings in it.
#[derive(Drop)]
pub struct Times {
    /// By event since the last retirement, the last reading before its line, and behind them the last reading of all;
    /// empty if the script has no reading.
    pub events: Vec<u32>,
    /// The last reading of all.
    pub last: u32,
}

/// The number, if it has 32 bits.
fn small(number: u64) -> Option<u32>
    ensures { result ≡ small number }
{
    if number <= 4_294_967_295 {
        Some(number as u32)
    } else {
        None
    }
}

/// The reading of a line `# at MILLIS`.
#[tactic(auto, unfolding(crate::specs::Times::reading_of))]
fn reading_of(line: &[u8]) -> Option<u32>
    ensures { result ≡ reading_of line.now }
{
    let (first, second, third) = just_three(line)?;
    let comment: &[u8] = b"#";
    let at: &[u8] = b"at";
    if first == comment && second == at {
        small(moment(third)?)
    } else {
        None
    }
}

/// The reading that counts behind the line.
fn at_line(at: u32, line: &[u8]) -> u32
    ensures { result ≡ at_line at line.now }
{
    match reading_of(line) {
        Some(reading) => reading,
        None => at,
    }
}

/// Whether a line of the script has a reading.
fn has_reading(script: &[u8]) -> bool
    ensures { result ≡ has_reading (ended_lines [] script.now) }
{
    let mut rest = script;
    while let Some((line, others)) = first_line(rest) {
        if reading_of(line).is_some() {
            return true;
        }
        rest = others;
    }
    false
}

/// Performs the command of the line, if it is one. It is refused for memory alone.
#[tactic(auto, unfolding(scope_script::specs::Sessions::realm_after_line))]
fn perform_line(book: &mut BookState<AnyEnd>, line: &[u8]) -> Result<(), AllocError>
    requires { Legal (limits_of book.old) (history_of book.old) }
    ensures { OnOk result (realm_of book.new ≡ realm_after_line (realm_of book.old) (line_said line.now)) }
{
    match read_line(line) {
        Line::Command(command) => {
            let _reply = perform(book, &command)?;
            Ok(())
        },
        _ => Ok(()),
    }
}

/// Notes the time of the event of a line that had so many events before it and so many behind it, if there is one. It is
/// refused for memory alone.
fn stamp(times: &mut Vec<u32>, before: usize, after: usize, at: u32) -> Result<(), AllocError>
    ensures { OnOk result (times.new.items ≡ stamped times.old.items before after at) }
{
    if before < after {
        times.push(at)?;
    } else if after < before {
        times.clear();
    }
    Ok(())
}

/// The times of a script that has readings. It is refused for memory alone.
fn read_stamps(alloc: Global, script: &[u8], limits: Limits) -> Result<Times, AllocError>
    ensures { IfOk result (λ times. stamps_of times ≡ stamps_from [] (starting limits the_start) 0 (ended_lines [] script.now)) }
{
    let mut book = BookState::over(alloc, limits, Vec::new(alloc));
    let mut events = Vec::new(alloc);
    let mut last = 0;
    let mut rest = script;
    while let Some((line, others)) = first_line(rest) {
        let _legal = book.limits();
        let before = book.realm().event_count();
        perform_line(&mut book, line)?;
        let after = book.realm().event_count();
        last = at_line(last, line);
        stamp(&mut events, before, after, last)?;
        rest = others;
    }
    events.push(last)?;
    Ok(Times { events, last })
}

/// The times of a script that is run on a fresh realm of these limits. It is refused for memory alone.
#[tactic(auto, unfolding(crate::specs::Times::stamps_of_script))]
pub fn times_of(alloc: Global, script: &[u8], limits: Limits) -> Result<Times, AllocError>
    ensures { IfOk result (λ times. stamps_of times ≡ stamps_of_script limits script.now) }
{
    if has_reading(script) {
        read_stamps(alloc, script, limits)
    } else {
        Ok(Times {
            events: Vec::new(alloc),
            last: 0,
        })
    }
}
