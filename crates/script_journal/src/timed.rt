//! The script of a history with the times of its events.
ghost use Rattle.std.specs.Prelude.{◌++◌, ◌≡◌, IfOk, OnOk, Some, string_bytes};
ghost use Rattle.script_journal.specs.{at_text, new_time, timed_line, timed_lines, timed_text};

use crate::lines::ShownEvent;
use crate::script::ShownScript;
use scope_rules::{Base, Event};
use std::alloc::{AllocError, Global};
use std::fmt;

/// A time as a comment of a script, if there is one.
#[derive(Clone, Copy)]
struct ShownAt(Option<u64>);

impl fmt::Display for ShownAt {
    ghost output = { λ a. Some (at_text a.0) };

    #[tactic(auto, unfolding(crate::specs::Timed::at_text))]
    fn fmt<W: fmt::Write>(&self, f: &mut fmt::Formatter<W>) -> fmt::Result {
        match self.0 {
            Some(at) => write!(f, "# at {at}\n"),
            None => Ok(()),
        }
    }
}

/// The time of the event at the place, if it is known and not that of the event before it.
#[tactic(auto, unfolding(crate::specs::Timed::new_time))]
fn new_time(times: &[u64], place: usize) -> Option<u64>
    ensures { result ≡ new_time times.now place }
{
    let at = *times.get(place)?;
    let before = place.checked_sub(1).and_then(|before| times.get(before));
    match before {
        Some(before) if *before == at => None,
        _ => Some(at),
    }
}

/// Appends the line of the event at the place, behind its time if that is new. It is refused for memory alone.
#[tactic(auto, unfolding(crate::specs::Timed::timed_line))]
fn append_event(
    text: &mut String,
    base: &Base,
    events: &[Event],
    times: &[u64],
    place: usize,
) -> Result<(), AllocError>
    ensures { OnOk result (string_bytes text.new ≡ string_bytes text.old ++ timed_line base.now events.now times.now place) }
{
    let at = ShownAt(new_time(times, place));
    match events.get(place) {
        Some(event) => {
            let shown = ShownEvent {
                base,
                event: *event,
            };
            write!(text, "{at}{shown}\n")
        }
        None => write!(text, "{at}"),
    }
}

/// Appends the lines of all events. It is refused for memory alone.
#[tactic(auto, using(std::proofs::lemmas::Grind::common_steps, scope_log::proofs::LogSteps::flat_map_more))]
fn append_events(
    text: &mut String,
    base: &Base,
    events: &[Event],
    times: &[u64],
) -> Result<(), AllocError>
    ensures { OnOk result (string_bytes text.new ≡ string_bytes text.old ++ timed_lines base.now events.now times.now) }
{
    for place in 0..events.len() {
        append_event(text, base, events, times, place)?;
    }
    Ok(())
}

/// The script of the history that began with the base and had these events, with their times in milliseconds, as far as they
/// are known: before an event whose time is another than the last a comment `# at N`, and behind all of them that of now. A
/// script passes over comments, so it plays as the script does. It is refused for memory alone.
#[tactic(auto, unfolding(crate::specs::Script::events_text))]
pub fn timed_script(
    alloc: Global,
    base: &Base,
    events: &[Event],
    times: &[u64],
    now: u64,
) -> Result<String, AllocError>
    ensures { IfOk result (λ text. string_bytes text ≡ timed_text (record { base = base.now; events = events.now }) times.now now) }
{
    let begun = ShownScript { base, events: &[] };
    let mut text = format!(in alloc; "{begun}")?;
    append_events(&mut text, base, events, times)?;
    write!(text, "{}", ShownAt(Some(now)))?;
    Ok(text)
}
