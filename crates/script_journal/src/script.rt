//! The script.
ghost use Rattle.std.specs.Prelude.{◌++◌, ◌≡◌, IfOk, Some, string_bytes};
ghost use Rattle.script_journal.specs.{binds_text, events_text, moment_text, script_text};

use crate::lines::{ShownEvent, ShownPair};
use scope_rules::{Base, Binding, Event};
use std::alloc::{AllocError, Global};
use std::fmt;

/// Main's bindings, each as the command that binds it, and a retirement behind them.
#[derive(Clone, Copy)]
struct ShownBinds<'a>(&'a [Binding]);

impl fmt::Display for ShownBinds<'_> {
    ghost output = { λ b. Some (binds_text b.0.now) };

    #[tactic(auto, unfolding(crate::specs::Script::binds_text, crate::specs::Script::pairs_text))]
    fn fmt<W: fmt::Write>(&self, f: &mut fmt::Formatter<W>) -> fmt::Result {
        for pair in self.0 {
            write!(f, "bind 0 {}\n", ShownPair(*pair))?;
        }
        match self.0 {
            [] => Ok(()),
            [_, ..] => write!(f, "retire 0\n"),
        }
    }
}

/// The events, a line each.
#[derive(Clone, Copy)]
struct ShownEvents<'a> {
    base: &'a Base,
    events: &'a [Event],
}

impl fmt::Display for ShownEvents<'_> {
    ghost output = { λ e. Some (events_text e.base.now e.events.now) };

    #[tactic(auto, unfolding(crate::specs::Script::events_text))]
    fn fmt<W: fmt::Write>(&self, f: &mut fmt::Formatter<W>) -> fmt::Result {
        for event in self.events {
            let shown = ShownEvent {
                base: self.base,
                event: *event,
            };
            write!(f, "{shown}\n")?;
        }
        Ok(())
    }
}

/// The moment that a history begins with, if it is not that of a fresh realm, and a retirement behind it.
#[derive(Clone, Copy)]
struct ShownMoment(u64);

impl fmt::Display for ShownMoment {
    ghost output = { λ m. Some (moment_text m.0) };

    fn fmt<W: fmt::Write>(&self, f: &mut fmt::Formatter<W>) -> fmt::Result {
        match self.0 {
            0 => Ok(()),
            moment => write!(f, "tick {moment}\nretire 0\n"),
        }
    }
}

/// A history, as its script.
#[derive(Clone, Copy)]
pub struct ShownScript<'a> {
    pub base: &'a Base,
    pub events: &'a [Event],
}

impl fmt::Display for ShownScript<'_> {
    ghost output = { λ s. Some (moment_text s.base.now.moment ++ binds_text s.base.now.binds ++ events_text s.base.now s.events.now) };

    fn fmt<W: fmt::Write>(&self, f: &mut fmt::Formatter<W>) -> fmt::Result {
        let events = ShownEvents {
            base: self.base,
            events: self.events,
        };
        let moment = ShownMoment(self.base.moment());
        write!(f, "{moment}{}{events}", ShownBinds(self.base.binds()))
    }
}

/// The script of the history that began with the base and had these events. It is refused for memory alone.
pub fn script_of(alloc: Global, base: &Base, events: &[Event]) -> Result<String, AllocError>
    ensures { IfOk result (λ text. string_bytes text ≡ script_text (record { base = base.now; events = events.now })) }
{
    let script = ShownScript { base, events };
    format!(in alloc; "{script}")
}
