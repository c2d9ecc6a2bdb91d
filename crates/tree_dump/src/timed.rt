//! The second format of a dump: the tree with times, the limits, and what counts against them.
ghost use Rattle.std.specs.Prelude.{◌≡◌, IfOk, OnOk, string_bytes};
ghost use Rattle.tree_dump.specs.{SendsValue, amounts, clock_of, forked_count, opened_count, timed_dump_data, timed_dump_text};

use crate::ages::Ages;
use crate::members::{send_number, send_time};
use crate::walk::{LEVELS, send_scope};
use scope_checks::Readings;
use scope_rules::Limits;
use scope_rules::types::values::MAIN;
use serde::{Described, Serialize, Serializer};
use std::alloc::{AllocError, Global};

/// Sends the object of so many units of load, scopes and tasks.
#[tactic(auto, using(crate::proofs::Sent::object_sent, crate::proofs::Sent::member_sent))]
fn send_amounts<S: Serializer>(
    out: &mut S,
    load: u64,
    scopes: u32,
    tasks: u32,
) -> Result<(), S::Error>
    ensures { OnOk result (SendsValue (amounts load scopes tasks) (S.written out.old) (S.written out.new)) }
{
    out.begin_map(Some(3))?;
    send_time(out, "load", Some(load))?;
    send_number(out, "scopes", scopes)?;
    send_number(out, "tasks", tasks)?;
    out.end_map()
}

/// How many scopes were opened since the last retirement.
fn opened<R: Readings>(readings: &R) -> u32
    ensures { result ≡ opened_count (R.history readings.now) }
{
    readings.scopes() - readings.retired_scopes()
}

/// How many tasks were forked since the last retirement.
fn forked<R: Readings>(readings: &R) -> u32
    ensures { result ≡ forked_count (R.history readings.now) }
{
    readings.tasks() - readings.retired_tasks()
}

/// The last reading, in milliseconds, if the clock was read.
fn last_reading(ages: &Ages<'_>) -> Option<u64>
    ensures { result ≡ ages.now.last }
{
    match ages.last {
        Some(reading) => Some(u64::from(reading)),
        None => None,
    }
}

/// The tree of what is read, with times and limits.
#[derive(Drop)]
struct TimedTree<'a, R> {
    readings: &'a R,
    alloc: Global,
    limits: Limits,
    ages: &'a Ages<'a>,
}

impl<R: Readings> Described for TimedTree<'_, R> {
    ghost writes = { λ tree. SendsValue (timed_dump_data tree.limits (clock_of tree.ages.now) (R.history tree.readings.now)) };
}

impl<R: Readings> Serialize for TimedTree<'_, R> {
    fn serialize<S: Serializer>(&self, out: &mut S) -> Result<(), S::Error> {
        let limits = self.limits;
        out.begin_map(Some(6))?;
        send_number(out, "format", 2)?;
        out.key("limits")?;
        send_amounts(out, u64::from(limits.load), limits.scopes, limits.tasks)?;
        send_time(out, "moment", Some(self.readings.moment()))?;
        send_time(out, "now", last_reading(self.ages))?;
        out.key("root")?;
        send_scope(
            self.readings,
            Some(self.ages),
            self.alloc,
            out,
            LEVELS,
            self.readings.outermost(MAIN),
        )?;
        out.key("used")?;
        send_amounts(
            out,
            self.readings.load(),
            opened(self.readings),
            forked(self.readings),
        )?;
        out.end_map()
    }
}

/// The tree of what was read, as JSON without blanks, in the second format: with since when each scope is open, when each
/// task started and ended and what it gave, the last reading of the clock, the limits, and what counts against them. It is
/// refused for memory alone.
pub fn timed_dump<R: Readings>(
    alloc: Global,
    readings: &R,
    limits: Limits,
    ages: &Ages<'_>,
) -> Result<String, AllocError>
    ensures { IfOk result (λ text. string_bytes text ≡ timed_dump_text limits (clock_of ages.now) (R.history readings.now)) }
{
    let tree = TimedTree {
        readings,
        alloc,
        limits,
        ages,
    };
    match serde_json::to_string(alloc, &tree) {
        Ok(text) => Ok(text),
        Err(_) => Err(AllocError),
    }
}
