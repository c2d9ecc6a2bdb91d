//! The members of a dump's objects, each as it is sent to a serializer: its key, and then its value.
ghost use Rattle.std.specs.Prelude.{◌≡◌, OnOk, codes, option_map};
ghost use Rattle.tree_dump.specs.{SendsMember, SendsMore, SendsSince, SendsValue, boolean, cause_or_null, joiner_text, number, number_or_null, result_data, scope_members, string, task_members, unsigned};

use crate::ages::TaskTimes;
use crate::words::joiner_word;
use scope_rules::{Cause, Policy, State, Value};
use serde::Serializer;
use std::alloc::Global;

/// Sends a member that is a number.
pub(crate) fn send_number<S: Serializer>(out: &mut S, key: &str, value: u32) -> Result<(), S::Error>
    ensures { OnOk result (SendsMember key.now (number (unsigned value)) (S.written out.old) (S.written out.new)) }
{
    out.key(key)?;
    out.u64(u64::from(value))
}

/// Sends a member that is a text.
pub(crate) fn send_text<S: Serializer>(out: &mut S, key: &str, text: &str) -> Result<(), S::Error>
    ensures { OnOk result (SendsMember key.now (string text.now) (S.written out.old) (S.written out.new)) }
{
    out.key(key)?;
    out.str(text)
}

/// Sends a member that is true or false.
pub(crate) fn send_flag<S: Serializer>(out: &mut S, key: &str, flag: bool) -> Result<(), S::Error>
    ensures { OnOk result (SendsMember key.now (boolean flag) (S.written out.old) (S.written out.new)) }
{
    out.key(key)?;
    out.bool(flag)
}

/// Sends a member that is a time in milliseconds, or null.
pub(crate) fn send_time<S: Serializer>(
    out: &mut S,
    key: &str,
    time: Option<u64>,
) -> Result<(), S::Error>
    ensures { OnOk result (SendsMember key.now (number_or_null time) (S.written out.old) (S.written out.new)) }
{
    out.key(key)?;
    match time {
        Some(time) => out.u64(time),
        None => out.unit(),
    }
}

/// Sends a member that is a reading of a clock in milliseconds, or null.
fn send_reading<S: Serializer>(out: &mut S, key: &str, reading: Option<u32>) -> Result<(), S::Error>
    ensures { OnOk result (SendsMember key.now (number_or_null reading) (S.written out.old) (S.written out.new)) }
{
    match reading {
        None => send_time(out, key, None),
        Some(reading) => send_time(out, key, Some(u64::from(reading))),
    }
}

/// Sends the member that says since when, if that is told.
pub(crate) fn send_since<S: Serializer>(
    out: &mut S,
    since: Option<Option<u32>>,
) -> Result<(), S::Error>
    ensures { OnOk result (SendsSince since (S.written out.old) (S.written out.new)) }
{
    match since {
        None => Ok(()),
        Some(reading) => send_reading(out, "since", reading),
    }
}

/// Sends the member that says when a task started, if times are told.
pub(crate) fn send_started<S: Serializer>(
    out: &mut S,
    times: Option<TaskTimes>,
) -> Result<(), S::Error>
    ensures { OnOk result (SendsSince (option_map (λ t. t.since) times) (S.written out.old) (S.written out.new)) }
{
    match times {
        None => Ok(()),
        Some(times) => send_since(out, Some(times.since)),
    }
}

/// Sends the member that says when a task ended, if times are told.
pub(crate) fn send_ended<S: Serializer>(
    out: &mut S,
    times: Option<TaskTimes>,
) -> Result<(), S::Error>
    ensures { OnOk result (SendsMore (codes "ended") (option_map (λ t. number_or_null t.ended) times) (S.written out.old) (S.written out.new)) }
{
    match times {
        None => Ok(()),
        Some(times) => send_reading(out, "ended", times.ended),
    }
}

/// Sends what can be read of a task: its value, a number or a text, or its fault, or null.
fn send_state<S: Serializer>(out: &mut S, state: State) -> Result<(), S::Error>
    ensures { OnOk result (SendsValue (result_data state) (S.written out.old) (S.written out.new)) }
{
    match state {
        State::Unavailable => out.unit(),
        State::Success(Value::Num(number)) => out.i64(number),
        State::Success(Value::Text(name)) => out.str(name.as_str()),
        State::Failed(fault) => out.str(fault.0.as_str()),
    }
}

/// Sends the member that says what can be read of a task, if times are told.
pub(crate) fn send_result<S: Serializer>(
    out: &mut S,
    times: Option<TaskTimes>,
    state: State,
) -> Result<(), S::Error>
    ensures { OnOk result (SendsMore (codes "result") (option_map (λ t. result_data state) times) (S.written out.old) (S.written out.new)) }
{
    if times.is_none() {
        return Ok(());
    }
    out.key("result")?;
    send_state(out, state)
}

/// How many members a scope's object has.
pub(crate) fn scope_members(since: Option<Option<u32>>) -> usize
    ensures { result ≡ scope_members since }
{
    if since.is_some() { 12 } else { 11 }
}

/// How many members a task's object has.
pub(crate) fn task_members(times: Option<TaskTimes>) -> usize
    ensures { result ≡ task_members times }
{
    if times.is_some() { 8 } else { 5 }
}

/// Sends the object of a cause.
#[tactic(auto, using(crate::proofs::Sent::object_sent, crate::proofs::Sent::member_sent))]
fn send_cause_object<S: Serializer>(out: &mut S, cause: Cause) -> Result<(), S::Error>
    ensures { OnOk result (SendsValue (cause_or_null (Some cause)) (S.written out.old) (S.written out.new)) }
{
    out.begin_map(Some(2))?;
    send_number(out, "by", cause.scope)?;
    send_text(out, "kind", cause.kind.word())?;
    out.end_map()
}

/// Sends why a scope is cancelled, or null.
pub(crate) fn send_cause<S: Serializer>(
    out: &mut S,
    key: &str,
    cause: Option<Cause>,
) -> Result<(), S::Error>
    ensures { OnOk result (SendsMember key.now (cause_or_null cause) (S.written out.old) (S.written out.new)) }
{
    out.key(key)?;
    match cause {
        Some(cause) => send_cause_object(out, cause),
        None => out.unit(),
    }
}

/// Sends the word of a joiner, as a script has it.
pub(crate) fn send_joiner<S: Serializer>(
    alloc: Global,
    out: &mut S,
    key: &str,
    policy: Policy,
) -> Result<(), S::Error>
    ensures { OnOk result (SendsMember key.now (string (joiner_text policy)) (S.written out.old) (S.written out.new)) }
{
    match joiner_word(alloc, policy) {
        Ok(word) => send_text(out, key, word.as_str()),
        Err(_) => Err(out.custom("no memory")),
    }
}
