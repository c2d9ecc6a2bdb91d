//! All that the program does.
ghost use Rattle.std.specs.Prelude.{◌≡◌, ◌≢◌, ◌≤◌, ◌⊎◌};
ghost use Rattle.scopectl.specs.{ℕ, Appends, AppendsPart, Bool, DidAll, DidJob, DidNothing, DidPart, DidReplay, DidSome, DidWhole, IsRead, IsSaid, IsScript, IsSound, List, Names};
ghost use Rattle.scopectl.specs.{NamesAfter, NamesAfterNotes, NamesAlone, NamesAny, NamesOf, NamesOfPlan, None, Noted, SaidSome, Some, WroteScriptPartly, between_of, count_text, false, is_silent};
ghost use Rattle.scopectl.specs.{line_of, lines_or, map, not_utf8_line, notes_wanted, place_or, run, seen_of, status_of, string_bytes, three_if_some, tree_part, true, view_of};

use crate::fault::{ProgramFault, count_text};
use crate::looks::Looker;
use crate::quoting::quoted;
use crate::streams::Streams;
use command_line::{
    CommandLine, Delay, DumpFormat, LineFault, PictureOptions, ScriptOptions, TreeOptions,
    VERSION_LINE, ViewOptions, help_of,
};
use job_runner::JobWork;
use quote_gateway::LateJob;
use realm_lock::{RealmName, Seed};
use run_picture::View as Seen;
use scope_rules::Due;
use scope_rules::types::capacity::LEVEL_LIMIT;
use scope_script::Watched;
use script_jobs::{
    Between, Count, Notes, Rendering, View, replayed, replayed_noted, script_by, shown, shown_noted,
};
use std::alloc::Global;
use std::io::{ErrorKind, Read, Write};
use std::rt::Clock as SystemTime;
use thread_pool::{PoolRuntime, Spawns};
use tree_dump::TreePart;

/// By which number a random script is made if none is given.
const SEED: u32 = 1;

/// How many lines a random script has if that is not given.
const LINES: u32 = 100;

/// The status of a line that was understood and carried out.
pub const DONE: u8 = 0;

/// The status of a fault, which one line on standard error names.
pub const FAULT: u8 = 1;

/// The status of a line that is not understood.
pub const NOT_UNDERSTOOD: u8 = 2;

/// The status of a line that was carried out, if lines of the script were refused and the status is to tell so.
pub const LINES_REFUSED: u8 = 3;

/// Does what the words say, of which the first is the program's name, and answers the exit status. What they say was read
/// before: `line` answered `said` of them.
/// What is read, written and said of faults goes over the streams. The threads of a plan's jobs are the spawner's, and the seed
/// is that of the realm that they run in; else neither is used. That realm is looked at by `looks`, if that was asked for;
/// what it writes is in no clause.
///
/// With status 0 or 3 the words asked for help or the version, and exactly that text was written and nothing
/// read; or they said a replay, all bytes were read, and exactly the reply text of them was written, in
/// a realm of the limits that stand in the words; or they said a dump, a tree, a timeline, a trace or a page, all bytes were
/// read, and exactly that text of the realm that they leave was written; or they said a quote, all bytes
/// were read, which are a plan, and exactly a line that it allows was written, and a line feed; by a deadline
/// the line may say some of the prices. Where lines of a script were refused and the words are not quiet, a line on
/// `errors` says how many, and how many of them are no commands, and another one if no other line did anything;
/// before it stand the notes on the lines of a replay that are to be explained or traced; else nothing was said
/// there. The status is 3 if lines were refused and the words are strict, or where lines of a tree, timeline, trace or page
/// are no commands and the words are not lenient, and else 0.
///
/// With status 1 one line on `errors` names the fault: `read` or `write` only if that stream failed,
/// or the reader was given up after 2^64 - 1 reads; a line of the plan only where it is the first bad one of all
/// bytes, or of those that were read and whatever comes after them; `after` only of a quote whose plan lacks the offer
/// that is to take time; `rejected`, `cancelled` or `lost` only of a
/// quote whose bytes were all read; `strange` never; `memory` only if no stream failed; `time` only of a quote
/// whose bytes were all read, with a deadline or a delay.
/// Nothing was read or written, or the writer failed at the text that was asked for, or what was written
/// is a beginning of the replies to what was read. Of any other job nothing was written, but where all
/// bytes were read and the writer failed.
///
/// With status 2 the words say no command and ask for no text, nothing was read or written, and some text was said on
/// `errors`. So words
/// that say a command or ask for a text never end with 2, and other words with 2, or with 1 if memory
/// was refused.
pub fn act<
    N: RealmName + Send + Sync + 'static,
    S: Spawns<N, JobWork<Due, N, LateJob<T>>> + Drop,
    T: PoolRuntime + SystemTime,
    R: Read + Drop,
    W: Write + Drop,
    E: Write + Drop,
>(
    rt: &T,
    alloc: Global,
    seed: Seed,
    spawner: S,
    looks: &mut Looker<'_>,
    words: &[&str],
    said: Result<CommandLine, LineFault>,
    streams: &mut Streams<'_, R, W, E>,
) -> u8
    requires named { seed ≡ N.table }
    requires read { IsRead (map (λ word. word.now) words.now) said }
    requires sound { IsSound streams.old }
    ensures status { result ≤ 3 }
    ensures done { result ≢ 1 → result ≢ 2 → DidAll (map (λ word. word.now) words.now) (run R.remaining W.contents E.contents streams.old streams.new) result }
    ensures fault { result ≡ 1 → DidSome (map (λ word. word.now) words.now) (run R.remaining W.contents E.contents streams.old streams.new) }
    ensures named { result ≡ 1 → NamesAny (map (λ word. word.now) words.now) (run R.remaining W.contents E.contents streams.old streams.new) }
    ensures not_understood { result ≡ 2 → DidNothing (map (λ word. word.now) words.now) (run R.remaining W.contents E.contents streams.old streams.new) }
{
    match said {
        Ok(
            CommandLine::Replay {
                script,
                explain,
                trace,
            },
        ) => replay(alloc, script, explain, trace, streams),
        Ok(
            CommandLine::Show {
                script,
                view,
                lenient,
                explain,
            },
        ) => show(alloc, script, view, lenient, explain, streams),
        Ok(
            CommandLine::Quote {
                deadline,
                after,
                tree_after,
            },
        ) => quote::<N, S, T, R, W, E>(
            rt, alloc, seed, spawner, looks, deadline, after, tree_after, streams,
        ),
        Ok(CommandLine::Generate { seed, lines }) => {
            generate(alloc, seed, lines, &mut streams.writer, streams.errors)
        }
        Err(LineFault::Help) => tell(help_of(words), &mut streams.writer, streams.errors),
        Err(LineFault::Version) => tell(VERSION_LINE, &mut streams.writer, streams.errors),
        Err(LineFault::Usage(text)) => refuse_line(&text, streams.errors),
        Err(LineFault::Memory) => fail(ProgramFault::Memory, streams.errors),
    }
}

/// Answers the status if the words of the line could not be had: for want of memory, or since one is
/// not UTF-8.
pub fn refuse_words<E: Write + Drop>(kind: ErrorKind, errors: &mut Watched<E>) -> u8
    ensures memory { kind ≡ ErrorKind.OutOfMemory → (result ≡ 1)
        × IsSaid (line_of ProgramFault.Memory) (E.contents errors.old.inner) (E.contents errors.new.inner) errors.new.failed }
    ensures other { kind ≢ ErrorKind.OutOfMemory → (result ≡ 2)
        × IsSaid not_utf8_line (E.contents errors.old.inner) (E.contents errors.new.inner) errors.new.failed }
{
    if kind == ErrorKind::OutOfMemory {
        return fail(ProgramFault::Memory, errors);
    }
    say("error: a word of the command line is not UTF-8\n", errors);
    NOT_UNDERSTOOD
}

/// Says why the words are not understood.
pub fn refuse_line<E: Write + Drop>(why: &str, errors: &mut Watched<E>) -> u8
    ensures status { result ≡ 2 }
    ensures said { SaidSome (E.contents errors.old.inner) (E.contents errors.new.inner) errors.new.failed }
{
    if why.is_empty() {
        say("error: the command line is not understood\n", errors);
    } else {
        say(why, errors);
    }
    NOT_UNDERSTOOD
}

/// The notes that are wanted, if some are.
fn notes_wanted(explain: bool, trace: bool) -> Option<Notes>
    ensures { result ≡ notes_wanted explain trace }
{
    match (explain, trace) {
        (false, false) => None,
        (true, false) => Some(Notes::Refusals),
        (false, true) => Some(Notes::Replies),
        (true, true) => Some(Notes::All),
    }
}

/// Replays the script that is read, with the notes that are wanted.
fn replay<R: Read + Drop, W: Write + Drop, E: Write + Drop>(
    alloc: Global,
    script: ScriptOptions,
    explain: bool,
    trace: bool,
    streams: &mut Streams<'_, R, W, E>,
) -> u8
    requires { IsSound streams.old }
    ensures status { (result ≤ 3) × (result ≢ 2) }
    ensures done { result ≢ 1 → DidWhole (CommandLine.Replay script explain trace) (run R.remaining W.contents E.contents streams.old streams.new) result }
    ensures fault { result ≡ 1 → DidPart (CommandLine.Replay script explain trace) (run R.remaining W.contents E.contents streams.old streams.new) }
    ensures named { result ≡ 1 → NamesOf (CommandLine.Replay script explain trace) (run R.remaining W.contents E.contents streams.old streams.new) }
{
    match notes_wanted(explain, trace) {
        Some(notes) => replay_noted(alloc, script, notes, streams),
        None => replay_plainly(alloc, script, streams),
    }
}

/// Replays the script that is read.
fn replay_plainly<R: Read + Drop, W: Write + Drop, E: Write + Drop>(
    alloc: Global,
    script: ScriptOptions,
    streams: &mut Streams<'_, R, W, E>,
) -> u8
    requires { IsSound streams.old }
    ensures status { (result ≤ 3) × (result ≢ 2) }
    ensures done { result ≢ 1 → DidReplay None script (run R.remaining W.contents E.contents streams.old streams.new) result }
    ensures fault { (explain trace : Bool) → result ≡ 1 → DidPart (CommandLine.Replay script explain trace) (run R.remaining W.contents E.contents streams.old streams.new) }
    ensures named { result ≡ 1 → Names (run R.remaining W.contents E.contents streams.old streams.new) (λ _. ⊥) }
{
    let fault = match replayed(
        alloc,
        script.limits,
        &mut streams.reader,
        &mut streams.writer,
    ) {
        Ok(count) => return note(script, true, count, streams.errors),
        Err(fault) => fault,
    };
    fail(ProgramFault::of_run(fault), streams.errors)
}

/// Replays the script that is read, and says the note on each of its lines as it is answered.
fn replay_noted<R: Read + Drop, W: Write + Drop, E: Write + Drop>(
    alloc: Global,
    script: ScriptOptions,
    notes: Notes,
    streams: &mut Streams<'_, R, W, E>,
) -> u8
    requires { IsSound streams.old }
    ensures status { (result ≤ 3) × (result ≢ 2) }
    ensures done { result ≢ 1 → DidReplay (Some notes) script (run R.remaining W.contents E.contents streams.old streams.new) result }
    ensures fault { (explain trace : Bool) → result ≡ 1 → DidPart (CommandLine.Replay script explain trace) (run R.remaining W.contents E.contents streams.old streams.new) }
    ensures named { result ≡ 1 → NamesAfterNotes notes script (run R.remaining W.contents E.contents streams.old streams.new) }
{
    match replayed_noted(
        alloc,
        script.limits,
        notes,
        &mut streams.reader,
        &mut streams.writer,
        streams.errors,
    ) {
        Ok(count) => note(script, true, count, streams.errors),
        Err(reason) => fail(ProgramFault::of_noted(reason), streams.errors),
    }
}

/// Writes a random script.
fn generate<W: Write + Drop, E: Write + Drop>(
    alloc: Global,
    seed: Option<u32>,
    lines: Option<u32>,
    writer: &mut Watched<W>,
    errors: &mut Watched<E>,
) -> u8
    requires { writer.old.failed ≡ false }
    ensures status { result ≤ 1 }
    ensures done { result ≡ 0 → (text : List ℕ) × IsScript (lines_or lines) text × Appends (W.contents writer.old.inner) (W.contents writer.new.inner) text }
    ensures silent { result ≡ 0 → errors.new ≡ errors.old }
    ensures fault { result ≡ 1 → (writer.new ≡ writer.old)
        ⊎ WroteScriptPartly lines (W.contents writer.old.inner) (W.contents writer.new.inner) writer.new.failed }
    ensures named { result ≡ 1 → NamesAlone (E.contents errors.old.inner) (E.contents errors.new.inner) errors.new.failed writer.new.failed }
{
    match script_by(alloc, seed.unwrap_or(SEED), lines.unwrap_or(LINES)) {
        Ok(text) => tell(&text, writer, errors),
        Err(_) => fail(ProgramFault::Memory, errors),
    }
}

/// Shows the realm that the script which is read leaves, with notes on the refused lines, if these are to be explained.
fn show<R: Read + Drop, W: Write + Drop, E: Write + Drop>(
    alloc: Global,
    script: ScriptOptions,
    view: ViewOptions,
    lenient: bool,
    explain: bool,
    streams: &mut Streams<'_, R, W, E>,
) -> u8
    requires { IsSound streams.old }
    ensures status { (result ≤ 3) × (result ≢ 2) }
    ensures done { result ≢ 1 → DidWhole (CommandLine.Show script view lenient explain) (run R.remaining W.contents E.contents streams.old streams.new) result }
    ensures fault { result ≡ 1 → DidPart (CommandLine.Show script view lenient explain) (run R.remaining W.contents E.contents streams.old streams.new) }
    ensures named { result ≡ 1 → NamesOf (CommandLine.Show script view lenient explain) (run R.remaining W.contents E.contents streams.old streams.new) }
{
    if explain {
        show_noted(alloc, script, view, lenient, streams)
    } else {
        show_plainly(alloc, script, view, lenient, streams)
    }
}

/// Shows the realm that the script leaves.
fn show_plainly<R: Read + Drop, W: Write + Drop, E: Write + Drop>(
    alloc: Global,
    script: ScriptOptions,
    view: ViewOptions,
    lenient: bool,
    streams: &mut Streams<'_, R, W, E>,
) -> u8
    requires { IsSound streams.old }
    ensures status { (result ≤ 3) × (result ≢ 2) }
    ensures done { result ≢ 1 → DidWhole (CommandLine.Show script view lenient false) (run R.remaining W.contents E.contents streams.old streams.new) result }
    ensures fault { result ≡ 1 → DidPart (CommandLine.Show script view lenient false) (run R.remaining W.contents E.contents streams.old streams.new) }
    ensures named { result ≡ 1 → Names (run R.remaining W.contents E.contents streams.old streams.new) (λ _. ⊥) }
{
    match shown(
        alloc,
        script.limits,
        view_of(view),
        &mut streams.reader,
        &mut streams.writer,
    ) {
        Ok(shown) => tell_shown(script, lenient, &shown, &mut streams.writer, streams.errors),
        Err(cause) => fail(ProgramFault::of_run(cause), streams.errors),
    }
}

/// Shows the realm that the script leaves, and says before why its lines were refused.
fn show_noted<R: Read + Drop, W: Write + Drop, E: Write + Drop>(
    alloc: Global,
    script: ScriptOptions,
    view: ViewOptions,
    lenient: bool,
    streams: &mut Streams<'_, R, W, E>,
) -> u8
    requires { IsSound streams.old }
    ensures status { (result ≤ 3) × (result ≢ 2) }
    ensures done { result ≢ 1 → DidWhole (CommandLine.Show script view lenient true) (run R.remaining W.contents E.contents streams.old streams.new) result }
    ensures fault { result ≡ 1 → DidPart (CommandLine.Show script view lenient true) (run R.remaining W.contents E.contents streams.old streams.new) }
    ensures named { result ≡ 1 → NamesAfter (CommandLine.Show script view lenient true) (run R.remaining W.contents E.contents streams.old streams.new) }
{
    let wanted = Notes::Refusals;
    match shown_noted(
        alloc,
        script.limits,
        view_of(view),
        wanted,
        &mut streams.reader,
        &mut streams.writer,
        streams.errors,
    ) {
        Ok(shown) => tell_shown(script, lenient, &shown, &mut streams.writer, streams.errors),
        Err(reason) => fail(ProgramFault::of_noted(reason), streams.errors),
    }
}

/// Writes what is shown, and says how many lines were refused.
fn tell_shown<W: Write + Drop, E: Write + Drop>(
    script: ScriptOptions,
    lenient: bool,
    shown: &Rendering,
    writer: &mut Watched<W>,
    errors: &mut Watched<E>,
) -> u8
    ensures status { (result ≤ 3) × (result ≢ 2) }
    ensures done { result ≢ 1 → Appends (W.contents writer.old.inner) (W.contents writer.new.inner) (string_bytes shown.now.text) }
    ensures noted { result ≢ 1 → Noted script.quiet shown.now.count (errors.new ≡ errors.old) (E.contents errors.old.inner) (E.contents errors.new.inner) errors.new.failed }
    ensures told { result ≢ 1 → result ≡ status_of script.strict lenient shown.now.count }
    ensures fault { result ≡ 1 → AppendsPart (W.contents writer.old.inner) (W.contents writer.new.inner) (string_bytes shown.now.text) }
    ensures failed { result ≡ 1 → writer.new.failed ≡ true }
    ensures named { result ≡ 1 → IsSaid (line_of ProgramFault.Write) (E.contents errors.old.inner) (E.contents errors.new.inner) errors.new.failed }
{
    if tell(&shown.text, writer, errors) == FAULT {
        return FAULT;
    }
    note(script, lenient, shown.count, errors)
}

/// The view that the words ask for.
fn view_of(view: ViewOptions) -> View
    ensures { result ≡ view_of view }
{
    match view {
        ViewOptions::Dump(DumpFormat::First) => View::Dump,
        ViewOptions::Dump(DumpFormat::Second) => View::TimedDump,
        ViewOptions::Tree(tree) => View::Tree(tree_part(tree)),
        ViewOptions::Timeline(picture) => { View::Timeline(seen_of(picture), between_of(picture)) }
        ViewOptions::TraceEvents => View::TraceEvents,
        ViewOptions::Page => View::Page,
    }
}

/// The part of the tree that the words ask for.
fn tree_part(tree: TreeOptions) -> TreePart
    ensures { result ≡ tree_part tree }
{
    match tree {
        TreeOptions::Whole => TreePart::Whole,
        TreeOptions::Awaited => TreePart::Awaited,
        TreeOptions::Part { depth, scope } => TreePart::Levels {
            depth: depth.unwrap_or(LEVEL_LIMIT),
            scope,
        },
    }
}

/// What of a run the words ask for. Places are counted from 0, where people count events from 1.
fn seen_of(picture: PictureOptions) -> Seen
    ensures { result ≡ seen_of picture }
{
    let whole = Seen::whole();
    Seen {
        width: picture.width.unwrap_or(whole.width),
        rows: picture.rows.unwrap_or(whole.rows),
        from: place_or(picture.from, whole.from),
        to: place_or(picture.to, whole.to),
        scope: picture.scope,
    }
}

/// Between which moments the words ask for it.
fn between_of(picture: PictureOptions) -> Between
    ensures { result ≡ between_of picture }
{
    Between {
        since: picture.since,
        until: picture.until,
    }
}

/// The place of the event with this number, or else the other place.
fn place_or(number: Option<u32>, other: u32) -> u32
    ensures { result ≡ place_or number other }
{
    match number {
        Some(number) => number.saturating_sub(1),
        None => other,
    }
}

/// Serves the plan that is read, by the deadline if there is one, in milliseconds from now. The jobs of the
/// offers that are named take so long. Its realm is looked at, if that is asked for.
fn quote<
    N: RealmName + Send + Sync + 'static,
    S: Spawns<N, JobWork<Due, N, LateJob<T>>> + Drop,
    T: PoolRuntime + SystemTime,
    R: Read + Drop,
    W: Write + Drop,
    E: Write + Drop,
>(
    rt: &T,
    alloc: Global,
    seed: Seed,
    spawner: S,
    looks: &mut Looker<'_>,
    deadline: Option<u32>,
    after: Vec<Delay>,
    tree_after: Option<u32>,
    streams: &mut Streams<'_, R, W, E>,
) -> u8
    requires named { seed ≡ N.table }
    requires sound { IsSound streams.old }
    ensures status { result ≤ 1 }
    ensures done { result ≡ 0 → DidJob (CommandLine.Quote deadline after tree_after) (run R.remaining W.contents E.contents streams.old streams.new) }
    ensures silent { result ≡ 0 → streams.new.errors.now ≡ streams.old.errors.now }
    ensures fault { result ≡ 1 → DidPart (CommandLine.Quote deadline after tree_after) (run R.remaining W.contents E.contents streams.old streams.new) }
    ensures named { result ≡ 1 → NamesOfPlan deadline after.items (run R.remaining W.contents E.contents streams.old streams.new) }
{
    match quoted::<N, S, T, R>(
        rt,
        alloc,
        seed,
        spawner,
        looks,
        deadline,
        &after,
        tree_after,
        &mut streams.reader,
    ) {
        Ok(answer) => tell(&answer, &mut streams.writer, streams.errors),
        Err(reason) => fail(reason, streams.errors),
    }
}

/// Says how many lines of a script were refused, if that is to be said, and answers the status of a script that was
/// read to its end.
pub fn note<E: Write + Drop>(
    script: ScriptOptions,
    lenient: bool,
    count: Count,
    errors: &mut Watched<E>,
) -> u8
    ensures status { result ≡ status_of script.strict lenient count }
    ensures well { (result ≤ 3) × (result ≢ 1) × (result ≢ 2) }
    ensures noted { Noted script.quiet count (errors.new ≡ errors.old) (E.contents errors.old.inner) (E.contents errors.new.inner) errors.new.failed }
{
    if !is_silent(script.quiet, count) {
        say_count(count, errors);
    }
    status_of(script.strict, lenient, count)
}

/// Whether nothing is to be said of refused lines.
fn is_silent(quiet: bool, count: Count) -> bool
    ensures { result ≡ is_silent quiet count }
{
    quiet || count.tally.refused == 0
}

/// The status of a script that was read to its end.
fn status_of(strict: bool, lenient: bool, count: Count) -> u8
    ensures status { result ≡ status_of strict lenient count }
    ensures well { (result ≤ 3) × (result ≢ 1) × (result ≢ 2) }
{
    if strict {
        three_if_some(count.tally.refused)
    } else if lenient {
        DONE
    } else {
        three_if_some(count.tally.bad_words)
    }
}

/// The status if some lines make it `LINES_REFUSED`.
fn three_if_some(lines: u64) -> u8
    ensures status { result ≡ three_if_some lines }
    ensures well { (result ≤ 3) × (result ≢ 1) × (result ≢ 2) }
{
    if lines == 0 { DONE } else { LINES_REFUSED }
}

/// Says how many lines of a script were refused.
fn say_count<E: Write + Drop>(count: Count, errors: &mut Watched<E>)
    ensures { IsSaid (count_text count) (E.contents errors.old.inner) (E.contents errors.new.inner) errors.new.failed }
{
    say(count_text(count).as_str(), errors);
}

/// Writes the text that was asked for.
fn tell<W: Write + Drop, E: Write + Drop>(
    text: &str,
    writer: &mut Watched<W>,
    errors: &mut Watched<E>,
) -> u8
    ensures status { result ≤ 1 }
    ensures done { result ≡ 0 → Appends (W.contents writer.old.inner) (W.contents writer.new.inner) text.now }
    ensures silent { result ≡ 0 → errors.new ≡ errors.old }
    ensures fault { result ≡ 1 → AppendsPart (W.contents writer.old.inner) (W.contents writer.new.inner) text.now }
    ensures failed { result ≡ 1 → writer.new.failed ≡ true }
    ensures named { result ≡ 1 → IsSaid (line_of ProgramFault.Write) (E.contents errors.old.inner) (E.contents errors.new.inner) errors.new.failed }
{
    match writer.write_bytes(text.as_bytes()) {
        Ok(()) => DONE,
        Err(_) => fail(ProgramFault::Write, errors),
    }
}

/// Names the fault.
pub fn fail<E: Write + Drop>(fault: ProgramFault, errors: &mut Watched<E>) -> u8
    ensures status { result ≡ 1 }
    ensures named { IsSaid (line_of fault) (E.contents errors.old.inner) (E.contents errors.new.inner) errors.new.failed }
    ensures stays { errors.old.failed ≡ true → errors.new.failed ≡ true }
{
    say(fault.line().as_str(), errors);
    FAULT
}

/// Says the text on standard error, whose own failing is passed over.
fn say<E: Write + Drop>(text: &str, errors: &mut Watched<E>)
    ensures said { IsSaid text.now (E.contents errors.old.inner) (E.contents errors.new.inner) errors.new.failed }
    ensures stays { errors.old.failed ≡ true → errors.new.failed ≡ true }
{
    let _said = errors.write_bytes(text.as_bytes());
}
