//! From where a line's job reads, and what is said before it does.
ghost use Rattle.scopectl.specs.{IsRead, map};

use crate::act::{DONE, FAULT, LINES_REFUSED, NOT_UNDERSTOOD, fail, note, refuse_words};
use crate::checking::first_finding;
use crate::fault::ProgramFault;
use crate::json::Replies;
use crate::looks::Looker;
use crate::streams::{Kept, Streams};
use crate::threads::act_on;
use command_line::{Asked, CommandLine, LineFault, ScriptOptions, StreamOptions, line};
use scope_script::Watched;
use script_jobs::{Notes, Saves, first_difference, prompted};
use std::alloc::Global;
use std::io::{ErrorKind, Read, Write};
use std::rt::{Clock as SystemTime, Files};
use std::{fs, io};
use thread_pool::PoolRuntime;

/// The one line that is said at a prompt.
pub const PROMPT_GREETING: &str =
    "scopectl: reading from the terminal; type help for help, quit or Ctrl-D to end\n";

/// The one line that is said where any other job reads a terminal.
pub const GREETING: &str =
    "scopectl: reading from the terminal, line by line; Ctrl-D ends the input. For help: scopectl help\n";

/// What the words of a line say.
#[derive(Drop)]
pub struct Parsed<'a> {
    /// The command, or why there is none.
    pub said: Result<CommandLine, LineFault>,
    /// Where the command reads, and what becomes of what it writes.
    pub streams: StreamOptions<'a>,
}

/// Reads the words of a line, of which the first is the program's name.
pub fn read_words<'a>(alloc: Global, words: &'a [&'a str]) -> Parsed<'a>
    ensures { IsRead (map (λ word. word.now) words.entry.now) result.said }
{
    match line(alloc, words) {
        Ok(Asked { command, streams }) => Parsed {
            said: Ok(command),
            streams,
        },
        Err(fault) => Parsed {
            said: Err(fault),
            streams: StreamOptions::NONE,
        },
    }
}

/// How a script that a person types is replayed.
#[derive(Clone, Copy)]
pub struct Prompted {
    script: ScriptOptions,
    trace: bool,
}

/// How the script is replayed if the words say a replay that isn't quiet.
fn prompted_by(command: &CommandLine) -> Option<Prompted> {
    match *command {
        CommandLine::Replay { script, trace, .. } if !script.quiet => {
            Some(Prompted { script, trace })
        }
        _ => None,
    }
}

/// Saves what a person types.
#[derive(Drop)]
pub struct Saver<F> {
    pub files: F,
}

impl<F: Files> Saves for Saver<F> {
    fn save(&mut self, name: &str, lines: &[u8]) -> bool {
        fs::write(&self.files, name, lines).is_ok()
    }
}

/// Replays what a person types at a terminal, with a prompt, and answers the exit status. Refused lines are explained.
pub fn act_prompted<R: Read + Drop, W: Write + Drop, E: Write + Drop, S: Saves + Drop>(
    alloc: Global,
    how: Prompted,
    input: R,
    output: W,
    errors: &mut Watched<E>,
    saver: &mut S,
) -> u8 {
    let mut reader = Watched::new(input);
    let mut writer = Watched::new(output);
    let notes = if how.trace {
        Notes::All
    } else {
        Notes::Refusals
    };
    let limits = how.script.limits;
    match prompted(
        alloc,
        limits,
        notes,
        &mut reader,
        &mut writer,
        errors,
        saver,
    ) {
        Ok(count) => note(how.script, true, count, errors),
        Err(reason) => fail(ProgramFault::of_noted(reason), errors),
    }
}

/// From where a line's job reads.
#[derive(Drop)]
pub enum Input<F: Drop> {
    /// From standard input, of which a terminal is to be greeted or not, and is to get a prompt if a script is replayed.
    Standard {
        greets: bool,
        prompts: Option<Prompted>,
    },
    /// From a file.
    File(F),
    /// From nowhere: it can't be read, which was said, and this is the status.
    Refused(u8),
}

/// From where the command reads: from the file that is named, or from standard input if none is, or `-`. If the words say
/// no command, or one that reads nothing, nothing is opened.
pub fn input_of<R: Files, E: Write + Drop>(
    files: &R,
    alloc: Global,
    said: &Result<CommandLine, LineFault>,
    file: Option<&str>,
    errors: &mut Watched<E>,
) -> Input<R::File> {
    let Some(command) = reading(said) else {
        return Input::Standard {
            greets: false,
            prompts: None,
        };
    };
    let greets = !is_quiet(command);
    let prompts = prompted_by(command);
    match file {
        Some(path) if path != "-" => match opened(files, path) {
            Ok(file) => Input::File(file),
            Err(error) => Input::Refused(refuse_file(alloc, path, error.kind(), errors)),
        },
        _ => match fs::metadata(files, "/dev/stdin") {
            Ok(status) if status.is_dir() => {
                let kind = ErrorKind::IsADirectory;
                Input::Refused(refuse_file(alloc, "standard input", kind, errors))
            }
            _ => Input::Standard { greets, prompts },
        },
    }
}

/// The command, if the words say one that reads.
fn reading(said: &Result<CommandLine, LineFault>) -> Option<&CommandLine> {
    match said {
        Ok(CommandLine::Generate { .. }) => None,
        Ok(command) => Some(command),
        Err(_) => None,
    }
}

/// Does what the words say on this input, and answers the exit status. The replies are written, or checked, or compared
/// if some are expected.
pub fn act_by<T: PoolRuntime + SystemTime, R: Read + Drop, W: Write + Drop, E: Write + Drop>(
    rt: &T,
    alloc: Global,
    looks: &mut Looker<'_>,
    words: &[&str],
    parsed: Parsed<'_>,
    input: R,
    expected: Expected,
    output: W,
    errors: &mut Watched<E>,
) -> u8
    requires { IsRead (map (λ word. word.now) words.now) parsed.said }
{
    let Parsed { said, streams } = parsed;
    if streams.checked {
        return act_checked(
            rt, alloc, looks, words, said, input, expected, output, errors,
        );
    }
    match expected {
        Expected::Nothing => act_from(rt, alloc, looks, words, said, input, output, errors),
        Expected::Replies(text) => act_compared(
            rt,
            alloc,
            looks,
            words,
            said,
            input,
            &text,
            streams.json,
            errors,
        ),
        Expected::Refused(status) => status,
    }
}

/// Does what the words say on this input, and answers the exit status.
fn act_from<T: PoolRuntime + SystemTime, R: Read + Drop, W: Write + Drop, E: Write + Drop>(
    rt: &T,
    alloc: Global,
    looks: &mut Looker<'_>,
    words: &[&str],
    said: Result<CommandLine, LineFault>,
    input: R,
    output: W,
    errors: &mut Watched<E>,
) -> u8
    requires { IsRead (map (λ word. word.now) words.now) said }
{
    let mut streams = Streams::new(input, output, errors);
    act_on(rt, alloc, looks, words, said, &mut streams)
}

/// Checks the journal that is read, and answers the exit status: 3 if the rules refuse a line, or answer it otherwise than
/// the host was. The first such line is said.
fn act_checked<T: PoolRuntime + SystemTime, R: Read + Drop, W: Write + Drop, E: Write + Drop>(
    rt: &T,
    alloc: Global,
    looks: &mut Looker<'_>,
    words: &[&str],
    said: Result<CommandLine, LineFault>,
    input: R,
    expected: Expected,
    output: W,
    errors: &mut Watched<E>,
) -> u8
    requires { IsRead (map (λ word. word.now) words.now) said }
{
    let mut journal = Vec::new(alloc);
    let mut reader = input;
    if let Err(error) = reader.read_to_end(&mut journal) {
        return refuse_reading(error.kind(), errors);
    }
    let mut streams = Streams::new(journal.as_slice(), Kept::new(alloc), errors);
    let status = act_on(rt, alloc, looks, words, said, &mut streams);
    if status == FAULT || status == NOT_UNDERSTOOD {
        return status;
    }
    let Streams { writer, errors, .. } = streams;
    let replies = writer.into_inner();
    if !replies.is_whole {
        return fail(ProgramFault::Memory, errors);
    }
    let answers = match &expected {
        Expected::Replies(text) => Some(text.as_slice()),
        _ => None,
    };
    match first_finding(&journal, &replies.text, answers) {
        Some(finding) => match finding.text(alloc) {
            Ok(text) => {
                let _said = errors.write_bytes(text.as_bytes());
                LINES_REFUSED
            }
            Err(_) => refuse_words(ErrorKind::OutOfMemory, errors),
        },
        None => tell_checked(alloc, &replies.text, output, errors),
    }
}

/// Says that so many lines were answered as by the rules.
fn tell_checked<W: Write + Drop, E: Write + Drop>(
    alloc: Global,
    replies: &[u8],
    output: W,
    errors: &mut Watched<E>,
) -> u8 {
    let count = replies.iter().filter(|byte| **byte == b'\n').count();
    let Ok(text) = format!(in alloc; "check: {count} lines, each answered as by the rules\n") else {
        return fail(ProgramFault::Memory, errors);
    };
    match Watched::new(output).write_bytes(text.as_bytes()) {
        Ok(()) => DONE,
        Err(_) => fail(ProgramFault::Write, errors),
    }
}

/// Says that the journal can't be read.
fn refuse_reading<E: Write + Drop>(kind: ErrorKind, errors: &mut Watched<E>) -> u8 {
    if kind == ErrorKind::OutOfMemory {
        fail(ProgramFault::Memory, errors)
    } else {
        fail(ProgramFault::Read, errors)
    }
}

/// With what the replies are to be compared.
#[derive(Drop)]
pub enum Expected {
    /// With nothing: they are written.
    Nothing,
    /// With this text.
    Replies(Vec<u8>),
    /// With a file that can't be read, which was said, and this is the status.
    Refused(u8),
}

/// With what the replies are to be compared if the words say a command and this file was named: with what is in it.
pub fn expected_of<R: Files, E: Write + Drop>(
    files: &R,
    alloc: Global,
    file: Option<&str>,
    errors: &mut Watched<E>,
) -> Expected {
    let Some(path) = file else {
        return Expected::Nothing;
    };
    let mut text = Vec::new(alloc);
    match read_into(files, path, &mut text) {
        Ok(()) => Expected::Replies(text),
        Err(error) => Expected::Refused(refuse_file(alloc, path, error.kind(), errors)),
    }
}

/// Appends what is in the file.
fn read_into<R: Files>(files: &R, path: &str, text: &mut Vec<u8>) -> io::Result<()> {
    let mut file = opened(files, path)?;
    file.read_to_end(text)?;
    Ok(())
}

/// Does what the words say on this input but for writing the replies: these are compared with the expected ones. The
/// first line that differs is said, and the status is 3 if one does.
fn act_compared<T: PoolRuntime + SystemTime, R: Read + Drop, E: Write + Drop>(
    rt: &T,
    alloc: Global,
    looks: &mut Looker<'_>,
    words: &[&str],
    said: Result<CommandLine, LineFault>,
    input: R,
    expected: &[u8],
    json: bool,
    errors: &mut Watched<E>,
) -> u8
    requires { IsRead (map (λ word. word.now) words.now) said }
{
    let replies = Replies::new(json, Kept::new(alloc));
    let mut streams = Streams::new(input, replies, errors);
    let status = act_on(rt, alloc, looks, words, said, &mut streams);
    if status == FAULT || status == NOT_UNDERSTOOD {
        return status;
    }
    let Streams { writer, errors, .. } = streams;
    let replies = writer.into_inner().into_inner();
    if !replies.is_whole {
        return fail(ProgramFault::Memory, errors);
    }
    let Some(difference) = first_difference(expected, &replies.text) else {
        return status;
    };
    match format!(in alloc; "scopectl: the replies differ from those expected at {difference}") {
        Ok(text) => {
            let _said = errors.write_bytes(text.as_bytes());
            LINES_REFUSED
        }
        Err(_) => refuse_words(ErrorKind::OutOfMemory, errors),
    }
}

/// Whether the words want nothing said but what they ask for.
fn is_quiet(command: &CommandLine) -> bool {
    match command {
        CommandLine::Replay { script, .. } | CommandLine::Show { script, .. } => script.quiet,
        CommandLine::Quote { .. } => false,
        CommandLine::Generate { .. } => true,
    }
}

/// The file, which is no directory.
fn opened<R: Files>(files: &R, path: &str) -> io::Result<R::File> {
    if fs::metadata(files, path)?.is_dir() {
        return Err(ErrorKind::IsADirectory.into());
    }
    fs::open(files, path)
}

/// Says why the file can't be read, and answers the status.
fn refuse_file<E: Write + Drop>(
    alloc: Global,
    path: &str,
    kind: ErrorKind,
    errors: &mut Watched<E>,
) -> u8 {
    let why = match kind {
        ErrorKind::OutOfMemory => return refuse_words(kind, errors),
        ErrorKind::NotFound => "no such file",
        ErrorKind::PermissionDenied => "permission denied",
        ErrorKind::IsADirectory => "is a directory",
        _ => "can't be opened",
    };
    match format!(in alloc; "scopectl: read\nhint: {path}: {why}\n") {
        Ok(text) => {
            let _said = errors.write_bytes(text.as_bytes());
            FAULT
        }
        Err(_) => refuse_words(ErrorKind::OutOfMemory, errors),
    }
}
