//! `scopectl` replays scripts of commands on task scopes, shows what they leave, and serves plans of offers on
//! threads.
#![tactic(auto)]

mod act;
mod checking;
mod colours;
mod fault;
mod json;
mod looks;
mod opening;
mod pipes;
mod quoting;
mod streams;
mod threads;

ghost use Rattle.scopectl.specs.{IsRead, map};

use colours::Coloured;
use command_line::{ColorChoice, CommandLine, ViewOptions};
use json::Replies;
use looks::{Looker, Wanted};
use opening::{
    Expected, GREETING, Input, PROMPT_GREETING, Parsed, Saver, act_by, act_prompted, expected_of,
    input_of, read_words,
};
use pipes::{Messages, Output};
use scope_script::Watched;
use std::cell::Cell;
use std::io::{ErrorKind, IsTerminal};
use std::process::ExitCode;
use std::rt::Clock as SystemTime;
use std::{env, io};
use thread_pool::PoolRuntime;
use threads::borrowed;

fn main(rt: HostRuntime) -> ExitCode {
    let alloc = rt.alloc();
    let owned = match words_of_the_line(&rt) {
        Ok(owned) => owned,
        Err(error) => return refused(&rt, error.kind()),
    };
    let Ok(words) = borrowed(alloc, &owned) else {
        return refused(&rt, ErrorKind::OutOfMemory);
    };
    ExitCode::from(run(&rt, &rt, &words))
}

/// The words of the command line, of which the first is the program's name.
fn words_of_the_line(rt: &HostRuntime) -> io::Result<Vec<String>> {
    Ok(std::env::args(rt)?.collect(rt.alloc())?)
}

/// Says that the words could not be had.
fn refused(rt: &HostRuntime, kind: ErrorKind) -> ExitCode {
    ExitCode::from(act::refuse_words(kind, &mut Watched::new(rt.stderr())))
}

/// Whether the output of a command is for people, so that it may get colour.
fn is_for_people(parsed: &Parsed<'_>) -> bool {
    if parsed.streams.json {
        return false;
    }
    matches!(
        &parsed.said,
        Ok(
            CommandLine::Replay { .. }
                | CommandLine::Show {
                    view: ViewOptions::Tree(_),
                    ..
                }
        )
    )
}

/// Whether a stream gets colour.
fn is_coloured(rt: &HostRuntime, choice: ColorChoice, is_terminal: bool) -> bool {
    match choice {
        ColorChoice::Always => true,
        ColorChoice::Never => false,
        ColorChoice::Auto => is_terminal && !has_no_color(rt),
    }
}

/// Whether the environment asks for no colour: `NO_COLOR` is set, and not empty.
fn has_no_color(rt: &HostRuntime) -> bool {
    match env::var(rt, "NO_COLOR") {
        Ok(text) => !text.is_empty(),
        Err(_) => false,
    }
}

/// Does what the words say, and answers the exit status.
fn run<'a, T: PoolRuntime + SystemTime>(rt: &T, host: &HostRuntime, words: &'a [&'a str]) -> u8 {
    let alloc = host.alloc();
    let broken = Cell::new(false);
    let parsed = read_words(alloc, words);
    let shade = parsed.streams.color;
    let mut errors = Watched::new(Messages {
        inner: Coloured {
            inner: host.stderr(),
            is_coloured: is_coloured(host, shade, host.stderr().is_terminal()),
        },
        broken: &broken,
    });
    let output = Output {
        inner: Coloured {
            inner: host.stdout(),
            is_coloured: is_for_people(&parsed)
                && is_coloured(host, shade, host.stdout().is_terminal()),
        },
        broken: &broken,
    };
    let replies = Replies::new(parsed.streams.json, output);
    let wanted = Wanted {
        journal: parsed.streams.journal,
        page: parsed.streams.page,
    };
    let mut looker = Looker::new(*host, wanted);
    let status = run_on(rt, host, words, parsed, &mut looker, replies, &mut errors);
    looker.status(status, &mut errors)
}

/// Does what was read of the words, with this output, and answers the exit status.
fn run_on<T: PoolRuntime + SystemTime, W: io::Write + Drop, E: io::Write + Drop>(
    rt: &T,
    host: &HostRuntime,
    words: &[&str],
    parsed: Parsed<'_>,
    looker: &mut Looker<'_>,
    output: W,
    errors: &mut Watched<E>,
) -> u8
    requires { IsRead (map (λ word. word.now) words.now) parsed.said }
{
    let alloc = host.alloc();
    let expected = match expected_of(host, alloc, parsed.streams.expected, errors) {
        Expected::Refused(status) => return status,
        expected => expected,
    };
    match input_of(host, alloc, &parsed.said, parsed.streams.file, errors) {
        Input::Standard { greets, prompts } => {
            let input = host.reader();
            let is_terminal = input.is_terminal();
            match (prompts, expected) {
                (Some(how), Expected::Nothing) if is_terminal => {
                    let _said = errors.write_bytes(PROMPT_GREETING.as_bytes());
                    let mut saver = Saver { files: *host };
                    act_prompted(alloc, how, input, output, errors, &mut saver)
                }
                (_, expected) => {
                    if greets && is_terminal {
                        let _said = errors.write_bytes(GREETING.as_bytes());
                    }
                    act_by(
                        rt, alloc, looker, words, parsed, input, expected, output, errors,
                    )
                }
            }
        }
        Input::File(file) => act_by(
            rt, alloc, looker, words, parsed, file, expected, output, errors,
        ),
        Input::Refused(status) => status,
    }
}
