//! From the program's words to the command that they say.
ghost use Rattle.std.specs.Prelude.{◌≡◌, ◌⊎◌};
ghost use Rattle.command_line.specs.{IfErr, IfOk, IsUsageOrMemory, None, Some, TellsEntered, TellsWord, all_jobs, command_word, entered_says, expected_of, file_of, flags_of, found_of};
ghost use Rattle.command_line.specs.{has_in, is_check, is_hyphen, job_named, line_said, map, option_map, rows_of, rows_say, said_by, said_of, settings_of, show_by, streams_by, streams_of};
ghost use Rattle.command_line.specs.{subcommand_rows_of, value_of};
ghost use Rattle.command_line.specs.Faults.{Answers};

use crate::colors::color_choice;
use crate::delays::delays;
use crate::faults::LineFault;
use crate::hints::hint_for;
use crate::settings::{
    Delay, DumpFormat, Flag, PictureOptions, ScriptOptions, Setting, StreamOptions, TreeOptions,
};
use crate::{application, settings};
use clap::ArgMatches;
use scope_rules::Limits;
use std::alloc::Global;

/// What a line says: a command, and its streams.
#[derive(Drop)]
pub struct Asked<'a> {
    /// What the program is to do.
    pub command: CommandLine,
    /// Where it reads, and what becomes of what it writes.
    pub streams: StreamOptions<'a>,
}

/// What a command line tells the program to do.
#[derive(Drop)]
pub enum CommandLine {
    /// Replays the script on standard input, and writes the replies.
    Replay {
        script: ScriptOptions,
        /// Whether it is to be said why lines were refused.
        explain: bool,
        /// Whether each line is to be said with its reply.
        trace: bool,
    },
    /// Runs the script on standard input without replies, and shows what it leaves.
    Show {
        script: ScriptOptions,
        view: ViewOptions,
        /// Whether the status is 0 though lines are no commands.
        lenient: bool,
        /// Whether it is to be said why lines were refused.
        explain: bool,
    },
    /// Serves the plan on standard input, and writes the answer.
    Quote {
        /// After how many milliseconds the plan is answered by what is there, if it is.
        deadline: Option<u32>,
        /// Which jobs of the plan are to take time, each of another offer.
        after: Vec<Delay>,
        /// After how many milliseconds the tree of the plan's realm is said, if it is served so long.
        tree_after: Option<u32>,
    },
    /// Writes a random script.
    Generate {
        /// By which number it is made, if one is given.
        seed: Option<u32>,
        /// How many lines it has, if that is given.
        lines: Option<u32>,
    },
}

/// What is shown of what a script leaves.
#[derive(Clone, Copy)]
pub enum ViewOptions {
    /// The tree of the scopes that are not closed, as JSON.
    Dump(DumpFormat),
    /// The same tree, as text for a terminal.
    Tree(TreeOptions),
    /// A picture of the run.
    Timeline(PictureOptions),
    /// The run as Chrome trace events.
    TraceEvents,
    /// The run as a page for a browser.
    Page,
}

/// The jobs, each of which has a word.
#[derive(Clone, Copy)]
pub enum Job {
    Replay,
    Check,
    Dump,
    Tree,
    Timeline,
    TraceEvents,
    Page,
    Quote,
    Generate,
}

/// All jobs, in the order of help.
pub const JOBS: &[Job] = &[
    Job::Replay,
    Job::Check,
    Job::Dump,
    Job::Tree,
    Job::Timeline,
    Job::TraceEvents,
    Job::Page,
    Job::Quote,
    Job::Generate,
];

impl Job {
    /// The word that says the job on a command line.
    pub fn word(self) -> &'static str
        ensures { result.now ≡ command_word self }
    {
        match self {
            Job::Replay => "replay",
            Job::Check => "check",
            Job::Dump => "dump",
            Job::Tree => "tree",
            Job::Timeline => "timeline",
            Job::TraceEvents => "trace",
            Job::Page => "page",
            Job::Quote => "quote",
            Job::Generate => "generate",
        }
    }

    /// What the job has with a text: options, and files that stand alone.
    pub fn settings(self) -> &'static [Setting]
        ensures { result.now ≡ settings_of self }
    {
        match self {
            Job::Replay => &[
                Setting::Scopes,
                Setting::Tasks,
                Setting::Load,
                Setting::Expect,
                Setting::Color,
                Setting::File,
            ],
            Job::Check => &[Setting::Color, Setting::Notes, Setting::Answers],
            Job::Dump => &[
                Setting::Scopes,
                Setting::Tasks,
                Setting::Load,
                Setting::Format,
                Setting::Color,
                Setting::File,
            ],
            Job::Tree => &[
                Setting::Scopes,
                Setting::Tasks,
                Setting::Load,
                Setting::Depth,
                Setting::Scope,
                Setting::Color,
                Setting::File,
            ],
            Job::Timeline => &[
                Setting::Scopes,
                Setting::Tasks,
                Setting::Load,
                Setting::Width,
                Setting::Rows,
                Setting::From,
                Setting::To,
                Setting::Since,
                Setting::Until,
                Setting::Scope,
                Setting::Color,
                Setting::File,
            ],
            Job::TraceEvents | Job::Page => &[
                Setting::Scopes,
                Setting::Tasks,
                Setting::Load,
                Setting::Color,
                Setting::File,
            ],
            Job::Quote => &[
                Setting::Deadline,
                Setting::After,
                Setting::TreeAfter,
                Setting::Journal,
                Setting::Page,
                Setting::Color,
                Setting::File,
            ],
            Job::Generate => &[Setting::Seed, Setting::Lines, Setting::Color],
        }
    }

    /// The options without a text that the job has.
    pub fn flags(self) -> &'static [Flag]
        ensures { result.now ≡ flags_of self }
    {
        match self {
            Job::Replay => &[
                Flag::Strict,
                Flag::Quiet,
                Flag::Explain,
                Flag::Trace,
                Flag::Json,
            ],
            Job::Dump => &[Flag::Strict, Flag::Quiet, Flag::Explain],
            Job::Tree => &[
                Flag::Strict,
                Flag::Quiet,
                Flag::Explain,
                Flag::Lenient,
                Flag::Awaited,
            ],
            Job::Timeline | Job::TraceEvents => {
                &[Flag::Strict, Flag::Quiet, Flag::Explain, Flag::Lenient]
            }
            Job::Page => &[Flag::Strict, Flag::Quiet, Flag::Lenient],
            Job::Check | Job::Quote | Job::Generate => &[],
        }
    }

    /// The job that has this word.
    #[tactic(auto, unfolding(crate::specs::Jobs::job_named))]
    pub fn named(word: &str) -> Option<Job>
        ensures { result ≡ job_named word.now }
    {
        if word == "replay" {
            Some(Job::Replay)
        } else if word == "check" {
            Some(Job::Check)
        } else if word == "dump" {
            Some(Job::Dump)
        } else if word == "tree" {
            Some(Job::Tree)
        } else if word == "timeline" {
            Some(Job::Timeline)
        } else if word == "trace" {
            Some(Job::TraceEvents)
        } else if word == "page" {
            Some(Job::Page)
        } else if word == "quote" {
            Some(Job::Quote)
        } else if word == "generate" {
            Some(Job::Generate)
        } else {
            None
        }
    }

    /// The file that the job reads.
    fn file(self) -> Setting
        ensures { result ≡ file_of self }
    {
        match self {
            Job::Check => Setting::Notes,
            _ => Setting::File,
        }
    }

    /// The file with the replies that the job is to have.
    fn expected(self) -> Setting
        ensures { result ≡ expected_of self }
    {
        match self {
            Job::Check => Setting::Answers,
            _ => Setting::Expect,
        }
    }

    /// Whether the job checks a journal.
    fn is_check(self) -> bool
        ensures { result ≡ is_check self }
    {
        matches!(self, Job::Check)
    }
}

/// What the words say, of which the first is the program's name. A limit whose option is not given is the greatest
/// that it can be.
///
/// # Errors
/// `Help` and `Version` if the words ask for them, `Usage` if the words are not understood,
/// `Memory` if memory was refused.
pub fn line<'a>(alloc: Global, words: &'a [&'a str]) -> Result<Asked<'a>, LineFault>
    ensures said { IfOk result (λ line. line_said (map (λ word. word.now) words.entry.now) ≡ Some (value_of line)) }
    ensures refused { IfErr result (λ fault. (fault ≡ LineFault.Memory)
        ⊎ (line_said (map (λ word. word.now) words.entry.now) ≡ None)) }
    ensures answers { IfErr result (Answers (map (λ word. word.now) words.entry.now)) }
{
    let application = application::application(alloc)?;
    match application.try_get_matches_from(words) {
        Ok(matches) => entered(alloc, &matches),
        Err(error) => Err(LineFault::of_parse(alloc, &error, hint_for(words))),
    }
}

// What the command says that a parse entered.
fn entered<'a>(alloc: Global, matches: &ArgMatches<'a>) -> Result<Asked<'a>, LineFault>
    ensures said { IfOk result (λ line. entered_says (subcommand_rows_of matches.now) ≡ Some (value_of line)) }
    ensures refused { IfErr result (λ fault. (fault ≡ LineFault.Memory) ⊎ (entered_says (subcommand_rows_of matches.now) ≡ None)) }
    ensures told { IfErr result (TellsEntered (subcommand_rows_of matches.now)) }
{
    let Some((word, options)) = matches.subcommand() else {
        return Err(settings::refused_words(alloc, NO_COMMAND));
    };
    match Job::named(word) {
        Some(job) => job_line(alloc, job, options),
        None => Err(told(alloc, word, options)),
    }
}

// What is said of words without a command. `clap` says it first.
const NO_COMMAND: &str = "error: a command is missing\n\nFor more information, try '--help'.\n";

/// The word of a command behind `help`, as a parse knows it.
pub const TOPIC: &str = "COMMAND";

// What is told of a command that is no job: help, the version, or that help knows no such command.
fn told(alloc: Global, word: &str, options: &ArgMatches<'_>) -> LineFault
    ensures { TellsWord word.now result }
{
    if word == "version" {
        LineFault::Version
    } else if word == "help" {
        match settings::text_of(options, TOPIC) {
            Some(topic) if !has_help(topic) => refused_topic(alloc, topic),
            _ => LineFault::Help,
        }
    } else {
        settings::refused_words(alloc, NO_COMMAND)
    }
}

// Whether there is help for the word.
fn has_help(word: &str) -> bool {
    word == "help" || word == "version" || Job::named(word).is_some()
}

// What is said of a word that is no command, behind `help`.
fn refused_topic(alloc: Global, topic: &str) -> LineFault
    ensures { IsUsageOrMemory result }
{
    let message = format!(in alloc;
        "error: unrecognized subcommand '{topic}'\n\nFor more information, try '--help'.\n"
    );
    match message {
        Ok(message) => LineFault::Usage(message),
        Err(_) => LineFault::Memory,
    }
}

// What the line of a job says.
fn job_line<'a>(alloc: Global, job: Job, options: &ArgMatches<'a>) -> Result<Asked<'a>, LineFault>
    ensures said { IfOk result (λ line. rows_say job (rows_of (found_of options.now)) ≡ Some (value_of line)) }
    ensures refused { IfErr result (λ fault. (fault ≡ LineFault.Memory) ⊎ (rows_say job (rows_of (found_of options.now)) ≡ None)) }
    ensures told { IfErr result IsUsageOrMemory }
{
    let streams = streams(alloc, job, options)?;
    let command = said(alloc, job, options)?;
    Ok(Asked { command, streams })
}

// Where a job reads, and what becomes of what it writes.
fn streams<'a>(
    alloc: Global,
    job: Job,
    options: &ArgMatches<'a>,
) -> Result<StreamOptions<'a>, LineFault>
    ensures said { IfOk result (λ streams. streams_by job (rows_of (found_of options.now)) ≡ Some (streams_of streams)) }
    ensures refused { IfErr result (λ fault. (fault ≡ LineFault.Memory) ⊎ (streams_by job (rows_of (found_of options.now)) ≡ None)) }
    ensures told { IfErr result IsUsageOrMemory }
{
    let color = color_choice(alloc, settings::text_of(options, Setting::Color.name()))?;
    let expected = settings::text_of(options, job.expected().name());
    let journal = settings::text_of(options, Setting::Journal.name());
    let page = settings::text_of(options, Setting::Page.name());
    if is_hyphen(expected) || is_hyphen(journal) || is_hyphen(page) {
        return Err(settings::refused_words(alloc, NO_FILE));
    }
    Ok(StreamOptions {
        file: settings::text_of(options, job.file().name()),
        expected,
        journal,
        page,
        json: settings::is_set(options, Flag::Json),
        checked: job.is_check(),
        color,
    })
}

// What is said of a hyphen where a file is wanted.
const NO_FILE: &str =
    "error: '-' is standard input, and names no file here\n\nFor more information, try '--help'.\n";

// Whether the text is a hyphen alone, which stands for standard input.
fn is_hyphen(text: Option<&str>) -> bool
    ensures { result ≡ is_hyphen (option_map (λ t. t.now) text.entry) }
{
    match text {
        Some(text) => text == "-",
        None => false,
    }
}

// What the options of the job say.
fn said(alloc: Global, job: Job, options: &ArgMatches<'_>) -> Result<CommandLine, LineFault>
    ensures said { IfOk result (λ command. said_by job (rows_of (found_of options.now)) ≡ Some (said_of command)) }
    ensures refused { IfErr result (λ fault. (fault ≡ LineFault.Memory) ⊎ (said_by job (rows_of (found_of options.now)) ≡ None)) }
    ensures told { IfErr result IsUsageOrMemory }
{
    match job {
        Job::Replay => {
            let script = settings::script(alloc, options)?;
            let explain = settings::is_set(options, Flag::Explain);
            let trace = settings::is_set(options, Flag::Trace);
            Ok(CommandLine::Replay {
                script,
                explain,
                trace,
            })
        }
        Job::Check => Ok(CommandLine::Replay {
            script: CHECKED,
            explain: false,
            trace: false,
        }),
        Job::Dump => {
            let format = settings::format(alloc, options)?;
            shown(alloc, options, ViewOptions::Dump(format), true)
        }
        Job::Tree => {
            let tree = settings::tree(alloc, options)?;
            shown_by(alloc, options, ViewOptions::Tree(tree))
        }
        Job::Timeline => {
            let picture = settings::picture(alloc, options)?;
            shown_by(alloc, options, ViewOptions::Timeline(picture))
        }
        Job::TraceEvents => shown_by(alloc, options, ViewOptions::TraceEvents),
        Job::Page => shown_by(alloc, options, ViewOptions::Page),
        Job::Quote => {
            let deadline = settings::number_if_given(alloc, options, Setting::Deadline)?;
            let after = delays(alloc, options)?;
            let tree_after = settings::number_if_given(alloc, options, Setting::TreeAfter)?;
            Ok(CommandLine::Quote {
                deadline,
                after,
                tree_after,
            })
        }
        Job::Generate => {
            let seed = settings::number_if_given(alloc, options, Setting::Seed)?;
            let lines = settings::number_if_given(alloc, options, Setting::Lines)?;
            Ok(CommandLine::Generate { seed, lines })
        }
    }
}

// How a journal is checked.
const CHECKED: ScriptOptions = ScriptOptions {
    limits: Limits::GREATEST,
    strict: true,
    quiet: true,
};

// What the options of a view say, which is lenient if its option says so.
fn shown_by(
    alloc: Global,
    options: &ArgMatches<'_>,
    view: ViewOptions,
) -> Result<CommandLine, LineFault>
    ensures said { IfOk result (λ command. show_by (rows_of (found_of options.now)) (Some view) (has_in (rows_of (found_of options.now)) Flag.Lenient) ≡ Some (said_of command)) }
    ensures refused { IfErr result (λ fault. (fault ≡ LineFault.Memory)
        ⊎ (show_by (rows_of (found_of options.now)) (Some view) (has_in (rows_of (found_of options.now)) Flag.Lenient) ≡ None)) }
    ensures told { IfErr result IsUsageOrMemory }
{
    let lenient = settings::is_set(options, Flag::Lenient);
    shown(alloc, options, view, lenient)
}

// What the options of a view say, which is lenient or not.
fn shown(
    alloc: Global,
    options: &ArgMatches<'_>,
    view: ViewOptions,
    lenient: bool,
) -> Result<CommandLine, LineFault>
    ensures said { IfOk result (λ command. show_by (rows_of (found_of options.now)) (Some view) lenient ≡ Some (said_of command)) }
    ensures refused { IfErr result (λ fault. (fault ≡ LineFault.Memory)
        ⊎ (show_by (rows_of (found_of options.now)) (Some view) lenient ≡ None)) }
    ensures told { IfErr result IsUsageOrMemory }
{
    let script = settings::script(alloc, options)?;
    let explain = settings::is_set(options, Flag::Explain);
    Ok(CommandLine::Show {
        script,
        view,
        lenient,
        explain,
    })
}
