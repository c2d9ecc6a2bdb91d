//! The options of a job, and what they say.
ghost use Rattle.std.specs.Prelude.{◌≡◌, ◌≤◌, ◌⊎◌};
ghost use Rattle.command_line.specs.{Bool, IfErr, IfOk, IfSome, IsUsageOrMemory, None, Some, delay_of, delay_said, first_of, flag_name, format_by, format_said, found_of, given_in};
ghost use Rattle.command_line.specs.{greatest_of, has_in, is_digit, is_plain, list_all, name_of, number_by, numbers_by, numbers_of, option_map, picture_by, plain_number, rows_of, script_by};
ghost use Rattle.command_line.specs.{script_of, setting_number, tree_by, tree_said};

use crate::colors::ColorChoice;
use crate::faults::LineFault;
use clap::ArgMatches;
use scope_rules::types::capacity::{LEVEL_LIMIT, LOAD_LIMIT, SCOPE_LIMIT, TASK_LIMIT};
use scope_rules::{Limits, Name, ScopeId};
use std::alloc::Global;

/// How many milliseconds a day has.
pub const DAY_MILLIS: u32 = 86_400_000;

/// The greatest number by which a random script can be made.
pub const SEED_LIMIT: u32 = 4_294_967_295;

/// How many lines a random script may have.
pub const LINES_LIMIT: u32 = 1_000_000;

/// How many pixels wide a picture may be.
pub const WIDTH_LIMIT: u32 = 100_000;

/// How many rows a picture has at most: one for each scope and task.
pub const ROWS_LIMIT: u32 = 69_632;

/// The greatest moment of a reading, in milliseconds since the realm began.
pub const MOMENT_LIMIT: u32 = 4_294_967_295;

/// The greatest number that a scope can have: numbers go on when a realm is compacted.
pub const SCOPE_NUMBER_LIMIT: u32 = 4_294_967_295;

/// How many formats a dump has.
pub const FORMAT_LIMIT: u32 = 2;

/// What is said where `--awaited` stands beside an option that selects a part of the tree.
const AWAITED_ALONE: &str =
    "error: the argument '--awaited' cannot be used with '--depth <N>' or '--scope <S>'\n\nFor more information, try '--help'.\n";

/// What a job has with a text: an option, or a file that stands alone.
#[derive(Clone, Copy)]
pub enum Setting {
    /// How many scopes may be opened.
    Scopes,
    /// How many tasks may be forked.
    Tasks,
    /// How much load the realm takes.
    Load,
    /// After how many milliseconds a plan is answered by what is there.
    Deadline,
    /// Of which offer the job is to take time, and how many milliseconds.
    After,
    /// After how many milliseconds the tree of the plan's realm is said.
    TreeAfter,
    /// By which number a random script is made.
    Seed,
    /// How many lines a random script has.
    Lines,
    /// How many pixels wide a picture is.
    Width,
    /// How many rows a picture has before closed scopes are folded.
    Rows,
    /// The number of the first event that is shown, from 1.
    From,
    /// The number of the last event that is shown, from 1.
    To,
    /// From which moment on events are shown.
    Since,
    /// Until which moment events are shown.
    Until,
    /// Which scope alone is shown.
    Scope,
    /// How many levels of scopes are shown.
    Depth,
    /// In which format a dump is written.
    Format,
    /// The file with the replies that are expected.
    Expect,
    /// The file to which a plan's journal goes.
    Journal,
    /// The file to which a plan's page goes.
    Page,
    /// When output has colors.
    Color,
    /// The file that is read, which stands alone.
    File,
    /// The journal that is checked, which stands alone.
    Notes,
    /// The answers that are checked, which stand alone behind the journal.
    Answers,
}

impl Setting {
    /// The option's name, without its hyphens.
    pub fn name(self) -> &'static str
        ensures { result.now ≡ name_of self }
    {
        self.name_and_greatest().0
    }

    /// The greatest number that the option can say; 0 if it says none.
    pub fn greatest(self) -> u32
        ensures { result ≡ greatest_of self }
    {
        self.name_and_greatest().1
    }

    /// Each option's name and greatest number.
    fn name_and_greatest(self) -> (&'static str, u32)
        ensures name { result.0.now ≡ name_of self }
        ensures greatest { result.1 ≡ greatest_of self }
    {
        match self {
            Setting::Scopes => ("scopes", SCOPE_LIMIT),
            Setting::Tasks => ("tasks", TASK_LIMIT),
            Setting::Load => ("load", LOAD_LIMIT),
            Setting::Deadline => ("deadline", DAY_MILLIS),
            Setting::After => ("after", DAY_MILLIS),
            Setting::TreeAfter => ("tree-after", DAY_MILLIS),
            Setting::Seed => ("seed", SEED_LIMIT),
            Setting::Lines => ("lines", LINES_LIMIT),
            Setting::Width => ("width", WIDTH_LIMIT),
            Setting::Rows => ("rows", ROWS_LIMIT),
            Setting::From => ("from", LOAD_LIMIT),
            Setting::To => ("to", LOAD_LIMIT),
            Setting::Since => ("since", MOMENT_LIMIT),
            Setting::Until => ("until", MOMENT_LIMIT),
            Setting::Scope => ("scope", SCOPE_NUMBER_LIMIT),
            Setting::Depth => ("depth", LEVEL_LIMIT),
            Setting::Format => ("format", FORMAT_LIMIT),
            Setting::Expect => ("expect", 0),
            Setting::Journal => ("journal", 0),
            Setting::Page => ("page", 0),
            Setting::Color => ("color", 0),
            Setting::File => ("FILE", 0),
            Setting::Notes => ("JOURNAL", 0),
            Setting::Answers => ("ANSWERS", 0),
        }
    }

    /// How help and errors write what the option says.
    pub fn value_name(self) -> &'static str {
        match self {
            Setting::Deadline | Setting::TreeAfter | Setting::Since | Setting::Until => "MS",
            Setting::After => "NAME=MS",
            Setting::Width => "PX",
            Setting::Scope => "S",
            Setting::Color => "WHEN",
            Setting::Expect | Setting::Journal | Setting::Page | Setting::File => "FILE",
            Setting::Notes => "JOURNAL",
            Setting::Answers => "ANSWERS",
            _ => "N",
        }
    }

    /// Whether it is a file that stands alone, and no option.
    pub fn stands_alone(self) -> bool {
        matches!(self, Setting::File | Setting::Notes | Setting::Answers)
    }

    /// How errors say what is wanted before the numbers from 1 to the greatest.
    fn wanted(self) -> &'static str {
        match self {
            Setting::After => "the name of an offer, '=' and a decimal number",
            _ => "a decimal number",
        }
    }
}

/// An option of a job that has no text.
#[derive(Clone, Copy)]
pub enum Flag {
    /// The status is to tell that lines were refused.
    Strict,
    /// It is to be said why lines were refused.
    Explain,
    /// Each reply is to be said with its line.
    Trace,
    /// Nothing is to be said of how many lines were refused.
    Quiet,
    /// The status is to be 0 though lines are no commands.
    Lenient,
    /// Only what is waited for is to be shown.
    Awaited,
    /// Replies are to be JSON.
    Json,
}

impl Flag {
    /// The option's name, without its hyphens.
    pub fn name(self) -> &'static str
        ensures { result.now ≡ flag_name self }
    {
        match self {
            Flag::Strict => "strict",
            Flag::Explain => "explain",
            Flag::Trace => "trace",
            Flag::Quiet => "quiet",
            Flag::Lenient => "lenient",
            Flag::Awaited => "awaited",
            Flag::Json => "json",
        }
    }
}

/// How a script is run.
#[derive(Clone, Copy)]
pub struct ScriptOptions {
    /// The limits of its realm.
    pub limits: Limits,
    /// Whether the status is to tell that lines were refused.
    pub strict: bool,
    /// Whether nothing is to be said of how many lines were refused.
    pub quiet: bool,
}

/// What of a run is drawn, and how large, where options say it.
#[derive(Clone, Copy)]
pub struct PictureOptions {
    /// How many pixels wide the picture is.
    pub width: Option<u32>,
    /// With more rows than these, closed scopes are folded.
    pub rows: Option<u32>,
    /// The number of the first event that is drawn, from 1.
    pub from: Option<u32>,
    /// The number of the last one.
    pub to: Option<u32>,
    /// From which moment on events are drawn, in milliseconds.
    pub since: Option<u32>,
    /// Until which moment events are drawn.
    pub until: Option<u32>,
    /// The one scope that is drawn, with what lies in it.
    pub scope: Option<ScopeId>,
}

/// What of a tree is shown.
#[derive(Clone, Copy)]
pub enum TreeOptions {
    /// All of it.
    Whole,
    /// What is waited for alone.
    Awaited,
    /// A part of it.
    Part {
        /// How many levels of scopes are shown, if not all.
        depth: Option<u32>,
        /// The one scope that is shown, with what lies in it, if not all.
        scope: Option<ScopeId>,
    },
}

/// In which format a dump is written.
#[derive(Clone, Copy)]
pub enum DumpFormat {
    /// One line of JSON: the tree as it always was.
    First,
    /// With version, times, limits and load used.
    Second,
}

/// Where a command reads, and what becomes of what it writes.
#[derive(Clone, Copy)]
pub struct StreamOptions<'a> {
    /// The file that is read, if one is named.
    pub file: Option<&'a str>,
    /// The file with the replies that are expected, if replies are to be compared.
    pub expected: Option<&'a str>,
    /// The file to which a plan's journal goes, if it is to be kept.
    pub journal: Option<&'a str>,
    /// The file to which a plan's page goes, if one is wanted.
    pub page: Option<&'a str>,
    /// Whether replies are JSON.
    pub json: bool,
    /// Whether a journal is checked: its replies are not written.
    pub checked: bool,
    /// When output has colors.
    pub color: ColorChoice,
}

impl StreamOptions<'_> {
    /// Nothing is named, and nothing asked for.
    pub const NONE: StreamOptions<'static> = StreamOptions {
        file: None,
        expected: None,
        journal: None,
        page: None,
        json: false,
        checked: false,
        color: ColorChoice::Auto,
    };
}

/// A job of a plan's offer that is to take time.
#[derive(Clone, Copy)]
pub struct Delay {
    /// The offer's name.
    pub name: Name,
    /// How many milliseconds the job takes.
    pub millis: u32,
}

/// How the options of a job say that its script is run, if `--strict` and `--quiet` are such options.
///
/// # Errors
/// `Usage` if a number is none or too great, `Memory` if memory was refused.
pub fn script(alloc: Global, matches: &ArgMatches<'_>) -> Result<ScriptOptions, LineFault>
    ensures said { IfOk result (λ options.
        script_by (rows_of (found_of matches.now)) ≡ Some (script_of options)) }
    ensures refused { IfErr result (λ fault. (fault ≡ LineFault.Memory)
        ⊎ (script_by (rows_of (found_of matches.now)) ≡ None)) }
    ensures told { IfErr result IsUsageOrMemory }
{
    let limits = limits(alloc, matches)?;
    let strict = is_set(matches, Flag::Strict);
    let quiet = is_set(matches, Flag::Quiet);
    Ok(ScriptOptions {
        limits,
        strict,
        quiet,
    })
}

/// Whether the option was given, which is one of the job's: `clap` has a text for either case.
pub fn is_set(matches: &ArgMatches<'_>, flag: Flag) -> bool
    ensures { result ≡ has_in (rows_of (found_of matches.now)) flag }
{
    match text_of(matches, flag.name()) {
        Some(text) => text == "true",
        None => false,
    }
}

/// The text that the parse has for the option.
pub fn text_of<'a>(matches: &ArgMatches<'a>, name: &str) -> Option<&'a str>
    ensures { option_map (λ text. text.now) result ≡ first_of name.now (rows_of (found_of matches.now)) }
{
    matches.get_str(name)
}

/// The limits that the options of a job say, each the greatest if its option is not given.
///
/// # Errors
/// `Usage` if a number is none or too great, `Memory` if memory was refused.
fn limits(alloc: Global, matches: &ArgMatches<'_>) -> Result<Limits, LineFault>
    ensures said { IfOk result (λ limits. numbers_by (rows_of (found_of matches.now)) ≡ Some (numbers_of limits)) }
    ensures refused { IfErr result (λ fault. (fault ≡ LineFault.Memory) ⊎ (numbers_by (rows_of (found_of matches.now)) ≡ None)) }
    ensures told { IfErr result IsUsageOrMemory }
{
    let scopes = number(alloc, matches, Setting::Scopes)?;
    let tasks = number(alloc, matches, Setting::Tasks)?;
    let load = number(alloc, matches, Setting::Load)?;
    Ok(Limits {
        scopes,
        tasks,
        load,
    })
}

// The number of one option.
fn number(alloc: Global, matches: &ArgMatches<'_>, setting: Setting) -> Result<u32, LineFault>
    ensures said { IfOk result (λ number.
        setting_number setting (given_in (rows_of (found_of matches.now)) setting) ≡ Some number) }
    ensures within { 1 ≤ greatest_of setting → IfOk result (λ number. (1 ≤ number) × (number ≤ greatest_of setting)) }
    ensures refused { IfErr result (λ fault. (fault ≡ LineFault.Memory)
        ⊎ (setting_number setting (given_in (rows_of (found_of matches.now)) setting) ≡ None)) }
    ensures told { IfErr result IsUsageOrMemory }
{
    let Some(text) = text_of(matches, setting.name()) else {
        return Ok(setting.greatest());
    };
    match plain_number(text, setting.greatest()) {
        Some(number) => Ok(number),
        None => Err(refused_value(alloc, setting, text)),
    }
}

/// The number that the options of a job say by one of them that may be left out, if they say one.
///
/// # Errors
/// `Usage` if the number is none or too great, `Memory` if memory was refused.
pub fn number_if_given(
    alloc: Global,
    matches: &ArgMatches<'_>,
    setting: Setting,
) -> Result<Option<u32>, LineFault>
    ensures said { IfOk result (λ number.
        number_by setting (rows_of (found_of matches.now)) ≡ Some number) }
    ensures refused { IfErr result (λ fault. (fault ≡ LineFault.Memory)
        ⊎ (number_by setting (rows_of (found_of matches.now)) ≡ None)) }
    ensures told { IfErr result IsUsageOrMemory }
{
    let Some(text) = text_of(matches, setting.name()) else {
        return Ok(None);
    };
    match plain_number(text, setting.greatest()) {
        Some(number) => Ok(Some(number)),
        None => Err(refused_value(alloc, setting, text)),
    }
}

/// In which format the options of a job say that a dump is written: the first if they do not say it.
///
/// # Errors
/// `Usage` if the number is no format's, `Memory` if memory was refused.
pub fn format(alloc: Global, matches: &ArgMatches<'_>) -> Result<DumpFormat, LineFault>
    ensures said { IfOk result (λ format. format_by (rows_of (found_of matches.now)) ≡ Some format) }
    ensures refused { IfErr result (λ fault. (fault ≡ LineFault.Memory) ⊎ (format_by (rows_of (found_of matches.now)) ≡ None)) }
    ensures told { IfErr result IsUsageOrMemory }
{
    let number = number_if_given(alloc, matches, Setting::Format)?;
    Ok(format_said(number))
}

// The format that has this number: the first if none is given.
fn format_said(number: Option<u32>) -> DumpFormat
    ensures { result ≡ format_said number }
{
    match number {
        Some(2) => DumpFormat::Second,
        _ => DumpFormat::First,
    }
}

/// What of a run is drawn by the options of a job.
///
/// # Errors
/// `Usage` if a number is none or too great, `Memory` if memory was refused.
pub fn picture(alloc: Global, matches: &ArgMatches<'_>) -> Result<PictureOptions, LineFault>
    ensures said { IfOk result (λ picture. picture_by (rows_of (found_of matches.now)) ≡ Some picture) }
    ensures refused { IfErr result (λ fault. (fault ≡ LineFault.Memory) ⊎ (picture_by (rows_of (found_of matches.now)) ≡ None)) }
    ensures told { IfErr result IsUsageOrMemory }
{
    let width = number_if_given(alloc, matches, Setting::Width)?;
    let rows = number_if_given(alloc, matches, Setting::Rows)?;
    let from = number_if_given(alloc, matches, Setting::From)?;
    let to = number_if_given(alloc, matches, Setting::To)?;
    let since = number_if_given(alloc, matches, Setting::Since)?;
    let until = number_if_given(alloc, matches, Setting::Until)?;
    let scope = number_if_given(alloc, matches, Setting::Scope)?;
    Ok(PictureOptions {
        width,
        rows,
        from,
        to,
        since,
        until,
        scope,
    })
}

/// What of a tree is shown by the options of a job, if `--awaited` is such an option.
///
/// # Errors
/// `Usage` if a number is none or too great, `Memory` if memory was refused.
pub fn tree(alloc: Global, matches: &ArgMatches<'_>) -> Result<TreeOptions, LineFault>
    ensures said { IfOk result (λ tree.
        tree_by (rows_of (found_of matches.now)) ≡ Some tree) }
    ensures refused { IfErr result (λ fault. (fault ≡ LineFault.Memory)
        ⊎ (tree_by (rows_of (found_of matches.now)) ≡ None)) }
    ensures told { IfErr result IsUsageOrMemory }
{
    let depth = number_if_given(alloc, matches, Setting::Depth)?;
    let scope = number_if_given(alloc, matches, Setting::Scope)?;
    match tree_said(is_set(matches, Flag::Awaited), depth, scope) {
        Some(tree) => Ok(tree),
        None => Err(refused_words(alloc, AWAITED_ALONE)),
    }
}

// What of a tree these options say, if they may stand together.
fn tree_said(awaited: bool, depth: Option<u32>, scope: Option<ScopeId>) -> Option<TreeOptions>
    ensures { result ≡ tree_said awaited depth scope }
{
    match (awaited, depth, scope) {
        (false, None, None) => Some(TreeOptions::Whole),
        (true, None, None) => Some(TreeOptions::Awaited),
        (false, depth, scope) => Some(TreeOptions::Part { depth, scope }),
        (true, _, _) => None,
    }
}

/// The delay that a text NAME=MS says: the name before its first `=`, and the number after it.
pub fn delay_said(text: &str) -> Option<Delay>
    ensures { option_map delay_of result ≡ delay_said text.now }
{
    let (name, millis) = text.split_once('=')?;
    let name = Name::new(name.as_bytes())?;
    let millis = plain_number(millis, DAY_MILLIS)?;
    Some(Delay { name, millis })
}

// The number from 1 to `greatest` that the text writes plainly: in decimal, with no sign and no
// leading zero.
fn plain_number(text: &str, greatest: u32) -> Option<u32>
    ensures number { result ≡ plain_number greatest text.now }
    ensures within { IfSome result (λ number. (1 ≤ number) × (number ≤ greatest)) }
{
    if !is_plain(text) {
        return None;
    }
    match text.parse::<u32>() {
        Ok(number) if 1 <= number && number <= greatest => Some(number),
        _ => None,
    }
}

// Whether the text is of decimal digits, of which the first is not 0.
fn is_plain(text: &str) -> bool
    ensures { result ≡ is_plain text.now }
{
    let bytes = text.as_bytes();
    match bytes.first() {
        Some(first) => *first != b'0' && is_decimal(bytes),
        None => false,
    }
}

// Whether each byte is a decimal digit.
fn is_decimal(bytes: &[u8]) -> bool
    ensures { result ≡ list_all is_digit bytes.now }
{
    bytes.iter().all(|byte| b'0' <= *byte && *byte <= b'9')
}

/// What to say of a value that the option can not say.
pub fn refused_value(alloc: Global, setting: Setting, text: &str) -> LineFault
    ensures { IsUsageOrMemory result }
{
    let name = setting.name();
    let value = setting.value_name();
    let wanted = setting.wanted();
    let greatest = setting.greatest();
    let message = format!(in alloc;
        "error: invalid value '{text}' for '--{name} <{value}>': expected {wanted} from 1 to {greatest}\n\nFor more information, try '--help'.\n"
    );
    match message {
        Ok(message) => LineFault::Usage(message),
        Err(_) => LineFault::Memory,
    }
}

/// What to say of options that can not stand together.
pub fn refused_words(alloc: Global, text: &str) -> LineFault
    ensures { IsUsageOrMemory result }
{
    match String::from_str(alloc, text) {
        Ok(text) => LineFault::Usage(text),
        Err(_) => LineFault::Memory,
    }
}
