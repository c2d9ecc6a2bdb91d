//! The texts of the help and the version.
ghost use Rattle.std.specs.Prelude.{◌≡◌};
ghost use Rattle.command_line.specs.{has_help_word, help_in, help_of, help_of_job, map};

use crate::lines::Job;

/// The version, as `clap` is told it.
pub const VERSION: &str = "0.2.0";

/// What `scopectl --version` writes.
pub const VERSION_LINE: &str = "scopectl 0.2.0\n";

/// What `scopectl --help` writes.
pub const HELP: &str = "Replays scripts of commands on task scopes, by proved rules.

Usage: scopectl <COMMAND>

Commands:
  replay    Replay a script and write the replies
  check     Say whether the rules give the answers of a journal
  dump      Replay a script and write what is open at its end, as JSON
  tree      Replay a script and write what is open at its end, as text
  timeline  Replay a script and draw the run as an SVG picture
  trace     Replay a script and write the run as Chrome trace events
  page      Replay a script and write the run as a page for a browser
  quote     Ask the offers of a plan, on threads, and write the answer
  generate  Write a random script
  help      Print this message or the help of a command
  version   Print version

Scripts and plans are read from standard input, or from the FILE that is named.

Options:
  -h, --help     Print help
  -V, --version  Print version

Exit status:
  0  the script was read to its end, even if commands were refused; or the plan
     was answered
  1  standard error names the fault, such as scopectl: read
  2  the command line was not understood
  3  the script was read to its end, and lines were refused: with --strict any;
     in tree, timeline, trace and page any that is not a command, unless
     --lenient

For an example, try 'scopectl replay --help' or the help of another command.
";

/// The help of a job that runs a script: what it does and how it is called, its options, those of this job
/// alone, an example, and the statuses, with what the last one means.
macro_rules! script_help {
    ($begin:literal, $options:literal, $example:literal, $refused:literal) => {
        concat!(
            $begin,
            "
Options:
      --scopes <N>  How many scopes may be opened, 1 to 4096 [default: 4096]
      --tasks <N>   How many tasks may be forked, 1 to 65536 [default: 65536]
      --load <N>    How many units of load, 1 to 1048576 [default: 1048576]
      --strict      End with status 3 if lines were refused
      --quiet       Do not say how many lines were refused
",
            $options,
            "      --color <WHEN>
                    Color the output: auto, always or never [default: auto]
  -h, --help        Print help
",
            $example,
            "
Exit status:
  0  the script was read to its end, even if commands were refused
  1  standard error names the fault: scopectl: read, scopectl: write or
     scopectl: memory
  2  the command line was not understood
",
            $refused,
            "
If lines were refused, standard error says how many, and how many of them are
not commands. It also says so if no line of the input looks like one of a
script.
"
        )
    };
}

/// What `scopectl replay --help` writes.
pub const REPLAY_HELP: &str = script_help!(
    "Reads a script from FILE or standard input, one command per line, and writes
one reply per line to standard output. A line that is empty or begins with #
gets no reply.

Usage: scopectl replay [OPTIONS] [FILE]
",
    "      --explain     Explain each refused line on standard error
      --trace       Report each line with its reply on standard error
      --json        Write the replies as JSON
      --expect <F>  Compare the replies with those in file F, and write none
",
    "
Example: the script on the left gets the replies on the right.

  open 0 await    scope 1
  fork 0 1 a      task 1 thread
  start 1         started
  ok 1 7          finished
  join 0 1        outcome done
  close 0 1       closing
  closed 0 1      closed
",
    "  3  with --strict: the script was read to its end, and lines were refused; with
     --expect: the replies differ, and standard error has the first that does
"
);

/// What `scopectl check --help` writes.
pub const CHECK_HELP: &str =
    "Reads a journal or script from JOURNAL, and says whether the rules accept each
of its lines. With ANSWERS, a file with the reply to each line, it says whether
the rules give the same replies. It writes no replies.

Usage: scopectl check [OPTIONS] <JOURNAL> [ANSWERS]

Options:
      --color <WHEN>  Color the output: auto, always or never [default: auto]
  -h, --help          Print help

Example: a host kept a journal, and what it was answered.

  scopectl check run.journal run.answers

Exit status:
  0  no line is refused, and all replies are the same
  1  standard error names the fault: scopectl: read, scopectl: write or
     scopectl: memory
  2  the command line was not understood
  3  a line is refused, or replies differ: standard error names the first such
     line
";

/// What `scopectl dump --help` writes.
pub const DUMP_HELP: &str = script_help!(
    "Reads a script from FILE or standard input, one command per line, and writes no
replies. It then writes one line of JSON: the tree of the scopes that are not
closed. The tree shows the tasks of each scope, the scopes inside it and inside
its tasks, and why a scope is cancelled.

Format 1 is the tree as it always was. Format 2 has a version, and the limits
with the load that is used. If the script has times, it says since when each
scope is open and each task runs.

Usage: scopectl dump [OPTIONS] [FILE]
",
    "      --explain     Explain each refused line on standard error
      --format <N>  Write the dump in format N: 1 or 2 [default: 1]
",
    "
Example: the script

  open 0 all deadline=100
  fork 0 1 a

has this dump (one line, broken here to fit)

  {\"moment\":0,\"root\":{\"cause\":null,\"deadline\":100,\"expiry\":\"fail\",\"id\":1,
  \"inner\":null,\"joined\":false,\"joiner\":\"all\",\"owner\":0,\"shield\":false,
  \"stage\":\"open\",\"tasks\":[{\"id\":1,\"inner\":null,\"name\":\"a\",
  \"stage\":\"waiting\",\"state\":\"unavailable\"}]}}
",
    "  3  with --strict: the script was read to its end, and lines were refused
"
);

/// What `scopectl tree --help` writes.
pub const TREE_HELP: &str = script_help!(
    "Reads a script from FILE or standard input, one command per line, and writes no
replies. It then writes the tree of the scopes that are not closed, as text: one
indented line per scope or task.

Usage: scopectl tree [OPTIONS] [FILE]
",
    "      --explain     Explain each refused line on standard error
      --lenient     End with status 0 even if lines are not commands
      --awaited     Show the scopes that wait for tasks, the oldest first, and
                    these tasks alone
      --depth <N>   Show N levels of scopes, from 1 to 16
      --scope <S>   Show scope S alone, with what is inside it
",
    "
Example: the script

  open 0 all deadline=100
  fork 0 1 a

has this tree

  moment 0
  scope 1 open, of main, joins all, deadline 100, awaits 1 of 1
    task 1 a: waiting

With --awaited, --depth or --scope a last line sums up all that is open.
",
    "  3  the script was read to its end, and lines are not commands, unless with
     --lenient; or lines were refused, with --strict
"
);

/// What `scopectl timeline --help` writes.
pub const TIMELINE_HELP: &str = script_help!(
    "Reads a script from FILE or standard input, one command per line, and writes no
replies. It then draws the run as an SVG picture: a band per scope, a lane per
task, and events from left to right.

Usage: scopectl timeline [OPTIONS] [FILE]
",
    "      --explain     Explain each refused line on standard error
      --lenient     End with status 0 even if lines are not commands
      --width <PX>  How many pixels wide, up to 100000; at least 320 are drawn
                    [default: 1200]
      --rows <N>    Fold closed scopes if there are more than N rows, up to
                    69632 [default: 300]
      --from <N>    Begin at event N; the first event is 1
      --to <N>      End at event N
      --since <MS>  Begin at the first event at MS milliseconds or later
      --until <MS>  End at the last event by MS milliseconds; without lines
                    # at MS in the script there are no times
      --scope <S>   Draw scope S alone, with what is inside it
",
    "
Example: the journal of a service is a script too.

  scopectl timeline FILE > run.svg
",
    "  3  the script was read to its end, and lines are not commands, unless with
     --lenient; or lines were refused, with --strict
"
);

/// What `scopectl trace --help` writes.
pub const TRACE_HELP: &str = script_help!(
    "Reads a script from FILE or standard input, one command per line, and writes no
replies. It then writes the run as Chrome trace events (JSON): a slice per scope
and task, an instant per cancel.

Usage: scopectl trace [OPTIONS] [FILE]
",
    "      --explain     Explain each refused line on standard error
      --lenient     End with status 0 even if lines are not commands
",
    "
Example: look at a run in Perfetto or chrome://tracing.

  scopectl trace FILE > run.json
",
    "  3  the script was read to its end, and lines are not commands, unless with
     --lenient; or lines were refused, with --strict
"
);

/// What `scopectl page --help` writes.
pub const PAGE_HELP: &str = script_help!(
    "Reads a script from FILE or standard input, one command per line, and writes no
replies. It then writes the run as one HTML file, which asks for nothing from
anywhere: the tree at each event, why each cancel came, what a hang waits for.

Usage: scopectl page [OPTIONS] [FILE]
",
    "      --lenient     End with status 0 even if lines are not commands
",
    "
Example: look at a run in a browser.

  scopectl page FILE > run.html
",
    "  3  the script was read to its end, and lines are not commands, unless with
     --lenient; or lines were refused, with --strict
"
);

/// What `scopectl quote --help` writes.
pub const QUOTE_HELP: &str =
    "Reads a plan from FILE or standard input: a mode, and offers, each with a price
or a fault. Asks each offer in a task of its own, on threads, in one scope, and
writes the answer as one line.

Usage: scopectl quote [OPTIONS] [FILE]

Options:
      --deadline <MS>    After MS milliseconds, answer with the prices so far:
                         partial NAME=PRICE ..
      --after <NAME=MS>  Make the job of offer NAME take MS milliseconds, to try
                         a deadline; repeat it for other offers
      --tree-after <MS>  After MS milliseconds, write the tree of the plan's
                         realm to standard error, if the plan is still served
      --journal <FILE>   Write the journal of the run to FILE, a script, as it
                         grows
      --page <FILE>      Write the page of the run to FILE, once it has ended
      --color <WHEN>     Color the output: auto, always or never [default: auto]
  -h, --help             Print help

A plan is one of these modes, then up to 64 offers with different names. A line
that is empty or begins with # is skipped. A price is a number from 0 to
999999999999.

  mode best               the least price: best NAME PRICE; none if there is no
                          price
  mode all                all prices: all NAME=PRICE ..; or an offer that fails:
                          failed NAME FAULT
  mode first              any price: first NAME PRICE; if there is none, an
                          offer that fails: failed NAME FAULT; empty if there
                          are no offers
  offer NAME PRICE
  offer NAME fail FAULT

Example: the plan on the left gets the answer on the right.

  mode best       best b 899
  offer a 1200
  offer b 899

Example: with --deadline 50 --after b=600 the same plan gets the answer
partial a=1200.

Exit status:
  0  the plan was answered
  1  standard error names the fault: scopectl: plan line N: bad-word, if line N
     is the first bad one; or else scopectl: read, write, memory, time, after,
     rejected, cancelled or lost
  2  the command line was not understood
";

/// What `scopectl generate --help` writes.
pub const GENERATE_HELP: &str =
    "Writes a random script to standard output: commands of all forms, one per line.
The same number gives the same script, on any machine. Reads nothing.

Usage: scopectl generate [OPTIONS]

Options:
      --seed <N>      The number to make the script from, 1 to 4294967295
                      [default: 1]
      --lines <N>     How many lines to write, 1 to 1000000 [default: 100]
      --color <WHEN>  Color the output: auto, always or never [default: auto]
  -h, --help          Print help

Example: try another implementation on a random script.

  scopectl generate --seed 7 > script
  scopectl replay script > expected
  OTHER < script | diff expected -

Exit status:
  0  the script was written
  1  standard error names the fault: scopectl: write or scopectl: memory
  2  the command line was not understood
";

/// The help that the words ask for, of which the first is the program's name: of the job whose word stands next, or
/// behind `help`, and else of the program.
pub fn help_of(words: &[&str]) -> &'static str
    ensures { result.now ≡ help_of (map (λ word. word.now) words.now) }
{
    if has_help_word(words) {
        help_in(words, 2)
    } else {
        help_in(words, 1)
    }
}

// Whether the second word is `help`.
fn has_help_word(words: &[&str]) -> bool
    ensures { result ≡ has_help_word (map (λ word. word.now) words.now) }
{
    match words.get(1) {
        Some(command) => *command == "help",
        None => false,
    }
}

// The help of the job whose word stands at the place; of the program, if none does.
fn help_in(words: &[&str], place: usize) -> &'static str
    ensures { result.now ≡ help_in (map (λ word. word.now) words.now) place }
{
    let Some(word) = words.get(place) else {
        return HELP;
    };
    match Job::named(word) {
        Some(job) => help_of_job(job),
        None => HELP,
    }
}

// The help of a job.
fn help_of_job(job: Job) -> &'static str
    ensures { result.now ≡ help_of_job job }
{
    match job {
        Job::Replay => REPLAY_HELP,
        Job::Check => CHECK_HELP,
        Job::Dump => DUMP_HELP,
        Job::Tree => TREE_HELP,
        Job::Timeline => TIMELINE_HELP,
        Job::TraceEvents => TRACE_HELP,
        Job::Page => PAGE_HELP,
        Job::Quote => QUOTE_HELP,
        Job::Generate => GENERATE_HELP,
    }
}
