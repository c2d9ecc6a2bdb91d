//! The application as `clap` knows it: its commands and their options. Help and the version are texts of
//! our own (`help`).
ghost use Rattle.std.specs.Prelude.{◌≡◌};
ghost use Rattle.command_line.specs.{IfOk, all_jobs, app_of, command_of, false, flag_rule, help_command, map, out-Command as fields_of, program, rule_of, scopectl, setting_rule, with_jobs};
ghost use Rattle.command_line.specs.{with_rules, with_subcommand};

use crate::help;
use crate::lines::{JOBS, Job, TOPIC};
use crate::settings::{Flag, Setting};
use clap::{Arg, ArgAction, Command};
use std::alloc::{AllocError, Global};

/// The program with its commands.
///
/// # Errors
/// Where memory was refused.
pub fn application<'a>(alloc: Global) -> Result<Command<'a>, AllocError>
    ensures { IfOk result (λ command. app_of command ≡ scopectl) }
{
    let bare = program(alloc)?;
    with_jobs(alloc, bare, JOBS)
}

// The program without its jobs.
fn program<'a>(alloc: Global) -> Result<Command<'a>, AllocError>
    ensures { IfOk result (λ command. app_of command ≡ program) }
{
    let top = Command::new(alloc, "scopectl")
        .version(help::VERSION)
        .subcommand_required(true)
        .disable_help_subcommand(true);
    let with_help = top.subcommand(help_command(alloc)?)?;
    with_help.subcommand(Command::new(alloc, "version"))
}

// The word `help`, with the word of a command behind it.
fn help_command<'a>(alloc: Global) -> Result<Command<'a>, AllocError>
    ensures app { IfOk result (λ command. app_of command ≡ help_command) }
    ensures local { IfOk result (λ command. (fields_of command).has_globals ≡ false) }
{
    let topic = Arg::new(alloc, TOPIC).value_name(TOPIC);
    Command::new(alloc, "help").arg(topic)
}

// The program with the commands of these jobs.
#[tactic(auto, unfolding(crate::specs::Application::with_jobs))]
fn with_jobs<'a>(alloc: Global, bare: Command<'a>, jobs: &[Job]) -> Result<Command<'a>, AllocError>
    ensures { IfOk result (λ command. app_of command ≡ with_jobs (app_of bare.entry) jobs.now) }
{
    match jobs {
        [] => Ok(bare),
        [job, others @ ..] => {
            let with_one = with_job(alloc, bare, *job)?;
            with_jobs(alloc, with_one, others)
        }
    }
}

// The program with the command of one job more.
fn with_job<'a>(alloc: Global, bare: Command<'a>, job: Job) -> Result<Command<'a>, AllocError>
    ensures { IfOk result (λ app. app_of app ≡ with_subcommand (app_of bare.entry) (command_of job).top) }
{
    let command = command(alloc, job)?;
    bare.subcommand(command)
}

// The command of the job, with its options.
fn command<'a>(alloc: Global, job: Job) -> Result<Command<'a>, AllocError>
    ensures app { IfOk result (λ command. app_of command ≡ command_of job) }
    ensures local { IfOk result (λ command. (fields_of command).has_globals ≡ false) }
{
    let word: &'a str = job.word();
    let bare = Command::new(alloc, word);
    let with_texts = with_options(alloc, bare, job.settings())?;
    with_flags(alloc, with_texts, job.flags())
}

// The command with these options, each of which has a text.
#[tactic(auto, unfolding(crate::specs::Application::with_rules))]
fn with_options<'a>(
    alloc: Global,
    bare: Command<'a>,
    settings: &[Setting],
) -> Result<Command<'a>, AllocError>
    ensures app { IfOk result (λ command. app_of command ≡ with_rules (app_of bare.entry) (map setting_rule settings.now)) }
    ensures local { IfOk result (λ command. (fields_of command).has_globals ≡ (fields_of bare.entry).has_globals) }
{
    match settings {
        [] => Ok(bare),
        [setting, others @ ..] => {
            let with_one = bare.arg(option(alloc, *setting))?;
            with_options(alloc, with_one, others)
        }
    }
}

// The command with these options, none of which has a text.
#[tactic(auto, unfolding(crate::specs::Application::with_rules))]
fn with_flags<'a>(
    alloc: Global,
    bare: Command<'a>,
    flags: &[Flag],
) -> Result<Command<'a>, AllocError>
    ensures app { IfOk result (λ command. app_of command ≡ with_rules (app_of bare.entry) (map flag_rule flags.now)) }
    ensures local { IfOk result (λ command. (fields_of command).has_globals ≡ (fields_of bare.entry).has_globals) }
{
    match flags {
        [] => Ok(bare),
        [one, others @ ..] => {
            let with_one = bare.arg(flag(alloc, *one))?;
            with_flags(alloc, with_one, others)
        }
    }
}

// The option `--NAME VALUE`, or the file that stands alone.
fn option<'a>(alloc: Global, setting: Setting) -> Arg<'a>
    ensures rule { rule_of result ≡ setting_rule setting }
    ensures local { result.global ≡ false }
{
    let name: &'a str = setting.name();
    let value: &'a str = setting.value_name();
    let bare = Arg::new(alloc, name).value_name(value);
    match setting {
        Setting::File | Setting::Answers => bare,
        Setting::Notes => bare.required(true),
        Setting::After => bare.long(name).action(ArgAction::Append),
        _ => bare.long(name),
    }
}

// The option `--NAME`, which has no text.
fn flag<'a>(alloc: Global, flag: Flag) -> Arg<'a>
    ensures rule { rule_of result ≡ flag_rule flag }
    ensures local { result.global ≡ false }
{
    let name: &'a str = flag.name();
    Arg::new(alloc, name).long(name).action(ArgAction::SetTrue)
}
