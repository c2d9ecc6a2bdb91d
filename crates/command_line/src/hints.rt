//! What is hinted at behind a usage error. No clause speaks of it: tests show the texts.
use crate::lines::{JOBS, Job};
use crate::settings::Setting;
use script_words::is_near;

/// What is hinted at.
#[derive(Clone, Copy)]
pub enum Hint {
    /// A sentence.
    Sentence(&'static str),
    /// One file is read at most by the job of this word.
    OneFile(&'static str),
    /// The option of this name is meant, by one whose name is near it.
    Meant(&'static str),
}

/// What a check reads.
const CHECK_INPUT: &str =
    "hint: one JOURNAL is read, and one file of ANSWERS: scopectl check <JOURNAL> [ANSWERS]";

/// A random script comes from nowhere.
const GENERATE_INPUT: &str = "hint: generate reads no FILE: scopectl generate [OPTIONS]";

/// Which options a quote has, and which it has not.
const QUOTE_OPTIONS: &str =
    "hint: quote has no limits to set; its options are --deadline, --after, --tree-after, --journal, --page and --color";

/// An option stands there once more.
const OPTION_ONCE: &str = "hint: this option stands once at most";

/// Options stand before the word of a job.
const OPTIONS_FIRST: &str = "hint: options stand behind the command: scopectl <COMMAND> [OPTIONS]";

/// The hint to words that are not understood, if there is one. The first is the program's name.
pub fn hint_for(words: &[&str]) -> Option<Hint> {
    let [_, command, rest @ ..] = words else {
        return None;
    };
    match Job::named(command) {
        Some(job) => hint_behind(job, command, rest),
        None if is_dashed(command) && rest.iter().any(|word| Job::named(word).is_some()) => {
            Some(Hint::Sentence(OPTIONS_FIRST))
        }
        None => None,
    }
}

// The first hint at words that stand behind the word `command` of the job.
fn hint_behind(job: Job, command: &str, words: &[&str]) -> Option<Hint> {
    let mut before = command;
    let mut files = file_count(job);
    for (place, word) in words.iter().enumerate() {
        if is_stray(job, before, word) {
            if files == 0 {
                return Some(input_hint(job));
            }
            files -= 1;
        } else if let Some(name) = long_name(word) {
            let hint = name_hint(job, &words[..place], name);
            if hint.is_some() {
                return hint;
            }
        }
        before = word;
    }
    None
}

// The hint at an option of this name, behind these words.
fn name_hint(job: Job, seen: &[&str], name: &str) -> Option<Hint> {
    if has_flag(job, name) || has_option(job, name) {
        let is_again = seen.iter().any(|word| long_name(word) == Some(name));
        return if is_again && name != Setting::After.name() {
            Some(Hint::Sentence(OPTION_ONCE))
        } else {
            None
        };
    }
    if matches!(job, Job::Quote) && ["scopes", "tasks", "load"].contains(&name) {
        return Some(Hint::Sentence(QUOTE_OPTIONS));
    }
    near_name(job, name).map(Hint::Meant)
}

// The name of an option of the job that one edit makes of the name.
fn near_name(job: Job, name: &str) -> Option<&'static str> {
    for setting in job.settings() {
        if !setting.stands_alone() && is_near(name.as_bytes(), setting.name().as_bytes()) {
            return Some(setting.name());
        }
    }
    for flag in job.flags() {
        if is_near(name.as_bytes(), flag.name().as_bytes()) {
            return Some(flag.name());
        }
    }
    None
}

// Whether the job has an option of this name that has a text.
fn has_option(job: Job, name: &str) -> bool {
    job.settings().iter().any(|setting| !setting.stands_alone() && setting.name() == name)
}

// Whether the job has an option of this name that has no text.
fn has_flag(job: Job, name: &str) -> bool {
    name == "help" || job.flags().iter().any(|flag| flag.name() == name)
}

// How many files may stand alone behind the word of the job.
fn file_count(job: Job) -> usize {
    job.settings()
        .iter()
        .filter(|setting| setting.stands_alone())
        .count()
}

// What is read in place of a stray word.
fn input_hint(job: Job) -> Hint {
    match job {
        Job::Check => Hint::Sentence(CHECK_INPUT),
        Job::Generate => Hint::Sentence(GENERATE_INPUT),
        _ => Hint::OneFile(job.word()),
    }
}

// Whether the word is not an option, and not the text of one, behind the word `before`. Behind `--` no
// word is one.
fn is_stray(job: Job, before: &str, word: &str) -> bool {
    before == "--" || (!is_dashed(word) && !may_take(job, before))
}

// Whether the word is an option with no `=`, whose text may stand in the word after it.
fn may_take(job: Job, word: &str) -> bool {
    match long_name(word) {
        Some(name) => !word.as_bytes().contains(&b'=') && !has_flag(job, name),
        None => is_dashed(word),
    }
}

// Whether the word is a hyphen and more: an option, or `--`.
fn is_dashed(word: &str) -> bool {
    matches!(word.as_bytes(), [b'-', _, ..])
}

// The name in `--name` or `--name=text`.
fn long_name(word: &str) -> Option<&str> {
    let option = word.strip_prefix("--")?;
    match option.split_once('=') {
        Some((name, _)) => Some(name),
        None => Some(option),
    }
}
