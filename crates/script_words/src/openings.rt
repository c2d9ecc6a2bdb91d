ghost use Rattle.std.specs.Prelude.{◌≡◌, codes};
ghost use Rattle.script_words.specs.{AwaitOk, Writes, deadline_said, due_said, fields, flag_said, form_said, next_said, policy_said};
ghost use Rattle.script_words.specs.declared.keywords.Keyword.{Keyword};

use crate::commands::Line;
use crate::fields::next_field;
use crate::forms::tell;
use crate::joiners::{after, policy};
use crate::numbers::{moment, next_small};
use scope_rules::{Event, Expiry, Options, Policy};

/// `open A [JOINER] [deadline=N] [move-on] [shield]`
#[tactic(auto, unfolding(crate::specs::Forms::form_said))]
pub fn open(text: &[u8], line: &mut Line) -> Option<()>
    ensures { Writes result line.new (form_said Keyword.Open (fields text.now)) }
{
    let (actor, rest) = next_small(text)?;
    let (policy, rest) = policy_next(rest);
    let (deadline, rest) = deadline_next(rest);
    let (expiry, rest) = flag_next(b"move-on", Expiry::MoveOn, Expiry::Fail, rest);
    let (shield, rest) = flag_next(b"shield", true, false, rest);
    if next_field(rest).is_some() {
        return None;
    }
    let options = Options {
        deadline,
        shield,
        expiry,
    };
    tell(
        line,
        Event::Open {
            actor,
            policy,
            options,
        },
    )
}

/// The joiner, if one comes next and else `await-ok`, and the text after it.
#[tactic(auto, using(crate::proofs::OpeningSteps::at_end, crate::proofs::OpeningSteps::found, crate::proofs::OpeningSteps::left_out))]
fn policy_next(text: &[u8]) -> (Policy, &[u8])
    ensures { (result.0, fields result.1.now) ≡ next_said AwaitOk policy_said (fields text.now) }
{
    let Some((word, rest)) = next_field(text) else {
        return (Policy::AwaitOk, text);
    };
    match policy(word) {
        Some(policy) => (policy, rest),
        None => (Policy::AwaitOk, text),
    }
}

/// The deadline, if one comes next, and the text after it.
#[tactic(auto, using(crate::proofs::OpeningSteps::at_end, crate::proofs::OpeningSteps::found, crate::proofs::OpeningSteps::left_out))]
fn deadline_next(text: &[u8]) -> (Option<u64>, &[u8])
    ensures { (result.0, fields result.1.now) ≡ next_said None due_said (fields text.now) }
{
    let Some((word, rest)) = next_field(text) else {
        return (None, text);
    };
    match deadline(word) {
        Some(deadline) => (Some(deadline), rest),
        None => (None, text),
    }
}

/// The deadline that the word is.
pub fn deadline(word: &[u8]) -> Option<u64>
    ensures { result ≡ deadline_said word.now }
{
    moment(after(b"deadline=", word)?)
}

/// What holds if the flag comes next, or what does without it, and the text after it.
#[tactic(auto, using(crate::proofs::OpeningSteps::at_end, crate::proofs::OpeningSteps::found, crate::proofs::OpeningSteps::left_out))]
fn flag_next<'a, T: Copy>(flag: &[u8], there: T, without: T, text: &'a [u8]) -> (T, &'a [u8])
    ensures { (result.0, fields result.1.now) ≡ next_said without (flag_said flag.now there) (fields text.now) }
{
    let Some((word, rest)) = next_field(text) else {
        return (without, text);
    };
    if word == flag {
        (there, rest)
    } else {
        (without, text)
    }
}
