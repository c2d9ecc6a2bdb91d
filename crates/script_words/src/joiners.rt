ghost use Rattle.std.specs.Prelude.{◌≡◌, option_copied};
ghost use Rattle.script_words.specs.{after, failures_said, policy_said, rule_said, successes_said, sum_said};

use crate::numbers::{integer, small};
use scope_rules::{Policy, Rule};

/// The joiner that the word is.
#[tactic(auto, unfolding(crate::specs::Joiners::policy_said))]
pub fn policy(word: &[u8]) -> Option<Policy>
    ensures { result ≡ policy_said word.now }
{
    if word == b"all".as_slice() {
        return Some(Policy::All);
    }
    if word == b"any".as_slice() {
        return Some(Policy::Any);
    }
    if word == b"await".as_slice() {
        return Some(Policy::AwaitAll);
    }
    if word == b"await-ok".as_slice() {
        return Some(Policy::AwaitOk);
    }
    Some(Policy::Until(rule(word)?))
}

/// The rule that the word is.
#[tactic(auto, unfolding(crate::specs::Joiners::rule_said))]
fn rule(word: &[u8]) -> Option<Rule>
    ensures { result ≡ rule_said word.now }
{
    failures(word).or(successes(word)).or(sum(word))
}

/// `until:fail:n`
fn failures(word: &[u8]) -> Option<Rule>
    ensures { result ≡ failures_said word.now }
{
    let count = small(after(b"until:fail:", word)?)?;
    Some(Rule::FailuresAtLeast(count))
}

/// `until:ok:n`
fn successes(word: &[u8]) -> Option<Rule>
    ensures { result ≡ successes_said word.now }
{
    let count = small(after(b"until:ok:", word)?)?;
    Some(Rule::SuccessesAtLeast(count))
}

/// `until:sum:n`, if n may be below 0
fn sum(word: &[u8]) -> Option<Rule>
    ensures { result ≡ sum_said word.now }
{
    let sum = integer(after(b"until:sum:", word)?)?;
    Some(Rule::SumAtLeast(sum))
}

/// What is after the prefix, in a word that begins with it.
#[tactic(auto, unfolding(crate::specs::Joiners::after))]
pub fn after<'a>(prefix: &[u8], word: &'a [u8]) -> Option<&'a [u8]>
    ensures { option_copied result ≡ after prefix.now word.now }
{
    word.strip_prefix(prefix)
}
