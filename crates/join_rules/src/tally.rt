ghost use Rattle.std.specs.Prelude.{[], ◌<◌, ◌≡◌};
ghost use Rattle.join_rules.specs.{EntryFits, TASK_LIMIT, counted, summand_of_end, totals_meet, totals_of};

use scope_rules::{Completion, End, Rule, Value};
use std::marker::Model;

/// What the completions so far come to, as far as the rules ask for it.
#[derive(Drop)]
pub struct Tally {
    failures: u32,
    successes: u32,
    first_failure: Option<Completion>,
    first_success: Option<Completion>,
    sum: i128,
}

impl Model for Tally {
    ghost use Rattle.std.specs.Prelude.{◌+◌};
    ghost use Rattle.join_rules.specs.Totals.{Totals, SumWithin};

    ghost Value = { Totals };

    ghost view = { λ t. record { completions = t.failures + t.successes; failures = t.failures; successes = t.successes; first_failure = t.first_failure; first_success = t.first_success; sum = t.sum } };

    ghost invariant = { λ t. SumWithin (t.failures + t.successes) t.sum };
}

impl Tally {
    /// The tally of no completion.
    #[tactic(auto, unfolding(crate::specs::Totals::totals_of, scope_rules::specs::Joining::total_of))]
    pub fn new() -> Tally
        ensures { result ≡ totals_of [] }
    {
        Tally {
            failures: 0,
            successes: 0,
            first_failure: None,
            first_success: None,
            sum: 0,
        }
    }

    /// Counts one completion more.
    #[tactic(auto, unfolding(crate::specs::Totals::counted))]
    pub fn count(&mut self, done: Completion)
        requires { self.old.completions < TASK_LIMIT }
        ensures counted { self.new ≡ counted self.old done }
        ensures fits { EntryFits done }
    {
        self.sum += i128::from(summand_of(&done.end));
        match done.end {
            Ok(_) => {
                self.successes += 1;
                self.first_success = self.first_success.or(Some(done));
            }
            Err(_) => {
                self.failures += 1;
                self.first_failure = self.first_failure.or(Some(done));
            }
        }
    }

    /// How many completions were counted.
    pub fn completions(&self) -> u32
        ensures { result ≡ self.now.completions }
    {
        self.failures + self.successes
    }

    /// How many completions failed.
    pub fn failures(&self) -> u32
        ensures { result ≡ self.now.failures }
    {
        self.failures
    }

    /// How many completions succeeded.
    pub fn successes(&self) -> u32
        ensures { result ≡ self.now.successes }
    {
        self.successes
    }

    /// The first completion that failed.
    pub fn first_failure(&self) -> Option<Completion>
        ensures { result ≡ self.now.first_failure }
    {
        self.first_failure
    }

    /// The first completion that succeeded.
    pub fn first_success(&self) -> Option<Completion>
        ensures { result ≡ self.now.first_success }
    {
        self.first_success
    }

    /// Whether the completions meet the rule.
    #[tactic(auto, unfolding(crate::specs::Totals::totals_meet))]
    pub fn meets(&self, rule: &Rule) -> bool
        ensures { result ≡ totals_meet rule.now self.now }
    {
        match rule {
            Rule::FailuresAtLeast(limit) => self.failures >= *limit,
            Rule::SuccessesAtLeast(limit) => self.successes >= *limit,
            Rule::SumAtLeast(limit) => self.sum >= i128::from(*limit),
        }
    }
}

/// What the end adds to the sum: its number, if it is one.
fn summand_of(end: &End) -> i64
    ensures { result ≡ summand_of_end end.now }
{
    match end {
        Ok(Value::Num(number)) => *number,
        _ => 0,
    }
}
