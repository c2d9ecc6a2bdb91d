ghost use Rattle.std.specs.Prelude.{◌≡◌, false, true};
ghost use Rattle.join_rules.specs.Words.{meets};
ghost use Rattle.join_rules.specs.Entries.{AgreesWith, IsCallableOnShown, MayBeAsked};

use scope_rules::{Completion, Rule};

/// A caller's closure over all completions so far, the latest last. The caller makes the box.
pub type CompletionTest = Box<dyn Fn(&[Completion]) -> bool + Send>;

/// A caller's closure, with the rule that it agrees with.
#[derive(Drop)]
pub struct StoredTest {
    rule: Rule,
    test: CompletionTest,
    ghost callable: { IsCallableOnShown (CompletionTest.pre test) },
    ghost agrees: { AgreesWith rule (CompletionTest.post test) },
}

impl StoredTest {
    /// The rule that the closure agrees with.
    pub fn rule(&self) -> Rule
        ensures { result ≡ self.now.rule }
    {
        self.rule
    }

    /// What the closure answers of these completions: whether they meet its rule.
    pub fn ask(&self, completions: &[Completion]) -> bool
        requires { MayBeAsked completions.now }
        ensures { result ≡ meets self.now.rule completions.now }
    {
        (self.test)(completions)
    }
}

/// The test of a joiner that waits until a rule is met (JEP 505, `Joiner.allUntil`).
#[derive(Drop)]
pub enum UntilTest {
    /// The rule itself, which counts decide.
    Plain(Rule),
    /// A caller's closure that agrees with a rule. It is shown all completions.
    Closure(StoredTest),
}

impl UntilTest {
    ghost use Rattle.join_rules.specs.Joiners.{rule_of, has_closure};

    /// The test that asks the rule itself.
    pub fn plain(rule: Rule) -> UntilTest
        ensures rule { rule_of result ≡ rule }
        ensures closure { has_closure result ≡ false }
    {
        UntilTest::Plain(rule)
    }

    /// The test that asks the closure. On every list that it may be shown, of at most 65,536
    /// completions and the empty one too, the closure may be called, and has to answer whether the
    /// list meets the rule; of other lists nothing is asked.
    pub fn new(rule: Rule, test: CompletionTest) -> UntilTest
        requires callable { IsCallableOnShown (CompletionTest.pre test) }
        requires agrees { AgreesWith rule (CompletionTest.post test) }
        ensures rule { rule_of result ≡ rule }
        ensures closure { has_closure result ≡ true }
    {
        UntilTest::Closure(StoredTest { rule, test })
    }

    /// The rule that the test agrees with.
    pub fn rule(&self) -> Rule
        ensures { result ≡ rule_of self.now }
    {
        match self {
            Self::Plain(rule) => *rule,
            Self::Closure(stored) => stored.rule(),
        }
    }
}
