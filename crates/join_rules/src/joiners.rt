ghost use Rattle.std.specs.Prelude.{◌≡◌, true};
ghost use Rattle.join_rules.specs.{Until};

use crate::until::{StoredTest, UntilTest};
use scope_rules::Policy;

/// What a scope's join waits for, and which completion cancels the scope (JEP 505, `Joiner`).
#[derive(Drop)]
pub enum Joiner {
    /// `allSuccessfulOrThrow`: a failure cancels.
    All,
    /// `anySuccessfulResultOrThrow`: a success cancels.
    Any,
    /// `awaitAll`: nothing cancels.
    AwaitAll,
    /// `awaitAllSuccessfulOrThrow`: a failure cancels.
    AwaitOk,
    /// `allUntil`: a completion at which the test answers yes cancels.
    Until(UntilTest),
}

impl Joiner {
    ghost use Rattle.join_rules.specs.Joiners.{policy_of, asks_closure};

    /// The joiner as plain data.
    pub fn policy(&self) -> Policy
        ensures { result ≡ policy_of self.now }
    {
        match self {
            Joiner::All => Policy::All,
            Joiner::Any => Policy::Any,
            Joiner::AwaitAll => Policy::AwaitAll,
            Joiner::AwaitOk => Policy::AwaitOk,
            Joiner::Until(test) => Policy::Until(test.rule()),
        }
    }

    /// Whether the joiner asks a closure of the caller's, which `into_test` gives.
    pub fn asks_closure(&self) -> bool
        ensures { result ≡ asks_closure self.now }
    {
        match self {
            Joiner::Until(UntilTest::Closure(_)) => true,
            _ => false,
        }
    }

    /// The closure of the caller's that the joiner asks. What else there is of the joiner is plain data,
    /// which `policy` tells.
    pub fn into_test(self) -> StoredTest
        requires { asks_closure self ≡ true }
        ensures { policy_of self ≡ Until result.rule }
    {
        match self {
            Joiner::Until(UntilTest::Closure(stored)) => stored,
            _ => unreachable!(),
        }
    }
}
