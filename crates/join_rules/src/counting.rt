ghost use Rattle.std.specs.Prelude.{[], ℕ, ◌++◌, ◌+◌, ◌<◌, ◌∷◌, ◌≡◌, ◌≤◌, IfOk, IsOk, List, OnErr, OnOk, count_by, false, is_some, length, true};
ghost use Rattle.join_rules.specs.Words.{Completion, ForSome, TASK_LIMIT, Until, find, fires, has_failed, has_succeeded};
ghost use Rattle.join_rules.specs.{JoinerStanding.HasRoom, JoinerStanding.SameButRoom, JoinerStanding.SameJoiner, JoinerStanding.StandsFor, Joiners.asks_closure, Joiners.policy_of};

use crate::account::JoinerAccount;
use crate::joiners::Joiner;
use crate::until::StoredTest;
use scope_rules::{Completion, Policy};
use std::alloc::{AllocError, Global};

/// How far a joiner has come: what it keeps of the completions that it was handed.
#[derive(Drop)]
pub struct Progress {
    account: JoinerAccount,
    test: Option<StoredTest>,
    ghost listed: { is_some test ≡ account.has_closure },
    ghost ruled: { ForSome test (λ t. account.policy ≡ Until t.rule) },
}

impl Progress {
    ghost use Rattle.join_rules.specs.Progress.{standing_of};

    /// The progress of a joiner that was handed no completion yet. It takes no memory.
    pub fn new(alloc: Global, joiner: Joiner) -> Progress
        ensures policy { (standing_of result).policy ≡ policy_of joiner }
        ensures closure { (standing_of result).has_closure ≡ asks_closure joiner }
        ensures completions { (standing_of result).totals.completions ≡ 0 }
        ensures stands { StandsFor (standing_of result) [] }
    {
        let policy = joiner.policy();
        let listed = joiner.asks_closure();
        Progress {
            account: JoinerAccount::new(alloc, policy, listed),
            test: if listed {
                Some(joiner.into_test())
            } else {
                None
            },
        }
    }

    /// Makes room for so many more completions. Memory is taken only if a closure is asked.
    pub fn reserve(&mut self, additional: usize) -> Result<(), AllocError>
        ensures ok { OnOk result (HasRoom (standing_of self.new) additional) }
        ensures kept { SameButRoom (standing_of self.old) (standing_of self.new) }
        ensures room { (n : ℕ) → HasRoom (standing_of self.old) n → HasRoom (standing_of self.new) n }
        ensures unlisted { (standing_of self.old).has_closure ≡ false → IsOk result }
        ensures err { OnErr result (standing_of self.new ≡ standing_of self.old) }
    {
        self.account.reserve(additional)
    }

    /// Hands in one completion more, the latest, and says whether the joiner cancels the scope at it.
    pub fn completed(&mut self, done: Completion) -> Result<bool, AllocError>
        requires { (standing_of self.old).totals.completions < TASK_LIMIT }

        // The answer is right for every list that the progress stood for, and it then stands for
        // that list with the new completion last.
        ensures fires { IfOk result (λ cancels. (list : List Completion) → StandsFor (standing_of self.old) list → cancels ≡ fires (standing_of self.old).policy (list ++ done ∷ [])) }
        ensures stands { OnOk result ((list : List Completion) → StandsFor (standing_of self.old) list → StandsFor (standing_of self.new) (list ++ done ∷ [])) }
        ensures completions { OnOk result ((standing_of self.new).totals.completions ≡ (standing_of self.old).totals.completions + 1) }
        ensures room { OnOk result ((n : ℕ) → HasRoom (standing_of self.old) (n + 1) → HasRoom (standing_of self.new) n) }
        ensures joiner { SameJoiner (standing_of self.old) (standing_of self.new) }

        // It is refused only for want of room, and never if no closure is asked. Nothing changes
        // then.
        ensures succeeds { HasRoom (standing_of self.old) 1 → IsOk result }
        ensures unlisted { (standing_of self.old).has_closure ≡ false → IsOk result }
        ensures err { OnErr result (standing_of self.new ≡ standing_of self.old) }
    {
        self.account.count(done)?;
        Ok(self.fires())
    }

    /// The joiner as plain data.
    pub fn policy(&self) -> Policy
        ensures { result ≡ (standing_of self.now).policy }
    {
        self.account.policy()
    }

    /// How many completions were handed in.
    pub fn completions(&self) -> u32
        ensures kept { result ≡ (standing_of self.now).totals.completions }
        ensures listed { (list : List Completion) → StandsFor (standing_of self.now) list → result ≡ length list }
    {
        self.account.completions()
    }

    /// How many completions failed.
    pub fn failures(&self) -> u32
        ensures kept { result ≡ (standing_of self.now).totals.failures }
        ensures listed { (list : List Completion) → StandsFor (standing_of self.now) list → result ≡ count_by has_failed list }
    {
        self.account.failures()
    }

    /// How many completions succeeded.
    pub fn successes(&self) -> u32
        ensures kept { result ≡ (standing_of self.now).totals.successes }
        ensures listed { (list : List Completion) → StandsFor (standing_of self.now) list → result ≡ count_by has_succeeded list }
    {
        self.account.successes()
    }

    /// The first completion that failed.
    pub fn first_failure(&self) -> Option<Completion>
        ensures kept { result ≡ (standing_of self.now).totals.first_failure }
        ensures listed { (list : List Completion) → StandsFor (standing_of self.now) list → result ≡ find has_failed list }
    {
        self.account.first_failure()
    }

    /// The first completion that succeeded.
    pub fn first_success(&self) -> Option<Completion>
        ensures kept { result ≡ (standing_of self.now).totals.first_success }
        ensures listed { (list : List Completion) → StandsFor (standing_of self.now) list → result ≡ find has_succeeded list }
    {
        self.account.first_success()
    }

    /// Whether the joiner fires at the latest completion.
    fn fires(&self) -> bool
        requires { (standing_of self.now).totals.completions ≤ TASK_LIMIT }
        ensures { (list : List Completion) → StandsFor (standing_of self.now) list → result ≡ fires (standing_of self.now).policy list }
    {
        self.account.fires_by(self.test.as_ref())
    }
}
