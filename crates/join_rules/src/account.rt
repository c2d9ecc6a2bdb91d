ghost use Rattle.std.specs.Prelude.{[], ◌&&◌, ◌++◌, ◌+◌, ◌<◌, ◌∷◌, ◌≡◌, ◌≤◌, IsOk, List, OnErr, OnOk, false, if◌then◌else◌, is_ok, true, vec_len};
ghost use Rattle.join_rules.specs.{Completion, HasRoom, MayBeAsked, SameButRoom, SameJoiner, StandsFor, TASK_LIMIT, counted, fires, totals_fire, totals_of, vec_capacity};

use crate::tally::Tally;
use crate::until::StoredTest;
use scope_rules::{Completion, Policy};
use std::alloc::{AllocError, Global};
use std::marker::Model;

/// All that is kept of the completions so far, and which joiner they were handed to.
#[derive(Drop)]
pub struct JoinerAccount {
    policy: Policy,
    tally: Tally,
    /// Whether a caller's closure is shown the list.
    listed: bool,
    seen: Vec<Completion>,
}

impl Model for JoinerAccount {
    ghost use Rattle.std.specs.Prelude.{◌≡◌, ◌-◌, true, length, vec_len};
    ghost use Rattle.std.specs.Vec.{vec_capacity};
    ghost use Rattle.std.specs.List.{All};
    ghost use Rattle.join_rules.specs.Entries.{EntryFits};
    ghost use Rattle.join_rules.specs.JoinerStanding.{JoinerStanding};

    ghost Value = { JoinerStanding };

    ghost view = { λ a. record { policy = a.policy; has_closure = a.listed; totals = a.tally; seen = a.seen.items; room = vec_capacity a.seen - vec_len a.seen } };

    ghost invariant = { λ a. (a.listed ≡ true → length a.seen.items ≡ a.tally.completions) × All EntryFits a.seen.items };
}

impl JoinerAccount {
    /// The account of no completion. It takes no memory.
    #[tactic(auto, unfolding(crate::specs::Totals::totals_of))]
    pub fn new(alloc: Global, policy: Policy, listed: bool) -> JoinerAccount
        ensures policy { result.policy ≡ policy }
        ensures listed { result.has_closure ≡ listed }
        ensures totals { result.totals ≡ totals_of [] }
        ensures completions { result.totals.completions ≡ 0 }
        ensures seen { result.seen ≡ [] }
    {
        JoinerAccount {
            policy,
            tally: Tally::new(),
            listed,
            seen: Vec::new(alloc),
        }
    }

    /// Makes room for so many more completions.
    pub fn reserve(&mut self, additional: usize) -> Result<(), AllocError>
        ensures ok { OnOk result (HasRoom self.new additional) }
        ensures kept { SameButRoom self.old self.new }
        ensures room { self.old.room ≤ self.new.room }
        ensures unlisted { self.old.has_closure ≡ false → IsOk result }
        ensures err { OnErr result (self.new ≡ self.old) }
    {
        reserve_if(&mut self.seen, self.listed, additional)
    }

    /// Counts one completion more.
    #[tactic(auto, unfolding(crate::specs::Totals::counted))]
    pub fn count(&mut self, done: Completion) -> Result<(), AllocError>
        requires { self.old.totals.completions < TASK_LIMIT }
        ensures totals { OnOk result (self.new.totals ≡ counted self.old.totals done) }
        ensures completions { OnOk result (self.new.totals.completions ≡ self.old.totals.completions + 1) }
        ensures seen { OnOk result (self.old.has_closure ≡ true → self.new.seen ≡ self.old.seen ++ done ∷ []) }
        ensures room { OnOk result (self.old.room ≤ self.new.room + 1) }
        ensures joiner { SameJoiner self.old self.new }
        ensures succeeds { HasRoom self.old 1 → IsOk result }
        ensures unlisted { self.old.has_closure ≡ false → IsOk result }
        ensures err { OnErr result (self.new ≡ self.old) }
    {
        add_if(&mut self.seen, self.listed, done)?;
        self.tally.count(done);
        Ok(())
    }

    /// Whether the joiner fires at the latest completion.
    #[tactic(auto, unfolding(crate::specs::Totals::totals_fire))]
    pub fn fires(&self) -> bool
        ensures { result ≡ totals_fire self.now.policy self.now.totals }
    {
        match &self.policy {
            Policy::All | Policy::AwaitOk => self.tally.failures() > 0,
            Policy::Any => self.tally.successes() > 0,
            Policy::AwaitAll => false,
            Policy::Until(rule) => self.tally.meets(rule),
        }
    }

    /// Whether the joiner fires at the latest completion, for every list of completions that gives what
    /// is kept. If the list is kept, and the joiner waits until the rule of the closure given is met,
    /// the closure is shown the list and answers; otherwise the totals answer.
    pub fn fires_by(&self, test: Option<&StoredTest>) -> bool
        requires few { self.now.totals.completions ≤ TASK_LIMIT }
        ensures { (list : List Completion) → StandsFor self.now list → result ≡ fires self.now.policy list }
    {
        match test {
            Some(stored) if self.listed && self.policy == Policy::Until(stored.rule()) => {
                stored.ask(self.seen())
            }
            _ => self.fires(),
        }
    }

    /// Whether the list of completions is kept, for a caller's closure to be shown it.
    pub fn listed(&self) -> bool
        ensures { result ≡ self.now.has_closure }
    {
        self.listed
    }

    /// The joiner as plain data.
    pub fn policy(&self) -> Policy
        ensures { result ≡ self.now.policy }
    {
        self.policy
    }

    /// How many completions were counted.
    pub fn completions(&self) -> u32
        ensures { result ≡ self.now.totals.completions }
    {
        self.tally.completions()
    }

    /// How many completions failed.
    pub fn failures(&self) -> u32
        ensures { result ≡ self.now.totals.failures }
    {
        self.tally.failures()
    }

    /// How many completions succeeded.
    pub fn successes(&self) -> u32
        ensures { result ≡ self.now.totals.successes }
    {
        self.tally.successes()
    }

    /// The first completion that failed.
    pub fn first_failure(&self) -> Option<Completion>
        ensures { result ≡ self.now.totals.first_failure }
    {
        self.tally.first_failure()
    }

    /// The first completion that succeeded.
    pub fn first_success(&self) -> Option<Completion>
        ensures { result ≡ self.now.totals.first_success }
    {
        self.tally.first_success()
    }

    /// The list that a caller's closure is shown.
    pub fn seen(&self) -> &[Completion]
        ensures value { result.now ≡ self.now.seen }
        ensures askable { self.now.has_closure ≡ true → self.now.totals.completions ≤ TASK_LIMIT → MayBeAsked result.now }
    {
        &self.seen
    }
}

/// Makes room for so many more completions, if they are wanted.
fn reserve_if(seen: &mut Vec<Completion>, wanted: bool, additional: usize) -> Result<(), AllocError>
    ensures items { seen.new.items ≡ seen.old.items }
    ensures len { vec_len seen.new ≡ vec_len seen.old }
    ensures ok { wanted ≡ true → OnOk result (vec_len seen.new + additional ≤ vec_capacity seen.new) }
    ensures unwanted { wanted ≡ false → IsOk result }
    ensures capacity { vec_capacity seen.old ≤ vec_capacity seen.new }
    ensures err { OnErr result (vec_capacity seen.new ≡ vec_capacity seen.old) }
{
    if wanted {
        seen.reserve(additional)?;
    }
    Ok(())
}

/// Adds the completion, if it is wanted.
fn add_if(seen: &mut Vec<Completion>, wanted: bool, done: Completion) -> Result<(), AllocError>
    ensures items { seen.new.items ≡ (if wanted && is_ok result then seen.old.items ++ done ∷ [] else seen.old.items) }
    ensures len { vec_len seen.new ≡ (if wanted && is_ok result then vec_len seen.old + 1 else vec_len seen.old) }
    ensures unwanted { wanted ≡ false → IsOk result }
    ensures succeeds { vec_len seen.old < vec_capacity seen.old → IsOk result }
    ensures capacity { vec_capacity seen.old ≤ vec_capacity seen.new }
    ensures err { OnErr result (vec_capacity seen.new ≡ vec_capacity seen.old) }
{
    if wanted {
        seen.reserve(1)?;
        seen.push(done)?;
    }
    Ok(())
}
