//! Joiners whose rule is a caller's closure: what it is shown and how often, at as many completions as there can be, in other
//! threads, and where memory is refused. What scripts can say of joiners, `crates/scopectl/rows/replies` does.

ghost use Rattle.std.specs.Prelude.{◌≡◌, ◌≤◌, length, count_by};
ghost use Rattle.scope_rules.specs.Joining.{meets, has_succeeded};

use super::{boxed, name, pages};
use join_rules::{CompletionTest, Joiner, JoinerAccount, Progress, StoredTest, UntilTest};
use scope_rules::{Completion, End, Fault, Policy, Refusal, Rule, Value};
use std::alloc::{AllocError, Global};
use std::process::Abort;
use std::sync::Arc;
use std::sync::atomic::{AtomicU64, Ordering};
use std::test::Fail;
use std::thread;

/// An end: with a number, with a text, or with a fault.
#[derive(Clone, Copy)]
enum Kind {
    Number(i64),
    Text,
    Fault,
}

use Kind::{Number, Text};

const BAD: Kind = Kind::Fault;

const ONE: Kind = Number(1);

/// The end, if `boom` and `seven` are names.
fn end_of(kind: Kind) -> Result<End, Fail> {
    Ok(match kind {
        Number(number) => Ok(Value::Num(number)),
        Text => Ok(Value::Text(name(b"seven")?)),
        Kind::Fault => Err(Fault(name(b"boom")?)),
    })
}

/// Hands in the end as that of the next task.
fn hand_in(progress: &mut Progress, end: End) -> Result<bool, Refusal> {
    let before = progress.completions();
    if before >= 65_536 {
        return Err(Refusal::TooMany);
    }
    let task = before + 1;
    match progress.completed(Completion { task, end }) {
        Ok(fires) => Ok(fires),
        Err(_) => Err(Refusal::Memory),
    }
}

/// Hands the ends in, and compares each answer with its mark.
fn check_marks(
    rt: &impl Abort,
    progress: &mut Progress,
    ends: &[Kind],
    marks: &str,
) -> Result<(), Fail> {
    assert!(rt; ends.len() == marks.len());
    for (kind, mark) in ends.iter().zip(marks.as_bytes()) {
        let fires = hand_in(progress, end_of(*kind)?)?;
        assert!(rt; fires == (*mark == b'x'), "{marks}");
    }
    Ok(())
}

/// Hands in as many ends as there can be. The joiner fires at each.
fn check_long(rt: &impl Abort, progress: &mut Progress) -> Result<(), Fail> {
    let (early, late) = (end_of(BAD)?, end_of(ONE)?);
    for task in 0..65_536u32 {
        let end = if task < 32_768 { early } else { late };
        assert!(rt; hand_in(progress, end)?);
    }
    Ok(())
}

/// Whether the list has two successes.
#[tactic(auto, unfolding(scope_rules::specs::Joining::meets))]
fn has_two_successes(list: &[Completion]) -> bool
    ensures { result ≡ meets (Rule.SuccessesAtLeast 2) list.now }
{
    list.iter().filter(|done| done.end.is_ok()).count() >= 2
}

/// A joiner until two succeed, whose closure adds up how long the lists are that it is shown.
fn joiner_that_adds(alloc: Global, shown: Arc<AtomicU64, Global>) -> Result<Joiner, AllocError> {
    let test: CompletionTest = boxed(
        alloc,
        move |list: &[Completion]|
            ensures { result ≡ meets (Rule.SuccessesAtLeast 2) list.now }
        {
            shown.fetch_add(list.len() as u64, Ordering::SeqCst);
            has_two_successes(list)
        },
    )?;
    Ok(Joiner::Until(UntilTest::new(Rule::SuccessesAtLeast(2), test)))
}

/// The closure is shown all completions, once after each.
fn check_shown(
    rt: &impl Abort,
    progress: &mut Progress,
    shown: &Arc<AtomicU64, Global>,
) -> Result<(), Fail> {
    for (kind, mark) in [(ONE, false), (BAD, false), (Text, true), (BAD, true)] {
        let fires = hand_in(progress, end_of(kind)?)?;
        let sum = shown.swap(0, Ordering::SeqCst);
        assert!(rt; fires == mark && sum == u64::from(progress.completions()));
    }
    Ok(())
}

#[test]
fn a_closure_is_shown_all_once_for_each_completion(rt: HostRuntime) -> Result<(), Fail> {
    let shown = Arc::new(rt.alloc(), AtomicU64::new(0))?;
    let joiner = joiner_that_adds(rt.alloc(), Arc::try_clone(&shown)?)?;
    let mut progress = Progress::new(rt.alloc(), joiner);
    check_shown(&rt, &mut progress, &shown)
}

/// Whether an account of the policy fires at the second of two successes, by the closure that is given.
fn fires_at_the_second(
    alloc: Global,
    policy: Policy,
    listed: bool,
    test: Option<&StoredTest>,
) -> Result<bool, AllocError> {
    let mut account = JoinerAccount::new(alloc, policy, listed);
    let end = Ok(Value::Num(1));
    account.count(Completion { task: 1, end })?;
    account.count(Completion { task: 2, end })?;
    Ok(account.fires_by(test) && account.listed() == listed)
}

/// An account that is kept apart from its closure: each row has its policy, whether it keeps the list,
/// whether the closure is handed to it, and how many completions the closure is shown.
#[test]
fn an_account_asks_the_closure_of_its_own_rule(rt: HostRuntime) -> Result<(), Fail> {
    let shown = Arc::new(rt.alloc(), AtomicU64::new(0))?;
    let joiner = joiner_that_adds(rt.alloc(), Arc::try_clone(&shown)?)?;
    let test = if joiner.asks_closure() {
        Some(joiner.into_test())
    } else {
        None
    };
    for (least, listed, given, asked) in [
        (2, true, true, 2),
        (2, true, false, 0),
        (2, false, true, 0),
        (1, true, true, 0),
    ] {
        let policy = Policy::Until(Rule::SuccessesAtLeast(least));
        let test = if given { test.as_ref() } else { None };
        let fires = fires_at_the_second(rt.alloc(), policy, listed, test)?;
        let sum = shown.swap(0, Ordering::SeqCst);
        assert!(rt; fires && sum == asked, "{least} {listed} {given}");
    }
    Ok(())
}

/// How many completions succeeded.
fn successes_in(list: &[Completion]) -> u32
    requires { length list.now ≤ 65536 }
    ensures { result ≡ count_by has_succeeded list.now }
{
    list.iter().filter(|done| done.end.is_ok()).count() as u32
}

#[test]
#[tactic(auto, unfolding(scope_rules::specs::Joining::meets))]
fn a_closure_may_ask_for_short_lists(rt: HostRuntime) -> Result<(), Fail> {
    let test: CompletionTest = boxed(
        rt.alloc(),
        |list: &[Completion]|
            requires { length list.now ≤ 65536 }
            ensures { result ≡ meets (Rule.SuccessesAtLeast 2) list.now }
        { successes_in(list) >= 2 },
    )?;
    let until = UntilTest::new(Rule::SuccessesAtLeast(2), test);
    assert!(rt; until.rule() == Rule::SuccessesAtLeast(2));
    let joiner = Joiner::Until(until);
    assert!(rt; joiner.policy() == Policy::Until(Rule::SuccessesAtLeast(2)));
    let mut progress = Progress::new(rt.alloc(), joiner);
    check_marks(&rt, &mut progress, &[ONE, BAD, Text, BAD], "..xx")
}

/// A progress whose closure says cancel of every list.
#[tactic(auto, unfolding(scope_rules::specs::Joining::meets))]
fn always_fires(alloc: Global) -> Result<Progress, AllocError> {
    let test: CompletionTest = boxed(
        alloc,
        |list: &[Completion]|
            ensures { result ≡ meets (Rule.SuccessesAtLeast 0) list.now }
        { true },
    )?;
    let joiner = Joiner::Until(UntilTest::new(Rule::SuccessesAtLeast(0), test));
    Ok(Progress::new(alloc, joiner))
}

/// A completion takes 56 bytes, so a list of them all takes 896 pages, and one that grew some 2,000.
#[test]
fn a_list_grows_by_itself_and_takes_what_it_needs(rt: HostRuntime) -> Result<(), Fail> {
    for reserved in [0usize, 65_536] {
        let mut progress = always_fires(rt.alloc())?;
        let before = pages(&rt);
        progress.reserve(reserved)?;
        check_long(&rt, &mut progress)?;
        assert!(rt; pages(&rt) < before.saturating_add(4000), "{reserved}");
    }
    Ok(())
}

/// Hands one completion in, and gives the progress back with the answer.
fn hand_in_there(mut progress: Progress, end: End) -> (Progress, Option<bool>) {
    let fires = hand_in(&mut progress, end).ok();
    (progress, fires)
}

#[test]
fn a_closure_made_here_is_asked_in_other_threads(rt: HostRuntime) -> Result<(), Fail> {
    let alloc = rt.alloc();
    let end = end_of(ONE)?;
    let test: CompletionTest = boxed(alloc, |list: &[Completion]| has_two_successes(list))?;
    let joiner = Joiner::Until(UntilTest::new(Rule::SuccessesAtLeast(2), test));
    let child = thread::spawn(
        &rt,
        move || hand_in_there(Progress::new(alloc, joiner), end),
    )?;
    let (progress, fires) = child.join(&rt);
    assert!(rt; fires == Some(false));
    let child = thread::spawn(&rt, move || hand_in_there(progress, end))?;
    let (progress, fires) = child.join(&rt);
    assert!(rt; fires == Some(true) && progress.successes() == 2);
    Ok(())
}

/// Hands the end in, once more where memory is refused, and says so.
fn handed_in<R: Eprint>(rt: &R, progress: &mut Progress, end: End) -> Option<bool> {
    match hand_in(progress, end) {
        Ok(fires) => Some(fires),
        Err(_) => {
            let _told = eprintln!(rt; "refused completed");
            hand_in(progress, end).ok()
        }
    }
}

/// Makes room, once more where memory is refused, and says so. Whether there is room then.
fn reserved<R: Eprint>(rt: &R, progress: &mut Progress) -> bool {
    if progress.reserve(100).is_ok() {
        return true;
    }
    let _told = eprintln!(rt; "refused reserve");
    progress.reserve(100).is_ok()
}

/// Whether the closure's answers are those of the rule, one after the other, with room made on the way. None
/// where memory is refused before it begins.
fn answers_as_ever<R: Eprint>(rt: &R, alloc: Global) -> Option<bool> {
    let shown = Arc::new(alloc, AtomicU64::new(0)).ok()?;
    let joiner = joiner_that_adds(alloc, shown).ok()?;
    let mut progress = Progress::new(alloc, joiner);
    let mut all = true;
    for turn in 0..40u32 {
        let end = Ok(Value::Num(1));
        let fires = handed_in(rt, &mut progress, end)?;
        all = all && fires == (turn >= 1) && progress.completions() == turn + 1;
        if turn == 20 {
            all = all && reserved(rt, &mut progress);
        }
    }
    Some(all)
}

/// By itself it refuses nothing: `./test` runs it with each request for memory refused in turn.
#[test]
fn a_closure_is_asked_as_ever_where_memory_was_refused(rt: HostRuntime) -> Result<(), Fail> {
    assert!(rt; answers_as_ever(&rt, rt.alloc()) != Some(false));
    Ok(())
}
