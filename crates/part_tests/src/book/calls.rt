//! Calls that no script makes: the example of docs/GUIDE.md, and an open that hands its joiner back.

use crate::book::asked_once::{Asked, RULE};
use join_rules::Joiner;
use scope_book::BookState;
use scope_rules::types::values::MAIN;
use scope_rules::{
    AnyEnd, Base, Expiry, Label, Limits, Name, Options, Outcome, Policy, Refusal, Value, Verdict,
};
use std::alloc::Global;
use std::process::Abort;
use std::test::Fail;

type Book = BookState<AnyEnd>;

/// The example of docs/GUIDE.md.
fn one_task(
    book: &mut BookState<AnyEnd>,
    options: Options,
    label: Label,
) -> Result<(Outcome, Verdict), Fail> {
    let Ok(scope) = book.open(MAIN, Joiner::AwaitOk, options) else {
        return Err(Fail::from("a fresh realm opens a scope"));
    };
    book.fork(MAIN, scope, label)?; // it answers whether task 1 gets a thread
    book.start(1)?; // the thread has come
    book.tick(99)?; // the clock: the deadline is at 100
    book.finish(1, Ok(Value::Num(7)))?; // the thread has ended
    book.join_now(MAIN, scope)?;
    let outcome = book.outcome(scope)?; // Outcome::Done
    book.begin_close(MAIN, scope)?;
    let verdict = book.end_close(MAIN, scope)?; // Verdict::Plain
    Ok((outcome, verdict))
}

const OPTIONS: Options = Options {
    deadline: Some(100),
    shield: false,
    expiry: Expiry::Fail,
};

/// The example answers what its comments say.
fn check_one_task(rt: &impl Abort, book: &mut Book, label: Label) -> Result<(), Fail> {
    let (outcome, verdict) = one_task(book, OPTIONS, label)?;
    assert!(rt; matches!(outcome, Outcome::Done));
    assert_eq!(rt; verdict, Verdict::Plain);
    Ok(())
}

#[test]
fn the_example_of_the_readme(rt: HostRuntime) -> Result<(), Fail> {
    let label = Label {
        name: Name::new(b"work").ok_or("a name")?,
        due: None,
    };
    let mut book: Book = BookState::new(rt.alloc(), Limits::GREATEST);
    check_one_task(&rt, &mut book, label)
}

/// Behind a base that has all numbers of scopes there is none for an open.
#[test]
fn no_scope_has_a_number_past_the_greatest(rt: HostRuntime) -> Result<(), Fail> {
    let alloc = rt.alloc();
    let base = Base::new(0, u32::MAX, 0, Vec::new(alloc));
    let mut book: Book = BookState::with_base(alloc, Limits::GREATEST, base)?;
    let refused = match book.open(MAIN, Joiner::AwaitAll, OPTIONS) {
        Ok(_) => None,
        Err((refusal, _)) => Some(refusal),
    };
    assert!(rt; refused == Some(Refusal::TooMany));
    Ok(())
}

/// An open by a task that does not run hands the joiner back, with the closure that it was made with.
fn check_handed_back(rt: &impl Abort, alloc: Global, book: &mut Book) -> Result<(), Fail> {
    let joiner = Asked::new(alloc)?.joiner(alloc)?;
    let Err((refusal, joiner)) = book.open(4, joiner, OPTIONS) else {
        return Err(Fail::from("no task 4 runs"));
    };
    assert_eq!(rt; refusal, Refusal::NoTask);
    let found = (joiner.policy(), joiner.asks_closure());
    assert!(rt; found == (Policy::Until(RULE), true));
    Ok(())
}

#[test]
fn a_refused_open_hands_the_joiner_back(rt: HostRuntime) -> Result<(), Fail> {
    let mut book: Book = BookState::new(rt.alloc(), Limits::GREATEST);
    check_handed_back(&rt, rt.alloc(), &mut book)
}
