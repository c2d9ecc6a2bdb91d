//! When the book asks a closure of its caller's: once at each completion of its scope, until that is
//! cancelled, and with all completions so far. The closure counts from the back, and the outcome is that of the rule
//! `until:ok:2`, which it stands for.

ghost use Rattle.std.specs.Prelude.{◌≡◌};
ghost use Rattle.scope_rules.specs.Joining.{meets};

use join_rules::{CompletionTest, Joiner, UntilTest};
use scope_book::BookState;
use scope_rules::{
    AnyEnd, Completion, End, Expiry, Fault, ForkReply, Label, Limits, Name, Options, Outcome, Rule,
    ScopeId, State, TaskState, Value,
};
use std::alloc::{AllocError, Global};
use std::process::Abort;
use std::sync::Arc;
use std::sync::atomic::{AtomicU64, Ordering};
use std::test::Fail;

type Book = BookState<AnyEnd>;

/// Whether the list has so many successes. It counts from the back, and stops once there are enough.
fn has_successes(list: &[Completion], limit: u32) -> bool
    ensures { result ≡ meets (Rule.SuccessesAtLeast limit) list.now }
{
    let mut found = 0u32;
    let mut left = list.len();
    while left > 0 && found < limit {
        left -= 1;
        if list[left].end.is_ok() {
            found += 1;
        }
    }
    found == limit
}

/// How often a closure was asked, and how many completions it was shown.
#[derive(Drop)]
pub struct Asked {
    times: Arc<AtomicU64, Global>,
    shown: Arc<AtomicU64, Global>,
}

impl Asked {
    pub fn new(alloc: Global) -> Result<Asked, AllocError> {
        Ok(Asked {
            times: Arc::new(alloc, AtomicU64::new(0))?,
            shown: Arc::new(alloc, AtomicU64::new(0))?,
        })
    }

    /// What was counted since the last look.
    fn since_last(&self) -> (u64, u64) {
        (
            self.times.swap(0, Ordering::SeqCst),
            self.shown.swap(0, Ordering::SeqCst),
        )
    }

    /// A joiner until two succeed, whose closure counts here.
    pub fn joiner(&self, alloc: Global) -> Result<Joiner, Fail> {
        let (times, shown) = (Arc::try_clone(&self.times)?, Arc::try_clone(&self.shown)?);
        let test: CompletionTest = Box::new(
            alloc,
            move |list: &[Completion]|
                ensures { result ≡ meets (Rule.SuccessesAtLeast 2) list.now }
            {
                times.fetch_add(1, Ordering::SeqCst);
                shown.fetch_add(list.len() as u64, Ordering::SeqCst);
                has_successes(list, 2)
            },
        )?;
        Ok(Joiner::Until(UntilTest::new(RULE, test)))
    }
}

/// Opens a scope for main with the joiner, in which so many tasks run.
fn open_with(book: &mut Book, joiner: Joiner, tasks: u32) -> Result<ScopeId, Fail> {
    let options = Options {
        deadline: None,
        shield: false,
        expiry: Expiry::Fail,
    };
    let scope = match book.open(0, joiner, options) {
        Ok(scope) => scope,
        Err((refusal, _)) => Err(refusal)?,
    };
    let label = Label {
        name: Name::new(b"work").ok_or("a name")?,
        due: None,
    };
    for _ in 0..tasks {
        let task = match book.fork(0, scope, label)? {
            ForkReply::Thread(task) | ForkReply::Never(task) => task,
        };
        book.start(task)?;
    }
    Ok(scope)
}

/// Until two succeed.
pub const RULE: Rule = Rule::SuccessesAtLeast(2);

/// How a task ends that succeeds.
const SEVEN: End = Ok(Value::Num(7));

/// The task, and what can be read of it once all has ended.
const fn left(task: u32, state: State) -> TaskState {
    TaskState { task, state }
}

/// Ends the tasks of a scope with the joiner, of which the second success cancels it: whether the closure was asked as
/// it is to be, where one is asked, and what ends later is not asked about. The states that the join answers.
fn ended(
    book: &mut Book,
    asked: &Asked,
    joiner: Joiner,
    boom: Fault,
) -> Result<(bool, Outcome), Fail> {
    let asks = joiner.asks_closure();
    open_with(book, Joiner::AwaitAll, 1)?;
    let scope = open_with(book, joiner, 5)?;
    let mut is_right = true;
    for (task, end, counted) in [
        (3, Err(boom), (1, 1)),
        (2, SEVEN, (1, 2)),
        (1, SEVEN, (0, 0)),
        (6, SEVEN, (1, 3)),
        (4, SEVEN, (0, 0)),
        (5, Err(boom), (0, 0)),
    ] {
        book.finish(task, end)?;
        let wanted = if asks { counted } else { (0, 0) };
        is_right = is_right && asked.since_last() == wanted;
    }
    is_right = is_right && book.cause(scope)?.is_some();
    book.join_now(0, scope)?;
    Ok((is_right, book.outcome(scope)?))
}

/// The same by a closure, and by the rule: the outcome is the same list.
fn check_until_the_cancel(
    rt: &impl Abort,
    book: &mut Book,
    asked: &Asked,
    joiner: Joiner,
) -> Result<(), Fail> {
    let boom = Fault(Name::new(b"boom").ok_or("a name")?);
    let (is_right, outcome) = ended(book, asked, joiner, boom)?;
    let seven = State::Success(Value::Num(7));
    let wanted = [
        left(2, seven),
        left(3, State::Failed(boom)),
        left(4, State::Unavailable),
        left(5, State::Unavailable),
        left(6, seven),
    ];
    let is_listed = match &outcome {
        Outcome::List(states) => states.as_slice() == wanted.as_slice(),
        _ => false,
    };
    assert!(rt; is_right && is_listed);
    Ok(())
}

#[test]
fn a_closure_is_asked_once_at_each_completion_until_the_cancel(
    rt: HostRuntime,
) -> Result<(), Fail> {
    let asked = Asked::new(rt.alloc())?;
    let joiner = asked.joiner(rt.alloc())?;
    let mut book: Book = BookState::new(rt.alloc(), Limits::GREATEST);
    check_until_the_cancel(&rt, &mut book, &asked, joiner)?;
    let plain = Joiner::Until(UntilTest::plain(RULE));
    let mut beside: Book = BookState::new(rt.alloc(), Limits::GREATEST);
    check_until_the_cancel(&rt, &mut beside, &asked, plain)
}

/// A scope that was cancelled by a call asks nothing, and one that is opened after a retirement asks
/// its own closure.
fn check_its_own_scope(
    rt: &impl Abort,
    book: &mut Book,
    asked: &Asked,
    joiners: (Joiner, Joiner),
) -> Result<(), Fail> {
    let scope = open_with(book, joiners.0, 1)?;
    book.cancel(scope)?;
    book.finish(1, Ok(Value::Num(7)))?;
    assert_eq!(rt; asked.since_last(), (0, 0));
    book.begin_close(0, scope)?;
    book.end_close(0, scope)?;
    book.retire(0)?;
    open_with(book, joiners.1, 1)?;
    open_with(book, Joiner::AwaitAll, 1)?;
    book.finish(3, Ok(Value::Num(7)))?;
    assert_eq!(rt; asked.since_last(), (0, 0));
    book.finish(2, Ok(Value::Num(7)))?;
    assert_eq!(rt; asked.since_last(), (1, 1));
    Ok(())
}

#[test]
fn a_closure_is_asked_in_its_own_scope_alone(rt: HostRuntime) -> Result<(), Fail> {
    let asked = Asked::new(rt.alloc())?;
    let joiners = (asked.joiner(rt.alloc())?, asked.joiner(rt.alloc())?);
    let mut book: Book = BookState::new(rt.alloc(), Limits::GREATEST);
    check_its_own_scope(&rt, &mut book, &asked, joiners)
}
