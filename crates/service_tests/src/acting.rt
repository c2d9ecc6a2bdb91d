//! A service whose jobs and helpers act by one value: no clock, no runtime and no name of a realm in their signatures.

use super::player::opened;
use balkreyn::act::{
    Acts, Backoff, Came, Hooks, Limiter, Serves, Task, TypedTask, Worker, all_of, all_values,
    bound, every, fork_value, limited, map_at_most, next_done, race, retry, scope, serve,
};
use balkreyn::{
    CauseKind, End, Fault, JobError, Joiner, Name, Options, Outcome, Refusal, ScopeId,
    ServiceAnswer, ServiceError, State, Typed, Value, Yields, named,
};
use std::process::Abort;
use std::test::Fail;

/// What the service forks: a shop that answers after so many milliseconds, one that never does, one that answers the
/// number that its request is bound to, and typed jobs.
#[derive(Drop)]
enum Shop {
    Answers { price: i64, after: u64 },
    Hangs,
    ByRequest,
    Stock(Typed<AskStock>),
    Stocks(Worker<AskStock>),
}

impl From<Worker<AskStock>> for Shop {
    fn from(worker: Worker<AskStock>) -> Shop {
        Shop::Stocks(worker)
    }
}

impl From<Typed<AskStock>> for Shop {
    fn from(typed: Typed<AskStock>) -> Shop {
        Shop::Stock(typed)
    }
}

impl Task for Shop {
    fn run<X: Acts<Shop>>(self, cx: &mut X) -> End {
        match self {
            Shop::Answers { price, after } => asked(cx, price, after),
            Shop::Hangs => asked(cx, 0, u64::MAX),
            Shop::Stock(typed) => typed.act(cx),
            Shop::Stocks(worker) => worker.act(cx),
            Shop::ByRequest => match cx.get(&named(b"request")) {
                Ok(value) => Ok(value),
                Err(_) => Err(Fault(named(b"no-request"))),
            },
        }
    }
}

/// The price, after so many milliseconds, if no cancel comes first.
fn asked<X: Acts<Shop>>(cx: &mut X, price: i64, after: u64) -> End {
    match cx.sleep(after) {
        Ok(None) => Ok(Value::Num(price)),
        _ => Err(Fault(named(b"too-late"))),
    }
}

/// How many pieces there are.
#[derive(Clone, Copy, PartialEq, Eq)]
struct Stock {
    pieces: u32,
}

/// Why a shop doesn't say.
#[derive(Clone, Copy, PartialEq, Eq)]
enum NoStock {
    /// There are no pieces.
    Empty,
    /// A cancel or a deadline came first.
    TooLate,
    /// The runtime refused a call.
    Refused(Refusal),
}

impl JobError for NoStock {
    fn fault(&self, name: Name) -> Fault {
        match self {
            NoStock::Empty => Fault(named(b"empty")),
            _ => Fault(name),
        }
    }
}

impl From<Refusal> for NoStock {
    fn from(refusal: Refusal) -> NoStock {
        NoStock::Refused(refusal)
    }
}

/// A job that answers that after so many milliseconds, and fails if there are none.
#[derive(Clone, Copy)]
struct AskStock {
    pieces: u32,
    after: u64,
}

impl Yields for AskStock {
    type Value = Stock;

    type Error = NoStock;

    ghost is_fact = { λ name stock. Prim.hlevel };
}

impl TypedTask<Shop> for AskStock {
    fn run_typed<X: Acts<Shop>>(self, cx: &mut X, _name: Name) -> Result<Stock, NoStock> {
        match (cx.sleep(self.after)?, self.pieces) {
            (Some(_mark), _) => Err(NoStock::TooLate),
            (None, 0) => Err(NoStock::Empty),
            (None, pieces) => Ok(Stock { pieces }),
        }
    }
}

/// The service.
#[derive(Drop)]
struct Shops;

impl ServiceAnswer for Shops {
    /// What isn't so, if anything isn't.
    type Answer = Option<&'static str>;

    type Error = ServiceError;
}

impl Serves<Shop> for Shops {
    fn serve<X: Acts<Shop>>(self, cx: &mut X) -> Result<Option<&'static str>, ServiceError> {
        let taken = Stock { pieces: 3 };
        let first = [
            ("the first of three is taken", first_of(cx)? == Some(2)),
            ("a deadline ends a join in time", hung_in_time(cx)?),
            (
                "a binding is seen, and is gone behind its body",
                bindings(cx)?,
            ),
            (
                "a slot gives its value behind the join",
                slots(cx)? == (Err(Refusal::NotJoined), Ok(taken)),
            ),
            ("a slot gives its job's error once", errors(cx)?),
            ("a race is won, or lost by all", races(cx)),
            ("each came as it did in time", came_in_time(cx)?),
            (
                "a body is tried four times",
                tried_until(cx, 2) == Ok(2) && tried_until(cx, 9).is_err(),
            ),
            ("mapped jobs answer in order, eight at a time", mapped(cx)?),
        ];
        cx.retire()?;
        let then = [
            ("one that fails ends the others", failed(cx)?),
            (
                "a deadline ends the wait for a permit, which a body that failed gave back",
                limits(cx)?,
            ),
            ("rounds end", rounds(cx, 3, 9)? == (3, false)),
            (
                "a cancel ends rounds",
                rounds(cx, u64::MAX, 2)? == (3, true),
            ),
        ];
        Ok(wrong_of(&first).or(wrong_of(&then)))
    }
}

/// The first that isn't so.
fn wrong_of(found: &[(&'static str, bool)]) -> Option<&'static str> {
    for (name, is_so) in found {
        if !*is_so {
            return Some(*name);
        }
    }
    None
}

/// The first answer of three.
fn first_of<X: Acts<Shop>>(cx: &mut X) -> Result<Option<i64>, Refusal> {
    let options = cx.fail_after(60_000);
    scope(cx, Joiner::Any, options, |cx, scope| {
        for (price, after) in [(1, 60_000), (2, 10), (3, 60_000)] {
            cx.fork(scope, named(b"shop"), Shop::Answers { price, after })?;
        }
        price_at(cx, scope)
    })
}

/// The price of the first that succeeded in the scope.
fn price_at<X: Acts<Shop>>(cx: &mut X, scope: ScopeId) -> Result<Option<i64>, Refusal> {
    match &cx.join(scope)?.outcome {
        Outcome::Any {
            value: Value::Num(price),
            ..
        } => Ok(Some(*price)),
        _ => Ok(None),
    }
}

/// Whether a join ends at the deadline of its scope, 200 milliseconds on.
fn hung<X: Acts<Shop>>(cx: &mut X) -> Result<bool, Refusal> {
    let options = cx.fail_after(200);
    scope(cx, Joiner::All, options, |cx, scope| {
        cx.fork(scope, named(b"shop"), Shop::Hangs)?;
        match &cx.join(scope)?.outcome {
            Outcome::Timeout => Ok(true),
            _ => Ok(false),
        }
    })
}

/// Whether it does so within 400 milliseconds.
fn hung_in_time<X: Acts<Shop>>(cx: &mut X) -> Result<bool, Refusal> {
    let before = cx.now();
    let is_hung = hung(cx)?;
    let waited = cx.now().saturating_sub(before);
    Ok(is_hung && 200 <= waited && waited < 400)
}

/// Whether a job sees its request's binding, and the binding is gone behind a body that succeeded, and behind one that failed.
fn bindings<X: Acts<Shop>>(cx: &mut X) -> Result<bool, Refusal> {
    let request = named(b"request");
    let seen = bound(cx, request, Value::Num(7), by_request)?;
    let gone = cx.get(&request) == Err(Refusal::NotBound);
    let failed = bound(cx, request, Value::Num(8), gives_up);
    let gone_too = cx.get(&request) == Err(Refusal::NotBound);
    Ok(seen == Some(7) && gone && failed.is_err() && gone_too)
}

fn gives_up<X: Acts<Shop>>(_cx: &mut X) -> Result<Option<i64>, Refusal> {
    Err(Refusal::Unavailable)
}

/// What one job says of its request.
fn by_request<X: Acts<Shop>>(cx: &mut X) -> Result<Option<i64>, Refusal> {
    scope(cx, Joiner::Any, Options::PLAIN, |cx, scope| {
        cx.fork(scope, named(b"shop"), Shop::ByRequest)?;
        price_at(cx, scope)
    })
}

/// What a slot gives before the join, and behind it.
fn slots<X: Acts<Shop>>(
    cx: &mut X,
) -> Result<(Result<Stock, Refusal>, Result<Stock, Refusal>), Refusal> {
    scope(cx, Joiner::AwaitAll, Options::PLAIN, |cx, scope| {
        let ask = AskStock {
            pieces: 3,
            after: 0,
        };
        let slot = fork_value(cx, scope, named(b"stock"), ask)?;
        let early = slot.value(cx);
        cx.join(scope)?;
        Ok((early, slot.value(cx)))
    })
}

/// Whether the slot of a job that fails gives no value, and its error once; and another's error before the join.
fn errors<X: Acts<Shop>>(cx: &mut X) -> Result<bool, Refusal> {
    let empty = AskStock {
        pieces: 0,
        after: 0,
    };
    let scope = opened(cx, Joiner::AwaitAll, Options::PLAIN)?;
    let mut slots = Vec::new(cx.alloc());
    slots.push(fork_value(cx, scope, named(b"stock"), empty)?)?;
    let done = matches!(
        next_done(cx, &mut slots)?,
        Some(Came::Failed((_task, NoStock::Empty)))
    );
    let slot = fork_value(cx, scope, named(b"stock"), empty)?;
    cx.join(scope)?;
    let no_value = slot.value(cx) == Err(Refusal::NotSuccess);
    let once = slot.answer(cx) == Ok(Err(NoStock::Empty));
    let again = slot.answer(cx) == Err(Refusal::NotSuccess);
    let is_failed = cx.state(slot.task())? == State::Failed(Fault(named(b"empty")));
    cx.close(scope)?;
    Ok(done && no_value && once && again && is_failed)
}

/// The jobs that answer so many pieces after so many milliseconds.
fn asks<X: Acts<Shop>>(cx: &mut X, shops: [(u32, u64); 3]) -> Result<Vec<AskStock>, Refusal> {
    let mut jobs = Vec::new(cx.alloc());
    for (pieces, after) in shops {
        jobs.push(AskStock { pieces, after })?;
    }
    Ok(jobs)
}

/// Whether the first of three that has some wins, and if none has any, one loses for all.
fn races<X: Acts<Shop>>(cx: &mut X) -> bool {
    raced(cx, [(0, 0), (5, 60_000), (7, 10)]) == Ok(Stock { pieces: 7 })
        && raced(cx, [(0, 0), (0, 10), (0, 0)]) == Err(NoStock::Empty)
}

/// The first of three that has some.
fn raced<X: Acts<Shop>>(cx: &mut X, shops: [(u32, u64); 3]) -> Result<Stock, NoStock> {
    let jobs = asks(cx, shops)?;
    race(cx, named(b"stock"), Options::PLAIN, jobs)?.into_result()
}

/// Whether that is so of the three.
fn came_in_time<X: Acts<Shop>>(cx: &mut X) -> Result<bool, Refusal> {
    Ok(had_in_time(cx)? == (Some(3), Some(CauseKind::Deadline), Some(NoStock::Empty)))
}

/// How many pieces the first of three has, why the second was cut off after 200 milliseconds, and why the third has none.
fn had_in_time<X: Acts<Shop>>(
    cx: &mut X,
) -> Result<(Option<u32>, Option<CauseKind>, Option<NoStock>), Refusal> {
    let jobs = asks(cx, [(3, 0), (4, 60_000), (0, 0)])?;
    let options = cx.move_on_after(200);
    let found = all_of(cx, named(b"stock"), options, jobs)?;
    match found.as_slice() {
        [first, Came::Cut(mark), Came::Failed(error)] => Ok((
            pieces_of(first),
            Some(mark.cause.kind),
            Some(*error),
        )),
        _ => Err(Refusal::Unavailable),
    }
}

/// How many pieces there are.
fn pieces_of(came: &Came<Stock, NoStock>) -> Option<u32> {
    match came {
        Came::Value(stock) => Some(stock.pieces),
        Came::Failed(_) | Came::Cut(_) => None,
    }
}

/// What a body comes to that succeeds at this try, if it is tried four times.
fn tried_until<X: Acts<Shop>>(cx: &mut X, enough: u32) -> Result<u32, Refusal> {
    let backoff = Backoff {
        retries: 3,
        pause: 1,
    };
    retry(cx, backoff, |_cx, number| {
        if number >= enough {
            Ok(number)
        } else {
            Err(Refusal::Unavailable)
        }
    })
}

/// Whether 32 jobs of 10 milliseconds, eight at a time, are each answered in order, and no sooner.
fn mapped<X: Acts<Shop>>(cx: &mut X) -> Result<bool, Refusal> {
    let before = cx.now();
    let mut jobs = Vec::new(cx.alloc());
    for pieces in 1..=32u32 {
        jobs.push(AskStock { pieces, after: 10 })?;
    }
    let found = map_at_most(cx, named(b"stock"), Options::PLAIN, 8, jobs)?;
    let Came::Value(stocks) = all_values(cx.alloc(), found)? else {
        return Ok(false);
    };
    let mut number = 0u32;
    for stock in stocks.iter() {
        number = number.saturating_add(1);
        if stock.pieces != number {
            return Ok(false);
        }
    }
    Ok(number == 32 && cx.now().saturating_sub(before) >= 40)
}

/// Whether one that fails ends the others, of which one would take a minute and one never began: each says what it came to.
fn failed<X: Acts<Shop>>(cx: &mut X) -> Result<bool, Refusal> {
    let jobs = asks(cx, [(1, 60_000), (0, 0), (3, 60_000)])?;
    let found = map_at_most(cx, named(b"stock"), Options::PLAIN, 2, jobs)?;
    match found.as_slice() {
        [first, Came::Failed(second), Came::Cut(mark)] => Ok(
            !matches!(first, Came::Value(_))
                && *second == NoStock::Empty
                && mark.cause.kind == CauseKind::Joiner,
        ),
        _ => Ok(false),
    }
}

/// Whether a deadline ends the wait for the one permit, which is held; and whether a body that failed gave it back.
fn limits<X: Acts<Shop>>(cx: &mut X) -> Result<bool, Refusal> {
    let mut limiter = Limiter::new(cx.alloc(), 1)?;
    let mut another = limiter.share()?;
    let held = limited(cx, &mut limiter, |cx| waited_for(cx, &mut another))?;
    let mut given_back = true;
    for enough in [9, 0] {
        match limited(cx, &mut limiter, |cx| tried_until(cx, enough))? {
            Came::Value(number) => given_back = given_back && number == enough,
            Came::Failed(_refusal) => given_back = given_back && enough == 9,
            Came::Cut(_) => return Ok(false),
        }
    }
    Ok(held.value() == Some(true) && given_back)
}

/// Whether no permit comes within 50 milliseconds.
fn waited_for<X: Acts<Shop>>(cx: &mut X, limiter: &mut Limiter) -> Result<bool, Refusal> {
    let options = cx.move_on_after(50);
    scope(cx, Joiner::AwaitAll, options, |cx, _scope| {
        let second = limited(cx, limiter, |_cx| Ok::<u32, Refusal>(1))?;
        Ok(matches!(second, Came::Cut(_)))
    })
}

/// How many rounds are done of so many, if one behind so many others cancels the scope; and whether that was shown.
fn rounds<X: Acts<Shop>>(cx: &mut X, rounds: u64, last: u64) -> Result<(u64, bool), Refusal> {
    let mut done = 0u64;
    let shown = scope(cx, Joiner::AwaitAll, Options::PLAIN, |cx, scope| {
        every(cx, 1, rounds, |cx, number| {
            done = number.saturating_add(1);
            if number == last {
                cx.cancel(scope)?;
            }
            Ok::<(), Refusal>(())
        })
    })?;
    Ok((done, shown.is_some()))
}

#[test]
fn a_service_acts_by_one_value(rt: HostRuntime) -> Result<(), Fail> {
    match serve::<Shop, (), Shops, _>(&rt, rt.alloc(), 4, Hooks::none(), Shops)? {
        None => Ok(()),
        Some(wrong) => Err(wrong.into()),
    }
}
