//! What the jobs of a service share: a channel, with its order, its close, and what ends its waits; and permits.

use super::player::opened;
use balkreyn::act::{
    Acts, Hooks, Limiter, Permit, Rate, Received, Receiver, Sender, Sent, Serves, Task, channel,
    each, receive, scope, send, serve,
};
use balkreyn::{
    End, Fault, Joiner, Options, Outcome, Refusal, ScopeId, ServiceAnswer, ServiceError, Value,
    named,
};
use std::process::Abort;
use std::test::Fail;

/// A job that sends the numbers below a hundred, and closes the channel by its end.
#[derive(Drop)]
struct Counts {
    into: Sender<u32>,
}

impl Task for Counts {
    fn run<X: Acts<Counts>>(self, cx: &mut X) -> End {
        for number in 0..100u32 {
            match send(cx, &self.into, number) {
                Ok(Sent::Done) => {}
                _ => return Err(Fault(named(b"unsent"))),
            }
        }
        Ok(Value::Num(100))
    }
}

/// What the service sees: how many numbers came in order and whether the channel was closed behind them; their sum by `each`, and
/// the same; whether a deadline ended a receive; and what came back from a channel whose receiver is gone.
#[derive(Clone, Copy, PartialEq, Eq)]
struct Seen {
    in_order: (u32, bool),
    sum: (u32, bool),
    no_value: bool,
    too_late: Option<u32>,
}

/// The service.
#[derive(Drop)]
struct Counting;

impl ServiceAnswer for Counting {
    type Answer = Seen;

    type Error = ServiceError;
}

impl Serves<Counts> for Counting {
    fn serve<X: Acts<Counts>>(self, cx: &mut X) -> Result<Seen, ServiceError> {
        let in_order = counted(cx)?;
        let sum = summed(cx)?;
        let (into, from) = channel(cx.alloc(), 1)?;
        let no_value = matches!(waited_for(cx, &from)?, Received::Cancelled);
        drop(from);
        let too_late = back(&send(cx, &into, 3)?);
        Ok(Seen {
            in_order,
            sum,
            no_value,
            too_late,
        })
    }
}

/// How many numbers come in order from a job, over a channel with room for three, and whether it is closed behind them.
fn counted<X: Acts<Counts>>(cx: &mut X) -> Result<(u32, bool), Refusal> {
    let (into, from) = channel(cx.alloc(), 3)?;
    let scope = opened(cx, Joiner::All, Options::PLAIN)?;
    cx.fork(scope, named(b"counts"), Counts { into })?;
    let mut in_order = 0u32;
    let mut closed = false;
    for _ in 0..200u32 {
        match receive(cx, &from)? {
            Received::Value(number) if number == in_order => {
                in_order = in_order.saturating_add(1);
            }
            received => {
                closed = matches!(received, Received::Closed);
                break;
            }
        }
    }
    let is_sent = matches!(&cx.join(scope)?.outcome, Outcome::All(_));
    cx.close(scope)?;
    Ok((in_order, closed && is_sent))
}

/// The sum of the numbers that come from a job, and whether the channel is closed behind them.
fn summed<X: Acts<Counts>>(cx: &mut X) -> Result<(u32, bool), Refusal> {
    let (into, from) = channel(cx.alloc(), 3)?;
    scope(cx, Joiner::AwaitAll, Options::PLAIN, |cx, scope| {
        cx.fork(scope, named(b"counts"), Counts { into })?;
        let mut sum = 0u32;
        let closed = each(cx, &from, |_cx, number| {
            sum = sum.saturating_add(number);
            Ok::<(), Refusal>(())
        })?;
        cx.join(scope)?;
        Ok((sum, closed))
    })
}

/// What comes within 50 milliseconds.
fn waited_for<X: Acts<Counts>>(cx: &mut X, from: &Receiver<u32>) -> Result<Received<u32>, Refusal> {
    let options = cx.move_on_after(50);
    scope(
        cx,
        Joiner::AwaitAll,
        options,
        |cx, _scope| receive(cx, from),
    )
}

/// The number that came back.
fn back(sent: &Sent<u32>) -> Option<u32> {
    match sent {
        Sent::Done => None,
        Sent::Closed(number) | Sent::Cancelled(number) => Some(*number),
    }
}

#[test]
fn a_channel_is_in_order_and_its_waits_end(rt: HostRuntime) -> Result<(), Fail> {
    let seen = serve::<Counts, (), Counting, _>(&rt, rt.alloc(), 2, Hooks::none(), Counting)?;
    let wanted = Seen {
        in_order: (100, true),
        sum: (4_950, true),
        no_value: true,
        too_late: Some(3),
    };
    assert!(rt; seen == wanted);
    Ok(())
}

/// A job that carries a permit, and is done at once.
#[derive(Drop)]
struct Visit {
    permit: Permit,
}

impl Task for Visit {
    fn run<X: Acts<Visit>>(self, _cx: &mut X) -> End {
        drop(self.permit);
        Ok(Value::Num(1))
    }
}

/// Forks so many jobs, each once there is a permit for it, and says how many those are.
fn visit_all<X: Acts<Visit>>(
    cx: &mut X,
    limiter: &Limiter,
    scope: ScopeId,
    visits: u32,
) -> Result<u32, Refusal> {
    for number in 0..visits {
        let Some(permit) = limiter.permit(cx)? else {
            return Ok(number);
        };
        cx.fork(scope, named(b"visit"), Visit { permit })?;
    }
    Ok(visits)
}

/// Forks forty such jobs, at this rate, and says how many those are.
fn begin_all<X: Acts<Visit>>(
    cx: &mut X,
    rate: &Rate,
    limiter: &Limiter,
    scope: ScopeId,
) -> Result<u32, Refusal> {
    let mut begun = 0u32;
    for _ in 0..40 {
        if !rate.pass(cx)? {
            break;
        }
        begun = begun.saturating_add(visit_all(cx, limiter, scope, 1)?);
    }
    Ok(begun)
}

/// The service: how many jobs got a permit of two; whether one comes back from a job that is forked in a cancelled scope, and so
/// never runs; and how many jobs began at a hundred a second, and whether that took long enough.
#[derive(Drop)]
struct Visiting;

impl ServiceAnswer for Visiting {
    type Answer = (u32, bool, u32, bool);

    type Error = ServiceError;
}

impl Serves<Visit> for Visiting {
    fn serve<X: Acts<Visit>>(self, cx: &mut X) -> Result<(u32, bool, u32, bool), ServiceError> {
        let two = Limiter::new(cx.alloc(), 2)?;
        let options = cx.move_on_after(20_000);
        let scope = opened(cx, Joiner::AwaitAll, options)?;
        let visits = visit_all(cx, &two, scope, 400)?;
        cx.join(scope)?;
        cx.close(scope)?;
        let one = Limiter::new(cx.alloc(), 1)?;
        let options = cx.move_on_after(1_000);
        let around = opened(cx, Joiner::AwaitAll, options)?;
        let scope = opened(cx, Joiner::AwaitAll, Options::PLAIN)?;
        cx.cancel(scope)?;
        visit_all(cx, &one, scope, 1)?;
        cx.join(scope)?;
        cx.close(scope)?;
        let is_back = one.permit(cx)?.is_some();
        let rate = Rate::new(cx.alloc(), 100)?;
        cx.close(around)?;
        let before = cx.now();
        let scope = opened(cx, Joiner::AwaitAll, Options::PLAIN)?;
        let begun = begin_all(cx, &rate, &two, scope)?;
        cx.join(scope)?;
        cx.close(scope)?;
        let is_slow = cx.now().saturating_sub(before) >= 370;
        Ok((visits, is_back, begun, is_slow))
    }
}

#[test]
fn jobs_begin_by_permits_and_at_a_rate(rt: HostRuntime) -> Result<(), Fail> {
    let seen = serve::<Visit, (), Visiting, _>(&rt, rt.alloc(), 4, Hooks::none(), Visiting)?;
    assert!(rt; seen == (400, true, 40, true));
    Ok(())
}
