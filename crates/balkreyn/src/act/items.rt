//! A body that is called with each value of a channel.
ghost use Rattle.balkreyn.specs.{Pauses, Receives, ReceivesEach};

use crate::act::channels::{Received, Receiver, receive};
use crate::act::contexts::Acts;
use scope_rules::Refusal;

/// Calls the body with each value that is received, until the channel is closed and empty: then it answers true (Trio, a
/// `for` over a receive channel). It answers false if a cancel or a deadline comes first.
///
/// The sum of all that comes:
///
/// ```rust
/// fn summed<X: Acts<Counts>>(cx: &mut X) -> Result<(u32, bool), Refusal> {
///     let (into, from) = channel(cx.alloc(), 3)?;
///     scope(cx, Joiner::AwaitAll, Options::PLAIN, |cx, scope| {
///         cx.fork(scope, named(b"counts"), Counts { into })?;
///         let mut sum = 0u32;
///         let closed = each(cx, &from, |_cx, number| {
///             sum = sum.saturating_add(number);
///             Ok::<(), Refusal>(())
///         })?;
///         cx.join(scope)?;
///         Ok((sum, closed))
///     })
/// }
/// ```
///
/// # Errors
/// What the body failed with; or what `E` makes of the refusal of a wait.
pub fn each<
    T: Drop,
    W,
    X: Acts<W>,
    E: From<Refusal> + Drop,
    F: FnMut(&mut X, T) -> Result<(), E> + Drop,
>(cx: &mut X, from: &Receiver<T>, mut body: F) -> Result<bool, E>
    requires { F.IsAlwaysCallable body }
    ensures { ReceivesEach F.FnMut (λ old new received. Receives X.token (λ old new slept. Pauses X.reads X.reading X.time X.token X.seat 1 old new slept) old new received) E.from_gives body cx.old cx.new result }
{
    for _ in 0..u64::MAX {
        let received = receive(cx, from)?;
        match received {
            Received::Value(value) => match body(cx, value) {
                Ok(()) => {}
                Err(error) => return Err(error),
            },
            Received::Closed => return Ok(true),
            Received::Cancelled => return Ok(false),
        }
    }
    for _ in cx.forever() {}
    unreachable!()
}
