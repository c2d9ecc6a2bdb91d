//! Bodies that run in a scope, under a shield or with a binding, by one value.
ghost use Rattle.std.specs.Prelude.{◌≡◌, None, true};
ghost use Rattle.balkreyn.specs.{ClosesNow, Fail, Opens, Retries, RunsBound, RunsWithin, Sleeps, policy_of};
ghost use Rattle.scope_rules.specs.declared.types.joiners.Policy.TheVariants as policy;

use crate::act::contexts::Acts;
use crate::scoped::settled;
use join_rules::Joiner;
use scope_rules::{Name, Options, Refusal, ScopeId, Value};

/// Runs the body in a scope that it opens for it, and closes that by the realm's clock on each way out, as `within_by`
/// does.
///
/// # Errors
/// Those of `within`. What `next_done` took needs no join.
pub fn scope<
    W,
    X: Acts<W>,
    T: Drop,
    E: From<Refusal> + Drop,
    F: FnOnce(&mut X, ScopeId) -> Result<T, E>,
>(cx: &mut X, joiner: Joiner, options: Options, body: F) -> Result<T, E>
    requires { F.IsAlwaysCallable body }
    ensures { RunsWithin (Opens X.token X.left_by_open (policy_of joiner) options) (ClosesNow X.token X.left_by_close X.reads X.time) (λ owes. Unit {0}) E.from_gives F.FnOnce body cx.old cx.new result }
{
    let scope = cx.open(joiner, options)?;
    let found = body(cx, scope);
    let owes = cx.owes(scope);
    let verdict = cx.close(scope)?;
    settled(found, verdict, owes)
}

/// Opens a scope with a joiner that its caller names: the check passes none that is made in a generic call itself.
pub(crate) fn entered<W, X: Acts<W>>(
    cx: &mut X,
    joiner: Joiner,
    options: Options,
) -> Result<ScopeId, Refusal>
    ensures { Opens X.token X.left_by_open (policy_of joiner) options cx.old cx.new result }
{
    cx.open(joiner, options)
}

/// Runs the body with the key bound to the value, and takes that binding away on each way out (JEP 506, `where`).
///
/// # Errors
/// If the bind is refused, what `E` makes of its refusal, and the body is not called. Else what `E` makes of the
/// refusal of the unbind, if that is refused. Else what the body answered.
pub fn bound<W, X: Acts<W>, T: Drop, E: From<Refusal> + Drop, F: FnOnce(&mut X) -> Result<T, E>>(
    cx: &mut X,
    key: Name,
    value: Value,
    body: F,
) -> Result<T, E>
    requires { F.IsAlwaysCallable body }
    ensures { RunsBound X.token key value E.from_gives F.FnOnce body cx.old cx.new result }
{
    cx.bind(key, value)?;
    let found = body(cx);
    cx.unbind()?;
    found
}

/// Runs the body in a scope with a shield, which no cancel from outside reaches (Trio, a shielded cancel scope).
///
/// # Errors
/// Those of `within`.
pub fn shielded<
    W,
    X: Acts<W>,
    T: Drop,
    E: From<Refusal> + Drop,
    F: FnOnce(&mut X, ScopeId) -> Result<T, E>,
>(cx: &mut X, body: F) -> Result<T, E>
    requires { F.IsAlwaysCallable body }
    ensures { RunsWithin (Opens X.token X.left_by_open policy.AwaitAll (record { deadline = None; shield = true; expiry = Fail })) (ClosesNow X.token X.left_by_close X.reads X.time) (λ owes. Unit {0}) E.from_gives F.FnOnce body cx.old cx.new result }
{
    scope(cx, Joiner::AwaitAll, Options::PLAIN.shielded(), body)
}

/// How a body that fails is tried again.
///
/// A body that is tried four times, a millisecond apart:
///
/// ```rust
/// fn tried_until<X: Acts<Shop>>(cx: &mut X, enough: u32) -> Result<u32, Refusal> {
///     let backoff = Backoff {
///         retries: 3,
///         pause: 1,
///     };
///     retry(cx, backoff, |_cx, number| {
///         if number >= enough {
///             Ok(number)
///         } else {
///             Err(Refusal::Unavailable)
///         }
///     })
/// }
/// ```
#[derive(Clone, Copy)]
pub struct Backoff {
    /// How many times at most, behind the first.
    pub retries: u32,
    /// The first pause, in milliseconds; each one after it is twice as long.
    pub pause: u64,
}

/// Calls the body, with the number of its try from 0, until it succeeds, and sleeps between two tries. If a cancel ends
/// the sleep, it tries no more.
///
/// # Errors
/// What the last try failed with; or what `E` makes of the refusal of a sleep.
pub fn retry<
    W,
    X: Acts<W>,
    T: Drop,
    E: From<Refusal> + Drop,
    F: FnMut(&mut X, u32) -> Result<T, E> + Drop,
>(cx: &mut X, backoff: Backoff, mut body: F) -> Result<T, E>
    requires { F.IsAlwaysCallable body }
    ensures { Retries F.FnMut (λ millis old new slept. Sleeps X.reads X.reading X.time X.token X.seat millis old new slept) E.from_gives backoff body cx.old cx.new result }
{
    let mut pause = backoff.pause;
    let mut number = 0u32;
    while number < backoff.retries {
        let error = match body(cx, number) {
            Ok(value) => return Ok(value),
            Err(error) => error,
        };
        if cx.sleep(pause)?.is_some() {
            return Err(error);
        }
        pause = pause.saturating_mul(2);
        number += 1;
    }
    body(cx, number)
}
