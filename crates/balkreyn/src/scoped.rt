//! A body that runs in a scope of its own.
ghost use Rattle.std.specs.Prelude.{◌≡◌, IsOk, MatchResult, Ok, true};
ghost use Rattle.balkreyn.specs.{AreGone, Closes, ClosesBy, ClosesFrom, IsOpenOf, ListsBelow, Opens, RunsWithin, SeesMore, SettlesOwing, history_seen, policy_of};

use job_runner::{Clock, TaskCtx};
use join_rules::Joiner;
use realm_lock::RealmName;
use scope_rules::{Catalog, Options, Refusal, ScopeId, Verdict};
use std::rt::Clock as SystemTime;
use std::sync::Wait;
use thread_pool::Spawner;

/// Where scopes are opened and closed by an actor's token: a context, of whatever jobs and threads. It
/// stands between `within` and `TaskCtx`, so that a body is a closure over any context.
///
/// A request in a scope by a deadline:
///
/// ```rust
/// fn sum_within<R: Wait + SystemTime + Copy, N: RealmName, S: CanFork<AnyEnd, N, Ask<R>>>(
///     rt: &R,
///     ctx: &mut TaskCtx<AnyEnd, S, N>,
///     clock: &mut SystemClock<R>,
///     asks: (Ask<R>, Ask<R>),
///     millis: u64,
/// ) -> Result<Option<i64>, Refusal> {
///     let options = fail_after(clock, millis);
///     let (first, second) = asks;
///     within_by(
///         rt,
///         ctx,
///         Joiner::All,
///         options,
///         *clock,
///         |ctx: &mut TaskCtx<AnyEnd, S, N>, scope: ScopeId| -> Result<Option<i64>, Refusal> {
///             fork(rt, ctx, scope, first.shop, first)?;
///             fork(rt, ctx, scope, second.shop, second)?;
///             let joined: Joined = ctx.join_by(rt, scope, clock)?;
///             Ok(sum_in(&joined.outcome))
///         },
///     )
/// }
/// ```
pub trait Scopes {
    ghost use Rattle.std.specs.Prelude.{ℕ, Result};
    ghost use Rattle.scope_rules.specs.declared.types.answers.Verdict.{Verdict};
    ghost use Rattle.scope_rules.specs.declared.types.refusals.Refusal.{Refusal};
    ghost use Rattle.join_rules.specs.Joiners.{policy_of};
    ghost use Rattle.share_ledger.specs.Values.{OwnerValue};
    ghost use Rattle.balkreyn.specs.Bodies.{Closes, ClosesInTime, Opens};

    /// The actor's token.
    ghost token: { Self → OwnerValue };

    /// What an open that is answered so leaves of the rest of the context.
    ghost left_by_open: { Self → Self → Result ℕ Refusal → Type 0 };

    /// What a close of this scope that is answered so leaves of the rest of the context.
    ghost left_by_close: { Self → Self → ℕ → Result Verdict Refusal → Type 0 };

    /// Opens a scope, as `TaskCtx::open` does; a refused joiner is dropped.
    fn open_scope<R: Wait>(
        &mut self,
        rt: &R,
        joiner: Joiner,
        options: Options,
    ) -> Result<ScopeId, Refusal>
        ensures { Opens Self.token Self.left_by_open (policy_of joiner) options self.old self.new result };

    /// Closes the scope, as `TaskCtx::close_scope_bare` does.
    fn close_opened<R: Wait>(&mut self, rt: &R, scope: ScopeId) -> Result<Verdict, Refusal>
        ensures { Closes Self.token Self.left_by_close self.old self.new scope result };

    /// Waits by the clock until the scope can be closed, as `TaskCtx::await_close_by` does, and then closes it as
    /// `close_opened` does, also if a tick was refused.
    fn close_opened_by<R: Wait + SystemTime, K: Clock>(
        &mut self,
        rt: &R,
        scope: ScopeId,
        clock: &mut K,
    ) -> Result<Verdict, Refusal>
        ensures { ClosesInTime Self.token Self.left_by_close K.reads self.old self.new clock.old clock.new scope result };
}

impl<C: Catalog, S: Spawner<N>, N: RealmName> Scopes for TaskCtx<C, S, N> {
    ghost use Rattle.std.specs.Prelude.{◌≡◌, MatchResult};
    ghost use Rattle.thread_pool.specs.Teams.{AreGone};
    ghost use Rattle.job_runner.specs.Lists.{ListsBelow, ListsOne};

    ghost token = { λ ctx. ctx.token };

    ghost left_by_open = { λ old new result. (new ≡ record old { token = new.token; opened = new.opened }) × MatchResult result (λ scope. ListsOne scope old.opened.items new.opened.items) (λ _. new.opened.items ≡ old.opened.items) };

    ghost left_by_close = { λ old new scope result. (new ≡ record old { token = new.token; spawner = new.spawner; opened = new.opened; team = new.team }) × MatchResult result (λ _. AreGone scope new.team × ListsBelow scope old.opened.items new.opened.items) (λ _. (new.team ≡ old.team) × (new.opened ≡ old.opened)) };

    fn open_scope<R: Wait>(
        &mut self,
        rt: &R,
        joiner: Joiner,
        options: Options,
    ) -> Result<ScopeId, Refusal> {
        match self.open(rt, joiner, options) {
            Ok(scope) => Ok(scope),
            Err((refusal, _joiner)) => Err(refusal),
        }
    }

    fn close_opened<R: Wait>(&mut self, rt: &R, scope: ScopeId) -> Result<Verdict, Refusal> {
        self.close_scope_bare(rt, scope)
    }

    fn close_opened_by<R: Wait + SystemTime, K: Clock>(
        &mut self,
        rt: &R,
        scope: ScopeId,
        clock: &mut K,
    ) -> Result<Verdict, Refusal> {
        close_in_time(rt, self, scope, clock)
    }
}

/// Waits by the clock until the scope can be closed, and then closes it, also if a tick was refused.
pub(crate) fn close_in_time<
    C: Catalog,
    S: Spawner<N>,
    N: RealmName,
    R: Wait + SystemTime,
    K: Clock,
>(rt: &R, ctx: &mut TaskCtx<C, S, N>, scope: ScopeId, clock: &mut K) -> Result<Verdict, Refusal>
    ensures rest { (ctx.new ≡ record ctx.old { token = ctx.new.token; spawner = ctx.new.spawner; opened = ctx.new.opened; team = ctx.new.team }) × SeesMore ctx.old.token ctx.new.token }
    ensures answer { ClosesBy K.reads ctx.old.token ctx.new.token clock.old clock.new scope result }
    ensures sure { IsOpenOf (history_seen ctx.old.token) ctx.old.token.actor scope → IsOk result }
    ensures left { MatchResult result (λ _. AreGone scope ctx.new.team × ListsBelow scope ctx.old.opened.items ctx.new.opened.items) (λ _. (ctx.new.team ≡ ctx.old.team) × (ctx.new.opened ≡ ctx.old.opened)) }
{
    let _waited = ctx.await_close_by(rt, scope, clock);
    ctx.close_scope_bare(rt, scope)
}

/// What a scope gives whose body found this, and whose close gave that verdict: a body that succeeded, though it owed a
/// join, has failed.
pub(crate) fn settled<T: Drop, E: From<Refusal> + Drop>(
    found: Result<T, E>,
    verdict: Verdict,
    owes: bool,
) -> Result<T, E>
    ensures { SettlesOwing E.from_gives owes found (Ok verdict) result }
{
    let value = match found {
        Ok(value) => value,
        Err(error) => return Err(error),
    };
    if !owes {
        return Ok(value);
    }
    match verdict {
        Verdict::NotJoined => Err(E::from(Refusal::NotJoined)),
        Verdict::Plain | Verdict::Violated => Ok(value),
    }
}

/// Runs the body in a scope that it opens for it, and closes the scope on each way out, whatever the body
/// answered: a `?` in the body leaves no thread of the scope behind (JEP 505 has the block of a `try` in its
/// place, Trio that of a nursery). What it did is told with the body's own contract in the midst. The close waits
/// without a clock: `within_by` is for scopes in which anybody waits for a deadline. That it returns is not
/// promised.
///
/// # Errors
/// Where the open is refused, what `E` makes of its refusal, and the body is not called. Else what `E` makes of
/// the refusal of the close, if that is refused: never if the token shows the scope as its actor's and not
/// closed when the body is done. Else what the body answered; but if that succeeded, and forked without a join, what `E`
/// makes of `NotJoined` (JEP 505, where `close` throws then).
pub fn within<
    X: Scopes,
    R: Wait,
    T: Drop,
    E: From<Refusal> + Drop,
    F: FnOnce(&mut X, ScopeId) -> Result<T, E>,
>(rt: &R, ctx: &mut X, joiner: Joiner, options: Options, body: F) -> Result<T, E>
    requires { F.IsAlwaysCallable body }
    ensures { RunsWithin (Opens X.token X.left_by_open (policy_of joiner) options) (Closes X.token X.left_by_close) (λ owes. owes ≡ true) E.from_gives F.FnOnce body ctx.old ctx.new result }
{
    let scope = ctx.open_scope(rt, joiner, options)?;
    let found = body(ctx, scope);
    let verdict = ctx.close_opened(rt, scope)?;
    settled(found, verdict, true)
}

/// Runs the body in a scope as `within` does, and closes it by the clock: so a deadline passes also while the
/// scope waits for its last tasks, even behind a shield (Trio, whose run loop wakes at the next deadline). Where a
/// tick is refused, it goes on without the clock. The clock is a copy of the one by which the body waits.
///
/// # Errors
/// Those of `within`.
pub fn within_by<
    X: Scopes,
    R: Wait + SystemTime,
    K: Clock + Drop,
    T: Drop,
    E: From<Refusal> + Drop,
    F: FnOnce(&mut X, ScopeId) -> Result<T, E>,
>(rt: &R, ctx: &mut X, joiner: Joiner, options: Options, mut clock: K, body: F) -> Result<T, E>
    requires { F.IsAlwaysCallable body }
    ensures { RunsWithin (Opens X.token X.left_by_open (policy_of joiner) options) (ClosesFrom X.token X.left_by_close K.reads clock) (λ owes. owes ≡ true) E.from_gives F.FnOnce body ctx.old ctx.new result }
{
    let scope = ctx.open_scope(rt, joiner, options)?;
    let found = body(ctx, scope);
    let verdict = ctx.close_opened_by(rt, scope, &mut clock)?;
    settled(found, verdict, true)
}
