ghost use Rattle.std.specs.Prelude.{[], ◌≡◌, None};
ghost use Rattle.realm_core.specs.Calls.{history_seen};
ghost use Rattle.scope_rules.specs.Scopes.{innermost};

use crate::opaque::OpaqueRealm;
use crate::readers::CellReader;
use realm_lock::{ActorToken, Realm, RealmName};
use scope_rules::{Actor, Catalog, ScopeId};
use share_ledger::OfRealm;
use std::alloc::Global;
use thread_pool::{Spawner, Team};

/// A scope that was opened in a context and not closed there, with a seat at its own cell.
#[derive(Drop)]
pub(crate) struct OpenScope {
    pub(crate) scope: ScopeId,
    pub(crate) reader: CellReader,
    pub(crate) ghost of: { reader.cell.scope ≡ scope },
}

/// What an actor of a realm acts by: main, or the job of a task (JEP 505 ties such calls to the thread
/// that opened a scope; here they are tied to the context). It has the actor's token, of which contracts
/// speak: each call says what the token has seen then. A context can't be dropped: main's is left by
/// `leave`, and a task's is ended by its thread.
///
/// Two jobs in a scope by a deadline, as a test of `service_tests` has it:
///
/// ```rust
/// fn sum_within<R: Wait + SystemTime + Copy, N: RealmName, S: CanFork<AnyEnd, N, Ask<R>>>(
///     rt: &R,
///     ctx: &mut TaskCtx<AnyEnd, S, N>,
///     clock: &mut SystemClock<R>,
///     asks: (Ask<R>, Ask<R>),
///     millis: u64,
/// ) -> Result<Option<i64>, Refusal> {
///     let options = fail_after(clock, millis);
///     let (first, second) = asks;
///     within_by(
///         rt,
///         ctx,
///         Joiner::All,
///         options,
///         *clock,
///         |ctx: &mut TaskCtx<AnyEnd, S, N>, scope: ScopeId| -> Result<Option<i64>, Refusal> {
///             fork(rt, ctx, scope, first.shop, first)?;
///             fork(rt, ctx, scope, second.shop, second)?;
///             let joined: Joined = ctx.join_by(rt, scope, clock)?;
///             Ok(sum_in(&joined.outcome))
///         },
///     )
/// }
/// ```
pub struct TaskCtx<C: Catalog, S: Spawner<N>, N: RealmName> {
    pub(crate) alloc: Global,
    pub(crate) realm: OpaqueRealm<C, N>,
    pub(crate) token: OfRealm<N, ActorToken>,
    pub(crate) spawner: S,
    /// Of the scope in which the context's task was forked; main has none.
    pub(crate) around: Option<CellReader>,
    /// The scopes that are open, the latest last.
    pub(crate) opened: Vec<OpenScope>,
    /// The threads of these scopes, and the tickets of those that were joined.
    pub(crate) team: Team<N, S>,
}

impl<C: Catalog, S: Spawner<N>, N: RealmName> TaskCtx<C, S, N> {
    /// Main's context, with main's token of the realm, to which main has no scope that is not closed: a scope
    /// that was opened by the realm itself, before, would have no mark here, and no thread. So it has no scope
    /// listed, and no thread.
    pub fn main(
        alloc: Global,
        realm: Realm<C, N>,
        token: ActorToken,
        spawner: S,
    ) -> TaskCtx<C, S, N>
        requires named { token.table ≡ N.table }
        requires idle { innermost (history_seen token) token.actor ≡ None }
        ensures { (result.token ≡ token) × (result.opened.items ≡ []) × (result.team.running ≡ []) × (result.around ≡ None) }
    {
        TaskCtx::of_actor(alloc, OpaqueRealm::new(realm), token, spawner, None)
    }

    /// Who acts by it: the number of the task, or 0 for main (Trio, `current_task`).
    pub fn actor(&self) -> Actor
        ensures { result ≡ self.now.token.actor }
    {
        self.token.held.actor()
    }

    /// The context of an actor that has no scope, with the mark of the scope around it.
    pub(crate) fn of_actor(
        alloc: Global,
        realm: OpaqueRealm<C, N>,
        token: ActorToken,
        spawner: S,
        around: Option<CellReader>,
    ) -> TaskCtx<C, S, N>
        requires { token.table ≡ N.table }
        ensures { (result.token ≡ token) × (result.opened.items ≡ []) × (result.team.running ≡ []) × (result.around ≡ around) }
    {
        TaskCtx {
            alloc,
            realm,
            token: OfRealm::new(token),
            spawner,
            around,
            opened: Vec::new(alloc),
            team: Team::new(alloc),
        }
    }
}
