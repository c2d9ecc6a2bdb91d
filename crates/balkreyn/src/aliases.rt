//! Bounds under one name.

use job_runner::{Answers, JobWork};
use realm_lock::RealmName;
use scope_rules::Catalog;
use std::rt::Clock as SystemTime;
use std::sync::Wait;
use thread_pool::Spawns;

/// An executor on the threads of a realm that is named `N`, onto which jobs of type `J` can be forked. All
/// spawners of their works are such.
///
/// A helper that may fork jobs of this type:
///
/// ```rust
/// fn take_nap<N: RealmName, R: Handle, S: CanFork<AnyEnd, N, WithRuntime<R, Nap>>>(
///     rt: &R,
///     ctx: &mut TaskCtx<AnyEnd, S, N>,
///     job: Nap,
/// ) -> Result<State, Refusal> {
///     within(rt, ctx, Joiner::AwaitAll, Options::PLAIN, |ctx, scope| {
///         let io = *rt;
///         fork(rt, ctx, scope, job.name, WithRuntime { io, job })?;
///         ctx.join(rt, scope)?;
///         ctx.state(rt, 1)
///     })
/// }
/// ```
pub trait CanFork<C: Catalog, N: RealmName, J: Answers>: Spawns<N, JobWork<C, N, J>> {}

impl<C: Catalog, N: RealmName, J: Answers, S: Spawns<N, JobWork<C, N, J>>> CanFork<C, N, J> for S {}

/// A runtime by which one waits and sleeps, and that a job can have as its own handle: a `HostRuntime` is one.
///
/// A service under any such runtime:
///
/// ```rust
/// impl<N: RealmName, R: Handle, S: CanFork<AnyEnd, N, Ask<R>>> Service<S, N, R> for TwoShops {
///     fn serve(self, rt: &R, ctx: &mut TaskCtx<AnyEnd, S, N>) -> Result<Option<i64>, Failed> {
///         let mut clock = realm_clock(rt)?;
///         let first = Ask {
///             shop: self.shop,
///             price: 30,
///             takes: 5,
///             clock,
///         };
///         let second = Ask {
///             price: 12,
///             takes: self.takes,
///             ..first
///         };
///         Ok(serve(rt, ctx, &mut clock, (first, second), self.request)?)
///     }
/// }
/// ```
pub trait Handle: Wait + SystemTime + Copy {}

impl<R: Wait + SystemTime + Copy> Handle for R {}
