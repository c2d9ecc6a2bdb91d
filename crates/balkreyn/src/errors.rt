//! What a service may fail with beside a refusal.
ghost use Rattle.std.specs.Prelude.{◌≡◌};
ghost use Rattle.balkreyn.specs.{Memory};
ghost use Rattle.balkreyn.specs.declared.errors.ServiceError.TheVariants as failed;

use scope_rules::Refusal;
use std::alloc::{AllocError, AllocFailed};
use std::error::Error;
use std::fmt;

/// The system gives no time.
///
/// An error of a service that may be this one:
///
/// ```rust
/// #[derive(Debug, Drop, Error)]
/// enum Failed {
///     #[error("{0}")]
///     Refused(#[from] Refusal),
///     #[error(transparent)]
///     Time(#[from] NoTime),
///     #[error("nobody wants the price any more")]
///     Unwanted,
/// }
/// ```
#[derive(Clone, Copy, Debug, PartialEq, Eq)]
pub struct NoTime;

impl fmt::Display for NoTime {
    fn fmt<W: fmt::Write>(&self, f: &mut fmt::Formatter<W>) -> fmt::Result {
        write!(f, "the system gives no time")
    }
}

impl Error for NoTime {}

/// Why a service failed that has no error of its own: `?` makes one of a refusal, of want of memory, and of a clock that
/// is not had.
///
/// A service hands on each refusal by a `?`:
///
/// ```rust
/// impl<N: RealmName, R: Handle, S: CanFork<AnyEnd, N, Work<R, N>>> Service<S, N, R> for Hangs {
///     #[tactic(auto, unfolding(scope_rules::specs::NameText::is_name))]
///     fn serve(self, rt: &R, ctx: &mut TaskCtx<AnyEnd, S, N>) -> Result<Seen, ServiceError> {
///         let clock = realm_clock(rt)?;
///         let (shop, watch) = (Name::literal(b"shop"), Name::literal(b"watch"));
///         let alloc = self.alloc;
///         let job = Watch {
///             alloc,
///             realm: ctx.realm()?,
///             millis: 30,
///             clock,
///         };
///         let seen: Seen = within(rt, ctx, Joiner::Any, Options::PLAIN, |ctx, scope| {
///             fork(rt, ctx, scope, shop, Work::Shop)?;
///             await_start(rt, ctx, scope)?;
///             let slot = fork_typed(rt, alloc, ctx, scope, watch, job)?;
///             ctx.join(rt, scope)?;
///             slot.take(rt, ctx)
///         })?;
///         Ok(seen)
///     }
/// }
/// ```
#[derive(Clone, Copy, Debug, PartialEq, Eq)]
pub enum ServiceError {
    /// The runtime refused a call.
    Refused(Refusal),
    /// The system gives no time.
    NoTime,
}

impl fmt::Display for ServiceError {
    fn fmt<W: fmt::Write>(&self, f: &mut fmt::Formatter<W>) -> fmt::Result {
        match self {
            ServiceError::Refused(refusal) => write!(f, "{refusal}"),
            ServiceError::NoTime => write!(f, "{NoTime}"),
        }
    }
}

impl Error for ServiceError {}

impl From<Refusal> for ServiceError {
    ghost from_gives = { λ refusal error. error ≡ failed.Refused refusal };

    fn from(refusal: Refusal) -> ServiceError {
        ServiceError::Refused(refusal)
    }
}

impl From<AllocError> for ServiceError {
    ghost from_gives = { λ none error. error ≡ failed.Refused Memory };

    fn from(_none: AllocError) -> ServiceError {
        ServiceError::Refused(Refusal::Memory)
    }
}

/// The same. The value that could not be stored is dropped.
impl<T: Drop> From<AllocFailed<T>> for ServiceError {
    ghost from_gives = { λ _ error. error ≡ failed.Refused Memory };

    fn from(_none: AllocFailed<T>) -> ServiceError {
        ServiceError::Refused(Refusal::Memory)
    }
}

impl From<NoTime> for ServiceError {
    ghost from_gives = { λ none error. error ≡ failed.NoTime };

    fn from(_none: NoTime) -> ServiceError {
        ServiceError::NoTime
    }
}
