//! Jobs with a result of their own type.
ghost use Rattle.std.specs.Prelude.{◌≡◌, IfOk, pos};
ghost use Rattle.scope_rules.specs.declared.types.values.Value.TheVariants as value;

use crate::errors::ServiceError;
use crate::places::JobShare;
use job_runner::{Answers, Job, TaskCtx};
use realm_lock::RealmName;
use scope_rules::{AnyEnd, End, Fault, Name, Refusal, Value};
use std::marker::Model;
use std::sync::Wait;
use thread_pool::Spawner;

/// What a job fails with that has errors of its own type. The rules know its task by a fault, which the error gives.
///
/// An error that gives its task's fault a name of its own:
///
/// ```rust
/// impl JobError for NoStock {
///     fn fault(&self, name: Name) -> Fault {
///         match self {
///             NoStock::Empty => Fault(named(b"empty")),
///             _ => Fault(name),
///         }
///     }
/// }
/// ```
pub trait JobError: Drop {
    /// The fault of a task whose job failed so, and was forked under the name: that name, if it does not say.
    fn fault(&self, name: Name) -> Fault {
        Fault(name)
    }
}

impl JobError for Refusal {}

impl JobError for ServiceError {}

impl JobError for Fault {
    fn fault(&self, _name: Name) -> Fault {
        *self
    }
}

/// What a job answers that is of a type of its own. It stands apart from how the job runs, as `Answers`
/// does.
///
/// ```rust
/// impl Yields for AskStock {
///     type Value = Stock;
///
///     type Error = NoStock;
///
///     ghost is_fact = { λ name stock. Prim.hlevel };
/// }
/// ```
pub trait Yields {
    ghost use Rattle.scope_rules.specs.declared.types.names.Name.{Name};

    /// Of what type that is.
    type Value: Drop;

    /// What it fails with: `Refusal`, `Fault`, `ServiceError`, or a type of its own. `?` makes one of a refusal if it
    /// has `From<Refusal>`.
    type Error: JobError + Drop;

    /// A job that is forked under this name may answer this value: any, if it does not say.
    ghost may_yield: { Name → Self.Value → Type 0 } = { λ name value. Unit {0} };

    /// That it may is a fact: there is at most one proof of it.
    ghost is_fact: { (name : Name) (value : Self.Value) → IsProp (may_yield name value) };
}

/// A job that answers a value of a type of its own (JEP 505 has a `Callable` of that type), or an error of its own. It
/// acts by its context, as any job.
///
/// ```rust
/// impl<N: RealmName, S: Spawner<N>> TypedJob<S, N> for AskStock {
///     fn run_typed<R: Wait>(
///         self,
///         _rt: &R,
///         _ctx: &mut TaskCtx<AnyEnd, S, N>,
///         name: Name,
///     ) -> Result<Stock, Fault> {
///         match self.pieces {
///             0 => Err(Fault(name)),
///             pieces => Ok(Stock { pieces }),
///         }
///     }
/// }
/// ```
pub trait TypedJob<S: Spawner<N>, N: RealmName>: Yields {
    /// Does the job, which was forked under the name.
    fn run_typed<R: Wait>(
        self,
        rt: &R,
        ctx: &mut TaskCtx<AnyEnd, S, N>,
        name: Name,
    ) -> Result<Self::Value, Self::Error>
        ensures { IfOk result (λ value. Self.may_yield name value) };
}

/// Such a job, with the place to which its value goes. It is a job of the runtime, whose task succeeds with
/// the number 0 if there is a value, and else fails with the fault of the job's error.
///
/// The arm of a service's jobs in which it is forked:
///
/// ```rust
/// impl From<Typed<AskStock>> for Shop {
///     fn from(typed: Typed<AskStock>) -> Shop {
///         Shop::Stock(typed)
///     }
/// }
/// ```
#[derive(Drop)]
pub struct Typed<J: Yields> {
    pub(crate) name: Name,
    pub(crate) job: J,
    pub(crate) share: JobShare<J>,
}

impl<J: Yields> Model for Typed<J> {
    ghost use Rattle.balkreyn.specs.Slots.{NamedValue};

    ghost Value = { NamedValue J };

    ghost view = { λ t. record { name = t.name; job = t.job } };
}

impl<J: Yields> Answers for Typed<J> {
    ghost may_end = { λ typed end. IfOk end (λ number. number ≡ value.Num (pos 0)) };
}

impl<J: TypedJob<S, N>, N: RealmName, S: Spawner<N>> Job<AnyEnd, S, N> for Typed<J> {
    fn run<R: Wait>(self, rt: &R, ctx: &mut TaskCtx<AnyEnd, S, N>) -> End {
        let Typed { name, job, share } = self;
        match job.run_typed(rt, ctx, name) {
            Ok(value) => {
                share.place.put(rt, name, value);
                Ok(Value::Num(0))
            }
            Err(error) => Err(share.place.fail(rt, name, error)),
        }
    }
}
