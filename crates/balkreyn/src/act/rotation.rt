//! A service that goes on for ever, over two realms in turn.
ghost use Rattle.std.specs.Prelude.{◌≡◌};

use crate::act::baton::{Baton, Side};
use crate::act::hooks::{Happening, Hooks, Observes};
use crate::act::limits::Limiter;
use crate::act::owners::Owner;
use crate::act::rates::Rate;
use crate::act::requests::{Flow, Lost, Source};
use crate::act::tasks::{Task, Timed};
use crate::errors::ServiceError;
use crate::services::serve_within;
use realm_lock::{RealmName, Seed};
use scope_rules::Refusal;
use std::alloc::Global;
use std::marker::{Brand, PhantomData};
use std::rt::Clock as SystemTime;
use std::sync::{Arc, Mutex, Wait};
use std::thread;
use thread_pool::PoolRuntime;

/// Who observes a service that serves requests: its own observer, and the source, which is told of what is lost.
#[derive(Drop)]
struct Teller<W, O, Q> {
    observer: Option<Arc<O, Global>>,
    source: Arc<Q, Global>,
    jobs: PhantomData<Mutex<W>>,
}

impl<W, O: Observes, Q: Source<W>> Observes for Teller<W, O, Q> {
    fn saw<R: Wait>(&self, rt: &R, moment: u64, what: Happening) {
        if let Some(observer) = &self.observer {
            observer.saw(rt, moment, what);
        }
        if let Happening::Lost { name, why } = what {
            self.source.lost(rt, name, why);
        }
    }

    fn is_there(&self) -> bool {
        match &self.observer {
            Some(observer) => observer.is_there(),
            None => false,
        }
    }
}

/// Serves requests until the source has no more, or a stop is asked for: each is a job with a deadline, so many at once and
/// in a second at most. It never goes idle, and has no end by its numbers before some 4,294 million: it serves in two realms
/// in turn, each with a pool of its own, so one retires while the other takes requests. A slow request holds
/// up nobody else while the other realm has room.
///
/// A request whose job doesn't succeed is told to the source once, and one that is never begun. A stop ends each wait of the
/// source at once; requests that run may go on for the grace, and are then cancelled.
///
/// # Errors
/// Why a realm could not be made, or its owner could not go on: the refusal of a scope or of a watch, `Memory`, or `NoTime`.
/// The other owner then begins no more, and ends once what it began has ended.
pub fn serve_requests<
    W: Task + Send + 'static,
    O: Observes + Send + Sync + 'static,
    Q: Source<W> + Send + Sync + 'static,
    R: PoolRuntime + SystemTime,
>(
    rt: &R,
    alloc: Global,
    flow: Flow,
    hooks: Hooks<O>,
    source: Arc<Q, Global>,
) -> Result<(), ServiceError> {
    let (first, second) = (Seed::new(alloc)?, Seed::new(alloc)?);
    let Hooks {
        stop,
        watch,
        load,
        observer,
    } = hooks;
    let teller = Teller {
        observer,
        source: Arc::try_clone(&source)?,
        jobs: PhantomData,
    };
    let observer = match Arc::new(alloc, teller) {
        Ok(observer) => Some(observer),
        Err(_) => return Err(Refusal::Memory.into()),
    };
    let hooks = Hooks {
        stop,
        watch,
        load,
        observer,
    };
    serve_in_turn::<Brand, Brand, W, Teller<W, O, Q>, Q, R>(
        rt,
        alloc,
        (first, second),
        flow,
        &hooks,
        &source,
    )
}

/// The same in realms of these seeds, by their names.
fn serve_in_turn<
    A: RealmName + Send + Sync + 'static,
    B: RealmName + Send + Sync + 'static,
    W: Task + Send + 'static,
    O: Observes + Send + Sync + 'static,
    Q: Source<W> + Sync,
    R: PoolRuntime + SystemTime,
>(
    rt: &R,
    alloc: Global,
    seeds: (Seed, Seed),
    flow: Flow,
    hooks: &Hooks<O>,
    source: &Q,
) -> Result<(), ServiceError>
    requires first { seeds.0 ≡ A.table }
    requires second { seeds.1 ≡ B.table }
{
    let (first_seed, second_seed) = seeds;
    let limiter = Limiter::new(alloc, flow.at_once)?;
    let rates = (
        Rate::new(alloc, flow.per_second)?,
        Rate::new(alloc, flow.per_second)?,
    );
    let baton = Baton::new();
    let owner = |side: Side, rate: Rate| Owner {
        alloc,
        side,
        flow,
        baton: &baton,
        limiter: &limiter,
        rate,
        hooks,
        source,
    };
    let first = owner(Side::First, rates.0);
    let second = owner(Side::Second, rates.1);
    let (one, two) = thread::join(
        rt,
        move ||
            requires { first_seed ≡ A.table }
        { own::<A, W, O, Q, R>(rt, first_seed, first) },
        move ||
            requires { second_seed ≡ B.table }
        { own::<B, W, O, Q, R>(rt, second_seed, second) },
    );
    if let Some(name) = baton.into_intake().end() {
        source.lost(rt, name, Lost::Stopped);
    }
    one.and(two)
}

/// What an owner's thread does. Once it ends, for whatever cause, all is over.
fn own<
    N: RealmName + Send + Sync + 'static,
    W: Task + Send + 'static,
    O: Observes + Send + Sync + 'static,
    Q: Source<W> + Sync,
    R: PoolRuntime + SystemTime,
>(rt: &R, seed: Seed, owner: Owner<'_, W, O, Q>) -> Result<(), ServiceError>
    requires { seed ≡ N.table }
{
    let Owner {
        alloc,
        flow,
        baton,
        ..
    } = owner;
    let served = serve_within::<N, Timed<R, W, O>, _, R>(
        rt,
        alloc,
        seed,
        flow.limits,
        flow.keep,
        owner,
    );
    baton.end(rt);
    served
}
