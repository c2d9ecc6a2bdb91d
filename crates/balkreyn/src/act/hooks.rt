//! What a service is run with beside its threads: who observes it, what it may have at hand, and its stop.

ghost use Rattle.std.specs.Prelude.{◌<◌, ◌≡◌, IfOk, IfSome, IsSomeAnd, MatchResult, option_map};
ghost use Rattle.balkreyn.specs.{Memory, arc_value};

use crate::act::current::CurrentWaits;
use crate::act::requests::Lost;
use crate::act::stops::Stop;
use crate::act::watches::Watch;
use scope_rules::{CauseKind, Fault, Limits, Name, Refusal, ScopeId};
use std::alloc::{AllocError, Global};
use std::sync::atomic::{AtomicU64, Ordering};
use std::sync::{Arc, Wait};

/// What happened to a job, or a scope.
///
/// An observer that counts what it sees:
///
/// ```rust
/// impl Observes for Counts {
///     fn saw<R: Wait>(&self, _rt: &R, _moment: u64, what: Happening) {
///         let counter = match what {
///             Happening::Forked { .. } => &self.forked,
///             Happening::Refused {
///                 refusal: Refusal::Memory,
///                 ..
///             } => &self.refused,
///             Happening::Started { .. } => &self.started,
///             Happening::Ended {
///                 fault: Some(_fault),
///                 ..
///             } => &self.failed,
///             Happening::Cancelled { .. } => &self.cancelled,
///             _ => return,
///         };
///         counter.fetch_add(1, Ordering::SeqCst);
///     }
/// }
/// ```
#[derive(Clone, Copy, PartialEq, Eq)]
pub enum Happening {
    /// A job of this name was forked in the scope; by a scope that is cancelled it is never begun.
    Forked {
        name: Name,
        scope: ScopeId,
    },
    /// The fork of such a job was refused.
    Refused {
        name: Name,
        scope: ScopeId,
        refusal: Refusal,
    },
    /// A thread began the job.
    Started {
        name: Name,
    },
    /// The job ended, with this fault if it failed.
    Ended {
        name: Name,
        fault: Option<Fault>,
    },
    /// A request of `serve_requests` wasn't answered. Its source is told, too.
    Lost {
        name: Name,
        why: Lost,
    },
    /// The scope itself was cancelled, by this; the scopes inside, which that reaches, aren't reported. `Observes` says who
    /// reports it, and when.
    Cancelled {
        scope: ScopeId,
        kind: CauseKind,
    },
}

/// Who is called about what happens, by the thread on which it happens, with the time in milliseconds of the realm's
/// time. The realm's lock is free then, so it may wait; while it does, so does who forks, or ends (Trio, an `Instrument`).
///
/// A task reports a cancel when it learns of it, and none twice, if there is memory to note it. No lock is taken for that:
///
/// - A call: by its caller, at once. One on a scope that is cancelled already does nothing, and isn't reported.
/// - A deadline or a joiner: by the owner of the scope, at the join, or at a sleep or a checkpoint inside before that. An
///   owner that does none of these before the close doesn't report it, since a close tells no cause.
/// - A close: by each task that it cuts off, at the next sleep, checkpoint or join of that task. So several tasks may
///   report one close, and none does if it cuts off nothing.
///
/// A scope is itself cancelled once, so two reports of one scope are of one cancel. The time is that of the report.
///
/// An observer of cancels alone:
///
/// ```rust
/// impl Observes for Heard {
///     fn saw<R: Wait>(&self, _rt: &R, _moment: u64, what: Happening) {
///         let counter = match what {
///             Happening::Cancelled { kind, .. } => self.counter(kind),
///             _ => return,
///         };
///         counter.fetch_add(1, Ordering::SeqCst);
///     }
/// }
/// ```
pub trait Observes: Drop {
    /// Takes note of it. The start of a job may be seen before its fork. Of the watches of a service, which are jobs named
    /// `stop` and `watch`, only start and end are reported, and the call by which a stop cancels.
    fn saw<R: Wait>(&self, rt: &R, moment: u64, what: Happening);

    /// Whether there is somebody. If not, no cancel is looked into or noted for a report.
    fn is_there(&self) -> bool {
        true
    }
}

/// Nobody.
impl Observes for () {
    fn saw<R: Wait>(&self, _rt: &R, _moment: u64, _what: Happening) {}

    fn is_there(&self) -> bool {
        false
    }
}

/// How many jobs a service has at hand, from their fork to their end, and how many it may have. Each holds a thread.
///
/// At most two jobs are at hand, and the counters are read behind the service:
///
/// ```rust
/// fn hooked<R: PoolRuntime + SystemTime>(
///     rt: &R,
///     alloc: Global,
/// ) -> Result<((u64, u64, u64, u64, u64), (u64, u64, u64), bool), Refusal> {
///     let load = Arc::new(alloc, Load::at_most(2))?;
///     let observer = Arc::new(alloc, Counts::new())?;
///     let hooks = Hooks {
///         stop: None,
///         watch: None,
///         load: Some(Arc::try_clone(&load)?),
///         observer: Some(Arc::try_clone(&observer)?),
///     };
///     let served = serve::<Lasts, Counts, Three, R>(rt, alloc, 2, hooks, Three);
///     let wanted = matches!(served, Ok((None, None, Some(Refusal::Memory))));
///     let counted = (load.at_hand(), load.forked(), load.refused());
///     Ok((observer.all(), counted, wanted))
/// }
/// ```
#[derive(Drop)]
pub struct Load {
    most: u64,
    at_hand: AtomicU64,
    forked: AtomicU64,
    refused: AtomicU64,
}

/// One of the jobs at hand. It is no more once this is dropped.
pub(crate) struct AtHand {
    load: Arc<Load, Global>,
}

impl Load {
    /// So many at most: a fork beyond them is refused for `Memory`, before the realm hears of it.
    pub fn at_most(most: u64) -> Load
        ensures { result.most ≡ most }
    {
        Load {
            most,
            at_hand: AtomicU64::new(0),
            forked: AtomicU64::new(0),
            refused: AtomicU64::new(0),
        }
    }

    /// How many jobs are at hand.
    pub fn at_hand(&self) -> u64 {
        self.at_hand.load(Ordering::SeqCst)
    }

    /// How many were forked since the service began.
    pub fn forked(&self) -> u64 {
        self.forked.load(Ordering::SeqCst)
    }

    /// How many forks were refused, for this or another reason.
    pub fn refused(&self) -> u64 {
        self.refused.load(Ordering::SeqCst)
    }

    /// Counts one more at hand, if there may be one: there is none under a cap of 0. How many there are no clause knows,
    /// since another thread may change that at any time.
    pub(crate) fn begin(load: &Arc<Load, Global>) -> Result<Option<AtHand>, AllocError>
        ensures { IfOk result (λ found. IfSome found (λ one. (0 < (arc_value load.now).most) × (arc_value one.load ≡ arc_value load.now))) }
    {
        let one = AtHand {
            load: Arc::try_clone(load)?,
        };
        let before = load.at_hand.fetch_add(1, Ordering::SeqCst);
        if before < load.most {
            Ok(Some(one))
        } else {
            Ok(None)
        }
    }

    /// Counts what a fork came to.
    pub(crate) fn count(&self, is_forked: bool) {
        if is_forked {
            self.forked.fetch_add(1, Ordering::SeqCst);
        } else {
            self.refused.fetch_add(1, Ordering::SeqCst);
        }
    }
}

impl Drop for AtHand {
    fn drop(self) {
        let AtHand { load } = self;
        load.at_hand.fetch_sub(1, Ordering::SeqCst);
    }
}

/// The hooks of a service. Who looks at the counters, or asks for the stop, has a share of its own.
///
/// A stop and a watch, and nothing else:
///
/// ```rust
/// fn hooks_of(io: HostRuntime, stop: Arc<Stop, Global>) -> Result<Hooks<()>, Refusal> {
///     Ok(Hooks {
///         stop: Some(stop),
///         watch: Some(watch_of(io, "stopped-tree", 2, 60)?),
///         load: None,
///         observer: None,
///     })
/// }
/// ```
#[derive(Drop)]
pub struct Hooks<O> {
    /// What stops it, if anything may.
    pub stop: Option<Arc<Stop, Global>>,
    /// What watches it from its begin to its end, if anything does.
    pub watch: Option<Watch>,
    /// Its counters, and its cap, if it has any.
    pub load: Option<Arc<Load, Global>>,
    /// Who observes it, if somebody does.
    pub observer: Option<Arc<O, Global>>,
}

impl Hooks<()> {
    /// No hooks: such a service ends by itself.
    pub fn none() -> Hooks<()> {
        Hooks {
            stop: None,
            watch: None,
            load: None,
            observer: None,
        }
    }
}

/// What each job of a service has of its hooks.
#[derive(Drop)]
pub(crate) struct Shares<O> {
    pub(crate) load: Option<Arc<Load, Global>>,
    pub(crate) observer: Option<Arc<O, Global>>,
    /// In which calls the actors of its realm wait.
    pub(crate) waits: Arc<CurrentWaits, Global>,
}

impl<O: Drop> Shares<O> {
    /// The shares of these, in a realm with such limits, in which nobody waits.
    pub(crate) fn new(
        alloc: Global,
        limits: Limits,
        load: Option<Arc<Load, Global>>,
        observer: Option<Arc<O, Global>>,
    ) -> Result<Shares<O>, AllocError> {
        let waits = match Arc::new(alloc, CurrentWaits::new(alloc, limits)?) {
            Ok(waits) => waits,
            Err(_) => return Err(AllocError),
        };
        Ok(Shares {
            load,
            observer,
            waits,
        })
    }

    /// The same for one more.
    pub(crate) fn share(&self) -> Result<Shares<O>, AllocError>
        ensures { IfOk result (λ other. (option_map arc_value other.load ≡ option_map arc_value self.now.load) × (option_map arc_value other.observer ≡ option_map arc_value self.now.observer)) }
    {
        Ok(Shares {
            load: share_of(&self.load)?,
            observer: share_of(&self.observer)?,
            waits: Arc::try_clone(&self.waits)?,
        })
    }

    /// One more job at hand, if there may be one, and its shares.
    pub(crate) fn begin(&self) -> Result<(Option<AtHand>, Shares<O>), Refusal>
        ensures counted { IfOk result (λ begun. IfSome self.now.load (λ load. IsSomeAnd begun.0 (λ one. (0 < (arc_value load).most) × (arc_value one.load ≡ arc_value load)))) }
        ensures shared { MatchResult result (λ begun. option_map arc_value begun.1.observer ≡ option_map arc_value self.now.observer) (λ refusal. refusal ≡ Memory) }
    {
        let shares = self.share()?;
        match &self.load {
            None => Ok((None, shares)),
            Some(load) => match Load::begin(load)? {
                Some(one) => Ok((Some(one), shares)),
                None => Err(Refusal::Memory),
            },
        }
    }

    /// Counts what a fork came to.
    pub(crate) fn count(&self, is_forked: bool) {
        if let Some(load) = &self.load {
            load.count(is_forked);
        }
    }
}

impl<O: Observes> Shares<O> {
    /// Whether somebody observes.
    pub(crate) fn is_observed(&self) -> bool {
        match &self.observer {
            Some(observer) => observer.is_there(),
            None => false,
        }
    }

    /// Calls the observer about it, if somebody observes.
    pub(crate) fn saw<R: Wait>(&self, rt: &R, moment: u64, what: Happening) {
        if let Some(observer) = &self.observer {
            observer.saw(rt, moment, what);
        }
    }
}

/// One share more, if there is anything to share.
pub(crate) fn share_of<T>(
    shared: &Option<Arc<T, Global>>,
) -> Result<Option<Arc<T, Global>>, AllocError>
    ensures { IfOk result (λ other. option_map arc_value other ≡ option_map arc_value shared.now) }
{
    match shared {
        Some(one) => Ok(Some(Arc::try_clone(one)?)),
        None => Ok(None),
    }
}
