//! Many typed jobs, of which so many run at a time.
ghost use Rattle.std.specs.Prelude.{◌≡◌, ◌⊎◌, All, Err, IfOk, MatchResult, length, max, pos};
ghost use Rattle.balkreyn.specs.{ClosesNow, Forked, GivesEach, Maps, MayCome, Memory, Opens, RunsJobs, StopsStaffing, arc_value};
ghost use Rattle.scope_rules.specs.declared.types.joiners.Policy.TheVariants as policy;
ghost use Rattle.scope_rules.specs.declared.types.values.Value.TheVariants as value;

use crate::act::blocks::entered;
use crate::act::came::{Came, came_of};
use crate::act::contexts::Acts;
use crate::act::tasks::Task;
use crate::act::valued::TypedTask;
use crate::jobs::Yields;
use crate::places::Place;
use join_rules::Joiner;
use realm_lock::Mark;
use scope_rules::{End, Fault, Name, Options, Refusal, ScopeId, Value};
use std::alloc::Global;
use std::sync::{Arc, Mutex};

/// The jobs that no worker has taken, the first of them last, and where each leaves what it came to.
#[derive(Drop)]
struct Batch<J: Yields> {
    jobs: Mutex<Vec<(usize, J)>>,
    places: Vec<Place<J>>,
}

/// What does one job of a batch after the other, until there is none left, or one fails. It is a job of the service,
/// whose type is made of it (`From`).
///
/// The arm of a service's jobs in which `map_at_most` forks its workers:
///
/// ```rust
/// impl From<Worker<AskStock>> for Shop {
///     fn from(worker: Worker<AskStock>) -> Shop {
///         Shop::Stocks(worker)
///     }
/// }
/// ```
#[derive(Drop)]
pub struct Worker<J: Yields> {
    name: Name,
    batch: Arc<Batch<J>, Global>,
}

impl<J: Yields + Drop> Worker<J> {
    /// Does the jobs that it takes, one after the other. Its task succeeds with the number 0 once there is none left, and
    /// fails with the fault of the first error.
    pub fn act<W, X: Acts<W>>(self, cx: &mut X) -> End
    where
        J: TypedTask<W>,
        ensures { IfOk result (λ number. number ≡ value.Num (pos 0)) }
    {
        for _ in 0..self.batch.places.len() {
            if cx.checkpoint().is_some() {
                return Err(Fault(self.name));
            }
            let Some((place, job)) = self.batch.jobs.lock(cx).pop() else {
                return Ok(Value::Num(0));
            };
            let found = job.run_typed(cx, self.name);
            if let Some(place) = self.batch.places.get(place) {
                match found {
                    Ok(value) => place.put(cx, self.name, value),
                    Err(error) => return Err(place.fail(cx, self.name, error)),
                }
            }
        }
        Ok(Value::Num(0))
    }
}

/// A service whose only jobs are the workers of one batch needs no type for them.
impl<J: Yields + TypedTask<Worker<J>> + Drop> Task for Worker<J> {
    fn run<X: Acts<Worker<J>>>(self, cx: &mut X) -> End {
        self.act(cx)
    }
}

/// Runs all these jobs in a scope of their own, so many at a time, in order, and gives what came of each (Trio, a
/// `CapacityLimiter` in a nursery). The first that fails ends it: then no job begins any more, and those that were cut off,
/// or never began, have the mark. `all_values` makes one answer of them.
///
/// # Errors
/// The refusal of a call.
pub fn map_at_most<J: Yields + Drop, W: From<Worker<J>>, X: Acts<W>>(
    cx: &mut X,
    name: Name,
    options: Options,
    at_once: u32,
    jobs: Vec<J>,
) -> Result<Vec<Came<J::Value, J::Error>>, Refusal>
where
    J::Error: From<Refusal>,
    ensures { ((result ≡ Err Memory) × (cx.new ≡ cx.old)) ⊎ RunsJobs (Opens X.token X.left_by_open policy.AwaitOk options) (ClosesNow X.token X.left_by_close X.reads X.time) (λ scope begun ended found. Maps X.token X.reads X.time name (max at_once 1) (λ after new cames. GivesEach X.token X.seat (J.may_yield name) ⟦<J::Error as From<Refusal>>⟧.from_gives (length jobs.items) after new cames.items) scope begun ended found) cx.old cx.new result }
{
    let batch = batch_of(cx.alloc(), jobs)?;
    let scope = entered(cx, Joiner::AwaitOk, options)?;
    let found = mapped(cx, scope, name, at_once.max(1), &batch);
    cx.close(scope)?;
    found
}

/// Forks so many workers in the scope, joins it, and gives what they left of each job.
fn mapped<J: Yields + Drop, W: From<Worker<J>>, X: Acts<W>>(
    cx: &mut X,
    scope: ScopeId,
    name: Name,
    workers: u32,
    batch: &Arc<Batch<J>, Global>,
) -> Result<Vec<Came<J::Value, J::Error>>, Refusal>
where
    J::Error: From<Refusal>,
    ensures { Maps X.token X.reads X.time name workers (λ after new cames. GivesEach X.token X.seat (J.may_yield name) ⟦<J::Error as From<Refusal>>⟧.from_gives (length (arc_value batch.now).places.items) after new cames.items) scope cx.old cx.new result }
{
    staffed(cx, scope, name, workers, batch)?;
    cx.join(scope)?;
    let mut shown = cx.checkpoint();
    left_by(cx, name, batch, &mut shown)
}

/// Forks so many workers in the scope.
fn staffed<J: Yields + Drop, W: From<Worker<J>>, X: Acts<W>>(
    cx: &mut X,
    scope: ScopeId,
    name: Name,
    workers: u32,
    batch: &Arc<Batch<J>, Global>,
) -> Result<(), Refusal>
    ensures { MatchResult result (λ _. Forked X.token scope name cx.old workers cx.new) (StopsStaffing X.token scope name cx.old cx.new) }
{
    let mut number = 0u32;
    while number < workers {
        let batch = Arc::try_clone(batch)?;
        cx.fork(scope, name, W::from(Worker { name, batch }))?;
        number += 1;
    }
    Ok(())
}

/// A batch of these jobs.
fn batch_of<J: Yields + Drop>(alloc: Global, jobs: Vec<J>) -> Result<Arc<Batch<J>, Global>, Refusal>
    ensures { MatchResult result (λ batch. length (arc_value batch).places.items ≡ length jobs.items) (λ refusal. refusal ≡ Memory) }
{
    let places = places_of(alloc, jobs.len())?;
    let mut left = Vec::new(alloc);
    for (place, job) in jobs.into_iter().enumerate() {
        left.push((place, job))?;
    }
    left.reverse();
    let jobs = Mutex::new(left);
    let batch = Batch { jobs, places };
    Ok(Arc::new(alloc, batch)?)
}

/// So many places with nothing in them.
fn places_of<J: Yields>(alloc: Global, count: usize) -> Result<Vec<Place<J>>, Refusal>
    ensures { MatchResult result (λ places. length places.items ≡ count) (λ refusal. refusal ≡ Memory) }
{
    let mut places = Vec::new(alloc);
    for _place in 0..count {
        places.push(Place::new())?;
    }
    Ok(places)
}

/// What the workers left of each job, in order, if this mark was shown behind the join.
fn left_by<J: Yields, W, X: Acts<W>>(
    cx: &X,
    name: Name,
    batch: &Batch<J>,
    shown: &mut Option<Mark>,
) -> Result<Vec<Came<J::Value, J::Error>>, Refusal>
where
    J::Error: From<Refusal>,
    ensures { IfOk result (λ cames. All (MayCome (J.may_yield name) shown.old) cames.items × (length cames.items ≡ length batch.now.places.items)) }
{
    let mut cames = Vec::new(cx.alloc());
    for place in batch.places.iter() {
        let answer = place.answer(cx, name);
        cames.push(came_of(answer, shown))?;
    }
    Ok(cames)
}
