//! Typed jobs that act by one value, and what is done with several of them.
ghost use Rattle.std.specs.Prelude.{◌≡◌, Contains, IfOk, IfSome, MatchResult, None, length, pos};
ghost use Rattle.balkreyn.specs.{CameTo, ClosesNow, FindsNothing, FirstCame, ForkedInto, ForksInto, Gathers, Gave, JoinsFrom, Opens, Races, RunsJobs, SeesMore, Slots.Says, StopsForking, Takes, task_of};
ghost use Rattle.scope_rules.specs.declared.types.joiners.Policy.TheVariants as policy;
ghost use Rattle.scope_rules.specs.declared.types.values.Value.TheVariants as value;

use crate::act::blocks::entered;
use crate::act::came::{Came, came_of};
use crate::act::contexts::Acts;
use crate::act::tasks::Task;
use crate::jobs::{Typed, Yields};
use crate::slots::{Slot, place_and_share};
use join_rules::Joiner;
use realm_lock::Mark;
use scope_rules::{End, Name, Options, Outcome, Refusal, ScopeId, TaskId, Value};

/// A job that answers a value of a type of its own, and acts by one value (JEP 505 has a `Callable` of that type).
///
/// A job with a value and an error of its own:
///
/// ```rust
/// impl TypedTask<Shop> for AskStock {
///     fn run_typed<X: Acts<Shop>>(self, cx: &mut X, _name: Name) -> Result<Stock, NoStock> {
///         match (cx.sleep(self.after)?, self.pieces) {
///             (Some(_mark), _) => Err(NoStock::TooLate),
///             (None, 0) => Err(NoStock::Empty),
///             (None, pieces) => Ok(Stock { pieces }),
///         }
///     }
/// }
/// ```
pub trait TypedTask<W>: Yields {
    /// Does the job, which was forked under the name.
    fn run_typed<X: Acts<W>>(self, cx: &mut X, name: Name) -> Result<Self::Value, Self::Error>
        ensures { IfOk result (λ value. Self.may_yield name value) };
}

impl<J: Yields> Typed<J> {
    /// Does the job, and puts its value if its slot takes it from. Its task succeeds with the number 0 if there is a
    /// value, and else fails with the fault of the job's error, which its slot gives, too.
    pub fn act<W, X: Acts<W>>(self, cx: &mut X) -> End
    where
        J: TypedTask<W>,
        ensures { IfOk result (λ number. number ≡ value.Num (pos 0)) }
    {
        let Typed { name, job, share } = self;
        match job.run_typed(cx, name) {
            Ok(value) => {
                share.place.put(cx, name, value);
                Ok(Value::Num(0))
            }
            Err(error) => Err(share.place.fail(cx, name, error)),
        }
    }
}

/// A service whose only jobs are of one type that answers a value needs no type for them.
impl<J: Yields + TypedTask<Typed<J>> + Drop> Task for Typed<J> {
    fn run<X: Acts<Typed<J>>>(self, cx: &mut X) -> End {
        self.act(cx)
    }
}

/// Forks the typed job in the actor's scope, under the name, and gives the slot of its value (JEP 505, `fork` and
/// `Subtask`). The work that carries the job is made of it (`From`).
///
/// # Errors
/// Those of `fork`, and `Memory` if there is none for the slot; the job is dropped.
pub fn fork_value<J: Yields + Drop, W: From<Typed<J>>, X: Acts<W>>(
    cx: &mut X,
    scope: ScopeId,
    name: Name,
    job: J,
) -> Result<Slot<J>, Refusal>
    ensures sees { SeesMore (X.token cx.old) (X.token cx.new) }
    ensures answer { ForksInto (X.token cx.old) (X.token cx.new) scope name result }
{
    let Ok((place, share)) = place_and_share(cx.alloc()) else {
        return Err(Refusal::Memory);
    };
    let work = W::from(Typed { name, job, share });
    match cx.fork(scope, name, work) {
        Ok(reply) => Ok(Slot {
            name,
            scope,
            reply,
            place,
        }),
        Err(refusal) => Err(refusal),
    }
}

impl<J: Yields> Slot<J> {
    /// The value, as `take` gives it: to the owner of the scope, once, after the join, if the task succeeded.
    ///
    /// # Errors
    /// Those of `take`.
    pub fn value<W, X: Acts<W>>(&self, cx: &mut X) -> Result<J::Value, Refusal>
        ensures { Takes (J.may_yield self.now.name) (X.token cx.old) (X.token cx.new) (task_of self.now.reply) result }
    {
        match cx.result(self.task()) {
            Ok(_number) => match self.place.take(cx, self.name) {
                Some(value) => Ok(value),
                None => Err(Refusal::Unavailable),
            },
            Err(refusal) => Err(refusal),
        }
    }
}

impl<J: Yields> Slot<J> {
    /// What the job returned, as the owner of the scope has it once, after the join: its value, or the error with which it
    /// failed (JEP 505, `Subtask.get` and `exception` in one).
    ///
    /// # Errors
    /// Those of `value`; `NotSuccess` only if the task failed without an error of its job, which left a scope open, or
    /// never ran.
    pub fn answer<W, X: Acts<W>>(&self, cx: &mut X) -> Result<Result<J::Value, J::Error>, Refusal>
        ensures { Says (J.may_yield self.now.name) (X.token cx.old) (X.token cx.new) (task_of self.now.reply) result }
    {
        match cx.result(self.task()) {
            Ok(_number) => match self.place.take(cx, self.name) {
                Some(value) => Ok(Ok(value)),
                None => Err(Refusal::Unavailable),
            },
            Err(Refusal::NotSuccess) => match self.place.error(cx) {
                Some(error) => Ok(Err(error)),
                None => Err(Refusal::NotSuccess),
            },
            Err(refusal) => Err(refusal),
        }
    }
}

/// Forks all these jobs in the scope under the name, in order, and gives their slots.
fn fork_all<J: Yields + Drop, W: From<Typed<J>>, X: Acts<W>>(
    cx: &mut X,
    scope: ScopeId,
    name: Name,
    jobs: Vec<J>,
) -> Result<Vec<Slot<J>>, Refusal>
    ensures { MatchResult result (λ slots. ForkedInto X.token scope name cx.old slots.items cx.new × (length slots.items ≡ length jobs.items)) (StopsForking X.token scope name cx.old cx.new) }
{
    let mut slots = Vec::new(cx.alloc());
    for job in jobs {
        let slot = fork_value(cx, scope, name, job)?;
        slots.push(slot)?;
    }
    Ok(slots)
}

/// The slot of this task, if it is one of them.
fn slot_of<J: Yields>(slots: &[Slot<J>], task: TaskId) -> Option<&Slot<J>>
    ensures { IfSome result (λ slot. Contains slots.now slot.now × (task_of slot.now.reply ≡ task)) }
{
    for slot in slots {
        if slot.task() == task {
            return Some(slot);
        }
    }
    None
}

/// What came of the task, whose slot is one of these.
fn came_to<J: Yields, W, X: Acts<W>>(
    cx: &mut X,
    slots: &[Slot<J>],
    task: TaskId,
) -> Result<Came<J::Value, J::Error>, Refusal>
where
    J::Error: From<Refusal>,
    ensures { IfOk result (CameTo X.token J.may_yield ⟦<J::Error as From<Refusal>>⟧.from_gives None slots.now cx.old cx.new task) }
{
    match slot_of(slots, task) {
        Some(slot) => {
            let answer = slot.answer(cx);
            Ok(came_of(answer, &mut None))
        }
        None => Err(Refusal::Unavailable),
    }
}

/// Joins the scope, and gives what came of the task that its outcome names: the first to succeed, or if all failed the first
/// to fail. If the outcome names none, it gives the mark, if one is shown.
fn first_of<J: Yields, W, X: Acts<W>>(
    cx: &mut X,
    scope: ScopeId,
    slots: &[Slot<J>],
) -> Result<Came<J::Value, J::Error>, Refusal>
where
    J::Error: From<Refusal>,
    ensures { MatchResult result (FirstCame X.token X.reads X.time X.seat J.may_yield ⟦<J::Error as From<Refusal>>⟧.from_gives scope slots.now cx.old cx.new) (λ refusal. (answered : _) × (after : _) × JoinsFrom X.reads (X.time cx.old) (X.token cx.old) after scope answered) }
{
    let joined = cx.join(scope)?;
    match &joined.outcome {
        Outcome::Any { task, .. } => came_to(cx, slots, *task),
        Outcome::Failed { task, .. } => came_to(cx, slots, *task),
        _ => match cx.checkpoint() {
            Some(mark) => Ok(Came::Cut(mark)),
            None => Err(Refusal::Unavailable),
        },
    }
}

/// Runs all these jobs in a scope of their own, and gives what came first: the value of the first that succeeds; the others
/// are cancelled then (JEP 505, `anySuccessfulResultOrThrow`). If all fail, it is the error of the first that failed, and if
/// a cancel or a deadline among the options comes before, its mark.
///
/// # Errors
/// `Unavailable` if there are no jobs, and else the refusal of a call.
pub fn race<J: Yields + Drop, W: From<Typed<J>>, X: Acts<W>>(
    cx: &mut X,
    name: Name,
    options: Options,
    jobs: Vec<J>,
) -> Result<Came<J::Value, J::Error>, Refusal>
where
    J::Error: From<Refusal>,
    ensures { RunsJobs (Opens X.token X.left_by_open policy.Any options) (ClosesNow X.token X.left_by_close X.reads X.time) (λ scope begun ended found. MatchResult found (Races X.token X.reads X.time X.seat J.may_yield ⟦<J::Error as From<Refusal>>⟧.from_gives name (length jobs.items) scope begun ended) (FindsNothing X.token X.reads X.time name (length jobs.items) scope begun ended)) cx.old cx.new result }
{
    let scope = entered(cx, Joiner::Any, options)?;
    let found = raced(cx, scope, name, jobs);
    cx.close(scope)?;
    found
}

/// Forks all these jobs in the scope, and gives what came first.
fn raced<J: Yields + Drop, W: From<Typed<J>>, X: Acts<W>>(
    cx: &mut X,
    scope: ScopeId,
    name: Name,
    jobs: Vec<J>,
) -> Result<Came<J::Value, J::Error>, Refusal>
where
    J::Error: From<Refusal>,
    ensures { MatchResult result (Races X.token X.reads X.time X.seat J.may_yield ⟦<J::Error as From<Refusal>>⟧.from_gives name (length jobs.items) scope cx.old cx.new) (FindsNothing X.token X.reads X.time name (length jobs.items) scope cx.old cx.new) }
{
    let slots = fork_all(cx, scope, name, jobs)?;
    first_of(cx, scope, &slots)
}

/// Runs all these jobs in a scope of their own, and gives what came of each, in order: those that a cancel or a deadline
/// among the options cut off have its mark.
///
/// # Errors
/// The refusal of a call.
pub fn all_of<J: Yields + Drop, W: From<Typed<J>>, X: Acts<W>>(
    cx: &mut X,
    name: Name,
    options: Options,
    jobs: Vec<J>,
) -> Result<Vec<Came<J::Value, J::Error>>, Refusal>
where
    J::Error: From<Refusal>,
    ensures { RunsJobs (Opens X.token X.left_by_open policy.AwaitAll options) (ClosesNow X.token X.left_by_close X.reads X.time) (λ scope begun ended found. MatchResult found (λ cames. Gathers X.token X.reads X.time X.seat J.may_yield ⟦<J::Error as From<Refusal>>⟧.from_gives name (length jobs.items) scope begun ended cames.items) (FindsNothing X.token X.reads X.time name (length jobs.items) scope begun ended)) cx.old cx.new result }
{
    let scope = entered(cx, Joiner::AwaitAll, options)?;
    let found = gathered(cx, scope, name, jobs);
    cx.close(scope)?;
    found
}

/// Forks all these jobs in the scope, joins it, and gives what came of each.
fn gathered<J: Yields + Drop, W: From<Typed<J>>, X: Acts<W>>(
    cx: &mut X,
    scope: ScopeId,
    name: Name,
    jobs: Vec<J>,
) -> Result<Vec<Came<J::Value, J::Error>>, Refusal>
where
    J::Error: From<Refusal>,
    ensures { MatchResult result (λ cames. Gathers X.token X.reads X.time X.seat J.may_yield ⟦<J::Error as From<Refusal>>⟧.from_gives name (length jobs.items) scope cx.old cx.new cames.items) (FindsNothing X.token X.reads X.time name (length jobs.items) scope cx.old cx.new) }
{
    let slots = fork_all(cx, scope, name, jobs)?;
    cx.join(scope)?;
    let mut shown = cx.checkpoint();
    given(cx, &slots, &mut shown)
}

/// What came of each of the slots, in order, if this mark was shown behind the join.
fn given<J: Yields, W, X: Acts<W>>(
    cx: &mut X,
    slots: &[Slot<J>],
    shown: &mut Option<Mark>,
) -> Result<Vec<Came<J::Value, J::Error>>, Refusal>
where
    J::Error: From<Refusal>,
    ensures { IfOk result (λ cames. Gave X.token J.may_yield ⟦<J::Error as From<Refusal>>⟧.from_gives shown.old slots.now cx.old (length slots.now) cames.items cx.new) }
{
    let mut cames = Vec::new(cx.alloc());
    for slot in slots {
        let answer = slot.answer(cx);
        cames.push(came_of(answer, shown))?;
    }
    Ok(cames)
}
