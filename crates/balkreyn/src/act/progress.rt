//! Results as they complete, before the join.
ghost use Rattle.std.specs.Prelude.{[], ◌≡◌, IfSome, MatchOption, MatchResult, Ok, Some};
ghost use Rattle.balkreyn.specs.{Completes, FindsDone, IsNotFound, LookRefused, NextCame, Pauses, SeesMore, SleptLast, task_of};

use crate::act::came::Came;
use crate::act::contexts::Acts;
use crate::act::waits::{paused, rings_of};
use crate::jobs::Yields;
use crate::slots::Slot;
use cancel_marks::Bell;
use realm_lock::Mark;
use scope_rules::{Refusal, State, TaskId};
use tree_dump::WaitCall;

/// Waits until one more of the tasks of these slots has ended, takes its slot out, and gives its number and what its job
/// came to. For a task that is taken so no join is owed. None once there is no slot left; if a cancel or a deadline comes
/// first, its mark, and the slots are as they were (Java, `ExecutorCompletionService`). It sleeps until a job is over, and
/// looks each millisecond until its task has ended, too.
///
/// # Errors
/// The refusal of a look, or of the wait. The slots are as they were.
pub fn next_done<J: Yields, W, X: Acts<W>>(
    cx: &mut X,
    slots: &mut Vec<Slot<J>>,
) -> Result<Option<Came<(TaskId, J::Value), (TaskId, J::Error)>>, Refusal>
where
    J::Error: From<Refusal>,
    ensures { MatchResult result (λ found. MatchOption found ((slots.old.items ≡ []) × (slots.new ≡ slots.old) × (cx.new ≡ cx.old)) (NextCame X.token J.may_yield ⟦<J::Error as From<Refusal>>⟧.from_gives (λ old new slept. Pauses X.reads X.reading X.time X.token X.seat 1 old new slept) slots.old.items slots.new.items cx.old cx.new)) (λ refusal. (slots.new ≡ slots.old) × IsNotFound X.token (λ old new slept. Pauses X.reads X.reading X.time X.token X.seat 1 old new slept) cx.old cx.new refusal) }
{
    if slots.is_empty() {
        return Ok(None);
    }
    match one_done(cx, slots.as_slice())? {
        Ok((index, (task, given))) => {
            let slot = slots.remove(index);
            cx.take_owed(slot.scope);
            match given {
                Ok(value) => Ok(Some(Came::Value((task, value)))),
                Err(error) => Ok(Some(Came::Failed((task, error)))),
            }
        }
        Err(mark) => Ok(Some(Came::Cut(mark))),
    }
}

/// A task's number, and what its job came to.
type Done<J> = (TaskId, Result<<J as Yields>::Value, <J as Yields>::Error>);

/// The index of a slot whose task has ended, once there is one, with that task's number and what its job came to; or the mark
/// of what ended the wait.
fn one_done<J: Yields, W, X: Acts<W>>(
    cx: &mut X,
    slots: &[Slot<J>],
) -> Result<Result<(usize, Done<J>), Mark>, Refusal>
where
    J::Error: From<Refusal>,
    ensures { MatchResult result (λ found. MatchResult found (λ done. FindsDone X.token J.may_yield ⟦<J::Error as From<Refusal>>⟧.from_gives slots.now cx.old cx.new done.0 done.1.0 done.1.1) (λ mark. SleptLast X.token (λ old new slept. Pauses X.reads X.reading X.time X.token X.seat 1 old new slept) cx.old cx.new (Ok (Some mark)))) (λ refusal. IsNotFound X.token (λ old new slept. Pauses X.reads X.reading X.time X.token X.seat 1 old new slept) cx.old cx.new refusal) }
{
    let bell = noted(cx, slots);
    for _ in 0..u64::MAX {
        let heard = rings_of(bell.as_ref());
        if let Some((index, done)) = first_done(cx, slots)? {
            return Ok(Ok((index, done)));
        }
        let bell = bell_for(&bell, slots);
        if let Some(mark) = paused(cx, WaitCall::NextDone, 1, bell, heard)? {
            return Ok(Err(mark));
        }
    }
    for _ in cx.forever() {}
    unreachable!()
}

/// A bell that rings once a job of the slots is over. None if memory for it is refused.
fn noted<J: Yields, W, X: Acts<W>>(cx: &X, slots: &[Slot<J>]) -> Option<Bell> {
    let bell = Bell::new(cx.alloc()).ok()?;
    for slot in slots {
        if !slot.place.note(cx, &bell) {
            return None;
        }
    }
    Some(bell)
}

/// The bell, if no job is over: else a task ends next.
fn bell_for<'a, J: Yields>(bell: &'a Option<Bell>, slots: &[Slot<J>]) -> Option<&'a Bell> {
    for slot in slots {
        if slot.place.is_left() {
            return None;
        }
    }
    bell.as_ref()
}

/// The index of the first of the slots whose task has ended, if there is one, with that task's number and what its job
/// came to.
fn first_done<J: Yields, W, X: Acts<W>>(
    cx: &mut X,
    slots: &[Slot<J>],
) -> Result<Option<(usize, Done<J>)>, Refusal>
where
    J::Error: From<Refusal>,
    ensures sees { SeesMore (X.token cx.old) (X.token cx.new) }
    ensures answer { MatchResult result (λ found. IfSome found (λ done. FindsDone X.token J.may_yield ⟦<J::Error as From<Refusal>>⟧.from_gives slots.now cx.old cx.new done.0 done.1.0 done.1.1)) (λ refusal. (there : _) × (task : _) × SeesMore (X.token cx.old) (X.token there) × LookRefused (X.token there) (X.token cx.new) task refusal) }
{
    for index in 0..slots.len() {
        let slot = &slots[index];
        if let Some(done) = done_of(cx, slot)? {
            return Ok(Some((index, done)));
        }
    }
    Ok(None)
}

/// The number of the slot's task and what its job came to, once that has ended.
fn done_of<J: Yields, W, X: Acts<W>>(cx: &mut X, slot: &Slot<J>) -> Result<Option<Done<J>>, Refusal>
where
    J::Error: From<Refusal>,
    ensures sees { SeesMore (X.token cx.old) (X.token cx.new) }
    ensures answer { MatchResult result (λ found. IfSome found (λ done. (done.0 ≡ task_of slot.now.reply) × Completes (J.may_yield slot.now.name) ⟦<J::Error as From<Refusal>>⟧.from_gives (X.token cx.old) (X.token cx.new) done.0 done.1)) (λ refusal. LookRefused (X.token cx.old) (X.token cx.new) (task_of slot.now.reply) refusal) }
{
    let task = slot.task();
    match cx.state(task) {
        Ok(State::Success(_number)) => match slot.place.take(cx, slot.name) {
            Some(value) => Ok(Some((task, Ok(value)))),
            None => Ok(Some((task, Err(Refusal::Unavailable.into())))),
        },
        Ok(State::Failed(_fault)) => match slot.place.error(cx) {
            Some(error) => Ok(Some((task, Err(error)))),
            None => Ok(Some((task, Err(Refusal::NotSuccess.into())))),
        },
        Ok(State::Unavailable) => Ok(None),
        Err(refusal) => Err(refusal),
    }
}
