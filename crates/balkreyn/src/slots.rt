//! From the fork of a typed job to the slot that gives its value up.
ghost use Rattle.std.specs.Prelude.{◌≡◌, IfOk};
ghost use Rattle.balkreyn.specs.{ForksInto, KeepsThread, SeesMore, Takes, label_of, task_of};

use crate::jobs::{Typed, Yields};
use crate::places::{JobShare, Place};
use job_runner::{Answers, JobWork, NamedJob, TaskCtx};
use realm_lock::RealmName;
use scope_rules::{AnyEnd, Catalog, ForkReply, Label, Name, Refusal, ScopeId, TaskId};
use std::alloc::{AllocError, Global};
use std::marker::Model;
use std::sync::{Arc, Wait};
use thread_pool::{Spawner, Spawns};

/// What a forked job's value is obtained from (JEP 505, `Subtask`). Its value is the job's name, with what its
/// fork was answered.
///
/// Before the join it refuses, and behind it it gives the value:
///
/// ```rust
/// fn slots<X: Acts<Shop>>(
///     cx: &mut X,
/// ) -> Result<(Result<Stock, Refusal>, Result<Stock, Refusal>), Refusal> {
///     scope(cx, Joiner::AwaitAll, Options::PLAIN, |cx, scope| {
///         let ask = AskStock {
///             pieces: 3,
///             after: 0,
///         };
///         let slot = fork_value(cx, scope, named(b"stock"), ask)?;
///         let early = slot.value(cx);
///         cx.join(scope)?;
///         Ok((early, slot.value(cx)))
///     })
/// }
/// ```
#[derive(Drop)]
pub struct Slot<J: Yields> {
    pub(crate) name: Name,
    /// The scope in which it was forked.
    pub(crate) scope: ScopeId,
    pub(crate) reply: ForkReply,
    pub(crate) place: Arc<Place<J>, Global>,
}

impl<J: Yields> Model for Slot<J> {
    ghost use Rattle.balkreyn.specs.Slots.{SlotValue};

    ghost Value = { SlotValue };

    ghost view = { λ s. record { name = s.name; reply = s.reply } };
}

/// Forks the typed job in the actor's scope, under the name, as `TaskCtx::fork_job` does (JEP 505, `fork`), and
/// gives the slot of its value. The place of that is made here, and the work that carries the job is made of both
/// (`From`): so a slot has no other job's place.
///
/// # Errors
/// Those of `TaskCtx::fork_job`, by their refusal, and `Memory` if there is none for the place; the job is let
/// go.
pub fn fork_typed<
    J: Yields + Drop,
    W: Answers + From<Typed<J>> + Drop,
    N: RealmName,
    S: Spawns<N, JobWork<AnyEnd, N, W>>,
    R: Wait,
>(
    rt: &R,
    alloc: Global,
    ctx: &mut TaskCtx<AnyEnd, S, N>,
    scope: ScopeId,
    name: Name,
    job: J,
) -> Result<Slot<J>, Refusal>
    ensures rest { (ctx.new ≡ record ctx.old { token = ctx.new.token; spawner = ctx.new.spawner; team = ctx.new.team }) × SeesMore ctx.old.token ctx.new.token }
    ensures answer { ForksInto ctx.old.token ctx.new.token scope name result }
    ensures kept { IfOk result (λ slot. KeepsThread ctx.new.token scope (label_of name) slot.reply ctx.old.team ctx.new.team) }
{
    let Ok((place, share)) = place_and_share(alloc) else {
        return Err(Refusal::Memory);
    };
    let work = W::from(Typed { name, job, share });
    let label = Label { name, due: None };
    match ctx.fork_job(rt, scope, NamedJob::new(label, work)) {
        Ok(reply) => Ok(Slot {
            name,
            scope,
            reply,
            place,
        }),
        Err(refused) => Err(refused.refusal()),
    }
}

/// A place for what a job answers, for its slot, and a share of it, for its work.
pub(crate) fn place_and_share<J: Yields>(
    alloc: Global,
) -> Result<(Arc<Place<J>, Global>, JobShare<J>), AllocError> {
    let place = Arc::new(alloc, Place::new())?;
    let share = Arc::try_clone(&place)?;
    Ok((place, JobShare { place: share }))
}

impl<J: Yields> Slot<J> {
    /// The task's number.
    pub fn task(&self) -> TaskId
        ensures { result ≡ task_of self.now.reply }
    {
        match self.reply {
            ForkReply::Thread(task) => task,
            ForkReply::Never(task) => task,
        }
    }

    /// The value, which the owner of the scope has once, after the join, if the task succeeded (JEP 505,
    /// `Subtask.get`). A slot that was refused can be asked again.
    ///
    /// # Errors
    /// Those of `TaskCtx::result`; and `Unavailable` if the value was taken before.
    pub fn take<C: Catalog, S: Spawner<N>, N: RealmName, R: Wait>(
        &self,
        rt: &R,
        ctx: &mut TaskCtx<C, S, N>,
    ) -> Result<J::Value, Refusal>
        ensures rest { ctx.new ≡ record ctx.old { token = ctx.new.token } }
        ensures answer { Takes (J.may_yield self.now.name) ctx.old.token ctx.new.token (task_of self.now.reply) result }
    {
        match ctx.result(rt, self.task()) {
            Ok(_number) => match self.place.take(rt, self.name) {
                Some(value) => Ok(value),
                None => Err(Refusal::Unavailable),
            },
            Err(refusal) => Err(refusal),
        }
    }
}
