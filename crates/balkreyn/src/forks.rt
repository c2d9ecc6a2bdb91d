//! A fork that `?` passes through.
ghost use Rattle.std.specs.Prelude.{◌≡◌, IfOk};
ghost use Rattle.balkreyn.specs.{ForksUnder, KeepsThread, SeesMore, label_of};

use crate::aliases::CanFork;
use job_runner::{Answers, NamedJob, TaskCtx};
use realm_lock::RealmName;
use scope_rules::{AnyEnd, ForkReply, Label, Name, Refusal, ScopeId};
use std::sync::Wait;

/// Forks the job under the name in the actor's scope, as `TaskCtx::fork_job` does (JEP 505, `fork`).
///
/// # Errors
/// Those of `TaskCtx::fork_job`, by their refusal; the job is dropped, uncalled.
pub fn fork<J: Answers + Drop, S: CanFork<AnyEnd, N, J>, N: RealmName, R: Wait>(
    rt: &R,
    ctx: &mut TaskCtx<AnyEnd, S, N>,
    scope: ScopeId,
    name: Name,
    job: J,
) -> Result<ForkReply, Refusal>
    ensures rest { (ctx.new ≡ record ctx.old { token = ctx.new.token; spawner = ctx.new.spawner; team = ctx.new.team }) × SeesMore ctx.old.token ctx.new.token }
    ensures answer { ForksUnder ctx.old.token ctx.new.token scope name result }
    ensures kept { IfOk result (λ reply. KeepsThread ctx.new.token scope (label_of name) reply ctx.old.team ctx.new.team) }
{
    let label = Label { name, due: None };
    match ctx.fork_job(rt, scope, NamedJob::new(label, job)) {
        Ok(reply) => Ok(reply),
        Err(refused) => Err(refused.refusal()),
    }
}
