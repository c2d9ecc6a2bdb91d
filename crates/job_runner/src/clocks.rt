ghost use Rattle.std.specs.Prelude.{◌≡◌, IfSome, IsSome, Some};
ghost use Rattle.job_runner.specs.{DoesOrMemory};

use crate::contexts::TaskCtx;
use realm_lock::RealmName;
use scope_rules::{Catalog, Refusal};
use share_ledger::{Ask, Clock, RealmStep};
use std::sync::Wait;
use thread_pool::Spawner;

/// Reads the clock, sets the realm's time to what it reads, and answers that. Refused as `Realm::tick` is; the
/// clock was read then too.
pub fn pulse<C: Catalog, S: Spawner<N>, N: RealmName, K: Clock, R: Wait>(
    rt: &R,
    ctx: &mut TaskCtx<C, S, N>,
    clock: &mut K,
) -> Result<u64, Refusal>
    ensures rest { ctx.new ≡ record ctx.old { token = record ctx.old.token { seen = ctx.new.token.seen } } }
    ensures read { IsSome (K.reading clock.new) }
    ensures answer { IfSome (K.reading clock.new) (λ now. DoesOrMemory ctx.old.token ctx.new.token (RealmStep.Asked ctx.old.token.actor (Ask.Tick now)) (λ _. now) result) }
{
    let now = clock.now();
    match ctx.tick(rt, now) {
        Ok(()) => Ok(now),
        Err(refusal) => Err(refusal),
    }
}
