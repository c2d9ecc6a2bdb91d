//! The answer to the plan that is read. Nothing is written here.
ghost use Rattle.std.specs.Prelude.{◌++◌, ◌+◌, ◌<◌, ◌^◌, ◌∷◌, ◌≡◌, ◌⊎◌};
ghost use Rattle.scopectl.specs.{[], AllowedIn, AllowedText, AnswersPlan, Bool, CameReading, Err, IfErr, IfOk, IsBadLine, IsOfPlan, Made, MayEndPlan, None, Ok};
ghost use Rattle.scopectl.specs.{OnErr, OnOk, ReadPlan, ReadSome, SaysAllowed, Some, answer_text, drop, false, has_late, is_timed, labels_in, labels_of, length, list_any, nat_lt, not, same_name};
ghost use Rattle.scopectl.specs.{string_bytes, true};

use crate::fault::ProgramFault;
use crate::looks::Looker;
use command_line::Delay;
use job_runner::{JobWork, NamedJob, SystemClock, TaskCtx};
use quote_gateway::{
    Answer, GatewayFault, Late, LateJob, Plan, PlanReader, late_jobs_of, main_context, serve_in,
    serve_in_by,
};
use realm_lock::{RealmName, Seed};
use scope_rules::{Due, Name};
use scope_script::Watched;
use std::alloc::{AllocError, Global};
use std::io::Read;
use std::rt::Clock as SystemTime;
use thread_pool::{PoolRuntime, Spawner, Spawns};

/// How many bytes are read at a time.
const PIECE: usize = 4096;

/// The answer's line of the plan that is read, and a line feed.
///
/// # Errors
/// `Read` if the reader failed or was given up; else `PlanLine` as soon as the first bad line has ended, or once
/// all was read, and then what the service answers. `NoOffer` if the plan lacks an offer that is to take time. `Memory` if memory was refused, `Time` if the system gives
/// no time and a deadline or a late job is asked for.
pub fn quoted<
    N: RealmName + Send + Sync + 'static,
    S: Spawns<N, JobWork<Due, N, LateJob<T>>> + Drop,
    T: PoolRuntime + SystemTime,
    R: Read + Drop,
>(
    rt: &T,
    alloc: Global,
    seed: Seed,
    spawner: S,
    looks: &mut Looker<'_>,
    deadline: Option<u32>,
    after: &[Delay],
    tree_after: Option<u32>,
    reader: &mut Watched<R>,
) -> Result<String, ProgramFault>
    requires named { seed ≡ N.table }
    requires reader { reader.old.failed ≡ false }
    ensures ok { IfOk result (λ text. Made (AnswersPlan deadline after.now) (R.remaining reader.old.inner) (R.remaining reader.new.inner) (string_bytes text)) }
    ensures part { OnErr result (ReadSome (R.remaining reader.old.inner) (R.remaining reader.new.inner)) }
    ensures came { IfErr result (CameReading reader.new (IsOfPlan deadline after.now (R.remaining reader.old.inner) (R.remaining reader.new.inner))) }
{
    match read_from(alloc, reader) {
        Ok(plan) => answered::<N, S, T>(
            rt, alloc, seed, spawner, looks, deadline, after, tree_after, &plan,
        ),
        Err(fault) => Err(fault),
    }
}

/// The plan that is read, up to its end or its first bad line.
fn read_from<R: Read + Drop>(alloc: Global, reader: &mut Watched<R>) -> Result<Plan, ProgramFault>
    requires reader { reader.old.failed ≡ false }
    ensures sound { OnOk result (reader.new.failed ≡ false) }
    ensures plan { IfOk result (ReadPlan (R.remaining reader.old.inner) (R.remaining reader.new.inner)) }
    ensures part { OnErr result (ReadSome (R.remaining reader.old.inner) (R.remaining reader.new.inner)) }
    ensures came { IfErr result (CameReading reader.new (IsBadLine (R.remaining reader.old.inner) (R.remaining reader.new.inner))) }
{
    let mut plan = PlanReader::new(alloc);
    let mut piece = [0; PIECE];
    'reading: while !reader.has_given_up() {
        let Ok(count) = reader.read_piece(&mut piece) else {
            return Err(ProgramFault::Read);
        };
        if count == 0 {
            return match plan.finish() {
                Ok(plan) => Ok(plan),
                Err(fault) => Err(ProgramFault::of_plan(fault)),
            };
        }
        match plan.take(&piece[..count]) {
            Ok(()) => {}
            Err(fault) => return Err(ProgramFault::of_plan(fault)),
        }
    }
    Err(ProgramFault::Read)
}

/// The answer's line of the plan, and a line feed.
fn answered<
    N: RealmName + Send + Sync + 'static,
    S: Spawns<N, JobWork<Due, N, LateJob<T>>> + Drop,
    T: PoolRuntime + SystemTime,
>(
    rt: &T,
    alloc: Global,
    seed: Seed,
    spawner: S,
    looks: &mut Looker<'_>,
    deadline: Option<u32>,
    after: &[Delay],
    tree_after: Option<u32>,
    plan: &Plan,
) -> Result<String, ProgramFault>
    requires named { seed ≡ N.table }
    ensures ok { IfOk result (λ text. SaysAllowed deadline plan.now (string_bytes text)) }
    ensures late { IfOk result (λ text. has_late after.now plan.now ≡ true) }
    ensures fault { IfErr result (MayEndPlan (is_timed deadline after.now) (not (has_late after.now plan.now))) }
{
    if !has_late(plan, after) {
        return Err(ProgramFault::NoOffer);
    }
    let answer = match answer_to::<N, S, T>(
        rt, alloc, seed, spawner, looks, deadline, after, tree_after, plan,
    ) {
        Ok(answer) => answer,
        Err(fault) => return Err(fault),
    };
    match answer_line(alloc, &answer) {
        Ok(line) => Ok(line),
        Err(_) => Err(ProgramFault::Memory),
    }
}

/// The answer to the plan, by the deadline if there is one.
fn answer_to<
    N: RealmName + Send + Sync + 'static,
    S: Spawns<N, JobWork<Due, N, LateJob<T>>> + Drop,
    T: PoolRuntime + SystemTime,
>(
    rt: &T,
    alloc: Global,
    seed: Seed,
    spawner: S,
    looks: &mut Looker<'_>,
    deadline: Option<u32>,
    after: &[Delay],
    tree_after: Option<u32>,
    plan: &Plan,
) -> Result<Answer, ProgramFault>
    requires named { seed ≡ N.table }
    ensures ok { IfOk result (λ a. AllowedIn deadline plan.now (answer_text a)) }
    ensures fault { IfErr result (MayEndPlan (is_timed deadline after.now) (not (has_late after.now plan.now))) }
{
    let clock = SystemClock::starting_at(*rt, 0);
    let late = match late_by(alloc, after, clock) {
        Ok(late) => late,
        Err(fault) => return Err(fault),
    };
    let Ok(jobs) = late_jobs_of(alloc, plan, &late) else {
        return Err(ProgramFault::Memory);
    };
    match deadline {
        None => asked::<N, S, T>(
            rt, alloc, seed, spawner, looks, tree_after, plan, jobs, clock,
        ),
        Some(deadline) => match clock {
            Some(clock) => {
                asked_by::<N, S, T>(
                    rt, alloc, seed, spawner, looks, tree_after, plan, jobs, deadline, clock,
                )
            }
            None => Err(ProgramFault::Time),
        },
    }
}

/// Whether each offer whose job is to take time is in the plan.
#[tactic(auto, unfolding(crate::specs::Program::has_late))]
fn has_late(plan: &Plan, after: &[Delay]) -> bool
    ensures { result ≡ has_late after.now plan.now }
{
    match after {
        [] => true,
        [delay, others @ ..] => {
            has_offer_from(plan, &delay.name, 0, plan.len()) && has_late(plan, others)
        }
    }
}

/// Whether an offer of the plan from the place on, of which so many are left, has the name.
fn has_offer_from(plan: &Plan, name: &Name, place: usize, left: usize) -> bool
    requires left { place + left ≡ length plan.now.offers }
    requires fits { place + left < 2 ^ 64 }
    ensures { result ≡ list_any (λ named. same_name named.0 name.now) (drop place plan.now.offers) }
{
    if left == 0 {
        return false;
    }
    match plan.named_at(place) {
        None => false,
        Some((other, _offer)) => {
            if other.is_same(name) {
                return true;
            }
            has_offer_from(plan, name, place + 1, left - 1)
        }
    }
}

/// Which jobs are late, by the clock. `Time` if some are and there is no clock.
fn late_by<T: Copy>(
    alloc: Global,
    after: &[Delay],
    clock: Option<SystemClock<T>>,
) -> Result<Vec<Late<T>>, ProgramFault>
    ensures { IfErr result (λ fault. (fault ≡ ProgramFault.Memory) ⊎ ((fault ≡ ProgramFault.Time) × (nat_lt 0 (length after.now) ≡ true))) }
{
    let mut late = Vec::new(alloc);
    if after.is_empty() {
        return Ok(late);
    }
    let Some(clock) = clock else {
        return Err(ProgramFault::Time);
    };
    for delay in after {
        let until = u64::from(delay.millis);
        let name = delay.name;
        if late.push(Late { name, until, clock }).is_err() {
            return Err(ProgramFault::Memory);
        }
    }
    Ok(late)
}

/// The answer to the plan of which these are the jobs.
fn asked<
    N: RealmName + Send + Sync + 'static,
    S: Spawns<N, JobWork<Due, N, LateJob<T>>> + Drop,
    T: PoolRuntime + SystemTime,
>(
    rt: &T,
    alloc: Global,
    seed: Seed,
    spawner: S,
    looks: &mut Looker<'_>,
    tree_after: Option<u32>,
    plan: &Plan,
    jobs: Vec<NamedJob<Due, LateJob<T>>>,
    clock: Option<SystemClock<T>>,
) -> Result<Answer, ProgramFault>
    requires named { seed ≡ N.table }
    requires labelled { labels_in jobs.items ≡ labels_of plan.now }
    ensures ok { IfOk result (λ a. AllowedText plan.now (answer_text a)) }
    ensures fault { (timed lacks : Bool) → IfErr result (MayEndPlan timed lacks) }
{
    let mut ctx = match main_context::<N, S>(alloc, seed, spawner) {
        Ok(ctx) => ctx,
        Err(fault) => return Err(ProgramFault::of_service(fault)),
    };
    let is_seen = begin_look(rt, &ctx, looks, clock, tree_after);
    let found = serve_in::<N, LateJob<T>, S, T>(rt, alloc, &mut ctx, plan, jobs);
    looks.end(rt);
    let (_token, _spawner) = ctx.leave(rt);
    answer_seen(is_seen, found)
}

/// The same by a deadline, in milliseconds of the clock.
fn asked_by<
    N: RealmName + Send + Sync + 'static,
    S: Spawns<N, JobWork<Due, N, LateJob<T>>> + Drop,
    T: PoolRuntime + SystemTime,
>(
    rt: &T,
    alloc: Global,
    seed: Seed,
    spawner: S,
    looks: &mut Looker<'_>,
    tree_after: Option<u32>,
    plan: &Plan,
    jobs: Vec<NamedJob<Due, LateJob<T>>>,
    deadline: u32,
    clock: SystemClock<T>,
) -> Result<Answer, ProgramFault>
    requires named { seed ≡ N.table }
    requires labelled { labels_in jobs.items ≡ labels_of plan.now }
    ensures ok { IfOk result (λ a. AllowedIn (Some deadline) plan.now (answer_text a)) }
    ensures fault { (timed lacks : Bool) → IfErr result (MayEndPlan timed lacks) }
{
    let mut clock = clock;
    let by = u64::from(deadline);
    let mut ctx = match main_context::<N, S>(alloc, seed, spawner) {
        Ok(ctx) => ctx,
        Err(fault) => return Err(ProgramFault::of_service(fault)),
    };
    let is_seen = begin_look(rt, &ctx, looks, Some(clock), tree_after);
    let found = serve_in_by::<N, LateJob<T>, S, SystemClock<T>, T>(
        rt, alloc, &mut ctx, plan, jobs, by, &mut clock,
    );
    looks.end(rt);
    let (_token, _spawner) = ctx.leave(rt);
    answer_seen(is_seen, found)
}

/// Has the realm of the context looked at, by the plan's clock. Answers whether there was memory for a share of it.
fn begin_look<N: RealmName + Send + Sync + 'static, S: Spawner<N>, T: PoolRuntime + SystemTime>(
    rt: &T,
    ctx: &TaskCtx<Due, S, N>,
    looks: &mut Looker<'_>,
    clock: Option<SystemClock<T>>,
    tree_after: Option<u32>,
) -> bool {
    match ctx.realm() {
        Ok(realm) => {
            looks.begin(rt, realm, clock, tree_after);
            true
        }
        Err(_) => false,
    }
}

/// What was found, if its realm could be looked at. Else memory was refused.
fn answer_seen(is_seen: bool, found: Result<Answer, GatewayFault>) -> Result<Answer, ProgramFault>
    ensures ok { IfOk result (λ a. found ≡ Ok a) }
    ensures fault { (timed lacks : Bool) → IfErr result (λ fault. (found ≡ Err GatewayFault.Strange → ⊥) → MayEndPlan timed lacks fault) }
{
    if !is_seen {
        return Err(ProgramFault::Memory);
    }
    match found {
        Ok(answer) => Ok(answer),
        Err(fault) => Err(ProgramFault::of_service(fault)),
    }
}

/// The answer's line, and a line feed.
fn answer_line(alloc: Global, answer: &Answer) -> Result<String, AllocError>
    ensures { IfOk result (λ text. string_bytes text ≡ answer_text answer.now ++ 10 ∷ []) }
{
    let mut text = answer.text(alloc)?;
    text.push('\n')?;
    Ok(text)
}
