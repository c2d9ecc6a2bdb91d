//! Jobs that end as the offers of a plan say.
ghost use Rattle.std.specs.Prelude.{◌≡◌};
ghost use Rattle.quote_gateway.specs.{IfOk, IfSome, is_some, label_of, labels_in, labels_of, list_any, same_name, true};

use job_runner::{Answers, Job, NamedJob, SystemClock, TaskCtx};
use quote_plan::{Offer, Plan};
use realm_lock::RealmName;
use scope_rules::{Due, End, Label, Name};
use std::alloc::{AllocError, Global};
use std::rt::Clock as SystemTime;
use std::sync::Wait;
use thread_pool::Spawner;

/// The job of an offer: it ends as the offer says.
#[derive(Clone, Copy)]
pub struct OfferJob {
    offer: Offer,
}

impl Answers for OfferJob {
    ghost use Rattle.std.specs.Prelude.{◌≡◌};
    ghost use Rattle.quote_plan.specs.Plans.{end_of};

    ghost may_end = { λ job end. end ≡ end_of job.offer };
}

impl<S: Spawner<N>, N: RealmName> Job<Due, S, N> for OfferJob {
    fn run<R: Wait>(self, _rt: &R, _ctx: &mut TaskCtx<Due, S, N>) -> End {
        self.offer.end()
    }
}

/// Which offer's job takes long: that with the name sleeps by the clock until the moment, in milliseconds.
#[derive(Clone, Copy)]
pub struct Late<T> {
    pub name: Name,
    pub until: u64,
    pub clock: SystemClock<T>,
}

/// The job of an offer that may be late. It ends as the offer says; where it is late it sleeps before, until
/// its moment or until its scope is cancelled.
#[derive(Clone, Copy)]
pub struct LateJob<T> {
    offer: Offer,
    late: Option<Late<T>>,
}

impl<T> Answers for LateJob<T> {
    ghost use Rattle.std.specs.Prelude.{◌≡◌};
    ghost use Rattle.quote_plan.specs.Plans.{end_of};

    ghost may_end = { λ job end. end ≡ end_of job.offer };
}

impl<T: Wait + SystemTime + Copy, S: Spawner<N>, N: RealmName> Job<Due, S, N> for LateJob<T> {
    fn run<R: Wait>(self, _rt: &R, ctx: &mut TaskCtx<Due, S, N>) -> End {
        let LateJob { offer, late } = self;
        match late {
            Some(late) => sleep_late(ctx, late),
            None => {}
        }
        offer.end()
    }
}

/// Sleeps until the moment, or until the context's scope is cancelled.
fn sleep_late<T: Wait + SystemTime + Copy, S: Spawner<N>, N: RealmName>(
    ctx: &mut TaskCtx<Due, S, N>,
    late: Late<T>,
)
    ensures { ctx.new.token.actor ≡ ctx.old.token.actor }
{
    let Late { until, clock, .. } = late;
    let rt = clock.runtime();
    let mut clock = clock;
    let _mark = ctx.wait_by(&rt, &mut clock, Some(until), None);
}

/// The jobs of the plan's offers, in order, of which those are late that are named.
pub fn late_jobs_of<T: Copy>(
    alloc: Global,
    plan: &Plan,
    late: &[Late<T>],
) -> Result<Vec<NamedJob<Due, LateJob<T>>>, AllocError>
    ensures { IfOk result (λ jobs. labels_in jobs.items ≡ labels_of plan.now) }
{
    let mut jobs = Vec::new(alloc);
    for place in 0..plan.len() {
        if let Some((name, offer)) = plan.named_at(place) {
            jobs.push(late_job(name, offer, late))?;
        }
    }
    Ok(jobs)
}

/// The jobs of the plan's offers, in order.
pub fn jobs_of(alloc: Global, plan: &Plan) -> Result<Vec<NamedJob<Due, OfferJob>>, AllocError>
    ensures { IfOk result (λ jobs. labels_in jobs.items ≡ labels_of plan.now) }
{
    let mut jobs = Vec::new(alloc);
    for index in 0..plan.len() {
        if let Some((name, offer)) = plan.named_at(index) {
            jobs.push(offer_job(name, offer))?;
        }
    }
    Ok(jobs)
}

/// The job of the offer with this name.
fn offer_job(name: Name, offer: Offer) -> NamedJob<Due, OfferJob>
    ensures { result.label ≡ label_of (name, offer) }
{
    NamedJob::new(label_for(name, offer), OfferJob { offer })
}

/// The job of the offer with this name, which is late if that is said of its name.
fn late_job<T: Copy>(name: Name, offer: Offer, late: &[Late<T>]) -> NamedJob<Due, LateJob<T>>
    ensures { result.label ≡ label_of (name, offer) }
{
    let late = late_of(&name, late);
    NamedJob::new(label_for(name, offer), LateJob { offer, late })
}

/// How long the job of the offer with this name takes, if that is said: by the first that names it.
fn late_of<T: Copy>(name: &Name, late: &[Late<T>]) -> Option<Late<T>>
    ensures named { IfSome result (λ one. same_name one.name name.now ≡ true) }
    ensures found { is_some result ≡ list_any (λ one. same_name one.name name.now) late.now }
{
    match late {
        [] => None,
        [one, others @ ..] => {
            if one.name.is_same(name) {
                Some(*one)
            } else {
                late_of(name, others)
            }
        }
    }
}

/// The label of the offer with this name.
fn label_for(name: Name, offer: Offer) -> Label
    ensures { result ≡ label_of (name, offer) }
{
    Label {
        name,
        due: Some(offer.end()),
    }
}
