//! Whether jobs are those of a plan's offers, by their labels.
ghost use Rattle.std.specs.Prelude.{◌↔◌, ◌≡◌};
ghost use Rattle.quote_gateway.specs.{IsTrue, labels_in, labels_of};

use job_runner::{Answers, NamedJob};
use quote_plan::Plan;
use scope_rules::Due;

/// Whether the labels of the jobs are those of the plan's offers, in order, one each.
pub(crate) fn are_offers<J: Answers>(plan: &Plan, jobs: &[NamedJob<Due, J>]) -> bool
    ensures { IsTrue result ↔ (labels_in jobs.now ≡ labels_of plan.now) }
{
    for (index, job) in jobs.iter().enumerate() {
        if !plan.is_label_at(index, &job.label()) {
            return false;
        }
    }
    jobs.len() == plan.len()
}
