ghost use Rattle.std.specs.Prelude.{◌≡◌};

use scope_rules::{Catalog, Label};
use std::marker::{Model, PhantomData};

/// What a job may answer. It is apart from how the job runs, so that a job is named before it is known
/// by whom it is run.
pub trait Answers {
    ghost use Rattle.scope_rules.specs.Ends.{EndValue};

    /// The job may end so.
    ghost may_end: { Self → EndValue → Type 0 };
}

/// A job with the label that it is forked with. Whatever the job may answer fits the label by the catalog
/// `C`.
#[derive(Drop)]
pub struct NamedJob<C: Catalog, J: Answers> {
    label: Label,
    job: J,
    of: PhantomData<C>,
}

impl<C: Catalog, J: Answers> Model for NamedJob<C, J> {
    ghost use Rattle.share_ledger.specs.Named.{NamedValue, Fits};

    ghost Value = { NamedValue J };

    ghost view = { λ n. record { label = n.label; job = n.job } };

    ghost invariant = { λ n. Fits C.fitting J.may_end n.label n.job };
}

impl<C: Catalog, J: Answers> NamedJob<C, J> {
    ghost use Rattle.share_ledger.specs.Named.{Fits};

    /// The job under the label, which all fits that the job may answer.
    pub fn new(label: Label, job: J) -> NamedJob<C, J>
        requires { Fits C.fitting J.may_end label job }
        ensures { result ≡ record { label = label; job = job } }
    {
        NamedJob {
            label,
            job,
            of: PhantomData,
        }
    }

    /// The label.
    pub fn label(&self) -> Label
        ensures { result ≡ self.now.label }
    {
        self.label
    }

    /// The job, all answers of which fit the label.
    pub fn into_job(self) -> J
        ensures job { result ≡ self.job }
        ensures fits { Fits C.fitting J.may_end self.label result }
    {
        self.job
    }
}
