//! That the reasons are those of the refusals. The function does nothing: its contract is the law.

ghost use Rattle.refusal_reasons.specs.{EventsAreTrue, EventsFit, QueriesAreTrue, QueriesFit, RetirementsAreTrue, RetirementsFit};

/// A command has a reason just if its checks refuse it, whatever the history, and the reason is of that
/// refusal.
#[tactic(auto, using(crate::proofs::Fits::events_fit, crate::proofs::Fits::retirements_fit, crate::proofs::Fits::queries_fit))]
pub fn reasons_fit()
    ensures events { EventsFit }
    ensures retirements { RetirementsFit }
    ensures queries { QueriesFit }
{}

/// Whatever a reason says is so of the history, for every command and every history.
#[tactic(auto, using(crate::proofs::Explained::events_true, crate::proofs::Explained::retirements_true, crate::proofs::Explained::queries_true))]
pub fn reasons_are_true()
    ensures events { EventsAreTrue }
    ensures retirements { RetirementsAreTrue }
    ensures queries { QueriesAreTrue }
{}
