ghost use Rattle.std.specs.Prelude.{◌≡◌, ◌≢◌};
ghost use Rattle.quote_gateway.specs.{IsOfCall, fault_of};

use quote_plan::NoAnswer;
use scope_rules::Refusal;
use thiserror::Error;

/// Why a request has no answer.
#[derive(Clone, Copy, Debug, PartialEq, Eq, Error)]
pub enum GatewayFault {
    /// The labels of the jobs are not those of the plan's offers, in order, one each.
    #[error("the jobs are not those of the plan")]
    Strange,
    /// Memory was refused.
    #[error("memory was refused")]
    Memory,
    /// A thread was refused, or a call for another cause than memory, as if the jobs used up the limits
    /// of the realm.
    #[error("a thread or a call was refused")]
    Rejected,
    /// The scope of the jobs was cancelled, or its time ran out.
    #[error("the request was cancelled")]
    Cancelled,
    /// The answer would rest on an end that is not the offer's.
    #[error("an end is not the offer's")]
    Lost,
}

impl GatewayFault {
    /// Why there is no answer if a call was refused.
    pub(crate) fn of_refusal(refusal: Refusal) -> GatewayFault
        ensures call { IsOfCall result }
        ensures memory { refusal ≡ Refusal.Memory → result ≡ GatewayFault.Memory }
        ensures other { refusal ≢ Refusal.Memory → result ≡ GatewayFault.Rejected }
    {
        if refusal == Refusal::Memory {
            GatewayFault::Memory
        } else {
            GatewayFault::Rejected
        }
    }

    /// Why there is no answer where the ends of the jobs make none.
    pub(crate) fn of_no_answer(why: NoAnswer) -> GatewayFault
        ensures { result ≡ fault_of why }
    {
        match why {
            NoAnswer::Lost => GatewayFault::Lost,
            NoAnswer::Cancelled => GatewayFault::Cancelled,
            NoAnswer::Memory => GatewayFault::Memory,
        }
    }
}
