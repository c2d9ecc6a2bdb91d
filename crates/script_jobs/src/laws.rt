//! Just the refused lines are explained, by the lines that recorded what stands in the way. Each function does nothing: its contract is the law.

ghost use Rattle.script_jobs.specs.{LinesRecord, RepliesFit};

use refusal_reasons::laws::reasons_fit;

/// A command has a reason just if its reply is a refusal, and the reason is of that refusal. Of lines that
/// are no command `refusal_reasons` has the same law.
pub fn replies_fit()
    ensures { RepliesFit }
{
    reasons_fit();
}

/// A reason names an event by a line of the script: the line is the one whose command recorded that event.
#[tactic(auto, using(crate::proofs::LineLaws::lines_record))]
pub fn lines_record()
    ensures { LinesRecord }
{}
