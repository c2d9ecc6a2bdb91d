//! The law of retirement: what a retirement takes out of a history changes no answer that is given later, if no
//! number is named that was dropped. The function does nothing: its contract is the law.

ghost use Rattle.scope_log.specs.{RetiringAgain, RetiringChangesNoAnswer, RetiringLeavesTheBase};

/// If main has no scope that isn't closed, whatever follows is answered on the base that a
/// retirement leaves as on the whole history, if no number is named that was dropped. A check that
/// refused too many may pass: the base takes less of the limits. And a further retirement leaves what
/// one retirement of the whole leaves.
pub fn retired()
    ensures base { RetiringLeavesTheBase }
    ensures answers { RetiringChangesNoAnswer }
    ensures again { RetiringAgain }
{}
