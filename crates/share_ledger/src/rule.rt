//! The rule of the table, and what each step on it tells.

use crate::views::{LedgerView, Said};
use atomic_table::{Join, Play, Split, TableRule};

/// A holder is named once, and its share agrees with the keeper's list.
pub struct NamedOnce;

impl TableRule<Said, LedgerView, ()> for NamedOnce {
    ghost use Rattle.share_ledger.specs.Rule.{Ledger};
    ghost use Rattle.share_ledger.specs.declared.views.LedgerView.TheVariants.{Opening};

    ghost holds = { λ _ s. Ledger s.views };

    ghost first = { λ _. Opening };
}

/// The realm gets its limits, and main's share is in hand.
pub struct Limit;

impl Play<Said, LedgerView> for Limit {
    ghost use Rattle.share_ledger.specs.Views.{TellsLimited};

    ghost then = { λ step before _ after. TellsLimited step.said before after };
}

/// The keeper appends the step that it says, and has the share of whom the step names in hand.
pub struct Append;

impl Play<Said, LedgerView> for Append {
    ghost use Rattle.share_ledger.specs.Views.{TellsAppended};

    ghost then = { λ step before _ after. TellsAppended step.said before after };
}

/// The keeper looks at the share that was handed in, and has it in hand.
pub struct Look;

impl Play<Said, LedgerView> for Look {
    ghost use Rattle.share_ledger.specs.Views.{TellsLooked};

    ghost then = { λ _ before _ after. TellsLooked before after };
}

/// A share is handed in.
pub struct HandIn;

impl Join<LedgerView> for HandIn {
    ghost use Rattle.share_ledger.specs.Views.{handed_in};
    ghost use Rattle.share_ledger.specs.declared.views.LedgerView.TheVariants.{Spent};

    ghost both = { handed_in };

    ghost spent = { Spent };
}

/// A share is given out of the hand. It has seen the whole list.
pub struct GiveOut;

impl Split<LedgerView> for GiveOut {
    ghost use Rattle.share_ledger.specs.Views.{left_in, given_out};

    ghost left = { left_in };

    ghost right = { given_out };
}
