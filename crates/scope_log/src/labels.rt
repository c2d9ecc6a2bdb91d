//! The law of labels: what end a label expects decides nothing of a history. The expected end is for those who
//! run jobs; no rule of the realm looks at it. The function does nothing: its contract is the law.

ghost use Rattle.scope_log.specs.{LabelsDecideNothing, LegalWithoutDues, NothingIsTaken};

/// What end a label expects decides nothing: each event is accepted, refused or so already whether the labels
/// of the history and of the event expect ends or none. A legal history stays legal when its labels
/// expect none, and if they expected none it is as it was.
pub fn labels_decide_nothing()
    ensures decided { LabelsDecideNothing }
    ensures legal { LegalWithoutDues }
    ensures same { NothingIsTaken }
{}
