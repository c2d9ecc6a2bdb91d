//! The laws of journals. Each function does nothing: its contract is the law.

ghost use Rattle.script_journal.specs.{JournalBringsAnew, JournalCountsAnew, JournalIsAScript, JournalStays, JournalTellsAll, NoLineIsLost, NumbersDecideNothing, TimesAreComments};

/// A journal is a script. Of a legal history that began fresh, within limits, the script brings a fresh realm of
/// these limits to that history again, with labels that expect no end: a script says none. No line of it is
/// refused, and it has a line for each event. The script of what it brings the realm to is that very script; so
/// two histories with one script are one, but for the ends that their labels expect.
pub fn journal_is_a_script()
    ensures runs { JournalIsAScript }
    ensures again { JournalStays }
    ensures tells { JournalTellsAll }
{}

/// A journal counts from its base. The script of any history is that of the same history, if no scope or task was numbered
/// before: such numbers decide nothing. So the script of a legal history, within limits, brings a fresh realm of these
/// limits there: to the time and to main's bindings first, which a retirement makes as cheap as they were.
pub fn journal_counts_from_its_base()
    ensures legal { NumbersDecideNothing }
    ensures counts { JournalCountsAnew }
    ensures brings { JournalBringsAnew }
{}

/// The script of any history has the lines that come to the moment and to main's bindings with which it began, and one for
/// each event; and each line is ended.
pub fn no_line_is_lost()
    ensures { NoLineIsLost }
{}

/// The script of any history with any times is its script, with comments that say times before some lines and behind the last.
#[tactic(auto, using(crate::proofs::Commented::with_times))]
pub fn times_are_comments()
    ensures { TimesAreComments }
{}
