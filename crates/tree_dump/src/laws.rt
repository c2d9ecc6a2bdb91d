//! Laws of dumps and trees. The functions do nothing: their contracts are the laws.

ghost use Rattle.tree_dump.specs.{DumpStays, LevelsShow, RootLevelsShow, TimedAdds.TimedAdds, TreeAwaits, TreeShowsEachOnce, TreeStays};

/// A retirement changes nothing that a dump or a tree shows. If a list of commands without its retirements meets no
/// limit, and no command behind an accepted retirement names a discarded number, then what it leaves is shown the same
/// with the retirements.
#[tactic(auto, using(crate::proofs::Retiring::dump_stays, crate::proofs::RetiringText::tree_stays))]
pub fn retired()
    ensures dump { DumpStays }
    ensures tree { TreeStays }
{}

/// The second format of a dump is the first one with members more. Without them, `format`, `limits`, `now`, `used` and
/// each `ended`, `result` and `since`, its value is that of the first.
pub fn timed_adds()
    ensures { TimedAdds }
{}

/// The tree of a legal history is made of lines. Each scope that is not closed has exactly one, and so has each of its
/// tasks, below it. No closed scope has one, and no task of a closed scope.
pub fn tree_shows_each_once()
    ensures { TreeShowsEachOnce }
{}

/// The line of a scope in a tree says how many of its tasks wait or run, and how many were forked in it.
#[tactic(auto, using(crate::proofs::Awaits::tree_awaits))]
pub fn tree_awaits()
    ensures { TreeAwaits }
{}

/// What is shown of some levels of the tree of a legal history. The whole tree from that scope on has one line for each
/// scope that lies in it and is not closed, and one for each task of such a scope. Shown are just the lines of those scopes
/// that do not lie deeper than the levels go, and of their tasks, in the same order.
pub fn levels_show()
    ensures named { LevelsShow }
    ensures root { RootLevelsShow }
{}
