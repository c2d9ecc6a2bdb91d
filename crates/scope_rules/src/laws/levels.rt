//! Laws of levels. Each function does nothing: its contract is the law.

ghost use Rattle.scope_rules.specs.{LevelGoesByParent, ParentIsSmaller};

/// A scope's level is one more than its parent's, whose number is smaller, and 1 without a parent.
pub fn levels_go_by_parents()
    ensures level { LevelGoesByParent }
    ensures smaller { ParentIsSmaller }
{}
