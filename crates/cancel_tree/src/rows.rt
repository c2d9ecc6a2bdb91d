//! The nodes of a tree, one for each scope, and the links between them.

use scope_rules::ScopeId;
use scope_rules::types::records::FirstCancel;

/// One scope in the tree of cancels: what lies around it, and what may cancel it.
#[derive(Clone, Copy)]
pub struct ScopeNode {
    pub parent: Option<ScopeId>,
    pub shield: bool,
    /// The place of its opening.
    pub opened: usize,
    pub own: Option<FirstCancel>,
    pub deadline: Option<u64>,
}

impl ScopeNode {
    ghost use Rattle.std.specs.Prelude.{◌≡◌};
    ghost use Rattle.cancel_tree.specs.Rows.{outer};

    /// The scope whose cancels reach this one: its parent, unless it is shielded.
    pub fn outer(&self) -> Option<ScopeId>
        ensures { result ≡ outer self.now }
    {
        if self.shield { None } else { self.parent }
    }
}

/// Where the walk over the scopes inside a scope goes on.
#[derive(Clone, Copy)]
pub struct Links {
    /// How many scopes lie around one another down to this one.
    pub level: u32,
    /// The last scope that was added inside it, shielded ones aside.
    pub first_inner: Option<ScopeId>,
    /// The scope that was added before it inside the same scope, shielded ones aside.
    pub next_inner: Option<ScopeId>,
}
