//! Laws of what actors see bound. Each function does nothing: its contract is the law.

ghost use Rattle.scope_rules.specs.{BoundAsOpened, ForkedAsOpened, HeldByAnyScope, HeldByLaterScopes, LastBoundOnce, LastWasBound, MainSeesOwn, StackStaysAbove, TaskSeesForker};

/// A task sees what its forker saw at the fork, then its own pairs. Main sees its own pairs alone.
pub fn tasks_see_what_their_forker_saw()
    ensures task { TaskSeesForker }
    ensures main { MainSeesOwn }
{}

/// A fork is let in only while the actor sees what it saw at the scope's opening, so each task of a
/// scope begins with those bindings.
pub fn forks_want_the_bindings_of_the_opening()
    ensures tested { BoundAsOpened }
    ensures forked { ForkedAsOpened }
{}

/// An unbind waits for each scope that its actor opened since it bound its last pair. So while a scope
/// isn't closed, its owner's stack is no lower than at the opening.
pub fn unbinds_wait_for_later_scopes()
    ensures bound { LastWasBound }
    ensures once { LastBoundOnce }
    ensures later { HeldByLaterScopes }
    ensures any { HeldByAnyScope }
    ensures above { StackStaysAbove }
{}
