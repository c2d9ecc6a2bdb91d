//! How what calls did is put together, if one follows another, as by a call that waits. Each function
//! does nothing: its contract is the law.

ghost use Rattle.realm_core.specs.{AddsGoOn, AgreementsGoOn, ClosesGoOn, HoldersAgree, LaterScopesClose, LooksGoOn};

/// A holder agrees with what it has seen.
pub fn holders_agree()
    ensures { HoldersAgree }
{}

/// What agrees with a list agrees with each list with which that agrees.
pub fn agreements_go_on()
    ensures { AgreementsGoOn }
{}

/// A look after looks is a look.
pub fn looks_go_on()
    ensures { LooksGoOn }
{}

/// A step that is added after looks is added.
pub fn adds_go_on()
    ensures { AddsGoOn }
{}

/// If a scope is closing and not closed, each scope that its owner opened later and has not closed is
/// closing.
pub fn later_scopes_close()
    ensures { LaterScopesClose }
{}

/// A close that can end goes on with the actor's innermost scope: nothing refuses the end of
/// that, and then the close can still come to its end.
pub fn closes_go_on()
    ensures { ClosesGoOn }
{}
