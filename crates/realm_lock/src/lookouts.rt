ghost use Rattle.std.specs.Prelude.{◌≡◌, false};
ghost use Rattle.realm_lock.specs.{Lacks};

use crate::locked::LockedRealm;
use crate::timed_waiters::{BellWait, Noted, WaitTarget};
use cancel_marks::{Awaited, MarkCell};
use realm_core::RealmName;
use scope_rules::{Catalog, ScopeId};

/// What a call waits for of a scope.
#[derive(Clone, Copy)]
pub(crate) enum Until {
    /// That it can be joined: it is cancelled, or no task of it waits or runs.
    Joinable,
    /// That no task of it waits or runs.
    Settled,
}

/// What a call waits for.
#[derive(Clone, Copy)]
pub(crate) enum Wanted<'a> {
    /// This of a scope.
    Scope(ScopeId, Until),
    /// That the cell is set, if one is given, or that the bell has rung, if one is. If neither is, it waits for a moment.
    Sign(Option<&'a MarkCell>, Option<BellWait<'a>>),
}

impl Wanted<'_> {
    /// Where the call sleeps: at a bell of its own, or else at the scope's cell. None if std's count of holders is full.
    pub(crate) fn target<C: Catalog, N: RealmName>(
        &self,
        locked: &LockedRealm<C, N>,
    ) -> Option<WaitTarget> {
        match *self {
            Wanted::Scope(scope, _) => Some(WaitTarget::Cell(locked.cell(scope).ok()?)),
            Wanted::Sign(Some(cell), Some(bell)) => bell.target(Some(cell.scope())),
            Wanted::Sign(None, Some(bell)) => bell.target(None),
            Wanted::Sign(Some(cell), None) => Some(WaitTarget::Cell(cell.share().ok()?)),
            Wanted::Sign(None, None) => Some(WaitTarget::Moment),
        }
    }
}

/// What a call looks for before it sleeps.
#[derive(Clone, Copy)]
pub(crate) struct Lookout<'a> {
    pub(crate) wanted: Wanted<'a>,
    /// If it is noted among those who wait by a clock: its note, and whether it is to watch. A watch that it was to keep,
    /// or that nobody keeps, is a reason to look anew.
    pub(crate) noted: Option<(&'a Noted, bool)>,
}

impl<C: Catalog, N: RealmName> Awaited<LockedRealm<C, N>> for Lookout<'_> {
    ghost use Rattle.share_ledger.specs.Steps.{history_of};

    ghost lacks = { λ lookout locked. Lacks (history_of locked.steps) lookout.wanted };

    fn is_there(&self, locked: &LockedRealm<C, N>) -> bool {
        if let Some((noted, watches)) = self.noted
            && !locked.is_watched(noted, watches)
        {
            return true;
        }
        match self.wanted {
            Wanted::Scope(scope, until) => locked.is_done(scope, until),
            Wanted::Sign(cell, bell) => is_given(cell, bell),
        }
    }
}

/// Whether the cell is set, or the bell has rung.
fn is_given(cell: Option<&MarkCell>, bell: Option<BellWait<'_>>) -> bool {
    if let Some(cell) = cell
        && cell.is_set()
    {
        return true;
    }
    match bell {
        Some(bell) => bell.has_rung(),
        None => false,
    }
}
