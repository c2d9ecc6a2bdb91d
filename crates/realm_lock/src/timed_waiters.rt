ghost use Rattle.std.specs.Prelude.{◌<◌, ◌≡◌, IfErr, IfOk, IsSome, IsTrue, None, Some};
ghost use Rattle.realm_lock.specs.{MatchOption, slab_len};

use cancel_marks::{Bell, MarkCell, Wakes};
use scope_rules::ScopeId;
use slab::Slab;
use std::alloc::Global;

/// A bell that ends a wait. It had rung `heard` times when its owner looked last.
#[derive(Clone, Copy)]
pub struct BellWait<'a> {
    pub bell: &'a Bell,
    pub heard: u64,
}

impl BellWait<'_> {
    /// Whether it has rung since.
    pub(crate) fn has_rung(&self) -> bool {
        self.bell.rings() != self.heard
    }

    /// Where its owner sleeps, whose wait a cancel of the scope ends, if one is given. None if std's count of holders is full.
    pub(crate) fn target(&self, scope: Option<ScopeId>) -> Option<WaitTarget> {
        Some(WaitTarget::Bell {
            bell: self.bell.share().ok()?,
            heard: self.heard,
            scope,
        })
    }
}

/// Where a call sleeps that waits by a clock.
#[derive(Drop)]
pub(crate) enum WaitTarget {
    /// At the cell of the scope that it waits for.
    Cell(MarkCell),
    /// At a bell of its own, which had rung so often when its owner looked last. A cancel of the scope wakes it, if one is
    /// given.
    Bell {
        bell: Bell,
        heard: u64,
        scope: Option<ScopeId>,
    },
    /// At no scope's: it waits for a moment alone.
    Moment,
}

impl WaitTarget {
    /// The same for one holder more. None if std's count of holders is full.
    pub(crate) fn share(&self) -> Option<WaitTarget> {
        match self {
            WaitTarget::Cell(cell) => Some(WaitTarget::Cell(cell.share().ok()?)),
            WaitTarget::Bell { bell, heard, scope } => Some(WaitTarget::Bell {
                bell: bell.share().ok()?,
                heard: *heard,
                scope: *scope,
            }),
            WaitTarget::Moment => Some(WaitTarget::Moment),
        }
    }

    /// The scope whose cancel ends the wait, if one does.
    pub(crate) fn scope(&self) -> Option<ScopeId> {
        match self {
            WaitTarget::Cell(cell) => Some(cell.scope()),
            WaitTarget::Bell { scope, .. } => *scope,
            WaitTarget::Moment => None,
        }
    }

    /// The bell to be noted at a scope, and that scope, if there are both.
    pub(crate) fn bell(&self) -> Option<(ScopeId, &Bell)> {
        match self {
            WaitTarget::Bell { bell, scope, .. } => Some(((*scope)?, bell)),
            _ => None,
        }
    }

    /// What is slept on there; `moments`, the realm's, by who waits for a moment alone.
    pub(crate) fn wakes<'a>(&'a self, moments: &'a Wakes) -> &'a Wakes {
        match self {
            WaitTarget::Cell(cell) => cell.wakes(),
            WaitTarget::Bell { bell, .. } => bell.wakes(),
            WaitTarget::Moment => moments,
        }
    }
}

/// That a call sleeps is noted here. It can't be dropped: pass it to `leave` when the call has woken, or the
/// program doesn't compile.
pub(crate) struct Noted {
    place: usize,
    // The scope at which the call's bell is noted, and its place there.
    bell: Option<(ScopeId, usize)>,
}

impl Noted {
    /// The bell of the call is noted at this place of the scope.
    pub(crate) fn with_bell(self, scope: ScopeId, at: usize) -> Noted
        ensures { result.place ≡ self.place }
    {
        let Noted { place, bell: _ } = self;
        let bell = Some((scope, at));
        Noted { place, bell }
    }
}

/// The watch, which a call that has woken leaves to nobody. It can't be dropped: who has it hands it on by `heir` when its
/// wait ends, or enters with it when it sleeps again, or the program doesn't compile.
pub(crate) struct OwedWatch {
    // Where the call was noted.
    place: usize,
}

/// A call that sleeps and is to watch. It can't be dropped: who has it wakes it.
pub(crate) struct CalledWaiter<'a> {
    target: &'a WaitTarget,
}

impl CalledWaiter<'_> {
    /// Wakes it, where it sleeps: at the realm's `moments` if it waits for a moment alone.
    pub(crate) fn wake(self, moments: &Wakes) {
        let CalledWaiter { target } = self;
        target.wakes(moments).wake();
    }
}

/// The calls that sleep now and wait by a clock. One of them watches: it sleeps until the realm's next
/// deadline. The others sleep until they are woken, or a deadline in effect for themselves. So a deadline
/// wakes two calls at most, and not all. If nobody watches, one of them has been woken, and will watch or
/// wake another.
#[derive(Drop)]
pub(crate) struct TimedWaiters {
    targets: Slab<WaitTarget>,
    watcher: Option<usize>,
}

impl TimedWaiters {
    /// Nobody sleeps yet.
    pub(crate) fn new(alloc: Global) -> TimedWaiters {
        TimedWaiters {
            targets: Slab::new(alloc),
            watcher: None,
        }
    }

    /// Notes that a call goes to sleep at the target; it watches, if nobody does, and owes no watch then. What it owes is
    /// handed back if the note is refused memory.
    pub(crate) fn enter(
        &mut self,
        target: WaitTarget,
        owed: Option<OwedWatch>,
    ) -> Result<Noted, Option<OwedWatch>>
        ensures watches { IfOk result (λ noted. self.old.watcher ≡ None → self.new.watcher ≡ Some noted.place) }
        ensures kept { IfOk result (λ _. IsSome self.new.watcher) }
        ensures refused { IfErr result (λ back. (self.new.watcher ≡ self.old.watcher) × (back ≡ owed)) }
    {
        let Ok(place) = self.targets.insert(target) else {
            return Err(owed);
        };
        if self.watcher.is_none() {
            self.watcher = Some(place);
        }
        is_paid(owed);
        Ok(Noted { place, bell: None })
    }

    /// Whether the call watches.
    pub(crate) fn is_watching(&self, noted: &Noted) -> bool {
        self.watcher == Some(noted.place)
    }

    /// Whether the call watches, if it is to, and else somebody does.
    pub(crate) fn is_watched(&self, noted: &Noted, watches: bool) -> bool
        ensures { IsTrue result → IsSome self.now.watcher }
    {
        match self.watcher {
            Some(place) => place == noted.place || !watches,
            None => false,
        }
    }

    /// The call has woken, and watches no longer. Gives where its bell is noted, and the watch, which the call owes then
    /// if nobody keeps it.
    pub(crate) fn leave(&mut self, noted: Noted) -> (Option<(ScopeId, usize)>, Option<OwedWatch>)
        ensures left { self.new.watcher ≡ Some noted.place → ⊥ }
        ensures owed { MatchOption result.1 (IsSome self.new.watcher) (λ _. self.new.watcher ≡ None) }
    {
        let Noted { place, bell } = noted;
        let _target = self.targets.try_remove(place);
        if self.watcher == Some(place) {
            self.watcher = None;
        }
        match self.watcher {
            Some(_) => (bell, None),
            None => (bell, Some(OwedWatch { place })),
        }
    }

    /// Hands on the watch: gives the call that is to keep it, if nobody does and one sleeps. It is the last, whom a
    /// channel or a limiter serves last.
    pub(crate) fn heir(&self, owed: OwedWatch) -> Option<CalledWaiter<'_>>
        ensures { self.now.watcher ≡ None → 0 < slab_len self.now.targets → IsSome result }
    {
        let OwedWatch { place: _ } = owed;
        match self.watcher {
            Some(_) => None,
            None => match self.targets.iter().next_back() {
                Some((_, target)) => Some(CalledWaiter { target }),
                None => None,
            },
        }
    }

    /// The call that watches sleeps too long now: it watches no longer. Gives the index of its note.
    pub(crate) fn dismiss(&mut self) -> Option<usize>
        ensures { (result ≡ self.old.watcher) × (self.new ≡ record self.old { watcher = None }) }
    {
        self.watcher.take()
    }

    /// The target that is noted at the index.
    pub(crate) fn target(&self, place: usize) -> Option<&WaitTarget> {
        self.targets.get(place)
    }
}

/// The watch is kept by now, if it was owed.
fn is_paid(owed: Option<OwedWatch>) {
    match owed {
        Some(owed) => {
            let OwedWatch { place: _ } = owed;
        }
        None => {}
    }
}
