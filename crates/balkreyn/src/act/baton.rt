//! What two owners hand to each other.
ghost use Rattle.std.specs.Prelude.{◌<◌, ◌↔◌, ◌≡◌, ◌⊎◌, IsTrue};
ghost use Rattle.balkreyn.specs.{other_side};
ghost use Rattle.balkreyn.specs.declared.act.baton.Place.TheVariants as place;

use crate::act::intake::Intake;
use std::sync::{Condvar, Mutex, MutexGuard, Wait};

/// Which of the two realms.
#[derive(Clone, Copy, PartialEq, Eq)]
pub(crate) enum Side {
    First,
    Second,
}

impl Side {
    /// The other one.
    pub(crate) fn other(self) -> Side
        ensures { result ≡ other_side self }
    {
        match self {
            Side::First => Side::Second,
            Side::Second => Side::First,
        }
    }
}

/// Where the baton is.
#[derive(Clone, Copy, PartialEq, Eq)]
enum Place {
    /// Either owner may take it.
    Free,
    /// The owner of this side alone may take it.
    For(Side),
    /// An owner has it.
    Taken,
}

/// What lies between the owners.
#[derive(Clone, Copy)]
struct Between {
    place: Place,
    /// How many owners have come to take it, and have not got it yet.
    waiting: u8,
    /// All is over.
    is_over: bool,
}

impl Between {
    /// The owner of this side may take the baton.
    fn is_for(&self, side: Side) -> bool
        ensures { IsTrue result ↔ ((self.now.place ≡ place.Free) ⊎ (self.now.place ≡ place.For side)) }
    {
        match self.place {
            Place::Free => true,
            Place::For(its) => its == side,
            Place::Taken => false,
        }
    }

    /// The owner of this side lets the baton go: for the other owner, if that waits, and else for whoever comes
    /// first.
    fn pass(&mut self, side: Side)
        ensures rest { self.new ≡ record self.old { place = self.new.place } }
        ensures wanted { 0 < self.old.waiting → self.new.place ≡ place.For (other_side side) }
        ensures else_free { self.old.waiting ≡ 0 → self.new.place ≡ place.Free }
    {
        self.place = if self.waiting > 0 {
            Place::For(side.other())
        } else {
            Place::Free
        };
    }
}

/// What one of two owners has at a time: whoever has it takes requests.
pub(crate) struct Baton<W: Drop> {
    intake: Mutex<Intake<W>>,
    between: Mutex<Between>,
    changed: Condvar,
}

impl<W: Drop> Baton<W> {
    /// A baton that either owner may take first.
    pub(crate) fn new() -> Baton<W> {
        Baton {
            intake: Mutex::new(Intake::new()),
            between: Mutex::new(Between {
                place: Place::Free,
                waiting: 0,
                is_over: false,
            }),
            changed: Condvar::new(),
        }
    }

    /// Takes the baton for the owner of this side, once it may; false if all is over.
    pub(crate) fn take<R: Wait>(&self, rt: &R, side: Side) -> bool {
        let mut between = self.between.lock(rt);
        between.waiting = between.waiting.saturating_add(1);
        for _ in rt.forever() {
            if between.is_over || between.is_for(side) {
                between.waiting = between.waiting.saturating_sub(1);
                between.place = Place::Taken;
                return !between.is_over;
            }
            between = self.changed.wait(rt, between);
        }
        unreachable!()
    }

    /// All is over.
    pub(crate) fn is_over<R: Wait>(&self, rt: &R) -> bool {
        self.between.lock(rt).is_over
    }

    /// What was put back, for the owner that has the baton.
    pub(crate) fn intake<R: Wait>(&self, rt: &R) -> MutexGuard<'_, Intake<W>> {
        self.intake.lock(rt)
    }

    /// Lets go the baton, which the owner of this side had: for the other owner, if that waits, and else for
    /// whoever comes first.
    pub(crate) fn pass<R: Wait>(&self, rt: &R, side: Side) {
        self.between.lock(rt).pass(side);
        self.changed.notify_all();
    }

    /// Says that all is over, whoever has the baton.
    pub(crate) fn end<R: Wait>(&self, rt: &R) {
        self.between.lock(rt).is_over = true;
        self.changed.notify_all();
    }

    /// What was put back, once both owners are gone.
    pub(crate) fn into_intake(self) -> Intake<W> {
        let Baton {
            intake,
            between: _,
            changed: _,
        } = self;
        intake.into_inner()
    }
}
