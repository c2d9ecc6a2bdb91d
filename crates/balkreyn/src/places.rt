//! Where a typed job leaves what it returned, for its slot.
ghost use Rattle.std.specs.Prelude.{◌≡◌, IfSome, MatchResult};
ghost use Rattle.scope_rules.specs.declared.types.refusals.Refusal.TheVariants.{Unavailable};

use crate::jobs::{JobError, Yields};
use cancel_marks::Bell;
use scope_rules::{Fault, Name, Refusal};
use std::alloc::Global;
use std::sync::atomic::{AtomicBool, Ordering};
use std::sync::{Arc, Mutex, Wait};

/// A value, with the name under which a job of type `J` may answer it.
#[derive(Drop)]
struct Kept<J: Yields> {
    name: Name,
    value: J::Value,
    ghost fits: { J.may_yield name value } by { J.is_fact name value },
}

/// Where one job puts what it answers, and its slot takes it from.
#[derive(Drop)]
pub(crate) struct Place<J: Yields> {
    item: Mutex<Option<Kept<J>>>,
    error: Mutex<Option<J::Error>>,
    /// The bell of who waits for the job's end.
    bell: Mutex<Option<Bell>>,
    is_left: AtomicBool,
}

/// The job's share of its place. It is dropped once the job is over, or if that never runs.
pub(crate) struct JobShare<J: Yields> {
    pub(crate) place: Arc<Place<J>, Global>,
}

impl<J: Yields> Drop for JobShare<J> {
    fn drop(self) {
        self.place.leave();
        let JobShare { place } = self;
        drop(place);
    }
}

impl<J: Yields> Place<J> {
    /// A place with nothing in it.
    pub(crate) fn new() -> Place<J> {
        Place {
            item: Mutex::new(None),
            error: Mutex::new(None),
            bell: Mutex::new(None),
            is_left: AtomicBool::new(false),
        }
    }

    /// Has this bell rung once the job is over; false if std's count of its holders is full.
    pub(crate) fn note<R: Wait>(&self, rt: &R, bell: &Bell) -> bool {
        match bell.share() {
            Ok(share) => {
                *self.bell.lock(rt) = Some(share);
                true
            }
            Err(_) => false,
        }
    }

    /// Whether the job is over, so that its task ends next.
    pub(crate) fn is_left(&self) -> bool {
        self.is_left.load(Ordering::SeqCst)
    }

    /// The job is over. Who notes a bell meanwhile sees that behind it.
    fn leave(&self) {
        self.is_left.store(true, Ordering::SeqCst);
        if let Some(noted) = self.bell.try_lock() {
            if let Some(bell) = noted.as_ref() {
                bell.ring();
            }
        }
    }

    /// Puts the value there.
    pub(crate) fn put<R: Wait>(&self, rt: &R, name: Name, value: J::Value)
        requires { J.may_yield name value }
    {
        *self.item.lock(rt) = Some(Kept { name, value });
    }

    /// Puts the error there, and gives the fault by which the rules know it.
    pub(crate) fn fail<R: Wait>(&self, rt: &R, name: Name, error: J::Error) -> Fault {
        let fault = error.fault(name);
        *self.error.lock(rt) = Some(error);
        fault
    }

    /// Takes the error, if it is still there.
    pub(crate) fn error<R: Wait>(&self, rt: &R) -> Option<J::Error> {
        self.error.lock(rt).take()
    }

    /// What the job left: its value or its error; `Unavailable`, if neither is there.
    pub(crate) fn answer<R: Wait>(
        &self,
        rt: &R,
        name: Name,
    ) -> Result<Result<J::Value, J::Error>, Refusal>
        ensures { MatchResult result (λ found. MatchResult found (J.may_yield name) (λ _. Unit {0})) (λ refusal. refusal ≡ Unavailable) }
    {
        match self.take(rt, name) {
            Some(value) => Ok(Ok(value)),
            None => match self.error(rt) {
                Some(error) => Ok(Err(error)),
                None => Err(Refusal::Unavailable),
            },
        }
    }

    /// Takes what is there, if it is of this name.
    pub(crate) fn take<R: Wait>(&self, rt: &R, name: Name) -> Option<J::Value>
        ensures { IfSome result (λ value. J.may_yield name value) }
    {
        let kept = self.item.lock(rt).take()?;
        let Kept { name: its, value } = kept;
        if its.is_same(&name) {
            Some(value)
        } else {
            None
        }
    }
}
