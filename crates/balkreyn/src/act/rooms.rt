//! How much of a realm's room requests take.
ghost use Rattle.std.specs.Prelude.{◌↔◌, ◌≡◌, ◌⊎◌, Err, IfErr, IfOk, IsTrue, Ok, true};
ghost use Rattle.balkreyn.specs.{HasRoom, Memory, in_use, load_of, room_of, room_without};

use scope_rules::types::capacity::{FORK_LOAD, OPEN_LOAD, STEP_LOAD};
use scope_rules::{Base, Limits, Refusal};

/// What one request takes of its realm's capacity, between two retirements, at the most.
///
/// Requests that need a task each:
///
/// ```rust
/// fn without_scopes(limits: Limits) -> Flow {
///     Flow {
///         request: Need {
///             scopes: 0,
///             tasks: 1,
///             steps: 0,
///         },
///         ..flow_of(limits)
///     }
/// }
/// ```
#[derive(Clone, Copy)]
pub struct Need {
    /// Scopes: those that it opens, with all its jobs.
    pub scopes: u32,
    /// Tasks: its own, and those of the jobs that it forks.
    pub tasks: u32,
    /// Steps: cancels, moved deadlines, ticks, binds and unbinds. A wait by a clock ticks at most once for each
    /// deadline that passes.
    pub steps: u32,
}

impl Need {
    /// What a turn takes itself: its scopes, its watches, and the cancels of its stop.
    pub(crate) const TURN: Need = Need {
        scopes: 3,
        tasks: 2,
        steps: 2,
    };

    /// The load of all this.
    fn load(self) -> u64
        ensures { result ≡ load_of self }
    {
        u64::from(self.scopes) * OPEN_LOAD
            + u64::from(self.tasks) * FORK_LOAD
            + u64::from(self.steps) * STEP_LOAD
    }
}

/// The room that is left in a realm, as far as its owner reckons it by what each request needs.
#[derive(Clone, Copy)]
pub(crate) struct Room {
    scopes: u32,
    tasks: u32,
    load: u64,
    is_empty: bool,
}

impl Room {
    /// The room of a realm that has just begun, or retired.
    pub(crate) fn of(limits: Limits) -> Room
        ensures { result ≡ room_of limits }
    {
        Room {
            scopes: limits.scopes,
            tasks: limits.tasks,
            load: u64::from(limits.load),
            is_empty: true,
        }
    }

    /// The room once its realm was asked to retire: all of it, or what is left of it if memory was refused for
    /// that, so that the owner goes on and tries again after its next turn.
    ///
    /// # Errors
    /// Any other refusal.
    pub(crate) fn after_retire(
        self,
        limits: Limits,
        retired: Result<Base, Refusal>,
    ) -> Result<Room, Refusal>
        ensures whole { IfOk retired (λ _. result ≡ Ok (room_of limits)) }
        ensures again { retired ≡ Err Memory → result ≡ Ok self }
        ensures refused { IfErr retired (λ why. (why ≡ Memory) ⊎ (result ≡ Err why)) }
    {
        match retired {
            Ok(_base) => Ok(Room::of(limits)),
            Err(Refusal::Memory) => Ok(self),
            Err(refusal) => Err(refusal),
        }
    }

    /// No request was admitted since it began, or retired.
    pub(crate) fn is_empty(&self) -> bool
        ensures { result ≡ self.now.is_empty }
    {
        self.is_empty
    }

    /// There is so much room.
    fn has(&self, need: Need) -> bool
        ensures { IsTrue result ↔ HasRoom self.now need }
    {
        need.scopes <= self.scopes && need.tasks <= self.tasks && need.load() <= self.load
    }

    /// Takes so much.
    fn take(&mut self, need: Need)
        requires { HasRoom self.old need }
        ensures { self.new ≡ room_without self.old need }
    {
        self.scopes -= need.scopes;
        self.tasks -= need.tasks;
        self.load -= need.load();
    }

    /// Takes the room of a turn itself, if there is so much.
    pub(crate) fn open_turn(&mut self)
        ensures { self.new.is_empty ≡ self.old.is_empty }
    {
        if self.has(Need::TURN) {
            self.take(Need::TURN);
        }
    }

    /// Takes the room of a request that needs so much, if there is so much. The first is admitted in any case,
    /// since there is never more.
    pub(crate) fn admit(&mut self, need: Need) -> bool
        ensures fits { HasRoom self.old need → (result ≡ true) × (self.new ≡ in_use (room_without self.old need)) }
        ensures else_first { (HasRoom self.old need → ⊥) → (result ≡ self.old.is_empty) × (self.new ≡ in_use self.old) }
    {
        let is_first = self.is_empty;
        self.is_empty = false;
        if self.has(need) {
            self.take(need);
            return true;
        }
        is_first
    }
}
