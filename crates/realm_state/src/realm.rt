ghost use Rattle.std.specs.Prelude.{[], ℕ, ◌<◌, ◌≡◌, IfOk, List, MatchResult, Some, drop, length, slice_get};
ghost use Rattle.realm_state.specs.{Accepts, AnswersOrMemory, IsCancelOrderOf, IsIndexOf, IsRuled, KeepsRealm, Legal, base_check, base_of, scopes_of, sem, starting, weight, with_event};

use crate::noting::{make_room, note, scope_of_event};
use join_rules::StoredTest;
use scope_checks::Readings;
use scope_index::{CancelledScopes, RealmIndex, apply};
use scope_journal::{Journal, Trails};
use scope_rules::{Base, Event, Limits, Refusal};
use std::alloc::{AllocError, Global};
use std::marker::Model;

/// The state of one realm: its journal, an index that answers queries without a scan, and links between the
/// events of each scope. Index and links always agree with the journal's history.
#[derive(Drop)]
pub struct RealmState {
    pub(crate) journal: Journal,
    pub(crate) index: RealmIndex,
    pub(crate) trails: Trails,
}

impl Model for RealmState {
    ghost use Rattle.scope_rules.specs.Replies.{Realm};
    ghost use Rattle.scope_index.specs.IndexTables.{IsIndexOf};
    ghost use Rattle.scope_journal.specs.TrailsOf.{AreTrailsOf};

    ghost Value = { Realm };

    ghost view = { λ r. r.journal.realm };

    ghost invariant = { λ r. IsIndexOf r.journal.realm.history r.index × AreTrailsOf r.journal.realm.history r.trails };
}

impl RealmState {
    ghost use Rattle.scope_rules.specs.Origin.{the_start};

    /// A fresh realm. It takes no memory; that of later calls comes from `alloc`.
    pub fn new(alloc: Global, limits: Limits) -> RealmState
        ensures { result ≡ starting limits the_start }
    {
        RealmState {
            journal: Journal::new(alloc, limits),
            index: RealmIndex::new(alloc),
            trails: Trails::new(alloc, 0),
        }
    }

    /// A realm that begins with the base, as a retirement leaves it. Refused if the base has more
    /// pairs than the limit of load (`TooMany`), and if memory is refused (`Memory`).
    pub fn with_base(alloc: Global, limits: Limits, base: Base) -> Result<RealmState, Refusal>
        ensures { AnswersOrMemory (base_check limits base) (starting limits base) result }
    {
        let journal = Journal::with_base(alloc, limits, base)?;
        let Ok(index) = RealmIndex::with_base(alloc, journal.base()) else {
            return Err(Refusal::Memory);
        };
        let trails = Trails::new(alloc, journal.base().scopes());
        Ok(RealmState {
            journal,
            index,
            trails,
        })
    }

    /// The allocator that the realm grows by.
    pub(crate) fn allocator(&self) -> Global {
        self.journal.allocator()
    }

    /// The realm's limits. It also says of the history that it is legal, and within the limits: the load
    /// and the numbers too, the base's counted.
    pub fn limits(&self) -> Limits
        ensures { IsRuled self.now result }
    {
        self.journal.limits()
    }

    /// What the history begins with.
    pub fn base(&self) -> &Base
        ensures { result.now ≡ self.now.history.base }
    {
        self.journal.base()
    }

    /// How many events there are since the base.
    pub fn event_count(&self) -> usize
        ensures { result ≡ length self.now.history.events }
    {
        self.journal.event_count()
    }

    /// The event at the place, the first one's since the base being 0.
    pub fn event(&self, place: usize) -> Event
        requires { place < length self.now.history.events }
        ensures { slice_get self.now.history.events place ≡ Some result }
    {
        self.journal.event(place)
    }

    /// A copy of the events since the base, in order.
    ///
    /// # Errors
    ///
    /// If `alloc` refuses the memory of the copy.
    pub fn copied_events(&self, alloc: Global) -> Result<Vec<Event>, AllocError>
        ensures { IfOk result (λ events. events.items ≡ self.now.history.events) }
    {
        self.journal.copied_events(alloc)
    }
}

/// What is lent.
impl RealmState {
    /// The cancelled scopes in order of their cancellation, those that one event cancelled by their
    /// numbers, from the n-th on, from 0: none if no more than n are cancelled. It takes no memory,
    /// and time by the scopes that were cancelled since it was last called, with those of the last event
    /// before them.
    pub fn cancelled_since(&mut self, n: usize) -> CancelledScopes<'_>
        ensures* kept { sem 𝓛 (KeepsRealm self.entry) }
        ensures order { (list : List ℕ) × IsCancelOrderOf self.old.history list × (scopes_of result ≡ drop n list) }
    {
        let _legal = self.journal.limits();
        self.index.cancelled_since(n)
    }
}

/// How events are added.
impl RealmState {
    /// Appends the event, which was accepted and costs this load, or is refused memory. `listed` says of a
    /// scope that it opens whether a closure of the caller's is shown its completions.
    pub(crate) fn try_append(
        &mut self,
        event: &Event,
        load: u64,
        listed: bool,
    ) -> Result<(), Refusal>
        requires accepted { Accepts self.old.limits self.old.history event.now }
        requires costs { load ≡ weight event.now }
        ensures answer { MatchResult result (λ _. self.new ≡ with_event self.old event.now) (λ refusal. (refusal ≡ Refusal.Memory) × (self.new ≡ self.old)) }
    {
        let _legal = self.journal.limits();
        let place = self.journal.event_count();
        if self.journal.reserve(load).is_err() {
            return Err(Refusal::Memory);
        }
        if make_room(&mut self.trails, event, self.journal.load() + load).is_err() {
            return Err(Refusal::Memory);
        }
        let scope = scope_of_event(self.index.rows(), event);
        if apply(&mut self.index, event, listed, None, place).is_err() {
            return Err(Refusal::Memory);
        }
        note(&mut self.trails, event, scope, place as u32);
        self.journal.record(event, load);
        Ok(())
    }

    /// Appends the event, which was accepted and costs nothing. `test` is the caller's closure that may
    /// be asked where it ends a task.
    pub(crate) fn record(&mut self, event: &Event, test: Option<&StoredTest>)
        requires accepted { Accepts self.old.limits self.old.history event.now }
        requires free { weight event.now ≡ 0 }
        ensures added { self.new ≡ with_event self.old event.now }
        ensures legal { Legal self.new.limits self.new.history }
    {
        let _legal = self.journal.limits();
        let place = self.journal.event_count();
        let scope = scope_of_event(self.index.rows(), event);
        match apply(&mut self.index, event, false, test, place) {
            Ok(()) => {
                note(&mut self.trails, event, scope, place as u32);
                self.journal.record(event, 0);
            }
            Err(_) => unreachable!(),
        }
    }

    /// Drops the events, and begins anew with the base, which is the history's. It takes no memory.
    pub(crate) fn reset(&mut self, base: Base)
        requires { base ≡ base_of self.old.history }
        ensures { self.new ≡ starting self.old.limits base }
    {
        self.trails.reset(base.scopes());
        self.index.reset(&base);
        self.journal.reset(base);
    }

    /// The base that the realm's history leaves, which shares main's bindings: called again before they
    /// change, it copies none of them. Refused if memory is.
    #[tactic(auto, unfolding(scope_rules::specs::Replies::base_of))]
    pub(crate) fn base_after(&mut self) -> Result<Base, AllocError>
        ensures base { IfOk result (λ base. base ≡ base_of self.old.history) }
        ensures unchanged { self.new ≡ self.old }
    {
        let (moment, scopes, tasks) = (self.moment(), self.scopes(), self.tasks());
        self.index.base(moment, scopes, tasks)
    }
}
