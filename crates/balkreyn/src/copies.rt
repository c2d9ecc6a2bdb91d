//! A realm's history, copied out of it, and what is written of that.
ghost use Rattle.std.specs.Prelude.{◌≡◌, MatchResult};
ghost use Rattle.balkreyn.specs.{History, IsCopyOf, Looks.Says, Memory, SaysWaits, SaysWhen, dump_text, known_clock, no_clock, script_text, tree_by, tree_text};

use crate::act::current::CurrentWaits;
use crate::times::Times;
use realm_lock::{Look, RealmState};
use scope_checks::records;
use scope_rules::{Base, Event, Limits, Refusal};
use script_journal::{script_of, timed_script};
use std::alloc::Global;
use std::marker::Model;
use tree_dump::{Ages, ages_at, dump_of, tree_at, tree_of, tree_with};

/// A history, and the limits of its realm. Its value is the history.
#[derive(Drop)]
pub(crate) struct Copied {
    limits: Limits,
    base: Base,
    events: Vec<Event>,
}

impl Model for Copied {
    ghost use Rattle.scope_rules.specs.History.{History};

    ghost Value = { History };

    ghost view = { λ c. record { base = c.base; events = c.events.items } };
}

/// The copy of a realm's whole history: what is done under its lock.
#[derive(Clone, Copy)]
pub(crate) struct CopyOut {
    pub(crate) alloc: Global,
}

impl Look for CopyOut {
    ghost use Rattle.balkreyn.specs.Looks.{IsCopyOf};

    type Answer = Result<Copied, Refusal>;

    ghost tells = { λ copy h answer. IsCopyOf h answer };

    fn look(self, realm: &RealmState) -> Result<Copied, Refusal> {
        let from = realm.base();
        let Ok(binds) = Vec::from_slice(self.alloc, from.binds()) else {
            return Err(Refusal::Memory);
        };
        let base = Base::new(from.moment(), from.scopes(), from.tasks(), binds);
        match realm.copied_events(self.alloc) {
            Ok(events) => Ok(Copied {
                limits: realm.limits(),
                base,
                events,
            }),
            Err(_) => Err(Refusal::Memory),
        }
    }
}

impl Copied {
    /// A realm of its own in which all this has happened, so that queries need not scan. That each event is
    /// accepted again, no clause says: one that isn't would be reported as want of memory.
    fn replayed(self, alloc: Global) -> Result<RealmState, Refusal>
        ensures { MatchResult result (λ realm. realm.history ≡ self) (λ refusal. refusal ≡ Memory) }
    {
        let Copied {
            limits,
            base,
            events,
        } = self;
        let Ok(mut realm) = RealmState::with_base(alloc, limits, base) else {
            return Err(Refusal::Memory);
        };
        for event in &events {
            let told = realm.perform(event, false, None);
            if !records(&told) {
                return Err(Refusal::Memory);
            }
        }
        Ok(realm)
    }
}

/// The tree of what stands at the end of the history, as text for a terminal.
pub(crate) fn tree_in(alloc: Global, copied: Result<Copied, Refusal>) -> Result<String, Refusal>
    ensures { (h : History) → IsCopyOf h copied → Says (tree_text h) result }
{
    match tree_of(alloc, &copied?.replayed(alloc)?) {
        Ok(text) => Ok(text),
        Err(_) => Err(Refusal::Memory),
    }
}

/// The same tree with ages, by the times of the events and by that of this look.
pub(crate) fn timed_tree_in(
    alloc: Global,
    copied: Result<Copied, Refusal>,
    times: &Times,
    now: u64,
) -> Result<String, Refusal>
    ensures { (h : History) → IsCopyOf h copied → Says (tree_by (known_clock h times.now.found.items now) h) result }
{
    let copied = copied?;
    let Ok(events) = Vec::from_slice(alloc, copied.events.as_slice()) else {
        return Err(Refusal::Memory);
    };
    let realm = copied.replayed(alloc)?;
    match tree_at(
        alloc,
        &realm,
        events.as_slice(),
        times.found.as_slice(),
        now,
    ) {
        Ok(text) => Ok(text),
        Err(_) => Err(Refusal::Memory),
    }
}

/// The tree with the calls in which actors wait.
pub(crate) fn waiting_tree_in(
    alloc: Global,
    copied: Result<Copied, Refusal>,
    waits: &CurrentWaits,
) -> Result<String, Refusal>
    ensures { (h : History) → IsCopyOf h copied → SaysWaits no_clock h result }
{
    let realm = copied?.replayed(alloc)?;
    let Ok(found) = waits.found(alloc, &realm) else {
        return Err(Refusal::Memory);
    };
    match tree_with(alloc, &realm, &Ages::none().with(found.lent())) {
        Ok(text) => Ok(text),
        Err(_) => Err(Refusal::Memory),
    }
}

/// The same with ages, by the times of the events and by that of this look.
pub(crate) fn waiting_tree_at(
    alloc: Global,
    copied: Result<Copied, Refusal>,
    waits: &CurrentWaits,
    times: &Times,
    now: u64,
) -> Result<String, Refusal>
    ensures { (h : History) → IsCopyOf h copied → SaysWaits (known_clock h times.now.found.items now) h result }
{
    let copied = copied?;
    let Ok(events) = Vec::from_slice(alloc, copied.events.as_slice()) else {
        return Err(Refusal::Memory);
    };
    let realm = copied.replayed(alloc)?;
    let Ok(found) = waits.found(alloc, &realm) else {
        return Err(Refusal::Memory);
    };
    let Ok(kept) = ages_at(
        alloc,
        &realm,
        events.as_slice(),
        times.found.as_slice(),
        now,
    ) else {
        return Err(Refusal::Memory);
    };
    match tree_with(alloc, &realm, &kept.lent().with(found.lent())) {
        Ok(text) => Ok(text),
        Err(_) => Err(Refusal::Memory),
    }
}

/// The same tree, as JSON without blanks.
pub(crate) fn dump_in(alloc: Global, copied: Result<Copied, Refusal>) -> Result<String, Refusal>
    ensures { (h : History) → IsCopyOf h copied → Says (dump_text h) result }
{
    match dump_of(alloc, &copied?.replayed(alloc)?) {
        Ok(text) => Ok(text),
        Err(_) => Err(Refusal::Memory),
    }
}

/// The script of the history.
pub(crate) fn journal_in(alloc: Global, copied: Result<Copied, Refusal>) -> Result<String, Refusal>
    ensures { (h : History) → IsCopyOf h copied → Says (script_text h) result }
{
    let copied = copied?;
    match script_of(alloc, &copied.base, copied.events.as_slice()) {
        Ok(text) => Ok(text),
        Err(_) => Err(Refusal::Memory),
    }
}

/// The script of the history with the times of its events, and behind it the time of this look.
#[tactic(auto, using(script_journal::proofs::Commented::with_times))]
pub(crate) fn timed_in(
    alloc: Global,
    copied: Result<Copied, Refusal>,
    times: &Times,
    now: u64,
) -> Result<String, Refusal>
    ensures { (h : History) → IsCopyOf h copied → SaysWhen h times.now.found.items now result }
{
    let copied = copied?;
    match timed_script(
        alloc,
        &copied.base,
        copied.events.as_slice(),
        times.found.as_slice(),
        now,
    ) {
        Ok(text) => Ok(text),
        Err(_) => Err(Refusal::Memory),
    }
}
