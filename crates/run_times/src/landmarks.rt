//! Where something happened first to each scope or each task: one pass over the events for all of them.
ghost use Rattle.std.specs.Prelude.{ℕ, ◌+◌, ◌<◌, ◌≡◌, IfOk, get_or, length};
ghost use Rattle.run_times.specs.{HasFirsts, IsUnnoted, named, noted_in};

use scope_rules::Event;
use std::alloc::{AllocError, Global};

/// What happens to a scope or to a task.
#[derive(Clone, Copy)]
pub enum Landmark {
    /// A task gets its thread.
    Started,
    /// A task ends, or never gets its thread.
    Ended,
    /// A scope is joined.
    Joined,
    /// The close of a scope begins.
    Began,
    /// A scope is closed.
    Closed,
}

/// The number of the scope or the task to which the event is this.
fn named(landmark: Landmark, event: &Event) -> Option<u32>
    ensures { result ≡ named landmark event.now }
{
    match (landmark, *event) {
        (Landmark::Started, Event::Start { task }) => Some(task),
        (Landmark::Ended, Event::Reject { task } | Event::Finish { task, .. }) => Some(task),
        (Landmark::Joined, Event::Join { scope, .. }) => Some(scope),
        (Landmark::Began, Event::BeginClose { scope, .. }) => Some(scope),
        (Landmark::Closed, Event::EndClose { scope, .. }) => Some(scope),
        _ => None,
    }
}

/// The places by number, counted from the first number behind `before`.
#[derive(Drop)]
pub struct Firsts {
    pub before: u32,
    pub places: Vec<Option<usize>>,
}

impl Firsts {
    /// The place for the number, if it is one of those that are kept and something is there.
    pub fn place(&self, number: u32) -> Option<usize>
        ensures { (k : ℕ) → number ≡ self.now.before + 1 + k → k < length self.now.places.items → result ≡ get_or self.now.places.items k None }
    {
        let index = number.checked_sub(self.before)?.checked_sub(1)?;
        *self.places.get(index as usize)?
    }
}

/// So many numbers at which nothing is noted. It is refused for memory alone.
fn unnoted(alloc: Global, count: u32) -> Result<Vec<Option<usize>>, AllocError>
    ensures { IfOk result (λ places. IsUnnoted places.items count) }
{
    let mut places = Vec::new(alloc);
    for _ in 0..count {
        places.push(None)?;
    }
    Ok(places)
}

/// Notes the place for the number, if it is the first one.
fn note(places: &mut Vec<Option<usize>>, before: u32, number: Option<u32>, place: usize)
    ensures long { length places.new.items ≡ length places.old.items }
    ensures each { (k : ℕ) → k < length places.old.items → get_or places.new.items k None ≡ noted_in before number place k (get_or places.old.items k None) }
{
    let Some(number) = number else {
        return;
    };
    if number <= before {
        return;
    }
    let index = (number - before - 1) as usize;
    if index < places.len() && places[index].is_none() {
        places[index] = Some(place);
    }
}

/// The first places of the landmark, for so many numbers behind `before`. It is refused for memory alone.
pub fn firsts_of(
    alloc: Global,
    events: &[Event],
    landmark: Landmark,
    before: u32,
    count: u32,
) -> Result<Firsts, AllocError>
    ensures { IfOk result (λ firsts. HasFirsts firsts landmark events.now before count) }
{
    let mut places = unnoted(alloc, count)?;
    for (place, event) in events.iter().enumerate() {
        note(&mut places, before, named(landmark, event), place);
    }
    Ok(Firsts { before, places })
}
