//! Notes each event in the links between the events of its scope.

ghost use Rattle.std.specs.Prelude.{◌≡◌, OnOk, false};
ghost use Rattle.realm_state.specs.{AreRowsOf, AreTrailsOf, CanBeNoted, HasNoted, HasRoomFor, History, is_open, scope_of_event, scope_of_task};

use scope_journal::Trails;
use scope_rows::Rows;
use scope_rules::{Event, ScopeId, TaskId};
use std::alloc::AllocError;

/// Whether the event opens a scope.
fn opens(event: &Event) -> bool
    ensures { result ≡ is_open event.now }
{
    match event {
        Event::Open { .. } => true,
        _ => false,
    }
}

/// The scope that the event is of, which opens none: the one that it names, or that its task was forked
/// in.
pub(crate) fn scope_of_event(rows: &Rows, event: &Event) -> Option<ScopeId>
    ensures { (h : History) → AreRowsOf h rows.now → is_open event.now ≡ false → result ≡ scope_of_event h event.now }
{
    match *event {
        Event::Reject { task } => scope_of_task(rows, task),
        Event::Start { task } => scope_of_task(rows, task),
        Event::Finish { task, end: _ } => scope_of_task(rows, task),
        Event::Fork { scope, .. }
        | Event::Cancel { scope }
        | Event::Move { scope, .. }
        | Event::Join { scope, .. }
        | Event::BeginClose { scope, .. }
        | Event::EndClose { scope, .. } => Some(scope),
        Event::Open { .. } | Event::Tick { .. } | Event::Bind { .. } | Event::Unbind { .. } => None,
    }
}

/// The scope in which the task was forked, if it was since the base.
fn scope_of_task(rows: &Rows, task: TaskId) -> Option<ScopeId>
    ensures { (h : History) → AreRowsOf h rows.now → result ≡ scope_of_task h task }
{
    match rows.task(task) {
        Some(row) => Some(row.scope),
        None => None,
    }
}

/// Makes room for the event, if the load comes to so much with it.
///
/// # Errors
///
/// If memory is refused. Then the places are the same.
pub(crate) fn make_room(trails: &mut Trails, event: &Event, load: u64) -> Result<(), AllocError>
    ensures room { OnOk result (HasRoomFor trails.new event.now load) }
    ensures agrees { (h : History) → AreTrailsOf h trails.old → AreTrailsOf h trails.new }
{
    trails.reserve(load)?;
    if opens(event) {
        trails.reserve_scope()?;
    }
    Ok(())
}

/// Adds the event at this place, for which there is room. It is of the scope, or of none; an open is of
/// the scope that it opens. It takes no memory.
pub(crate) fn note(trails: &mut Trails, event: &Event, scope: Option<ScopeId>, place: u32)
    requires { CanBeNoted trails.old event.now scope place }
    ensures { HasNoted trails.old event.now scope trails.new }
{
    if opens(event) {
        trails.open(place);
    } else {
        trails.note(scope, place);
    }
}
