ghost use Rattle.std.specs.Prelude.{◌≡◌, ◌≤◌};
ghost use Rattle.scope_journal.specs.{weight};

use scope_rules::Event;
use scope_rules::types::capacity::{FORK_LOAD, OPEN_LOAD, STEP_LOAD};

/// What an accepted command costs, in units of load.
pub fn weight(event: &Event) -> u64
    ensures cost { result ≡ weight event.now }
    ensures small { result ≤ 4 }
{
    match *event {
        Event::Open { .. } => OPEN_LOAD,
        Event::Fork { .. } => FORK_LOAD,
        Event::Cancel { .. } => STEP_LOAD,
        Event::Move { .. } => STEP_LOAD,
        Event::Tick { .. } => STEP_LOAD,
        Event::Bind { .. } => STEP_LOAD,
        Event::Unbind { .. } => STEP_LOAD,
        _ => 0,
    }
}
