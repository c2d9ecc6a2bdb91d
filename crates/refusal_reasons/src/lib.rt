//! Why a line of a script is refused. Of a command: what stood in its way, with its values, as one sentence. Of a
//! line that is no command: which field of which form is wrong, for what cause, and where, as one sentence and
//! a picture of the line.
//!
//! A command meets the checks of its row in their order, and the first that fails says so (`scope_checks`). Its refusal
//! and its reason are two functions of that check: `failures` has a case for each. The law of `laws` says that a
//! command has a reason just if it is refused, that the reason is of that refusal, and that what it says is so.
//! Events are counted from 1 since the base. At which of them a scope was joined or closed, the caller finds
//! (`Events`). A sentence names an event by the line of a script whose command recorded it: the list of these lines is
//! the caller's too.
#![tactic(auto)]

mod causes;
mod events;
pub mod explaining;
mod failures;
pub mod fault_laws;
mod faults;
mod forms;
pub mod laws;
mod line_places;
mod line_shown;
mod places;
pub mod reasons;
mod sentences;
mod shown;

pub use events::Events;
pub use explaining::{event_reason, query_reason, retire_reason};
pub use faults::{WordFault, fault_of};
pub use line_places::{Place, place_of};
pub use line_shown::{ShownBytes, ShownPlace};
pub use reasons::{ActorObstacle, Reason, RoomObstacle, ScopeObstacle, TaskObstacle};
pub use sentences::ShownFault;
pub use shown::ShownReason;
