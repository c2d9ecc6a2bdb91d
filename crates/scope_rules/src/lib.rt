//! The rules of task scopes: the types that calls, events and answers are made of, the rules as
//! definitions over a list of events (`specs/`), and the laws that hold of every history.
#![tactic(auto)]

pub mod joins;
pub mod laws;
mod shown;
pub mod types;

pub use types::answers::{
    Cancelling, Cause, CauseKind, Counts, Effective, ForkReply, Stage, State, Verdict,
};
pub use types::bases::Base;
pub use types::capacity::Limits;
pub use types::catalogs::{AnyEnd, Catalog, Due, is_runtime_fault};
pub use types::checks::Failed;
pub use types::events::{Binding, Event, Expiry, Options};
pub use types::infos::{ScopeInfo, ScopeStage};
pub use types::joiners::{Policy, Rule};
pub use types::names::{Name, is_name};
pub use types::outcomes::{Outcome, TaskState, TaskStates, TaskValue, TaskValues};
pub use types::refusals::Refusal;
pub use types::values::{Actor, Completion, End, Fault, Label, ScopeId, TaskId, Value};
