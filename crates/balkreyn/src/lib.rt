//! One crate to import: what a service needs of the runtime of task scopes, by the names that the guide uses. Its root has
//! the words that all speak in; `act` has the calls of services that act by one value, `by_hand` those by a context, a
//! clock and a runtime, `realms` a realm and its tokens, and `looks` what is seen of one while it runs.
#![tactic(auto)]

pub mod act;
mod aliases;
pub mod by_hand;
mod by_token;
mod copies;
mod errors;
mod forks;
mod guards;
mod handles;
mod inspect;
mod jobs;
mod literals;
pub mod looks;
mod places;
pub mod realms;
mod scoped;
mod services;
mod slots;
mod times;

pub use aliases::Handle;
pub use errors::{NoTime, ServiceError};
pub use jobs::{JobError, Typed, Yields};
pub use join_rules::{CompletionTest, Joiner, UntilTest};
pub use literals::named;
pub use realm_lock::{Bell, Joined, Mark};
pub use scope_rules::{
    AnyEnd, Cancelling, Cause, CauseKind, Completion, Effective, End, Event, Expiry, Fault,
    ForkReply, Label, Limits, Name, Options, Outcome, Refusal, Rule, ScopeId, State, TaskId,
    TaskState, TaskStates, TaskValue, TaskValues, Value, Verdict,
};
pub use services::ServiceAnswer;
pub use slots::Slot;
pub use std::sync::Wait;
pub use thread_pool::PoolRuntime;
