//! The model of task scopes: the rules and the log of a scope (`scope_rules` and `scope_log`, all of
//! which it hands on), and a plain evaluator that answers each query by scanning the list of events.
#![tactic(auto)]

pub mod plain;
mod scan;

pub use plain::evaluator::Plain;
pub use scope_log::{LogEntry, Preview, ScopeLog, ShownEntry, laws as log_laws};
pub use scope_rules::{
    Actor, AnyEnd, Base, Binding, Cancelling, Catalog, Cause, CauseKind, Completion, Counts, Due,
    Effective, End, Event, Expiry, Fault, ForkReply, Label, Limits, Name, Options, Outcome, Policy,
    Refusal, Rule, ScopeId, ScopeInfo, ScopeStage, Stage, State, TaskId, TaskState, TaskStates,
    TaskValue, TaskValues, Value, Verdict, is_name, is_runtime_fault, laws, types,
};
