//! The plain program of the rules: one function for each definition, which scans the events. Each
//! file computes the file of `scope_rules/specs` that has its name, `log` that of `scope_log/specs`.

pub mod bindings;
pub mod cancels;
pub mod completions;
pub mod history;
pub mod load;
pub mod log;
pub mod nests;
pub mod outcomes;
pub mod readings;
pub mod scopes;
pub mod tasks;
pub mod verdicts;
pub mod view;
