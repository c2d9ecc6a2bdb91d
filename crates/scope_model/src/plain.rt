//! The plain evaluator: it keeps the base and the events, and nothing else.

pub mod commands;
pub mod evaluator;
pub mod queries;
pub mod readers;
