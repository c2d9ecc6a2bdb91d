//! The book: its state, its commands, its queries.

pub mod book;
pub mod commands;
pub mod queries;
pub mod readers;
