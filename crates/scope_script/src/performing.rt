//! How a command is performed on a book.

pub mod answers;
pub mod commands;
