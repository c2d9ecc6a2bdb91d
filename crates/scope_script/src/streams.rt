//! The streams that a script comes from and its replies go to.

pub mod watched;
