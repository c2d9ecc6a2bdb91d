//! The tree of cancel scopes (Trio, cancel scopes): which cancel reached a scope first, through which
//! shields none comes, and which deadline is in effect. Each scope knows its cause at once.
#![tactic(auto)]

mod cancel_order;
pub mod rows;
mod spread;
pub mod tree;

pub use tree::Tree;
