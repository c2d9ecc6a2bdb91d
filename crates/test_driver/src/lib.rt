//! What tests run works by: `Inline` runs each in the caller's thread, `RefuseNth` refuses one of them. `Throws` are numbers
//! that look random.
#![tactic(auto)]

mod inline;
mod refusing;
mod throws;

pub use inline::{Inline, InlineHandle};
pub use refusing::RefuseNth;
pub use throws::Throws;
