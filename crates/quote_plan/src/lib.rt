//! What the quote gateway needs of no realm and no thread: the plan that it is given, and the answer
//! that the ends of its jobs make.
//!
//! A plan is text of lines, each ended by a line feed. Fields are the longest runs of bytes other than
//! the space. A line without fields, or whose first field begins with `#`, says nothing. The first line
//! that says something is the mode, and each later one is an offer, of which there are at most
//! `OFFER_LIMIT`, with names that differ:
//!
//! ```text
//! mode best        mode all        mode first
//! offer NAME PRICE
//! offer NAME fail FAULT
//! ```
//!
//! A PRICE is a number in decimal with no needless zero in front, at most `PRICE_LIMIT`. A FAULT is a
//! name other than those of the faults that the runtime itself makes.
//!
//! If the text is no plan, `read_plan` names its first bad line, and says why it is one; so does a `PlanReader`
//! of a text that comes piece by piece, as soon as that line has ended.
#![tactic(auto)]

pub mod answering;
pub mod answers;
mod begun;
mod choosing;
mod cutting;
mod ends;
pub mod lines;
pub mod plans;
pub mod readers;
pub mod reading;
pub mod whys;

pub use answering::{NoAnswer, answer};
pub use answers::{Answer, Quote, Quotes};
pub use lines::{OFFER_LIMIT, PRICE_LIMIT};
pub use plans::{Mode, Offer, Plan};
pub use readers::PlanReader;
pub use reading::{PlanFault, read_plan};
pub use whys::PlanWhy;
