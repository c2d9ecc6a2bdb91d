//! The five joiners of JEP 505: at which completion each says that its scope is to be cancelled.
//! A progress keeps counts of the completions that it was handed, the first of each kind and the
//! exact sum of their numbers; only a caller's own closure is shown a list.
#![tactic(auto)]

mod account;
mod counting;
mod joiners;
mod tally;
mod until;

pub use account::JoinerAccount;
pub use counting::Progress;
pub use joiners::Joiner;
pub use scope_rules::Completion as Done;
pub use until::{CompletionTest, StoredTest, UntilTest};
