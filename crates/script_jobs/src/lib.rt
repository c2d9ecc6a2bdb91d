//! The jobs of the program that run a script, over any streams: its replies are written, or what it leaves is
//! given as it is to be shown. For a person there are notes: why each refused line was refused, and what each line
//! was answered.
//!
//! A note is one line of text, but for that. N is the number of the script's line, from 1, TEXT the line as it is shown, REPLY
//! its reply, and WHY the sentence that says why it was refused:
//!
//! ```text
//! line N: TEXT: WHY             a refused line, if refusals alone are wanted
//! line N, column C: WHY         the same of a line that is no command, for its field at byte C, from 1
//! line N: TEXT -> REPLY         any line with a reply, if replies alone are wanted
//! line N: TEXT -> REPLY: WHY    a refused line, if all is wanted
//! ```
//!
//! Below a WHY of a line that is no command the whole line is shown, with a caret below each byte of that field.
//! TEXT has at most 60 bytes, with `...` behind them if the line has more, and `?` in place of each byte that
//! is not printable ASCII. A line without a reply gets no note.
#![tactic(auto)]

mod begun;
mod between;
mod command_helps;
mod comparing;
mod counting;
mod explained;
mod explained_book;
pub mod laws;
mod making;
mod notes;
mod noting;
mod passed;
mod phrases;
mod prompting;
mod random;
mod replaying;
mod session;
mod showing;
mod times;
mod whole;
mod whys;

pub use between::Between;
pub use comparing::{Difference, first_difference};
pub use counting::Count;
pub use explained::shown_noted;
pub use making::script_by;
pub use notes::Notes;
pub use noting::{NotedFault, replayed_noted};
pub use prompting::{PROMPT, PROMPT_HELP, Saves, prompted};
pub use replaying::replayed;
pub use showing::{Rendering, View, shown};
pub use times::{Times, times_of};
