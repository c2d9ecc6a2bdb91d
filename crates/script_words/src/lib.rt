//! The words of scripts: what one line of a script says, and what a command is answered, with the line that says it.
//!
//! Fields are the longest runs of bytes other than the space. A line without fields, or whose first
//! field begins with `#`, is silent. Each other line is in one of these forms, or a bad word; so is a
//! line of more than `LINE_LIMIT` bytes.
//!
//! ```text
//! open A [JOINER] [deadline=N] [move-on] [shield]
//! fork A S NAME    reject K       start K      ok K VALUE     fail K NAME
//! cancel S         move S N       move S never tick N
//! bind A NAME VALUE               unbind A     get A NAME
//! join A S         close A S      closed A S   retire A
//! state K          stage K        result A K   fault A K
//! cause S          until S        counts S
//! ```
//!
//! A, S and K are numbers of 32 bits, N is a moment in milliseconds of 64 bits, both in decimal with no
//! needless zero in front. A VALUE is such a number of an `i64`, with `-` in front if it is below 0,
//! or else a NAME. A JOINER is `all`, `any`, `await`, `await-ok`, `until:fail:n`, `until:ok:n` or
//! `until:sum:n`; without one it is `await-ok`.
#![tactic(auto)]

pub mod commands;
mod fields;
mod forms;
mod joiners;
mod keywords;
pub mod laws;
pub mod lines;
mod near;
mod numbers;
mod openings;
mod parts;
pub mod reply;
pub mod reply_laws;
pub mod reply_lines;
mod rows;
mod words;

pub use commands::{Command, Line, Query};
pub use fields::{field_len, just_one, just_three, just_two, next_field, without_spaces};
pub use forms::new_deadline;
pub use joiners::policy;
pub use keywords::{Keyword, keyword_of};
pub use lines::{LINE_LIMIT, read_line, read_line_into};
pub use near::is_near;
pub use numbers::{moment, small};
pub use openings::deadline;
pub use reply::Reply;
pub use reply_lines::append_line;
pub use rows::{FieldKind, OpenWord, Slot, slots};
pub use words::{name, value};
