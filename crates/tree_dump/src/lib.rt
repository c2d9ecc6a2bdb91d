//! The tree of a realm: which scopes are not closed, inside which, with which tasks at which
//! stage, who was cancelled and by whom. `dump_of` and `dump` give it as JSON, `timed_dump` as JSON with times and limits,
//! and `tree_of` as text for a terminal.
//!
//! The JSON is compact, its keys stand in the order of their bytes, and it has no float:
//!
//! ```text
//! {"moment":N,"root":SCOPE or null}
//! SCOPE  {"cause":CAUSE or null,"deadline":N or null,"expiry":"fail" or "move-on","id":S,
//!         "inner":SCOPE or null,"joined":BOOL,"joiner":"WORD","owner":A,"shield":BOOL,
//!         "stage":"open" or "closing","tasks":[TASK,..]}
//! CAUSE  {"by":S,"kind":"call", "close", "joiner" or "deadline"}
//! TASK   {"id":K,"inner":SCOPE or null,"name":"NAME","stage":"STAGE","state":"STATE"}
//! ```
//!
//! The root is main's outermost scope. What lies inside a scope is the next one that its owner opened
//! and has not closed; what lies inside a task is its own outermost scope. The deadline is the scope's
//! own one, in milliseconds, also after the join. Tasks stand in fork order.
//!
//! The second format (`timed_dump`) has all of this, and members more:
//!
//! ```text
//! {"format":2,"limits":AMOUNTS,"moment":N,"now":T or null,"root":SCOPE or null,"used":AMOUNTS}
//! AMOUNTS  {"load":N,"scopes":N,"tasks":N}
//! ```
//!
//! Each SCOPE and each TASK has a member `"since":T or null` before its stage. T is a reading of a clock, in milliseconds
//! since the realm began. A scope's is the reading as it was opened. A task's is the reading as it started, if it runs or
//! ran. Each TASK has a member `"ended":T or null` before its number, the reading as it finished, if it did, and a member
//! `"result":V or null` behind its name. V is its value, a number or a text, or the name of its fault, as its state says;
//! null, if its end can't be read. `now` is the last reading. Each T is null if the clock was not read. The limits are those
//! of the realm. What counts against them are the load used, and the scopes and tasks since the last retirement.
//!
//! The text for a terminal has a line with the moment, and then a line for each scope that is not closed and for each
//! of its tasks, indented by two spaces a level:
//!
//! ```text
//! moment N[, now T][, main waits in CALL[ for AGE]]
//! scope S STAGE, of OWNER, joins JOINER[, joined][, deadline N[ to move on][, in AGE]][, shielded]
//!     [, cancelled by CAUSE scope P], awaits N of M[, open for AGE][, late by AGE]
//!   task K NAME: PROGRESS[ for AGE][, waits in CALL[ for AGE]]
//! ```
//!
//! Each is one line. STAGE is `open` or `closing`, OWNER `main` or `task K`, JOINER a joiner as a script has it.
//! The deadline is the scope's own one, in milliseconds, also after the join. CAUSE is `a call on`, `the close of`,
//! `the joiner of` or `the deadline of`; P is the scope whose own cancel reached this one. A scope awaits those of
//! its tasks that wait or run. PROGRESS is `waiting` or `running`; or else `finished` or `never started`, and behind
//! a comma what can be read of the task: `success`, `failed` or `unavailable`.
//!
//! AGE is in milliseconds, as `9 ms`, or from a second on in seconds with tenths, as `3.2 s`. T is the last reading of a
//! clock, in milliseconds. An age is T less the reading as the scope was opened, or as the task started, if it runs, or was
//! forked, if it waits. A deadline of a scope that isn't joined or cancelled comes in as long as it is later than T; a scope
//! that isn't joined is late by as long as its deadline is past. Only `tree_with` and `tree_at` show ages, by such readings, and in which calls actors wait,
//! as their caller knows it: `join`, `close`, `sleep`, `receive`, `send`, `permit`, `next_done`, `stop` or
//! `wait_rung`.
//!
//! The first scope is main's outermost one. Under a scope stand its tasks, in fork order; under a task its own
//! outermost scope; and behind a scope's tasks, as deep as they, the next scope that its owner opened and has not
//! closed. Where main has no scope that is not closed, the second line is `nothing is open`.
//!
//! A part of the tree (`tree_part`) is some of its levels, from main's outermost scope or from another, or what is waited
//! for alone: each scope that waits for tasks, the oldest first, with its tasks that wait or run. Behind a part stands
//! what all that is open sums up to:
//!
//! ```text
//! open in all: scopes N, tasks waiting N, running N, finished N, never started N
//! ```
#![tactic(auto)]

mod ages;
mod book;
mod kept;
pub mod laws;
mod members;
mod parts;
mod text_lines;
mod text_walk;
mod timed;
pub mod told;
mod waits;
pub mod walk;
mod words;

pub use ages::Ages;
pub use book::dump;
pub use kept::{KeptAges, ages_at, tree_at};
pub use parts::{Sums, TreePart, tree_part};
pub use text_walk::{tree_of, tree_with};
pub use timed::timed_dump;
pub use waits::{CurrentWait, WaitCall, Waits};
pub use walk::dump_of;
