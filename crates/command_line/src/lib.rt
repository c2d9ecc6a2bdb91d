//! The command line of the program `scopectl`: from its words to the command that they say, or to the text
//! that they ask for.
//!
//! ```text
//! scopectl replay [--scopes N] [--tasks N] [--load N] [--strict] [--quiet] [--explain] [--trace] [--json]
//!     [--expect FILE] [FILE]
//! scopectl check JOURNAL [ANSWERS]
//! scopectl dump [--scopes N] [--tasks N] [--load N] [--strict] [--quiet] [--explain] [--format N] [FILE]
//! scopectl tree [--scopes N] [--tasks N] [--load N] [--strict] [--quiet] [--explain] [--lenient] [--awaited]
//!     [--depth N] [--scope S] [FILE]
//! scopectl timeline [--scopes N] [--tasks N] [--load N] [--strict] [--quiet] [--explain] [--lenient] [--width PX]
//!     [--rows N] [--from N] [--to N] [--since MS] [--until MS] [--scope S] [FILE]
//! scopectl trace [--scopes N] [--tasks N] [--load N] [--strict] [--quiet] [--explain] [--lenient] [FILE]
//! scopectl quote [--deadline MS] [--after NAME=MS].. [--tree-after MS] [--journal FILE] [--page FILE] [FILE]
//! scopectl generate [--seed N] [--lines N]
//! scopectl help [COMMAND]
//! scopectl version
//! ```
//!
//! An N is a number in decimal with no needless zero in front, from 1 to its limit; an MS is such a number of
//! milliseconds, up to a day's, or up to 4294967295 behind `--since` and `--until`. The text NAME=MS is split at its first `=`, and NAME is a name as an offer of
//! a plan has one. Each option but `--after` stands once at most, as `--scopes N` or `--scopes=N`. Each job has
//! `--color WHEN` too, where WHEN is `auto`, `always` or `never`. Behind `--` stand files alone.
//!
//! All of it is read by `clap`: what the words say is defined by `clap`'s own parse of them. Help, of the program and of
//! each command, and the version are texts of this crate, and tests show them. Behind what `clap` says of words that
//! it does not understand may stand a hint.
#![tactic(auto)]

mod application;
mod colors;
mod delays;
mod faults;
mod help;
mod hints;
mod lines;
mod settings;

pub use colors::ColorChoice;
pub use faults::LineFault;
pub use help::{VERSION_LINE, help_of};
pub use lines::{Asked, CommandLine, Job, ViewOptions, line};
pub use settings::{Delay, DumpFormat, PictureOptions, ScriptOptions, StreamOptions, TreeOptions};
