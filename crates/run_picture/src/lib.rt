//! The picture of a run: the timeline of a realm as an SVG text, for those who would rather look than read.
//!
//! Each scope and each task that was numbered since the last retirement has a row, in the order of the tree: a scope,
//! its tasks below it, a task's own scopes below the task, and then the scopes that its owner opened in it. Rows are
//! indented by depth. If they are more than the view allows, a closed scope is one row with all that lies in it, and
//! says how many tasks these are and how many of them failed. So are tasks of one scope that have ended, one behind the
//! other, all of which failed, or none. From 1,000 rows on, or as many as the view allows, the rest of a scope's tasks are
//! one row, which says how many they are, how many failed and how many have not ended. A view may show one scope alone, as long as that lasts, and from one event to
//! another: then only what lasts in between has a row, and only what happened there has a mark.
//!
//! The way to the right is time if the caller hands the times of the events, with an axis of round ones, and else their
//! order; the picture says which. It fits the page that the view asks for, and is scaled down as a whole by a fifth at
//! most, so that no text is lower than 8 pixels. What comes later is drawn over what comes before.
//!
//! - A scope is a band from its opening to its close, or to the right edge, with its number, its owner if that is a
//!   task, its joiner and its options at the left. A band that ended is distinguished from an open one. It changes its colour
//!   where the scope becomes cancelled: by an accident, which is a deadline, a call, a joiner that gave up or a close
//!   before the join, or else by a normal end. A line in it says from where on it is closing, by its own close or by
//!   another's that covers it.
//! - A task is a dashed line from its fork on, a bar from its start to its end, or to the right edge, in the colour of
//!   what can be read of it, and ends with a mark; one that never starts has another.
//! - A join, a close and a new deadline leave a mark on the band. A tick is a line through all rows, with the
//!   moment. A bind and an unbind draw nothing.
//! - A cancel is a mark on each scope that it reaches, at the event that did it, and a line to it from the scope
//!   whose own cancel it was. A line passes over rows between: only a mark says that the cancel reached one.
//! - A shield that holds is a mark at the cancel of the scope around the shielded one, in the row of the latter, which
//!   is open then, and not cancelled itself.
//!
//! Bars, labels and marks say in words what they are, where they are pointed at. If the caller hands times, they say when,
//! and bars how long; or else the line of the script, if the caller hands the lines, or the number of the event, from 1. Numbers are decimal, and names have no character
//! that XML keeps for itself: what is written is XML, without more ado. The colours are distinguished by those who see
//! some of them alike, in light and in the dark. No number is larger than viewers take.
//!
//! `trace_of` writes the run as Chrome trace events in place of a picture, and `page_of` as a page.
//!
//! All three are drawn from the same data, and the data carries the contracts: `columns_of` says where what happened to each
//! task and each scope, `placed_of` and `rows_of` in which rows they stand, and `held_off` which shields held.
#![tactic(auto)]

mod arounds;
mod axis;
mod chart;
mod closings;
mod columns;
mod digits;
mod lanes;
mod marks;
mod page;
mod page_drawing;
mod page_head;
mod page_model;
mod page_rows;
mod picture;
mod pieces;
mod placed;
mod rows;
mod shields;
mod trace;
mod view;
mod words;

pub use chart::Drawn;
pub use columns::{Columns, ScopeRow, TaskRow, columns_of};
pub use page::page_of;
pub use picture::{picture_of, picture_with};
pub use placed::{Placed, placed_of};
pub use rows::{Class, Fold, Folded, Row, rows_of};
pub use shields::held_off;
pub use trace::trace_of;
pub use view::View;
