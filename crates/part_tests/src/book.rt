//! The book: a caller's closure is asked once for each completion; an open hands its joiner back; the example of
//! docs/GUIDE.md.

mod asked_once;
mod calls;
