//! Tests of the realm under its lock, by several threads: who waits is woken, and a realm serves again and again. What it
//! answers to scripts beside the program is tested by `crates/fault_injection/test-beside`; marks, closes with tickets, and
//! random jobs by `crates/fault_injection/test-program`.
#![tactic(auto)]

#[cfg(test)]
mod common;
#[cfg(test)]
mod handing;
#[cfg(test)]
mod rows;
#[cfg(test)]
mod threads;
#[cfg(test)]
mod waits;
#[cfg(test)]
mod waits_by;
