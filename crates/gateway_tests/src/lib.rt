//! Tests on a pool of threads: of waits by a clock, and of the quote gateway, which runs on one thread too.
#![tactic(auto)]

#[cfg(test)]
mod clocks;
#[cfg(test)]
mod faults;
#[cfg(test)]
mod gateway;
