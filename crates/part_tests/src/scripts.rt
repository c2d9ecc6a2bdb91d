//! The script engine and plans, of what no script or plan of the program can say: a list of commands, what a plan holds,
//! what errors say, and that the outcomes that joiners really give are answered, whatever the jobs' order and ends. What a
//! script or a plan is answered is tested by `crates/scopectl/test-program` and `crates/fault_injection/test-beside`.

mod answering;
mod engine;
mod faults;
mod joins;
mod plans;
mod reading;
