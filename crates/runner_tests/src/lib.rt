//! Tests of jobs on threads, over a realm and a pool.
#![tactic(auto)]

#[cfg(test)]
mod jobs;
