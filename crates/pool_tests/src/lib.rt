//! Tests of a pool of threads: small works over real threads, with the tickets of a real ledger that lies
//! under one lock. The ledger is there for measurements of what runs tasks too.
#![tactic(auto)]

mod ledgers;

pub use ledgers::Ledger;

#[cfg(test)]
mod pool;
