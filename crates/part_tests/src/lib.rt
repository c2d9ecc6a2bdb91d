//! Tests of what runs no jobs, of what no contract and no script says: the parts that a realm is made of, the book, the
//! script engine and plans.
#![tactic(auto)]

#[cfg(test)]
mod book;
#[cfg(test)]
mod parts;
#[cfg(test)]
mod scripts;
