//! Tests of what a service imports: scopes that can't be forgotten, a service by one value, results of a caller's own type, closes by a
//! clock, a look at a request that hangs, and a service that never goes idle.
#![tactic(auto)]

#[cfg(test)]
mod acting;
#[cfg(test)]
mod cancels;
#[cfg(test)]
mod channels;
#[cfg(test)]
mod counting;
#[cfg(test)]
mod handled;
#[cfg(test)]
mod hooked;
#[cfg(test)]
mod kinds;
#[cfg(test)]
mod player;
#[cfg(test)]
mod requests;
#[cfg(test)]
mod serving;
#[cfg(test)]
mod watches;
#[cfg(test)]
mod watching;
