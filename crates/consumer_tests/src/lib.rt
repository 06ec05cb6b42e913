//! What no contract says of `usn_consumer`, tried: journal records consumed one after the other,
//! written out by hand.
//!
//! The tests stand apart from the crates that they try, so that those are proved once.
#![tactic(auto)]

#[cfg(test)]
mod consumer;
