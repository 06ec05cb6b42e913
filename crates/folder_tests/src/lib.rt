//! What no contract says of `folder_core`, tried: that calls succeed where there is memory, and
//! events and their replies written out by hand.
//!
//! The tests stand apart from the crates that they try, so that those are proved once.
#![tactic(auto)]

#[cfg(test)]
mod folder;
