//! What no contract says of `vol_state`, tried: that calls succeed where there is memory, and
//! volumes and their journals written out by hand.
//!
//! The tests stand apart from the crates that they try, so that those are proved once.
#![tactic(auto)]

#[cfg(test)]
mod volume;
