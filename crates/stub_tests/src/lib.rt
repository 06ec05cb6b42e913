//! What no contract says of `ndr_core` and `ndr_frs`, tried: that memory is found, and bytes and
//! stubs written out by hand.
//!
//! The tests stand apart from the crates that they try, so that those are proved once.
#![tactic(auto)]

#[cfg(test)]
mod ndr;
#[cfg(test)]
mod stubs;
