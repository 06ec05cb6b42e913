//! What no contract says of `rpc_pdu`, `rpc_frag` and `wire_rows`, tried: that memory is found, and
//! PDUs, fragments and rows written out by hand.
//!
//! The tests stand apart from the crates that they try, so that those are proved once.
#![tactic(auto)]

#[cfg(test)]
mod fragments;
#[cfg(test)]
mod pdus;
#[cfg(test)]
mod rows;
