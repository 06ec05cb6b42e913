//! What no contract says of `name_rules`, tried: small sets of records, what is shown of them, and
//! their trees; and rows in order of depth.
//!
//! The tests stand apart from the crate that they try, so that it is proved once.
#![tactic(auto)]

#[cfg(test)]
mod depth;
#[cfg(test)]
mod worlds;
