//! What no contract says of `record_db` and `pinned_pages`, tried: that calls succeed where there
//! is memory, and books and pages written out by hand.
//!
//! The tests stand apart from the crates that they try, so that those are proved once.
#![tactic(auto)]

#[cfg(test)]
mod book;
#[cfg(test)]
mod pinned;
