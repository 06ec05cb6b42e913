//! A gate with a limit: at most so many transfers are open on a server at once, whichever thread
//! opens them.
//!
//! Read [`Gate`] first. Each place of the gate is a word that is 0 or 1. A [`GateSeat`] enters by
//! swapping 1 into one place after the other, and has each place whose word it found at 0; no two
//! seats have one place. The rule that every step keeps is in `specs/Rule.antt`.
#![tactic(auto)]

mod gate;
mod laws;
mod rule;
mod view;

pub use gate::{Entry, Gate, GateSeat};
pub use laws::seats_have_places_of_their_own;
pub use view::View;

#[cfg(test)]
mod tests;
