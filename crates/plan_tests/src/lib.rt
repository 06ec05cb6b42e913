//! What a member's installer does next, tried on volumes and books written out by hand.
#![tactic(auto)]

#[cfg(test)]
mod made;
#[cfg(test)]
mod steps;
