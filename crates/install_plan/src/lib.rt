//! What the installer of a member does next.
//!
//! Read [`next_step`] first, and then `name_rules`, where the definitions of the steps stand. An
//! [`Agenda`] keeps what is to be looked at from one step to the next.
#![tactic(auto)]

mod agenda;
mod files;
mod first;
mod next;
mod objects;
mod passing;
mod pending;
mod records;

pub use agenda::Agenda;
pub use next::next_step;
