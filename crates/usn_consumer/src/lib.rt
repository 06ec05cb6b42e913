//! What a member makes of its journal: the update, if any, of the journal record that it consumes
//! next.
//!
//! Read [`next_record`] first, then [`Consumed`]: what it answers.
#![tactic(auto)]

mod consume;
mod consumed;
mod made;

pub use consume::next_record;
pub use consumed::{ConsumeError, Consumed};
