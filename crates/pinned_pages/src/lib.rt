//! What a member hands out of its records: a pinned state, which later changes leave as it is, and
//! the answer to a request for a file.
//!
//! Read [`Pinned`] first, then [`FileAnswer`] and [`Body`].
#![tactic(auto)]

mod answer;
mod body;
mod page;
mod pinned;

pub use answer::FileAnswer;
pub use body::Body;
pub use pinned::Pinned;
