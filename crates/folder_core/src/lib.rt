//! The folder of a member: its volume and its book, held together as one machine over events, each
//! of which is answered once and entered in a history.
//!
//! Read [`Folder`] first, then [`Event`], [`Reply`] and [`Refusal`]: what may come to a member, what
//! it answers, and why an event changes nothing. [`Entry`] is how an event stands in the history.
#![tactic(auto)]

mod answer;
mod copies;
mod entry;
mod event;
mod folder;
mod kept;
mod laws;
mod machine;
mod mark;
mod note;
mod refusal;
mod reply;

pub use entry::Entry;
pub use event::Event;
pub use folder::Folder;
pub use kept::KeptUpdate;
pub use laws::{answers_are_one, files_have_forms, runs_are_one};
pub use mark::{FileMark, Mark};
pub use note::{LocalNote, Note};
pub use refusal::Refusal;
pub use reply::Reply;
