//! Updates of files and directories, and which of two updates of one file wins.
//!
//! Read [`Update`] first: what one version says of one file or directory. [`Update::beats`] says
//! which of two updates of one file stands, and [`admit`] which updates a member refuses to take.
#![tactic(auto)]

mod key;
mod laws;
#[cfg(test)]
mod tests;
mod unfit;
mod update;

pub use key::Key;
pub use laws::winning_is_an_order;
pub use unfit::{Unfit, admit};
pub use update::Update;
