//! What the records of a member say of its volume, and what its journal makes of them.
//!
//! The definitions stand here: what a journal record makes (`specs/Recorded.antt`), which records
//! are shown, and trees (`specs/Tree.antt`), and the installer's next step (`specs/Next.antt`); with
//! laws that they keep. [`shown`] finds which records are shown, [`tree`] their tree, whose rows
//! [`depth_order`] puts in order, and [`name_winner`] the one that has a name. [`Step`] is a step of
//! the installer.
#![tactic(auto)]

mod descent;
mod kinds;
mod laws;
mod named;
mod rows;
mod step;
mod trees;
mod winner;

pub use descent::shown;
pub use kinds::is_file;
pub use laws::{
    children_of_what_is_removed_are_hidden, made_updates_have_their_version,
    matching_names_show_the_greatest, nothing_is_made_of_a_replica_record,
    pending_records_come_first,
};
pub use rows::{TreeRow, depth_order};
pub use step::{Next, Step, Subject};
pub use trees::tree;
pub use winner::name_winner;
