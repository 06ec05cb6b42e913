//! The volume of a member: a root directory, the objects beneath it or in limbo, and a journal of
//! what was done to them.
//!
//! Read [`Volume`] first, then [`LocalOp`] and [`Refused`]: what may be done by path, and why it is
//! refused. A change is made in two steps: a call such as [`Volume::put`] answers a [`VolCmd`],
//! [`Volume::ready`] takes the memory that it needs, and [`Volume::take`] does it.
#![tactic(auto)]

mod command;
mod conditions;
mod hints;
mod journal;
mod keys;
mod laws;
mod local;
mod lookups;
mod object;
mod objects;
mod operation;
mod paths;
mod record;
mod replica;
mod shelf;
mod sums;
mod tree;
mod volume;

pub use command::{Ready, VolCmd};
pub use laws::{
    fresh_lists_stand_for_maps, lists_resolve_as_maps, lists_stand_for_maps,
    objects_have_the_sums_of_their_contents, operations_resolve_to_one, pending_records_are_last,
    resolved_commands_may_be_done, steps_keep_the_numbering, steps_leave_numbers_free,
    tables_are_tests, tests_are_tables,
};
pub use object::Object;
pub use operation::{LocalOp, Refused};
pub use record::VolRecord;
pub use sums::content_sum;
pub use volume::Volume;
