//! Disks, and what a crash may leave on them.
//!
//! Read [`FrsDisk`] first: each call says what a crash may leave then, and at each moment inside
//! the call (`specs/Crashes.antt`, `specs/Moments.antt`). On a [`ScriptDisk`] a script arms the
//! call at which the disk fails or stops. [`MemDisk`] is such a disk in memory, and a [`Rack`]
//! makes the five disks of a member.
#![tactic(auto)]

mod disk;
mod history;
mod image;
mod laws;
mod memory;
mod memory_rack;
mod rack;
mod script;
mod script_disk;
mod steps;
#[cfg(test)]
mod tests;
mod trace;

pub use disk::{Failed, FrsDisk};
pub use image::Image;
pub use laws::{
    a_cut_may_be_undone, a_new_byte_may_be_missing, a_written_byte_may_be_any,
    the_present_is_a_moment, what_is_synced_stays,
};
pub use memory::MemDisk;
pub use memory_rack::MemRack;
pub use rack::{DiskSet, Rack, RackError};
pub use script_disk::ScriptDisk;
pub use steps::{cut_synced, write_synced};
