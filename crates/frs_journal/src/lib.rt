//! A journal of the commands of a machine, on two disks, that a crash doesn't break.
//!
//! Read [`Journalled`] first: a machine and its two slots. Each command is one record; its bytes go
//! behind the slot's last gate, and then the gate is opened. `specs/Slots.antt` has the bytes of a
//! slot, and `specs/Loads.antt` what two slots stand for.
#![tactic(auto)]

mod choice;
mod faults;
mod fresh;
mod journalled;
mod laws;
mod loading;
mod opening;
mod reading;
mod slot;
#[cfg(test)]
mod tests;

pub use faults::{ApplyFault, LoadFault, LoadWhy, Slot};
pub use journalled::{Journalled, Prepared};
pub use laws::{damaged_once, loads_once, never_damaged};
pub use slot::{append_record, clear, fill, renew, settle, trim};
