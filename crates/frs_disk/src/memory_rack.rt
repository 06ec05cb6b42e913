// A rack of disks in memory.
ghost use Rattle.std.specs.Prelude.{◌≡◌};

use crate::disk::FrsDisk;
use crate::memory::MemDisk;
use crate::rack::{DiskSet, Rack, RackError};
use crate::script_disk::ScriptDisk;
use std::alloc::Global;

/// A rack of disks in memory, which are empty when they are made.
#[derive(Debug, Drop)]
pub struct MemRack {
    faults: u64,
    found: u64,
}

impl MemRack {
    /// A rack with no faults.
    pub fn new() -> MemRack
        ensures { (result.faults ≡ 0) × (result.found ≡ 0) }
    {
        MemRack {
            faults: 0,
            found: 0,
        }
    }

    /// How many disks came back that had failed unarmed.
    pub fn faults(&self) -> u64
        ensures { result ≡ self.now.faults }
    {
        self.faults
    }

    /// How many disks came back that weren't empty before their first write.
    pub fn found(&self) -> u64
        ensures { result ≡ self.now.found }
    {
        self.found
    }
}

impl Rack for MemRack {
    ghost use Rattle.std.specs.Prelude.{true};

    type Disk = MemDisk;

    ghost kind = { λ _. record {
      tells = true;
      can_crash = true;
      quiet = true;
      exact = true;
      blank = true;
    } };

    ghost faults = { λ rack. rack.faults };

    ghost found = { λ rack. rack.found };

    fn make(&mut self, alloc: Global, _member: u32) -> Result<DiskSet<MemDisk>, RackError> {
        Ok(DiskSet {
            book_a: MemDisk::new(alloc),
            book_b: MemDisk::new(alloc),
            vol_a: MemDisk::new(alloc),
            vol_b: MemDisk::new(alloc),
            stage: MemDisk::new(alloc),
        })
    }

    fn back(&mut self, disk: MemDisk) {
        if disk.unarmed() != 0 {
            self.faults = self.faults.saturating_add(1);
        }
        if disk.found() {
            self.found = self.found.saturating_add(1);
        }
    }
}
