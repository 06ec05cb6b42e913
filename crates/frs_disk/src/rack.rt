// Where the disks of members come from.
ghost use Rattle.std.specs.Prelude.{◌≡◌, ◌≤◌, ◌==◌, ℕ, not, false, IfOk, IsErrOf, nat_eq};
ghost use Rattle.frs_disk.specs.Alarms.{Rose};
ghost use Rattle.frs_disk.specs.Racks.{IsMade, Make, OfEach, raised_if};

use crate::script_disk::ScriptDisk;
use std::alloc::{AllocError, Global};
use std::error::Error;
use std::fmt;

/// The disks of a member: two slots each for the journals of its book and its volume, and the disk
/// on which contents are staged.
#[derive(Drop)]
pub struct DiskSet<D> {
    pub book_a: D,
    pub book_b: D,
    pub vol_a: D,
    pub vol_b: D,
    pub stage: D,
}

/// Why no disks were made.
#[derive(Clone, Copy, Debug, PartialEq, Eq)]
pub enum RackError {
    /// The rack failed, and counted it.
    Failed,
    /// Memory ran out.
    Memory,
}

impl From<AllocError> for RackError {
    ghost use Rattle.frs_disk.specs.declared.rack.RackError.TheVariants as errors;

    ghost from_gives = { λ _ error. error ≡ errors.Memory };

    fn from(_error: AllocError) -> RackError {
        RackError::Memory
    }
}

impl fmt::Display for RackError {
    ghost use Rattle.std.specs.Prelude.{Some};
    ghost use Rattle.frs_disk.specs.Errors.{rack_error_text};

    ghost output = { λ error. Some (rack_error_text error) };

    fn fmt<W: fmt::Write>(&self, f: &mut fmt::Formatter<W>) -> fmt::Result {
        match self {
            RackError::Failed => write!(f, "the rack failed"),
            RackError::Memory => write!(f, "memory ran out while disks were made"),
        }
    }
}

impl Error for RackError {}

/// Makes the disks of members, and takes back those that failed.
pub trait Rack {
    /// The disks that it makes.
    type Disk: ScriptDisk + Send;

    /// What its disks have in common.
    ghost kind: { Self → Make };

    /// How many of its calls failed, and how many disks came back that had failed unarmed.
    ghost faults: { Self → ℕ };

    /// How many disks came back that weren't empty before their first write.
    ghost found: { Self → ℕ };

    /// Makes the disks of a member, by its number.
    fn make(&mut self, alloc: Global, member: u32) -> Result<DiskSet<Self::Disk>, RackError>
        ensures disks { IfOk result (λ disks. OfEach
            (λ disk. IsMade (kind self.old) (Self.Disk.FrsDisk.states disk)
            (Self.Disk.FrsDisk.alarm disk) (Self.Disk.FrsDisk.start disk)) disks) }
        ensures failed { IsErrOf result RackError.Failed
            → Rose (faults self.old) (faults self.new) }
        ensures quiet { IsErrOf result RackError.Failed → (kind self.old).quiet ≡ false }
        ensures later { faults self.old ≤ faults self.new }
        ensures found { found self.new ≡ found self.old }
        ensures kind { kind self.new ≡ kind self.old };

    /// Takes a disk back, and takes no memory.
    fn back(&mut self, disk: Self::Disk)
        ensures faults { faults self.new
            ≡ raised_if (not (nat_eq (Self.Disk.FrsDisk.alarm disk).unarmed 0)) (faults self.old) }
        ensures found { found self.new
            ≡ raised_if (Self.Disk.FrsDisk.start disk).found (found self.old) }
        ensures kind { kind self.new ≡ kind self.old };
}
