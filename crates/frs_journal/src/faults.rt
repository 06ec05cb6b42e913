// Why a journal refused a call, or wasn't opened.
use std::error::Error;
use std::fmt;

/// One of the two slots of a journal.
#[derive(Clone, Copy, Debug, PartialEq, Eq)]
pub enum Slot {
    A,
    B,
}

impl fmt::Display for Slot {
    ghost use Rattle.std.specs.Prelude.{Some};
    ghost use Rattle.frs_journal.specs.Errors.{slot_text};

    ghost output = { λ slot. Some (slot_text slot) };

    fn fmt<W: fmt::Write>(&self, f: &mut fmt::Formatter<W>) -> fmt::Result {
        match self {
            Slot::A => write!(f, "a"),
            Slot::B => write!(f, "b"),
        }
    }
}

/// Why a command wasn't taken.
#[derive(Clone, Copy, Debug, PartialEq, Eq)]
pub enum ApplyFault {
    /// Memory ran out, before the first call of the device.
    Memory,
    /// A call of the device failed, and the disk has counted so many. From then on the journal is
    /// shut.
    DiskFault { count: u64 },
    /// The slot would have this many bytes, more than 2^32.
    JournalFull { length: u64 },
    /// A call of the device failed before.
    Shut,
}

impl fmt::Display for ApplyFault {
    ghost use Rattle.std.specs.Prelude.{Some};
    ghost use Rattle.frs_journal.specs.Errors.{apply_fault_text};

    ghost output = { λ fault. Some (apply_fault_text fault) };

    fn fmt<W: fmt::Write>(&self, f: &mut fmt::Formatter<W>) -> fmt::Result {
        match self {
            ApplyFault::Memory => write!(f, "memory ran out"),
            ApplyFault::DiskFault { count } => write!(f, "the disk failed, {count} times by now"),
            ApplyFault::JournalFull { length } => {
                write!(f, "the journal would have {length} bytes")
            }
            ApplyFault::Shut => write!(f, "the journal is shut"),
        }
    }
}

impl Error for ApplyFault {}

/// Why a journal wasn't opened.
#[derive(Clone, Copy, Debug, PartialEq, Eq)]
pub enum LoadWhy {
    /// Memory ran out.
    Memory,
    /// A call of a device failed, and its disk has counted so many.
    DiskFault { count: u64 },
    /// The bytes of a slot are wrong from this place on.
    Damaged { slot: Slot, offset: u64 },
}

impl fmt::Display for LoadWhy {
    ghost use Rattle.std.specs.Prelude.{Some};
    ghost use Rattle.frs_journal.specs.Errors.{load_why_text};

    ghost output = { λ why. Some (load_why_text why) };

    fn fmt<W: fmt::Write>(&self, f: &mut fmt::Formatter<W>) -> fmt::Result {
        match self {
            LoadWhy::Memory => write!(f, "memory ran out"),
            LoadWhy::DiskFault { count } => write!(f, "a disk failed, {count} times by now"),
            LoadWhy::Damaged { slot, offset } => {
                write!(f, "slot {slot} is damaged from byte {offset} on")
            }
        }
    }
}

impl Error for LoadWhy {}

/// A journal that wasn't opened, with its disks.
#[derive(Drop)]
pub struct LoadFault<D> {
    pub disk_a: D,
    pub disk_b: D,
    pub why: LoadWhy,
}
