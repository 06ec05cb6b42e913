// Many commands, committed and loaded again.
use crate::pile::Pile;
use crate::probe::ProbeError;
use frs_base::{Bytes, Machine};
use frs_disk::MemDisk;
use frs_journal::{ApplyFault, Journalled, LoadWhy};
use std::alloc::{AllocError, Global};

/// How far a run goes.
#[derive(Clone, Copy, Debug, PartialEq, Eq)]
pub enum Work {
    /// The commands are taken by a machine with no journal.
    Take,
    /// They are committed.
    Commit,
    /// They are committed, and then loaded.
    Load,
}

/// What a run came to.
#[derive(Clone, Copy, Debug, PartialEq, Eq)]
pub struct Counts {
    /// How many strings the machine has.
    pub strings: u64,
    /// How many commands there were.
    pub serial: u64,
    /// The length of the slot, in bytes.
    pub end: u64,
}

fn probe_error(fault: ApplyFault) -> ProbeError {
    match fault {
        ApplyFault::DiskFault { count: _ } => ProbeError::Device,
        _ => ProbeError::Memory,
    }
}

fn load_error(why: LoadWhy) -> ProbeError {
    match why {
        LoadWhy::Memory => ProbeError::Memory,
        _ => ProbeError::Device,
    }
}

/// A string of this many bytes.
fn string_of(alloc: Global, length: u32) -> Result<Bytes, AllocError> {
    Ok(Bytes::of(vec![in alloc; 0x5a; length as usize]?))
}

/// Lets a machine take so many strings.
fn take_all(alloc: Global, count: u32, length: u32) -> Result<Counts, AllocError> {
    let mut pile = Pile::new();
    for _ in 0..count {
        let ready = pile.ready(alloc, string_of(alloc, length)?)?;
        pile.take(ready);
    }
    Ok(Counts {
        strings: pile.strings.as_slice().len() as u64,
        serial: 0,
        end: 0,
    })
}

/// Commits so many strings.
fn commit_all(
    alloc: Global,
    journal: &mut Journalled<Pile, MemDisk>,
    count: u32,
    length: u32,
) -> Result<(), ProbeError> {
    for _ in 0..count {
        let Ok(string) = string_of(alloc, length) else {
            return Err(ProbeError::Memory);
        };
        if let Err(fault) = journal.apply(alloc, string) {
            return Err(probe_error(fault));
        }
    }
    Ok(())
}

fn counts_of(journal: &Journalled<Pile, MemDisk>) -> Counts {
    Counts {
        strings: journal.state().strings.as_slice().len() as u64,
        serial: journal.serial(),
        end: journal.end(),
    }
}

fn fresh(alloc: Global) -> Result<Journalled<Pile, MemDisk>, ProbeError> {
    let made = Journalled::fresh(alloc, Pile::new(), MemDisk::new(alloc), MemDisk::new(alloc));
    match made {
        Ok(journal) => Ok(journal),
        Err(fault) => Err(load_error(fault.why)),
    }
}

fn reload(alloc: Global, disk_a: MemDisk, disk_b: MemDisk) -> Result<Counts, ProbeError> {
    match Journalled::load(alloc, Pile::new(), disk_a, disk_b) {
        Ok(journal) => Ok(counts_of(&journal)),
        Err(fault) => Err(load_error(fault.why)),
    }
}

/// Does so many commands of strings of this many bytes.
pub fn run(alloc: Global, work: Work, count: u32, length: u32) -> Result<Counts, ProbeError> {
    if work == Work::Take {
        return Ok(take_all(alloc, count, length)?);
    }
    let mut journal = fresh(alloc)?;
    commit_all(alloc, &mut journal, count, length)?;
    if work == Work::Commit {
        return Ok(counts_of(&journal));
    }
    let (disk_a, disk_b) = journal.into_disks();
    reload(alloc, disk_a, disk_b)
}
