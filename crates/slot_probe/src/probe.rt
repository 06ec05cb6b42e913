// What a load finds of two slots.
ghost use Rattle.std.specs.Prelude.{◌≡◌, IfOk};
ghost use Rattle.sha1.specs.Sha1.{sha1};
ghost use Rattle.frs_disk.specs.Crashes.{still};
ghost use Rattle.frs_disk.specs.Moments.{top};
ghost use Rattle.slot_probe.specs.Found.{IsFound, IsStateOf, spelled};
ghost use Rattle.slot_probe.specs.declared.probe.ProbeError.TheVariants as errors;

use crate::pile::Pile;
use frs_base::{Bytes, Sum};
use frs_disk::{Failed, FrsDisk, MemDisk, write_synced};
use frs_journal::{Journalled, LoadWhy, Slot};
use sha1::Sha1;
use std::alloc::{AllocError, Global};

/// What a load finds of two slots.
#[derive(Clone, Copy, Debug, PartialEq, Eq)]
pub enum Found {
    /// So many strings after so many commands, and the SHA-1 sum of all strings, each behind its
    /// length in eight bytes.
    State { count: u64, serial: u64, sum: Sum },
    /// A slot is wrong from this place on.
    Damaged { slot: Slot, offset: u64 },
}

/// Why nothing was found.
#[derive(Clone, Copy, Debug, PartialEq, Eq)]
pub enum ProbeError {
    Memory,
    /// A disk failed.
    Device,
}

impl From<AllocError> for ProbeError {
    ghost from_gives = { λ _ error. error ≡ errors.Memory };

    fn from(_error: AllocError) -> ProbeError {
        ProbeError::Memory
    }
}

impl From<Failed> for ProbeError {
    ghost from_gives = { λ _ error. error ≡ errors.Device };

    fn from(_error: Failed) -> ProbeError {
        ProbeError::Device
    }
}

/// A disk with these bytes, all of them synced.
fn disk_of(alloc: Global, bytes: &[u8]) -> Result<MemDisk, ProbeError>
    ensures { IfOk result (λ disk. top disk.states ≡ still bytes.now) }
{
    let mut disk = MemDisk::new(alloc);
    disk.reserve(alloc, 2, bytes.len() as u64)?;
    write_synced(&mut disk, 0, bytes)?;
    Ok(disk)
}

/// The sum of these strings.
fn sum_of(strings: &[Bytes]) -> Sum
    ensures { result.0 ≡ sha1 (spelled strings.now) }
{
    let mut hasher = Sha1::new();
    for string in strings {
        let bytes = string.as_slice();
        hasher.update(&(bytes.len() as u64).to_le_bytes());
        hasher.update(bytes);
    }
    Sum(hasher.finalize())
}

/// What is found in a journal that was loaded.
fn state_of(journal: &Journalled<Pile, MemDisk>) -> Found
    ensures { IsStateOf journal.now.machine.strings.items journal.now.serial result }
{
    let strings = journal.state().strings.as_slice();
    Found::State {
        count: strings.len() as u64,
        serial: journal.serial(),
        sum: sum_of(strings),
    }
}

/// What a load finds of two slots with these bytes.
pub fn probe(alloc: Global, a: &[u8], b: &[u8]) -> Result<Found, ProbeError>
    ensures { IfOk result (λ found. IsFound a.now b.now found) }
{
    let disk_a = disk_of(alloc, a)?;
    let disk_b = disk_of(alloc, b)?;
    match Journalled::load(alloc, Pile::new(), disk_a, disk_b) {
        Ok(journal) => Ok(state_of(&journal)),
        Err(fault) => match fault.why {
            LoadWhy::Memory => Err(ProbeError::Memory),
            LoadWhy::DiskFault { count: _ } => Err(ProbeError::Device),
            LoadWhy::Damaged { slot, offset } => Ok(Found::Damaged { slot, offset }),
        },
    }
}
