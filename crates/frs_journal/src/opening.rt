// The current slot of a journal is opened.
ghost use Rattle.std.specs.Prelude.{◌≡◌, ◌≤◌, ◌<◌, ◌^◌, length, IfOk, IfErr, IfSome, OnOk};
ghost use Rattle.frs_base.specs.Machines.{Runs};
ghost use Rattle.frs_disk.specs.Alarms.{Passes};
ghost use Rattle.frs_disk.specs.Crashes.{IsStill};
ghost use Rattle.frs_disk.specs.Moments.{Now, seen_now};
ghost use Rattle.frs_journal.specs.Faults.{Halts};
ghost use Rattle.frs_journal.specs.Gates.{OrSame};
ghost use Rattle.frs_journal.specs.Opens.{OpenFault, Opens, SameList};
ghost use Rattle.frs_journal.specs.Reading.{IsValid};
ghost use Rattle.frs_journal.specs.Slots.{serial_at};

use crate::faults::{LoadWhy, Slot};
use crate::reading::{Parsed, read_slot};
use crate::slot::trim;
use frs_base::Machine;
use frs_disk::FrsDisk;
use std::alloc::{AllocError, Global};

/// A machine that was read from a slot.
#[derive(Drop)]
pub(crate) struct Opened<M> {
    pub machine: M,
    /// The length of the slot, in bytes.
    pub end: u64,
    /// How many commands there were, modulo 2^64.
    pub serial: u64,
}

/// The machine after these commands.
fn run_all<M: Machine>(alloc: Global, machine: M, commands: Vec<M::Cmd>) -> Result<M, AllocError>
    ensures { IfOk result (λ m. Runs M.law.step (M.state machine) commands.items (M.state m)) }
{
    let mut machine = machine;
    for command in commands {
        let ready = machine.ready(alloc, command)?;
        machine.take(ready);
    }
    Ok(machine)
}

/// The serial in a header.
#[tactic(auto, unfolding(crate::specs::Slots::serial_at))]
fn first_serial(bytes: &[u8]) -> u64
    requires { 25 ≤ length bytes.now }
    ensures { result ≡ serial_at bytes.now }
{
    u64::from_le_bytes([
        bytes[17], bytes[18], bytes[19], bytes[20], bytes[21], bytes[22], bytes[23], bytes[24],
    ])
}

/// Opens the slot of these bytes, and cuts it behind its first gate that isn't 1.
pub(crate) fn open_slot<M: Machine, D: FrsDisk>(
    alloc: Global,
    machine: M,
    slot: Slot,
    disk: &mut D,
    bytes: &[u8],
) -> Result<Opened<M>, LoadWhy>
    requires valid { IsValid bytes.now }
    requires size { length bytes.now < 2 ^ 61 }
    requires still { Now IsStill (D.states disk.old) }
    requires bytes { IfSome (D.states disk.old) (λ ss. bytes.now ≡ seen_now ss) }
    ensures inside { OrSame (SameList bytes.now) (D.states disk.old) (D.states disk.new) }
    ensures done { IfOk result (λ o. Opens M.law (M.state machine) bytes.now
        (M.state o.machine) o.end o.serial (D.states disk.new)) }
    ensures origin { IfOk result (λ o.
        M.law.origin (M.state o.machine) ≡ M.law.origin (M.state machine)) }
    ensures low { IfOk result (λ o. 26 ≤ o.end) }
    ensures high { IfOk result (λ o. o.end ≤ 2 ^ 61) }
    ensures fault { IfErr result (λ e. OpenFault M.law slot bytes.now e
        (D.alarm disk.old).faults (D.alarm disk.new).faults) }
    ensures alarm { OnOk result (Passes 2 (D.alarm disk.old) (D.alarm disk.new)) }
    ensures halts { IfErr result (λ e. Halts e (D.alarm disk.old) (D.alarm disk.new)) }
{
    let parsed = match read_slot::<M>(alloc, bytes) {
        Ok(parsed) => parsed,
        Err(_) => return Err(LoadWhy::Memory),
    };
    let (commands, saved, end) = match parsed {
        Parsed::Whole {
            commands,
            saved,
            end,
        } => (commands, saved, end as u64),
        Parsed::Broken { offset } => {
            return Err(LoadWhy::Damaged {
                slot,
                offset: offset as u64,
            });
        }
    };
    let serial = first_serial(bytes).wrapping_add(commands.len() as u64 - saved);
    let Ok(()) = disk.reserve(alloc, 2, 0) else {
        return Err(LoadWhy::Memory);
    };
    let Ok(machine) = run_all(alloc, machine, commands) else {
        return Err(LoadWhy::Memory);
    };
    let Ok(()) = trim(disk, end) else {
        return Err(LoadWhy::DiskFault {
            count: disk.faults(),
        });
    };
    Ok(Opened {
        machine,
        end,
        serial,
    })
}
