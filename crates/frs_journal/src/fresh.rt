// A journal of a fresh machine.
ghost use Rattle.std.specs.Prelude.{◌≡◌, [], ◌∷◌, false, IfOk, IfErr};
ghost use Rattle.frs_base.specs.Machines.{IsFresh};
ghost use Rattle.frs_disk.specs.Alarms.{Passes};
ghost use Rattle.frs_disk.specs.Crashes.{IsStill, Leaves};
ghost use Rattle.frs_disk.specs.Moments.{Now};
ghost use Rattle.frs_journal.specs.Faults.{Halts, IsDeviceFault};
ghost use Rattle.frs_journal.specs.Gates.{Has, OrSame};
ghost use Rattle.frs_journal.specs.Loads.{AnyMoment, Loads};
ghost use Rattle.frs_journal.specs.State as state;
ghost use Rattle.frs_journal.specs.Unmade.{IsBegun, IsNone, fresh_body};

use crate::faults::{LoadFault, LoadWhy};
use crate::journalled::Journalled;
use crate::slot::renew;
use frs_base::Machine;
use frs_disk::FrsDisk;
use std::alloc::Global;

/// The fresh slot behind the gate of its header: the magic, the generation 1, the serial 0 and a
/// closed gate.
const FRESH: [u8; 25] = [
    0x46, 0x52, 0x53, 0x4a, 0x52, 0x4e, 0x30, 0x31, 1, 0, 0, 0, 0, 0, 0, 0, 0, 0, 0, 0, 0, 0, 0, 0,
    0,
];

impl<M: Machine, D: FrsDisk> Journalled<M, D> {
    /// Makes the fresh slot in slot a of empty disks, in exactly eight calls of that disk. It reads
    /// nothing. A crash at any moment of the call leaves the fresh machine.
    pub fn fresh(
        alloc: Global,
        machine: M,
        disk_a: D,
        disk_b: D,
    ) -> Result<Journalled<M, D>, LoadFault<D>>
        requires fresh { IsFresh M.law (M.state machine) }
        requires empty_a { Has [] (D.states disk_a) }
        requires empty_b { Has [] (D.states disk_b) }
        ensures made { IfOk result (λ j. (j.machine ≡ machine) × (j.end ≡ 26)
            × (j.serial ≡ 0) × (j.shut ≡ false)) }
        ensures slots { IfOk result (λ j. (j.in_b ≡ false) × (j.other ≡ disk_b)
            × Has (1 ∷ fresh_body) (D.states j.current)) }
        ensures crash { IfOk result (λ j. AnyMoment (Loads M.law (M.state machine) 0)
            (D.states disk_a) (D.states (state.disk_a j))
            (D.states disk_b) (D.states (state.disk_b j))) }
        ensures failed { IfErr result (λ f. AnyMoment (Loads M.law (M.state machine) 0)
            (D.states disk_a) (D.states f.disk_a) (D.states disk_b) (D.states f.disk_b)) }
        ensures fault { IfErr result (λ f. IsDeviceFault f.why
            (D.alarm disk_a).faults (D.alarm f.disk_a).faults) }
        ensures alarm { IfOk result (λ j. Passes 8 (D.alarm disk_a) (D.alarm j.current)) }
        ensures halts { IfErr result (λ f. Halts f.why (D.alarm disk_a) (D.alarm f.disk_a)
            × (f.disk_b ≡ disk_b)) }
    {
        begin(alloc, machine, disk_a, disk_b)
    }
}

/// Makes the fresh slot in slot a, where neither slot is valid.
pub(crate) fn begin<M: Machine, D: FrsDisk>(
    alloc: Global,
    machine: M,
    disk_a: D,
    disk_b: D,
) -> Result<Journalled<M, D>, LoadFault<D>>
    requires fresh { IsFresh M.law (M.state machine) }
    requires still { Now IsStill (D.states disk_a) }
    requires none_a { Now (λ s. IsNone s.seen) (D.states disk_a) }
    requires none_b { Now (Leaves IsNone) (D.states disk_b) }
    ensures made { IfOk result (λ j. (j.machine ≡ machine) × (j.end ≡ 26)
        × (j.serial ≡ 0) × (j.shut ≡ false)) }
    ensures moved { IfOk result (λ j. OrSame IsBegun (D.states disk_a) (D.states j.current)
        × (j.other ≡ disk_b) × (j.in_b ≡ false)) }
    ensures slots { IfOk result (λ j. (j.in_b ≡ false) × (j.other ≡ disk_b)
        × Has (1 ∷ fresh_body) (D.states j.current)) }
    ensures failed { IfErr result (λ f. OrSame IsBegun (D.states disk_a) (D.states f.disk_a)
        × (f.disk_b ≡ disk_b)) }
    ensures fault { IfErr result (λ f. IsDeviceFault f.why
        (D.alarm disk_a).faults (D.alarm f.disk_a).faults) }
    ensures alarm { IfOk result (λ j. Passes 8 (D.alarm disk_a) (D.alarm j.current)) }
    ensures halts { IfErr result (λ f. Halts f.why (D.alarm disk_a) (D.alarm f.disk_a)
        × (f.disk_b ≡ disk_b)) }
{
    let mut disk_a = disk_a;
    let Ok(()) = disk_a.reserve(alloc, 8, 27) else {
        return Err(LoadFault {
            disk_a,
            disk_b,
            why: LoadWhy::Memory,
        });
    };
    let Ok(()) = renew(&mut disk_a, &FRESH) else {
        let count = disk_a.faults();
        return Err(LoadFault {
            disk_a,
            disk_b,
            why: LoadWhy::DiskFault { count },
        });
    };
    Ok(Journalled::at_rest(machine, disk_a, disk_b, false, 26, 0))
}
