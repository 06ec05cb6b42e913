// A journal is loaded from its disks.
ghost use Rattle.std.specs.Prelude.{◌≡◌, ◌<◌, ◌^◌, List, ℕ, length, false, IfOk, IfErr, IfSome, OnOk, if◌then◌else◌};
ghost use Rattle.frs_base.specs.Machines.{IsFresh};
ghost use Rattle.frs_disk.specs.Crashes.{IsStill, Leaves, Stands, synced, unchanged};
ghost use Rattle.frs_disk.specs.Moments.{Now, Stops, pushed, seen_now};
ghost use Rattle.frs_journal.specs.Damage.{DamagedIn, ReadDamaged, ReadLoads, ReadTakes, TakenDamaged};
ghost use Rattle.frs_disk.specs.Alarms.{Passes, PassesSome};
ghost use Rattle.frs_journal.specs.Faults.{Halts, HaltsEither, IsDeviceFault, IsLoadFault, IsSlotFault, IsUnread};
ghost use Rattle.frs_journal.specs.Gates.{OrSame};
ghost use Rattle.frs_journal.specs.Loads.{KeepsEither, Loads};
ghost use Rattle.frs_journal.specs.Opens.{SameList};
ghost use Rattle.frs_journal.specs.Reading.{IsValid};
ghost use Rattle.frs_journal.specs.Slots.{Yields, generation_of, slot_a, slot_b, takes_b};
ghost use Rattle.frs_journal.specs.State as state;
ghost use Rattle.frs_journal.specs.Unmade.{Opening};
ghost use Rattle.frs_journal.specs.declared.faults.Slot.TheVariants as slots_of;

use crate::choice::{Pick, choose};
use crate::faults::{LoadFault, LoadWhy, Slot};
use crate::fresh::begin;
use crate::journalled::Journalled;
use crate::opening::open_slot;
use crate::slot::settle;
use frs_base::Machine;
use frs_disk::FrsDisk;
use std::alloc::Global;

/// A slot of so many bytes or more is taken for want of memory.
const LONGEST: u64 = 1 << 60;

/// The bytes of two slots.
#[derive(Drop)]
struct Slots {
    a: Vec<u8>,
    b: Vec<u8>,
}

/// The bytes of a disk.
fn read_all<D: FrsDisk>(alloc: Global, disk: &mut D) -> Result<Vec<u8>, LoadWhy>
    ensures bytes { IfOk result (λ bytes. IfSome (D.states disk.old)
        (λ ss. bytes.items ≡ seen_now ss)) }
    ensures size { IfOk result (λ bytes. length bytes.items < 2 ^ 61) }
    ensures states { D.states disk.new ≡ D.states disk.old }
    ensures alarm { OnOk result (D.alarm disk.new ≡ D.alarm disk.old) }
    ensures why { IfErr result (λ e. IsDeviceFault e
        (D.alarm disk.old).faults (D.alarm disk.new).faults) }
    ensures halts { IfErr result (λ e. Halts e (D.alarm disk.old) (D.alarm disk.new)) }
{
    let Ok(length) = disk.length() else {
        return Err(LoadWhy::DiskFault {
            count: disk.faults(),
        });
    };
    if length >= LONGEST {
        return Err(LoadWhy::Memory);
    }
    let mut bytes = Vec::new(alloc);
    let Ok(()) = bytes.resize(length as usize, 0) else {
        return Err(LoadWhy::Memory);
    };
    let Ok(()) = disk.read(0, bytes.as_mut_slice()) else {
        return Err(LoadWhy::DiskFault {
            count: disk.faults(),
        });
    };
    Ok(bytes)
}

/// Makes sure that a crash leaves what a read gives, and reads both slots.
#[tactic(auto, using(crate::proofs::Trims::stops_same, crate::proofs::Trims::stops_around))]
fn read_both<D: FrsDisk>(alloc: Global, a: &mut D, b: &mut D) -> Result<Slots, LoadWhy>
    ensures stood_a { OnOk result (Now Stands (D.states a.old)) }
    ensures stood_b { OnOk result (Now Stands (D.states b.old)) }
    ensures inside_a { Stops unchanged (D.states a.old) (D.states a.new) }
    ensures inside_b { Stops unchanged (D.states b.old) (D.states b.new) }
    ensures settled_a { OnOk result (D.states a.new ≡ pushed synced (D.states a.old)) }
    ensures settled_b { OnOk result (D.states b.new ≡ pushed synced (D.states b.old)) }
    ensures bytes_a { IfOk result (λ s. IfSome (D.states a.new) (λ ss. s.a.items ≡ seen_now ss)) }
    ensures bytes_b { IfOk result (λ s. IfSome (D.states b.new) (λ ss. s.b.items ≡ seen_now ss)) }
    ensures size_a { IfOk result (λ s. length s.a.items < 2 ^ 61) }
    ensures size_b { IfOk result (λ s. length s.b.items < 2 ^ 61) }
    ensures passed_a { OnOk result (Passes 1 (D.alarm a.old) (D.alarm a.new)) }
    ensures passed_b { OnOk result (Passes 1 (D.alarm b.old) (D.alarm b.new)) }
    ensures why { IfErr result (λ e. IsUnread e
        (D.alarm a.old).faults (D.alarm a.new).faults
        (D.alarm b.old).faults (D.alarm b.new).faults) }
    ensures halts { IfErr result (λ e. HaltsEither e
        (D.alarm a.old) (D.alarm a.new) (D.alarm b.old) (D.alarm b.new)) }
{
    let Ok(()) = a.reserve(alloc, 1, 0) else {
        return Err(LoadWhy::Memory);
    };
    let Ok(()) = b.reserve(alloc, 1, 0) else {
        return Err(LoadWhy::Memory);
    };
    let Ok(()) = settle(a) else {
        return Err(LoadWhy::DiskFault { count: a.faults() });
    };
    let Ok(()) = settle(b) else {
        return Err(LoadWhy::DiskFault { count: b.faults() });
    };
    let first = match read_all(alloc, a) {
        Ok(bytes) => bytes,
        Err(why) => return Err(why),
    };
    match read_all(alloc, b) {
        Ok(second) => Ok(Slots {
            a: first,
            b: second,
        }),
        Err(why) => Err(why),
    }
}

/// The slot that is current.
fn slot_of(in_b: bool) -> Slot
    ensures { result ≡ (if in_b then slots_of.B else slots_of.A) }
{
    if in_b { Slot::B } else { Slot::A }
}

/// The disks in their order, with why they weren't opened.
fn fault_of<D: FrsDisk>(current: D, other: D, in_b: bool, why: LoadWhy) -> LoadFault<D>
    ensures current { slot_a in_b result.disk_a result.disk_b ≡ current }
    ensures other { slot_b in_b result.disk_a result.disk_b ≡ other }
    ensures why { result.why ≡ why }
{
    if in_b {
        LoadFault {
            disk_a: other,
            disk_b: current,
            why,
        }
    } else {
        LoadFault {
            disk_a: current,
            disk_b: other,
            why,
        }
    }
}

/// Opens the slot that is taken, which has these bytes.
fn open_current<M: Machine, D: FrsDisk>(
    alloc: Global,
    machine: M,
    current: D,
    other: D,
    in_b: bool,
    bytes: &[u8],
) -> Result<Journalled<M, D>, LoadFault<D>>
    requires fresh { IsFresh M.law (M.state machine) }
    requires valid { IsValid bytes.now }
    requires size { length bytes.now < 2 ^ 61 }
    requires still { Now IsStill (D.states current) }
    requires bytes { IfSome (D.states current) (λ ss. bytes.now ≡ seen_now ss) }
    requires yields { Now (Leaves (Yields in_b (generation_of bytes.now))) (D.states other) }
    ensures moved { IfOk result (λ j.
        OrSame (SameList bytes.now) (D.states current) (D.states j.current)
        × (j.other ≡ other) × (j.in_b ≡ in_b) × (j.shut ≡ false)) }
    ensures failed { IfErr result (λ f. OrSame (SameList bytes.now)
        (D.states current) (D.states (slot_a in_b f.disk_a f.disk_b))
        × (slot_b in_b f.disk_a f.disk_b ≡ other)) }
    ensures state { IfOk result (λ j. (others : List ℕ)
        → Yields in_b (generation_of bytes.now) others
        → Loads M.law (M.state j.machine) j.serial
        (slot_a in_b bytes.now others) (slot_b in_b bytes.now others)) }
    ensures damaged { IfErr result (λ f. TakenDamaged M.law
        (if in_b then slots_of.B else slots_of.A) bytes.now f.why) }
    ensures fault { IfErr result (λ f. IsSlotFault f.why
        (D.alarm current).faults (D.alarm (slot_a in_b f.disk_a f.disk_b)).faults) }
    ensures alarm { IfOk result (λ j. PassesSome (D.alarm current) (D.alarm j.current)) }
    ensures halts { IfErr result (λ f. Halts f.why
        (D.alarm current) (D.alarm (slot_a in_b f.disk_a f.disk_b))) }
    ensures origin { IfOk result (λ j.
        M.law.origin (M.state j.machine) ≡ M.law.origin (M.state machine)) }
{
    let mut current = current;
    match open_slot(alloc, machine, slot_of(in_b), &mut current, bytes) {
        Ok(opened) => Ok(Journalled::at_rest(
            opened.machine,
            current,
            other,
            in_b,
            opened.end,
            opened.serial,
        )),
        Err(why) => Err(fault_of(current, other, in_b, why)),
    }
}

/// Opens a journal whose disks are settled and have these bytes.
fn open_slots<M: Machine, D: FrsDisk>(
    alloc: Global,
    machine: M,
    disk_a: D,
    disk_b: D,
    slots: &Slots,
) -> Result<Journalled<M, D>, LoadFault<D>>
    requires fresh { IsFresh M.law (M.state machine) }
    requires still_a { Now IsStill (D.states disk_a) }
    requires still_b { Now IsStill (D.states disk_b) }
    requires bytes_a { IfSome (D.states disk_a) (λ ss. slots.now.a.items ≡ seen_now ss) }
    requires bytes_b { IfSome (D.states disk_b) (λ ss. slots.now.b.items ≡ seen_now ss) }
    requires size_a { length slots.now.a.items < 2 ^ 61 }
    requires size_b { length slots.now.b.items < 2 ^ 61 }
    ensures opened { IfOk result (λ j. Opening slots.now.a.items slots.now.b.items
        (D.states disk_a) (D.states (state.disk_a j))
        (D.states disk_b) (D.states (state.disk_b j))) }
    ensures failed { IfErr result (λ f. Opening slots.now.a.items slots.now.b.items
        (D.states disk_a) (D.states f.disk_a) (D.states disk_b) (D.states f.disk_b)) }
    ensures state { IfOk result (λ j. Loads M.law (M.state j.machine) j.serial
        slots.now.a.items slots.now.b.items) }
    ensures taken { IfOk result (λ j. j.in_b
        ≡ takes_b (generation_of slots.now.a.items) (generation_of slots.now.b.items)) }
    ensures damaged { IfErr result (λ f. DamagedIn M.law
        slots.now.a.items slots.now.b.items f.why) }
    ensures fault { IfErr result (λ f. IsLoadFault f.why
        (D.alarm disk_a).faults (D.alarm f.disk_a).faults
        (D.alarm disk_b).faults (D.alarm f.disk_b).faults) }
    ensures alarm { IfOk result (λ j. PassesSome (D.alarm disk_a) (D.alarm (state.disk_a j))
        × PassesSome (D.alarm disk_b) (D.alarm (state.disk_b j))) }
    ensures halts { IfErr result (λ f. HaltsEither f.why
        (D.alarm disk_a) (D.alarm f.disk_a) (D.alarm disk_b) (D.alarm f.disk_b)) }
    ensures open { IfOk result (λ j. j.shut ≡ false) }
    ensures origin { IfOk result (λ j.
        M.law.origin (M.state j.machine) ≡ M.law.origin (M.state machine)) }
{
    let a = slots.a.as_slice();
    let b = slots.b.as_slice();
    match choose(a, b) {
        Pick::Bad(slot) => Err(LoadFault {
            disk_a,
            disk_b,
            why: LoadWhy::Damaged { slot, offset: 1 },
        }),
        Pick::Neither => begin(alloc, machine, disk_a, disk_b),
        Pick::Taken(Slot::A) => open_current(alloc, machine, disk_a, disk_b, false, a),
        Pick::Taken(Slot::B) => open_current(alloc, machine, disk_b, disk_a, true, b),
    }
}

impl<M: Machine, D: FrsDisk> Journalled<M, D> {
    /// Loads a fresh machine with the commands of the slot that is taken, or makes the fresh slot
    /// in slot a where neither is valid. At each moment of the call two slots load to the state to
    /// which they did before.
    pub fn load(
        alloc: Global,
        machine: M,
        disk_a: D,
        disk_b: D,
    ) -> Result<Journalled<M, D>, LoadFault<D>>
        requires fresh { IsFresh M.law (M.state machine) }
        ensures state { IfOk result (λ j. ReadLoads
            M.law (M.state j.machine) j.serial (D.states disk_a) (D.states disk_b)) }
        ensures taken { IfOk result (λ j. ReadTakes
            j.in_b (D.states disk_a) (D.states disk_b)) }
        ensures damaged { IfErr result (λ f. ReadDamaged
            M.law f.why (D.states disk_a) (D.states disk_b)) }
        ensures fault { IfErr result (λ f. IsLoadFault f.why
            (D.alarm disk_a).faults (D.alarm f.disk_a).faults
            (D.alarm disk_b).faults (D.alarm f.disk_b).faults) }
        ensures crash { IfOk result (λ j. KeepsEither M.law
            (D.states disk_a) (D.states (state.disk_a j))
            (D.states disk_b) (D.states (state.disk_b j))) }
        ensures failed { IfErr result (λ f. KeepsEither M.law
            (D.states disk_a) (D.states f.disk_a) (D.states disk_b) (D.states f.disk_b)) }
        ensures alarm { IfOk result (λ j.
            PassesSome (D.alarm disk_a) (D.alarm (state.disk_a j))
            × PassesSome (D.alarm disk_b) (D.alarm (state.disk_b j))) }
        ensures halts { IfErr result (λ f. HaltsEither f.why
            (D.alarm disk_a) (D.alarm f.disk_a) (D.alarm disk_b) (D.alarm f.disk_b)) }
        ensures open { IfOk result (λ j. j.shut ≡ false) }
        ensures origin { IfOk result (λ j. M.law.origin (M.state j.machine) ≡ M.state machine) }
    {
        let mut disk_a = disk_a;
        let mut disk_b = disk_b;
        match read_both(alloc, &mut disk_a, &mut disk_b) {
            Ok(slots) => open_slots(alloc, machine, disk_a, disk_b, &slots),
            Err(why) => Err(LoadFault {
                disk_a,
                disk_b,
                why,
            }),
        }
    }
}
