// What is done to the disk of a slot. Each function makes four calls of the device at most, and
// the journal is proved from what these say alone.
ghost use Rattle.std.specs.Prelude.{◌≡◌, ◌≤◌, ◌<◌, ◌+◌, ◌^◌, [], ◌∷◌, length, OnErr, OnOk, IfSome};
ghost use Rattle.frs_disk.specs.Alarms.{Ticks, TicksUpTo};
ghost use Rattle.frs_disk.specs.Crashes.{IsStill, Stands, synced, unchanged};
ghost use Rattle.frs_disk.specs.Moments.{Now, Stops, pushed, seen_now};
ghost use Rattle.frs_journal.specs.Gates.{Appended, Appending, Clearing, FailsEarly, FoundAsArmed, Has, HasCut, IsAtRest, Renewing, Trimming};

use frs_disk::{Failed, FrsDisk, cut_synced, write_synced};

/// Puts a record behind the last gate of a slot, and then opens the gate: body write, sync, gate
/// write, sync.
pub fn append_record<D: FrsDisk>(disk: &mut D, gate: u64, body: &[u8]) -> Result<(), Failed>
    requires slot { Now (IsAtRest gate) (D.states disk.old) }
    requires calls { 3 < D.spare_calls disk.old }
    requires bytes { length body.now + 1 ≤ D.spare_bytes disk.old }
    requires place { gate < 2 ^ 63 }
    ensures inside { Appending gate body.now (D.states disk.old) (D.states disk.new) }
    ensures done { OnOk result (Appended gate body.now (D.states disk.old) (D.states disk.new)) }
    ensures alarm { TicksUpTo 4 result (D.alarm disk.old) (D.alarm disk.new) }
    ensures early { OnErr result (FailsEarly gate
        (D.alarm disk.old) (D.alarm disk.new) (D.states disk.old) (D.states disk.new)) }
    ensures word { OnErr result (FoundAsArmed gate body.now
        (D.alarm disk.old) (D.states disk.old) (D.states disk.new)) }
{
    let Ok(()) = write_synced(disk, gate + 1, body) else {
        return Err(Failed);
    };
    write_synced(disk, gate, &[1])
}

/// Empties a slot, and closes the gate of its header: cut, sync, gate write, sync.
pub fn clear<D: FrsDisk>(disk: &mut D) -> Result<(), Failed>
    requires still { Now IsStill (D.states disk.old) }
    requires calls { 3 < D.spare_calls disk.old }
    requires bytes { 0 < D.spare_bytes disk.old }
    ensures inside { Clearing (D.states disk.old) (D.states disk.new) }
    ensures done { OnOk result (Has (0 ∷ []) (D.states disk.new)) }
    ensures alarm { TicksUpTo 4 result (D.alarm disk.old) (D.alarm disk.new) }
    ensures calls { D.spare_calls disk.old ≤ D.spare_calls disk.new + 4 }
    ensures bytes { D.spare_bytes disk.old ≤ D.spare_bytes disk.new + 1 }
{
    let Ok(()) = cut_synced(disk, 0) else {
        return Err(Failed);
    };
    write_synced(disk, 0, &[0])
}

/// Puts these bytes behind the gate of the header of a slot that `clear` left, and then opens that
/// gate: write, sync, gate write, sync.
pub fn fill<D: FrsDisk>(disk: &mut D, body: &[u8]) -> Result<(), Failed>
    requires slot { Has (0 ∷ []) (D.states disk.old) }
    requires calls { 3 < D.spare_calls disk.old }
    requires bytes { length body.now + 1 ≤ D.spare_bytes disk.old }
    ensures inside { Appending 0 body.now (D.states disk.old) (D.states disk.new) }
    ensures done { OnOk result (Appended 0 body.now (D.states disk.old) (D.states disk.new)) }
    ensures alarm { TicksUpTo 4 result (D.alarm disk.old) (D.alarm disk.new) }
{
    append_record(disk, 0, body)
}

/// Puts a new slot in the place of what was there: these bytes behind the gate of the header.
pub fn renew<D: FrsDisk>(disk: &mut D, body: &[u8]) -> Result<(), Failed>
    requires still { Now IsStill (D.states disk.old) }
    requires calls { 7 < D.spare_calls disk.old }
    requires bytes { length body.now + 2 ≤ D.spare_bytes disk.old }
    ensures inside { Renewing body.now (D.states disk.old) (D.states disk.new) }
    ensures done { OnOk result (Has (1 ∷ body.now) (D.states disk.new)) }
    ensures alarm { TicksUpTo 8 result (D.alarm disk.old) (D.alarm disk.new) }
{
    let Ok(()) = clear(disk) else {
        return Err(Failed);
    };
    fill(disk, body)
}

/// Cuts a slot behind its first gate that isn't 1: cut, sync.
pub fn trim<D: FrsDisk>(disk: &mut D, end: u64) -> Result<(), Failed>
    requires still { Now IsStill (D.states disk.old) }
    requires within { IfSome (D.states disk.old) (λ ss. end ≤ length (seen_now ss)) }
    requires calls { 1 < D.spare_calls disk.old }
    ensures inside { Trimming end (D.states disk.old) (D.states disk.new) }
    ensures done { OnOk result (HasCut end (D.states disk.old) (D.states disk.new)) }
    ensures alarm { TicksUpTo 2 result (D.alarm disk.old) (D.alarm disk.new) }
{
    cut_synced(disk, end)
}

/// Makes sure that a crash leaves what a read gives, as it may not after a call that failed: sync.
pub fn settle<D: FrsDisk>(disk: &mut D) -> Result<(), Failed>
    requires calls { 0 < D.spare_calls disk.old }
    ensures stood { Now Stands (D.states disk.old) }
    ensures inside { Stops unchanged (D.states disk.old) (D.states disk.new) }
    ensures done { OnOk result (D.states disk.new ≡ pushed synced (D.states disk.old)) }
    ensures alarm { Ticks result (D.alarm disk.old) (D.alarm disk.new) }
{
    disk.sync()
}
