// Calls that are followed by a sync.
ghost use Rattle.std.specs.Prelude.{◌≡◌, ◌≤◌, ◌<◌, ◌+◌, ◌∷◌, [], length, IfSome, OnOk};
ghost use Rattle.frs_disk.specs.Alarms.{CallsLeaveWord, TicksUpTo, changes, syncs};
ghost use Rattle.frs_disk.specs.Crashes.{wrote, cut_to, synced};
ghost use Rattle.frs_disk.specs.Moments.{Now, Stops, pushed, seen_now};
ghost use Rattle.frs_disk.specs.Starts.{touched};

use crate::disk::{Failed, FrsDisk};

/// Writes bytes from a place on, and makes sure of them. It makes two calls of the device.
pub fn write_synced<D: FrsDisk>(disk: &mut D, at: u64, bytes: &[u8]) -> Result<(), Failed>
    requires within { IfSome (D.states disk.old) (λ ss. at ≤ length (seen_now ss)) }
    requires calls { 1 < D.spare_calls disk.old }
    requires bytes { length bytes.now ≤ D.spare_bytes disk.old }
    ensures done { OnOk result
        (D.states disk.new ≡ pushed synced (pushed (wrote at bytes.now) (D.states disk.old))) }
    ensures inside { Stops (wrote at bytes.now) (D.states disk.old) (D.states disk.new) }
    ensures word { CallsLeaveWord result (changes (wrote at bytes.now) ∷ syncs ∷ [])
        (D.alarm disk.old) (D.alarm disk.new) (D.states disk.old) (D.states disk.new) }
    ensures alarm { TicksUpTo 2 result (D.alarm disk.old) (D.alarm disk.new) }
    ensures start { D.start disk.new ≡ touched (D.start disk.old) }
    ensures calls { D.spare_calls disk.old ≤ D.spare_calls disk.new + 2 }
    ensures bytes { D.spare_bytes disk.old ≤ D.spare_bytes disk.new + length bytes.now }
{
    let Ok(()) = disk.write_at(at, bytes) else {
        return Err(Failed);
    };
    disk.sync()
}

/// Cuts to this length, and makes sure of it. It makes two calls of the device.
pub fn cut_synced<D: FrsDisk>(disk: &mut D, end: u64) -> Result<(), Failed>
    requires within { IfSome (D.states disk.old) (λ ss. end ≤ length (seen_now ss)) }
    requires calls { 1 < D.spare_calls disk.old }
    ensures done { OnOk result
        (D.states disk.new ≡ pushed synced (pushed (cut_to end) (D.states disk.old))) }
    ensures inside { Stops (cut_to end) (D.states disk.old) (D.states disk.new) }
    ensures word { CallsLeaveWord result (changes (cut_to end) ∷ syncs ∷ [])
        (D.alarm disk.old) (D.alarm disk.new) (D.states disk.old) (D.states disk.new) }
    ensures alarm { TicksUpTo 2 result (D.alarm disk.old) (D.alarm disk.new) }
    ensures start { D.start disk.new ≡ touched (D.start disk.old) }
    ensures calls { D.spare_calls disk.old ≤ D.spare_calls disk.new + 2 }
    ensures bytes { D.spare_bytes disk.old ≤ D.spare_bytes disk.new }
{
    let Ok(()) = disk.cut(end) else {
        return Err(Failed);
    };
    disk.sync()
}
