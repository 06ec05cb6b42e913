// The local journal record that is to be consumed first.
ghost use Rattle.std.specs.Prelude.{◌≡◌, MatchOption};
ghost use Rattle.frs_base.specs.Options.{some_is};
ghost use Rattle.vol_state.specs.Journal.{IsNumbered, record_at};
ghost use Rattle.vol_state.specs.Maps.{maps_of};
ghost use Rattle.name_rules.specs.Next.{IsFirstPending, IsQuiet};

use vol_state::Volume;

/// Whether there is a journal record with this USN, and it is a local one.
fn is_local(volume: &Volume, usn: u64) -> bool
    ensures { result ≡ some_is (λ r. r.local) (record_at volume.now.state.journal usn) }
{
    match volume.record_at(usn) {
        None => false,
        Some(record) => record.local,
    }
}

/// The USN of the first local journal record at or past this one.
pub(crate) fn first_pending(volume: &Volume, from: u64) -> Option<u64>
    requires { IsNumbered volume.now.state }
    ensures { MatchOption result (IsQuiet from (maps_of volume.now.state)) (λ usn. IsFirstPending from (maps_of volume.now.state) usn) }
{
    for usn in from..volume.next_usn() {
        if is_local(volume, usn) {
            return Some(usn);
        }
    }
    None
}
