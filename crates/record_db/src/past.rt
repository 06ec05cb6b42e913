// What a vector has of a database past a version.
ghost use Rattle.std.specs.Prelude.{◌≡◌, find, option_copied};
ghost use Rattle.record_db.specs.Steps.{is_past};

use frs_base::Guid;
use version_vector::Interval;

/// The first interval of a database that reaches past a version.
pub fn first_past(intervals: &[Interval], db: Guid, version: u64) -> Option<&Interval>
    ensures { option_copied result ≡ find (λ i. is_past db version i) intervals.now }
{
    intervals
        .iter()
        .find(|interval| interval.db == db && version < interval.high)
}
