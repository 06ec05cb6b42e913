// The records whose versions are asked for.
ghost use Rattle.std.specs.Prelude.{◌<◌, ◌-◌, ◌^◌, IfSome, OnOk, option_copied};
ghost use Rattle.pinned_pages.specs.Pages.{IsFirstWithin, IsLonger};

use frs_base::Gvsn;
use record_db::Records;
use std::alloc::AllocError;
use version_vector::Interval;
use win_order::Update;

/// The record with the lowest version in an interval, which has a version after it.
fn first_within<'a>(records: &'a Records, interval: &Interval) -> Option<&'a Update>
    ensures first { IsFirstWithin interval.now records.now (option_copied result) }
    ensures next { IfSome result (λ u. u.now.gvsn.version < 2 ^ 64 - 1) }
{
    let first = records.first_from(Gvsn {
        db: interval.db,
        version: interval.low,
    });
    match first {
        None => None,
        Some(update) => {
            if update.gvsn.db == interval.db && update.gvsn.version < interval.high {
                Some(update)
            } else {
                None
            }
        }
    }
}

/// Adds the records whose versions are in an interval to a page, in order of their versions.
pub(crate) fn add_interval(
    page: &mut Vec<Update>,
    records: &Records,
    interval: &Interval,
) -> Result<(), AllocError>
    ensures { OnOk result (IsLonger interval.now records.now page.old.items page.new.items) }
{
    let mut rest = *interval;
    while let Some(update) = first_within(records, &rest) {
        rest.low = update.gvsn.version + 1;
        page.push(update.copy()?)?;
    }
    Ok(())
}
