// Intervals of versions.
use ndr_core::{NdrError, Reader, Wire, Writer};
use std::alloc::{AllocError, Global};
use version_vector::Interval;

/// The item of an interval.
pub(crate) struct IntervalItem;

impl Wire for IntervalItem {
    type Value = Interval;

    ghost use Rattle.std.specs.Prelude.{true};
    ghost use Rattle.ndr_frs.specs.Shared.{interval_item};

    ghost reads = { interval_item.reads };

    ghost appends = { interval_item.appends };

    ghost fits = { λ i. true };

    fn take(_alloc: Global, r: &mut Reader) -> Result<Interval, NdrError> {
        r.align(8)?;
        let db = r.take_guid()?;
        let low = r.take_u64()?;
        let high = r.take_u64()?;
        Ok(Interval { db, low, high })
    }

    fn put(interval: &Interval, out: &mut Writer) -> Result<(), AllocError> {
        out.align(8)?;
        out.put_guid(interval.db)?;
        out.put_u64(interval.low)?;
        out.put_u64(interval.high)
    }
}
