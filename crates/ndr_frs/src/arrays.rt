// Arrays with their counts.
ghost use Rattle.std.specs.Prelude.{◌≡◌, ◌≤◌, OnOk, length};
ghost use Rattle.ndr_core.specs.Calls.{Reads, ReadsOrMemory};
ghost use Rattle.ndr_core.specs.Arrays.{conformant};
ghost use Rattle.ndr_core.specs.Items.{fixed};
ghost use Rattle.ndr_frs.specs.Shared.{bytes_item, intervals_item, updates_item};

use crate::interval::IntervalItem;
use crate::update::UpdateItem;
use frs_base::{Bytes, List};
use ndr_core::{NdrBad, NdrError, Reader, Writer, put_many, take_many};
use std::alloc::{AllocError, Global};
use version_vector::Interval;
use win_order::Update;

/// The most updates of a page.
const PAGE: u32 = 256;

/// The most bytes of a file in one reply.
const CHUNK: u32 = 32_768;

/// The count of an array that was told before. Another is refused where it begins.
pub(crate) fn take_said(r: &mut Reader, limit: u32, said: u32) -> Result<(), NdrBad>
    ensures { Reads (λ x. tt) (fixed 4 said (conformant limit)) result r.old r.new }
{
    let at = r.place_of(4);
    if r.take_conformant(limit)? != said {
        return Err(NdrBad::Value { at });
    }
    Ok(())
}

/// Intervals behind their count.
pub(crate) fn take_intervals(
    alloc: Global,
    r: &mut Reader,
    limit: u32,
) -> Result<List<Interval>, NdrError>
    ensures { ReadsOrMemory (λ x. x) (intervals_item limit) result r.old r.new }
{
    let count = r.take_conformant(limit)?;
    Ok(List::of(take_many::<IntervalItem>(alloc, r, count)?))
}

/// Writes intervals behind their count.
pub(crate) fn put_intervals(out: &mut Writer, intervals: &[Interval]) -> Result<(), AllocError>
    requires { length intervals.now ≤ 131072 }
    ensures { OnOk result (out.new ≡ (intervals_item 0).appends out.old intervals.now) }
{
    out.put_conformant(intervals.len() as u32)?;
    put_many::<IntervalItem>(out, intervals)
}

/// A page: its maximum, and the updates.
pub(crate) fn take_updates(alloc: Global, r: &mut Reader) -> Result<(u32, List<Update>), NdrError>
    ensures { ReadsOrMemory (λ x. x) updates_item result r.old r.new }
{
    let maximum = r.take_conformant(PAGE)?;
    let count = r.take_varying(maximum)?;
    let updates = List::of(take_many::<UpdateItem>(alloc, r, count)?);
    Ok((maximum, updates))
}

/// Writes a page.
pub(crate) fn put_updates(
    out: &mut Writer,
    maximum: u32,
    updates: &[Update],
) -> Result<(), AllocError>
    requires { length updates.now ≤ 256 }
    ensures { OnOk result (out.new ≡ updates_item.appends out.old (maximum, updates.now)) }
{
    out.put_conformant(maximum)?;
    out.put_varying(updates.len() as u32)?;
    put_many::<UpdateItem>(out, updates)
}

/// Bytes of a file: their maximum, and the bytes.
pub(crate) fn take_bytes(alloc: Global, r: &mut Reader) -> Result<(u32, Bytes), NdrError>
    ensures { ReadsOrMemory (λ x. x) bytes_item result r.old r.new }
{
    let maximum = r.take_conformant(CHUNK)?;
    let count = r.take_varying(maximum)?;
    let bytes = Bytes::of(r.take_bytes(alloc, count)?);
    Ok((maximum, bytes))
}

/// Writes bytes of a file.
pub(crate) fn put_bytes(out: &mut Writer, maximum: u32, bytes: &[u8]) -> Result<(), AllocError>
    requires { length bytes.now ≤ 32768 }
    ensures { OnOk result (out.new ≡ bytes_item.appends out.old (maximum, bytes.now)) }
{
    out.put_conformant(maximum)?;
    out.put_varying(bytes.len() as u32)?;
    out.put_bytes(bytes)
}
