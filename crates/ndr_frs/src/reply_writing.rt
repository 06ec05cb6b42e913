// From replies to stubs.
ghost use Rattle.std.specs.Prelude.{◌≡◌, ◌≤◌, IfOk, IfSome, OnOk, [], length};
ghost use Rattle.ndr_core.specs.Pointers.{optional};
ghost use Rattle.ndr_frs.specs.Shared.{intervals_item};
ghost use Rattle.ndr_frs.specs.Replies.{IsStatedReply, connection_item, reply_appends, reply_number};

use crate::FrsReply;
use crate::arrays::{put_bytes, put_intervals, put_updates};
use crate::update::UpdateItem;
use frs_base::List;
use ndr_core::{Wire, Writer};
use std::alloc::{AllocError, Global};
use version_vector::Interval;

fn put_connection(out: &mut Writer, version: u32, flags: u32, rc: u32) -> Result<(), AllocError>
    ensures { OnOk result (out.new ≡ connection_item.appends out.old (version, (flags, rc))) }
{
    out.put_u32(version)?;
    out.put_u32(flags)?;
    out.put_u32(rc)
}

/// Writes the fields of a page.
fn put_page(out: &mut Writer, reply: &FrsReply) -> Result<(), AllocError>
    requires page { reply_number reply.now ≡ 3 }
    requires stated { IsStatedReply reply.now }
    ensures { OnOk result (out.new ≡ reply_appends reply.now out.old) }
{
    match reply {
        FrsReply::RequestUpdates {
            maximum,
            updates,
            count,
            status,
            gvsn_db,
            gvsn_version,
            rc,
        } => {
            put_updates(out, *maximum, updates.as_slice())?;
            out.put_u32(*count)?;
            out.put_u32(*status)?;
            out.put_guid(*gvsn_db)?;
            out.put_u64(*gvsn_version)?;
            out.put_u32(*rc)
        }
        _ => unreachable!(),
    }
}

/// Writes a pointer, and the intervals that it points to.
fn put_pointer(out: &mut Writer, vector: &Option<List<Interval>>) -> Result<(), AllocError>
    requires { IfSome vector.now (λ v. length v ≤ 65536) }
    ensures { OnOk result (out.new ≡ (optional (intervals_item 65536)).appends out.old vector.now) }
{
    match vector {
        None => out.put_unique(false),
        Some(intervals) => {
            out.put_unique(true)?;
            put_intervals(out, intervals.as_slice())
        }
    }
}

/// Writes the fields of the answer to a poll.
fn put_poll(out: &mut Writer, reply: &FrsReply) -> Result<(), AllocError>
    requires poll { reply_number reply.now ≡ 5 }
    requires stated { IsStatedReply reply.now }
    ensures { OnOk result (out.new ≡ reply_appends reply.now out.old) }
{
    match reply {
        FrsReply::AsyncPoll {
            sequence,
            status,
            generation,
            count,
            vector,
            rc,
        } => {
            out.put_u32(*sequence)?;
            out.put_u32(*status)?;
            out.put_u64(*generation)?;
            out.put_u32(*count)?;
            put_pointer(out, vector)?;
            out.put_u32(*rc)
        }
        _ => unreachable!(),
    }
}

/// Writes the fields of a file's further bytes.
fn put_data(out: &mut Writer, reply: &FrsReply) -> Result<(), AllocError>
    requires data { reply_number reply.now ≡ 8 }
    requires stated { IsStatedReply reply.now }
    ensures { OnOk result (out.new ≡ reply_appends reply.now out.old) }
{
    match reply {
        FrsReply::RawGetFileData {
            maximum,
            bytes,
            size_read,
            is_end,
            rc,
        } => {
            put_bytes(out, *maximum, bytes.as_slice())?;
            out.put_u32(*size_read)?;
            out.put_u32(*is_end)?;
            out.put_u32(*rc)
        }
        _ => unreachable!(),
    }
}

/// Writes the fields of a file's update and first bytes.
fn put_file(out: &mut Writer, reply: &FrsReply) -> Result<(), AllocError>
    requires file { reply_number reply.now ≡ 13 }
    requires stated { IsStatedReply reply.now }
    ensures { OnOk result (out.new ≡ reply_appends reply.now out.old) }
{
    match reply {
        FrsReply::InitializeFileTransferAsync {
            update,
            handle,
            maximum,
            bytes,
            size_read,
            is_end,
            detail,
            rc,
        } => {
            UpdateItem::put(update, out)?;
            out.put_handle(*handle)?;
            put_bytes(out, *maximum, bytes.as_slice())?;
            out.put_u32(*size_read)?;
            out.put_u32(*is_end)?;
            out.put_u64(*detail)?;
            out.put_u32(*rc)
        }
        _ => unreachable!(),
    }
}

/// Writes the fields of a reply.
fn put_reply(out: &mut Writer, reply: &FrsReply) -> Result<(), AllocError>
    requires { IsStatedReply reply.now }
    ensures { OnOk result (out.new ≡ reply_appends reply.now out.old) }
{
    match reply {
        FrsReply::CheckConnectivity { rc }
        | FrsReply::EstablishSession { rc }
        | FrsReply::RequestVersionVector { rc } => out.put_u32(*rc),
        FrsReply::EstablishConnection { version, flags, rc } => {
            put_connection(out, *version, *flags, *rc)
        }
        FrsReply::RequestUpdates { .. } => put_page(out, reply),
        FrsReply::AsyncPoll { .. } => put_poll(out, reply),
        FrsReply::RawGetFileData { .. } => put_data(out, reply),
        FrsReply::InitializeFileTransferAsync { .. } => put_file(out, reply),
        FrsReply::RdcClose { handle, rc } => {
            out.put_handle(*handle)?;
            out.put_u32(*rc)
        }
    }
}

/// The stub of a reply, which [`read_reply`] reads as that reply.
///
/// [`read_reply`]: crate::read_reply
pub fn write_reply(alloc: Global, reply: &FrsReply) -> Result<Vec<u8>, AllocError>
    requires { IsStatedReply reply.now }
    ensures { IfOk result (λ stub. stub.items ≡ reply_appends reply.now []) }
{
    let mut out = Writer::new(alloc);
    put_reply(&mut out, reply)?;
    Ok(out.into_vec())
}
