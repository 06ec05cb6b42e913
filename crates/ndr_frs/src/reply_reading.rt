// From stubs to replies.
ghost use Rattle.std.specs.Prelude.{◌≡◌, IfOk};
ghost use Rattle.ndr_core.specs.Calls.{Reads, ReadsBy, ReadsOrMemory as ReadsItem};
ghost use Rattle.ndr_core.specs.Pointers.{optional};
ghost use Rattle.ndr_frs.specs.Shared.{intervals_item};
ghost use Rattle.ndr_frs.specs.Replies.{IsStatedReply, as_check, as_close, as_connection, as_data, as_file, as_page, as_poll, as_session, as_vector, check_item, close_item, connection_item, data_item, file_item, page_item, poll_item, reply_of, reply_reads, session_item, status_item, vector_item};
ghost use Rattle.ndr_frs.specs.Stubs.{AnswersOrMemory, ReadsOrMemory, made};

use crate::arrays::{take_bytes, take_intervals, take_updates};
use crate::fields::take_below;
use crate::update::UpdateItem;
use crate::{FrsReply, StubBad, StubError};
use frs_base::List;
use ndr_core::{NdrBad, NdrError, Reader, Wire};
use std::alloc::Global;
use version_vector::Interval;

/// The most intervals of a vector.
const VECTOR: u32 = 65_536;

fn take_check(r: &mut Reader) -> Result<FrsReply, NdrError>
    ensures { ReadsBy (λ x. x) (made as_check check_item) result r.old r.new }
{
    let rc = r.take_u32()?;
    Ok(FrsReply::CheckConnectivity { rc })
}

fn take_connection(r: &mut Reader) -> Result<FrsReply, NdrError>
    ensures { ReadsBy (λ x. x) (made as_connection connection_item) result r.old r.new }
{
    let version = r.take_u32()?;
    let flags = r.take_u32()?;
    let rc = r.take_u32()?;
    Ok(FrsReply::EstablishConnection { version, flags, rc })
}

fn take_session(r: &mut Reader) -> Result<FrsReply, NdrError>
    ensures { ReadsBy (λ x. x) (made as_session session_item) result r.old r.new }
{
    let rc = r.take_u32()?;
    Ok(FrsReply::EstablishSession { rc })
}

/// The status of a page.
fn take_status(r: &mut Reader) -> Result<u32, NdrBad>
    ensures { Reads (λ x. x) status_item result r.old r.new }
{
    let at = r.place_of(4);
    let status = r.take_u32()?;
    if status == 0 || status == 2 || status == 3 {
        return Ok(status);
    }
    Err(NdrBad::Value { at })
}

#[tactic(auto, unfolding(crate::specs::Replies::page_item))]
fn take_page(alloc: Global, r: &mut Reader) -> Result<FrsReply, NdrError>
    ensures { ReadsBy (λ x. x) (made as_page page_item) result r.old r.new }
{
    let (maximum, updates) = take_updates(alloc, r)?;
    let count = r.take_u32()?;
    let status = take_status(r)?;
    let gvsn_db = r.take_guid()?;
    let gvsn_version = r.take_u64()?;
    let rc = r.take_u32()?;
    Ok(FrsReply::RequestUpdates {
        maximum,
        updates,
        count,
        status,
        gvsn_db,
        gvsn_version,
        rc,
    })
}

fn take_vector(r: &mut Reader) -> Result<FrsReply, NdrError>
    ensures { ReadsBy (λ x. x) (made as_vector vector_item) result r.old r.new }
{
    let rc = r.take_u32()?;
    Ok(FrsReply::RequestVersionVector { rc })
}

/// A pointer, and the intervals that it points to.
fn take_pointer(alloc: Global, r: &mut Reader) -> Result<Option<List<Interval>>, NdrError>
    ensures { ReadsItem (λ x. x) (optional (intervals_item 65536)) result r.old r.new }
{
    if r.take_unique()? {
        return Ok(Some(take_intervals(alloc, r, VECTOR)?));
    }
    Ok(None)
}

fn take_poll(alloc: Global, r: &mut Reader) -> Result<FrsReply, NdrError>
    ensures { ReadsBy (λ x. x) (made as_poll poll_item) result r.old r.new }
{
    let sequence = r.take_u32()?;
    let status = take_below(r, 2)?;
    let generation = r.take_u64()?;
    let count = r.take_u32()?;
    let vector = take_pointer(alloc, r)?;
    let rc = r.take_u32()?;
    Ok(FrsReply::AsyncPoll {
        sequence,
        status,
        generation,
        count,
        vector,
        rc,
    })
}

fn take_data(alloc: Global, r: &mut Reader) -> Result<FrsReply, NdrError>
    ensures { ReadsBy (λ x. x) (made as_data data_item) result r.old r.new }
{
    let (maximum, bytes) = take_bytes(alloc, r)?;
    let size_read = r.take_u32()?;
    let is_end = take_below(r, 2)?;
    let rc = r.take_u32()?;
    Ok(FrsReply::RawGetFileData {
        maximum,
        bytes,
        size_read,
        is_end,
        rc,
    })
}

fn take_close(r: &mut Reader) -> Result<FrsReply, NdrError>
    ensures { ReadsBy (λ x. x) (made as_close close_item) result r.old r.new }
{
    let handle = r.take_handle()?;
    let rc = r.take_u32()?;
    Ok(FrsReply::RdcClose { handle, rc })
}

#[tactic(auto, unfolding(crate::specs::Replies::file_item))]
fn take_file(alloc: Global, r: &mut Reader) -> Result<FrsReply, NdrError>
    ensures { ReadsBy (λ x. x) (made as_file file_item) result r.old r.new }
{
    let update = UpdateItem::take(alloc, r)?;
    let handle = r.take_handle()?;
    let (maximum, bytes) = take_bytes(alloc, r)?;
    let size_read = r.take_u32()?;
    let is_end = r.take_u32()?;
    let detail = r.take_u64()?;
    let rc = r.take_u32()?;
    Ok(FrsReply::InitializeFileTransferAsync {
        update,
        handle,
        maximum,
        bytes,
        size_read,
        is_end,
        detail,
        rc,
    })
}

/// The fields of the reply with this number.
#[tactic(auto, unfolding(crate::specs::Replies::reply_reads))]
fn take_reply(alloc: Global, opnum: u16, r: &mut Reader) -> Result<FrsReply, StubError>
    ensures { ReadsOrMemory result (reply_reads opnum r.old) r.new }
{
    let reply = match opnum {
        0 => take_check(r),
        1 => take_connection(r),
        2 => take_session(r),
        3 => take_page(alloc, r),
        4 => take_vector(r),
        5 => take_poll(alloc, r),
        8 => take_data(alloc, r),
        12 => take_close(r),
        13 => take_file(alloc, r),
        _ => return Err(StubError::Bad(StubBad::Opnum)),
    };
    Ok(reply?)
}

/// The reply that a stub is, of the method with this number. [`write_reply`] takes it as it is.
///
/// [`write_reply`]: crate::write_reply
pub fn read_reply(alloc: Global, opnum: u16, stub: &[u8]) -> Result<FrsReply, StubError>
    ensures answer { AnswersOrMemory result (reply_of opnum stub.now) }
    ensures stated { IfOk result (λ q. IsStatedReply q) }
{
    let mut r = Reader::new(stub);
    let reply = take_reply(alloc, opnum, &mut r)?;
    if !r.is_done() {
        return Err(StubError::Bad(StubBad::Item(NdrBad::Rest { at: r.at() })));
    }
    Ok(reply)
}
