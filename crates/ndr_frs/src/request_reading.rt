// From stubs to requests.
ghost use Rattle.std.specs.Prelude.{IfOk};
ghost use Rattle.ndr_core.specs.Calls.{Reads, ReadsBy};
ghost use Rattle.ndr_core.specs.Items.{◌⨾◌};
ghost use Rattle.ndr_core.specs.Identifiers.{guid_item};
ghost use Rattle.ndr_frs.specs.Requests.{IsStatedRequest, as_check, as_close, as_connection, as_data, as_file, as_page, as_poll, as_session, as_vector, check_item, close_item, connection_item, data_item, file_item, page_item, poll_item, request_of, request_reads, session_item, vector_item};
ghost use Rattle.ndr_frs.specs.Stubs.{AnswersOrMemory, ReadsOrMemory, made};

use crate::arrays::take_said;
use crate::fields::take_below;
use crate::interval::IntervalItem;
use crate::update::UpdateItem;
use crate::{FrsRequest, StubBad, StubError};
use frs_base::{Guid, List};
use ndr_core::{NdrBad, NdrError, Reader, Wire, take_many};
use std::alloc::Global;

/// The most intervals of a difference.
const DIFFERENCE: u32 = 131_072;

/// Two GUIDs.
fn take_guids(r: &mut Reader) -> Result<(Guid, Guid), NdrBad>
    ensures { Reads (λ x. x) (guid_item ⨾ guid_item) result r.old r.new }
{
    let first = r.take_guid()?;
    let second = r.take_guid()?;
    Ok((first, second))
}

fn take_check(r: &mut Reader) -> Result<FrsRequest, NdrError>
    ensures { ReadsBy (λ x. x) (made as_check check_item) result r.old r.new }
{
    let (replica_set, connection) = take_guids(r)?;
    Ok(FrsRequest::CheckConnectivity {
        replica_set,
        connection,
    })
}

fn take_connection(r: &mut Reader) -> Result<FrsRequest, NdrError>
    ensures { ReadsBy (λ x. x) (made as_connection connection_item) result r.old r.new }
{
    let replica_set = r.take_guid()?;
    let connection = r.take_guid()?;
    let version = r.take_u32()?;
    let flags = r.take_u32()?;
    Ok(FrsRequest::EstablishConnection {
        replica_set,
        connection,
        version,
        flags,
    })
}

fn take_session(r: &mut Reader) -> Result<FrsRequest, NdrError>
    ensures { ReadsBy (λ x. x) (made as_session session_item) result r.old r.new }
{
    let (connection, content_set) = take_guids(r)?;
    Ok(FrsRequest::EstablishSession {
        connection,
        content_set,
    })
}

fn take_page(alloc: Global, r: &mut Reader) -> Result<FrsRequest, NdrError>
    ensures { ReadsBy (λ x. x) (made as_page page_item) result r.old r.new }
{
    let connection = r.take_guid()?;
    let content_set = r.take_guid()?;
    let credits = r.take_u32()?;
    let hash_requested = r.take_u32()?;
    let kind = take_below(r, 3)?;
    let diff_count = r.take_u32()?;
    take_said(r, DIFFERENCE, diff_count)?;
    let diff = List::of(take_many::<IntervalItem>(alloc, r, diff_count)?);
    Ok(FrsRequest::RequestUpdates {
        connection,
        content_set,
        credits,
        hash_requested,
        kind,
        diff_count,
        diff,
    })
}

fn take_vector(r: &mut Reader) -> Result<FrsRequest, NdrError>
    ensures { ReadsBy (λ x. x) (made as_vector vector_item) result r.old r.new }
{
    let sequence = r.take_u32()?;
    let connection = r.take_guid()?;
    let content_set = r.take_guid()?;
    let request_type = take_below(r, 1)?;
    let change_type = take_below(r, 2)?;
    let generation = r.take_u64()?;
    Ok(FrsRequest::RequestVersionVector {
        sequence,
        connection,
        content_set,
        request_type,
        change_type,
        generation,
    })
}

fn take_poll(r: &mut Reader) -> Result<FrsRequest, NdrError>
    ensures { ReadsBy (λ x. x) (made as_poll poll_item) result r.old r.new }
{
    let connection = r.take_guid()?;
    Ok(FrsRequest::AsyncPoll { connection })
}

fn take_data(r: &mut Reader) -> Result<FrsRequest, NdrError>
    ensures { ReadsBy (λ x. x) (made as_data data_item) result r.old r.new }
{
    let handle = r.take_handle()?;
    let buffer_size = r.take_u32()?;
    Ok(FrsRequest::RawGetFileData {
        handle,
        buffer_size,
    })
}

fn take_close(r: &mut Reader) -> Result<FrsRequest, NdrError>
    ensures { ReadsBy (λ x. x) (made as_close close_item) result r.old r.new }
{
    let handle = r.take_handle()?;
    Ok(FrsRequest::RdcClose { handle })
}

fn take_file(alloc: Global, r: &mut Reader) -> Result<FrsRequest, NdrError>
    ensures { ReadsBy (λ x. x) (made as_file file_item) result r.old r.new }
{
    let connection = r.take_guid()?;
    let update = UpdateItem::take(alloc, r)?;
    let rdc_desired = r.take_u32()?;
    let policy = r.take_u32()?;
    let buffer_size = r.take_u32()?;
    Ok(FrsRequest::InitializeFileTransferAsync {
        connection,
        update,
        rdc_desired,
        policy,
        buffer_size,
    })
}

/// The fields of the request with this number.
#[tactic(auto, unfolding(crate::specs::Requests::request_reads))]
fn take_request(alloc: Global, opnum: u16, r: &mut Reader) -> Result<FrsRequest, StubError>
    ensures { ReadsOrMemory result (request_reads opnum r.old) r.new }
{
    let request = match opnum {
        0 => take_check(r),
        1 => take_connection(r),
        2 => take_session(r),
        3 => take_page(alloc, r),
        4 => take_vector(r),
        5 => take_poll(r),
        8 => take_data(r),
        12 => take_close(r),
        13 => take_file(alloc, r),
        _ => return Err(StubError::Bad(StubBad::Opnum)),
    };
    Ok(request?)
}

/// The request that a stub is, of the method with this number. [`write_request`] takes it as it is.
///
/// [`write_request`]: crate::write_request
pub fn read_request(alloc: Global, opnum: u16, stub: &[u8]) -> Result<FrsRequest, StubError>
    ensures answer { AnswersOrMemory result (request_of opnum stub.now) }
    ensures stated { IfOk result (λ q. IsStatedRequest q) }
{
    let mut r = Reader::new(stub);
    let request = take_request(alloc, opnum, &mut r)?;
    if !r.is_done() {
        return Err(StubError::Bad(StubBad::Item(NdrBad::Rest { at: r.at() })));
    }
    Ok(request)
}
