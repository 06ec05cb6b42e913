// From requests to stubs.
ghost use Rattle.std.specs.Prelude.{◌≡◌, ◌≤◌, IfOk, OnOk, [], length};
ghost use Rattle.ndr_core.specs.Items.{◌⨾◌};
ghost use Rattle.ndr_core.specs.Identifiers.{guid_item};
ghost use Rattle.ndr_frs.specs.Requests.{IsAsking, IsStatedRequest, connection_item, file_item, page_item, request_appends, vector_item};

use crate::FrsRequest;
use crate::interval::IntervalItem;
use crate::update::UpdateItem;
use frs_base::Guid;
use ndr_core::{Wire, Writer, put_many};
use std::alloc::{AllocError, Global};
use version_vector::Interval;
use win_order::Update;

fn put_connection(
    out: &mut Writer,
    replica_set: Guid,
    connection: Guid,
    version: u32,
    flags: u32,
) -> Result<(), AllocError>
    ensures { OnOk result (out.new ≡ connection_item.appends out.old
        (replica_set, (connection, (version, flags)))) }
{
    out.put_guid(replica_set)?;
    out.put_guid(connection)?;
    out.put_u32(version)?;
    out.put_u32(flags)
}

/// The fields of a page's request before its difference.
#[derive(Drop)]
struct PageHead {
    connection: Guid,
    content_set: Guid,
    credits: u32,
    hash_requested: u32,
    kind: u32,
    diff_count: u32,
}

fn put_page(out: &mut Writer, head: PageHead, diff: &[Interval]) -> Result<(), AllocError>
    ensures { OnOk result (out.new ≡ page_item.appends out.old (
      head.connection,
      (
        head.content_set,
        (head.credits, (head.hash_requested, (head.kind, (head.diff_count, (tt, diff.now))))),
      ),
    )) }
{
    out.put_guid(head.connection)?;
    out.put_guid(head.content_set)?;
    out.put_u32(head.credits)?;
    out.put_u32(head.hash_requested)?;
    out.put_u32(head.kind)?;
    out.put_u32(head.diff_count)?;
    out.put_conformant(head.diff_count)?;
    put_many::<IntervalItem>(out, diff)
}

/// The fields of a request for the version vector.
#[derive(Drop)]
struct VectorFields {
    sequence: u32,
    connection: Guid,
    content_set: Guid,
    request_type: u32,
    change_type: u32,
    generation: u64,
}

fn put_vector(out: &mut Writer, fields: VectorFields) -> Result<(), AllocError>
    ensures { OnOk result (out.new ≡ vector_item.appends out.old (
      fields.sequence,
      (
        fields.connection,
        (fields.content_set, (fields.request_type, (fields.change_type, fields.generation))),
      ),
    )) }
{
    out.put_u32(fields.sequence)?;
    out.put_guid(fields.connection)?;
    out.put_guid(fields.content_set)?;
    out.put_u32(fields.request_type)?;
    out.put_u32(fields.change_type)?;
    out.put_u64(fields.generation)
}

fn put_file(
    out: &mut Writer,
    connection: Guid,
    update: &Update,
    rdc_desired: u32,
    policy: u32,
    buffer_size: u32,
) -> Result<(), AllocError>
    ensures { OnOk result (out.new ≡ file_item.appends out.old
        (connection, (update.now, (rdc_desired, (policy, buffer_size))))) }
{
    out.put_guid(connection)?;
    UpdateItem::put(update, out)?;
    out.put_u32(rdc_desired)?;
    out.put_u32(policy)?;
    out.put_u32(buffer_size)
}

/// Writes the fields of a request for versions or for updates.
fn put_asking(out: &mut Writer, request: &FrsRequest) -> Result<(), AllocError>
    requires { IsAsking request.now }
    ensures { OnOk result (out.new ≡ request_appends request.now out.old) }
{
    match request {
        FrsRequest::RequestUpdates {
            connection,
            content_set,
            credits,
            hash_requested,
            kind,
            diff_count,
            diff,
        } => {
            let head = PageHead {
                connection: *connection,
                content_set: *content_set,
                credits: *credits,
                hash_requested: *hash_requested,
                kind: *kind,
                diff_count: *diff_count,
            };
            put_page(out, head, diff.as_slice())
        }
        FrsRequest::RequestVersionVector {
            sequence,
            connection,
            content_set,
            request_type,
            change_type,
            generation,
        } => {
            let fields = VectorFields {
                sequence: *sequence,
                connection: *connection,
                content_set: *content_set,
                request_type: *request_type,
                change_type: *change_type,
                generation: *generation,
            };
            put_vector(out, fields)
        }
        _ => unreachable!(),
    }
}

/// Writes two GUIDs.
fn put_guids(out: &mut Writer, first: Guid, second: Guid) -> Result<(), AllocError>
    ensures { OnOk result (out.new ≡ (guid_item ⨾ guid_item).appends out.old (first, second)) }
{
    out.put_guid(first)?;
    out.put_guid(second)
}

/// Writes the fields of a request.
fn put_request(out: &mut Writer, request: &FrsRequest) -> Result<(), AllocError>
    ensures { OnOk result (out.new ≡ request_appends request.now out.old) }
{
    match request {
        FrsRequest::CheckConnectivity {
            replica_set,
            connection,
        } => put_guids(out, *replica_set, *connection),
        FrsRequest::EstablishConnection {
            replica_set,
            connection,
            version,
            flags,
        } => put_connection(out, *replica_set, *connection, *version, *flags),
        FrsRequest::EstablishSession {
            connection,
            content_set,
        } => put_guids(out, *connection, *content_set),
        FrsRequest::RequestUpdates { .. } => put_asking(out, request),
        FrsRequest::RequestVersionVector { .. } => put_asking(out, request),
        FrsRequest::AsyncPoll { connection } => out.put_guid(*connection),
        FrsRequest::RawGetFileData {
            handle,
            buffer_size,
        } => {
            out.put_handle(*handle)?;
            out.put_u32(*buffer_size)
        }
        FrsRequest::RdcClose { handle } => out.put_handle(*handle),
        FrsRequest::InitializeFileTransferAsync {
            connection,
            update,
            rdc_desired,
            policy,
            buffer_size,
        } => put_file(
            out,
            *connection,
            update,
            *rdc_desired,
            *policy,
            *buffer_size,
        ),
    }
}

/// The stub of a request, which [`read_request`] reads as that request.
///
/// [`read_request`]: crate::read_request
pub fn write_request(alloc: Global, request: &FrsRequest) -> Result<Vec<u8>, AllocError>
    requires { IsStatedRequest request.now }
    ensures { IfOk result (λ stub. stub.items ≡ request_appends request.now []) }
{
    let mut out = Writer::new(alloc);
    put_request(&mut out, request)?;
    Ok(out.into_vec())
}
