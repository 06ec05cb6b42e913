// The calls.
use frs_base::{Guid, List};
use ndr_core::ContextHandle;
use version_vector::Interval;
use win_order::Update;

/// A call of FrsTransport. Where a field has stated values, a stub with another is refused.
#[derive(Debug, Drop, PartialEq, Eq)]
pub enum FrsRequest {
    /// 0: whether the server has the replica set.
    CheckConnectivity {
        replica_set: Guid,
        connection: Guid,
    },
    /// 1: begins a connection. `version` is 0x00050002; `flags` is written 0.
    EstablishConnection {
        replica_set: Guid,
        connection: Guid,
        version: u32,
        flags: u32,
    },
    /// 2: begins work on a content set.
    EstablishSession {
        connection: Guid,
        content_set: Guid,
    },
    /// 3: asks for a page of updates. `kind` is 0 for all, 1 for tombstones, 2 for the others;
    /// `hash_requested` is written 0; `diff_count` counts `diff`, at most 131,072.
    RequestUpdates {
        connection: Guid,
        content_set: Guid,
        credits: u32,
        hash_requested: u32,
        kind: u32,
        diff_count: u32,
        diff: List<Interval>,
    },
    /// 4: asks for the version vector. `request_type` is 0; `change_type` is 0 for now, 1 for once
    /// it has changed.
    RequestVersionVector {
        sequence: u32,
        connection: Guid,
        content_set: Guid,
        request_type: u32,
        change_type: u32,
        generation: u64,
    },
    /// 5: waits for the answer to a request for the version vector.
    AsyncPoll {
        connection: Guid,
    },
    /// 8: asks for the next bytes of a file.
    RawGetFileData {
        handle: ContextHandle,
        buffer_size: u32,
    },
    /// 12: ends a transfer.
    RdcClose {
        handle: ContextHandle,
    },
    /// 13: asks for a file, and its first bytes. `rdc_desired` and `policy` are written 0.
    InitializeFileTransferAsync {
        connection: Guid,
        update: Update,
        rdc_desired: u32,
        policy: u32,
        buffer_size: u32,
    },
}
