// The answers to calls.
use frs_base::{Bytes, Guid, List};
use ndr_core::ContextHandle;
use version_vector::Interval;
use win_order::Update;

/// The answer to a call of FrsTransport, with its return code `rc`.
#[derive(Debug, Drop, PartialEq, Eq)]
pub enum FrsReply {
    /// 0.
    CheckConnectivity {
        rc: u32,
    },
    /// 1.
    EstablishConnection {
        version: u32,
        flags: u32,
        rc: u32,
    },
    /// 2.
    EstablishSession {
        rc: u32,
    },
    /// 3: at most `maximum` updates, which is at most 256; `status` is 2 for the last page, 3 for
    /// one behind which more come, and 0 beside an `rc` that isn't 0.
    RequestUpdates {
        maximum: u32,
        updates: List<Update>,
        count: u32,
        status: u32,
        gvsn_db: Guid,
        gvsn_version: u64,
        rc: u32,
    },
    /// 4.
    RequestVersionVector {
        rc: u32,
    },
    /// 5: a vector of at most 65,536 intervals; `status` is 0 with one, 1 where the server closes.
    AsyncPoll {
        sequence: u32,
        status: u32,
        generation: u64,
        count: u32,
        vector: Option<List<Interval>>,
        rc: u32,
    },
    /// 8: at most `maximum` bytes, which is at most 32,768; `is_end` is 1 with the last, else 0.
    RawGetFileData {
        maximum: u32,
        bytes: Bytes,
        size_read: u32,
        is_end: u32,
        rc: u32,
    },
    /// 12.
    RdcClose {
        handle: ContextHandle,
        rc: u32,
    },
    /// 13: the file's update, a handle for its further bytes, and the first ones as above.
    InitializeFileTransferAsync {
        update: Update,
        handle: ContextHandle,
        maximum: u32,
        bytes: Bytes,
        size_read: u32,
        is_end: u32,
        detail: u64,
        rc: u32,
    },
}
