// Context handles.
use frs_base::Guid;

/// What a server gives a caller to name one of its open transfers: attributes and a UUID.
#[derive(Clone, Copy, Debug, PartialEq, Eq)]
pub struct ContextHandle {
    /// 0 in every handle that is given out.
    pub attributes: u32,
    /// Which transfer.
    pub id: Guid,
}
