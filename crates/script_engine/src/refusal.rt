// Why a line is refused.
use frs_base::Bytes;
use vol_state::Refused;

/// Why a line is refused. Such a line changes nothing, but for what its earlier events did, and that a
/// `member` line took its number.
#[derive(Debug, Drop, PartialEq, Eq)]
pub enum Refusal {
    /// No member has this name.
    Unknown { name: Bytes },
    /// A member has this name already.
    Exists { name: Bytes },
    /// The member and its partner are one.
    Itself,
    /// The first refusal of a local operation.
    Local { why: Refused },
    /// A local journal record of the file isn't consumed; the last of them has this USN.
    NotYet { usn: u64 },
    /// The member's vector would have this many intervals, more than 65,536.
    VectorFull { count: u64 },
}
