// The records of a journal.
use frs_base::Uid;

/// What the journal keeps of one operation.
#[derive(Clone, Copy, Debug, PartialEq, Eq)]
pub struct VolRecord {
    /// Its update sequence number, from 9.
    pub usn: u64,
    /// The number of the object.
    pub fid: u64,
    /// The UID of the object.
    pub uid: Uid,
    /// The kind of operation: 1 put of a new file, 2 put over a file, 3 mkdir, 4 move, 5 remove,
    /// 6 park, 7 erase, 8 make, 9 rewrite, 10 place.
    pub op: u8,
    /// Whether it was done here, and not by the installer.
    pub local: bool,
}
