// What a volume has.
ghost use Rattle.std.specs.Prelude.{◌≡◌};
ghost use Rattle.vol_state.specs.State.{uid_of};

use frs_base::{Bytes, Guid, Kind, Name, Sum, Uid};

/// A file or a directory of a volume. The root is none of them.
#[derive(Debug, Drop, PartialEq, Eq)]
pub struct Object {
    /// Its number in this volume, from 1.
    pub fid: u64,
    /// The number of the directory that it stands in, 0 for the root, and its name there; none in
    /// limbo.
    pub place: Option<(u64, Name)>,
    /// What it is.
    pub kind: Kind,
    /// A file's contents; a directory has none.
    pub bytes: Bytes,
    /// The sum of a file's form, all zero for a directory.
    pub sum: Sum,
    /// The USN of the operation that made it.
    pub born: u64,
    /// The UID that it came with from another member.
    pub tag: Option<Uid>,
    /// The USN of the last local operation on it, 0 where there is none.
    pub last_local: u64,
}

impl Object {
    /// The UID by which members speak of it: its tag, else the version at which it was born in
    /// its own database.
    pub fn uid(&self, own: Guid) -> Uid
        ensures { result ≡ uid_of own self.now }
    {
        match self.tag {
            None => Uid {
                db: own,
                version: self.born,
            },
            Some(tag) => tag,
        }
    }
}
