// What a version says of a file or directory.
ghost use Rattle.std.specs.Prelude.{◌≡◌, ◌↔◌, IfOk, IsTrue};

use crate::Key;
use frs_base::{Guid, Gvsn, Name, Sum, Uid};
use std::alloc::AllocError;

/// The attribute of a directory.
const DIRECTORY: u32 = 0x10;

/// What one version says of one file or directory: the FRS_UPDATE of [MS-FRS2].
#[derive(Debug, Drop, PartialEq, Eq)]
pub struct Update {
    /// False for a tombstone: the file was removed.
    pub present: bool,
    /// Whether its name lost against a matching one. Carried as it is.
    pub name_conflict: bool,
    /// File attributes: bit 0x10 is set exactly for a directory, and the others are carried.
    pub attributes: u32,
    /// Whose first contents the folder takes: 1 and 2 of a plain and a primary member's first
    /// changes, 3 of all later ones.
    pub fence: u64,
    /// When it was made, as a moment or one past the clock that it replaced.
    pub clock: u64,
    /// The moment at which the file was made.
    pub created: u64,
    /// The content set that it belongs to.
    pub set: Guid,
    /// The sum of the file's marshalled form, all zero for a directory.
    pub hash: Sum,
    /// Similarity traits of the contents. Carried as they are.
    pub similarity: [u8; 16],
    /// The file or directory.
    pub uid: Uid,
    /// The version that made the update.
    pub gvsn: Gvsn,
    /// The directory that it is in.
    pub parent: Uid,
    /// Its name there.
    pub name: Name,
    /// Bit 0 would say that its stream is compressed, which is refused.
    pub flags: u32,
}

impl Update {
    ghost use Rattle.win_order.specs.Order.{Beats, is_directory, key_of};

    /// By what it is ordered among the updates of its file.
    pub fn key(&self) -> Key
        ensures { result ≡ key_of self.now }
    {
        Key {
            fence: self.fence,
            clock: self.clock,
            created: self.created,
            gvsn: self.gvsn,
        }
    }
    /// It is of the same file or directory, and has the greater key.
    pub fn beats(&self, other: &Update) -> bool
        ensures { IsTrue result ↔ Beats self.now other.now }
    {
        self.uid == other.uid && other.key().is_below(&self.key())
    }

    /// Whether it is of a directory.
    pub fn is_directory(&self) -> bool
        ensures { result ≡ is_directory self.now }
    {
        self.attributes & DIRECTORY == DIRECTORY
    }

    /// The same update. It takes no memory, since copies of a name share their units.
    pub fn copy(&self) -> Result<Update, AllocError>
        ensures { IfOk result (λ update. update ≡ self.now) }
    {
        let name = self.name.copy()?;
        Ok(Update {
            present: self.present,
            name_conflict: self.name_conflict,
            attributes: self.attributes,
            fence: self.fence,
            clock: self.clock,
            created: self.created,
            set: self.set,
            hash: self.hash,
            similarity: self.similarity,
            uid: self.uid,
            gvsn: self.gvsn,
            parent: self.parent,
            name,
            flags: self.flags,
        })
    }
}
