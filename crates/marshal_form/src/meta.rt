// What is kept of a file beside its contents.
ghost use Rattle.std.specs.Prelude.{◌↔◌, IsTrue};

use crate::layout::{ARCHIVE, DIRECTORY};

/// What is kept of a file beside its contents.
#[derive(Clone, Copy, Debug, PartialEq, Eq)]
pub struct Meta {
    /// The file's attribute bits, of which 0x10 is a directory's.
    pub attributes: u32,
}

/// What is kept of a local file.
pub const LOCAL: Meta = Meta {
    attributes: ARCHIVE,
};

impl Meta {
    ghost use Rattle.marshal_form.specs.Spelling.{IsFile};

    /// Whether these are a file's, and no directory's.
    pub fn is_file(self) -> bool
        ensures { IsTrue result ↔ IsFile self }
    {
        self.attributes & DIRECTORY == 0
    }
}
