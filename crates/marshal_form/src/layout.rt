// Where the fields of a form begin, and what stands in them.

/// The place of the magic.
pub const MAGIC_AT: usize = 0;

/// The place of the form's number.
pub const FORM_AT: usize = 4;

/// The place of the metadata's type.
pub const META_TYPE_AT: usize = 8;

/// The place of the metadata's flags.
pub const META_FLAGS_AT: usize = 12;

/// The place of the metadata's length.
pub const META_LENGTH_AT: usize = 16;

/// The place of the attributes, which are all the metadata.
pub const ATTRIBUTES_AT: usize = 24;

/// The place of the contents' type.
pub const CONTENTS_TYPE_AT: usize = 28;

/// The place of the contents' flags.
pub const CONTENTS_FLAGS_AT: usize = 32;

/// The place of the contents' length.
pub const CONTENTS_LENGTH_AT: usize = 36;

/// The place of the contents, and so how many bytes stand before them.
pub const HEAD: usize = 44;

/// What every form begins with.
pub const MAGIC: [u8; 4] = *b"FRSM";

/// The number of this form.
pub const FORM: u32 = 1;

/// The type of metadata.
pub const META_TYPE: u32 = 1;

/// The type of contents.
pub const CONTENTS_TYPE: u32 = 2;

/// No flags: the one of compressed data is wrong like any other.
pub const FLAGS: u32 = 0;

/// How many bytes the attributes have.
pub const META_LENGTH: u64 = 4;

/// The attribute of a directory.
pub const DIRECTORY: u32 = 0x10;

/// The one attribute of local files.
pub const ARCHIVE: u32 = 0x20;
