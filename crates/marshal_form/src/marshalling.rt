// From a file to its form.
ghost use Rattle.std.specs.Prelude.{◌+◌, ◌++◌, ◌≡◌, ◌≤◌, IfOk, drop, length, take};
ghost use Rattle.marshal_form.specs.Spelling.{IsFile, head_of, spelling};

use crate::layout::{
    ATTRIBUTES_AT, CONTENTS_FLAGS_AT, CONTENTS_LENGTH_AT, CONTENTS_TYPE, CONTENTS_TYPE_AT, FLAGS,
    FORM, FORM_AT, HEAD, MAGIC, MAGIC_AT, META_FLAGS_AT, META_LENGTH, META_LENGTH_AT, META_TYPE,
    META_TYPE_AT,
};
use crate::{LOCAL, Meta};
use std::alloc::{AllocError, Global};

/// Writes the bytes of a field at its place.
fn put(head: &mut [u8; HEAD], at: usize, bytes: &[u8])
    requires { at + length bytes.now ≤ 44 }
    ensures { head.new ≡ take at head.old ++ bytes.now ++ drop (at + length bytes.now) head.old }
{
    head[at..at + bytes.len()].copy_from_slice(bytes);
}

/// What comes before so many bytes of contents.
fn head_of(meta: Meta, length: u64) -> [u8; HEAD]
    ensures { result ≡ head_of meta length }
{
    let mut head = [0; HEAD];
    put(&mut head, MAGIC_AT, &MAGIC);
    put(&mut head, FORM_AT, &FORM.to_le_bytes());
    put(&mut head, META_TYPE_AT, &META_TYPE.to_le_bytes());
    put(&mut head, META_FLAGS_AT, &FLAGS.to_le_bytes());
    put(&mut head, META_LENGTH_AT, &META_LENGTH.to_le_bytes());
    put(&mut head, ATTRIBUTES_AT, &meta.attributes.to_le_bytes());
    put(&mut head, CONTENTS_TYPE_AT, &CONTENTS_TYPE.to_le_bytes());
    put(&mut head, CONTENTS_FLAGS_AT, &FLAGS.to_le_bytes());
    put(&mut head, CONTENTS_LENGTH_AT, &length.to_le_bytes());
    head
}

/// The first bytes of the form of a local file with so many bytes of contents.
pub fn head(length: u64) -> [u8; HEAD]
    ensures { result ≡ head_of (record { attributes = 0x20 }) length }
{
    head_of(LOCAL, length)
}

/// The form of a file with these contents.
pub fn marshal(alloc: Global, meta: Meta, bytes: &[u8]) -> Result<Vec<u8>, AllocError>
    requires { IsFile meta }
    ensures { IfOk result (λ form. form.items ≡ spelling meta bytes.now) }
{
    let mut form = Vec::with_capacity(alloc, HEAD + bytes.len())?;
    form.extend_from_slice(&head_of(meta, bytes.len() as u64))?;
    form.extend_from_slice(bytes)?;
    Ok(form)
}
