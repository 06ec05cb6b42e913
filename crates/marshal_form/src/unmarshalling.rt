// From bytes to the file that they are the form of.
ghost use Rattle.std.specs.Prelude.{◌+◌, ◌<◌, ◌≡◌, ◌≤◌, IfErr, IfOk, OnOk, drop, length, slice_range};
ghost use Rattle.std.specs.List.{AllByRecursion};
ghost use Rattle.marshal_form.specs.Fields.{IsFirstBad, IsFirstWrong, IsForm, IsRight, attributes_field, attributes_in, fixed_field, free_field, head_fields, length_in};
ghost use Rattle.marshal_form.specs.Local.{IsFirstBadLocal, IsLocalForm};
ghost use Rattle.marshal_form.specs.Refusals.{Checks};
ghost use Rattle.marshal_form.specs.Spelling.{IsFile, spelling};

use crate::layout::{
    ATTRIBUTES_AT, CONTENTS_FLAGS_AT, CONTENTS_LENGTH_AT, CONTENTS_TYPE, CONTENTS_TYPE_AT, FLAGS,
    FORM, FORM_AT, HEAD, MAGIC, MAGIC_AT, META_FLAGS_AT, META_LENGTH, META_LENGTH_AT, META_TYPE,
    META_TYPE_AT,
};
use crate::{LOCAL, MarshalBad, Meta};
use std::cmp::Ordering;

/// The bytes of the field at a place, unless it is missing or cut off.
fn field<const N: usize>(form: &[u8], at: usize) -> Result<[u8; N], MarshalBad>
    ensures bytes { IfOk result (λ bytes. bytes ≡ slice_range form.now at (at + N)) }
    ensures there { OnOk result (at + N ≤ length form.now) }
    ensures refused { IfErr result (λ bad. (length form.now < at + N) × (bad.at ≡ at)) }
{
    let Some(rest) = form.get(at..) else {
        return Err(MarshalBad { at });
    };
    match rest.first_chunk() {
        None => Err(MarshalBad { at }),
        Some(bytes) => Ok(*bytes),
    }
}

/// The field at a place has to hold these bytes.
fn expect<const N: usize>(form: &[u8], at: usize, want: [u8; N]) -> Result<(), MarshalBad>
    ensures { Checks result form.now (fixed_field at want.entry) }
{
    if field::<N>(form, at)? != want {
        return Err(MarshalBad { at });
    }
    Ok(())
}

/// The attributes in their field, which have to be a file's.
fn attributes_of(form: &[u8]) -> Result<Meta, MarshalBad>
    ensures checks { Checks result form.now (attributes_field 24) }
    ensures value { IfOk result (λ meta. attributes_in form.now ≡ meta.attributes) }
    ensures file { IfOk result IsFile }
{
    let meta = Meta {
        attributes: u32::from_le_bytes(field(form, ATTRIBUTES_AT)?),
    };
    if !meta.is_file() {
        return Err(MarshalBad { at: ATTRIBUTES_AT });
    }
    Ok(meta)
}

/// The length that the head says the contents have.
fn length_of(form: &[u8]) -> Result<u64, MarshalBad>
    ensures checks { Checks result form.now (free_field 36 8) }
    ensures value { IfOk result (λ count. length_in form.now ≡ count) }
{
    Ok(u64::from_le_bytes(field(form, CONTENTS_LENGTH_AT)?))
}

/// The attributes, and how many bytes the contents are to have. Each field of the head has to be
/// right.
fn read_head(form: &[u8]) -> Result<(Meta, u64), MarshalBad>
    ensures right { OnOk result (AllByRecursion (IsRight form.now) head_fields) }
    ensures attributes { IfOk result (λ found. attributes_in form.now ≡ found.0.attributes) }
    ensures file { IfOk result (λ found. IsFile found.0) }
    ensures length { IfOk result (λ found. length_in form.now ≡ found.1) }
    ensures refused { IfErr result (λ bad. IsFirstWrong form.now bad.at) }
{
    expect(form, MAGIC_AT, MAGIC)?;
    expect(form, FORM_AT, FORM.to_le_bytes())?;
    expect(form, META_TYPE_AT, META_TYPE.to_le_bytes())?;
    expect(form, META_FLAGS_AT, FLAGS.to_le_bytes())?;
    expect(form, META_LENGTH_AT, META_LENGTH.to_le_bytes())?;
    let meta = attributes_of(form)?;
    expect(form, CONTENTS_TYPE_AT, CONTENTS_TYPE.to_le_bytes())?;
    expect(form, CONTENTS_FLAGS_AT, FLAGS.to_le_bytes())?;
    let length = length_of(form)?;
    Ok((meta, length))
}

/// What is kept of the file that bytes are the form of, and the place of its contents in them; or
/// the first place at which they are no form.
pub fn unmarshal(form: &[u8]) -> Result<(Meta, usize), MarshalBad>
    ensures place { IfOk result (λ found. found.1 ≡ 44) }
    ensures form { IfOk result (λ found. IsForm form.now found.0 (drop 44 form.now)) }
    ensures spelled { IfOk result (λ found. form.now ≡ spelling found.0 (drop 44 form.now)) }
    ensures file { IfOk result (λ found. IsFile found.0) }
    ensures refused { IfErr result (λ bad. IsFirstBad form.now bad.at) }
{
    let (meta, length) = read_head(form)?;
    let found = (form.len() - HEAD) as u64;
    match found.cmp(&length) {
        Ordering::Less => Err(MarshalBad { at: HEAD }),
        Ordering::Greater => Err(MarshalBad {
            at: HEAD + length as usize,
        }),
        Ordering::Equal => Ok((meta, HEAD)),
    }
}

/// The place of the contents in the form of a local file; or the first place at which bytes are no
/// such form, which is the one of the attributes in the form of another file.
pub fn unmarshal_local(form: &[u8]) -> Result<usize, MarshalBad>
    ensures place { IfOk result (λ at. at ≡ 44) }
    ensures form { OnOk result (IsLocalForm form.now (drop 44 form.now)) }
    ensures refused { IfErr result (λ bad. IsFirstBadLocal form.now bad.at) }
{
    let (meta, at) = unmarshal(form)?;
    if meta != LOCAL {
        return Err(MarshalBad { at: ATTRIBUTES_AT });
    }
    Ok(at)
}
