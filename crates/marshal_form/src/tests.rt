// What no contract says: that memory is found, and forms written out by hand.
use super::*;
use std::process::Abort;
use std::test::Fail;

/// The form of a file with the contents `hi`.
const HI: [u8; 46] = [
    0x46, 0x52, 0x53, 0x4d, 0x01, 0x00, 0x00, 0x00, 0x01, 0x00, 0x00, 0x00, 0x00, 0x00, 0x00, 0x00,
    0x04, 0x00, 0x00, 0x00, 0x00, 0x00, 0x00, 0x00, 0x20, 0x00, 0x00, 0x00, 0x02, 0x00, 0x00, 0x00,
    0x00, 0x00, 0x00, 0x00, 0x02, 0x00, 0x00, 0x00, 0x00, 0x00, 0x00, 0x00, 0x68, 0x69,
];

/// The form of a file with no contents.
const EMPTY: [u8; 44] = [
    0x46, 0x52, 0x53, 0x4d, 0x01, 0x00, 0x00, 0x00, 0x01, 0x00, 0x00, 0x00, 0x00, 0x00, 0x00, 0x00,
    0x04, 0x00, 0x00, 0x00, 0x00, 0x00, 0x00, 0x00, 0x20, 0x00, 0x00, 0x00, 0x02, 0x00, 0x00, 0x00,
    0x00, 0x00, 0x00, 0x00, 0x00, 0x00, 0x00, 0x00, 0x00, 0x00, 0x00, 0x00,
];

fn expect_bad(rt: &impl Abort, form: &[u8], at: usize) {
    assert_eq!(rt; unmarshal(form), Err(MarshalBad { at }), "{form:?}");
}

#[test]
fn wire_marshalled(rt: HostRuntime) -> Result<(), Fail> {
    assert_eq!(rt; unmarshal(&HI)?, (LOCAL, 44));
    expect_bad(&rt, &HI[..45], 44);
    let mut flagged = HI;
    flagged[32] = 0x01;
    expect_bad(&rt, &flagged, 32);
    let mut longer = Vec::from_slice(rt.alloc(), &HI)?;
    longer.push(0x21)?;
    expect_bad(&rt, &longer, 46);
    Ok(())
}

/// Lengths from one up to another, and the field that is missing or cut off at these.
const CUTS: [(usize, usize, usize); 10] = [
    (0, 4, 0),
    (4, 8, 4),
    (8, 12, 8),
    (12, 16, 12),
    (16, 24, 16),
    (24, 28, 24),
    (28, 32, 28),
    (32, 36, 32),
    (36, 44, 36),
    (44, 46, 44),
];

#[test]
fn cut_forms_name_the_field_that_is_cut_off(rt: HostRuntime) {
    for (from, to, at) in CUTS {
        for length in from..to {
            assert!(rt; length <= HI.len());
            expect_bad(&rt, &HI[..length], at);
        }
    }
    assert_eq!(rt; unmarshal(&HI[..46]), Ok((LOCAL, 44)));
}

/// Where fields of stated bytes begin and end.
const FIXED: [(usize, usize); 7] = [
    (0, 4),
    (4, 8),
    (8, 12),
    (12, 16),
    (16, 24),
    (28, 32),
    (32, 36),
];

#[test]
fn changed_bytes_name_their_field(rt: HostRuntime) {
    for (at, end) in FIXED {
        for place in at..end {
            assert!(rt; place < HI.len());
            let mut form = HI;
            form[place] ^= 0x80;
            expect_bad(&rt, &form, at);
            form[place] ^= 0x81;
            expect_bad(&rt, &form, at);
        }
    }
}

#[test]
fn directories_have_no_form(rt: HostRuntime) {
    let mut form = HI;
    for attributes in [0x10, 0x30, 0xff] {
        form[24] = attributes;
        expect_bad(&rt, &form, 24);
    }
    form[24] = 0x21;
    form[27] = 0x80;
    assert_eq!(rt;
        unmarshal(&form),
        Ok((
            Meta {
                attributes: 0x8000_0021
            },
            44
        ))
    );
}

#[test]
fn lengths_end_where_the_contents_do(rt: HostRuntime) {
    let mut form = HI;
    for (length, at) in [(0, 44), (1, 45), (3, 44), (0xff, 44)] {
        form[36] = length;
        expect_bad(&rt, &form, at);
    }
    for place in 36..44 {
        form[place] = 0xff;
    }
    expect_bad(&rt, &form, 44);
    form[36] = 0xd4;
    expect_bad(&rt, &form, 44);
}

#[test]
fn files_are_marshalled(rt: HostRuntime) -> Result<(), Fail> {
    assert!(rt; LOCAL.is_file());
    assert_eq!(rt;
        marshal(rt.alloc(), LOCAL, b"hi")?.as_slice(),
        HI.as_slice()
    );
    assert_eq!(rt;
        marshal(rt.alloc(), LOCAL, b"")?.as_slice(),
        EMPTY.as_slice()
    );
    assert_eq!(rt; unmarshal(&EMPTY)?, (LOCAL, 44));
    Ok(())
}

/// What `sha1sum` says of [`HI`].
const HI_SUM: [u8; 20] = [
    0x23, 0x3d, 0x31, 0x19, 0xee, 0xf9, 0x4b, 0x3c, 0x5d, 0x27, 0x9f, 0xb6, 0xf3, 0x96, 0x0f, 0xbb,
    0x04, 0xc7, 0x1c, 0xb0,
];

/// What `sha1sum` says of [`EMPTY`].
const EMPTY_SUM: [u8; 20] = [
    0x09, 0xe7, 0x17, 0x68, 0x28, 0x4d, 0xae, 0x92, 0x8d, 0x5b, 0xad, 0x02, 0x58, 0x1d, 0xe9, 0x6e,
    0xf2, 0xd9, 0x82, 0x69,
];

#[test]
fn sums_are_those_of_sha1sum(rt: HostRuntime) {
    assert_eq!(rt; sum(&HI), HI_SUM);
    assert_eq!(rt; sum(&EMPTY), EMPTY_SUM);
}

#[test]
fn contents_have_the_sum_of_their_form(rt: HostRuntime) {
    assert_eq!(rt; local_sum(b"hi"), HI_SUM);
    assert_eq!(rt; local_sum(b"hi"), sum(&HI));
    assert_eq!(rt; local_sum(b""), EMPTY_SUM);
}

/// A form keeps the sum of its bytes, whether it was hashed or was known.
#[test]
fn forms_keep_their_sum(rt: HostRuntime) -> Result<(), Fail> {
    let form = Form::of(rt.alloc(), Vec::from_slice(rt.alloc(), &HI)?)?;
    let local = Form::of_local(rt.alloc(), b"hi", local_sum(b"hi"))?.copy()?;
    assert_eq!(rt; (form.as_slice(), form.sum()), (HI.as_slice(), HI_SUM));
    assert_eq!(rt; (local.as_slice(), local.sum()), (HI.as_slice(), HI_SUM));
    Ok(())
}

#[test]
fn heads_begin_forms(rt: HostRuntime) -> Result<(), Fail> {
    assert_eq!(rt; head(2).as_slice(), &HI[..44]);
    assert!(rt; marshal(rt.alloc(), LOCAL, b"hi")?.starts_with(&head(2)));
    assert_eq!(rt; head(0), EMPTY);
    let mut long = EMPTY;
    for (place, byte) in [(36, 0x08), (37, 0x07), (38, 0x06), (39, 0x05), (43, 0x01)] {
        long[place] = byte;
    }
    assert_eq!(rt; head(0x0100_0000_0506_0708), long);
    Ok(())
}

#[test]
fn refusals_tell_the_place(rt: HostRuntime) -> Result<(), Fail> {
    let text = MarshalBad { at: 44 }.to_string(rt.alloc())?;
    assert_eq!(rt; text.as_str(), "no marshalled form at byte 44");
    Ok(())
}

/// A form with other attributes is none of a local file, from the place of the attributes on; what is
/// no form at all is refused where it first isn't.
#[test]
fn forms_of_local_files_have_their_attributes(rt: HostRuntime) {
    assert_eq!(rt; unmarshal_local(&HI), Ok(44));
    let mut other = HI;
    other[24] = 0x22;
    assert_eq!(rt; unmarshal(&other), Ok((Meta { attributes: 0x22 }, 44)));
    assert_eq!(rt; unmarshal_local(&other), Err(MarshalBad { at: 24 }));
    other[32] = 0x01;
    assert_eq!(rt; unmarshal_local(&other), Err(MarshalBad { at: 32 }));
}
