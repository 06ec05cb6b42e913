// What no contract says: that memory is found, and bytes written out by hand.
use frs_base::Guid;
use ndr_core::{ContextHandle, NdrBad, NdrError, Reader, Writer};
use std::alloc::{AllocError, Global};
use std::process::Abort;
use std::test::Fail;

fn expect_string(
    rt: &impl Abort,
    alloc: Global,
    bytes: &[u8],
    limit: u32,
    want: Result<&[u16], NdrBad>,
) {
    let mut r = Reader::new(bytes);
    match (r.take_string(alloc, limit), want) {
        (Ok(units), Ok(text)) => {
            assert!(rt; units.as_slice() == text, "{bytes:?}");
            assert_eq!(rt; r.at(), bytes.len(), "{bytes:?}");
        }
        (Err(NdrError::Bad(bad)), Err(why)) => {
            assert_eq!(rt; bad, why, "{bytes:?}");
            assert_eq!(rt; r.at(), 0, "{bytes:?}");
        }
        _ => assert!(rt; false, "{bytes:?}"),
    }
}

#[test]
fn wire_strings(rt: HostRuntime) {
    let alloc = rt.alloc();
    let whole = [0, 0, 0, 0, 2, 0, 0, 0, 0x78, 0, 0, 0];
    expect_string(&rt, alloc, &whole, 256, Ok(&[0x78]));
    expect_string(&rt, alloc, &whole, 2, Ok(&[0x78]));
    expect_string(&rt, alloc, &whole, 1, Err(NdrBad::Count { at: 0 }));
    expect_string(&rt, alloc, &whole[..10], 256, Err(NdrBad::Short { at: 0 }));
    expect_string(&rt, alloc, &whole[..10], 1, Err(NdrBad::Short { at: 0 }));
    expect_string(&rt, alloc, &[0; 8], 256, Err(NdrBad::Terminator { at: 0 }));
    let offset = [1, 0, 0, 0, 2, 0, 0, 0, 0x78, 0, 0, 0];
    expect_string(&rt, alloc, &offset, 256, Err(NdrBad::Count { at: 0 }));
    let early = [0, 0, 0, 0, 2, 0, 0, 0, 0, 0, 0, 0];
    expect_string(&rt, alloc, &early, 256, Err(NdrBad::Terminator { at: 0 }));
    let late = [0, 0, 0, 0, 2, 0, 0, 0, 0x78, 0, 0x79, 0];
    expect_string(&rt, alloc, &late, 256, Err(NdrBad::Terminator { at: 0 }));
    let huge = [0, 0, 0, 0, 0xff, 0xff, 0xff, 0xff, 0x78, 0, 0, 0];
    expect_string(&rt, alloc, &huge, 256, Err(NdrBad::Short { at: 0 }));
}

/// Every kind of item once, with the padding before it.
const ITEMS: [u8; 90] = [
    0x01, 0x00, 0x03, 0x02, 0x07, 0x06, 0x05, 0x04, 0x5f, 0x2e, 0x7e, 0x89, 0xf3, 0x93, 0x76, 0x43,
    0x9c, 0x9c, 0xfd, 0x22, 0x77, 0x49, 0x5c, 0x27, 0x08, 0x09, 0x0a, 0x0b, 0x0c, 0x0d, 0x0e, 0x0f,
    0x10, 0x00, 0x00, 0x00, 0x5f, 0x2e, 0x7e, 0x89, 0xf3, 0x93, 0x76, 0x43, 0x9c, 0x9c, 0xfd, 0x22,
    0x77, 0x49, 0x5c, 0x27, 0x03, 0x00, 0x00, 0x00, 0x00, 0x00, 0x00, 0x00, 0x02, 0x00, 0x00, 0x00,
    0x00, 0x00, 0x02, 0x00, 0x00, 0x00, 0x00, 0x00, 0x02, 0x00, 0x00, 0x00, 0x78, 0x00, 0x00, 0x00,
    0x00, 0x00, 0x13, 0x00, 0x00, 0x00, 0x00, 0x00, 0x14, 0x15,
];

/// The UUID of the interface FrsTransport.
const FRS_TRANSPORT: u128 = 0x897e2e5f_93f3_4376_9c9c_fd2277495c27;

fn put_numbers(out: &mut Writer) -> Result<(), AllocError> {
    let id = Guid::of_number(FRS_TRANSPORT);
    out.put_u8(0x01)?;
    out.put_u16(0x0203)?;
    out.put_u32(0x0405_0607)?;
    out.put_guid(id)?;
    out.put_u64(0x0f0e_0d0c_0b0a_0908)?;
    out.put_handle(ContextHandle {
        attributes: 0x10,
        id,
    })
}

fn put_arrays(out: &mut Writer) -> Result<(), AllocError> {
    out.put_conformant(3)?;
    out.put_varying(2)?;
    out.put_unique(true)?;
    out.put_string(&[0x78])?;
    out.put_reserved(2)?;
    out.put_array(&[0x13])?;
    out.align(8)?;
    out.put_bytes(&[0x14, 0x15])
}

#[test]
fn items_are_written(rt: HostRuntime) -> Result<(), Fail> {
    let mut out = Writer::over(Vec::with_capacity(rt.alloc(), 8)?);
    assert!(rt; put_numbers(&mut out).is_ok());
    assert!(rt; put_arrays(&mut out).is_ok());
    assert!(rt; out.into_vec().as_slice() == ITEMS.as_slice());
    Ok(())
}

fn take_numbers(rt: &impl Abort, r: &mut Reader) -> Result<(), NdrBad> {
    assert_eq!(rt; r.take_u8()?, 0x01);
    assert_eq!(rt; r.take_u16()?, 0x0203);
    assert_eq!(rt; r.take_u32()?, 0x0405_0607);
    assert_eq!(rt; r.take_guid()?.number(), FRS_TRANSPORT);
    assert_eq!(rt; r.take_u64()?, 0x0f0e_0d0c_0b0a_0908);
    let handle = r.take_handle()?;
    assert_eq!(rt; handle.attributes, 0x10);
    assert_eq!(rt; handle.id.number(), FRS_TRANSPORT);
    Ok(())
}

fn take_counts(rt: &impl Abort, r: &mut Reader) -> Result<(), NdrBad> {
    assert_eq!(rt; r.take_conformant(3)?, 3);
    assert_eq!(rt; r.take_varying(2)?, 2);
    assert!(rt; r.take_unique()?);
    Ok(())
}

fn take_last(rt: &impl Abort, r: &mut Reader) -> Result<(), NdrBad> {
    r.take_reserved(2)?;
    assert_eq!(rt; r.take_array::<1>()?, [0x13]);
    r.align(8)
}

#[test]
fn items_are_read(rt: HostRuntime) {
    let mut r = Reader::new(&ITEMS);
    assert_eq!(rt; take_numbers(&rt, &mut r), Ok(()));
    assert_eq!(rt; take_counts(&rt, &mut r), Ok(()));
    match r.take_string(rt.alloc(), 2) {
        Ok(text) => assert!(rt; text.as_slice() == [0x78].as_slice()),
        Err(_) => assert!(rt; false),
    }
    assert_eq!(rt; take_last(&rt, &mut r), Ok(()));
    match r.take_bytes(rt.alloc(), 2) {
        Ok(last) => assert!(rt; last.as_slice() == [0x14, 0x15].as_slice()),
        Err(_) => assert!(rt; false),
    }
    assert!(rt; r.is_done());
}

#[test]
fn refusals_name_the_place_behind_padding(rt: HostRuntime) {
    let bytes = [1, 0, 0, 0, 2, 0, 0, 0, 3, 0];
    let mut r = Reader::new(&bytes);
    let _byte = r.take_u8();
    assert_eq!(rt; r.take_conformant(1), Err(NdrBad::Count { at: 4 }));
    assert_eq!(rt; r.take_varying(3), Err(NdrBad::Short { at: 4 }));
    assert_eq!(rt; r.take_handle(), Err(NdrBad::Short { at: 4 }));
    assert_eq!(rt; r.take_u64(), Err(NdrBad::Short { at: 8 }));
    assert_eq!(rt; r.at(), 1);
    let _word = r.take_u32();
    let _last = r.take_u8();
    assert_eq!(rt; r.take_u64(), Err(NdrBad::Short { at: 16 }));
    assert_eq!(rt; r.align(8), Err(NdrBad::Short { at: 9 }));
    let mut whole = Reader::new(&bytes[..8]);
    assert_eq!(rt; whole.take_varying(3), Err(NdrBad::Count { at: 0 }));
    assert_eq!(rt; NdrBad::Rest { at: 7 }.place(), 7);
}
