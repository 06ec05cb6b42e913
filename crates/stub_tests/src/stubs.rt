// What no contract says: that memory is found, and stubs written out by hand.
ghost use Rattle.ndr_frs.specs.Requests.{IsStatedRequest};
ghost use Rattle.ndr_frs.specs.Replies.{IsStatedReply};

use frs_base::{Bytes, Guid, Gvsn, List, Name, NameError, Sum, Uid, content_set, database_of};
use ndr_core::{ContextHandle, NdrBad};
use ndr_frs::{
    FrsReply, FrsRequest, StubBad, StubError, read_reply, read_request, write_reply, write_request,
};
use std::alloc::Global;
use std::process::Abort;
use std::test::Fail;
use version_vector::Interval;
use win_order::Update;

fn expect_bad_request(rt: &impl Abort, alloc: Global, opnum: u16, stub: &[u8], want: StubBad) {
    match read_request(alloc, opnum, stub) {
        Err(StubError::Bad(bad)) => assert_eq!(rt; bad, want, "{opnum}"),
        _ => assert!(rt; false, "{opnum}"),
    }
}

fn expect_bad_reply(rt: &impl Abort, alloc: Global, opnum: u16, stub: &[u8], want: NdrBad) {
    match read_reply(alloc, opnum, stub) {
        Err(StubError::Bad(bad)) => assert_eq!(rt; bad, StubBad::Item(want), "{opnum}"),
        _ => assert!(rt; false, "{opnum}"),
    }
}

/// Zeros, but for these bytes at these places.
fn zeros_but<const N: usize>(places: &[(usize, u8)]) -> [u8; N] {
    let mut stub = [0; N];
    for (at, byte) in places {
        if let Some(found) = stub.get_mut(*at) {
            *found = *byte;
        }
    }
    stub
}

#[test]
fn wire_bad_stubs(rt: HostRuntime) {
    let alloc = rt.alloc();
    let ones = [1; 64];
    let item = |bad: NdrBad| StubBad::Item(bad);
    expect_bad_request(&rt, alloc, 3, &ones[..3], item(NdrBad::Short { at: 0 }));
    expect_bad_request(&rt, alloc, 6, &ones[..0], StubBad::Opnum);
    expect_bad_request(&rt, alloc, 0, &ones[..33], item(NdrBad::Rest { at: 32 }));
    expect_bad_request(&rt, alloc, 12, &ones[..19], item(NdrBad::Short { at: 0 }));
    expect_bad_request(&rt, alloc, 4, &ones[..44], item(NdrBad::Value { at: 36 }));
    expect_bad_request(&rt, alloc, 3, &ones, item(NdrBad::Value { at: 40 }));
    // The array's count isn't the one before it, or is too large; its element is cut off.
    let other: [u8; 52] = zeros_but(&[(44, 2), (48, 1)]);
    expect_bad_request(&rt, alloc, 3, &other, item(NdrBad::Value { at: 48 }));
    let large: [u8; 52] = zeros_but(&[(46, 3), (50, 3)]);
    expect_bad_request(&rt, alloc, 3, &large, item(NdrBad::Count { at: 48 }));
    let cut: [u8; 52] = zeros_but(&[(44, 1), (48, 1)]);
    expect_bad_request(&rt, alloc, 3, &cut, item(NdrBad::Short { at: 52 }));
}

#[test]
fn bad_replies(rt: HostRuntime) {
    let alloc = rt.alloc();
    let page = |places: &[(usize, u8)]| zeros_but::<53>(places);
    expect_bad_reply(
        &rt,
        alloc,
        3,
        &page(&[(0, 1), (1, 1)]),
        NdrBad::Count { at: 0 },
    );
    expect_bad_reply(&rt, alloc, 3, &page(&[(4, 1)]), NdrBad::Count { at: 4 });
    expect_bad_reply(&rt, alloc, 3, &page(&[(8, 1)]), NdrBad::Count { at: 4 });
    expect_bad_reply(&rt, alloc, 3, &page(&[(16, 1)]), NdrBad::Value { at: 16 });
    expect_bad_reply(&rt, alloc, 3, &page(&[]), NdrBad::Rest { at: 52 });
    expect_bad_reply(&rt, alloc, 5, &page(&[(4, 2)]), NdrBad::Value { at: 4 });
    let vector: [u8; 53] = page(&[(20, 1), (24, 1), (26, 1)]);
    expect_bad_reply(&rt, alloc, 5, &vector, NdrBad::Count { at: 24 });
    // Of an update: a flag that is 2, and names that are empty, `/` and cut off.
    let file = |places: &[(usize, u8)]| zeros_but::<180>(places);
    expect_bad_reply(&rt, alloc, 13, &file(&[(0, 2)]), NdrBad::Value { at: 0 });
    expect_bad_reply(&rt, alloc, 13, &file(&[]), NdrBad::Terminator { at: 168 });
    let slash = file(&[(172, 2), (176, 0x2f)]);
    expect_bad_reply(&rt, alloc, 13, &slash, NdrBad::Value { at: 168 });
    expect_bad_reply(
        &rt,
        alloc,
        13,
        &file(&[(172, 9)]),
        NdrBad::Short { at: 168 },
    );
}

fn expect_request(rt: &impl Abort, alloc: Global, opnum: u16, request: &FrsRequest, want: &[u8])
    requires { IsStatedRequest request.now }
{
    match write_request(alloc, request) {
        Ok(stub) => assert!(rt; stub.as_slice() == want, "{opnum}"),
        Err(_) => assert!(rt; false, "{opnum}"),
    }
    match read_request(alloc, opnum, want) {
        Ok(found) => assert!(rt; found == *request, "{opnum}"),
        Err(_) => assert!(rt; false, "{opnum}"),
    }
}

fn expect_reply(rt: &impl Abort, alloc: Global, opnum: u16, reply: &FrsReply, want: &[u8])
    requires { IsStatedReply reply.now }
{
    match write_reply(alloc, reply) {
        Ok(stub) => assert!(rt; stub.as_slice() == want, "{opnum}"),
        Err(_) => assert!(rt; false, "{opnum}"),
    }
    match read_reply(alloc, opnum, want) {
        Ok(found) => assert!(rt; found == *reply, "{opnum}"),
        Err(_) => assert!(rt; false, "{opnum}"),
    }
}

/// The versions 9 to 11 of a database.
fn versions() -> Interval {
    Interval {
        db: Guid::of_number(0x10203),
        low: 9,
        high: 12,
    }
}

#[test]
fn handles_are_written(rt: HostRuntime) {
    let handle = ContextHandle {
        attributes: 0,
        id: Guid::of_number(0xa0000000_0000_4000_8000_000000000001),
    };
    let want = [
        0, 0, 0, 0, 0, 0, 0, 0xa0, 0, 0, 0, 0x40, 0x80, 0, 0, 0, 0, 0, 0, 1,
    ];
    expect_request(&rt, rt.alloc(), 12, &FrsRequest::RdcClose { handle }, &want);
}

#[test]
fn differences_are_written(rt: HostRuntime) -> Result<(), Fail> {
    let diff = List::of(Vec::from_slice(rt.alloc(), &[versions()])?);
    let page = FrsRequest::RequestUpdates {
        connection: Guid::of_number(1),
        content_set: Guid::of_number(2),
        credits: 256,
        hash_requested: 0,
        kind: 2,
        diff_count: 1,
        diff,
    };
    let want: [u8; 88] = zeros_but(&[
        (15, 1),
        (31, 2),
        (33, 1),
        (40, 2),
        (44, 1),
        (48, 1),
        (69, 1),
        (70, 2),
        (71, 3),
        (72, 9),
        (80, 12),
    ]);
    expect_request(&rt, rt.alloc(), 3, &page, &want);
    Ok(())
}

#[test]
fn vectors_are_written(rt: HostRuntime) -> Result<(), Fail> {
    let vector = List::of(Vec::from_slice(rt.alloc(), &[versions()])?);
    let poll = FrsReply::AsyncPoll {
        sequence: 7,
        status: 0,
        generation: 5,
        count: 1,
        vector: Some(vector),
        rc: 0,
    };
    let want: [u8; 68] = zeros_but(&[
        (0, 7),
        (8, 5),
        (16, 1),
        (22, 2),
        (24, 1),
        (45, 1),
        (46, 2),
        (47, 3),
        (48, 9),
        (56, 12),
    ]);
    expect_reply(&rt, rt.alloc(), 5, &poll, &want);
    Ok(())
}

#[test]
fn bytes_are_written(rt: HostRuntime) -> Result<(), Fail> {
    let bytes = Bytes::of(Vec::from_slice(rt.alloc(), b"hi")?);
    let data = FrsReply::RawGetFileData {
        maximum: 4,
        bytes,
        size_read: 2,
        is_end: 1,
        rc: 0,
    };
    let want = [
        4, 0, 0, 0, 0, 0, 0, 0, 2, 0, 0, 0, 0x68, 0x69, 0, 0, 2, 0, 0, 0, 1, 0, 0, 0, 0, 0, 0, 0,
    ];
    expect_reply(&rt, rt.alloc(), 8, &data, &want);
    Ok(())
}

/// A file named `x`.
fn sample(alloc: Global) -> Result<Update, NameError> {
    let uid = Uid {
        db: database_of(1),
        version: 9,
    };
    let parent = uid;
    let name = Name::from_units(alloc, &[0x78])?;
    Ok(Update {
        present: true,
        name_conflict: false,
        attributes: 0x20,
        fence: 3,
        clock: 131_000,
        created: 130_000,
        set: content_set(),
        hash: Sum([7; 20]),
        similarity: [5; 16],
        uid,
        gvsn: Gvsn {
            db: database_of(2),
            version: 12,
        },
        parent,
        name,
        flags: 2,
    })
}

fn try_file(rt: &impl Abort, alloc: Global, file: &FrsRequest)
    requires { IsStatedRequest file.now }
{
    match write_request(alloc, file) {
        Ok(stub) => {
            assert!(rt; stub.len() == 212);
            assert!(rt; stub[16..24] == [1, 0, 0, 0, 0, 0, 0, 0]);
            assert!(rt; stub[184..200] == [0, 0, 0, 0, 2, 0, 0, 0, 0x78, 0, 0, 0, 2, 0, 0, 0]);
            expect_request(rt, alloc, 13, file, &stub);
        }
        Err(_) => assert!(rt; false),
    }
}

#[test]
fn an_update_named_x_has_184_bytes(rt: HostRuntime) -> Result<(), Fail> {
    let update = sample(rt.alloc())?;
    let file = FrsRequest::InitializeFileTransferAsync {
        connection: Guid::of_number(1),
        update,
        rdc_desired: 0,
        policy: 0,
        buffer_size: 32_768,
    };
    try_file(&rt, rt.alloc(), &file);
    Ok(())
}
