// What no contract says: that memory is found, and PDUs written out by hand.
use rpc_pdu::{Bind, BindAck, BindNak, Fault, Pdu, PduBad, PduBody, PduError, decode, encode};
use std::alloc::Global;
use std::process::Abort;
use std::test::Fail;

/// The bind of a client, call 1.
const BIND: [u8; 72] = [
    0x05, 0x00, 0x0b, 0x03, 0x10, 0x00, 0x00, 0x00, 0x48, 0x00, 0x00, 0x00, 0x01, 0x00, 0x00, 0x00,
    0x98, 0x05, 0x98, 0x05, 0x00, 0x00, 0x00, 0x00, 0x01, 0x00, 0x00, 0x00, 0x00, 0x00, 0x01, 0x00,
    0x5f, 0x2e, 0x7e, 0x89, 0xf3, 0x93, 0x76, 0x43, 0x9c, 0x9c, 0xfd, 0x22, 0x77, 0x49, 0x5c, 0x27,
    0x01, 0x00, 0x00, 0x00, 0x04, 0x5d, 0x88, 0x8a, 0xeb, 0x1c, 0xc9, 0x11, 0x9f, 0xe8, 0x08, 0x00,
    0x2b, 0x10, 0x48, 0x60, 0x02, 0x00, 0x00, 0x00,
];

/// Its bind_ack.
const BIND_ACK: [u8; 56] = [
    0x05, 0x00, 0x0c, 0x03, 0x10, 0x00, 0x00, 0x00, 0x38, 0x00, 0x00, 0x00, 0x01, 0x00, 0x00, 0x00,
    0x98, 0x05, 0x98, 0x05, 0x01, 0x00, 0x00, 0x00, 0x00, 0x00, 0x00, 0x00, 0x01, 0x00, 0x00, 0x00,
    0x00, 0x00, 0x00, 0x00, 0x04, 0x5d, 0x88, 0x8a, 0xeb, 0x1c, 0xc9, 0x11, 0x9f, 0xe8, 0x08, 0x00,
    0x2b, 0x10, 0x48, 0x60, 0x02, 0x00, 0x00, 0x00,
];

/// A request with opnum 6, call 2, and no stub.
const REQUEST: [u8; 24] = [
    0x05, 0x00, 0x00, 0x03, 0x10, 0x00, 0x00, 0x00, 0x18, 0x00, 0x00, 0x00, 0x02, 0x00, 0x00, 0x00,
    0x00, 0x00, 0x00, 0x00, 0x00, 0x00, 0x06, 0x00,
];

/// The answer to it.
const FAULT: [u8; 32] = [
    0x05, 0x00, 0x03, 0x03, 0x10, 0x00, 0x00, 0x00, 0x20, 0x00, 0x00, 0x00, 0x02, 0x00, 0x00, 0x00,
    0x00, 0x00, 0x00, 0x00, 0x00, 0x00, 0x00, 0x00, 0x02, 0x00, 0x01, 0x1c, 0x00, 0x00, 0x00, 0x00,
];

/// A bind_nak, call 1, as it is written.
const NAK: [u8; 21] = [
    0x05, 0x00, 0x0d, 0x03, 0x10, 0x00, 0x00, 0x00, 0x15, 0x00, 0x00, 0x00, 0x01, 0x00, 0x00, 0x00,
    0x04, 0x00, 0x01, 0x05, 0x00,
];

/// The interface FrsTransport.
const FRS_TRANSPORT: u128 = 0x897e2e5f_93f3_4376_9c9c_fd2277495c27;

/// The transfer syntax NDR.
const NDR: u128 = 0x8a885d04_1ceb_11c9_9fe8_08002b104860;

fn is_bind(bind: &Bind) -> bool {
    let [element] = bind.contexts.as_slice() else {
        return false;
    };
    let [transfer] = element.transfers.as_slice() else {
        return false;
    };
    bind.xmit == 1432
        && bind.recv == 1432
        && bind.group == 0
        && element.id == 0
        && element.interface.id.number() == FRS_TRANSPORT
        && element.interface.version == 1
        && transfer.id.number() == NDR
        && transfer.version == 2
}

fn is_ack(ack: &BindAck) -> bool {
    let [outcome] = ack.results.as_slice() else {
        return false;
    };
    ack.xmit == 1432
        && ack.recv == 1432
        && ack.group == 1
        && outcome.result == 0
        && outcome.reason == 0
        && outcome.transfer.id.number() == NDR
        && outcome.transfer.version == 2
}

#[test]
fn wire_bind(rt: HostRuntime) -> Result<(), Fail> {
    let Some((pdu, size)) = decode(rt.alloc(), &BIND)? else {
        return Err(Fail::from("no bind"));
    };
    assert_eq!(rt; size, 72);
    assert_eq!(rt; pdu.call, 1);
    assert_eq!(rt; pdu.flags, 3);
    assert!(rt; matches!(&pdu.body, PduBody::Bind(bind) if is_bind(bind)));
    Ok(())
}

#[test]
fn wire_bind_ack(rt: HostRuntime) -> Result<(), Fail> {
    let Some((pdu, size)) = decode(rt.alloc(), &BIND_ACK)? else {
        return Err(Fail::from("no bind_ack"));
    };
    assert_eq!(rt; size, 56);
    assert!(rt; matches!(&pdu.body, PduBody::BindAck(ack) if is_ack(ack)));
    Ok(())
}

fn expect_written(rt: &impl Abort, written: &[u8], want: &[u8]) {
    assert!(rt; written == want, "{written:?}");
}

#[test]
fn wire_unknown_opnum(rt: HostRuntime) -> Result<(), Fail> {
    let fault = Pdu {
        call: 2,
        flags: 3,
        body: PduBody::Fault(Fault {
            context: 0,
            status: 0x1c01_0002,
        }),
    };
    expect_written(&rt, &encode(rt.alloc(), &fault)?, &FAULT);
    let Some((pdu, size)) = decode(rt.alloc(), &REQUEST)? else {
        return Err(Fail::from("no request"));
    };
    assert_eq!(rt; size, 24);
    assert!(rt;
        matches!(&pdu.body, PduBody::Request(r) if r.opnum == 6 && r.stub.as_slice().is_empty())
    );
    Ok(())
}

#[test]
fn wire_bind_nak(rt: HostRuntime) -> Result<(), Fail> {
    let nak = Pdu {
        call: 1,
        flags: 3,
        body: PduBody::BindNak(BindNak { reason: 4 }),
    };
    expect_written(&rt, &encode(rt.alloc(), &nak)?, &NAK);
    Ok(())
}

fn bad_at(alloc: Global, pdu: &[u8], place: usize, byte: u8) -> Option<PduBad> {
    let Ok(mut bytes) = Vec::from_slice(alloc, pdu) else {
        return None;
    };
    if place < bytes.len() {
        bytes[place] = byte;
    }
    match decode(alloc, &bytes) {
        Err(PduError::Bad(bad)) => Some(bad),
        _ => None,
    }
}

#[test]
fn wire_decode_refusals(rt: HostRuntime) {
    let alloc = rt.alloc();
    for size in 0..72 {
        assert!(rt; size <= BIND.len());
        assert!(rt; matches!(decode(alloc, &BIND[..size]), Ok(None)), "{size}");
    }
    for (place, byte, want) in [
        (0, 4, PduBad::Version),
        (1, 2, PduBad::Version),
        (2, 0x0e, PduBad::Kind),
        (2, 0x0f, PduBad::Kind),
        (2, 1, PduBad::Kind),
        (4, 0, PduBad::Drep),
        (5, 1, PduBad::Drep),
        (8, 0x0f, PduBad::Length),
        (9, 0x17, PduBad::Length),
        (10, 8, PduBad::Auth),
        (8, 0x10, PduBad::Body { at: 16 }),
        (8, 0x1a, PduBad::Body { at: 25 }),
        (8, 0x2f, PduBad::Body { at: 32 }),
        (8, 0x33, PduBad::Body { at: 48 }),
        (8, 0x47, PduBad::Body { at: 68 }),
        (30, 0, PduBad::Body { at: 52 }),
        (24, 2, PduBad::Body { at: 72 }),
    ] {
        assert_eq!(rt; bad_at(alloc, &BIND, place, byte), Some(want), "{place}");
    }
    for (place, byte) in [(1, 1), (6, 9), (7, 9), (26, 1), (31, 1)] {
        assert_eq!(rt; bad_at(alloc, &BIND, place, byte), None, "{place}");
    }
    assert_eq!(rt;
        bad_at(alloc, &REQUEST, 3, 0x83),
        Some(PduBad::Body { at: 3 })
    );
    assert_eq!(rt;
        bad_at(alloc, &FAULT, 8, 0x1b),
        Some(PduBad::Body { at: 24 })
    );
    assert_eq!(rt;
        bad_at(alloc, &BIND_ACK, 24, 40),
        Some(PduBad::Body { at: 26 })
    );
}
