// What no contract says: that memory is found, and fragments written out by hand.
ghost use Rattle.std.specs.Prelude.{IfOk, IsTrue};
ghost use Rattle.rpc_frag.specs.Fragments.{IsPart};

use frs_base::Bytes;
use rpc_frag::{Assembler, FragBad, FragError, Splitter, Whole, any_cut_of_any_decoder, cut};
use rpc_pdu::{Pdu, PduBad, PduBody, Request, Response};
use std::alloc::{AllocError, Global};
use std::process::Abort;
use std::test::Fail;

/// A part of a call with opnum 3 and one byte of its stub.
fn part(alloc: Global, call: u32, flags: u8) -> Result<Pdu, AllocError>
    ensures { IfOk result (λ pdu. IsPart pdu.body) }
{
    let stub = Bytes::of(Vec::from_slice(alloc, &[flags])?);
    Ok(Pdu {
        call,
        flags,
        body: PduBody::Request(Request {
            hint: 1,
            context: 0,
            opnum: 3,
            stub,
        }),
    })
}

fn expect_order(
    rt: &impl Abort,
    alloc: Global,
    parts: &[(u32, u8)],
    want: bool,
) -> Result<(), AllocError> {
    let mut assembler = Assembler::new();
    let mut order = true;
    for (call, flags) in parts {
        match assembler.feed(part(alloc, *call, *flags)?) {
            Err(FragError::Bad(FragBad::FragOrder)) => order = false,
            _ => {}
        }
    }
    assert_eq!(rt; order, want, "{parts:?}");
    Ok(())
}

#[test]
fn wire_fragment_order(rt: HostRuntime) -> Result<(), Fail> {
    let alloc = rt.alloc();
    expect_order(&rt, alloc, &[(7, 1), (7, 1)], false)?;
    expect_order(&rt, alloc, &[(7, 0)], false)?;
    expect_order(&rt, alloc, &[(7, 1), (8, 0)], false)?;
    expect_order(&rt, alloc, &[(7, 1), (7, 0), (7, 2), (8, 3)], true)?;
    Ok(())
}

/// A part of an answer with so many bytes of its stub.
fn long_part(alloc: Global, flags: u8, size: usize) -> Result<Pdu, AllocError>
    ensures { IfOk result (λ pdu. IsPart pdu.body) }
{
    let stub = Bytes::of(vec![in alloc; 0u8; size]?);
    Ok(Pdu {
        call: 7,
        flags,
        body: PduBody::Response(Response {
            hint: 0,
            context: 0,
            stub,
        }),
    })
}

/// Why a part is refused, if it is.
fn refusal(assembler: &mut Assembler, pdu: Pdu) -> Option<FragBad>
    requires { IsPart pdu.body }
{
    match assembler.feed(pdu) {
        Err(FragError::Bad(bad)) => Some(bad),
        _ => None,
    }
}

#[test]
fn a_stub_has_at_most_8_388_608_bytes(rt: HostRuntime) -> Result<(), Fail> {
    let alloc = rt.alloc();
    let mut assembler = Assembler::new();
    let too_long = FragBad::FragTooLong { length: 8_388_609 };
    for (flags, size, want) in [
        (1, 8_388_607, None),
        (0, 1, None),
        (2, 1, Some(too_long)),
        (2, 1, Some(FragBad::FragOrder)),
        (3, 8_388_609, Some(too_long)),
        (3, 8_388_608, None),
    ] {
        let found = refusal(&mut assembler, long_part(alloc, flags, size)?);
        assert_eq!(rt; found, want, "{flags} {size}");
    }
    Ok(())
}

#[test]
fn any_decoder_is_cut_alike() {
    any_cut_of_any_decoder::<Pdu, PduBad>();
}

/// Appends the bytes of a response's fragment, and tells whether it is one.
fn frame(out: &mut Vec<u8>, pdu: &Pdu) -> Result<bool, AllocError> {
    let PduBody::Response(response) = &pdu.body else {
        return Ok(false);
    };
    let stub = response.stub.as_slice();
    let Ok(size) = u16::try_from(stub.len()) else {
        return Ok(false);
    };
    out.extend_from_slice(&[5, 0, 2, pdu.flags, 0x10, 0, 0, 0])?;
    out.extend_from_slice(&size.saturating_add(24).to_le_bytes())?;
    out.extend_from_slice(&[0, 0])?;
    out.extend_from_slice(&pdu.call.to_le_bytes())?;
    out.extend_from_slice(&response.hint.to_le_bytes())?;
    out.extend_from_slice(&response.context.to_le_bytes())?;
    out.extend_from_slice(&[0, 0])?;
    out.extend_from_slice(stub)?;
    Ok(true)
}

/// The call that a stream gives, fed one byte at a time.
fn fed(alloc: Global, stream: &[u8]) -> Option<Whole> {
    let mut splitter = Splitter::new(alloc);
    let mut assembler = Assembler::new();
    for byte in stream {
        if splitter.push(alloc, &[*byte]).is_err() {
            return None;
        }
        if let Ok(Some(pdu)) = splitter.take(alloc) {
            if !is_response(&pdu) {
                return None;
            }
            match assembler.feed(pdu) {
                Ok(None) => {}
                Ok(Some(whole)) => return Some(whole),
                Err(_) => return None,
            }
        }
    }
    None
}

fn is_response(pdu: &Pdu) -> bool
    ensures { IsTrue result → IsPart pdu.now.body }
{
    match &pdu.body {
        PduBody::Response(_) => true,
        _ => false,
    }
}

#[test]
fn fragments(rt: HostRuntime) -> Result<(), Fail> {
    let alloc = rt.alloc();
    let mut stub = Vec::new(alloc);
    for i in 0..56_320_u32 {
        stub.push((i % 251) as u8)?;
    }
    assert!(rt; stub.len() == 56_320);
    let whole = Whole {
        call: 9,
        context: 2,
        opnum: 0,
        stub: Bytes::of(stub),
    };
    let parts = cut(alloc, &whole, true, 1432)?;
    assert_eq!(rt; parts.len(), 40);
    let mut stream = Vec::new(alloc);
    for pdu in &parts {
        assert!(rt; frame(&mut stream, pdu)?);
    }
    assert_eq!(rt; stream.len(), 40 * 1432);
    assert!(rt; fed(alloc, &stream) == Some(whole));
    Ok(())
}
