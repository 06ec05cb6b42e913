// What every PDU begins with.
ghost use Rattle.std.specs.Prelude.{◌≡◌, ◌≤◌, OnOk};
ghost use Rattle.ndr_core.specs.Calls.{Reads};
ghost use Rattle.rpc_pdu.specs.Headers.{header_item, is_kind, judged};

use crate::PduBad;
use ndr_core::{NdrBad, Reader, Writer};
use std::alloc::AllocError;

/// How many bytes the header has.
pub(crate) const HEADER: u16 = 16;

/// The most bytes that a PDU has.
pub(crate) const LONGEST: u16 = 5840;

/// The version of the protocol.
pub(crate) const VERSION: u8 = 5;

/// The representation of data: little-endian numbers, ASCII, and a second byte that is 0.
pub(crate) const REPRESENTATION: u16 = 0x0010;

/// The fields before the body.
#[derive(Clone, Copy, Debug, PartialEq, Eq)]
pub(crate) struct Header {
    pub version: u8,
    pub minor: u8,
    pub kind: u8,
    pub flags: u8,
    /// The first two bytes of the data representation.
    pub representation: u16,
    /// How many bytes the PDU has, with these.
    pub length: u16,
    /// How many of them are of authentication.
    pub auth: u16,
    pub call: u32,
}

/// Takes the fields of a header.
pub(crate) fn take_header(r: &mut Reader) -> Result<Header, NdrBad>
    ensures { Reads (λ x. x) header_item result r.old r.new }
{
    let version = r.take_u8()?;
    let minor = r.take_u8()?;
    let kind = r.take_u8()?;
    let flags = r.take_u8()?;
    let representation = r.take_u16()?;
    r.take_reserved(2)?;
    let length = r.take_u16()?;
    let auth = r.take_u16()?;
    let call = r.take_u32()?;
    Ok(Header {
        version,
        minor,
        kind,
        flags,
        representation,
        length,
        auth,
        call,
    })
}

/// Writes a header.
pub(crate) fn put_header(out: &mut Writer, h: &Header) -> Result<(), AllocError>
    ensures { OnOk result (out.new ≡ header_item.appends out.old h.now) }
{
    out.put_u8(h.version)?;
    out.put_u8(h.minor)?;
    out.put_u8(h.kind)?;
    out.put_u8(h.flags)?;
    out.put_u16(h.representation)?;
    out.put_reserved(2)?;
    out.put_u16(h.length)?;
    out.put_u16(h.auth)?;
    out.put_u32(h.call)
}

/// Whether the kind is one that is read.
fn is_kind(kind: u8) -> bool
    ensures { result ≡ is_kind kind }
{
    kind == 0
        || kind == 2
        || kind == 3
        || kind == 11
        || kind == 12
        || kind == 13
        || kind == 17
        || kind == 18
        || kind == 19
}

/// Refuses a header by its first field that is wrong.
pub(crate) fn judge(h: &Header) -> Result<(), PduBad>
    ensures judged { result ≡ judged h.now }
    ensures long { OnOk result (16 ≤ h.now.length) }
{
    if h.version != VERSION || h.minor > 1 {
        return Err(PduBad::Version);
    }
    if !is_kind(h.kind) {
        return Err(PduBad::Kind);
    }
    if h.representation != REPRESENTATION {
        return Err(PduBad::Drep);
    }
    if h.length < HEADER || h.length > LONGEST {
        return Err(PduBad::Length);
    }
    if h.auth != 0 {
        return Err(PduBad::Auth);
    }
    Ok(())
}
