// From PDUs to bytes.
ghost use Rattle.std.specs.Prelude.{◌≡◌, ◌≤◌, IfOk, OnOk, length, true};
ghost use Rattle.rpc_pdu.specs.Encoding.{HasFewTransfers, HasNoObject, body_appends, encoded, encoded_as, fits_body, header_for, kind_of, stub_length, with_length};
ghost use Rattle.rpc_pdu.specs.declared.pdu.PduBody.TheVariants as bodies;

use crate::calls::{put_request, put_response};
use crate::header::{Header, REPRESENTATION, VERSION, put_header};
use crate::{Bind, BindAck, BindNak, Fault, Pdu, PduBody};
use ndr_core::{Wire, Writer};
use std::alloc::{AllocError, Global};

/// The place of the length in the header.
const LENGTH_AT: usize = 8;

/// The most bytes that a call, an answer or a fault has without its stub.
const WITHOUT_STUB: usize = 32;

/// The kind of PDU that a body makes.
fn kind_of(body: &PduBody) -> u8
    ensures { result ≡ kind_of body.now }
{
    match body {
        PduBody::Request(_) => 0,
        PduBody::Response(_) => 2,
        PduBody::Fault(_) => 3,
        PduBody::Bind(_) => 11,
        PduBody::BindAck(_) => 12,
        PduBody::BindNak(_) => 13,
        PduBody::Shutdown => 17,
        PduBody::CoCancel => 18,
        PduBody::Orphaned => 19,
    }
}

/// The reason, and the one version that is spoken.
fn put_nak(out: &mut Writer, nak: &BindNak) -> Result<(), AllocError>
    ensures { OnOk result (out.new ≡ body_appends (bodies.BindNak nak.now) out.old) }
{
    BindNak::put(nak, out)?;
    out.put_bytes(&[1, 5, 0])
}

/// Writes a body.
fn put_body(out: &mut Writer, body: &PduBody) -> Result<(), AllocError>
    requires { fits_body body.now ≡ true }
    ensures { OnOk result (out.new ≡ body_appends body.now out.old) }
{
    match body {
        PduBody::Request(request) => put_request(out, request),
        PduBody::Response(response) => put_response(out, response),
        PduBody::Fault(fault) => Fault::put(fault, out),
        PduBody::Bind(bind) => Bind::put(bind, out),
        PduBody::BindAck(ack) => BindAck::put(ack, out),
        PduBody::BindNak(nak) => put_nak(out, nak),
        PduBody::Shutdown | PduBody::CoCancel | PduBody::Orphaned => Ok(()),
    }
}

/// The header of a PDU that has so many bytes.
fn header_for(pdu: &Pdu, length: u16) -> Header
    ensures { result ≡ header_for pdu.now length }
{
    Header {
        version: VERSION,
        minor: 0,
        kind: kind_of(&pdu.body),
        flags: pdu.flags,
        representation: REPRESENTATION,
        length,
        auth: 0,
        call: pdu.call,
    }
}

/// How many bytes of a stub a body has.
fn stub_length(body: &PduBody) -> usize
    ensures { result ≡ stub_length body.now }
{
    match body {
        PduBody::Request(request) => request.stub.as_slice().len(),
        PduBody::Response(response) => response.stub.as_slice().len(),
        _ => 0,
    }
}

/// The bytes of a PDU with the length 0 in its header. Where it has a stub, room is made for all of
/// them at once.
fn write_unsized(alloc: Global, pdu: &Pdu) -> Result<Vec<u8>, AllocError>
    requires { fits_body pdu.now.body ≡ true }
    ensures { IfOk result (λ bytes. bytes.items ≡ encoded_as pdu.now 0) }
{
    let room = stub_length(&pdu.body).saturating_add(WITHOUT_STUB);
    let mut out = Writer::over(Vec::with_capacity(alloc, room)?);
    put_header(&mut out, &header_for(pdu, 0))?;
    put_body(&mut out, &pdu.body)?;
    Ok(out.into_vec())
}

/// The bytes of a PDU with their number in its header.
fn with_length(mut bytes: Vec<u8>) -> Vec<u8>
    requires long { 16 ≤ length bytes.items }
    requires short { length bytes.items ≤ 5840 }
    ensures { result.items ≡ with_length (length bytes.items) bytes.items }
{
    let length = (bytes.len() as u16).to_le_bytes();
    bytes[LENGTH_AT] = length[0];
    bytes[LENGTH_AT + 1] = length[1];
    bytes
}

/// The bytes of a PDU, which [`decode`] reads as that PDU, whatever follows.
///
/// [`decode`]: crate::decode
#[tactic(auto, unfolding(crate::specs::Encoding::encoded))]
pub fn encode(alloc: Global, pdu: &Pdu) -> Result<Vec<u8>, AllocError>
    requires transfers { HasFewTransfers pdu.now.body }
    requires object { HasNoObject pdu.now }
    requires short { length (encoded_as pdu.now 0) ≤ 5840 }
    ensures { IfOk result (λ bytes. bytes.items ≡ encoded pdu.now) }
{
    Ok(with_length(write_unsized(alloc, pdu)?))
}
