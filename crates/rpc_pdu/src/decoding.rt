// From bytes to PDUs.
ghost use Rattle.std.specs.Prelude.{◌≡◌, ◌≤◌, IfOk, IfSome, length};
ghost use Rattle.rpc_pdu.specs.Decoding.{AnswersOrMemory, begun, bind_reads, body_reads, decoded, item_reads, request_reads, response_reads};
ghost use Rattle.rpc_pdu.specs.Bodies.{ack_item, fault_item, nak_item};
ghost use Rattle.rpc_pdu.specs.declared.pdu.PduBody.TheVariants as bodies;

use crate::calls::{take_request, take_response};
use crate::header::{HEADER, Header, judge, take_header};
use crate::{Bind, BindAck, BindNak, Fault, Pdu, PduBad, PduBody, PduError};
use ndr_core::{Reader, Wire};
use std::alloc::Global;

/// The flag of a request with an object UUID.
const OBJECT: u8 = 0x80;

/// The place of the flags.
const FLAGS_AT: usize = 3;

/// The body of a bind, which has nothing behind it.
fn bind_body(alloc: Global, r: &mut Reader) -> Result<PduBody, PduError>
    ensures { AnswersOrMemory result (bind_reads r.old) }
{
    let bind = Bind::take(alloc, r)?;
    if !r.is_done() {
        return Err(PduError::Bad(PduBad::Body { at: r.at() }));
    }
    Ok(PduBody::Bind(bind))
}

/// The body of a request, which has no object UUID.
fn request_body(alloc: Global, r: &mut Reader, h: &Header) -> Result<PduBody, PduError>
    ensures { AnswersOrMemory result (request_reads h.now r.old) }
{
    if h.flags & OBJECT != 0 {
        return Err(PduError::Bad(PduBad::Body { at: FLAGS_AT }));
    }
    let size = u32::from(h.length.saturating_sub(HEADER));
    Ok(PduBody::Request(take_request(alloc, r, size)?))
}

/// The body of a response.
fn response_body(alloc: Global, r: &mut Reader, h: &Header) -> Result<PduBody, PduError>
    ensures { AnswersOrMemory result (response_reads h.now r.old) }
{
    let size = u32::from(h.length.saturating_sub(HEADER));
    Ok(PduBody::Response(take_response(alloc, r, size)?))
}

/// The body of a fault.
fn fault_body(alloc: Global, r: &mut Reader) -> Result<PduBody, PduError>
    ensures { AnswersOrMemory result (item_reads fault_item bodies.Fault r.old) }
{
    Ok(PduBody::Fault(Fault::take(alloc, r)?))
}

/// The body of a bind_ack.
fn ack_body(alloc: Global, r: &mut Reader) -> Result<PduBody, PduError>
    ensures { AnswersOrMemory result (item_reads ack_item bodies.BindAck r.old) }
{
    Ok(PduBody::BindAck(BindAck::take(alloc, r)?))
}

/// The body of a bind_nak.
fn nak_body(alloc: Global, r: &mut Reader) -> Result<PduBody, PduError>
    ensures { AnswersOrMemory result (item_reads nak_item bodies.BindNak r.old) }
{
    Ok(PduBody::BindNak(BindNak::take(alloc, r)?))
}

/// The body of the kind that the header says.
fn body_of(alloc: Global, r: &mut Reader, h: &Header) -> Result<PduBody, PduError>
    ensures { AnswersOrMemory result (body_reads h.now r.old) }
{
    match h.kind {
        0 => request_body(alloc, r, h),
        2 => response_body(alloc, r, h),
        3 => fault_body(alloc, r),
        11 => bind_body(alloc, r),
        12 => ack_body(alloc, r),
        13 => nak_body(alloc, r),
        17 => Ok(PduBody::Shutdown),
        18 => Ok(PduBody::CoCancel),
        _ => Ok(PduBody::Orphaned),
    }
}

/// A PDU whose header is good, once it is there in full.
fn pdu_of(alloc: Global, bytes: &[u8], h: &Header) -> Result<Option<(Pdu, usize)>, PduError>
    requires { 16 ≤ h.now.length }
    ensures answers { AnswersOrMemory result (begun bytes.now h.now) }
    ensures sized { IfOk result
        (λ found. IfSome found (λ p. (16 ≤ p.1) × (p.1 ≤ length bytes.now))) }
{
    let length = usize::from(h.length);
    if bytes.len() < length {
        return Ok(None);
    }
    let body = body_of(alloc, &mut Reader::behind(16, &bytes[16..length]), h)?;
    let pdu = Pdu {
        call: h.call,
        flags: h.flags,
        body,
    };
    Ok(Some((pdu, length)))
}

/// The PDU at the front of the bytes, and how many bytes it has; nothing where it isn't there in
/// full yet.
#[tactic(auto, unfolding(crate::specs::Decoding::decoded))]
pub fn decode(alloc: Global, bytes: &[u8]) -> Result<Option<(Pdu, usize)>, PduError>
    ensures answers { AnswersOrMemory result (decoded bytes.now) }
    ensures sized { IfOk result
        (λ found. IfSome found (λ p. (16 ≤ p.1) × (p.1 ≤ length bytes.now))) }
{
    match take_header(&mut Reader::new(bytes)) {
        Err(_) => Ok(None),
        Ok(header) => {
            judge(&header)?;
            pdu_of(alloc, bytes, &header)
        }
    }
}
