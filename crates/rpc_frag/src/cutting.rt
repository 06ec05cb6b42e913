// Calls cut into fragments.
ghost use Rattle.std.specs.Prelude.{◌≡◌, ◌≤◌, ◌-◌, IfOk, length, true};
ghost use Rattle.rpc_frag.specs.Fragments.{IsCut, flags_of, part};

use crate::Whole;
use crate::fragment::{FIRST, LAST};
use frs_base::Bytes;
use rpc_pdu::{Pdu, PduBody, Request, Response};
use std::alloc::{AllocError, Global};

/// How many bytes of a fragment aren't of the stub.
const OVERHEAD: u16 = 24;

/// The flags of a call's first or last fragment, or of one that is neither.
fn flags_of(first: bool, last: bool) -> u8
    ensures { result ≡ flags_of first last }
{
    match (first, last) {
        (true, true) => FIRST | LAST,
        (true, false) => FIRST,
        (false, true) => LAST,
        (false, false) => 0,
    }
}

/// A fragment with these bytes of the stub, of which so many come from here on.
fn part(
    alloc: Global,
    whole: &Whole,
    response: bool,
    flags: u8,
    hint: u32,
    stub: &[u8],
) -> Result<Pdu, AllocError>
    ensures { IfOk result (λ pdu. pdu ≡ part whole.now response flags hint stub.now) }
{
    let (context, opnum) = (whole.context, whole.opnum);
    let stub = Bytes::of(Vec::from_slice(alloc, stub)?);
    let body = if response {
        PduBody::Response(Response {
            hint,
            context,
            stub,
        })
    } else {
        PduBody::Request(Request {
            hint,
            context,
            opnum,
            stub,
        })
    };
    Ok(Pdu {
        call: whole.call,
        flags,
        body,
    })
}

/// The fragments of a call or of an answer, each of at most `max` bytes as a PDU, and full but for
/// the last.
pub fn cut(alloc: Global, whole: &Whole, response: bool, max: u16) -> Result<Vec<Pdu>, AllocError>
    requires least { 1432 ≤ max }
    requires most { max ≤ 5840 }
    requires short { length whole.now.stub ≤ 8388608 }
    ensures { IfOk result
        (λ parts. IsCut whole.now response (max - 24) true whole.now.stub parts.items) }
{
    let size = usize::from(max - OVERHEAD);
    let mut parts = Vec::new(alloc);
    let mut rest = whole.stub.as_slice();
    let mut first = true;
    while rest.len() > size {
        let (front, behind) = rest.split_at(size);
        let flags = flags_of(first, false);
        let next = part(alloc, whole, response, flags, rest.len() as u32, front)?;
        parts.push(next)?;
        rest = behind;
        first = false;
    }
    let flags = flags_of(first, true);
    let last = part(alloc, whole, response, flags, rest.len() as u32, rest)?;
    parts.push(last)?;
    Ok(parts)
}
