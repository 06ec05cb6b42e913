// Parts of calls and of their answers.
ghost use Rattle.std.specs.Prelude.{◌≡◌, OnOk};
ghost use Rattle.ndr_core.specs.Calls.{ReadsOrMemory};
ghost use Rattle.rpc_pdu.specs.Bodies.{fault_item, request_item, response_item};

use frs_base::Bytes;
use ndr_core::{NdrError, Reader, Wire, Writer};
use std::alloc::{AllocError, Global};

/// A part of a call.
#[derive(Debug, Drop, PartialEq, Eq)]
pub struct Request {
    /// How many bytes of the stub come from this part on.
    pub hint: u32,
    /// The context that was accepted for the interface.
    pub context: u16,
    /// The method's number.
    pub opnum: u16,
    pub stub: Bytes,
}

/// A part of a call's answer.
#[derive(Debug, Drop, PartialEq, Eq)]
pub struct Response {
    /// How many bytes of the stub come from this part on.
    pub hint: u32,
    pub context: u16,
    pub stub: Bytes,
}

/// The answer to a call that wasn't made.
#[derive(Clone, Copy, Debug, PartialEq, Eq)]
pub struct Fault {
    pub context: u16,
    /// Why it wasn't.
    pub status: u32,
}

/// Takes a request whose body has so many bytes.
pub(crate) fn take_request(alloc: Global, r: &mut Reader, size: u32) -> Result<Request, NdrError>
    ensures { ReadsOrMemory (λ x. x) (request_item size) result r.old r.new }
{
    let hint = r.take_u32()?;
    let context = r.take_u16()?;
    let opnum = r.take_u16()?;
    let stub = Bytes::of(r.take_bytes(alloc, size.saturating_sub(8))?);
    Ok(Request {
        hint,
        context,
        opnum,
        stub,
    })
}

/// Writes a request.
pub(crate) fn put_request(out: &mut Writer, request: &Request) -> Result<(), AllocError>
    ensures { OnOk result (out.new ≡ (request_item 0).appends out.old request.now) }
{
    out.put_u32(request.hint)?;
    out.put_u16(request.context)?;
    out.put_u16(request.opnum)?;
    out.put_bytes(request.stub.as_slice())
}

/// Takes a response whose body has so many bytes.
pub(crate) fn take_response(alloc: Global, r: &mut Reader, size: u32) -> Result<Response, NdrError>
    ensures { ReadsOrMemory (λ x. x) (response_item size) result r.old r.new }
{
    let hint = r.take_u32()?;
    let context = r.take_u16()?;
    r.take_reserved(1)?;
    r.take_reserved(1)?;
    let stub = Bytes::of(r.take_bytes(alloc, size.saturating_sub(8))?);
    Ok(Response {
        hint,
        context,
        stub,
    })
}

/// Writes a response.
pub(crate) fn put_response(out: &mut Writer, response: &Response) -> Result<(), AllocError>
    ensures { OnOk result (out.new ≡ (response_item 0).appends out.old response.now) }
{
    out.put_u32(response.hint)?;
    out.put_u16(response.context)?;
    out.put_reserved(1)?;
    out.put_reserved(1)?;
    out.put_bytes(response.stub.as_slice())
}

impl Wire for Fault {
    type Value = Fault;

    ghost use Rattle.std.specs.Prelude.{true};

    ghost reads = { fault_item.reads };

    ghost appends = { fault_item.appends };

    ghost fits = { λ f. true };

    fn take(_alloc: Global, r: &mut Reader) -> Result<Fault, NdrError> {
        r.take_reserved(4)?;
        let context = r.take_u16()?;
        r.take_reserved(1)?;
        r.take_reserved(1)?;
        let status = r.take_u32()?;
        r.take_reserved(4)?;
        Ok(Fault { context, status })
    }

    fn put(fault: &Fault, out: &mut Writer) -> Result<(), AllocError> {
        out.put_reserved(4)?;
        out.put_u16(fault.context)?;
        out.put_reserved(1)?;
        out.put_reserved(1)?;
        out.put_u32(fault.status)?;
        out.put_reserved(4)
    }
}
