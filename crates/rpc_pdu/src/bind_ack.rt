// The answers to an offer.
ghost use Rattle.rpc_pdu.specs.Bodies.{ack_item, address, fits_ack, nak_item, result_item};
ghost use Rattle.ndr_core.specs.Calls.{Reads};

use crate::Syntax;
use frs_base::List;
use ndr_core::{NdrBad, NdrError, Reader, Wire, Writer, put_many, take_many};
use std::alloc::{AllocError, Global};

/// What became of one offered context.
#[derive(Clone, Copy, Debug, PartialEq, Eq)]
pub struct ContextResult {
    /// 0 where it is accepted.
    pub result: u16,
    /// Why it isn't.
    pub reason: u16,
    /// The syntax in which its calls are written.
    pub transfer: Syntax,
}

impl Wire for ContextResult {
    type Value = ContextResult;

    ghost use Rattle.std.specs.Prelude.{true};

    ghost reads = { result_item.reads };

    ghost appends = { result_item.appends };

    ghost fits = { λ r. true };

    fn take(alloc: Global, r: &mut Reader) -> Result<ContextResult, NdrError> {
        let result = r.take_u16()?;
        let reason = r.take_u16()?;
        let transfer = Syntax::take(alloc, r)?;
        Ok(ContextResult {
            result,
            reason,
            transfer,
        })
    }

    fn put(outcome: &ContextResult, out: &mut Writer) -> Result<(), AllocError> {
        out.put_u16(outcome.result)?;
        out.put_u16(outcome.reason)?;
        Syntax::put(&outcome.transfer, out)
    }
}

/// Takes an offer: how long fragments may be, and what became of each context.
///
/// The secondary address is written empty, and not looked at.
#[derive(Debug, Drop, PartialEq, Eq)]
pub struct BindAck {
    /// The longest fragment that the server sends.
    pub xmit: u16,
    /// The longest that it receives.
    pub recv: u16,
    /// The group that the association belongs to.
    pub group: u32,
    /// One for each offered context, in their order.
    pub results: List<ContextResult>,
}

/// Passes the secondary address over.
fn take_address(r: &mut Reader) -> Result<(), NdrBad>
    ensures { Reads (λ x. tt) address result r.old r.new }
{
    let length = r.take_u16()?;
    r.take_reserved(usize::from(length))
}

impl Wire for BindAck {
    type Value = BindAck;

    ghost reads = { ack_item.reads };

    ghost appends = { ack_item.appends };

    ghost fits = { fits_ack };

    fn take(alloc: Global, r: &mut Reader) -> Result<BindAck, NdrError> {
        let xmit = r.take_u16()?;
        let recv = r.take_u16()?;
        let group = r.take_u32()?;
        take_address(r)?;
        let count = r.take_u8_behind(4)?;
        r.take_reserved(3)?;
        let results = List::of(take_many::<ContextResult>(alloc, r, u32::from(count))?);
        Ok(BindAck {
            xmit,
            recv,
            group,
            results,
        })
    }

    fn put(ack: &BindAck, out: &mut Writer) -> Result<(), AllocError> {
        let results = ack.results.as_slice();
        out.put_u16(ack.xmit)?;
        out.put_u16(ack.recv)?;
        out.put_u32(ack.group)?;
        out.put_u16(0)?;
        out.put_u8_behind(4, results.len() as u8)?;
        out.put_reserved(3)?;
        put_many::<ContextResult>(out, results)
    }
}

/// Refuses an offer. The versions that the server speaks, 5.0 alone, are written behind the reason,
/// and not looked at.
#[derive(Clone, Copy, Debug, PartialEq, Eq)]
pub struct BindNak {
    pub reason: u16,
}

impl Wire for BindNak {
    type Value = BindNak;

    ghost use Rattle.std.specs.Prelude.{true};

    ghost reads = { nak_item.reads };

    ghost appends = { nak_item.appends };

    ghost fits = { λ n. true };

    fn take(_alloc: Global, r: &mut Reader) -> Result<BindNak, NdrError> {
        let reason = r.take_u16()?;
        Ok(BindNak { reason })
    }

    fn put(nak: &BindNak, out: &mut Writer) -> Result<(), AllocError> {
        out.put_u16(nak.reason)
    }
}
