// The offer that opens an association.
ghost use Rattle.rpc_pdu.specs.Bodies.{bind_item, element_item, fits_bind, fits_element, syntax_item};

use frs_base::{Guid, List};
use ndr_core::{NdrError, Reader, Wire, Writer, put_many, take_many};
use std::alloc::{AllocError, Global};

/// An interface, or a transfer syntax.
#[derive(Clone, Copy, Debug, PartialEq, Eq)]
pub struct Syntax {
    pub id: Guid,
    /// The major version in the low half, the minor one in the high half.
    pub version: u32,
}

impl Wire for Syntax {
    type Value = Syntax;

    ghost use Rattle.std.specs.Prelude.{true};

    ghost reads = { syntax_item.reads };

    ghost appends = { syntax_item.appends };

    ghost fits = { λ s. true };

    fn take(_alloc: Global, r: &mut Reader) -> Result<Syntax, NdrError> {
        let id = r.take_guid()?;
        let version = r.take_u32()?;
        Ok(Syntax { id, version })
    }

    fn put(syntax: &Syntax, out: &mut Writer) -> Result<(), AllocError> {
        out.put_guid(syntax.id)?;
        out.put_u32(syntax.version)
    }
}

/// An interface that a client wants to call, and the transfer syntaxes that it offers for it.
#[derive(Debug, Drop, PartialEq, Eq)]
pub struct ContextElem {
    /// By which requests name this context.
    pub id: u16,
    pub interface: Syntax,
    pub transfers: List<Syntax>,
}

impl Wire for ContextElem {
    type Value = ContextElem;

    ghost reads = { element_item.reads };

    ghost appends = { element_item.appends };

    ghost fits = { fits_element };

    fn take(alloc: Global, r: &mut Reader) -> Result<ContextElem, NdrError> {
        let id = r.take_u16()?;
        let count = r.take_u8()?;
        r.take_reserved(1)?;
        let interface = Syntax::take(alloc, r)?;
        let transfers = List::of(take_many::<Syntax>(alloc, r, u32::from(count))?);
        Ok(ContextElem {
            id,
            interface,
            transfers,
        })
    }

    fn put(element: &ContextElem, out: &mut Writer) -> Result<(), AllocError> {
        let transfers = element.transfers.as_slice();
        out.put_u16(element.id)?;
        out.put_u8(transfers.len() as u8)?;
        out.put_reserved(1)?;
        Syntax::put(&element.interface, out)?;
        put_many::<Syntax>(out, transfers)
    }
}

/// Opens an association: how long fragments may be, and what is to be called.
#[derive(Debug, Drop, PartialEq, Eq)]
pub struct Bind {
    /// The longest fragment that the client sends.
    pub xmit: u16,
    /// The longest that it receives.
    pub recv: u16,
    /// The group that the association is to belong to, 0 for a new one.
    pub group: u32,
    pub contexts: List<ContextElem>,
}

impl Wire for Bind {
    type Value = Bind;

    ghost reads = { bind_item.reads };

    ghost appends = { bind_item.appends };

    ghost fits = { fits_bind };

    fn take(alloc: Global, r: &mut Reader) -> Result<Bind, NdrError> {
        let xmit = r.take_u16()?;
        let recv = r.take_u16()?;
        let group = r.take_u32()?;
        let count = r.take_u8()?;
        r.take_reserved(3)?;
        let contexts = List::of(take_many::<ContextElem>(alloc, r, u32::from(count))?);
        Ok(Bind {
            xmit,
            recv,
            group,
            contexts,
        })
    }

    fn put(bind: &Bind, out: &mut Writer) -> Result<(), AllocError> {
        let contexts = bind.contexts.as_slice();
        out.put_u16(bind.xmit)?;
        out.put_u16(bind.recv)?;
        out.put_u32(bind.group)?;
        out.put_u8(contexts.len() as u8)?;
        out.put_reserved(3)?;
        put_many::<ContextElem>(out, contexts)
    }
}
