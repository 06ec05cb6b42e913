// Whole PDUs.
use crate::{Bind, BindAck, BindNak, Fault, Request, Response};

/// What a PDU says.
#[derive(Debug, Drop, PartialEq, Eq)]
pub enum PduBody {
    /// A client opens the association.
    Bind(Bind),
    /// The server takes the offer.
    BindAck(BindAck),
    /// The server refuses it.
    BindNak(BindNak),
    /// A part of a call.
    Request(Request),
    /// A part of its answer.
    Response(Response),
    /// The answer to a call that wasn't made.
    Fault(Fault),
    /// The server closes the association.
    Shutdown,
    /// The client gives a call up, and still awaits its answer.
    CoCancel,
    /// The client gives a call up for good.
    Orphaned,
}

/// One PDU, which is one fragment of what it belongs to.
#[derive(Debug, Drop, PartialEq, Eq)]
pub struct Pdu {
    /// The call that it belongs to.
    pub call: u32,
    /// 0x01 in a call's first fragment, 0x02 in its last one; the others aren't looked at, but for
    /// 0x80 in a request.
    pub flags: u8,
    pub body: PduBody,
}
