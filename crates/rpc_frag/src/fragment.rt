// A call, and the parts that it comes in.
ghost use Rattle.std.specs.Prelude.{◌≡◌};
ghost use Rattle.rpc_frag.specs.Fragments.{IsPart, fragment_of, is_first, is_last};

use frs_base::Bytes;
use rpc_pdu::{Pdu, PduBody};

/// The flag of a call's first fragment.
pub(crate) const FIRST: u8 = 0x01;

/// The flag of its last one.
pub(crate) const LAST: u8 = 0x02;

/// A call with its whole stub, or the answer to one.
#[derive(Debug, Drop, PartialEq, Eq)]
pub struct Whole {
    pub call: u32,
    pub context: u16,
    /// The method's number; 0 in an answer.
    pub opnum: u16,
    pub stub: Bytes,
}

/// What a request or a response says of its call.
#[derive(Debug, Drop)]
pub(crate) struct Fragment {
    pub call: u32,
    pub flags: u8,
    pub context: u16,
    pub opnum: u16,
    pub stub: Bytes,
}

impl Fragment {
    /// The fragment that a PDU is.
    pub(crate) fn of(pdu: Pdu) -> Fragment
        requires { IsPart pdu.body }
        ensures { result ≡ fragment_of pdu }
    {
        let (call, flags) = (pdu.call, pdu.flags);
        match pdu.body {
            PduBody::Request(request) => Fragment {
                call,
                flags,
                context: request.context,
                opnum: request.opnum,
                stub: request.stub,
            },
            PduBody::Response(response) => Fragment {
                call,
                flags,
                context: response.context,
                opnum: 0,
                stub: response.stub,
            },
            _ => unreachable!(),
        }
    }

    /// Whether it is a call's first.
    pub(crate) fn is_first(&self) -> bool
        ensures { result ≡ is_first self.now }
    {
        self.flags & FIRST != 0
    }

    /// Whether it is a call's last.
    pub(crate) fn is_last(&self) -> bool
        ensures { result ≡ is_last self.now }
    {
        self.flags & LAST != 0
    }
}
