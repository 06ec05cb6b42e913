//! PDUs of connection-oriented remote procedure calls, as bytes and as values, after C706
//! chapter 12.
//!
//! Read [`Pdu`] first. [`decode`] takes the PDU at the front of bytes, tells that it isn't there in
//! full yet, or names why there is none; [`encode`] writes one. The layouts are listed in `specs/`:
//! the header and the judgement of it in `specs/Headers.antt`, the bodies in `specs/Bodies.antt`.
//! PDUs here have no authentication and no object UUIDs.
#![tactic(auto)]

mod bind;
mod bind_ack;
mod calls;
mod decoding;
mod encoding;
mod header;
mod laws;
mod pdu;
mod refusal;

pub use bind::{Bind, ContextElem, Syntax};
pub use bind_ack::{BindAck, BindNak, ContextResult};
pub use calls::{Fault, Request, Response};
pub use decoding::decode;
pub use encoding::encode;
pub use laws::{
    more_bytes_change_nothing, pdus_are_read_as_spelled, pdus_are_spelled, pdus_read_back,
    spellings_are_apart, what_is_read_is_spelled, what_is_read_is_writable,
};
pub use pdu::{Pdu, PduBody};
pub use refusal::{PduBad, PduError};
