// What a row asks.
use frs_base::{Bytes, List};

/// A row that asks what bytes are.
#[derive(Debug, Drop)]
pub enum WireRow {
    /// `pdu HEX`: the PDU at their front.
    Pdu(Bytes),
    /// `request OPNUM HEX`: the request of a method that they are the stub of.
    Request { opnum: u16, stub: Bytes },
    /// `reply OPNUM HEX`: the reply likewise.
    Reply { opnum: u16, stub: Bytes },
    /// `feed HEX HEX ..`: the PDUs of a stream that comes in these pieces, and the calls that they
    /// complete.
    Feed(List<Bytes>),
    /// `form HEX`: the file whose marshalled form they are.
    Form(Bytes),
}
