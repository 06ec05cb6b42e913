// What answers a row.
ghost use Rattle.std.specs.Prelude.{◌≡◌, IfOk, string_bytes};
ghost use Rattle.rpc_pdu.specs.Decoding.{decoded};
ghost use Rattle.wire_rows.specs.Answering.{Answers, IsFormAnswer, pdu_answer, reply_answer, request_answer, stub_text};
ghost use Rattle.ndr_frs.specs.Replies.{reply_of};
ghost use Rattle.ndr_frs.specs.Requests.{request_of};

use crate::WireRow;
use crate::feeding::feed_answer;
use crate::hexing::hex_word;
use crate::naming::{bad_text, pdu_text, stub_bad_text};
use marshal_form::{sum, unmarshal};
use ndr_frs::{StubError, read_reply, read_request, write_reply, write_request};
use rpc_pdu::{PduError, decode, encode};
use std::alloc::{AllocError, Global};

/// What is said of a stub that was written again.
fn stub_text(alloc: Global, stub: &[u8]) -> Result<String, AllocError>
    ensures { IfOk result (λ text. string_bytes text ≡ stub_text stub.now) }
{
    let digits = hex_word(alloc, stub)?;
    format!(in alloc; "stub {digits}")
}

/// What is said of the PDU at the front of bytes.
fn pdu_answer(alloc: Global, bytes: &[u8]) -> Result<String, AllocError>
    ensures { IfOk result (λ text. string_bytes text ≡ pdu_answer (decoded bytes.now)) }
{
    match decode(alloc, bytes) {
        Ok(None) => String::from_str(alloc, "more"),
        Ok(Some((pdu, size))) => {
            let said = pdu_text(alloc, size, &pdu.body)?;
            let again = encode(alloc, &pdu)?;
            let digits = hex_word(alloc, &again)?;
            format!(in alloc; "{said} {digits}")
        }
        Err(PduError::Bad(bad)) => bad_text(alloc, bad),
        Err(PduError::Memory) => Err(AllocError),
    }
}

/// What is said of the request that bytes are the stub of.
fn request_answer(alloc: Global, opnum: u16, stub: &[u8]) -> Result<String, AllocError>
    ensures { IfOk result (λ text. string_bytes text ≡ request_answer (request_of opnum stub.now)) }
{
    match read_request(alloc, opnum, stub) {
        Ok(request) => {
            let again = write_request(alloc, &request)?;
            stub_text(alloc, &again)
        }
        Err(StubError::Bad(bad)) => stub_bad_text(alloc, bad),
        Err(StubError::Memory) => Err(AllocError),
    }
}

/// What is said of the reply that bytes are the stub of.
fn reply_answer(alloc: Global, opnum: u16, stub: &[u8]) -> Result<String, AllocError>
    ensures { IfOk result (λ text. string_bytes text ≡ reply_answer (reply_of opnum stub.now)) }
{
    match read_reply(alloc, opnum, stub) {
        Ok(reply) => {
            let again = write_reply(alloc, &reply)?;
            stub_text(alloc, &again)
        }
        Err(StubError::Bad(bad)) => stub_bad_text(alloc, bad),
        Err(StubError::Memory) => Err(AllocError),
    }
}

/// What is said of the marshalled form that bytes are.
fn form_answer(alloc: Global, bytes: &[u8]) -> Result<String, AllocError>
    ensures { IfOk result (λ text. IsFormAnswer bytes.now (string_bytes text)) }
{
    match unmarshal(bytes) {
        Ok((meta, place)) => {
            let attributes = meta.attributes;
            let digits = hex::encode(alloc, sum(bytes))?;
            format!(in alloc; "file {attributes} {place} {digits}")
        }
        Err(bad) => {
            let at = bad.at;
            format!(in alloc; "bad {at}")
        }
    }
}

/// The answer of a row, without a line feed.
pub fn answer(alloc: Global, row: &WireRow) -> Result<String, AllocError>
    ensures { IfOk result (λ text. Answers row.now (string_bytes text)) }
{
    match row {
        WireRow::Pdu(bytes) => pdu_answer(alloc, bytes.as_slice()),
        WireRow::Request { opnum, stub } => request_answer(alloc, *opnum, stub.as_slice()),
        WireRow::Reply { opnum, stub } => reply_answer(alloc, *opnum, stub.as_slice()),
        WireRow::Feed(pieces) => feed_answer(alloc, pieces.as_slice()),
        WireRow::Form(bytes) => form_answer(alloc, bytes.as_slice()),
    }
}
