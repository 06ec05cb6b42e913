// Names of kinds and of refusals.
ghost use Rattle.std.specs.Prelude.{◌≡◌, IfOk, string_bytes};
ghost use Rattle.wire_rows.specs.Naming.{bad_text, call_text, frag_bad_text, item_bad_text, kind_name, pdu_text, stub_bad_text};

use crate::hexing::hex_word;
use ndr_core::NdrBad;
use ndr_frs::StubBad;
use rpc_frag::{FragBad, Whole};
use rpc_pdu::{PduBad, PduBody};
use std::alloc::{AllocError, Global};

/// The name of a PDU's kind.
pub fn kind_name(body: &PduBody) -> &'static str
    ensures { result.now ≡ kind_name body.now }
{
    match body {
        PduBody::Bind(_) => "Bind",
        PduBody::BindAck(_) => "BindAck",
        PduBody::BindNak(_) => "BindNak",
        PduBody::Request(_) => "Request",
        PduBody::Response(_) => "Response",
        PduBody::Fault(_) => "Fault",
        PduBody::Shutdown => "Shutdown",
        PduBody::CoCancel => "CoCancel",
        PduBody::Orphaned => "Orphaned",
    }
}

/// What is said of bytes that are no PDU.
pub fn bad_text(alloc: Global, bad: PduBad) -> Result<String, AllocError>
    ensures { IfOk result (λ text. string_bytes text ≡ bad_text bad) }
{
    match bad {
        PduBad::Version => String::from_str(alloc, "bad Version"),
        PduBad::Kind => String::from_str(alloc, "bad Kind"),
        PduBad::Drep => String::from_str(alloc, "bad Drep"),
        PduBad::Length => String::from_str(alloc, "bad Length"),
        PduBad::Auth => String::from_str(alloc, "bad Auth"),
        PduBad::Body { at } => format!(in alloc; "bad Body {at}"),
    }
}

/// What is said of a fragment that is refused.
pub fn frag_bad_text(alloc: Global, bad: FragBad) -> Result<String, AllocError>
    ensures { IfOk result (λ text. string_bytes text ≡ frag_bad_text bad) }
{
    match bad {
        FragBad::FragOrder => String::from_str(alloc, "bad FragOrder"),
        FragBad::FragTooLong { length } => format!(in alloc; "bad FragTooLong {length}"),
    }
}

/// What is said of an item that is refused.
fn item_bad_text(alloc: Global, bad: NdrBad) -> Result<String, AllocError>
    ensures { IfOk result (λ text. string_bytes text ≡ item_bad_text bad) }
{
    match bad {
        NdrBad::Short { at } => format!(in alloc; "bad Short {at}"),
        NdrBad::Count { at } => format!(in alloc; "bad Count {at}"),
        NdrBad::Terminator { at } => format!(in alloc; "bad Terminator {at}"),
        NdrBad::Value { at } => format!(in alloc; "bad Value {at}"),
        NdrBad::Rest { at } => format!(in alloc; "bad Rest {at}"),
    }
}

/// What is said of bytes that are no stub.
pub fn stub_bad_text(alloc: Global, bad: StubBad) -> Result<String, AllocError>
    ensures { IfOk result (λ text. string_bytes text ≡ stub_bad_text bad) }
{
    match bad {
        StubBad::Item(bad) => item_bad_text(alloc, bad),
        StubBad::Opnum => String::from_str(alloc, "bad Opnum"),
    }
}

/// What is said of a PDU: how many bytes it takes, and its kind.
pub fn pdu_text(alloc: Global, size: usize, body: &PduBody) -> Result<String, AllocError>
    ensures { IfOk result (λ text. string_bytes text ≡ pdu_text size body.now) }
{
    let kind = kind_name(body);
    format!(in alloc; "pdu {size} {kind}")
}

/// What is said of a call that is complete.
pub fn call_text(alloc: Global, whole: &Whole) -> Result<String, AllocError>
    ensures { IfOk result (λ text. string_bytes text ≡ call_text whole.now) }
{
    let (call, context, opnum) = (whole.call, whole.context, whole.opnum);
    let stub = hex_word(alloc, whole.stub.as_slice())?;
    format!(in alloc; "whole {call} {context} {opnum} {stub}")
}
