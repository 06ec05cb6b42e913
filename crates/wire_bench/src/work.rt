// The jobs.
ghost use Rattle.std.specs.Prelude.{IfOk, IsTrue};
ghost use Rattle.ndr_frs.specs.Replies.{IsStatedReply};
ghost use Rattle.rpc_pdu.specs.Laws.{IsWritable};
ghost use Rattle.rpc_frag.specs.Fragments.{IsPart};

use ndr_frs::{FrsReply, read_reply, write_reply};
use rpc_frag::{Assembler, Splitter};
use rpc_pdu::{Pdu, PduBody, decode, encode};
use std::alloc::{AllocError, AllocFailed, Global};

/// The number of RequestUpdates.
const REQUEST_UPDATES: u16 = 3;

/// What is done over and over.
#[derive(Clone, Copy, Debug, PartialEq, Eq)]
pub enum Job {
    /// A fragment of 1,432 bytes is read.
    Decode,
    /// It is written.
    Encode,
    /// The stub of a reply with 256 updates is read.
    ReadPage,
    /// It is written.
    WritePage,
    /// A stream of fragments of 1,432 bytes, 40 for each call, comes in pieces of one byte.
    Bytes,
}

/// Why a job wasn't done.
#[derive(Clone, Copy, Debug, PartialEq, Eq)]
pub enum BenchError {
    /// Memory ran out.
    Memory,
    /// What was read isn't what was written.
    Bad,
}

impl From<AllocError> for BenchError {
    fn from(_: AllocError) -> BenchError {
        BenchError::Memory
    }
}

impl<T: Drop> From<AllocFailed<T>> for BenchError {
    fn from(_: AllocFailed<T>) -> BenchError {
        BenchError::Memory
    }
}

/// A response's fragment of 1,432 bytes, with these flags.
fn fragment(alloc: Global, flags: u8) -> Result<Vec<u8>, AllocError> {
    let mut bytes = Vec::new(alloc);
    bytes.extend_from_slice(&[5, 0, 2, flags, 0x10, 0, 0, 0, 0x98, 5, 0, 0, 1, 0, 0, 0])?;
    bytes.extend_from_slice(&[0; 8])?;
    for at in 0..1408_u32 {
        bytes.push((at % 251) as u8)?;
    }
    Ok(bytes)
}

/// The PDU that bytes are.
fn pdu_of(alloc: Global, bytes: &[u8]) -> Result<Pdu, BenchError>
    ensures { IfOk result IsWritable }
{
    match decode(alloc, bytes) {
        Ok(Some((pdu, _))) => Ok(pdu),
        _ => Err(BenchError::Bad),
    }
}

/// How many bytes were written. None here end with 0xff, but no compiler knows that, so that none
/// leaves the writing out.
fn written(bytes: &[u8]) -> Result<u64, BenchError> {
    match bytes.last() {
        Some(0xff) | None => Err(BenchError::Bad),
        Some(_) => Ok(bytes.len() as u64),
    }
}

/// Reads a fragment so many times.
fn decode_often(alloc: Global, count: u64) -> Result<u64, BenchError> {
    let bytes = fragment(alloc, 3)?;
    let mut total: u64 = 0;
    for _ in 0..count {
        match decode(alloc, &bytes) {
            Ok(Some((_, size))) => total = total.wrapping_add(size as u64),
            _ => return Err(BenchError::Bad),
        }
    }
    Ok(total)
}

/// Writes a fragment so many times.
fn encode_often(alloc: Global, count: u64) -> Result<u64, BenchError> {
    let bytes = fragment(alloc, 3)?;
    let pdu = pdu_of(alloc, &bytes)?;
    let mut total: u64 = 0;
    for _ in 0..count {
        total = total.wrapping_add(written(&encode(alloc, &pdu)?)?);
    }
    Ok(total)
}

/// The stub of a reply to RequestUpdates, with 256 updates of files named `x`.
fn page(alloc: Global) -> Result<Vec<u8>, AllocError> {
    let mut bytes = Vec::new(alloc);
    bytes.extend_from_slice(&[0, 1, 0, 0, 0, 0, 0, 0, 0, 1, 0, 0, 0, 0, 0, 0])?;
    for _ in 0..256 {
        bytes.extend_from_slice(&[0; 168])?;
        bytes.extend_from_slice(&[0, 0, 0, 0, 2, 0, 0, 0, b'x', 0, 0, 0, 0, 0, 0, 0])?;
    }
    bytes.extend_from_slice(&[0, 1, 0, 0, 2, 0, 0, 0])?;
    bytes.extend_from_slice(&[0; 28])?;
    Ok(bytes)
}

/// The reply that a stub is.
fn reply_of(alloc: Global, stub: &[u8]) -> Result<FrsReply, BenchError>
    ensures { IfOk result IsStatedReply }
{
    match read_reply(alloc, REQUEST_UPDATES, stub) {
        Ok(reply) => Ok(reply),
        Err(_) => Err(BenchError::Bad),
    }
}

/// Reads a page so many times.
fn read_page_often(alloc: Global, count: u64) -> Result<u64, BenchError> {
    let stub = page(alloc)?;
    let mut total: u64 = 0;
    for _ in 0..count {
        let _reply = reply_of(alloc, &stub)?;
        total = total.wrapping_add(stub.len() as u64);
    }
    Ok(total)
}

/// Writes a reply so many times.
fn write_often(alloc: Global, reply: &FrsReply, count: u64) -> Result<u64, BenchError>
    requires { IsStatedReply reply.now }
{
    let mut total: u64 = 0;
    for _ in 0..count {
        total = total.wrapping_add(written(&write_reply(alloc, reply)?)?);
    }
    Ok(total)
}

/// Writes a page so many times.
fn write_page_often(alloc: Global, count: u64) -> Result<u64, BenchError> {
    let stub = page(alloc)?;
    let reply = reply_of(alloc, &stub)?;
    write_often(alloc, &reply, count)
}

/// Whether a PDU is a part of an answer.
fn is_response(pdu: &Pdu) -> bool
    ensures { IsTrue result → IsPart pdu.now.body }
{
    match &pdu.body {
        PduBody::Response(_) => true,
        _ => false,
    }
}

/// A stream, and how many bytes of calls came of it.
#[derive(Drop)]
struct Stream {
    splitter: Splitter,
    assembler: Assembler,
    total: u64,
}

/// Feeds a stream these bytes one by one.
fn feed_each(alloc: Global, stream: &mut Stream, bytes: &[u8]) -> Result<(), BenchError> {
    for byte in bytes {
        stream.splitter.push(alloc, &[*byte])?;
        let Ok(found) = stream.splitter.take(alloc) else {
            return Err(BenchError::Bad);
        };
        if let Some(pdu) = found {
            feed_pdu(stream, pdu)?;
        }
    }
    Ok(())
}

/// Gives the assembler a fragment.
fn feed_pdu(stream: &mut Stream, pdu: Pdu) -> Result<(), BenchError> {
    if !is_response(&pdu) {
        return Err(BenchError::Bad);
    }
    match stream.assembler.feed(pdu) {
        Ok(Some(whole)) => {
            stream.total = stream
                .total
                .wrapping_add(whole.stub.as_slice().len() as u64);
            Ok(())
        }
        Ok(None) => Ok(()),
        Err(_) => Err(BenchError::Bad),
    }
}

/// Feeds so many calls of 40 fragments in single bytes.
fn feed_often(alloc: Global, count: u64) -> Result<u64, BenchError> {
    let first = fragment(alloc, 1)?;
    let middle = fragment(alloc, 0)?;
    let last = fragment(alloc, 2)?;
    let mut stream = Stream {
        splitter: Splitter::new(alloc),
        assembler: Assembler::new(),
        total: 0,
    };
    for _ in 0..count {
        feed_each(alloc, &mut stream, &first)?;
        for _ in 0..38 {
            feed_each(alloc, &mut stream, &middle)?;
        }
        feed_each(alloc, &mut stream, &last)?;
    }
    Ok(stream.total)
}

/// Does a job so many times, and says how many bytes it went through.
pub fn run(alloc: Global, job: Job, count: u64) -> Result<u64, BenchError> {
    match job {
        Job::Decode => decode_often(alloc, count),
        Job::Encode => encode_often(alloc, count),
        Job::ReadPage => read_page_often(alloc, count),
        Job::WritePage => write_page_often(alloc, count),
        Job::Bytes => feed_often(alloc, count),
    }
}
