// What is said of a stream that comes in pieces.
ghost use Rattle.std.specs.Prelude.{◌≡◌, ◌++◌, IfOk, OnOk, codes, string_bytes};
ghost use Rattle.ndr_core.specs.Items.{AreBytes};
ghost use Rattle.rpc_frag.specs.Assembling.{Feeds};
ghost use Rattle.wire_rows.specs.Feeding.{Drains, IsFresh, Pushed, Takes, Tells, Turns, feed_answer, fed, is_part};

use crate::naming::{bad_text, call_text, frag_bad_text, pdu_text};
use frs_base::Bytes;
use rpc_frag::{Assembler, FragError, Splitter, StreamError, Whole};
use rpc_pdu::{Pdu, PduBody};
use std::alloc::{AllocError, Global};

/// What parts what is said.
const BETWEEN: &str = "; ";

/// What one look at a stream came to.
#[derive(Clone, Copy, Debug, PartialEq, Eq)]
pub enum Turn {
    /// A PDU was taken.
    Took,
    /// No PDU is there in full.
    Waits,
    /// Something was refused, and nothing more is read.
    Ended,
}

/// A stream of which pieces have come, and the call that they have begun.
#[derive(Debug, Drop)]
pub struct Stream {
    splitter: Splitter,
    assembler: Assembler,
}

/// Whether a PDU is a part of a call or of an answer.
fn is_part(body: &PduBody) -> bool
    ensures { result ≡ is_part body.now }
{
    match body {
        PduBody::Request(_) | PduBody::Response(_) => true,
        _ => false,
    }
}

/// Gives the assembler a PDU, if it is a part of a call or of an answer.
fn feed(assembler: &mut Assembler, pdu: Pdu) -> Result<Option<Whole>, FragError>
    ensures { Feeds result assembler.new (fed assembler.old pdu) }
{
    if is_part(&pdu.body) {
        return assembler.feed(pdu);
    }
    Ok(None)
}

/// The next PDU of a stream, and how many bytes it has.
fn take_sized(alloc: Global, splitter: &mut Splitter) -> Result<Option<(Pdu, usize)>, StreamError>
    ensures { Takes result splitter.old splitter.new }
{
    let before = splitter.at();
    match splitter.take(alloc) {
        Ok(Some(pdu)) => Ok(Some((pdu, splitter.at() - before))),
        Ok(None) => Ok(None),
        Err(error) => Err(error),
    }
}

/// Says something behind which more is said.
fn say(said: &mut String, part: &str) -> Result<(), AllocError>
    ensures { OnOk result
        (string_bytes said.new ≡ string_bytes said.old ++ (part.now ++ codes "; ")) }
{
    said.push_str(part)?;
    said.push_str(BETWEEN)
}

impl Stream {
    /// The beginning of a stream.
    fn new(alloc: Global) -> Stream
        ensures { IsFresh result }
    {
        Stream {
            splitter: Splitter::new(alloc),
            assembler: Assembler::new(),
        }
    }

    /// Says of a PDU what it is, and of the call that it completes.
    fn tell(
        &mut self,
        alloc: Global,
        pdu: Pdu,
        size: usize,
        said: &mut String,
    ) -> Result<Turn, AllocError>
        ensures { IfOk result (λ turn. Tells turn (pdu, size) self.old self.new
            (string_bytes said.old) (string_bytes said.new)) }
    {
        say(said, pdu_text(alloc, size, &pdu.body)?.as_str())?;
        match feed(&mut self.assembler, pdu) {
            Ok(None) => Ok(Turn::Took),
            Ok(Some(whole)) => {
                say(said, call_text(alloc, &whole)?.as_str())?;
                Ok(Turn::Took)
            }
            Err(FragError::Bad(bad)) => {
                said.push_str(frag_bad_text(alloc, bad)?.as_str())?;
                Ok(Turn::Ended)
            }
            Err(FragError::Memory) => Err(AllocError),
        }
    }

    /// Takes the next PDU, and says what there is.
    fn turn(&mut self, alloc: Global, said: &mut String) -> Result<Turn, AllocError>
        ensures { IfOk result (λ turn. Turns turn self.old self.new
            (string_bytes said.old) (string_bytes said.new)) }
    {
        match take_sized(alloc, &mut self.splitter) {
            Ok(None) => Ok(Turn::Waits),
            Ok(Some((pdu, size))) => self.tell(alloc, pdu, size, said),
            Err(StreamError::Bad(bad)) => {
                said.push_str(bad_text(alloc, bad.why)?.as_str())?;
                Ok(Turn::Ended)
            }
            Err(StreamError::Memory) => Err(AllocError),
        }
    }

    /// Takes all PDUs that are there in full, and says whether the stream goes on.
    fn drain(&mut self, alloc: Global, said: &mut String) -> Result<bool, AllocError>
        requires { AreBytes self.old.splitter.rest }
        ensures { IfOk result (λ goes. Drains goes self.old self.new
            (string_bytes said.old) (string_bytes said.new)) }
    {
        'turns: loop {
            match self.turn(alloc, said)? {
                Turn::Took => {}
                Turn::Waits => return Ok(true),
                Turn::Ended => return Ok(false),
            }
        }
    }

    /// Adds a piece.
    fn push(&mut self, alloc: Global, piece: &[u8]) -> Result<(), AllocError>
        ensures { OnOk result (Pushed self.old self.new piece.now) }
    {
        self.splitter.push(alloc, piece)
    }
}

/// What is said of a stream that comes in these pieces, in one row.
pub fn feed_answer(alloc: Global, pieces: &[Bytes]) -> Result<String, AllocError>
    ensures { IfOk result (λ text. string_bytes text ≡ feed_answer pieces.now) }
{
    let mut stream = Stream::new(alloc);
    let mut said = String::new(alloc);
    for piece in pieces {
        stream.push(alloc, piece.as_slice())?;
        if !stream.drain(alloc, &mut said)? {
            return Ok(said);
        }
    }
    let left = stream.splitter.left();
    said.push_str(format!(in alloc; "rest {left}")?.as_str())?;
    Ok(said)
}
