// PDUs off a stream that comes in pieces.
ghost use Rattle.std.specs.Prelude.{◌≡◌, [], length};
ghost use Rattle.rpc_pdu.specs.Decoding.{decoded};
ghost use Rattle.rpc_frag.specs.Splitting.{Pushes, Steps};

use crate::{StreamBad, StreamError};
use rpc_pdu::{Pdu, PduError, decode};
use std::alloc::{AllocError, Global};
use std::marker::Model;

/// What no stream is as long as.
const LONGEST: usize = 1 << 63;

/// The end of a stream that came in pieces: what of it wasn't taken yet.
///
/// A contract sees the place in the stream, and the bytes that have come from there on.
#[derive(Debug, Drop)]
pub struct Splitter {
    /// The place.
    at: usize,
    /// How many bytes of those below were taken.
    taken: usize,
    bytes: Vec<u8>,
}

impl Model for Splitter {
    ghost use Rattle.std.specs.Prelude.{◌+◌, ◌≤◌, ◌<◌, ◌^◌, drop, length};
    ghost use Rattle.ndr_core.specs.Cursor.{Cursor};

    ghost Value = { Cursor };

    ghost view = { λ s. record { at = s.at; rest = drop s.taken s.bytes.items } };

    ghost invariant = { λ s. (s.taken ≤ length s.bytes.items)
        × (s.at + length (drop s.taken s.bytes.items) < 2 ^ 63) };
}

impl Splitter {
    /// The beginning of a stream of which nothing has come; takes no memory.
    pub fn new(alloc: Global) -> Splitter
        ensures { result ≡ record { at = 0; rest = [] } }
    {
        Splitter {
            at: 0,
            taken: 0,
            bytes: Vec::new(alloc),
        }
    }

    /// The place in the stream up to which it was taken.
    pub fn at(&self) -> usize
        ensures { result ≡ self.now.at }
    {
        self.at
    }

    /// How many bytes came and weren't taken.
    pub fn left(&self) -> usize
        ensures { result ≡ length self.now.rest }
    {
        self.bytes.len() - self.taken
    }

    /// Forgets the bytes that were taken.
    fn forget(&mut self, alloc: Global) -> Result<(), AllocError>
        ensures { self.new ≡ self.old }
    {
        if self.taken > 0 {
            let rest = Vec::from_slice(alloc, &self.bytes[self.taken..])?;
            self.bytes = rest;
            self.taken = 0;
        }
        Ok(())
    }

    /// Adds the next piece of the stream. A stream of 2^63 bytes is want of memory too.
    pub fn push(&mut self, alloc: Global, piece: &[u8]) -> Result<(), AllocError>
        ensures { Pushes result self.old piece.now self.new }
    {
        self.forget(alloc)?;
        if piece.len() >= LONGEST - self.at - (self.bytes.len() - self.taken) {
            return Err(AllocError);
        }
        self.bytes.extend_from_slice(piece)
    }

    /// Takes the PDU at the front, or nothing where it isn't there in full yet. A refused stream
    /// stands where it is refused, so that each further call refuses it again.
    pub fn take(&mut self, alloc: Global) -> Result<Option<Pdu>, StreamError>
        ensures { Steps decoded result self.old self.new }
    {
        let at = self.at;
        match decode(alloc, &self.bytes[self.taken..]) {
            Ok(None) => Ok(None),
            Ok(Some((pdu, size))) => {
                self.at += size;
                self.taken += size;
                Ok(Some(pdu))
            }
            Err(PduError::Memory) => Err(StreamError::Memory),
            Err(PduError::Bad(why)) => Err(StreamError::Bad(StreamBad { at, why })),
        }
    }
}
