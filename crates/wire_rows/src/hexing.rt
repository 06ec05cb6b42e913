// Bytes as hexadecimal digits, both ways.
ghost use Rattle.std.specs.Prelude.{◌≡◌, IfOk, string_bytes};
ghost use Rattle.wire_rows.specs.Reading.{Reads, bytes_in};
ghost use Rattle.wire_rows.specs.Naming.{hex_word};

use crate::RowError;
use frs_base::Bytes;
use hex::FromHexError;
use std::alloc::{AllocError, Global};

/// The bytes that a word spells.
pub fn bytes_in(alloc: Global, word: &[u8]) -> Result<Bytes, RowError>
    ensures { Reads result (bytes_in word.now) }
{
    if word == b"-".as_slice() {
        return Ok(Bytes::of(Vec::new(alloc)));
    }
    if word.is_empty() {
        return Err(RowError::Bad);
    }
    match hex::decode(alloc, word) {
        Ok(bytes) => Ok(Bytes::of(bytes)),
        Err(FromHexError::OutOfMemory) => Err(RowError::Memory),
        Err(_) => Err(RowError::Bad),
    }
}

/// The word that spells bytes, in lower case.
pub fn hex_word(alloc: Global, bytes: &[u8]) -> Result<String, AllocError>
    ensures { IfOk result (λ text. string_bytes text ≡ hex_word bytes.now) }
{
    if bytes.is_empty() {
        return String::from_str(alloc, "-");
    }
    hex::encode(alloc, bytes)
}
