// Rows of two slots each, in hex, and what is found of them.
ghost use Rattle.std.specs.Prelude.{◌≡◌, ◌≤◌, ◌==◌, IfOk, IfSome, IfNone, OnErr, OnOk, drop, length, position, string_bytes};
ghost use Rattle.slot_probe.specs.Rows.{Answered, FindsInRow, IsNoWord, Lacks, SpellsWord, Writes, WritesSome, found_text};
ghost use Rattle.slot_probe.specs.declared.probe.ProbeError.TheVariants as causes;
ghost use Rattle.slot_probe.specs.declared.rows.RowsError.TheVariants as errors;

use crate::probe::{Found, ProbeError, probe};
use frs_io::{Sink, WriteError, hand_on, write_all};
use hex::FromHexError;
use std::alloc::{AllocError, Global};

/// Why not all rows were answered.
#[derive(Clone, Copy, Debug, PartialEq, Eq)]
pub enum RowsError {
    Probe(ProbeError),
    Write(WriteError),
}

impl From<AllocError> for RowsError {
    ghost from_gives = { λ _ error. error ≡ errors.Probe causes.Memory };

    fn from(_error: AllocError) -> RowsError {
        RowsError::Probe(ProbeError::Memory)
    }
}

impl From<ProbeError> for RowsError {
    ghost from_gives = { λ why error. error ≡ errors.Probe why };

    fn from(why: ProbeError) -> RowsError {
        RowsError::Probe(why)
    }
}

impl From<WriteError> for RowsError {
    ghost from_gives = { λ why error. error ≡ errors.Write why };

    fn from(why: WriteError) -> RowsError {
        RowsError::Write(why)
    }
}

/// The place of the first such byte.
fn place_of(bytes: &[u8], byte: u8) -> Option<usize>
    ensures { result ≡ position (λ b. b == byte) bytes.now }
{
    bytes.iter().position(|b| *b == byte)
}

/// The bytes that a word spells in hex, `-` for none.
fn bytes_of(alloc: Global, word: &[u8]) -> Result<Option<Vec<u8>>, AllocError>
    ensures some { IfOk result (λ found. IfSome found (λ bytes. SpellsWord word.now bytes.items)) }
    ensures none { IfOk result (λ found. IfNone found (IsNoWord word.now)) }
{
    if word == b"-".as_slice() {
        return Ok(Some(Vec::new(alloc)));
    }
    match hex::decode(alloc, word) {
        Ok(bytes) => Ok(Some(bytes)),
        Err(FromHexError::OutOfMemory) => Err(AllocError),
        Err(_) => Ok(None),
    }
}

/// What is found of the two slots of a row, `None` where it isn't two words of hex.
pub fn found_in_row(alloc: Global, row: &[u8]) -> Result<Option<Found>, ProbeError>
    ensures { IfOk result (λ answer. FindsInRow row.now answer) }
{
    let Some(at) = place_of(row, b' ') else {
        return Ok(None);
    };
    let Some(a) = bytes_of(alloc, &row[..at])? else {
        return Ok(None);
    };
    let Some(b) = bytes_of(alloc, &row[at + 1..])? else {
        return Ok(None);
    };
    Ok(Some(probe(alloc, a.as_slice(), b.as_slice())?))
}

/// The row that is written of what was found, without a line feed.
fn text_of(alloc: Global, found: Option<Found>) -> Result<String, AllocError>
    ensures { IfOk result (λ text. string_bytes text ≡ found_text found) }
{
    match found {
        None => String::from_str(alloc, "no row"),
        Some(Found::Damaged { slot, offset }) => format!(in alloc; "damaged {slot} {offset}"),
        Some(Found::State { count, serial, sum }) => {
            let digits = hex::encode(alloc, sum.0)?;
            format!(in alloc; "state {count} {serial} {digits}")
        }
    }
}

/// What is written of a row, with a line feed.
fn answered(alloc: Global, row: &[u8]) -> Result<String, RowsError>
    requires { Lacks 10 row.now }
    ensures { IfOk result (λ said. Answered row.now (string_bytes said)) }
{
    let found = found_in_row(alloc, row)?;
    let mut said = text_of(alloc, found)?;
    said.push('\n')?;
    Ok(said)
}

/// What stands behind so many bytes.
fn behind(bytes: &[u8], size: usize) -> &[u8]
    requires { size ≤ length bytes.now }
    ensures { result.now ≡ drop size bytes.now }
{
    &bytes[size..]
}

/// Writes what is found of each row, in order. What stands behind the last line feed is no row.
pub fn write_answers<K: Sink>(alloc: Global, rows: &[u8], out: &mut K) -> Result<(), RowsError>
    ensures done { OnOk result (Writes rows.now (K.taken out.old) (K.taken out.new)) }
    ensures err { OnErr result (WritesSome rows.now (K.taken out.old) (K.taken out.new)) }
{
    let mut rest = rows;
    let mut pending = String::new(alloc);
    while let Some(end) = place_of(rest, b'\n') {
        let said = answered(alloc, &rest[..end])?;
        pending.push_str(said.as_str())?;
        hand_on(alloc, out, &mut pending)?;
        rest = behind(rest, end + 1);
    }
    write_all(alloc, out, pending.as_bytes())?;
    Ok(())
}
