// Rows one after the other, from bytes to what is written of them.
ghost use Rattle.std.specs.Prelude.{◌≡◌, ◌≤◌, ◌==◌, IfOk, OnErr, drop, length, position, string_bytes};
ghost use Rattle.frs_io.specs.Causes.{HasWriteCause};
ghost use Rattle.frswire.specs.Rows.{HasNoLineFeed, IsRow, WritesSome, bad_line};
ghost use Rattle.frswire.specs.Steps.{Ends, IsAt, IsNext, Judges};

use frs_io::{Sink, WriteError, hand_on, write_all};
use std::alloc::{AllocError, Global};
use wire_rows::{RowError, answer, row_of};

/// The most bytes that a row has.
const LONGEST: usize = 16_777_216;

/// What stands at the front of bytes.
#[derive(Debug, Drop)]
pub enum Found {
    /// A row that has an answer, and how many bytes it has with its line feed.
    Row { said: String, size: usize },
    /// Nothing.
    Nothing,
    /// A row that asks nothing.
    Bad,
    /// A row that is too long.
    Long,
}

/// How the rows end.
#[derive(Clone, Copy, Debug, PartialEq, Eq)]
pub enum Ending {
    /// All were answered.
    All,
    /// One asks nothing.
    Bad,
    /// One is too long.
    Long,
}

/// The place of the first line feed.
fn line_feed(bytes: &[u8]) -> Option<usize>
    ensures { result ≡ position (λ b. b == 10) bytes.now }
{
    bytes.iter().position(|b| *b == b'\n')
}

/// Answers a row, with a line feed.
fn answered(alloc: Global, row: &[u8]) -> Result<String, RowError>
    requires { IsRow row.now }
    ensures { Judges result row.now }
{
    let asks = row_of(alloc, row)?;
    let mut said = answer(alloc, &asks)?;
    said.push('\n')?;
    Ok(said)
}

/// A row that ends at a line feed.
fn row_at(alloc: Global, row: &[u8]) -> Result<Found, AllocError>
    requires { HasNoLineFeed row.now }
    ensures { IfOk result (λ next. IsAt next row.now) }
{
    if row.len() > LONGEST {
        return Ok(Found::Long);
    }
    match answered(alloc, row) {
        Ok(said) => Ok(Found::Row {
            said,
            size: row.len() + 1,
        }),
        Err(RowError::Bad) => Ok(Found::Bad),
        Err(RowError::Memory) => Err(AllocError),
    }
}

/// What bytes without a line feed are.
fn end_at(bytes: &[u8]) -> Found
    requires { HasNoLineFeed bytes.now }
    ensures { IsNext result bytes.now }
{
    if bytes.is_empty() {
        Found::Nothing
    } else if bytes.len() > LONGEST {
        Found::Long
    } else {
        Found::Bad
    }
}

/// What stands at the front of bytes.
fn next(alloc: Global, bytes: &[u8]) -> Result<Found, AllocError>
    ensures { IfOk result (λ next. IsNext next bytes.now) }
{
    match line_feed(bytes) {
        None => Ok(end_at(bytes)),
        Some(at) => row_at(alloc, &bytes[..at]),
    }
}

/// What stands behind so many bytes.
fn behind(bytes: &[u8], size: usize) -> &[u8]
    requires { size ≤ length bytes.now }
    ensures { result.now ≡ drop size bytes.now }
{
    &bytes[size..]
}

/// The line that names the row of a number.
fn bad_line(alloc: Global, number: u64) -> Result<String, AllocError>
    ensures { IfOk result (λ text. string_bytes text ≡ bad_line number) }
{
    format!(in alloc; "bad line {number}\n")
}

/// Answers the rows of bytes, and writes the answers in pieces.
pub fn write_rows<K: Sink>(alloc: Global, bytes: &[u8], out: &mut K) -> Result<Ending, WriteError>
    ensures ok { IfOk result (λ ending. Ends ending bytes.now (K.taken out.old) (K.taken out.new)) }
    ensures err { OnErr result (WritesSome bytes.now (K.taken out.old) (K.taken out.new)) }
    ensures cause { HasWriteCause (K.faults out.old) (K.faults out.new) result }
{
    let mut rest = bytes;
    let mut number: u64 = 0;
    let mut pending = String::new(alloc);
    'rows: loop {
        number += 1;
        match next(alloc, rest)? {
            Found::Row { said, size } => {
                pending.push_str(said.as_str())?;
                hand_on(alloc, out, &mut pending)?;
                rest = behind(rest, size);
            }
            Found::Bad => {
                pending.push_str(bad_line(alloc, number)?.as_str())?;
                write_all(alloc, out, pending.as_bytes())?;
                return Ok(Ending::Bad);
            }
            Found::Nothing => {
                write_all(alloc, out, pending.as_bytes())?;
                return Ok(Ending::All);
            }
            Found::Long => {
                write_all(alloc, out, pending.as_bytes())?;
                return Ok(Ending::Long);
            }
        }
    }
}
