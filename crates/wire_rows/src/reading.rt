// From the text of a row to what it asks.
ghost use Rattle.std.specs.Prelude.{◌≡◌, ◌==◌, MatchOption, position};
ghost use Rattle.wire_rows.specs.Reading.{Reads, cut, keyword_in, pieces_in, row_in, row_with, stub_in};

use crate::hexing::bytes_in;
use crate::number::number_in;
use crate::{RowError, WireRow};
use frs_base::{Bytes, List};
use std::alloc::Global;

/// The word that a row begins with.
#[derive(Clone, Copy, Debug, PartialEq, Eq)]
pub enum Keyword {
    Pdu,
    Request,
    Reply,
    Feed,
    Form,
}

/// The place of the first space.
fn space_in(row: &[u8]) -> Option<usize>
    ensures { result ≡ position (λ b. b == 32) row.now }
{
    row.iter().position(|b| *b == b' ')
}

/// What stands before the first space, and what behind it.
fn cut(row: &[u8]) -> Option<(&[u8], &[u8])>
    ensures { MatchOption result (cut row.now ≡ None) (λ p. cut row.now ≡ Some (p.0.now, p.1.now)) }
{
    let Some(at) = space_in(row) else {
        return None;
    };
    Some((&row[..at], &row[at + 1..]))
}

/// The keyword that a word is.
fn keyword_in(word: &[u8]) -> Option<Keyword>
    ensures { result ≡ keyword_in word.now }
{
    if word == b"pdu".as_slice() {
        Some(Keyword::Pdu)
    } else if word == b"request".as_slice() {
        Some(Keyword::Request)
    } else if word == b"reply".as_slice() {
        Some(Keyword::Reply)
    } else if word == b"feed".as_slice() {
        Some(Keyword::Feed)
    } else if word == b"form".as_slice() {
        Some(Keyword::Form)
    } else {
        None
    }
}

/// The pieces that words spell.
fn pieces_in(alloc: Global, words: &[u8]) -> Result<List<Bytes>, RowError>
    ensures { Reads result (pieces_in words.now) }
{
    let mut pieces = Vec::new(alloc);
    for word in words.split(|b| *b == b' ') {
        match bytes_in(alloc, word) {
            Ok(bytes) => pieces.push(bytes)?,
            Err(error) => return Err(error),
        }
    }
    Ok(List::of(pieces))
}

/// The method's number and the stub that two words spell.
fn stub_in(alloc: Global, words: &[u8]) -> Result<(u16, Bytes), RowError>
    ensures { Reads result (stub_in words.now) }
{
    let Some((number, digits)) = cut(words) else {
        return Err(RowError::Bad);
    };
    let Some(opnum) = number_in(number) else {
        return Err(RowError::Bad);
    };
    Ok((opnum, bytes_in(alloc, digits)?))
}

/// What a row asks, by its keyword and the words behind it.
fn row_with(alloc: Global, keyword: Keyword, words: &[u8]) -> Result<WireRow, RowError>
    ensures { Reads result (row_with keyword words.now) }
{
    match keyword {
        Keyword::Pdu => Ok(WireRow::Pdu(bytes_in(alloc, words)?)),
        Keyword::Request => {
            let (opnum, stub) = stub_in(alloc, words)?;
            Ok(WireRow::Request { opnum, stub })
        }
        Keyword::Reply => {
            let (opnum, stub) = stub_in(alloc, words)?;
            Ok(WireRow::Reply { opnum, stub })
        }
        Keyword::Feed => Ok(WireRow::Feed(pieces_in(alloc, words)?)),
        Keyword::Form => Ok(WireRow::Form(bytes_in(alloc, words)?)),
    }
}

/// What a row asks, which is text without its line feed.
pub fn row_of(alloc: Global, row: &[u8]) -> Result<WireRow, RowError>
    ensures { Reads result (row_in row.now) }
{
    let Some((word, words)) = cut(row) else {
        return Err(RowError::Bad);
    };
    let Some(keyword) = keyword_in(word) else {
        return Err(RowError::Bad);
    };
    row_with(alloc, keyword, words)
}
