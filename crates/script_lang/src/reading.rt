// One row: from text to the line that it spells.
ghost use Rattle.std.specs.Prelude.{◌≡◌};
ghost use Rattle.script_lang.specs.Grammar.{IsText};
ghost use Rattle.script_lang.specs.Reading.{Reads, Spells, line_of_four, line_of_three, line_of_two};

use crate::errors::RowError;
use crate::line::Line;
use crate::number::number_of;
use crate::path::path_of;
use crate::words::{Keyword, keyword_in, kind_of, member_name_of};
use frs_base::Bytes;
use std::alloc::Global;

/// Moments are below this.
const MOMENTS: u64 = 1 << 61;

/// Lengths are below this.
const LENGTHS: u64 = 1 << 32;

/// The line of two words.
fn line_of_two(alloc: Global, keyword: Keyword, name: &str) -> Result<Line, RowError>
    ensures { Reads result (line_of_two keyword name.now) }
{
    let name = member_name_of(alloc, name)?;
    match keyword {
        Keyword::Install => Ok(Line::Install { name }),
        Keyword::Drain => Ok(Line::Drain { name }),
        Keyword::Show => Ok(Line::Show { name }),
        Keyword::Tree => Ok(Line::Tree { name }),
        Keyword::Sums => Ok(Line::Sums { name }),
        Keyword::Count => Ok(Line::Count { name }),
        _ => Err(RowError::Bad),
    }
}

/// The line of three words.
fn line_of_three(alloc: Global, keyword: Keyword, name: &str, third: &str) -> Result<Line, RowError>
    ensures { Reads result (line_of_three keyword name.now third.now) }
{
    let name = member_name_of(alloc, name)?;
    match keyword {
        Keyword::Member => Ok(Line::Member {
            name,
            kind: kind_of(third)?,
        }),
        Keyword::Mkdir => Ok(Line::Mkdir {
            name,
            path: path_of(alloc, third)?,
        }),
        Keyword::Remove => Ok(Line::Remove {
            name,
            path: path_of(alloc, third)?,
        }),
        Keyword::Consume => Ok(Line::Consume {
            name,
            moment: number_of(third, MOMENTS)?,
        }),
        Keyword::Pull => Ok(Line::Pull {
            name,
            other: member_name_of(alloc, third)?,
        }),
        _ => Err(RowError::Bad),
    }
}

/// The line of four words, the last of which is all the rest of its row.
fn line_of_four(
    alloc: Global,
    keyword: Keyword,
    name: &str,
    third: &str,
    rest: &str,
) -> Result<Line, RowError>
    ensures { Reads result (line_of_four keyword name.now third.now rest.now) }
{
    let name = member_name_of(alloc, name)?;
    let path = path_of(alloc, third)?;
    match keyword {
        Keyword::Put => Ok(Line::Put {
            name,
            path,
            text: Bytes::of(Vec::from_slice(alloc, rest.as_bytes())?),
        }),
        Keyword::Fill => Ok(Line::Fill {
            name,
            path,
            length: number_of(rest, LENGTHS)?,
        }),
        Keyword::Move => Ok(Line::Move {
            name,
            from: path,
            to: path_of(alloc, rest)?,
        }),
        Keyword::Change => Ok(Line::Change {
            name,
            path,
            moment: number_of(rest, MOMENTS)?,
        }),
        _ => Err(RowError::Bad),
    }
}

/// The line that a row spells.
pub fn line_of_row(alloc: Global, row: &str) -> Result<Line, RowError>
    requires { IsText row.now }
    ensures { Spells result row.now }
{
    let Some((word, rest)) = row.split_once(' ') else {
        return Err(RowError::Bad);
    };
    let Some(keyword) = keyword_in(word) else {
        return Err(RowError::Bad);
    };
    let Some((name, rest)) = rest.split_once(' ') else {
        return line_of_two(alloc, keyword, rest);
    };
    let Some((third, rest)) = rest.split_once(' ') else {
        return line_of_three(alloc, keyword, name, rest);
    };
    line_of_four(alloc, keyword, name, third, rest)
}
