// From bytes to the lines of a script.
ghost use Rattle.std.specs.Prelude.{◌≡◌, IfErr, IfOk};
ghost use Rattle.script_lang.specs.Grammar.{HasNoLineFeed};
ghost use Rattle.script_lang.specs.Reading.{Judges};
ghost use Rattle.script_lang.specs.Refusals.{IsRefused};
ghost use Rattle.script_lang.specs.Script.{IsPrefix, IsScript};

use crate::errors::{ParseError, RowError};
use crate::line::Line;
use crate::reading::line_of_row;
use crate::rows::says_something;
use std::alloc::{AllocError, Global};

/// What bytes give before their first row outside the grammar.
#[derive(Debug, Drop)]
pub struct Prefix {
    /// The lines that the rows before it spell.
    pub lines: Vec<Line>,
    /// Its number, from 1, with rows that say nothing counted; or none, where every row is in the
    /// grammar.
    pub bad: Option<u64>,
}

/// The line of a row, if the row says something.
fn read_row(alloc: Global, row: &[u8]) -> Result<Option<Line>, RowError>
    requires { HasNoLineFeed row.now }
    ensures { Judges result row.now }
{
    let Ok(text) = str::from_utf8(row) else {
        return Err(RowError::Bad);
    };
    if !says_something(row) {
        return Ok(None);
    }
    Ok(Some(line_of_row(alloc, text)?))
}

/// The lines of bytes up to their first row outside the grammar.
pub fn parse_prefix(alloc: Global, text: &[u8]) -> Result<Prefix, AllocError>
    ensures { IfOk result (λ prefix. IsPrefix text.now prefix.lines.items prefix.bad) }
{
    let mut lines = Vec::new(alloc);
    let mut number = 0;
    for row in text.split(|b| *b == b'\n') {
        number += 1;
        let found = match read_row(alloc, row) {
            Ok(found) => found,
            Err(RowError::Bad) => {
                return Ok(Prefix {
                    lines,
                    bad: Some(number),
                });
            }
            Err(RowError::Memory) => return Err(AllocError),
        };
        if let Some(line) = found {
            lines.push(line)?;
        }
    }
    Ok(Prefix { lines, bad: None })
}

/// The lines of a script, or the number of its first row outside the grammar.
pub fn parse(alloc: Global, text: &[u8]) -> Result<Vec<Line>, ParseError>
    ensures lines { IfOk result (λ lines. IsScript text.now lines.items) }
    ensures refused { IfErr result (λ e. IsRefused e text.now) }
{
    let Prefix { lines, bad } = parse_prefix(alloc, text)?;
    match bad {
        None => Ok(lines),
        Some(number) => Err(ParseError::LineBad { number }),
    }
}
