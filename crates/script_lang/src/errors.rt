// Why bytes gave no lines.
ghost use Rattle.std.specs.Prelude.{◌≡◌, Some};
ghost use Rattle.script_lang.specs.Refusals.{error_text, row_error_text};
ghost use Rattle.script_lang.specs.declared.errors.ParseError.TheVariants as parsing;
ghost use Rattle.script_lang.specs.declared.errors.RowError.TheVariants as row;

use std::alloc::{AllocError, AllocFailed};
use std::error::Error;
use std::fmt;

/// Why bytes gave no lines.
#[derive(Clone, Copy, Debug, PartialEq, Eq)]
pub enum ParseError {
    /// A row is outside the grammar, and none before it is.
    LineBad {
        /// The row's number, from 1, with rows that say nothing counted.
        number: u64,
    },
    /// Memory ran out.
    Memory,
}

impl fmt::Display for ParseError {
    ghost output = { λ e. Some (error_text e) };

    fn fmt<W: fmt::Write>(&self, f: &mut fmt::Formatter<W>) -> fmt::Result {
        match self {
            ParseError::LineBad { number } => write!(f, "bad line {number}"),
            ParseError::Memory => write!(f, "out of memory"),
        }
    }
}

impl Error for ParseError {}

impl From<AllocError> for ParseError {
    ghost from_gives = { λ _ e. e ≡ parsing.Memory };

    fn from(_: AllocError) -> Self {
        ParseError::Memory
    }
}

impl<T: Drop> From<AllocFailed<T>> for ParseError {
    ghost from_gives = { λ _ e. e ≡ parsing.Memory };

    fn from(_: AllocFailed<T>) -> Self {
        ParseError::Memory
    }
}

/// Why one row, or a word of it, gave no value.
#[derive(Clone, Copy, Debug, PartialEq, Eq)]
pub enum RowError {
    /// It is outside the grammar.
    Bad,
    /// Memory ran out.
    Memory,
}

impl fmt::Display for RowError {
    ghost output = { λ e. Some (row_error_text e) };

    fn fmt<W: fmt::Write>(&self, f: &mut fmt::Formatter<W>) -> fmt::Result {
        match self {
            RowError::Bad => write!(f, "outside the grammar"),
            RowError::Memory => write!(f, "out of memory"),
        }
    }
}

impl Error for RowError {}

impl From<AllocError> for RowError {
    ghost from_gives = { λ _ e. e ≡ row.Memory };

    fn from(_: AllocError) -> Self {
        RowError::Memory
    }
}

impl<T: Drop> From<AllocFailed<T>> for RowError {
    ghost from_gives = { λ _ e. e ≡ row.Memory };

    fn from(_: AllocFailed<T>) -> Self {
        RowError::Memory
    }
}
