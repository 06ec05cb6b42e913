// Why a row gave no value.
ghost use Rattle.std.specs.Prelude.{◌≡◌};
ghost use Rattle.wire_rows.specs.declared.errors.RowError.TheVariants as errors;

use std::alloc::{AllocError, AllocFailed};
use std::error::Error;
use std::fmt;

/// Why a row, or a word of it, gave no value.
#[derive(Clone, Copy, Debug, PartialEq, Eq)]
pub enum RowError {
    /// It asks nothing.
    Bad,
    /// Memory ran out.
    Memory,
}

impl fmt::Display for RowError {
    fn fmt<W: fmt::Write>(&self, f: &mut fmt::Formatter<W>) -> fmt::Result {
        match self {
            RowError::Bad => write!(f, "no row"),
            RowError::Memory => write!(f, "out of memory"),
        }
    }
}

impl Error for RowError {}

impl From<AllocError> for RowError {
    ghost from_gives = { λ _ e. e ≡ errors.Memory };

    fn from(_: AllocError) -> RowError {
        RowError::Memory
    }
}

impl<T: Drop> From<AllocFailed<T>> for RowError {
    ghost from_gives = { λ _ e. e ≡ errors.Memory };

    fn from(_: AllocFailed<T>) -> RowError {
        RowError::Memory
    }
}
