// Why bytes give no value.
ghost use Rattle.std.specs.Prelude.{◌≡◌};
ghost use Rattle.ndr_core.specs.declared.refusal.NdrError.TheVariants.{Bad, Memory};

use std::alloc::{AllocError, AllocFailed};
use std::error::Error;
use std::fmt;

/// The first item that is refused: why, and the place where it begins, behind its padding.
#[derive(Clone, Copy, Debug, PartialEq, Eq)]
pub enum NdrBad {
    /// The bytes end before the item does.
    Short { at: usize },
    /// An offset isn't 0, or a count is too large.
    Count { at: usize },
    /// A string has no 0 at its end, or one before it.
    Terminator { at: usize },
    /// A field has none of its stated values.
    Value { at: usize },
    /// Bytes are left over.
    Rest { at: usize },
}

impl NdrBad {
    ghost use Rattle.ndr_core.specs.Refusals.{place_of};

    /// The place that is refused.
    pub fn place(self) -> usize
        ensures { result ≡ place_of self }
    {
        match self {
            NdrBad::Short { at }
            | NdrBad::Count { at }
            | NdrBad::Terminator { at }
            | NdrBad::Value { at }
            | NdrBad::Rest { at } => at,
        }
    }
}

impl fmt::Display for NdrBad {
    fn fmt<W: fmt::Write>(&self, f: &mut fmt::Formatter<W>) -> fmt::Result {
        match self {
            NdrBad::Short { at } => write!(f, "the bytes end within the item at {at}"),
            NdrBad::Count { at } => write!(f, "an offset or a count is wrong at {at}"),
            NdrBad::Terminator { at } => write!(f, "a string is not ended at {at}"),
            NdrBad::Value { at } => write!(f, "no value of the field at {at}"),
            NdrBad::Rest { at } => write!(f, "bytes are left over from {at} on"),
        }
    }
}

impl Error for NdrBad {}

/// Why a call that takes memory gives no value.
#[derive(Debug, Drop)]
pub enum NdrError {
    /// Memory ran out.
    Memory,
    /// The bytes are refused.
    Bad(NdrBad),
}

impl fmt::Display for NdrError {
    fn fmt<W: fmt::Write>(&self, f: &mut fmt::Formatter<W>) -> fmt::Result {
        match self {
            NdrError::Memory => write!(f, "out of memory"),
            NdrError::Bad(bad) => write!(f, "{bad}"),
        }
    }
}

impl Error for NdrError {}

impl From<NdrBad> for NdrError {
    ghost from_gives = { λ bad e. e ≡ Bad bad };

    fn from(bad: NdrBad) -> NdrError {
        NdrError::Bad(bad)
    }
}

impl From<AllocError> for NdrError {
    ghost from_gives = { λ _ e. e ≡ Memory };

    fn from(_: AllocError) -> NdrError {
        NdrError::Memory
    }
}

impl<T: Drop> From<AllocFailed<T>> for NdrError {
    ghost from_gives = { λ _ e. e ≡ Memory };

    fn from(_: AllocFailed<T>) -> NdrError {
        NdrError::Memory
    }
}
