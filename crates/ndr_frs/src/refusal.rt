// Why a stub is no request and no reply.
ghost use Rattle.std.specs.Prelude.{◌≡◌};
ghost use Rattle.ndr_frs.specs.declared.refusal.StubError.TheVariants.{Bad, Memory};

use ndr_core::{NdrBad, NdrError};
use std::alloc::AllocError;
use std::error::Error;
use std::fmt;

/// The first thing that is wrong with a stub.
#[derive(Clone, Copy, Debug, PartialEq, Eq)]
pub enum StubBad {
    /// An item is refused, with its place in the stub.
    Item(NdrBad),
    /// No call has this number.
    Opnum,
}

impl fmt::Display for StubBad {
    fn fmt<W: fmt::Write>(&self, f: &mut fmt::Formatter<W>) -> fmt::Result {
        match self {
            StubBad::Item(bad) => write!(f, "{bad}"),
            StubBad::Opnum => write!(f, "no call has this number"),
        }
    }
}

impl Error for StubBad {}

/// Why there is no request and no reply.
#[derive(Debug, Drop)]
pub enum StubError {
    /// Memory ran out.
    Memory,
    /// The stub is refused.
    Bad(StubBad),
}

impl fmt::Display for StubError {
    fn fmt<W: fmt::Write>(&self, f: &mut fmt::Formatter<W>) -> fmt::Result {
        match self {
            StubError::Memory => write!(f, "out of memory"),
            StubError::Bad(bad) => write!(f, "{bad}"),
        }
    }
}

impl Error for StubError {}

impl From<NdrError> for StubError {
    ghost use Rattle.ndr_frs.specs.Stubs.{of_item};

    ghost from_gives = { λ bad e. e ≡ of_item bad };

    fn from(bad: NdrError) -> StubError {
        match bad {
            NdrError::Memory => StubError::Memory,
            NdrError::Bad(bad) => StubError::Bad(StubBad::Item(bad)),
        }
    }
}

impl From<AllocError> for StubError {
    ghost from_gives = { λ _ e. e ≡ Memory };

    fn from(_: AllocError) -> StubError {
        StubError::Memory
    }
}
