// Why bytes are no PDU.
ghost use Rattle.std.specs.Prelude.{◌≡◌};
ghost use Rattle.rpc_pdu.specs.declared.refusal.PduError.TheVariants.{Bad, Memory};

use ndr_core::NdrError;
use std::alloc::AllocError;
use std::error::Error;
use std::fmt;

/// The first thing that is wrong with a PDU, in the order in which they are looked for.
#[derive(Clone, Copy, Debug, PartialEq, Eq)]
pub enum PduBad {
    /// Of another version of the protocol than 5.0 and 5.1.
    Version,
    /// A kind that isn't read.
    Kind,
    /// Numbers or characters in another representation.
    Drep,
    /// A length that no fragment has.
    Length,
    /// With authentication.
    Auth,
    /// The body has a field that is missing or cut off, or bytes left over, from a place on that
    /// is counted from the PDU's start; or there would be an object UUID, by the flags at place 3.
    Body { at: usize },
}

impl fmt::Display for PduBad {
    fn fmt<W: fmt::Write>(&self, f: &mut fmt::Formatter<W>) -> fmt::Result {
        match self {
            PduBad::Version => write!(f, "another version"),
            PduBad::Kind => write!(f, "a kind that is not read"),
            PduBad::Drep => write!(f, "another data representation"),
            PduBad::Length => write!(f, "a length that no fragment has"),
            PduBad::Auth => write!(f, "authentication"),
            PduBad::Body { at } => write!(f, "the body is wrong at byte {at}"),
        }
    }
}

impl Error for PduBad {}

/// Why there is no PDU.
#[derive(Debug, Drop)]
pub enum PduError {
    /// Memory ran out.
    Memory,
    /// The bytes are refused.
    Bad(PduBad),
}

impl fmt::Display for PduError {
    fn fmt<W: fmt::Write>(&self, f: &mut fmt::Formatter<W>) -> fmt::Result {
        match self {
            PduError::Memory => write!(f, "out of memory"),
            PduError::Bad(bad) => write!(f, "{bad}"),
        }
    }
}

impl Error for PduError {}

impl From<PduBad> for PduError {
    ghost from_gives = { λ bad e. e ≡ Bad bad };

    fn from(bad: PduBad) -> PduError {
        PduError::Bad(bad)
    }
}

impl From<NdrError> for PduError {
    ghost use Rattle.rpc_pdu.specs.Refusals.{of_body};

    ghost from_gives = { λ bad e. e ≡ of_body bad };

    fn from(bad: NdrError) -> PduError {
        match bad {
            NdrError::Memory => PduError::Memory,
            NdrError::Bad(bad) => PduError::Bad(PduBad::Body { at: bad.place() }),
        }
    }
}

impl From<AllocError> for PduError {
    ghost from_gives = { λ _ e. e ≡ Memory };

    fn from(_: AllocError) -> PduError {
        PduError::Memory
    }
}
