// Why fragments give no call, and why a stream has no further PDU.
ghost use Rattle.std.specs.Prelude.{◌≡◌};
ghost use Rattle.rpc_frag.specs.declared.refusal.FragError.TheVariants.{Bad, Memory};

use rpc_pdu::PduBad;
use std::alloc::AllocError;
use std::error::Error;
use std::fmt;

/// Why a fragment is refused.
#[derive(Clone, Copy, Debug, PartialEq, Eq)]
pub enum FragBad {
    /// It is a first one where a call is begun, none where none is, or of another call.
    FragOrder,
    /// With it the stub would be so long.
    FragTooLong { length: usize },
}

impl fmt::Display for FragBad {
    fn fmt<W: fmt::Write>(&self, f: &mut fmt::Formatter<W>) -> fmt::Result {
        match self {
            FragBad::FragOrder => write!(f, "a fragment out of order"),
            FragBad::FragTooLong { length } => write!(f, "a stub of {length} bytes"),
        }
    }
}

impl Error for FragBad {}

/// Why there is no call.
#[derive(Debug, Drop)]
pub enum FragError {
    /// Memory ran out.
    Memory,
    /// The fragment is refused.
    Bad(FragBad),
}

impl fmt::Display for FragError {
    fn fmt<W: fmt::Write>(&self, f: &mut fmt::Formatter<W>) -> fmt::Result {
        match self {
            FragError::Memory => write!(f, "out of memory"),
            FragError::Bad(bad) => write!(f, "{bad}"),
        }
    }
}

impl Error for FragError {}

impl From<FragBad> for FragError {
    ghost from_gives = { λ bad e. e ≡ Bad bad };

    fn from(bad: FragBad) -> FragError {
        FragError::Bad(bad)
    }
}

impl From<AllocError> for FragError {
    ghost from_gives = { λ _ e. e ≡ Memory };

    fn from(_: AllocError) -> FragError {
        FragError::Memory
    }
}

/// Where a stream has no PDU, and why.
#[derive(Clone, Copy, Debug, PartialEq, Eq)]
pub struct StreamBad {
    /// The place in the stream, as far as the splitter has counted, where the refused PDU begins.
    pub at: usize,
    pub why: PduBad,
}

impl fmt::Display for StreamBad {
    fn fmt<W: fmt::Write>(&self, f: &mut fmt::Formatter<W>) -> fmt::Result {
        write!(f, "{}, in the PDU at byte {}", self.why, self.at)
    }
}

impl Error for StreamBad {}

/// Why a stream gives no further PDU.
#[derive(Debug, Drop)]
pub enum StreamError {
    /// Memory ran out.
    Memory,
    /// The stream is refused.
    Bad(StreamBad),
}

impl fmt::Display for StreamError {
    fn fmt<W: fmt::Write>(&self, f: &mut fmt::Formatter<W>) -> fmt::Result {
        match self {
            StreamError::Memory => write!(f, "out of memory"),
            StreamError::Bad(bad) => write!(f, "{bad}"),
        }
    }
}

impl Error for StreamError {}
