// What consuming a journal record comes to.
ghost use Rattle.std.specs.Prelude.{Some};
ghost use Rattle.usn_consumer.specs.Errors.{error_text};

use std::alloc::AllocError;
use std::error::Error;
use std::fmt;
use win_order::Update;

/// What consuming the next journal record comes to.
#[derive(Debug, Drop, PartialEq, Eq)]
pub enum Consumed {
    /// It makes no update.
    Skip,
    /// It makes this one.
    Make(Update),
    /// There is no next record.
    End,
}

/// Why a journal record is not consumed.
#[derive(Clone, Copy, Debug, PartialEq, Eq)]
pub enum ConsumeError {
    /// The update's clock would be this one, 2^62 or more.
    Skewed { clock: u64 },
    /// Memory ran out.
    Memory,
}

impl fmt::Display for ConsumeError {
    ghost output = { λ e. Some (error_text e) };

    fn fmt<W: fmt::Write>(&self, f: &mut fmt::Formatter<W>) -> fmt::Result {
        match self {
            ConsumeError::Skewed { clock } => write!(f, "a clock of {clock}"),
            ConsumeError::Memory => write!(f, "out of memory"),
        }
    }
}

impl Error for ConsumeError {}

impl From<AllocError> for ConsumeError {
    ghost use Rattle.std.specs.Prelude.{◌≡◌};
    ghost use Rattle.usn_consumer.specs.declared.consumed.ConsumeError.TheVariants.{Memory};

    ghost from_gives = { λ _ e. e ≡ Memory };

    fn from(_: AllocError) -> Self {
        ConsumeError::Memory
    }
}
