ghost use Rattle.std.specs.Prelude.{◌≡◌, ◌<◌, List, ℕ, take, length, IfOk, MatchResult};
ghost use Rattle.std.specs.declared.option.Option.{Option};
ghost use Rattle.std.specs.Io.{WritesAtMost};
ghost use Rattle.frs_io.specs.Told.{Takes};
ghost use Rattle.frs_io.specs.Causes.{HasWriteCause};
ghost use Rattle.frs_io.specs.declared.sink.WriteError.TheVariants as errors;

use crate::Failed;
use std::alloc::{AllocError, AllocFailed, Global};
use std::error::Error;
use std::fmt;

/// Why bytes weren't written.
#[derive(Clone, Copy, Debug, PartialEq, Eq)]
pub enum WriteError {
    /// The call failed, and the sink counted it.
    Failed,
    /// Memory ran out.
    Memory,
}

impl From<AllocError> for WriteError {
    ghost from_gives = { λ _ e. e ≡ errors.Memory };

    fn from(_error: AllocError) -> WriteError {
        WriteError::Memory
    }
}

impl<T: Drop> From<AllocFailed<T>> for WriteError {
    ghost from_gives = { λ _ e. e ≡ errors.Memory };

    fn from(_error: AllocFailed<T>) -> WriteError {
        WriteError::Memory
    }
}

impl From<Failed> for WriteError {
    ghost from_gives = { λ _ e. e ≡ errors.Failed };

    fn from(_error: Failed) -> WriteError {
        WriteError::Failed
    }
}

impl fmt::Display for WriteError {
    fn fmt<W: fmt::Write>(&self, f: &mut fmt::Formatter<W>) -> fmt::Result {
        match self {
            WriteError::Failed => write!(f, "a write failed"),
            WriteError::Memory => write!(f, "memory ran out while writing"),
        }
    }
}

impl Error for WriteError {}

/// Where bytes are written.
pub trait Sink {
    /// All bytes that it took so far, where the sink tells them.
    ghost taken: { Self → Option (List ℕ) };

    /// How many calls on it failed.
    ghost faults: { Self → ℕ };

    /// Writes some first bytes of these, at least one where there are any, and answers how many.
    fn write(&mut self, alloc: Global, bytes: &[u8]) -> Result<usize, WriteError>
        ensures bound { WritesAtMost result bytes.now }
        ensures some { IfOk result (λ n. 0 < length bytes.now → 0 < n) }
        ensures taken { MatchResult result
            (λ n. Takes (taken self.old) (taken self.new) (take n bytes.now))
            (λ _. taken self.new ≡ taken self.old) }
        ensures cause { HasWriteCause (faults self.old) (faults self.new) result };
}
