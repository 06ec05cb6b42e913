ghost use Rattle.std.specs.Prelude.{◌≡◌, ◌<◌, ◌≤◌, length, vec_len, IfOk, IfSome, OnOk, OnErr, IsErrOf};
ghost use Rattle.std.specs.Io.KnownBytes.{IsAtEnd};
ghost use Rattle.frs_io.specs.Told.{Gives, GivesSome};
ghost use Rattle.frs_io.specs.Causes.{Rose};
ghost use Rattle.frs_io.specs.declared.reading.ReadError.TheVariants as errors;

use crate::{Failed, Source};
use std::alloc::{AllocError, AllocFailed, Global};
use std::error::Error;
use std::fmt;

/// How many bytes one call of `read` may give.
const BUFFER: usize = 65_536;

/// Why not all bytes of a source were read.
#[derive(Clone, Copy, Debug, PartialEq, Eq)]
pub enum ReadError {
    /// A call failed, and the source counted it.
    Failed,
    /// The source had more bytes left than the limit.
    TooLong,
    /// Memory ran out.
    Memory,
}

impl From<Failed> for ReadError {
    ghost from_gives = { λ _ e. e ≡ errors.Failed };

    fn from(_error: Failed) -> ReadError {
        ReadError::Failed
    }
}

impl From<AllocError> for ReadError {
    ghost from_gives = { λ _ e. e ≡ errors.Memory };

    fn from(_error: AllocError) -> ReadError {
        ReadError::Memory
    }
}

impl<T: Drop> From<AllocFailed<T>> for ReadError {
    ghost from_gives = { λ _ e. e ≡ errors.Memory };

    fn from(_error: AllocFailed<T>) -> ReadError {
        ReadError::Memory
    }
}

impl fmt::Display for ReadError {
    fn fmt<W: fmt::Write>(&self, f: &mut fmt::Formatter<W>) -> fmt::Result {
        match self {
            ReadError::Failed => write!(f, "a read failed"),
            ReadError::TooLong => write!(f, "there is more to read than the limit"),
            ReadError::Memory => write!(f, "memory ran out while reading"),
        }
    }
}

impl Error for ReadError {}

/// All that a source has left, refused where that is more than the limit, in bytes. After an error
/// some of it is read and lost.
pub fn read_to_limit<S: Source>(
    alloc: Global,
    source: &mut S,
    limit: usize,
) -> Result<Vec<u8>, ReadError>
    ensures all { IfOk result (λ found. Gives (S.left source.old) (S.left source.new) found.items) }
    ensures known { IfOk result (λ found. IfSome (S.left source.old) (λ bytes. found.items ≡ bytes)) }
    ensures end { OnOk result (IsAtEnd (S.left source.new)) }
    ensures within { IfOk result (λ found. length found.items ≤ limit) }
    ensures too_long { IsErrOf result ReadError.TooLong → IfSome (S.left source.old) (λ bytes. limit < length bytes) }
    ensures failed { IsErrOf result ReadError.Failed → Rose (S.faults source.old) (S.faults source.new) }
    ensures err { OnErr result (GivesSome (S.left source.old) (S.left source.new)) }
    ensures later { S.faults source.old ≤ S.faults source.new }
{
    let mut buffer = zeroes(alloc, BUFFER)?;
    let mut bytes = Vec::new(alloc);
    while bytes.len() <= limit {
        let count = source.read(buffer.as_mut_slice())?;
        if count == 0 {
            return Ok(bytes);
        }
        bytes.extend_from_slice(&buffer[..count])?;
    }
    Err(ReadError::TooLong)
}

/// This many zeroes.
fn zeroes(alloc: Global, count: usize) -> Result<Vec<u8>, AllocError>
    ensures { IfOk result (λ found. vec_len found ≡ count) }
{
    vec![in alloc; 0; count]
}
