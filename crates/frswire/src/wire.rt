// The program, from the bytes read to the bytes written.
ghost use Rattle.std.specs.Prelude.{◌≡◌, ◌⊎◌, ◌↔◌, ◌<◌, ◌≤◌, IfSome, length};
ghost use Rattle.std.specs.Io.KnownBytes.{IsAtEnd};
ghost use Rattle.frs_io.specs.Causes.{Rose};
ghost use Rattle.frswire.specs.Rows.{IsBadText, IsLongText, IsText, Writes, WritesSome};

use crate::rows::{Ending, write_rows};
use crate::status::Status;
use frs_io::{ReadError, Sink, Source, WriteError, read_to_limit};
use std::alloc::Global;

/// Reads rows to the end of the input, and writes what answers each of them.
///
/// `words` are those of the command line behind the program's name; there may be none. The whole
/// input is read before the first answer is written. A row that asks nothing ends the run: behind
/// the answers before it stands `bad line` and its number, counted from 1. A row that is too long
/// ends it behind the answers before it. An input of 2^64 bytes is
/// want of memory.
pub fn wire_main<S: Source, K: Sink>(
    alloc: Global,
    words: &[String],
    input: &mut S,
    out: &mut K,
) -> Status
    // No word is wanted, and nothing is read where there is one.
    ensures usage { (result ≡ Status.Usage) ↔ (0 < length words.now) }
    ensures unread { (result ≡ Status.Usage) → S.left input.new ≡ S.left input.old }

    // When it is done, all was read, and the answers of all rows were written.
    ensures end { result ≡ Status.Done → IsAtEnd (S.left input.new) }
    ensures done { result ≡ Status.Done → IfSome (S.left input.old) (λ bytes.
        Writes IsText bytes (K.taken out.old) (K.taken out.new)) }

    // Where a row asks nothing or is too long, the answers before it were written.
    ensures bad { result ≡ Status.RowBad → IfSome (S.left input.old) (λ bytes.
        Writes IsBadText bytes (K.taken out.old) (K.taken out.new)) }
    ensures large { result ≡ Status.TooLarge → IfSome (S.left input.old) (λ bytes.
        Writes IsLongText bytes (K.taken out.old) (K.taken out.new)) }

    // When it is cut short, what was written is a beginning of that, if only nothing.
    ensures cut_short { (result ≡ Status.WriteFault) → IfSome (S.left input.old) (λ bytes.
        WritesSome bytes (K.taken out.old) (K.taken out.new)) }
    ensures short_of_memory { (result ≡ Status.Memory) → IfSome (S.left input.old) (λ bytes.
        (K.taken out.new ≡ K.taken out.old)
        ⊎ WritesSome bytes (K.taken out.old) (K.taken out.new)) }

    // The causes of the other answers, after which nothing was written.
    ensures read_fault { result ≡ Status.ReadFault
        → Rose (S.faults input.old) (S.faults input.new) }
    ensures write_fault { result ≡ Status.WriteFault → Rose (K.faults out.old) (K.faults out.new) }
    ensures unwritten { (result ≡ Status.Usage) ⊎ (result ≡ Status.ReadFault)
        → K.taken out.new ≡ K.taken out.old }

    // No count falls.
    ensures read_later { S.faults input.old ≤ S.faults input.new }
    ensures write_later { K.faults out.old ≤ K.faults out.new }
{
    if !words.is_empty() {
        return Status::Usage;
    }
    let bytes = match read_to_limit(alloc, input, usize::MAX) {
        Ok(bytes) => bytes,
        Err(ReadError::Failed) => return Status::ReadFault,
        Err(ReadError::TooLong) => return Status::Memory,
        Err(ReadError::Memory) => return Status::Memory,
    };
    match write_rows(alloc, &bytes, out) {
        Ok(Ending::All) => Status::Done,
        Ok(Ending::Bad) => Status::RowBad,
        Ok(Ending::Long) => Status::TooLarge,
        Err(WriteError::Failed) => Status::WriteFault,
        Err(WriteError::Memory) => Status::Memory,
    }
}

#[cfg(test)]
mod tests;
