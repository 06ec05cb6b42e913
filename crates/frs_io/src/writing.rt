ghost use Rattle.std.specs.Prelude.{◌≡◌, ◌<◌, ◌≤◌, [], OnOk, OnErr, string_bytes, string_len, nat_lt, if◌then◌else◌};
ghost use Rattle.frs_io.specs.Told.{HandsOn, Takes, TakesSome};
ghost use Rattle.frs_io.specs.Causes.{HasWriteCause};

use crate::{Sink, WriteError};
use std::alloc::Global;

/// How many bytes of text are pending before [`hand_on`] writes them.
pub const PIECE: usize = 65_536;

/// Writes all of these bytes.
pub fn write_all<K: Sink>(alloc: Global, sink: &mut K, bytes: &[u8]) -> Result<(), WriteError>
    ensures ok { OnOk result (Takes (K.taken sink.old) (K.taken sink.new) bytes.now) }
    ensures err { OnErr result (TakesSome (K.taken sink.old) (K.taken sink.new) bytes.now) }
    ensures cause { HasWriteCause (K.faults sink.old) (K.faults sink.new) result }
{
    let mut rest = bytes;
    while !rest.is_empty() {
        let count = sink.write(alloc, rest)?;
        rest = &rest[count..];
    }
    Ok(())
}

/// Hands text on in pieces: writes what is pending once it has [`PIECE`] bytes, and empties it.
/// Less is left pending.
pub fn hand_on<K: Sink>(alloc: Global, sink: &mut K, pending: &mut String) -> Result<(), WriteError>
    ensures moved { OnOk result (HandsOn (K.taken sink.old) (K.taken sink.new) (string_bytes pending.old) (string_bytes pending.new)) }
    ensures left { OnOk result (string_bytes pending.new ≡ (if nat_lt (string_len pending.old) PIECE then string_bytes pending.old else [])) }
    ensures small { OnOk result (string_len pending.new < PIECE) }
    ensures due { OnErr result (PIECE ≤ string_len pending.old) }
    ensures err { OnErr result (TakesSome (K.taken sink.old) (K.taken sink.new) (string_bytes pending.old)) }
    ensures kept { OnErr result (string_bytes pending.new ≡ string_bytes pending.old) }
    ensures cause { HasWriteCause (K.faults sink.old) (K.faults sink.new) result }
{
    if pending.len() < PIECE {
        return Ok(());
    }
    write_all(alloc, sink, pending.as_bytes())?;
    pending.clear();
    Ok(())
}
